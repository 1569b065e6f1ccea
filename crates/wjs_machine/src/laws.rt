//! Laws of output that goes out while a run goes on, each the contract of a function that does nothing.
ghost use Rattle.wjs_machine.specs.Flushing.{OutputGoesOut, OutputTakesNoTurn};

use wjs_store::WorldStore;

/// What is left to do after a front of what is pending has gone out is what was left, after that output.
pub fn output_goes_out<S: WorldStore>()
    ensures { OutputGoesOut S.meaning }
{}

/// As many turns are left before the next step.
pub fn output_takes_no_turn<S: WorldStore>()
    ensures { OutputTakesNoTurn S.meaning }
{}

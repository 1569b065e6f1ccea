//! The bodies of programs (ECMA-262, 3rd edition, sections 10.2.1 and 14).
ghost use Rattle.wjs_meaning.specs.Deeds.{Eval, AtProgram, Ret};
ghost use Rattle.wjs_model.specs.Soundness.{HasCompletion};
ghost use Rattle.wjs_frames.specs.Handling.{Runs, GoesOn, Begins, Resumes};

use wjs_base::OutOfMemory;
use wjs_direct::run_elements;
use wjs_effects::{Sequence, dropped};
use wjs_frames::{due_later, finish};
use wjs_model::{CallPoint, Completion, Config, Frame, Point, Start};
use wjs_store::WorldStore;
use wjs_variables::{declare_program, program_body};

/// The program of the tree at hand begins: what it declares on the global object, and then its elements.
pub fn program<S: WorldStore>(config: &mut Config<S>, frame: Frame) -> Result<(), OutOfMemory>
    requires runs { Runs S.meaning config.old frame }
    ensures { Begins S.meaning frame Start.Program config.old config.new result }
{
    let mut frame = frame;
    let body = program_body(config, &frame);
    let tree = frame.tree();
    frame.set_node(tree, body);
    declare_program(config, &frame)?;
    run_elements(config, frame, Sequence::Program, 0)
}

/// After the program before it the body is entered, unless that one threw.
pub(crate) fn next_program<S: WorldStore>(
    config: &mut Config<S>,
    frame: Frame,
    completion: Completion,
) -> Result<(), OutOfMemory>
    requires runs { Runs S.meaning config.old frame }
    requires completion { HasCompletion config.old completion }
    ensures { Resumes S.meaning frame (Point.Call CallPoint.NextProgram) completion config.old config.new result }
{
    match completion {
        Completion::Throws(_) => finish(config, frame, completion),
        _ => enter_program(config, frame),
    }
}

/// The program's body is entered, in the place of the frame that was taken off.
fn enter_program<S: WorldStore>(config: &mut Config<S>, frame: Frame) -> Result<(), OutOfMemory>
    requires runs { Runs S.meaning config.old frame }
    ensures { GoesOn S.meaning frame config.old config.new result (λ t env. Eval AtProgram env Ret) }
{
    due_later(config, frame, Start::Program)
}

/// After the element of a program before this number.
pub(crate) fn after_program_element<S: WorldStore>(
    config: &mut Config<S>,
    frame: Frame,
    next: u32,
    completion: Completion,
) -> Result<(), OutOfMemory>
    requires runs { Runs S.meaning config.old frame }
    requires completion { HasCompletion config.old completion }
    ensures { Resumes S.meaning frame (Point.Call (CallPoint.ProgramElement next)) completion config.old config.new result }
{
    match completion {
        Completion::Normal => run_elements(config, frame, Sequence::Program, next),
        _ => finish(config, frame, completion),
    }
}

/// After the expression that is the element of a program before this number.
pub(crate) fn after_program_value<S: WorldStore>(
    config: &mut Config<S>,
    frame: Frame,
    next: u32,
    completion: Completion,
) -> Result<(), OutOfMemory>
    requires runs { Runs S.meaning config.old frame }
    requires completion { HasCompletion config.old completion }
    ensures { Resumes S.meaning frame (Point.Call (CallPoint.ProgramValue next)) completion config.old config.new result }
{
    after_program_element(config, frame, next, dropped(completion))
}

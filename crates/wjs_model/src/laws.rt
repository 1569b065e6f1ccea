//! Laws of what is left to do and of what is kept apart, each the contract of a function that does nothing.
ghost use Rattle.wjs_model.specs.Laws.{StartIsTheRun, EndsGoDown};
ghost use Rattle.wjs_model.specs.Others.{MayBeKeptApart, SoundKeepsApart, KeptApartStays};

use wjs_store::WorldStore;

/// What is left to do of the first frames, from the first objects and slots, is the run of the library's tree and the script's.
pub fn start_is_the_run()
    ensures { StartIsTheRun }
{}

/// A frame that is given the completion it waited for goes on as the frames do when the one above it ends with it.
pub fn ends_go_down()
    ensures { EndsGoDown }
{}

/// Owners whose objects a sound configuration doesn't name, and whose worlds aren't in its store, may be listed as kept apart.
pub fn may_be_kept_apart<S: WorldStore>()
    ensures { MayBeKeptApart S.meaning }
{}

/// A sound configuration names no object of an owner that it lists as kept apart, and its store has none of their worlds.
pub fn sound_keeps_apart<S: WorldStore>()
    ensures { SoundKeepsApart S.meaning }
{}

/// What a run has not been shown stays out of its reach: what holds of an owner that is kept apart holds after each call that
/// keeps the configuration sound.
pub fn kept_apart_stays<S: WorldStore>()
    ensures { KeptApartStays S.meaning }
{}

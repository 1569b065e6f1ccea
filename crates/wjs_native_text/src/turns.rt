//! A turn of a native function on texts or numbers: its conversions, and then it runs.
ghost use Rattle.std.specs.Prelude.{◌≡◌, false};
ghost use Rattle.wjs_model.specs.Soundness.{HasCompletion};
ghost use Rattle.wjs_frames.specs.Handling.{Runs, Begins, Resumes};
ghost use Rattle.wjs_natives.specs.Cores.{is_core};

use crate::runs::run;
use wjs_arena::Native;
use wjs_base::OutOfMemory;
use wjs_model::{Completion, Config, Frame, Point, Start};
use wjs_natives::{Progress, begin, resume};
use wjs_store::WorldStore;

/// The native function begins.
pub fn begin_text<S: WorldStore>(
    config: &mut Config<S>,
    frame: Frame,
    native: Native,
    by_new: bool,
) -> Result<(), OutOfMemory>
    requires runs { Runs S.meaning config.old frame }
    requires core { is_core native ≡ false }
    ensures { Begins S.meaning frame (Start.Native native by_new) config.old config.new result }
{
    match begin(config, frame, native, by_new)? {
        Progress::Over => Ok(()),
        Progress::Runs(frame, values) => run(config, frame, native, by_new, &values),
    }
}

/// It goes on after the conversion of its receiver, whose number is 0, or of an argument.
pub fn resume_text<S: WorldStore>(
    config: &mut Config<S>,
    frame: Frame,
    native: Native,
    by_new: bool,
    at: u32,
    completion: Completion,
) -> Result<(), OutOfMemory>
    requires runs { Runs S.meaning config.old frame }
    requires core { is_core native ≡ false }
    requires completion { HasCompletion config.old completion }
    ensures { Resumes S.meaning frame (Point.Native native by_new at) completion config.old config.new result }
{
    match resume(config, frame, native, by_new, at, completion)? {
        Progress::Over => Ok(()),
        Progress::Runs(frame, values) => run(config, frame, native, by_new, &values),
    }
}

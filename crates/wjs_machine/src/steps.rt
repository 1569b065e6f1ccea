//! The turn of the frame on top: it begins, or it goes on.
ghost use Rattle.std.specs.Prelude.{◌≡◌, OnOk};
ghost use Rattle.wjs_model.specs.Soundness.{HasStart, HasPoint, HasCompletion, Sound};
ghost use Rattle.wjs_frames.specs.Handling.{Runs, Begins, Resumes};
ghost use Rattle.wjs_frames.specs.Taking.{Turns};

use wjs_arena::Native;
use wjs_base::OutOfMemory;
use wjs_calls::call_held;
use wjs_eval_call::{body, call_after, conversion, program};
use wjs_eval_expr::{expr, expr_after, operation, target};
use wjs_eval_stmt::{again, statement, stmt_after, variables};
use wjs_frames::take_top;
use wjs_heap_steps::operand_completion;
use wjs_model::{Completion, Config, Frame, Phase, Point, Start, State};
use wjs_native_core::{apply_element, begin_core, resume_core};
use wjs_native_text::{begin_text, glue_element, resume_text};
use wjs_natives::is_core;
use wjs_store::WorldStore;

/// Takes the turn of the frame that runs, and writes nothing: output stays pending. After want of memory the configuration isn't
/// used again.
#[inline(always)]
pub fn step<S: WorldStore>(config: &mut Config<S>) -> Result<(), OutOfMemory>
    requires running { config.old.state ≡ State.Running }
    requires sound { Sound S.meaning config.old }
    ensures { OnOk result (Turns S.meaning config.old config.new) }
{
    match take_top(config) {
        None => Ok(()),
        Some((frame, phase)) => match phase {
            Phase::Due(start) => begin(config, frame, start),
            Phase::Ready(start) => begin(config, frame, start),
            Phase::Waiting(point) => resume(config, frame, point, Completion::Normal),
            Phase::Given(point, completion) => resume(config, frame, point, completion),
            Phase::Entering(point, operand) => {
                let completion = operand_completion(config, &frame, operand)?;
                resume(config, frame, point, completion)
            }
        },
    }
}

/// The frame begins.
fn begin<S: WorldStore>(
    config: &mut Config<S>,
    frame: Frame,
    start: Start,
) -> Result<(), OutOfMemory>
    requires runs { Runs S.meaning config.old frame }
    requires start { HasStart config.old start }
    ensures { Begins S.meaning frame start config.old config.new result }
{
    match start {
        Start::Expr => expr(config, frame),
        Start::Target => target(config, frame),
        Start::Operation(operator) => operation(config, frame, operator),
        Start::Stmt => statement(config, frame),
        Start::Again => again(config, frame),
        Start::Variables => variables(config, frame),
        Start::Program => program(config, frame),
        Start::Body(function) => body(config, frame, function),
        Start::Convert(to) => conversion(config, frame, to),
        Start::Call => call_held(config, frame),
        Start::Native(native, by_new) => begin_native(config, frame, native, by_new),
        Start::ApplyElement(at) => apply_element(config, frame, at),
        Start::GlueElement(at) => glue_element(config, frame, at),
    }
}

/// The frame goes on at a point with a completion.
fn resume<S: WorldStore>(
    config: &mut Config<S>,
    frame: Frame,
    point: Point,
    completion: Completion,
) -> Result<(), OutOfMemory>
    requires runs { Runs S.meaning config.old frame }
    requires point { HasPoint config.old frame point }
    requires completion { HasCompletion config.old completion }
    ensures { Resumes S.meaning frame point completion config.old config.new result }
{
    match point {
        Point::Expr(point) => expr_after(config, frame, point, completion),
        Point::Stmt(point) => stmt_after(config, frame, point, completion),
        Point::Call(point) => call_after(config, frame, point, completion),
        Point::Native(native, by_new, at) => resume_native(
            config, frame, native, by_new, at, completion,
        ),
    }
}

/// A native function at its entry.
fn begin_native<S: WorldStore>(
    config: &mut Config<S>,
    frame: Frame,
    native: Native,
    by_new: bool,
) -> Result<(), OutOfMemory>
    requires runs { Runs S.meaning config.old frame }
    ensures { Begins S.meaning frame (Start.Native native by_new) config.old config.new result }
{
    if is_core(native) {
        begin_core(config, frame, native, by_new)
    } else {
        begin_text(config, frame, native, by_new)
    }
}

/// A native function after the conversion of its receiver or of an argument.
fn resume_native<S: WorldStore>(
    config: &mut Config<S>,
    frame: Frame,
    native: Native,
    by_new: bool,
    at: u32,
    completion: Completion,
) -> Result<(), OutOfMemory>
    requires runs { Runs S.meaning config.old frame }
    requires completion { HasCompletion config.old completion }
    ensures { Resumes S.meaning frame (Point.Native native by_new at) completion config.old config.new result }
{
    if is_core(native) {
        resume_core(config, frame, native, by_new, at, completion)
    } else {
        resume_text(config, frame, native, by_new, at, completion)
    }
}

//! The operation of an assignment with an operator (ECMA-262, 3rd edition, section 11.13.2), in a frame of its own.
ghost use Rattle.std.specs.Prelude.{◌≡◌, slice_index_or};
ghost use Rattle.wjs_frames.specs.Handling.{Runs, Begins};

use wjs_base::{OutOfMemory, Value};
use wjs_model::{Config, Frame, Start};
use wjs_operators::operate;
use wjs_store::WorldStore;
use wjs_tree::BinaryOperator;

/// The operator is applied to the first two values that the frame holds.
pub fn operation<S: WorldStore>(
    config: &mut Config<S>,
    frame: Frame,
    operator: BinaryOperator,
) -> Result<(), OutOfMemory>
    requires runs { Runs S.meaning config.old frame }
    ensures { Begins S.meaning frame (Start.Operation operator) config.old config.new result }
{
    let values = frame.values(config.heap.arena.allocator())?;
    let first = value_among(values.as_slice(), 0);
    let second = value_among(values.as_slice(), 1);
    operate(config, frame, operator, first, second)
}

/// The value of a number, and undefined where there is none.
fn value_among(values: &[Value], at: usize) -> Value
    ensures { result ≡ slice_index_or values.now at Value.Undefined }
{
    match values.get(at) {
        Some(value) => *value,
        None => Value::Undefined,
    }
}

//! Values that a frame holds: the arguments of a call, or all of a native function's while one of them is converted.
ghost use Rattle.std.specs.Prelude.{◌≡◌, IfOk, All};
ghost use Rattle.wjs_model.specs.Contents.{values_held};
ghost use Rattle.wjs_model.specs.Frames.{earliest_first};
ghost use Rattle.wjs_model.specs.Soundness.{HasValue, HasItems};

use wjs_base::{OutOfMemory, Value};
use wjs_model::{Config, Held, Items};
use wjs_store::WorldStore;

/// The values, in order.
pub fn items_of<S: WorldStore>(config: &Config<S>, values: &[Value]) -> Result<Items, OutOfMemory>
    requires { All (HasValue config.now) values.now }
    ensures values { IfOk result (λ items. earliest_first (values_held items) ≡ values.now) }
    ensures found { IfOk result (λ items. HasItems config.now items) }
{
    let mut items = config.frames.nothing_held();
    for value in values {
        items.push(Held::Value(*value))?;
    }
    Ok(items)
}

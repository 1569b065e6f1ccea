//! Conversions.
ghost use Rattle.wjs_by_content.specs.Tables.{value_in};
ghost use Rattle.wjs_meaning.specs.Deeds.{Sub};
ghost use Rattle.wjs_model.specs.Rest.{begin_conversion};
ghost use Rattle.wjs_model.specs.Soundness.{HasPoint, HasValue};
ghost use Rattle.wjs_frames.specs.Parts.{then_at};
ghost use Rattle.wjs_frames.specs.Handling.{Runs, GoesOn};

use crate::waits::nest;
use wjs_base::{OutOfMemory, Value};
use wjs_model::{Config, Conversion, Frame, Held, Point, Start};
use wjs_store::WorldStore;

/// The frame waits at a point while a value is converted.
pub fn convert<S: WorldStore>(
    config: &mut Config<S>,
    frame: Frame,
    point: Point,
    conversion: Conversion,
    value: Value,
) -> Result<(), OutOfMemory>
    requires runs { Runs S.meaning config.old frame }
    requires point { HasPoint config.old frame point }
    requires value { HasValue config.old value }
    ensures { GoesOn S.meaning frame config.old config.new result (λ t env.
        Sub (begin_conversion conversion (value_in t value) env) (then_at S.meaning config.old frame point t env)) }
{
    let mut held = config.frames.nothing_held();
    held.push(Held::Value(value))?;
    let node = frame.node();
    nest(config, frame, point, Start::Convert(conversion), node, held)
}

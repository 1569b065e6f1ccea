//! `String.glue`: the texts in the slots of an object, one step each, with a separator between them.
ghost use Rattle.std.specs.Prelude.{◌≡◌, ◌∷◌, OnOk, All, map, false};
ghost use Rattle.wjs_by_content.specs.Tables.{value_in};
ghost use Rattle.wjs_by_content.specs.Values.{Undefined};
ghost use Rattle.wjs_meaning.specs.Natives.{native_line};
ghost use Rattle.wjs_model.specs.Soundness.{HasValue};
ghost use Rattle.wjs_frames.specs.Handling.{Runs, GoesOn, Begins};

use crate::strings::give_joined;
use wjs_arena::{Native, StringNative};
use wjs_base::{Name, ObjId, OutOfMemory, Value};
use wjs_frames::due_later;
use wjs_heap_steps::read;
use wjs_model::{Config, Frame, Held, Start, Trouble};
use wjs_natives::{value_at, whole_at};
use wjs_num::to_uint32;
use wjs_step_common::{give_text, held_elements, held_value, number_after, throw};
use wjs_store::WorldStore;

/// Begins with the first slot, where there is one: a step is due, in which it is read.
pub(crate) fn glue<S: WorldStore>(
    config: &mut Config<S>,
    mut frame: Frame,
    args: &[Value],
) -> Result<(), OutOfMemory>
    requires runs { Runs S.meaning config.old frame }
    requires args { All (HasValue config.old) args.now }
    ensures { GoesOn S.meaning frame config.old config.new result (λ t env.
        native_line (Native.String StringNative.Glue) false Undefined (map (value_in t) args.now) env) }
{
    let Value::Object(object) = value_at(args, 0) else {
        return throw(config, frame, Trouble::NotAnObject);
    };
    let count = to_uint32(whole_at(args, 1));
    if count == 0 {
        return give_text(config, frame, &[]);
    }
    frame.set_held(config.frames.nothing_held());
    hold_separator(&mut frame, value_at(args, 2), object, count)?;
    due_later(config, frame, Start::GlueElement(0))
}

/// Holds the separator that stands before the next piece, and then the object, so that no search for these two passes more.
fn hold_separator(
    frame: &mut Frame,
    separator: Value,
    object: ObjId,
    count: u32,
) -> Result<(), OutOfMemory>
    ensures { OnOk result (frame.new ≡ record frame.old { held = Held.Elements object count ∷ Held.Value separator ∷ frame.old.held }) }
{
    frame.hold(Held::Value(separator))?;
    frame.hold(Held::Elements(object, count))
}

/// Reads the slot of a number. The pieces are joined once all are read, so that no text is made in between.
pub fn glue_element<S: WorldStore>(
    config: &mut Config<S>,
    mut frame: Frame,
    at: u32,
) -> Result<(), OutOfMemory>
    requires runs { Runs S.meaning config.old frame }
    ensures { Begins S.meaning frame (Start.GlueElement at) config.old config.new result }
{
    let next = number_after(at)?;
    let separator = held_value(config, &frame);
    let (object, count) = held_elements(config, &frame);
    let piece = read(config, &frame, object, Name::Index(at))?;
    frame.hold(Held::Value(piece))?;
    if next < count {
        hold_separator(&mut frame, separator, object, count)?;
        return due_later(config, frame, Start::GlueElement(next));
    }
    let values = frame.values(config.heap.arena.allocator())?;
    give_joined(config, frame, &values[1..])
}

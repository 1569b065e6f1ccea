//! `split` (ECMA-262, 3rd edition, section 15.5.4.14).
ghost use Rattle.std.specs.Prelude.{◌≡◌, ◌∷◌, OnOk, IfOk, All, map, false, []};
ghost use Rattle.wjs_base.specs.Text.{Table, Grows, Has};
ghost use Rattle.wjs_by_content.specs.Tables.{value_in, text_in};
ghost use Rattle.wjs_by_content.specs.Values.{String};
ghost use Rattle.wjs_meaning.specs.Natives.{native_line};
ghost use Rattle.wjs_meaning.specs.NativesOfObjects as values;
ghost use Rattle.wjs_meaning.specs.NativesOfTexts as line;
ghost use Rattle.wjs_model.specs.Soundness.{Base, HasValue};
ghost use Rattle.wjs_frames.specs.Doing.{Does};
ghost use Rattle.wjs_frames.specs.Following.{Later};
ghost use Rattle.wjs_heap.specs.Means.{nothing};
ghost use Rattle.wjs_strings.specs.Pieces.{texts_of, up_to, has_room};
ghost use Rattle.wjs_native_text.specs.Limits.{limit_in};
ghost use Rattle.wjs_frames.specs.Handling.{Runs, GoesOn};

use crate::units::copied;
use std::alloc::Global;
use wjs_arena::{Native, StringNative};
use wjs_base::{OutOfMemory, TextId, Value};
use wjs_calls::make_array;
use wjs_heap_steps::intern;
use wjs_model::{Config, Frame};
use wjs_natives::{text_of, value_at};
use wjs_num::to_uint32;
use wjs_step_common::give;
use wjs_store::WorldStore;
use wjs_strings::{Piece, part_of, split};

/// The parts of a text between separators, as an Array.
pub(crate) fn give_parts<S: WorldStore>(
    config: &mut Config<S>,
    frame: Frame,
    this: Value,
    args: &[Value],
) -> Result<(), OutOfMemory>
    requires runs { Runs S.meaning config.old frame }
    requires this { HasValue config.old this }
    requires args { All (HasValue config.old) args.now }
    ensures { GoesOn S.meaning frame config.old config.new result (λ t env.
        native_line (Native.String StringNative.Split) false (value_in t this) (map (value_in t) args.now) env) }
{
    let pieces = pieces_of(config, this, value_at(args, 0), limit_of(value_at(args, 1)))?;
    let parts = parts_of(config, this, pieces.as_slice())?;
    let array = make_array(config, &frame, parts.as_slice())?;
    give(config, frame, Value::Object(array))
}

/// The limit that a value sets; None where it sets none.
fn limit_of(value: Value) -> Option<u32>
    ensures { (t : Table) → limit_in (value_in t value) ≡ result }
{
    match value {
        Value::Number(number) => Some(to_uint32(number)),
        _ => None,
    }
}

/// The pieces of a text between separators; what is no text separates nothing.
fn pieces_of<S: WorldStore>(
    config: &Config<S>,
    text: Value,
    separator: Value,
    limit: Option<u32>,
) -> Result<Vec<Piece>, OutOfMemory>
    requires text { HasValue config.now text }
    requires separator { HasValue config.now separator }
    ensures { IfOk result (λ pieces. (t : Table) → Grows config.now.heap.texts t →
        texts_of (values.text_of (value_in t text)) pieces.items ≡ up_to limit (line.parts_of (values.text_of (value_in t text)) (value_in t separator))) }
{
    let alloc = config.heap.arena.allocator();
    let units = text_of(config, text);
    if let Value::Text(_) = separator {
        return split(alloc, units, text_of(config, separator), limit);
    }
    whole_piece(alloc, units, limit)
}

/// The whole text as a piece, where any is allowed.
fn whole_piece(alloc: Global, text: &[u16], limit: Option<u32>) -> Result<Vec<Piece>, OutOfMemory>
    ensures { IfOk result (λ pieces. texts_of text.now pieces.items ≡ up_to limit (String text.now ∷ [])) }
{
    let mut pieces = Vec::new(alloc);
    if !allows_one(limit) {
        return Ok(pieces);
    }
    let whole = Piece {
        start: 0,
        end: text.len(),
    };
    pieces.push(whole)?;
    Ok(pieces)
}

/// Whether any part is wanted.
fn allows_one(limit: Option<u32>) -> bool
    ensures { result ≡ has_room limit 0 }
{
    match limit {
        Some(limit) => limit > 0,
        None => true,
    }
}

/// The texts of pieces. No deed is done; texts that are new are put last.
fn parts_of<S: WorldStore>(
    config: &mut Config<S>,
    text: Value,
    pieces: &[Piece],
) -> Result<Vec<Value>, OutOfMemory>
    requires base { Base S.meaning config.old }
    requires text { HasValue config.old text }
    ensures does { OnOk result (Does S.meaning (λ t go. go nothing) (λ t. nothing) config.old config.new) }
    ensures later { OnOk result (Later S.meaning config.old config.new) }
    ensures found { IfOk result (λ parts. All (HasValue config.new) parts.items) }
    ensures parts { IfOk result (λ parts. (t : Table) → Grows config.new.heap.texts t →
        map (value_in t) parts.items ≡ texts_of (values.text_of (value_in t text)) pieces.now) }
{
    let mut parts = Vec::new(config.heap.arena.allocator());
    for piece in pieces {
        let part = intern_piece(config, text, *piece)?;
        parts.push(Value::Text(part))?;
    }
    Ok(parts)
}

/// The text of a piece.
fn intern_piece<S: WorldStore>(
    config: &mut Config<S>,
    text: Value,
    piece: Piece,
) -> Result<TextId, OutOfMemory>
    requires base { Base S.meaning config.old }
    requires text { HasValue config.old text }
    ensures does { OnOk result (Does S.meaning (λ t go. go nothing) (λ t. nothing) config.old config.new) }
    ensures later { OnOk result (Later S.meaning config.old config.new) }
    ensures found { IfOk result (λ id. Has config.new.heap.texts id) }
    ensures text { IfOk result (λ id. (t : Table) → Grows config.new.heap.texts t →
        text_in t id ≡ line.part_of (values.text_of (value_in t text)) piece.start piece.end) }
{
    let alloc = config.heap.arena.allocator();
    let units = copied(
        alloc,
        part_of(text_of(config, text), piece.start, piece.end),
    )?;
    intern(config, units.as_slice())
}

//! Texts that are joined are made (ECMA-262, 3rd edition, section 11.6.1).
ghost use Rattle.std.specs.Prelude.{◌≡◌, ◌++◌, IfOk, OnOk};
ghost use Rattle.wjs_base.specs.Text.{Table, Grows};
ghost use Rattle.wjs_by_content.specs.Tables.{value_in};
ghost use Rattle.wjs_by_content.specs.Values.{String};
ghost use Rattle.wjs_model.specs.Soundness.{Base, HasValue};
ghost use Rattle.wjs_frames.specs.Doing.{Does};
ghost use Rattle.wjs_frames.specs.Following.{Later};
ghost use Rattle.wjs_effects.specs.Making.{spelled_if, joined, made_in, HasIf, HasMade, HasPieces};

use crate::effect::{Made, Pieces};
use wjs_base::{OutOfMemory, TextId, Value};
use wjs_heap_steps::{extend, intern};
use wjs_model::Config;
use wjs_step_common::push_text;
use wjs_store::WorldStore;

/// The value, which is made where it is a text that is still to be made.
#[inline(always)]
pub(crate) fn settle<S: WorldStore>(
    config: &mut Config<S>,
    made: Made,
) -> Result<Value, OutOfMemory>
    requires base { Base S.meaning config.old }
    requires made { HasMade config.old made }
    ensures does { IfOk result (λ v. Does S.meaning (λ t go. go (made_in t made)) (λ t. value_in t v) config.old config.new) }
    ensures later { OnOk result (Later S.meaning config.old config.new) }
    ensures found { IfOk result (λ v. HasValue config.new v) }
{
    match made {
        Made::There(value) => Ok(value),
        Made::Joined(pieces) => join(config, pieces),
    }
}

/// The text of pieces. Where the first is a text, only the others are copied.
fn join<S: WorldStore>(config: &mut Config<S>, pieces: Pieces) -> Result<Value, OutOfMemory>
    requires base { Base S.meaning config.old }
    requires pieces { HasPieces config.old pieces }
    ensures does { IfOk result (λ v. Does S.meaning (λ t go. go (String (joined t pieces))) (λ t. value_in t v) config.old config.new) }
    ensures later { OnOk result (Later S.meaning config.old config.new) }
    ensures found { IfOk result (λ v. HasValue config.new v) }
{
    match pieces.first {
        Value::Text(front) => join_behind(config, front, pieces),
        _ => join_all(config, pieces),
    }
}

/// The first is a text, which gets the units of the others.
fn join_behind<S: WorldStore>(
    config: &mut Config<S>,
    front: TextId,
    pieces: Pieces,
) -> Result<Value, OutOfMemory>
    requires base { Base S.meaning config.old }
    requires pieces { HasPieces config.old pieces }
    requires front { pieces.first ≡ Value.Text front }
    ensures does { IfOk result (λ v. Does S.meaning (λ t go. go (String (joined t pieces))) (λ t. value_in t v) config.old config.new) }
    ensures later { OnOk result (Later S.meaning config.old config.new) }
    ensures found { IfOk result (λ v. HasValue config.new v) }
{
    let mut units = Vec::new(config.heap.arena.allocator());
    push_text(config, &mut units, pieces.second)?;
    push_more(config, &mut units, pieces)?;
    let id = extend(config, front, units.as_slice())?;
    Ok(Value::Text(id))
}

/// The units of all are copied.
fn join_all<S: WorldStore>(config: &mut Config<S>, pieces: Pieces) -> Result<Value, OutOfMemory>
    requires base { Base S.meaning config.old }
    requires pieces { HasPieces config.old pieces }
    ensures does { IfOk result (λ v. Does S.meaning (λ t go. go (String (joined t pieces))) (λ t. value_in t v) config.old config.new) }
    ensures later { OnOk result (Later S.meaning config.old config.new) }
    ensures found { IfOk result (λ v. HasValue config.new v) }
{
    let mut units = Vec::new(config.heap.arena.allocator());
    push_text(config, &mut units, pieces.first)?;
    push_text(config, &mut units, pieces.second)?;
    push_more(config, &mut units, pieces)?;
    let id = intern(config, units.as_slice())?;
    Ok(Value::Text(id))
}

/// Puts the units of the third piece and the fourth behind others.
fn push_more<S: WorldStore>(
    config: &Config<S>,
    units: &mut Vec<u16>,
    pieces: Pieces,
) -> Result<(), OutOfMemory>
    requires base { Base S.meaning config.now }
    requires pieces { HasPieces config.now pieces }
    ensures { OnOk result ((t : Table) → Grows config.now.heap.texts t →
        units.new.items ≡ (units.old.items ++ spelled_if t pieces.third) ++ spelled_if t pieces.fourth) }
{
    push_if(config, units, pieces.third)?;
    push_if(config, units, pieces.fourth)
}

/// Puts the units of a piece that may be missing behind others.
#[inline(always)]
fn push_if<S: WorldStore>(
    config: &Config<S>,
    units: &mut Vec<u16>,
    piece: Option<Value>,
) -> Result<(), OutOfMemory>
    requires base { Base S.meaning config.now }
    requires piece { HasIf config.now piece }
    ensures { OnOk result ((t : Table) → Grows config.now.heap.texts t → units.new.items ≡ units.old.items ++ spelled_if t piece) }
{
    match piece {
        Some(value) => push_text(config, units, value),
        None => Ok(()),
    }
}

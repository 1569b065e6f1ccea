//! Texts of primitives (ECMA-262, 3rd edition, section 9.8), and names of members by value.
ghost use Rattle.std.specs.Prelude.{◌≡◌, ◌≤◌, ◌++◌, length, IfOk, OnOk, MatchOption};
ghost use Rattle.wjs_base.specs.Text.{Table, Grows, Has, longest};
ghost use Rattle.wjs_by_content.specs.Tables.{text_in, value_in, name_in};
ghost use Rattle.wjs_base.specs.Spelling.{greatest_index};
ghost use Rattle.wjs_by_content.specs.Names.{index_name};
ghost use Rattle.wjs_by_content.specs.Conversions.{primitive_text};
ghost use Rattle.wjs_meaning.specs.Errors as errors;
ghost use Rattle.wjs_model.specs.Soundness.{Base, HasValue, HasName};
ghost use Rattle.wjs_frames.specs.Doing.{Does};
ghost use Rattle.wjs_frames.specs.Following.{Later};
ghost use Rattle.wjs_frames.specs.Handling.{IsRunning, Runs, GoesOn};

use crate::ends::{give_extended, give_text};
use wjs_base::{Name, OutOfMemory, TextId, Value};
use wjs_heap_steps::{intern, name_of, units_of};
use wjs_model::{Config, Frame};
use wjs_num::write_radix;
use wjs_store::WorldStore;
use wjs_texts::LONGEST_TEXT;

/// `undefined`, `null`, `true` and `false`.
const UNDEFINED: [u16; 9] = [117, 110, 100, 101, 102, 105, 110, 101, 100];

const NULL: [u16; 4] = [110, 117, 108, 108];

const TRUE: [u16; 4] = [116, 114, 117, 101];

const FALSE: [u16; 5] = [102, 97, 108, 115, 101];

/// Puts the code units of a primitive's text behind others.
pub fn push_text<S: WorldStore>(
    config: &Config<S>,
    units: &mut Vec<u16>,
    value: Value,
) -> Result<(), OutOfMemory>
    requires base { Base S.meaning config.now }
    requires value { HasValue config.now value }
    ensures { OnOk result ((t : Table) → Grows config.now.heap.texts t → units.new.items ≡ units.old.items ++ primitive_text (value_in t value)) }
{
    match value {
        Value::Undefined => push_units(units, &UNDEFINED),
        Value::Null => push_units(units, &NULL),
        Value::Bool(true) => push_units(units, &TRUE),
        Value::Bool(false) => push_units(units, &FALSE),
        Value::Number(number) => {
            let digits = write_radix(*units.allocator(), number, 10)?;
            push_units(units, digits.as_slice())
        }
        Value::Text(id) => push_units(units, units_of(config, id)),
        Value::Object(_) => push_units(units, &[]),
    }
}

/// At most so many code units a primitive's text has: as many as there are of a text, and no more than 17 of every other primitive.
#[inline(always)]
pub fn most_units<S: WorldStore>(config: &Config<S>, value: Value) -> usize
    requires base { Base S.meaning config.now }
    requires value { HasValue config.now value }
    ensures most { (t : Table) → Grows config.now.heap.texts t → length (primitive_text (value_in t value)) ≤ result }
    ensures short { result ≤ longest }
{
    match value {
        Value::Text(id) => units_of(config, id).len(),
        _ => 17,
    }
}

fn push_units(units: &mut Vec<u16>, more: &[u16]) -> Result<(), OutOfMemory>
    ensures { OnOk result (units.new.items ≡ units.old.items ++ more.now) }
{
    units.extend_from_slice(more)?;
    Ok(())
}

/// The texts of two primitives, one behind the other. Where the left one is a text, only the right one is copied.
pub fn join<S: WorldStore>(
    config: &mut Config<S>,
    frame: Frame,
    left: Value,
    right: Value,
) -> Result<(), OutOfMemory>
    requires runs { Runs S.meaning config.old frame }
    requires left { HasValue config.old left }
    requires right { HasValue config.old right }
    ensures { GoesOn S.meaning frame config.old config.new result (λ t env.
        errors.give_text (primitive_text (value_in t left) ++ primitive_text (value_in t right)) env) }
{
    match left {
        Value::Text(front) => join_behind(config, frame, front, right),
        _ => join_both(config, frame, left, right),
    }
}

/// A text with that of a primitive behind it.
fn join_behind<S: WorldStore>(
    config: &mut Config<S>,
    frame: Frame,
    front: TextId,
    right: Value,
) -> Result<(), OutOfMemory>
    requires running { IsRunning S.meaning config.old }
    requires front { Has config.old.heap.texts front }
    requires right { HasValue config.old right }
    ensures { GoesOn S.meaning frame config.old config.new result (λ t env. errors.give_text (text_in t front ++ primitive_text (value_in t right)) env) }
{
    let mut units = Vec::new(config.heap.arena.allocator());
    push_text(config, &mut units, right)?;
    give_extended(config, frame, front, units.as_slice())
}

/// The texts of two primitives, both copied.
fn join_both<S: WorldStore>(
    config: &mut Config<S>,
    frame: Frame,
    left: Value,
    right: Value,
) -> Result<(), OutOfMemory>
    requires running { IsRunning S.meaning config.old }
    requires left { HasValue config.old left }
    requires right { HasValue config.old right }
    ensures { GoesOn S.meaning frame config.old config.new result (λ t env.
        errors.give_text (primitive_text (value_in t left) ++ primitive_text (value_in t right)) env) }
{
    let mut units = Vec::new(config.heap.arena.allocator());
    push_text(config, &mut units, left)?;
    push_text(config, &mut units, right)?;
    give_text(config, frame, units.as_slice())
}

/// The name that a primitive's text is. An index is its own name, with no text made.
pub fn name_of_value<S: WorldStore>(
    config: &mut Config<S>,
    value: Value,
) -> Result<Name, OutOfMemory>
    requires base { Base S.meaning config.old }
    requires value { HasValue config.old value }
    ensures does { IfOk result (λ name. Does S.meaning (λ t go. go (primitive_text (value_in t value))) (λ t. name_in t name) config.old config.new) }
    ensures later { OnOk result (Later S.meaning config.old config.new) }
    ensures found { IfOk result (λ name. HasName config.new name) }
{
    match index_of(value) {
        Some(index) => Ok(Name::Index(index)),
        None => name_by_text(config, value),
    }
}

/// The number, where it is an array index (section 15.4); None of every other value.
pub fn index_of(value: Value) -> Option<u32>
    ensures { MatchOption result (Unit {0}) (λ index. (index ≤ greatest_index) × ((t : Table) → primitive_text (value_in t value) ≡ index_name index)) }
{
    let Value::Number(number) = value else {
        return None;
    };
    match number.get() {
        Some(n) if n >= 0 && n < 4_294_967_295 => Some(n as u32),
        _ => None,
    }
}

/// The name of the text, which is made where it is new.
fn name_by_text<S: WorldStore>(config: &mut Config<S>, value: Value) -> Result<Name, OutOfMemory>
    requires base { Base S.meaning config.old }
    requires value { HasValue config.old value }
    ensures does { IfOk result (λ name. Does S.meaning (λ t go. go (primitive_text (value_in t value))) (λ t. name_in t name) config.old config.new) }
    ensures later { OnOk result (Later S.meaning config.old config.new) }
    ensures found { IfOk result (λ name. HasName config.new name) }
{
    if let Value::Text(id) = value {
        return Ok(name_of(config, id));
    }
    let mut units = Vec::new(config.heap.arena.allocator());
    push_text(config, &mut units, value)?;
    if units.len() > LONGEST_TEXT {
        return Err(OutOfMemory);
    }
    let id = intern(config, units.as_slice())?;
    Ok(name_of(config, id))
}

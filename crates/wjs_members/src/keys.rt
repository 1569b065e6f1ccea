//! The names that keys are: a word behind a dot or before a colon (ECMA-262, 5th edition, section 11.2.1), a text or a number
//! before a colon (3rd edition, section 11.1.5).
ghost use Rattle.std.specs.Prelude.{◌≡◌, ◌++◌, ◌∷◌, [], OnOk, IfOk};
ghost use Rattle.wjs_by_content.specs.Tables.{name_in};
ghost use Rattle.wjs_meaning.specs.Expressions as line;
ghost use Rattle.wjs_meaning.specs.Reading.{spelt_in, key_in};
ghost use Rattle.wjs_model.specs.Texts.{KnowsSpelt, KnowsKey};
ghost use Rattle.wjs_model.specs.Soundness.{Base, HasName};
ghost use Rattle.wjs_frames.specs.Doing.{Does};
ghost use Rattle.wjs_frames.specs.Following.{Later};

use std::alloc::Global;
use wjs_base::{Name, OutOfMemory, Value};
use wjs_heap_steps::{intern, name_of};
use wjs_model::Config;
use wjs_step_common::name_of_value;
use wjs_store::WorldStore;
use wjs_texts::LONGEST_TEXT;
use wjs_tree::{Key, PropertyKey, Spelt};

/// The name of a property in an object literal.
pub fn name_of_key<S: WorldStore>(
    config: &mut Config<S>,
    key: PropertyKey,
) -> Result<Name, OutOfMemory>
    requires base { Base S.meaning config.old }
    requires key { KnowsKey config.old.heap.texts key }
    ensures does { IfOk result (λ name. Does S.meaning (λ t go. go (line.key_name (key_in t key))) (λ t. name_in t name) config.old config.new) }
    ensures later { OnOk result (Later S.meaning config.old config.new) }
    ensures found { IfOk result (λ name. HasName config.new name) }
{
    match key {
        PropertyKey::Spelt(spelt) => spelt_name(config, spelt),
        PropertyKey::Text(id) => Ok(name_of(config, id)),
        PropertyKey::Number(number) => name_of_value(config, Value::Number(number)),
    }
}

/// The name that a word behind a dot is.
pub(crate) fn spelt_name<S: WorldStore>(
    config: &mut Config<S>,
    spelt: Spelt,
) -> Result<Name, OutOfMemory>
    requires base { Base S.meaning config.old }
    requires name { KnowsSpelt config.old.heap.texts spelt }
    ensures does { IfOk result (λ name. Does S.meaning (λ t go. go (spelt_in t spelt)) (λ t. name_in t name) config.old config.new) }
    ensures later { OnOk result (Later S.meaning config.old config.new) }
    ensures found { IfOk result (λ name. HasName config.new name) }
{
    match spelt {
        Spelt::Word(id) => Ok(name_of(config, id)),
        Spelt::Key(key) => key_name(config, key),
    }
}

/// The name that a reserved word is.
fn key_name<S: WorldStore>(config: &mut Config<S>, key: Key) -> Result<Name, OutOfMemory>
    requires base { Base S.meaning config.old }
    ensures does { IfOk result (λ name. Does S.meaning (λ t go. go (spelt_in t (Spelt.Key key))) (λ t. name_in t name) config.old config.new) }
    ensures later { OnOk result (Later S.meaning config.old config.new) }
    ensures found { IfOk result (λ name. HasName config.new name) }
{
    let units = units_of_word(config.heap.arena.allocator(), key.spelling())?;
    if units.len() > LONGEST_TEXT {
        return Err(OutOfMemory);
    }
    let id = intern(config, units.as_slice())?;
    Ok(name_of(config, id))
}

/// The code units of a word of ASCII characters.
fn units_of_word(alloc: Global, word: &str) -> Result<Vec<u16>, OutOfMemory>
    ensures { IfOk result (λ units. units.items ≡ word.now) }
{
    let bytes = word.as_bytes();
    let mut units = Vec::new(alloc);
    for byte in bytes {
        push_unit(&mut units, u16::from(*byte))?;
    }
    Ok(units)
}

fn push_unit(units: &mut Vec<u16>, unit: u16) -> Result<(), OutOfMemory>
    ensures { OnOk result (units.new.items ≡ units.old.items ++ unit ∷ []) }
{
    units.push(unit)?;
    Ok(())
}

//! The names that the machine itself uses.
ghost use Rattle.std.specs.Prelude.{◌≡◌, IfOk, IfSome, OnOk};
ghost use Rattle.wjs_base.specs.Spelling.{SpellsNoIndex};
ghost use Rattle.wjs_base.specs.Text.{Table, Finds, Grows};
ghost use Rattle.wjs_by_content.specs.Names.{slot};
ghost use Rattle.wjs_by_content.specs.Tables.{name_in, value_in};
ghost use Rattle.wjs_heap.specs.Means.{nothing};
ghost use Rattle.wjs_meaning.specs.Deeds.{Do, Write};
ghost use Rattle.wjs_meaning.specs.Properties as line;
ghost use Rattle.wjs_model.specs.Soundness.{Base, IsThere, HasObject, HasName, HasValue};
ghost use Rattle.wjs_frames.specs.Doing.{Does};
ghost use Rattle.wjs_frames.specs.Following.{Later};
ghost use Rattle.wjs_frames.specs.Parts.{env_in};
ghost use Rattle.wjs_texts.specs.Known.{text_of};

use crate::properties::get_value;
use crate::slots::write;
use crate::texts::{intern, name_of};
use wjs_base::{Name, ObjId, OutOfMemory, TextId, Value};
use wjs_model::{Config, Frame};
use wjs_store::WorldStore;
use wjs_texts::Known;

/// The number of the name's text; None exactly where no text of the table has it.
#[inline(always)]
fn find<S: WorldStore>(config: &mut Config<S>, known: Known) -> Option<TextId>
    ensures finds { Finds config.old.heap.texts (text_of known) result }
    ensures no_index { IfSome result (λ id. SpellsNoIndex config.old.heap.texts id) }
    ensures same { config.new ≡ config.old }
{
    config.heap.texts.known(known)
}

/// The name, whose text is put last where it is new. No deed is done.
#[inline(always)]
pub fn known_name<S: WorldStore>(config: &mut Config<S>, known: Known) -> Result<Name, OutOfMemory>
    requires base { Base S.meaning config.old }
    ensures does { IfOk result (λ name. Does S.meaning (λ t go. go (text_of known)) (λ t. name_in t name) config.old config.new) }
    ensures later { OnOk result (Later S.meaning config.old config.new) }
    ensures found { IfOk result (λ name. HasName config.new name) }
    ensures text { IfOk result (λ name. (t : Table) → Grows config.new.heap.texts t → name_in t name ≡ text_of known) }
{
    match find(config, known) {
        Some(id) => Ok(Name::Text(id)),
        None => new_name(config, known),
    }
}

/// The same of a name whose text is looked for anew.
fn new_name<S: WorldStore>(config: &mut Config<S>, known: Known) -> Result<Name, OutOfMemory>
    requires base { Base S.meaning config.old }
    ensures does { IfOk result (λ name. Does S.meaning (λ t go. go (text_of known)) (λ t. name_in t name) config.old config.new) }
    ensures later { OnOk result (Later S.meaning config.old config.new) }
    ensures found { IfOk result (λ name. HasName config.new name) }
    ensures text { IfOk result (λ name. (t : Table) → Grows config.new.heap.texts t → name_in t name ≡ text_of known) }
{
    let id = intern(config, known.units())?;
    Ok(name_of(config, id))
}

/// What [[Get]] finds under the name, where absent counts as undefined.
pub fn get_known<S: WorldStore>(
    config: &mut Config<S>,
    frame: &Frame,
    object: ObjId,
    name: Known,
) -> Result<Value, OutOfMemory>
    requires base { Base S.meaning config.old }
    requires there { IsThere S.meaning config.old frame.now }
    requires object { HasObject config.old object }
    ensures does { IfOk result (λ value. Does S.meaning (λ t. line.get_value object (text_of name) (env_in S.meaning config.old t frame.now))
        (λ t. value_in t value) config.old config.new) }
    ensures later { OnOk result (Later S.meaning config.old config.new) }
    ensures found { IfOk result (λ value. HasValue config.new value) }
{
    let name = known_name(config, name)?;
    get_value(config, frame, object, name)
}

/// Sets the slot of the name.
pub fn write_known<S: WorldStore>(
    config: &mut Config<S>,
    frame: &Frame,
    object: ObjId,
    name: Known,
    value: Value,
) -> Result<(), OutOfMemory>
    requires base { Base S.meaning config.old }
    requires there { IsThere S.meaning config.old frame.now }
    requires object { HasObject config.old object }
    requires value { HasValue config.old value }
    ensures does { IfOk result (λ _. Does S.meaning (λ t go. Do (Write frame.now.world (slot object (text_of name)) (Some (value_in t value))) go)
        (λ t. nothing) config.old config.new) }
    ensures later { OnOk result (Later S.meaning config.old config.new) }
{
    let name = known_name(config, name)?;
    write(config, frame, object, name, value)
}

//! Members (ECMA-262, 3rd edition, section 11.2.1).
ghost use Rattle.std.specs.Prelude.{◌≡◌, ℕ, false, IfSome};
ghost use Rattle.wjs_base.specs.Text.{Table, Grows};
ghost use Rattle.wjs_by_content.specs.Conversions as conversions;
ghost use Rattle.wjs_by_content.specs.Tables.{name_in, value_in};
ghost use Rattle.wjs_meaning.specs.Expressions as line;
ghost use Rattle.wjs_meaning.specs.Reading.{spelt_in};
ghost use Rattle.wjs_model.specs.Soundness.{Base, IsThere, HasName, HasValue};
ghost use Rattle.wjs_model.specs.Texts.{KnowsSpelt};
ghost use Rattle.wjs_quick.specs.Coming.{Comes};

use wjs_base::{Name, Value};
use wjs_heap_steps::{name_of, peek_member, peek_word};
use wjs_model::{Config, Frame};
use wjs_step_common::{index_of, is_nullish};
use wjs_store::WorldStore;
use wjs_tree::Spelt;

/// The member of a base by a name. None where it is not to be had at once, and of undefined and null.
#[inline(always)]
pub fn dotted<S: WorldStore>(
    config: &Config<S>,
    frame: &Frame,
    base: Value,
    name: Spelt,
) -> Option<Value>
    requires base { Base S.meaning config.now }
    requires there { IsThere S.meaning config.now frame.now }
    requires value { HasValue config.now base }
    requires name { KnowsSpelt config.now.heap.texts name }
    ensures does { IfSome result (λ v. (left : ℕ) →
        Comes S.meaning (λ t env. line.dot_base (spelt_in t name) env (line.give_value_of env) (value_in t base)) v config.now frame.now left left) }
    ensures found { IfSome result (λ v. HasValue config.now v) }
{
    if is_nullish(base) {
        return None;
    }
    match name {
        Spelt::Word(id) => peek_word(config, frame, base, id),
        Spelt::Key(_) => None,
    }
}

/// The member of a base by a value. None where it is not to be had at once, and where a text would be made for its name.
#[inline(always)]
pub fn indexed<S: WorldStore>(
    config: &Config<S>,
    frame: &Frame,
    base: Value,
    key: Value,
) -> Option<Value>
    requires base { Base S.meaning config.now }
    requires there { IsThere S.meaning config.now frame.now }
    requires value { HasValue config.now base }
    requires key { HasValue config.now key }
    ensures does { IfSome result (λ v. (left : ℕ) →
        Comes S.meaning (λ t env. line.at_index (value_in t base) env (line.give_value_of env) (value_in t key)) v config.now frame.now left left) }
    ensures found { IfSome result (λ v. HasValue config.now v) }
{
    if is_nullish(base) {
        return None;
    }
    let name = name_there(config, key)?;
    peek_member(config, frame, base, name)
}

/// The name that a primitive's text is, where no text has to be made for it: of an array index, or of a text.
#[inline(always)]
pub fn name_there<S: WorldStore>(config: &Config<S>, value: Value) -> Option<Name>
    requires base { Base S.meaning config.now }
    requires value { HasValue config.now value }
    ensures is { IfSome result (λ name. (t : Table) → Grows config.now.heap.texts t → conversions.primitive_text (value_in t value) ≡ name_in t name) }
    ensures primitive { IfSome result (λ name. (t : Table) → conversions.is_object (value_in t value) ≡ false) }
    ensures found { IfSome result (λ name. HasName config.now name) }
{
    match value {
        Value::Text(id) => Some(name_of(config, id)),
        Value::Number(_) => {
            let index = index_of(value)?;
            Some(Name::Index(index))
        }
        _ => None,
    }
}

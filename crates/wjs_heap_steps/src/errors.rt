//! The errors that the machine makes (ECMA-262, 3rd edition, section 15.11).
ghost use Rattle.std.specs.Prelude.{◌≡◌, ◌≤◌, ◌<◌, ◌∷◌, [], length, IfOk, OnOk};
ghost use Rattle.wjs_base.specs.Text.{Table, Grows, Units, longest};
ghost use Rattle.wjs_by_content.specs.Renamed.{Holds};
ghost use Rattle.wjs_by_content.specs.Names.{message_name};
ghost use Rattle.wjs_by_content.specs.Tables.{name_in, value_in, under_in};
ghost use Rattle.wjs_by_content.specs.Values.{String};
ghost use Rattle.wjs_meaning.specs.Deeds.{Do, Create};
ghost use Rattle.wjs_meaning.specs.Errors.{message_of, prototype_of, error_of, fixed_name};
ghost use Rattle.wjs_meaning.specs.Builtins as first;
ghost use Rattle.wjs_model.specs.Soundness.{Base, HasObject, HasName, HasValue};
ghost use Rattle.wjs_frames.specs.Doing.{Does};
ghost use Rattle.wjs_frames.specs.Following.{Later};
ghost use Rattle.wjs_texts.specs.Known.{text_of as known_text};

use crate::known::known_name;
use crate::makes::{builtin, create, object_of, one_fixed, two_fixed};
use crate::messages;
use crate::texts::{intern, text_of, units_of};
use wjs_arena::{Class, Under};
use wjs_base::{Name, ObjId, OutOfMemory, Value};
use wjs_meaning::{Builtin, Trouble};
use wjs_model::Config;
use wjs_store::WorldStore;
use wjs_texts::Known;

/// The name of the error of a commit that failed.
const COMMIT_FAILED: [u16; 12] = [67, 111, 109, 109, 105, 116, 70, 97, 105, 108, 101, 100];

/// Makes an error about no name.
pub fn create_error<S: WorldStore>(
    config: &mut Config<S>,
    trouble: Trouble,
) -> Result<ObjId, OutOfMemory>
    requires { Base S.meaning config.old }
    ensures does { IfOk result (λ o. Does S.meaning (λ t go. Do (Create config.old.owner (error_of trouble [])) go) (λ t. o) config.old config.new) }
    ensures later { OnOk result (Later S.meaning config.old config.new) }
    ensures found { IfOk result (λ o. HasObject config.new o) }
{
    let alloc = config.heap.arena.allocator();
    let message = messages::units_of_ascii(alloc, messages::message_of(trouble))?;
    create_with(config, trouble, message.as_slice())
}

/// Makes the error about a name that is not defined.
pub(crate) fn create_undefined<S: WorldStore>(
    config: &mut Config<S>,
    name: Name,
) -> Result<ObjId, OutOfMemory>
    requires base { Base S.meaning config.old }
    requires name { HasName config.old name }
    ensures does { IfOk result
        (λ o. Does S.meaning (λ t go. Do (Create config.old.owner (error_of Trouble.NotDefined (name_in t name))) go) (λ t. o) config.old config.new) }
    ensures later { OnOk result (Later S.meaning config.old config.new) }
    ensures found { IfOk result (λ o. HasObject config.new o) }
{
    let id = text_of(config, name)?;
    let alloc = config.heap.arena.allocator();
    let message = messages::message_about(alloc, units_of(config, id))?;
    create_with(config, Trouble::NotDefined, message.as_slice())
}

/// Makes an error with a message, which is the one about some name.
fn create_with<S: WorldStore>(
    config: &mut Config<S>,
    trouble: Trouble,
    message: &[u16],
) -> Result<ObjId, OutOfMemory>
    requires base { Base S.meaning config.old }
    requires short { length message.now ≤ longest }
    ensures does { IfOk result (λ o. (name : Table → Units) → ((t : Table) → Grows config.old.heap.texts t → message.now ≡ message_of trouble (name t)) →
        Does S.meaning (λ t go. Do (Create config.old.owner (error_of trouble (name t))) go) (λ t. o) config.old config.new) }
    ensures later { OnOk result (Later S.meaning config.old config.new) }
    ensures found { IfOk result (λ o. HasObject config.new o) }
{
    let fixed = fixed_of_fault(config, trouble, message)?;
    let prototype = builtin(config, prototype_of(trouble));
    let alloc = config.heap.arena.allocator();
    let mut object = object_of(alloc, Class::Fault, Some(prototype));
    object.fixed = fixed;
    create(config, object)
}

/// The fixed properties of an error with a message.
fn fixed_of_fault<S: WorldStore>(
    config: &mut Config<S>,
    trouble: Trouble,
    message: &[u16],
) -> Result<Under<Value>, OutOfMemory>
    requires base { Base S.meaning config.old }
    requires short { length message.now ≤ longest }
    ensures does { IfOk result (λ fixed. Does S.meaning (λ t go. go ((message_name, String message.now) ∷ fixed_name trouble))
        (λ t. under_in t (value_in t) fixed) config.old config.new) }
    ensures later { OnOk result (Later S.meaning config.old config.new) }
    ensures found { IfOk result (λ fixed. Holds (λ e. HasName config.new e.0 × HasValue config.new e.1) fixed) }
    ensures is { IfOk result
        (λ fixed. (t : Table) → Grows config.new.heap.texts t → under_in t (value_in t) fixed ≡ (message_name, String message.now) ∷ fixed_name trouble) }
{
    let first = text_under(config, Known::Message, message)?;
    match trouble {
        Trouble::CommitFailed => {
            let second = text_under(config, Known::Name, &COMMIT_FAILED)?;
            two_fixed(config.heap.arena.allocator(), first, second)
        }
        _ => one_fixed(config.heap.arena.allocator(), first.0, first.1),
    }
}

/// A text under a name of the machine's own. No deed is done.
fn text_under<S: WorldStore>(
    config: &mut Config<S>,
    known: Known,
    units: &[u16],
) -> Result<(Name, Value), OutOfMemory>
    requires base { Base S.meaning config.old }
    requires short { length units.now ≤ longest }
    ensures does { IfOk result (λ e. Does S.meaning (λ t go. go (known_text known)) (λ t. name_in t e.0) config.old config.new) }
    ensures later { OnOk result (Later S.meaning config.old config.new) }
    ensures name_found { IfOk result (λ e. HasName config.new e.0) }
    ensures value_found { IfOk result (λ e. HasValue config.new e.1) }
    ensures name { IfOk result (λ e. (t : Table) → Grows config.new.heap.texts t → name_in t e.0 ≡ known_text known) }
    ensures value { IfOk result (λ e. (t : Table) → Grows config.new.heap.texts t → value_in t e.1 ≡ String units.now) }
{
    let text = intern(config, units)?;
    let name = known_name(config, known)?;
    Ok((name, Value::Text(text)))
}

/// The prototype object of an error.
fn prototype_of(trouble: Trouble) -> Builtin
    ensures { first.builtin result ≡ prototype_of trouble }
{
    match trouble {
        Trouble::NotDefined => Builtin::ReferenceErrorPrototype,
        Trouble::OutOfRange
        | Trouble::NotWhole
        | Trouble::InvalidArrayLength
        | Trouble::TextTooLong
        | Trouble::InvalidRadix => Builtin::RangeErrorPrototype,
        Trouble::CommitFailed => Builtin::ErrorPrototype,
        _ => Builtin::TypeErrorPrototype,
    }
}

//! The native functions of Error and its kin (ECMA-262, 3rd edition, section 15.11).
ghost use Rattle.std.specs.Prelude.{◌≡◌, ◌<◌, OnOk, IfOk, IfSome, Some};
ghost use Rattle.std.specs.Option.{option_map};
ghost use Rattle.wjs_arena.specs.declared.class.Class.TheVariants as class;
ghost use Rattle.wjs_base.specs.Text.{Table, Grows, Has};
ghost use Rattle.wjs_by_content.specs.Objects as content;
ghost use Rattle.wjs_by_content.specs.Tables.{text_in, value_in, content_in};
ghost use Rattle.wjs_by_content.specs.Values.{String};
ghost use Rattle.wjs_by_content.specs.Conversions.{primitive_text};
ghost use Rattle.wjs_heap_steps.specs.Known.{text_of};
ghost use Rattle.wjs_meaning.specs.Builtins as first;
ghost use Rattle.wjs_meaning.specs.Deeds.{Do, Create};
ghost use Rattle.wjs_meaning.specs.Errors as errors;
ghost use Rattle.wjs_meaning.specs.NativesOfObjects as line;
ghost use Rattle.wjs_meaning.specs.Properties as properties;
ghost use Rattle.wjs_model.specs.Soundness.{Base, IsThere, HasObject, HasValue, HasContent};
ghost use Rattle.wjs_frames.specs.Doing.{Does};
ghost use Rattle.wjs_frames.specs.Parts.{env_in};
ghost use Rattle.wjs_frames.specs.Following.{Later};
ghost use Rattle.wjs_native_core.specs.Owning.{thrown_object, found_text};
ghost use Rattle.wjs_frames.specs.Handling.{Runs, GoesOn};

use crate::classes::class_name;
use wjs_arena::Class;
use wjs_base::{Content, ObjId, OutOfMemory, TextId, Value};
use wjs_heap_steps::{
    Known, builtin, class_of, create, get, intern, known_name, object_of, units_of, write_known,
};
use wjs_meaning::Builtin;
use wjs_model::{Config, Frame};
use wjs_step_common::{give, give_text, join};
use wjs_store::WorldStore;
use wjs_strings::fault_text;

/// A new error on a prototype, with a message where one is given (sections 15.11.1.1 and 15.11.7.2).
pub(crate) fn new_error<S: WorldStore>(
    config: &mut Config<S>,
    frame: Frame,
    prototype: Builtin,
    message: Value,
) -> Result<(), OutOfMemory>
    requires runs { Runs S.meaning config.old frame }
    requires message { HasValue config.old message }
    ensures { GoesOn S.meaning frame config.old config.new result (λ t env. line.new_error (first.builtin prototype) (value_in t message) env) }
{
    let error = create_fault(config, prototype)?;
    if let Value::Text(_) = message {
        write_known(config, &frame, error, Known::Message, message)?;
    }
    give(config, frame, Value::Object(error))
}

/// Makes an error on a prototype.
fn create_fault<S: WorldStore>(
    config: &mut Config<S>,
    prototype: Builtin,
) -> Result<ObjId, OutOfMemory>
    requires base { Base S.meaning config.old }
    ensures does { IfOk result (λ o. Does S.meaning (λ t go. Do (Create config.old.owner (content.object_of class.Fault (Some (first.builtin prototype)))) go)
        (λ t. o) config.old config.new) }
    ensures later { OnOk result (Later S.meaning config.old config.new) }
    ensures found { IfOk result (λ o. HasObject config.new o) }
{
    let prototype = builtin(config, prototype);
    let alloc = config.heap.arena.allocator();
    create(config, object_of(alloc, Class::Fault, Some(prototype)))
}

/// `toString`: the text of the receiver as of a thrown value (section 15.11.4.4).
pub(crate) fn give_error_text<S: WorldStore>(
    config: &mut Config<S>,
    frame: Frame,
    this: Value,
) -> Result<(), OutOfMemory>
    requires runs { Runs S.meaning config.old frame }
    requires this { HasValue config.old this }
    ensures { GoesOn S.meaning frame config.old config.new result (λ t env. line.error_to_string (value_in t this) env) }
{
    match this {
        Value::Object(object) => give_object_text(config, frame, object),
        _ => give_primitive_text(config, frame, this),
    }
}

/// The text of a primitive: it is joined with the empty text.
fn give_primitive_text<S: WorldStore>(
    config: &mut Config<S>,
    frame: Frame,
    value: Value,
) -> Result<(), OutOfMemory>
    requires runs { Runs S.meaning config.old frame }
    requires value { HasValue config.old value }
    ensures { GoesOn S.meaning frame config.old config.new result (λ t env. errors.give_text (primitive_text (value_in t value)) env) }
{
    let empty = intern(config, &[])?;
    join(config, frame, value, Value::Text(empty))
}

/// The text of an object: of an error its name and message, and else its class.
fn give_object_text<S: WorldStore>(
    config: &mut Config<S>,
    frame: Frame,
    object: ObjId,
) -> Result<(), OutOfMemory>
    requires runs { Runs S.meaning config.old frame }
    requires object { HasObject config.old object }
    ensures { GoesOn S.meaning frame config.old config.new result (λ t env. thrown_object object env) }
{
    match class_of(config, object) {
        Class::Fault => give_fault_text(config, frame, object),
        class => give_text(config, frame, class_name(class)),
    }
}

/// The name and the message of an error.
fn give_fault_text<S: WorldStore>(
    config: &mut Config<S>,
    frame: Frame,
    object: ObjId,
) -> Result<(), OutOfMemory>
    requires runs { Runs S.meaning config.old frame }
    requires object { HasObject config.old object }
    ensures { GoesOn S.meaning frame config.old config.new result (λ t env. line.object_text class.Fault object env (λ units. errors.give_text units env)) }
{
    let name = get_named(config, &frame, object, Known::Name)?;
    let message = get_named(config, &frame, object, Known::Message)?;
    let units = fault_units(config, name, message)?;
    give_text(config, frame, units.as_slice())
}

/// What [[Get]] finds under a name of the machine's own.
fn get_named<S: WorldStore>(
    config: &mut Config<S>,
    frame: &Frame,
    object: ObjId,
    name: Known,
) -> Result<Content, OutOfMemory>
    requires base { Base S.meaning config.old }
    requires there { IsThere S.meaning config.old frame.now }
    requires object { HasObject config.old object }
    ensures does { IfOk result (λ found. Does S.meaning (λ t. properties.get object (text_of name) (env_in S.meaning config.old t frame.now))
        (λ t. content_in t found) config.old config.new) }
    ensures later { OnOk result (Later S.meaning config.old config.new) }
    ensures found { IfOk result (λ found. HasContent config.new found) }
{
    let name = known_name(config, name)?;
    get(config, frame, object, name)
}

/// The text of an error by its name and its message, where both are texts.
fn fault_units<S: WorldStore>(
    config: &Config<S>,
    name: Content,
    message: Content,
) -> Result<Vec<u16>, OutOfMemory>
    requires name { HasContent config.now name }
    requires message { HasContent config.now message }
    ensures { IfOk result (λ units. (t : Table) → Grows config.now.heap.texts t → line.fault_text (content_in t name) (content_in t message) ≡ units.items) }
{
    match text_found(config, name) {
        Some(name) => units_under(config, name, message),
        None => fault_text(config.heap.arena.allocator(), class_name(Class::Fault), &[]),
    }
}

/// The text of an error under a name.
fn units_under<S: WorldStore>(
    config: &Config<S>,
    name: TextId,
    message: Content,
) -> Result<Vec<u16>, OutOfMemory>
    requires name { Has config.now.heap.texts name }
    requires message { HasContent config.now message }
    ensures { IfOk result (λ units. (t : Table) → Grows config.now.heap.texts t →
        line.fault_text (Some (String (text_in t name))) (content_in t message) ≡ units.items) }
{
    let alloc = config.heap.arena.allocator();
    match text_found(config, message) {
        Some(message) => fault_text(alloc, units_of(config, name), units_of(config, message)),
        None => fault_text(alloc, class_name(Class::Fault), &[]),
    }
}

/// The text that was found, if it is one.
fn text_found<S: WorldStore>(config: &Config<S>, found: Content) -> Option<TextId>
    requires { HasContent config.now found }
    ensures is { (t : Table) → found_text (content_in t found) ≡ option_map (text_in t) result }
    ensures found { IfSome result (λ id. Has config.now.heap.texts id) }
{
    let _config = config;
    match found {
        Content::Present(Value::Text(id)) => Some(id),
        _ => None,
    }
}

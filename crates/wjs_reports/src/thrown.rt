//! The text of a value that a run threw and nothing caught.
ghost use Rattle.std.specs.Prelude.{◌≡◌, true, IfOk, IfSome, OnOk};
ghost use Rattle.std.specs.Option.{option_map};
ghost use Rattle.wjs_base.specs.Text.{Table, Has, IsTable, Grows};
ghost use Rattle.wjs_base.specs.Unicode.{utf8_of};
ghost use Rattle.wjs_store.specs.Shown.{content_of};
ghost use Rattle.wjs_store.specs.Meaning.{worlds};
ghost use Rattle.wjs_arena.specs.declared.class.Class.TheVariants as class;
ghost use Rattle.wjs_arena.specs.Entries.{Objects};
ghost use Rattle.wjs_by_content.specs.Tables.{text_in, value_in, content_in, arena_in, knows_value};
ghost use Rattle.wjs_by_content.specs.Worlds.{worlds_in};
ghost use Rattle.wjs_by_content.specs.Conversions.{primitive_text};
ghost use Rattle.wjs_heap.specs.Heap.{HasContent, Performs};
ghost use Rattle.wjs_heap.specs.Means.{parts};
ghost use Rattle.wjs_by_content.specs.Properties as plan;
ghost use Rattle.wjs_meaning.specs.Builtins.{shown_class};
ghost use Rattle.wjs_meaning.specs.NativesOfObjects as line;
ghost use Rattle.wjs_model.specs.Soundness.{Base, HasObject, HasValue};
ghost use Rattle.wjs_reports.specs.Thrown.{Leaves, ShowsIn, shown_fault, shown_object, text_if};

use std::alloc::Global;
use wjs_arena::Class;
use wjs_base::{Content, ObjId, OutOfMemory, TextId, Value};
use wjs_convert::to_text;
use wjs_heap::Heap;
use wjs_model::Config;
use wjs_store::WorldStore;
use wjs_strings::fault_text;
use wjs_texts::{Texts, utf8_of_units};

/// `name` and `message`.
const NAME: [u16; 4] = [110, 97, 109, 101];

const MESSAGE: [u16; 7] = [109, 101, 115, 115, 97, 103, 101];

/// The shown names of classes.
const OBJECT: [u16; 6] = [79, 98, 106, 101, 99, 116];

const FUNCTION: [u16; 8] = [70, 117, 110, 99, 116, 105, 111, 110];

const ARRAY: [u16; 5] = [65, 114, 114, 97, 121];

const STRING: [u16; 6] = [83, 116, 114, 105, 110, 103];

const BOOLEAN: [u16; 7] = [66, 111, 111, 108, 101, 97, 110];

const NUMBER: [u16; 6] = [78, 117, 109, 98, 101, 114];

const ERROR: [u16; 5] = [69, 114, 114, 111, 114];

const WORLD: [u16; 5] = [87, 111, 114, 108, 100];

const MATH: [u16; 4] = [77, 97, 116, 104];

const SCOPE: [u16; 5] = [83, 99, 111, 112, 101];

/// The shown name of a class.
fn class_name(class: Class) -> &'static [u16]
    ensures { result.now ≡ shown_class class }
{
    match class {
        Class::Plain | Class::Arguments | Class::Global => &OBJECT,
        Class::Function => &FUNCTION,
        Class::Array => &ARRAY,
        Class::Text => &STRING,
        Class::Bool => &BOOLEAN,
        Class::Number => &NUMBER,
        Class::Fault => &ERROR,
        Class::World => &WORLD,
        Class::Math => &MATH,
        Class::Scope => &SCOPE,
    }
}

/// What [[Get]] finds in the configuration's first world under the name of these units (ECMA-262, 3rd edition, section 8.6.2.1).
fn property<S: WorldStore>(
    config: &mut Config<S>,
    object: ObjId,
    units: &[u16],
) -> Result<Content, OutOfMemory>
    requires base { Base S.meaning config.old }
    requires object { HasObject config.old object }
    ensures gets { IfOk result
        (λ found. Performs config.old.world (λ t. plan.get (arena_in t config.old.heap.arena) object units.now) (λ t. content_in t found)
        (parts S.meaning config.old.heap) (parts S.meaning config.new.heap)) }
    ensures leaves { OnOk result (Leaves S.meaning config.old config.new) }
    ensures found { IfOk result (λ found. HasContent config.new.heap.texts config.new.heap.arena (content_of found)) }
{
    let id = config.heap.texts.intern(units)?;
    let name = config.heap.texts.name_of(id);
    let found = wjs_props::get(&mut config.heap, config.world, object, name)?;
    Ok(found)
}

/// The text that a content is, if it is one.
fn text_of(content: Content) -> Option<TextId>
    ensures text { (t : Table) → option_map (text_in t) result ≡ text_if (content_in t content) }
    ensures found { (texts : Table) (arena : Objects) → HasContent texts arena (content_of content) → IfSome result (Has texts) }
{
    match content {
        Content::Present(Value::Text(id)) => Some(id),
        _ => None,
    }
}

/// The name of an error's class.
fn error_class(alloc: Global) -> Result<Vec<u16>, OutOfMemory>
    ensures { IfOk result (λ units. units.items ≡ shown_class class.Fault) }
{
    Ok(Vec::from_slice(alloc, class_name(Class::Fault))?)
}

/// The text of an error by what stands under its name and its message; where one of them is no text, the name of its class.
fn fault_units<S: WorldStore>(
    heap: &Heap<S>,
    name: Content,
    message: Content,
) -> Result<Vec<u16>, OutOfMemory>
    requires name { HasContent heap.now.texts heap.now.arena (content_of name) }
    requires message { HasContent heap.now.texts heap.now.arena (content_of message) }
    ensures { let t = heap.now.texts in IfOk result (λ units. units.items ≡ line.fault_text (content_in t name) (content_in t message)) }
{
    let alloc = heap.arena.allocator();
    let Some(name) = text_of(name) else {
        return error_class(alloc);
    };
    let Some(message) = text_of(message) else {
        return error_class(alloc);
    };
    fault_text(alloc, heap.texts.units(name), heap.texts.units(message))
}

/// The text of an error, whose name and message are found in the configuration's first world.
fn show_fault<S: WorldStore>(config: &mut Config<S>, object: ObjId) -> Result<Vec<u8>, OutOfMemory>
    requires base { Base S.meaning config.old }
    requires object { HasObject config.old object }
    ensures shows { let t = config.old.heap.texts in
        IfOk result (λ bytes. bytes.items ≡ utf8_of
        (shown_fault (arena_in t config.old.heap.arena) (worlds_in t (worlds (S.meaning config.old.heap.store))) config.old.world object)) }
    ensures leaves { OnOk result (Leaves S.meaning config.old config.new) }
{
    let name = property(config, object, &NAME)?;
    let message = property(config, object, &MESSAGE)?;
    let units = fault_units(&config.heap, name, message)?;
    utf8_of_units(config.heap.arena.allocator(), units.as_slice())
}

/// The text of an object, by its class.
fn show_object<S: WorldStore>(config: &mut Config<S>, object: ObjId) -> Result<Vec<u8>, OutOfMemory>
    requires base { Base S.meaning config.old }
    requires object { HasObject config.old object }
    ensures shows { let t = config.old.heap.texts in
        IfOk result (λ bytes. bytes.items ≡ utf8_of
        (shown_object (arena_in t config.old.heap.arena) (worlds_in t (worlds (S.meaning config.old.heap.store))) config.old.world object)) }
    ensures leaves { OnOk result (Leaves S.meaning config.old config.new) }
{
    let class = config.heap.arena.class(object);
    match class {
        Class::Fault => show_fault(config, object),
        _ => utf8_of_units(config.heap.arena.allocator(), class_name(class)),
    }
}

/// The text of a primitive (ECMA-262, 3rd edition, section 9.8).
fn show_primitive(alloc: Global, texts: &mut Texts, value: Value) -> Result<Vec<u8>, OutOfMemory>
    requires { knows_value texts.old value ≡ true }
    ensures shows { IfOk result (λ bytes. bytes.items ≡ utf8_of (primitive_text (value_in texts.old value))) }
    ensures table { OnOk result (IsTable texts.new) }
    ensures grows { Grows texts.old texts.new }
{
    let id = to_text(alloc, texts, value)?;
    utf8_of_units(alloc, texts.units(id))
}

/// The text of a value that a run threw, in UTF-8, where a half of a surrogate pair is U+FFFD.
///
/// Of a primitive it is what `String` makes of it. Of an error whose `name` and `message` are texts in the configuration's
/// first world it is the name, and the message behind it where that isn't empty, as `Error.prototype.toString` puts them
/// (ECMA-262, 3rd edition, section 15.11.4.4). Of another object it is the name of its class. No code of the script runs for
/// it. Of the configuration only the texts change, and the store, which was read: a run may go on afterwards. A store that is
/// spent has no text to give, and want of memory is answered.
pub fn show_thrown<S: WorldStore>(
    config: &mut Config<S>,
    value: Value,
) -> Result<Vec<u8>, OutOfMemory>
    requires base { Base S.meaning config.old }
    requires value { HasValue config.old value }
    ensures shows { IfOk result (λ bytes. ShowsIn S.meaning config.old value bytes.items) }
    ensures leaves { OnOk result (Leaves S.meaning config.old config.new) }
{
    if config.heap.store.is_spent() {
        return Err(OutOfMemory);
    }
    match value {
        Value::Object(object) => show_object(config, object),
        _ => {
            let alloc = config.heap.arena.allocator();
            show_primitive(alloc, &mut config.heap.texts, value)
        }
    }
}

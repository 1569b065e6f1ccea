//! The names of classes, as they are shown.
ghost use Rattle.std.specs.Prelude.{◌≡◌, ◌≤◌, length};
ghost use Rattle.wjs_meaning.specs.Builtins as line;

use wjs_arena::Class;

const OBJECT: [u16; 6] = [79, 98, 106, 101, 99, 116];

const STRING: [u16; 6] = [83, 116, 114, 105, 110, 103];

const BOOLEAN: [u16; 7] = [66, 111, 111, 108, 101, 97, 110];

const ERROR: [u16; 5] = [69, 114, 114, 111, 114];

const FUNCTION: [u16; 8] = [70, 117, 110, 99, 116, 105, 111, 110];

const ARRAY: [u16; 5] = [65, 114, 114, 97, 121];

const NUMBER: [u16; 6] = [78, 117, 109, 98, 101, 114];

const WORLD: [u16; 5] = [87, 111, 114, 108, 100];

const MATH: [u16; 4] = [77, 97, 116, 104];

const SCOPE: [u16; 5] = [83, 99, 111, 112, 101];

/// The shown name of a class.
pub(crate) fn class_name(class: Class) -> &'static [u16]
    ensures { result.now ≡ line.shown_class class }
{
    match class {
        Class::Plain | Class::Arguments | Class::Global => &OBJECT,
        Class::Text => &STRING,
        Class::Bool => &BOOLEAN,
        Class::Fault => &ERROR,
        Class::Function => &FUNCTION,
        Class::Array => &ARRAY,
        Class::Number => &NUMBER,
        Class::World => &WORLD,
        Class::Math => &MATH,
        Class::Scope => &SCOPE,
    }
}

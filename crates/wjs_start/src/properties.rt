//! The slots of the first world.
ghost use Rattle.std.specs.Prelude.{◌≡◌, ◌<◌, ◌+◌, ◌^◌, ◌++◌, ◌∷◌, [], map, length, IfOk, OnOk};
ghost use Rattle.wjs_meaning.specs.Start as start;
ghost use Rattle.wjs_meaning.specs.Table as table;
ghost use Rattle.wjs_start.specs.Properties.{property_in, given_in, first_values, error_values};

use crate::builtins::{
    ARRAY_PROTOTYPE, ERROR_PROTOTYPE, FIRST_NATIVE, GLOBAL_OBJECT, MATH_OBJECT,
    RANGE_ERROR_PROTOTYPE, REFERENCE_ERROR_PROTOTYPE, TYPE_ERROR_PROTOTYPE,
};
use crate::natives::natives;
use std::alloc::Global;
use wjs_arena::Native;
use wjs_base::{ObjId, OutOfMemory};
use wjs_meaning::row_of;

/// What a slot holds, its text in ASCII.
#[derive(Clone, Copy)]
pub(crate) enum Given {
    Undefined,
    NotANumber,
    Zero,
    Text(&'static [u8]),
    Object(ObjId),
}

/// A slot with its value. All are hidden, and some are kept.
#[derive(Clone, Copy)]
pub(crate) struct Property {
    pub(crate) object: ObjId,
    /// In ASCII.
    pub(crate) name: &'static [u8],
    pub(crate) value: Given,
    pub(crate) kept: bool,
}

/// All slots of the first world (ECMA-262, 3rd edition, section 15).
pub(crate) fn properties(alloc: Global) -> Result<Vec<Property>, OutOfMemory>
    ensures { IfOk result (λ list. map property_in list.items ≡ start.properties) }
{
    let mut list = Vec::new(alloc);
    push_values(&mut list)?;
    push_errors(&mut list)?;
    push_natives(&mut list, FIRST_NATIVE, natives())?;
    Ok(list)
}

fn push(list: &mut Vec<Property>, property: Property) -> Result<(), OutOfMemory>
    ensures { OnOk result (map property_in list.new.items ≡ map property_in list.old.items ++ property_in property ∷ []) }
{
    list.push(property)?;
    Ok(())
}

/// Puts a hidden slot last.
fn push_hidden(
    list: &mut Vec<Property>,
    object: ObjId,
    name: &'static [u8],
    value: Given,
) -> Result<(), OutOfMemory>
    ensures { OnOk result (map property_in list.new.items ≡ map property_in list.old.items ++ start.property object name.now (given_in value) ∷ []) }
{
    push(
        list,
        Property {
            object,
            name,
            value,
            kept: false,
        },
    )
}

/// Puts a slot last that is hidden and kept.
fn push_kept(
    list: &mut Vec<Property>,
    object: ObjId,
    name: &'static [u8],
    value: Given,
) -> Result<(), OutOfMemory>
    ensures { OnOk result (map property_in list.new.items ≡ map property_in list.old.items ++ start.kept_property object name.now (given_in value) ∷ []) }
{
    push(
        list,
        Property {
            object,
            name,
            value,
            kept: true,
        },
    )
}

/// The values that are no native functions, and the `length` of the arrays' prototype object.
fn push_values(list: &mut Vec<Property>) -> Result<(), OutOfMemory>
    ensures { OnOk result (map property_in list.new.items ≡ map property_in list.old.items ++ first_values) }
{
    push_kept(list, GLOBAL_OBJECT, b"NaN", Given::NotANumber)?;
    push_kept(list, GLOBAL_OBJECT, b"undefined", Given::Undefined)?;
    push_hidden(list, GLOBAL_OBJECT, b"Math", Given::Object(MATH_OBJECT))?;
    push_kept(list, ARRAY_PROTOTYPE, b"length", Given::Zero)
}

fn push_errors(list: &mut Vec<Property>) -> Result<(), OutOfMemory>
    ensures { OnOk result (map property_in list.new.items ≡ map property_in list.old.items ++ error_values) }
{
    push_error(list, ERROR_PROTOTYPE, b"Error")?;
    push_error(list, TYPE_ERROR_PROTOTYPE, b"TypeError")?;
    push_error(list, RANGE_ERROR_PROTOTYPE, b"RangeError")?;
    push_error(list, REFERENCE_ERROR_PROTOTYPE, b"ReferenceError")
}

/// The name and the empty message of an error's prototype object.
fn push_error(
    list: &mut Vec<Property>,
    object: ObjId,
    name: &'static [u8],
) -> Result<(), OutOfMemory>
    ensures { OnOk result (map property_in list.new.items ≡ map property_in list.old.items ++ start.error_properties object name.now) }
{
    push_hidden(list, object, b"name", Given::Text(name))?;
    push_hidden(list, object, b"message", Given::Text(b""))
}

/// Where natives stand, the first of them being the object of this number.
fn push_natives(list: &mut Vec<Property>, first: u64, natives: &[Native]) -> Result<(), OutOfMemory>
    requires { first + length natives.now < 2 ^ 64 }
    ensures { OnOk result (map property_in list.new.items ≡ map property_in list.old.items ++ start.native_properties first natives.now) }
{
    for (i, native) in natives.iter().enumerate() {
        let function = ObjId {
            owner: 0,
            serial: first + i as u64,
        };
        push_native(list, *native, function)?;
    }
    Ok(())
}

/// A native on its holder, and on a constructor's prototype object the constructor.
fn push_native(list: &mut Vec<Property>, native: Native, function: ObjId) -> Result<(), OutOfMemory>
    ensures { OnOk result (map property_in list.new.items ≡ map property_in list.old.items ++ start.row_properties (table.row_of native) function) }
{
    let row = row_of(native);
    push_hidden(list, row.holder, row.name, Given::Object(function))?;
    match row.prototype {
        Some(prototype) => push_hidden(list, prototype, b"constructor", Given::Object(function)),
        None => Ok(()),
    }
}

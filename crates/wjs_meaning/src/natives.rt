//! The table of the native functions: one row for each.
ghost use Rattle.std.specs.Prelude.{◌≡◌};
ghost use Rattle.wjs_meaning.specs.Builtins.{builtin};
ghost use Rattle.wjs_meaning.specs.Rows.{row_in};
ghost use Rattle.wjs_meaning.specs.Table as table;

use crate::builtin::Builtin;
use crate::kinds::Kind::{
    AsIs, IntegerIfGiven, NumberIfGiven, TextIfGiven, ToInteger, ToNumber, ToText,
};
use crate::kinds::Kinds::{Each, IfGiven, Nothing, One, Three, Two};
use crate::kinds::{Kind, Kinds};
use wjs_arena::{
    ArrayNative, BooleanNative, ErrorNative, FunctionNative, GlobalNative, MathNative, Native,
    NumberNative, ObjectNative, StringNative, WorldNative,
};
use wjs_base::ObjId;

/// Where a native function stands before the first step, and how its receiver and arguments are converted.
#[derive(Clone, Copy)]
pub struct Row {
    /// The object that has it as a property.
    pub holder: ObjId,
    /// The property's name, in ASCII.
    pub name: &'static [u8],
    /// Its `length`.
    pub formals: u32,
    /// The prototype object of a constructor.
    pub prototype: Option<ObjId>,
    pub this: Kind,
    pub arguments: Kinds,
}

/// The constructor `Array`.
const ARRAY: ObjId = ObjId {
    owner: 0,
    serial: 36,
};

/// The constructor `String`.
const STRING: ObjId = ObjId {
    owner: 0,
    serial: 38,
};

/// A native on an object.
fn held(holder: ObjId, name: &'static [u8], formals: u32, this: Kind, arguments: Kinds) -> Row
    ensures { row_in result ≡ table.on holder name.now formals this arguments }
{
    Row {
        holder,
        name,
        formals,
        prototype: None,
        this,
        arguments,
    }
}

/// A native on an object that no row makes.
fn on(holder: Builtin, name: &'static [u8], formals: u32, this: Kind, arguments: Kinds) -> Row
    ensures { row_in result ≡ table.on (builtin holder) name.now formals this arguments }
{
    held(holder.object(), name, formals, this, arguments)
}

/// A constructor on the global object.
fn makes(prototype: Builtin, name: &'static [u8], formals: u32, arguments: Kinds) -> Row
    ensures { row_in result ≡ table.makes (builtin prototype) name.now formals arguments }
{
    Row {
        holder: Builtin::Global.object(),
        name,
        formals,
        prototype: Some(prototype.object()),
        this: AsIs,
        arguments,
    }
}

/// The row of a native (ECMA-262, 3rd edition, section 15).
pub fn row_of(native: Native) -> Row
    ensures { row_in result ≡ table.row_of native }
{
    match native {
        Native::Global(native) => global_row(native),
        Native::Object(native) => object_row(native),
        Native::Function(native) => function_row(native),
        Native::Error(native) => error_row(native),
        Native::World(native) => world_row(native),
        Native::Array(native) => array_row(native),
        Native::String(native) => string_row(native),
        Native::Number(native) => number_row(native),
        Native::Boolean(native) => boolean_row(native),
        Native::Math(native) => math_row(native),
    }
}

fn global_row(native: GlobalNative) -> Row
    ensures { row_in result ≡ (table.global_native native).row }
{
    let holder = Builtin::Global;
    match native {
        GlobalNative::Print => on(holder, b"print", 1, AsIs, One(ToText)),
        GlobalNative::ParseInt => on(holder, b"parseInt", 2, AsIs, Two(ToText, ToNumber)),
        GlobalNative::IsNaN => on(holder, b"isNaN", 1, AsIs, One(ToNumber)),
    }
}

fn object_row(native: ObjectNative) -> Row
    ensures { row_in result ≡ (table.object_native native).row }
{
    let holder = Builtin::ObjectPrototype;
    match native {
        ObjectNative::Constructor => makes(Builtin::ObjectPrototype, b"Object", 1, One(AsIs)),
        ObjectNative::ToString => on(holder, b"toString", 0, AsIs, Nothing),
        ObjectNative::ValueOf => on(holder, b"valueOf", 0, AsIs, Nothing),
        ObjectNative::HasOwnProperty => on(holder, b"hasOwnProperty", 1, AsIs, One(ToText)),
        ObjectNative::PropertyIsEnumerable => on(
            holder,
            b"propertyIsEnumerable",
            1,
            AsIs,
            One(ToText),
        ),
        ObjectNative::IsPrototypeOf => on(holder, b"isPrototypeOf", 1, AsIs, One(AsIs)),
    }
}

fn function_row(native: FunctionNative) -> Row
    ensures { row_in result ≡ (table.function_native native).row }
{
    let holder = Builtin::FunctionPrototype;
    match native {
        FunctionNative::Constructor => makes(Builtin::FunctionPrototype, b"Function", 1, Nothing),
        FunctionNative::Prototype => on(Builtin::ObjectPrototype, b"anonymous", 0, AsIs, Nothing),
        FunctionNative::ToString => on(holder, b"toString", 0, AsIs, Nothing),
        FunctionNative::Call => on(holder, b"call", 1, AsIs, Each(AsIs)),
        FunctionNative::Apply => on(holder, b"apply", 2, AsIs, Two(AsIs, AsIs)),
    }
}

fn error_row(native: ErrorNative) -> Row
    ensures { row_in result ≡ (table.error_native native).row }
{
    match native {
        ErrorNative::Error => makes(Builtin::ErrorPrototype, b"Error", 1, One(TextIfGiven)),
        ErrorNative::TypeError => makes(
            Builtin::TypeErrorPrototype,
            b"TypeError",
            1,
            One(TextIfGiven),
        ),
        ErrorNative::RangeError => makes(
            Builtin::RangeErrorPrototype,
            b"RangeError",
            1,
            One(TextIfGiven),
        ),
        ErrorNative::ReferenceError => makes(
            Builtin::ReferenceErrorPrototype,
            b"ReferenceError",
            1,
            One(TextIfGiven),
        ),
        ErrorNative::ToString => on(Builtin::ErrorPrototype, b"toString", 0, AsIs, Nothing),
    }
}

fn world_row(native: WorldNative) -> Row
    ensures { row_in result ≡ (table.world_native native).row }
{
    let holder = Builtin::WorldPrototype;
    match native {
        WorldNative::Constructor => makes(Builtin::WorldPrototype, b"World", 0, Nothing),
        WorldNative::Sprout => on(holder, b"sprout", 0, AsIs, Nothing),
        WorldNative::SproutStrict => on(holder, b"sproutStrict", 0, AsIs, Nothing),
        WorldNative::Commit => on(holder, b"commit", 0, AsIs, Nothing),
    }
}

fn array_row(native: ArrayNative) -> Row
    ensures { row_in result ≡ (table.array_native native).row }
{
    match native {
        ArrayNative::Constructor => makes(Builtin::ArrayPrototype, b"Array", 1, Each(AsIs)),
        ArrayNative::IsArray => held(ARRAY, b"isArray", 1, AsIs, One(AsIs)),
    }
}

fn string_row(native: StringNative) -> Row
    ensures { row_in result ≡ (table.string_native native).row }
{
    let holder = Builtin::StringPrototype;
    match native {
        StringNative::Constructor => makes(Builtin::StringPrototype, b"String", 1, IfGiven(ToText)),
        StringNative::FromCharCode => held(STRING, b"fromCharCode", 1, AsIs, Each(ToNumber)),
        StringNative::Glue => held(STRING, b"glue", 3, AsIs, Three(AsIs, ToNumber, ToText)),
        StringNative::ToString => on(holder, b"toString", 0, AsIs, Nothing),
        StringNative::ValueOf => on(holder, b"valueOf", 0, AsIs, Nothing),
        StringNative::CharAt => on(holder, b"charAt", 1, ToText, One(ToInteger)),
        StringNative::CharCodeAt => on(holder, b"charCodeAt", 1, ToText, One(ToInteger)),
        StringNative::Concat => on(holder, b"concat", 1, ToText, Each(ToText)),
        StringNative::IndexOf => on(holder, b"indexOf", 1, ToText, Two(ToText, ToInteger)),
        StringNative::LastIndexOf => on(holder, b"lastIndexOf", 1, ToText, Two(ToText, ToNumber)),
        StringNative::Substring => on(
            holder,
            b"substring",
            2,
            ToText,
            Two(ToInteger, IntegerIfGiven),
        ),
        StringNative::Slice => on(holder, b"slice", 2, ToText, Two(ToInteger, IntegerIfGiven)),
        StringNative::Split => on(holder, b"split", 2, ToText, Two(TextIfGiven, NumberIfGiven)),
    }
}

fn number_row(native: NumberNative) -> Row
    ensures { row_in result ≡ (table.number_native native).row }
{
    let holder = Builtin::NumberPrototype;
    match native {
        NumberNative::Constructor => makes(
            Builtin::NumberPrototype,
            b"Number",
            1,
            IfGiven(ToNumber),
        ),
        NumberNative::ToString => on(holder, b"toString", 1, AsIs, One(NumberIfGiven)),
        NumberNative::ValueOf => on(holder, b"valueOf", 0, AsIs, Nothing),
    }
}

fn boolean_row(native: BooleanNative) -> Row
    ensures { row_in result ≡ (table.boolean_native native).row }
{
    let holder = Builtin::BooleanPrototype;
    match native {
        BooleanNative::Constructor => makes(Builtin::BooleanPrototype, b"Boolean", 1, One(AsIs)),
        BooleanNative::ToString => on(holder, b"toString", 0, AsIs, Nothing),
        BooleanNative::ValueOf => on(holder, b"valueOf", 0, AsIs, Nothing),
    }
}

fn math_row(native: MathNative) -> Row
    ensures { row_in result ≡ (table.math_native native).row }
{
    let holder = Builtin::Math;
    match native {
        MathNative::Abs => on(holder, b"abs", 1, AsIs, One(ToNumber)),
        MathNative::Floor => on(holder, b"floor", 1, AsIs, One(ToNumber)),
        MathNative::Ceil => on(holder, b"ceil", 1, AsIs, One(ToNumber)),
        MathNative::Round => on(holder, b"round", 1, AsIs, One(ToNumber)),
        MathNative::Max => on(holder, b"max", 2, AsIs, Each(ToNumber)),
        MathNative::Min => on(holder, b"min", 2, AsIs, Each(ToNumber)),
        MathNative::Pow => on(holder, b"pow", 2, AsIs, Two(ToNumber, ToNumber)),
    }
}

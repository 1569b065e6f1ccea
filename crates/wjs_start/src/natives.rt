//! The native functions that stand on an object before the first step.
ghost use Rattle.std.specs.Prelude.{◌≡◌};
ghost use Rattle.wjs_meaning.specs.Table.{natives};

use wjs_arena::{
    ArrayNative, BooleanNative, ErrorNative, FunctionNative, GlobalNative, MathNative, Native,
    NumberNative, ObjectNative, StringNative, WorldNative,
};

/// The natives in the order of their numbers.
const NATIVES: &'static [Native] = &[
    Native::Global(GlobalNative::Print),
    Native::Global(GlobalNative::ParseInt),
    Native::Global(GlobalNative::IsNaN),
    Native::Object(ObjectNative::Constructor),
    Native::Object(ObjectNative::ToString),
    Native::Object(ObjectNative::ValueOf),
    Native::Object(ObjectNative::HasOwnProperty),
    Native::Object(ObjectNative::PropertyIsEnumerable),
    Native::Object(ObjectNative::IsPrototypeOf),
    Native::Function(FunctionNative::Constructor),
    Native::Function(FunctionNative::ToString),
    Native::Function(FunctionNative::Call),
    Native::Function(FunctionNative::Apply),
    Native::Error(ErrorNative::Error),
    Native::Error(ErrorNative::TypeError),
    Native::Error(ErrorNative::RangeError),
    Native::Error(ErrorNative::ReferenceError),
    Native::Error(ErrorNative::ToString),
    Native::World(WorldNative::Constructor),
    Native::World(WorldNative::Sprout),
    Native::World(WorldNative::SproutStrict),
    Native::World(WorldNative::Commit),
    Native::Array(ArrayNative::Constructor),
    Native::Array(ArrayNative::IsArray),
    Native::String(StringNative::Constructor),
    Native::String(StringNative::FromCharCode),
    Native::String(StringNative::Glue),
    Native::String(StringNative::ToString),
    Native::String(StringNative::ValueOf),
    Native::String(StringNative::CharAt),
    Native::String(StringNative::CharCodeAt),
    Native::String(StringNative::Concat),
    Native::String(StringNative::IndexOf),
    Native::String(StringNative::LastIndexOf),
    Native::String(StringNative::Substring),
    Native::String(StringNative::Slice),
    Native::String(StringNative::Split),
    Native::Number(NumberNative::Constructor),
    Native::Number(NumberNative::ToString),
    Native::Number(NumberNative::ValueOf),
    Native::Boolean(BooleanNative::Constructor),
    Native::Boolean(BooleanNative::ToString),
    Native::Boolean(BooleanNative::ValueOf),
    Native::Math(MathNative::Abs),
    Native::Math(MathNative::Floor),
    Native::Math(MathNative::Ceil),
    Native::Math(MathNative::Round),
    Native::Math(MathNative::Max),
    Native::Math(MathNative::Min),
    Native::Math(MathNative::Pow),
];

/// The natives that stand on an object before the first step, in the order of their numbers.
pub(crate) fn natives() -> &'static [Native]
    ensures { result.now ≡ natives }
{
    NATIVES
}

//! The objects that are there before the first step and are no native functions of the table.
ghost use Rattle.std.specs.Prelude.{◌≡◌};
ghost use Rattle.wjs_meaning.specs.Builtins.{builtin};

use wjs_base::ObjId;

/// Such an object (ECMA-262, 3rd edition, section 15; of worlds Warth, Ohshima, Kaehler and Kay, ECOOP 2011).
#[derive(Clone, Copy)]
pub enum Builtin {
    ObjectPrototype,
    FunctionPrototype,
    Global,
    ArrayPrototype,
    StringPrototype,
    NumberPrototype,
    BooleanPrototype,
    WorldPrototype,
    ErrorPrototype,
    TypeErrorPrototype,
    RangeErrorPrototype,
    ReferenceErrorPrototype,
    Math,
    /// The first world's object.
    FirstWorld,
}

impl Builtin {
    /// The object, which has owner 0.
    pub fn object(self) -> ObjId
        ensures { result ≡ builtin self }
    {
        let serial = match self {
            Builtin::ObjectPrototype => 0,
            Builtin::FunctionPrototype => 1,
            Builtin::Global => 2,
            Builtin::ArrayPrototype => 3,
            Builtin::StringPrototype => 4,
            Builtin::NumberPrototype => 5,
            Builtin::BooleanPrototype => 6,
            Builtin::WorldPrototype => 7,
            Builtin::ErrorPrototype => 8,
            Builtin::TypeErrorPrototype => 9,
            Builtin::RangeErrorPrototype => 10,
            Builtin::ReferenceErrorPrototype => 11,
            Builtin::Math => 12,
            Builtin::FirstWorld => 13,
        };
        ObjId { owner: 0, serial }
    }
}

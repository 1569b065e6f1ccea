//! The native functions: those that the machine itself has (ECMA-262, 3rd edition, section 15), by families.

/// Those of the global object (section 15.1).
#[derive(Clone, Copy)]
pub enum GlobalNative {
    Print,
    ParseInt,
    IsNaN,
}

/// Those of Object (section 15.2).
#[derive(Clone, Copy)]
pub enum ObjectNative {
    Constructor,
    ToString,
    ValueOf,
    HasOwnProperty,
    PropertyIsEnumerable,
    IsPrototypeOf,
}

/// Those of Function (section 15.3).
#[derive(Clone, Copy)]
pub enum FunctionNative {
    Constructor,
    /// Function.prototype, which is a function itself.
    Prototype,
    ToString,
    Call,
    Apply,
}

/// Those of Error and of the errors on it (section 15.11).
#[derive(Clone, Copy)]
pub enum ErrorNative {
    Error,
    TypeError,
    RangeError,
    ReferenceError,
    ToString,
}

/// Those of World (Warth, Ohshima, Kaehler and Kay, ECOOP 2011).
#[derive(Clone, Copy)]
pub enum WorldNative {
    Constructor,
    Sprout,
    /// A child whose writes also record what was there.
    SproutStrict,
    Commit,
}

/// Those of Array that the machine itself has (section 15.4); the others are the library's.
#[derive(Clone, Copy)]
pub enum ArrayNative {
    Constructor,
    IsArray,
}

/// Those of String (section 15.5).
#[derive(Clone, Copy)]
pub enum StringNative {
    Constructor,
    FromCharCode,
    /// Joins the texts in slots 0 to n - 1 of an object.
    Glue,
    ToString,
    ValueOf,
    CharAt,
    CharCodeAt,
    Concat,
    IndexOf,
    LastIndexOf,
    Substring,
    Slice,
    Split,
}

/// Those of Number (section 15.7).
#[derive(Clone, Copy)]
pub enum NumberNative {
    Constructor,
    ToString,
    ValueOf,
}

/// Those of Boolean (section 15.6).
#[derive(Clone, Copy)]
pub enum BooleanNative {
    Constructor,
    ToString,
    ValueOf,
}

/// Those of Math (section 15.8).
#[derive(Clone, Copy)]
pub enum MathNative {
    Abs,
    Floor,
    Ceil,
    Round,
    Max,
    Min,
    Pow,
}

/// A native function.
#[derive(Clone, Copy)]
pub enum Native {
    Global(GlobalNative),
    Object(ObjectNative),
    Function(FunctionNative),
    Error(ErrorNative),
    World(WorldNative),
    Array(ArrayNative),
    String(StringNative),
    Number(NumberNative),
    Boolean(BooleanNative),
    Math(MathNative),
}

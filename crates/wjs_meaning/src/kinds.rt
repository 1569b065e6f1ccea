//! How native functions convert their receivers and arguments.

/// How a value is converted: not at all, by ToString, ToNumber or ToInteger (ECMA-262, 3rd edition, section 9); or so only
/// where it is not undefined.
#[derive(Clone, Copy)]
pub enum Kind {
    AsIs,
    ToText,
    ToNumber,
    ToInteger,
    TextIfGiven,
    NumberIfGiven,
    IntegerIfGiven,
}

/// The kinds of a native function's arguments: so many, or one for each that is given, or one where any is given.
#[derive(Clone, Copy)]
pub enum Kinds {
    Nothing,
    One(Kind),
    Two(Kind, Kind),
    Three(Kind, Kind, Kind),
    Each(Kind),
    IfGiven(Kind),
}

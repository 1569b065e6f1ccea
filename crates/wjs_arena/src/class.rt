//! Kinds of objects.

/// What kind of object it is: its [[Class]] (ECMA-262, 3rd edition, section 8.6.2), and the kinds that the language has of its
/// own.
#[derive(Clone, Copy)]
pub enum Class {
    Plain,
    Function,
    Array,
    Text,
    Bool,
    Number,
    /// An error (section 15.11).
    Fault,
    /// What stands for a world.
    World,
    Math,
    Arguments,
    Global,
    /// The variables of a call or of a catch (section 10.1.6).
    Scope,
}

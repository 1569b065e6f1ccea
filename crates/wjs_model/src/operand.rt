//! What needs no frame of its own.

use wjs_base::{TextId, Value};
use wjs_scope::Place;

/// A literal, `this` or a name (ECMA-262, 3rd edition, sections 11.1.1 to 11.1.3). It enters no other node, so that a frame that
/// waits for it goes on in the same turn as its step.
#[derive(Clone, Copy)]
pub enum Operand {
    /// A literal or `this`, by its value.
    Value(Value),
    /// A name at its place, for its value.
    Name(Place, TextId),
    /// A name at its place, as a target.
    Target(Place, TextId),
}

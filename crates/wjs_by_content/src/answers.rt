//! What the operations answer.

/// What became of a put.
#[derive(Clone, Copy)]
pub enum PutAnswer {
    Done,
    /// An object of the chain has the name as a fixed property; nothing changed.
    Ignored,
    /// The name is the `length` of an Array, and the value is no Number from 0 to 4,294,967,295; nothing changed.
    BadLength,
}

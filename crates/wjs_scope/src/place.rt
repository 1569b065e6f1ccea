//! Where a name is found.

/// The place of a name: in the scope that is reached past `hops` others, or on the global object (ECMA-262, 3rd edition,
/// section 10.1.4).
#[derive(Clone, Copy)]
pub enum Place {
    Local { hops: u32 },
    Global,
}

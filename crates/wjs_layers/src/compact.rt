//! What a slot holds, and a mark of what was done with it, in few bytes.
ghost use Rattle.wjs_base.specs.Range.{IsInRange, in_range_prop};
ghost use Rattle.wjs_layers.specs.Kinds.{number_in};

/// What a content is; of a number also on which side of 0.
#[derive(Clone, Copy)]
pub enum Kind {
    Absent,
    Undefined,
    Null,
    False,
    True,
    Nan,
    Number,
    Negative,
    Text,
    Object,
}

/// What was done with a slot in a child world.
#[derive(Clone, Copy)]
pub enum Mark {
    /// It was read and not written: it holds what was read.
    Read,
    /// It was written, and not read before.
    Written,
    /// It was written, and read before as absent.
    Filled,
    /// It was written, and read before as present. What was read is kept apart.
    Changed,
}

/// A content in 16 bytes, with a mark. In the first world no mark says anything.
///
/// The wide fields come first, since fields lie in their order.
#[derive(Clone, Copy)]
pub struct ShortContent {
    /// How far a number is from 0, or the number of a text or of an object.
    pub number: u64,
    /// Who made an object.
    pub owner: u32,
    pub kind: Kind,
    pub mark: Mark,
    pub ghost in_range: { IsInRange (number_in kind number) } by { in_range_prop (number_in kind number) },
}

const _: () = prove!(size_of::<ShortContent>() == 16);

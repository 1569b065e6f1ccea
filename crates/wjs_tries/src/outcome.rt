//! How a try ends that ends its activity.
ghost use Rattle.std.specs.Prelude.{◌≡◌};

use std::marker::Model;

/// The text of a value that an activity threw, in UTF-8. Contracts see its bytes.
#[derive(Drop)]
pub struct Shown {
    list: Vec<u8>,
}

impl Model for Shown {
    ghost use Rattle.std.specs.Prelude.{List, ℕ};

    ghost Value = { List ℕ };

    ghost view = { λ shown. shown.list.items };
}

impl Shown {
    /// The text of these bytes.
    pub(crate) fn new(list: Vec<u8>) -> Shown
        ensures { result ≡ list.items }
    {
        Shown { list }
    }

    /// The bytes.
    pub fn bytes(&self) -> &[u8]
        ensures { result.now ≡ self.now }
    {
        self.list.as_slice()
    }
}

/// How an activity ended, once and for all: what it did is in the first world, or it threw this or spent its budget and nothing of
/// it is kept.
#[derive(Drop)]
pub enum Outcome {
    Committed,
    Threw(Shown),
    Spent,
}

//! Logs.
ghost use Rattle.std.specs.Prelude.{◌≡◌, ◌++◌, ◌∷◌, [], OnOk, OnErr};
ghost use Rattle.wjs_audit.specs.Deeds.{InOrder, AreInOrder};

use crate::deed::{Deed, Entry};
use std::alloc::Global;
use std::marker::Model;
use wjs_base::OutOfMemory;

/// A list of entries. The names of each listing strictly ascend, in the order of slots.
#[derive(Drop)]
pub struct Log {
    entries: Vec<Entry>,
}

impl Model for Log {
    ghost use Rattle.std.specs.Prelude.{List};
    ghost use Rattle.wjs_audit.specs.declared.deed.Entry.{Entry};
    ghost use Rattle.wjs_audit.specs.Codes.{coded_entries};
    ghost use Rattle.wjs_audit.specs.Deeds.{AreInOrder};

    ghost Value = { List Entry };

    ghost coded = { coded_entries };

    ghost view = { λ log. log.entries.items };

    ghost invariant = { λ log. AreInOrder log.entries.items };
}

impl Log {
    /// A log of nothing.
    pub(crate) fn new(alloc: Global) -> Log
        ensures { result ≡ [] }
    {
        Log {
            entries: Vec::new(alloc),
        }
    }

    /// The entries, in their order.
    pub fn entries(&self) -> &[Entry]
        ensures entries { result.now ≡ self.now }
        ensures in_order { AreInOrder self.now }
    {
        self.entries.as_slice()
    }

    /// Puts an entry last; after a refusal the log is as it was.
    pub(crate) fn push(&mut self, deed: Deed, line: u64) -> Result<(), OutOfMemory>
        requires { InOrder deed }
        ensures ok { OnOk result (self.new ≡ self.old ++ record { deed = deed; line = line } ∷ []) }
        ensures err { OnErr result (self.new ≡ self.old) }
    {
        self.entries.push(Entry { deed, line })?;
        Ok(())
    }
}

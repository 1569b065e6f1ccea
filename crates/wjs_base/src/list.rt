//! Lists of names.
ghost use Rattle.std.specs.Prelude.{◌≡◌, ◌<◌, ◌++◌, [], ◌∷◌, length, OnOk, OnErr, slice_get, Some};

use crate::ids::OutOfMemory;
use crate::values::Name;
use std::alloc::Global;
use std::marker::Model;

/// A list of names, as a listing gives them.
#[derive(Drop)]
pub struct Names {
    items: Vec<Name>,
}

impl Model for Names {
    ghost use Rattle.std.specs.Prelude.{List};
    ghost use Rattle.wjs_base.specs.declared.values.Name.{Name};

    ghost Value = { List Name };

    ghost view = { λ names. names.items.items };
}

impl Names {
    /// An empty list.
    pub fn new(alloc: Global) -> Names
        ensures { result ≡ [] }
    {
        Names {
            items: Vec::new(alloc),
        }
    }

    /// Puts a name last; after a refusal the list is as it was.
    pub fn push(&mut self, name: Name) -> Result<(), OutOfMemory>
        ensures ok { OnOk result (self.new ≡ self.old ++ name ∷ []) }
        ensures err { OnErr result (self.new ≡ self.old) }
    {
        self.items.push(name)?;
        Ok(())
    }

    /// How many names there are.
    pub fn len(&self) -> usize
        ensures { result ≡ length self.now }
    {
        self.items.len()
    }

    /// The name at a place, counted from 0.
    pub fn at(&self, place: usize) -> Name
        requires { place < length self.now }
        ensures { slice_get self.now place ≡ Some result }
    {
        self.items[place]
    }
}

//! Short lists of what stands under names.
ghost use Rattle.std.specs.Prelude.{◌≡◌, [], IsTrue};
ghost use Rattle.wjs_arena.specs.AtName.{at_name};

use std::alloc::Global;
use std::marker::Model;
use wjs_base::Name;

/// A finished list of names, each with what stands under it. Contracts see the list.
#[derive(Drop)]
pub struct Under<T> {
    items: Vec<(Name, T)>,
}

impl<T> Model for Under<T> {
    ghost use Rattle.std.specs.Prelude.{List};
    ghost use Rattle.wjs_base.specs.declared.values.Name.{Name};

    ghost Value = { List (Name × T) };

    ghost view = { λ u. u.items.items };
}

impl<T> Under<T> {
    /// Nothing under any name.
    pub fn new(alloc: Global) -> Under<T>
        ensures { result ≡ [] }
    {
        Under {
            items: Vec::new(alloc),
        }
    }

    /// The entries of the vector, with no memory taken.
    pub fn from_vec(items: Vec<(Name, T)>) -> Under<T>
        ensures { result ≡ items.items }
    {
        Under { items }
    }

    /// The entries as a vector, with no memory taken.
    pub fn into_vec(self) -> Vec<(Name, T)>
        ensures { result.items ≡ self }
    {
        self.items
    }

    /// Whether there are no entries.
    pub fn is_empty(&self) -> bool
        ensures { IsTrue result → self.now ≡ [] }
    {
        self.as_slice().is_empty()
    }

    /// The entries.
    pub fn as_slice(&self) -> &[(Name, T)]
        ensures { result.now ≡ self.now }
    {
        self.items.as_slice()
    }
}

impl<T: Copy> Under<T> {
    /// What stands under a name: the first entry of it; None exactly where there is none.
    pub fn get(&self, name: Name) -> Option<T>
        ensures { result ≡ at_name self.now name }
    {
        find(self.items.as_slice(), name)
    }
}

/// What stands under a name in a list: the first entry of it; None exactly where there is none.
#[inline(always)]
pub(crate) fn find<T: Copy>(entries: &[(Name, T)], name: Name) -> Option<T>
    ensures { result ≡ at_name entries.now name }
{
    for entry in entries {
        if entry.0 == name {
            return Some(entry.1);
        }
    }
    None
}

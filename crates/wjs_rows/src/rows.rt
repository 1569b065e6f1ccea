//! A map with ordered keys.
ghost use Rattle.std.specs.Prelude.{◌≡◌, ◌+◌, [], length, OnOk, OnErr, IfOk, Some, None, cond};
ghost use Rattle.std.specs.Option.{option_map, option_copied};
ghost use Rattle.std.specs.Map.{lookup, lookup_entry, remove_entry, keys_of};
ghost use Rattle.std.specs.Map.Iter.{deref_pair};
ghost use Rattle.std.specs.BTreeMap.{is_at, insert_entry};
ghost use Rattle.std.specs.List.Sorted.{IsStrictlySortedBy};
ghost use Rattle.wjs_rows.specs.Order.{is_from, is_after};

use crate::steps::Steps;
use std::alloc::Global;
use std::collections::BTreeMap;
use std::marker::Model;
use std::ops::Bound;
use std::sync::ledger::Ledger;
use wjs_base::OutOfMemory;

/// A map with ordered keys, seen as the list of its entries, whose keys strictly rise.
#[derive(Drop)]
pub struct Rows<K: Ord, V> {
    tree: BTreeMap<K, V>,
}

impl<K: Ord, V> Model for Rows<K, V> {
    ghost use Rattle.std.specs.Prelude.{List};

    ghost Value = { List (K × V) };

    ghost view = { λ m. m.tree.entries };
}

impl<K: Ord + Drop, V: Drop> Rows<K, V> {
    /// A map with no entries.
    pub fn new(alloc: Global) -> Rows<K, V>
        ensures { result ≡ [] }
    {
        Rows {
            tree: BTreeMap::new(alloc),
        }
    }

    /// How many entries there are. It takes no step.
    pub fn len(&self) -> usize
        ensures len { result ≡ length self.now }
        ensures ordered { IsStrictlySortedBy K.cmp (keys_of self.now) }
    {
        self.tree.len()
    }

    /// The value at a key; None exactly where the key isn't there.
    pub fn get<L: Ledger>(&self, key: &K, steps: &mut Steps<L>) -> Option<&V>
        ensures found { option_copied result ≡ lookup (is_at (K.cmp key.now)) self.now }
        ensures step { steps.new ≡ steps.old + 1 }
    {
        steps.tick();
        self.tree.get(key)
    }

    /// Puts a value at a key, and gives the one before. After a refusal the map is as it was, and
    /// only a new key can be refused.
    pub fn set<L: Ledger>(
        &mut self,
        key: K,
        value: V,
        steps: &mut Steps<L>,
    ) -> Result<Option<V>, OutOfMemory>
        ensures before { IfOk result (λ before. before ≡ lookup (is_at (K.cmp key)) self.old) }
        ensures ok { OnOk result (self.new ≡ insert_entry K.cmp self.old key value) }
        ensures at { OnOk result ((q : K) → lookup (is_at (K.cmp q)) self.new ≡ cond (is_at (K.cmp key) q) (Some value) (lookup (is_at (K.cmp q)) self.old)) }
        ensures err { OnErr result (self.new ≡ self.old) }
        ensures absent { OnErr result (lookup (is_at (K.cmp key)) self.old ≡ None) }
        ensures ordered { IsStrictlySortedBy K.cmp (keys_of self.new) }
        ensures step { steps.new ≡ steps.old + 1 }
    {
        steps.tick();
        Ok(self.tree.insert(key, value)?)
    }

    /// Takes the entry at a key out, and gives its value; None exactly where the key isn't there.
    pub fn remove<L: Ledger>(&mut self, key: &K, steps: &mut Steps<L>) -> Option<V>
        ensures before { result ≡ lookup (is_at (K.cmp key.now)) self.old }
        ensures removed { self.new ≡ remove_entry (is_at (K.cmp key.now)) self.old }
        ensures at { (q : K) → lookup (is_at (K.cmp q)) self.new ≡ cond (is_at (K.cmp key.now) q) None (lookup (is_at (K.cmp q)) self.old) }
        ensures ordered { IsStrictlySortedBy K.cmp (keys_of self.new) }
        ensures step { steps.new ≡ steps.old + 1 }
    {
        steps.tick();
        self.tree.remove(key)
    }

    /// The least entry at or after a key; None exactly where there is none.
    pub fn next_from<L: Ledger>(&self, key: &K, steps: &mut Steps<L>) -> Option<(&K, &V)>
        ensures least { option_map deref_pair result ≡ lookup_entry (is_from K.cmp key.now) self.now }
        ensures ordered { IsStrictlySortedBy K.cmp (keys_of self.now) }
        ensures step { steps.new ≡ steps.old + 1 }
    {
        steps.tick();
        let mut rest = self.tree.range((Bound::Included(key), Bound::Unbounded));
        rest.next()
    }

    /// The least entry whose key is greater than a key; None exactly where there is none.
    pub fn next_after<L: Ledger>(&self, key: &K, steps: &mut Steps<L>) -> Option<(&K, &V)>
        ensures least { option_map deref_pair result ≡ lookup_entry (is_after K.cmp key.now) self.now }
        ensures ordered { IsStrictlySortedBy K.cmp (keys_of self.now) }
        ensures step { steps.new ≡ steps.old + 1 }
    {
        steps.tick();
        let mut rest = self.tree.range((Bound::Excluded(key), Bound::Unbounded));
        rest.next()
    }
}

//! Trees, whose entries contracts see as lists.
ghost use Rattle.std.specs.Prelude.{◌≡◌, not, is_some, OnOk, OnErr, IfOk};
ghost use Rattle.std.specs.Option.{option_copied};
ghost use Rattle.std.specs.FinMap.Entries.{put, find};
ghost use Rattle.std.specs.Map.{lookup_entry};
ghost use Rattle.wjs_rows.specs.Order.{is_from, is_after};
ghost use Rattle.wjs_names.specs.Lists.{IsInOrder, without};

use std::collections::BTreeMap;
use std::ops::Bound;
use wjs_base::OutOfMemory;

/// The value at a key.
pub fn get<'a, K: Ord, V: Copy>(tree: &'a BTreeMap<K, V>, key: &K) -> Option<&'a V>
    ensures { option_copied result ≡ find K.cmp key.now tree.now.entries }
{
    tree.get(key)
}

/// Puts a value at a key, and says whether the key is new. After a refusal the tree is as it was.
pub fn set<K: Ord + Copy, V: Copy>(
    tree: &mut BTreeMap<K, V>,
    key: K,
    value: V,
) -> Result<bool, OutOfMemory>
    ensures ok { OnOk result (tree.new.entries ≡ put K.cmp key value tree.old.entries) }
    ensures added { IfOk result (λ added. added ≡ not (is_some (find K.cmp key tree.old.entries))) }
    ensures err { OnErr result (tree.new.entries ≡ tree.old.entries) }
{
    let before = tree.insert(key, value)?;
    Ok(before.is_none())
}

/// Takes the entry at a key out, and says whether there was one.
pub fn remove<K: Ord + Copy, V: Copy>(tree: &mut BTreeMap<K, V>, key: &K) -> bool
    requires { IsInOrder K.cmp tree.old.entries }
    ensures removed { tree.new.entries ≡ without K.cmp key.now tree.old.entries }
    ensures found { result ≡ is_some (find K.cmp key.now tree.old.entries) }
{
    tree.remove(key).is_some()
}

/// The first entry at or after a key.
pub fn next_from<K: Ord + Copy, V: Copy>(tree: &BTreeMap<K, V>, key: &K) -> Option<(K, V)>
    ensures { result ≡ lookup_entry (is_from K.cmp key.now) tree.now.entries }
{
    let mut rest = tree.range((Bound::Included(key), Bound::Unbounded));
    match rest.next() {
        None => None,
        Some((next, value)) => Some((*next, *value)),
    }
}

/// The first entry after a key.
pub fn next_after<K: Ord + Copy, V: Copy>(tree: &BTreeMap<K, V>, key: &K) -> Option<(K, V)>
    ensures { result ≡ lookup_entry (is_after K.cmp key.now) tree.now.entries }
{
    let mut rest = tree.range((Bound::Excluded(key), Bound::Unbounded));
    match rest.next() {
        None => None,
        Some((next, value)) => Some((*next, *value)),
    }
}

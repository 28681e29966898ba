ghost use Rattle.std.specs.Prelude.{◌≡◌};

use crate::entries::{find_entry, put_entry, remove_entry};
use crate::entry::Entry;
use crate::key::MapKey;
use std::alloc::{AllocError, Global};
use std::marker::Model;

/// A map in one vector of entries, sorted by their keys. Clones share the entries.
///
/// Contracts see it as the list of its keys and values, by rising keys. A struct round it, whose
/// key is one type, is seen as std's map of that list (`FinMap.from_sorted`).
pub struct SortedMap<K: MapKey, V> {
    entries: Vec<Entry<K, V>>,
}

impl<K: MapKey + Drop, V: Drop> Drop for SortedMap<K, V> {
    fn drop(self) {
        let SortedMap { entries: _ } = self;
    }
}

impl<K: MapKey, V> Model for SortedMap<K, V> {
    ghost use Rattle.std.specs.Prelude.{List, IsTrue};
    ghost use Rattle.std.specs.FinMap.{is_sorted};

    ghost Value = { List (K × V) };

    ghost view = { λ a. a.entries.items };

    ghost invariant = { λ a. IsTrue (is_sorted K.cmp a.entries.items) };
}

impl<K: MapKey, V> SortedMap<K, V> {
    ghost use Rattle.std.specs.Prelude.{◌≡◌, ◌↔◌, [], length, IsTrue, IsOk, OnOk, OnErr, is_some, not};
    ghost use Rattle.std.specs.Option.{option_copied};
    ghost use Rattle.std.specs.Ordering.{eq_by_cmp};
    ghost use Rattle.std.specs.FinMap.{is_sorted, find, put};
    ghost use Rattle.std.specs.FinMap.Entries.{where_key};
    ghost use Rattle.std.specs.Fn.{CalledAt};
    ghost use Rattle.std.specs.List.Retain.{IsFiltered};

    /// A map of no keys.
    pub fn new(alloc: Global) -> SortedMap<K, V>
        ensures { result ≡ [] }
    {
        SortedMap {
            entries: Vec::new(alloc),
        }
    }

    /// The map of these entries, whose keys rise strictly.
    pub fn from_sorted(entries: Vec<Entry<K, V>>) -> SortedMap<K, V>
        requires { IsTrue (is_sorted K.cmp entries.items) }
        ensures { result ≡ entries.items }
    {
        SortedMap { entries }
    }

    /// The entries, by rising keys.
    pub fn entries(&self) -> &[Entry<K, V>]
        ensures entries { result.now ≡ self.now }
        ensures sorted { IsTrue (is_sorted K.cmp result.now) }
    {
        self.entries.as_slice()
    }

    /// How many keys it has.
    pub fn len(&self) -> usize
        ensures { result ≡ length self.now }
    {
        self.entries.len()
    }

    /// Whether it has no key.
    pub fn is_empty(&self) -> bool
        ensures { IsTrue result ↔ (self.now ≡ []) }
    {
        self.entries.is_empty()
    }

    /// The value of the key, if it has one.
    pub fn get(&self, key: &K) -> Option<&V>
        ensures { option_copied result ≡ find K.cmp key.now self.now }
    {
        find_entry(&self.entries, key)
    }

    /// Puts the entry in place of the one that has its key, or between the others. Only a key that
    /// is new takes memory; if an allocation fails nothing changes.
    pub fn put(&mut self, entry: Entry<K, V>) -> Result<(), AllocError>
    where
        K: Drop,
        V: Drop,
        ensures ok { OnOk result (self.new ≡ put K.cmp entry.0 entry.1 self.old) }
        ensures err { OnErr result (self.new ≡ self.old) }
        ensures known { IsTrue (is_some (find K.cmp entry.0 self.old)) → IsOk result }
        ensures sorted { IsTrue (is_sorted K.cmp self.new) }
    {
        put_entry(&mut self.entries, entry)
    }

    /// Puts an entry of its own for the key. It takes memory for the entry; if an allocation fails
    /// nothing changes.
    pub fn insert(&mut self, key: K, value: V) -> Result<(), AllocError>
    where
        K: Drop,
        V: Drop,
        ensures ok { OnOk result (self.new ≡ put K.cmp key value self.old) }
        ensures err { OnErr result (self.new ≡ self.old) }
        ensures sorted { IsTrue (is_sorted K.cmp self.new) }
    {
        let alloc = *self.entries.allocator();
        let entry = Entry::new(alloc, key, value)?;
        self.put(entry)
    }

    /// Drops the entry of the key, if there is one. It takes no memory.
    pub fn remove(&mut self, key: &K)
    where
        K: Drop,
        V: Drop,
        ensures removed { self.new ≡ where_key K.cmp (λ k. not (eq_by_cmp K.cmp key.now k)) self.old }
        ensures sorted { IsTrue (is_sorted K.cmp self.new) }
    {
        remove_entry(&mut self.entries, key);
    }

    /// Drops every entry of which the test is false. It takes no memory.
    pub fn retain<F: FnMut(&Entry<K, V>) -> bool>(&mut self, test: F)
    where
        K: Drop,
        V: Drop,
        requires { F.IsAlwaysCallable test }
        ensures kept { IsFiltered (CalledAt F.FnMut) test self.old self.new }
        ensures sorted { IsTrue (is_sorted K.cmp self.new) }
    {
        self.entries.retain(test);
    }
}

impl<K: MapKey + Drop, V: Drop> Clone for SortedMap<K, V> {
    ghost is_clone = { λ map copy. copy ≡ map };

    /// A vector of its own, over the same entries.
    fn clone(&self) -> Result<SortedMap<K, V>, AllocError> {
        Ok(SortedMap {
            entries: self.entries.clone()?,
        })
    }
}

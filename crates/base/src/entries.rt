//! Entries in a vector, sorted by their keys.

ghost use Rattle.std.specs.Prelude.{◌≡◌, IfOk, IfErr, IsTrue, IsOk, OnOk, OnErr, is_some, not};
ghost use Rattle.std.specs.Option.{option_copied};
ghost use Rattle.std.specs.Ordering.{eq_by_cmp};
ghost use Rattle.std.specs.FinMap.{is_sorted, find, put};
ghost use Rattle.std.specs.FinMap.Entries.{where_key};
ghost use Rattle.base.specs.Places.{IsAt, IsGap};

use crate::entry::Entry;
use crate::key::MapKey;
use std::alloc::AllocError;
use std::cmp::Ordering;

/// Where the key is, or would be.
fn place_of<K: MapKey, V>(entries: &[Entry<K, V>], key: &K) -> Result<usize, usize>
    requires { IsTrue (is_sorted K.cmp entries.now) }
    ensures found { IfOk result (IsAt K.cmp entries.now key.now) }
    ensures absent { IfErr result (IsGap K.cmp entries.now key.now) }
{
    entries.binary_search_by(
        |entry: &Entry<K, V>| -> Ordering
            ensures { result ≡ K.cmp entry.now.0 key.entry.now }
        { entry.key().cmp(key) },
    )
}

pub fn find_entry<'a, K: MapKey, V>(entries: &'a [Entry<K, V>], key: &K) -> Option<&'a V>
    requires { IsTrue (is_sorted K.cmp entries.now) }
    ensures { option_copied result ≡ find K.cmp key.now entries.now }
{
    match place_of(entries, key) {
        Ok(at) => Some(entries[at].value()),
        Err(_) => None,
    }
}

pub fn put_entry<K: MapKey + Drop, V: Drop>(
    entries: &mut Vec<Entry<K, V>>,
    entry: Entry<K, V>,
) -> Result<(), AllocError>
    requires { IsTrue (is_sorted K.cmp entries.old.items) }
    ensures ok { OnOk result (entries.new.items ≡ put K.cmp entry.0 entry.1 entries.old.items) }
    ensures err { OnErr result (entries.new.items ≡ entries.old.items) }
    ensures known { IsTrue (is_some (find K.cmp entry.0 entries.old.items)) → IsOk result }
{
    match place_of(entries, entry.key()) {
        Ok(at) => {
            entries[at] = entry;
            Ok(())
        }
        Err(at) => Ok(entries.insert(at, entry)?),
    }
}

pub fn remove_entry<K: MapKey + Drop, V: Drop>(entries: &mut Vec<Entry<K, V>>, key: &K)
    requires { IsTrue (is_sorted K.cmp entries.old.items) }
    ensures { entries.new.items ≡ where_key K.cmp (λ k. not (eq_by_cmp K.cmp key.now k)) entries.old.items }
{
    if let Ok(at) = place_of(entries, key) {
        let _ = entries.remove(at);
    }
}

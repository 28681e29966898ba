//! Items that go from one kind of store to the other.

ghost use Rattle.std.specs.Prelude.{◌≡◌, IfOk, OnOk};
ghost use Rattle.std.specs.FinMap as map;

use crate::store::ItemTree;
use base::Entry;
use items::{Item, PlainStore, Store};
use proto::Key;
use std::alloc::{AllocError, Global};

/// Puts these entries, the last one first, into a store without items. Keys are copied, and data is
/// shared. The only error is a failed allocation.
fn copy_into<S: Store>(entries: &[Entry<Key, Item>], store: &mut S) -> Result<(), AllocError>
    requires { S.contents store.old ≡ map.empty }
    ensures { OnOk result (S.contents store.new ≡ map.from_entries entries.now) }
{
    for back in 0..entries.len() {
        let entry = &entries[entries.len() - 1 - back];
        store.put(entry.key().clone()?, entry.value().clone()?)?;
    }
    Ok(())
}

impl ItemTree {
    /// The items of these entries, which are shared. Of two entries with one key the first one counts. The
    /// only error is a failed allocation.
    pub fn of_entries(alloc: Global, entries: &[Entry<Key, Item>]) -> Result<ItemTree, AllocError>
        ensures { IfOk result (λ store. store ≡ map.from_entries entries.now) }
    {
        let mut store = ItemTree::new(alloc);
        for back in 0..entries.len() {
            store.put_entry(entries[entries.len() - 1 - back].clone()?)?;
        }
        Ok(store)
    }

    /// The items of a sorted vector, whose entries are shared. The only error is a failed allocation.
    pub fn from_plain(alloc: Global, plain: &PlainStore) -> Result<ItemTree, AllocError>
        ensures { IfOk result (λ store. store ≡ plain.now) }
    {
        ItemTree::of_entries(alloc, plain.as_slice())
    }

    /// The same items in a sorted vector. Data is shared. The only error is a failed allocation.
    pub fn to_plain(&self, alloc: Global) -> Result<PlainStore, AllocError>
        ensures { IfOk result (λ store. store ≡ self.now) }
    {
        let entries = self.entries(alloc)?;
        let mut store = PlainStore::new(alloc);
        copy_into(entries.as_slice(), &mut store)?;
        Ok(store)
    }
}

use base::Entry;
use items::{Item, Store};
use merkle::MerkleMap;
use proto::Key;
use std::alloc::{AllocError, Global};
use std::marker::Model;

/// Items in a Merkle tree over the paths of their keys. Clones share all.
pub struct ItemTree {
    pub(crate) items: MerkleMap<Key, Item>,
    alloc: Global,
}

impl Drop for ItemTree {
    fn drop(self) {
        let ItemTree { items: _, alloc: _ } = self;
    }
}

impl Model for ItemTree {
    ghost use Rattle.std.specs.Coded.{coded_list, coded_ℕ};
    ghost use Rattle.std.specs.FinMap as map;
    ghost use Rattle.items.specs.Map.{Items};
    ghost use Rattle.items.specs.contracts.item.Item as item;

    ghost Value = { Items };

    ghost coded = { map.code (coded_list coded_ℕ) item.the_row.coded };

    ghost view = { λ a. map.from_entries a.items };
}

impl ItemTree {
    ghost use Rattle.std.specs.Prelude.{◌≡◌, ◌≢◌, ◌+◌, true, false, length, IfOk, OnOk, OnErr};
    ghost use Rattle.std.specs.FinMap as map;
    ghost use Rattle.items.specs.Map.{alive};
    ghost use Rattle.item_tree.specs.Told.{items_digest};
    ghost use Rattle.item_tree.specs.Text.{path_entries};
    ghost use Rattle.item_tree.specs.Differing.{AreItemDifferences};

    /// A store without items.
    pub fn new(alloc: Global) -> ItemTree
        ensures { result ≡ map.empty }
    {
        ItemTree {
            items: MerkleMap::new(),
            alloc,
        }
    }

    /// How many items it has.
    pub fn len(&self) -> u64
        ensures { result ≡ length (map.entries self.now) }
    {
        self.items.len()
    }

    /// How many bytes its keys and data have. No clause says so.
    pub fn bytes(&self) -> u64 {
        self.items.bytes()
    }

    /// Whether an item is due at the moment or before it. It visits none.
    pub fn has_due(&self, moment: u32) -> bool
        ensures none { result ≡ false → alive self.now moment ≡ self.now }
        ensures some { result ≡ true → alive self.now moment ≢ self.now }
    {
        self.items.has_due(moment as u64)
    }

    /// Drops every item that is due at the moment or before it, and answers how many. It visits just
    /// these. The only error is a failed allocation, and then nothing has changed.
    pub fn drop_due_counted(&mut self, moment: u32) -> Result<u64, AllocError>
        ensures ok { OnOk result (self.new ≡ alive self.old moment) }
        ensures err { OnErr result (self.new ≡ self.old) }
        ensures count { IfOk result (λ dropped. dropped + length (map.entries self.new) ≡ length (map.entries self.old)) }
    {
        let _before = self.items.len();
        let dropped = self.items.drop_due(moment as u64)?;
        let _after = self.items.len();
        Ok(dropped)
    }

    /// Its entries, shared, in the order of their paths. The only error is a failed allocation.
    pub fn entries(&self, alloc: Global) -> Result<Vec<Entry<Key, Item>>, AllocError>
        ensures { IfOk result (λ entries. entries.items ≡ path_entries self.now) }
    {
        let mut entries = Vec::new(alloc);
        self.items.walk(&mut entries)?;
        Ok(entries)
    }

    /// The entries of this store and those of a newer one that may differ, shared, both in the order of their
    /// paths. All whose paths begin with the same `front` bits come together or not at all. It visits no tree
    /// below a digest that is the same. The only error is a failed allocation.
    pub fn differences(
        &self,
        alloc: Global,
        newer: &ItemTree,
        front: u32,
    ) -> Result<(Vec<Entry<Key, Item>>, Vec<Entry<Key, Item>>), AllocError>
        ensures { IfOk result (λ found. AreItemDifferences front self.now newer.now found.0.items found.1.items) }
    {
        self.items.differences(alloc, &newer.items, front)
    }

    /// The digest of the items. This takes no memory. It hashes what was written since the last `seal`,
    /// and caches nothing.
    pub fn digest(&self) -> [u8; 32]
        ensures { result ≡ items_digest self.now }
    {
        self.items.digest()
    }

    /// The digest of the items, which is cached for the next call. It does not fail: what there is no
    /// memory for is not cached.
    pub fn seal(&mut self) -> [u8; 32]
        ensures digest { result ≡ items_digest self.old }
        ensures same { self.new ≡ self.old }
    {
        self.items.seal()
    }

    /// Puts an entry, which may be shared with others. The only error is a failed allocation, and then
    /// nothing has changed.
    pub fn put_entry(&mut self, entry: Entry<Key, Item>) -> Result<(), AllocError>
        ensures ok { OnOk result (self.new ≡ map.insert self.old entry.0 entry.1) }
        ensures err { OnErr result (self.new ≡ self.old) }
    {
        self.items.put_entry(self.alloc, entry)
    }
}

impl Clone for ItemTree {
    ghost use Rattle.std.specs.Prelude.{◌≡◌};

    ghost is_clone = { λ store copy. copy ≡ store };

    /// The same store, shared.
    fn clone(&self) -> Result<ItemTree, AllocError> {
        Ok(ItemTree {
            items: self.items.clone()?,
            alloc: self.alloc,
        })
    }
}

impl Store for ItemTree {
    ghost contents = { λ s. s };

    fn get(&self, key: &Key) -> Option<&Item> {
        self.items.get(key)
    }

    fn put(&mut self, key: Key, item: Item) -> Result<(), AllocError> {
        self.items.put(self.alloc, key, item)
    }

    fn remove(&mut self, key: &Key) -> Result<(), AllocError> {
        self.items.remove(key)
    }

    fn drop_due(&mut self, moment: u32) -> Result<(), AllocError> {
        self.drop_due_counted(moment)?;
        Ok(())
    }
}

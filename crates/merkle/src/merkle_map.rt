ghost use Rattle.std.specs.Prelude.{◌≡◌, ◌+◌, cond, true, IfOk, OnOk, MatchOption};
ghost use Rattle.merkle.specs.Tree.{IsLeaf};

use crate::differing::differ_at;
use crate::dropping::{drop_at, leaf_bytes};
use crate::due::is_above;
use crate::finding::{find_at, has_key};
use crate::fork::{Leaf, Tree};
use crate::hashing::{digest_at, rehash_at};
use crate::key::{TreeKey, TreeValue};
use crate::putting::put_at;
use crate::removing::remove_at;
use crate::walking::{Visitor, put_texts_at, walk_at};
use base::Entry;
use std::alloc::{AllocError, Global};
use std::marker::Model;
use std::sync::Arc;
use wire::Sink;

/// A map as a Merkle tree: a binary tree over the paths of its keys, which caches digests and due
/// times. Clones share the tree, and a write copies the forks on one path.
///
/// Contracts see it as the list of its keys with their values, in the order of their paths.
pub struct MerkleMap<K: TreeKey, V: TreeValue<K>> {
    tree: Tree<K, V>,
    /// The first due time of its entries.
    due: Option<u64>,
    len: u64,
    /// How many bytes its keys and values have. No clause says so.
    bytes: u64,
}

impl<K: TreeKey + Drop, V: TreeValue<K> + Drop> Drop for MerkleMap<K, V> {
    fn drop(self) {
        let MerkleMap {
            tree: _,
            due: _,
            len: _,
            bytes: _,
        } = self;
    }
}

impl<K: TreeKey, V: TreeValue<K>> Model for MerkleMap<K, V> {
    ghost use Rattle.std.specs.Prelude.{List};
    ghost use Rattle.merkle.specs.Shape.{pairs};
    ghost use Rattle.merkle.specs.Tree.{shape, IsMap};

    ghost Value = { List (K × V) };

    ghost view = { λ a. pairs (shape a.tree) };

    ghost invariant = { λ a. IsMap K.hash V.text V.due K.bit K.BITS a.tree a.due a.len };
}

/// A leaf of this entry.
fn new_leaf<K: TreeKey + Drop, V: TreeValue<K> + Drop>(
    alloc: Global,
    entry: Entry<K, V>,
) -> Result<Arc<Leaf<K, V>, Global>, AllocError>
    ensures { IfOk result (λ leaf. IsLeaf K.hash V.text entry leaf.value) }
{
    let hash = entry.key().hash();
    let digest = entry.value().digest(entry.key());
    Ok(Arc::new(
        alloc,
        Leaf {
            entry,
            hash,
            digest,
        },
    )?)
}

/// The count of entries after a put. The error: it would not fit 64 bits.
fn len_after(len: u64, found: bool) -> Result<u64, AllocError>
    ensures { IfOk result (λ after. after ≡ cond found len (len + 1)) }
{
    if found {
        return Ok(len);
    }
    match len.checked_add(1) {
        Some(after) => Ok(after),
        None => Err(AllocError),
    }
}

impl<K: TreeKey + Drop, V: TreeValue<K> + Drop> MerkleMap<K, V> {
    ghost use Rattle.std.specs.Prelude.{◌≡◌, ◌≢◌, ◌≤◌, ◌+◌, [], true, false, is_some, length, flat_map, IfOk, OnOk, OnErr};
    ghost use Rattle.std.specs.Option.{option_copied};
    ghost use Rattle.wire.specs.Record.{Puts};
    ghost use Rattle.std.specs.FinMap as map;
    ghost use Rattle.merkle.specs.Digest.{map_digest, map_pairs};
    ghost use Rattle.merkle.specs.Alive.{alive_map};
    ghost use Rattle.merkle.specs.Walk.{Sees};
    ghost use Rattle.merkle.specs.Differing.{AreDifferences, AreMapsTold};

    /// A map of no keys.
    pub fn new() -> MerkleMap<K, V>
        ensures { result ≡ [] }
    {
        MerkleMap {
            tree: Tree::Empty,
            due: None,
            len: 0,
            bytes: 0,
        }
    }

    /// How many entries it has.
    pub fn len(&self) -> u64
        ensures listed { result ≡ length self.now }
        ensures mapped { result ≡ length (map.entries (map.from_entries {R = K.cmp} self.now)) }
    {
        self.len
    }

    /// How many bytes its keys and values have, as `TreeValue::bytes` counts them. No clause says so.
    pub fn bytes(&self) -> u64 {
        self.bytes
    }

    /// The value of the key, if there is one.
    pub fn get(&self, key: &K) -> Option<&V>
        ensures { option_copied result ≡ map.get (map.from_entries {R = K.cmp} self.now) key.now }
    {
        find_at(&self.tree, key, &key.hash(), 0)
    }

    /// Puts the value at the key, as `put_entry`.
    pub fn put(&mut self, alloc: Global, key: K, value: V) -> Result<(), AllocError>
        ensures ok { OnOk result (map.from_entries {R = K.cmp} self.new ≡ map.insert (map.from_entries self.old) key value) }
        ensures err { OnErr result (self.new ≡ self.old) }
    {
        self.put_entry(alloc, Entry::new(alloc, key, value)?)
    }

    /// Puts an entry, which may be shared with others, in place of the one that has its key. The only
    /// error is a failed allocation, and then nothing has changed.
    pub fn put_entry(&mut self, alloc: Global, entry: Entry<K, V>) -> Result<(), AllocError>
        ensures ok { OnOk result (map.from_entries {R = K.cmp} self.new ≡ map.insert (map.from_entries self.old) entry.0 entry.1) }
        ensures err { OnErr result (self.new ≡ self.old) }
    {
        let leaf = new_leaf(alloc, entry)?;
        let (found, bytes) = has_key(&self.tree, leaf.entry.key(), &leaf.hash);
        let len = len_after(self.len, found)?;
        put_at(alloc, &mut self.tree, &mut self.due, &leaf, 0)?;
        self.len = len;
        self.bytes = self.bytes.saturating_sub(bytes);
        self.bytes = self.bytes.saturating_add(leaf_bytes(&leaf));
        Ok(())
    }

    /// Removes the key, if it is there. The only error is a failed allocation, and then nothing has
    /// changed.
    pub fn remove(&mut self, key: &K) -> Result<(), AllocError>
        ensures ok { OnOk result (map.from_entries {R = K.cmp} self.new ≡ map.remove (map.from_entries self.old) key.now) }
        ensures err { OnErr result (self.new ≡ self.old) }
    {
        let hash = key.hash();
        let (found, bytes) = has_key(&self.tree, key, &hash);
        if found {
            self.remove_found(key, &hash, bytes)
        } else {
            Ok(())
        }
    }

    /// Removes the key, which is there and has so many bytes with its value.
    fn remove_found(&mut self, key: &K, hash: &[u8; 32], bytes: u64) -> Result<(), AllocError>
        requires known { hash.now ≡ K.hash key.now }
        requires found { is_some (map.find K.cmp key.now self.old) ≡ true }
        ensures ok { OnOk result (map.from_entries {R = K.cmp} self.new ≡ map.remove (map.from_entries self.old) key.now) }
        ensures err { OnErr result (self.new ≡ self.old) }
    {
        remove_at(&mut self.tree, &mut self.due, key, hash, 0)?;
        self.len -= 1;
        self.bytes = self.bytes.saturating_sub(bytes);
        Ok(())
    }

    /// Whether an entry is due at the moment or before it. It visits none.
    pub fn has_due(&self, moment: u64) -> bool
        ensures none { result ≡ false → alive_map V.due moment (map.from_entries {R = K.cmp} self.now) ≡ map.from_entries self.now }
        ensures some { result ≡ true → alive_map V.due moment (map.from_entries {R = K.cmp} self.now) ≢ map.from_entries self.now }
    {
        !is_above(moment, self.due)
    }

    /// Drops each entry that is due at the moment or before it, and answers how many. It visits just
    /// these. The only error is a failed allocation, and then nothing has changed.
    pub fn drop_due(&mut self, moment: u64) -> Result<u64, AllocError>
        ensures ok { OnOk result (map.from_entries {R = K.cmp} self.new ≡ alive_map V.due moment (map.from_entries self.old)) }
        ensures err { OnErr result (self.new ≡ self.old) }
        ensures count { IfOk result (λ dropped. dropped + length self.new ≡ length self.old) }
    {
        let mut next = self.clone()?;
        next.drop_now(moment)?;
        let dropped = self.len - next.len;
        *self = next;
        Ok(dropped)
    }

    /// The same. If an allocation fails, a part of what is due may be dropped.
    fn drop_now(&mut self, moment: u64) -> Result<(), AllocError>
        ensures ok { OnOk result (map.from_entries {R = K.cmp} self.new ≡ alive_map V.due moment (map.from_entries self.old)) }
        ensures fewer { length self.new ≤ length self.old }
    {
        drop_at(
            &mut self.tree,
            &mut self.due,
            &mut self.len,
            &mut self.bytes,
            moment,
            0,
        )
    }

    /// The digest of the map. This takes no memory. It hashes what was written since the last `seal`
    /// and caches nothing.
    pub fn digest(&self) -> [u8; 32]
        ensures { result ≡ map_digest V.text K.bit K.BITS (map.from_entries {R = K.cmp} self.now) }
    {
        digest_at(&self.tree)
    }

    /// The digest of the map, which is cached for the next call. It does not fail: what there is no
    /// memory for is not cached.
    pub fn seal(&mut self) -> [u8; 32]
        ensures digest { result ≡ map_digest V.text K.bit K.BITS (map.from_entries {R = K.cmp} self.old) }
        ensures same { self.new ≡ self.old }
    {
        let _ = rehash_at(&mut self.tree);
        self.digest()
    }

    /// Writes the texts of its entries, in the order of their paths.
    pub fn put_texts<S: Sink>(&self, sink: &mut S) -> Result<(), S::Refusal>
        ensures written { OnOk result (Puts S.holds (flat_map (λ e. V.text e.0 e.1) self.now) sink.old sink.new) }
        ensures order { self.now ≡ map_pairs K.bit K.BITS (map.from_entries {R = K.cmp} self.now) }
    {
        put_texts_at(&self.tree, sink)
    }

    /// Shows the entries to a visitor, in the order of their paths, until it takes no more.
    pub fn walk<W: Visitor<K, V>>(&self, visitor: &mut W) -> Result<(), W::Refusal>
        ensures shown { OnOk result (Sees W.seen self.now visitor.old visitor.new) }
        ensures order { self.now ≡ map_pairs K.bit K.BITS (map.from_entries {R = K.cmp} self.now) }
    {
        walk_at(&self.tree, visitor)
    }

    /// The entries of this map and those of a newer one that may differ, both in the order of paths. All whose
    /// paths begin with the same `front` bits come together or not at all. What comes of neither map is the
    /// same in both, if digests tell texts apart. It visits no tree below a digest that is the same. The only
    /// error is a failed allocation.
    pub fn differences(
        &self,
        alloc: Global,
        newer: &MerkleMap<K, V>,
        front: u32,
    ) -> Result<(Vec<Entry<K, V>>, Vec<Entry<K, V>>), AllocError>
        ensures found { IfOk result (λ found. AreDifferences K.bit front
            (AreMapsTold V.text K.bit K.BITS (map.from_entries {R = K.cmp} self.now) (map.from_entries {R = K.cmp} newer.now))
            self.now newer.now found.0.items found.1.items) }
        ensures order { self.now ≡ map_pairs K.bit K.BITS (map.from_entries {R = K.cmp} self.now) }
        ensures newer_order { newer.now ≡ map_pairs K.bit K.BITS (map.from_entries {R = K.cmp} newer.now) }
    {
        let mut before = Vec::new(alloc);
        let mut now = Vec::new(alloc);
        differ_at(&self.tree, &newer.tree, 0, front, &mut before, &mut now)?;
        Ok((before, now))
    }
}

impl<K: TreeKey + Drop, V: TreeValue<K> + Drop> Clone for MerkleMap<K, V> {
    ghost is_clone = { λ map copy. copy ≡ map };

    /// The same map, shared.
    fn clone(&self) -> Result<MerkleMap<K, V>, AllocError> {
        Ok(MerkleMap {
            tree: self.tree.clone()?,
            due: self.due,
            len: self.len,
            bytes: self.bytes,
        })
    }
}

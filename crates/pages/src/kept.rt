//! What a page keeps of its items, in either layout.

ghost use Rattle.std.specs.Prelude.{◌≡◌, ◌≢◌, ◌≤◌, ◌+◌, ◌∷◌, [], true, false, length, IfOk, OnOk, OnErr};
ghost use Rattle.std.specs.Option.{option_copied};
ghost use Rattle.std.specs.FinMap as map;
ghost use Rattle.items.specs.Map.{alive};
ghost use Rattle.wire.specs.Item.{PageFits};
ghost use Rattle.wire.specs.Record.{Puts};
ghost use Rattle.pages.specs.Page.{beside_due};
ghost use Rattle.pages.specs.Layout.{digest_in, text_in, entries_in};
ghost use Rattle.item_tree.specs.Text.{path_entries};
ghost use Rattle.pages.specs.Kept.{items_kept, layout_kept};
ghost use Rattle.pages.specs.Differing.{ArePageDifferences};
ghost use Rattle.pages.specs.declared.layout.Layout.TheVariants.{Sorted};

use crate::layout::Layout;
use crate::sorted_page::SortedPage;
use base::Entry;
use item_tree::ItemTree;
use items::{Item, Store};
use proto::Key;
use std::alloc::{AllocError, Global};
use wire::{Record, Sink};

/// The items of a page.
#[derive(Drop)]
pub(crate) enum Kept {
    Sorted(SortedPage),
    Tree(ItemTree),
}

/// How many bytes the keys and the data of entries have.
fn bytes_of(entries: &[Entry<Key, Item>]) -> u64 {
    let mut bytes = 0u64;
    for entry in entries {
        let key = entry.key().as_slice().len();
        let item = key.saturating_add(entry.value().block.len());
        bytes = bytes.saturating_add(item as u64);
    }
    bytes
}

impl Kept {
    pub(crate) fn layout(&self) -> Layout
        ensures { result ≡ layout_kept self.now }
    {
        match self {
            Kept::Sorted(_) => Layout::Sorted,
            Kept::Tree(_) => Layout::Tree,
        }
    }

    /// The entries, which are sorted.
    pub(crate) fn sorted_entries(&self) -> &[Entry<Key, Item>]
        requires { layout_kept self.now ≡ Sorted }
        ensures entries { result.now ≡ map.entries (items_kept self.now) }
        ensures fit { PageFits result.now }
    {
        match self {
            Kept::Sorted(page) => page.entries(),
            Kept::Tree(_) => unreachable!(),
        }
    }

    /// How many items there are.
    pub(crate) fn len(&self) -> u64
        ensures { result ≡ length (map.entries (items_kept self.now)) }
    {
        match self {
            Kept::Sorted(page) => page.entries().len() as u64,
            Kept::Tree(tree) => tree.len(),
        }
    }

    /// How many bytes the keys and the data have. Of sorted items it looks at each.
    pub(crate) fn bytes(&self) -> u64 {
        match self {
            Kept::Sorted(page) => bytes_of(page.entries()),
            Kept::Tree(tree) => tree.bytes(),
        }
    }

    pub(crate) fn get(&self, key: &Key) -> Option<&Item>
        ensures { option_copied result ≡ map.get (items_kept self.now) key.now }
    {
        match self {
            Kept::Sorted(page) => page.get(key),
            Kept::Tree(tree) => tree.get(key),
        }
    }

    /// The entries, shared, in the order of the layout. The only error is a failed allocation.
    pub(crate) fn entries(&self, alloc: Global) -> Result<Vec<Entry<Key, Item>>, AllocError>
        ensures { IfOk result (λ entries. entries.items ≡ entries_in (layout_kept self.now) (items_kept self.now)) }
    {
        match self {
            Kept::Sorted(page) => shared(alloc, page.entries()),
            Kept::Tree(tree) => tree.entries(alloc),
        }
    }

    /// The entries, shared, in the order of their paths. The only error is a failed allocation.
    fn in_path_order(&self, alloc: Global) -> Result<Vec<Entry<Key, Item>>, AllocError>
        ensures { IfOk result (λ entries. entries.items ≡ path_entries (items_kept self.now)) }
    {
        match self {
            Kept::Sorted(page) => ItemTree::from_plain(alloc, page.store())?.entries(alloc),
            Kept::Tree(tree) => tree.entries(alloc),
        }
    }

    /// The entries of this page and those of a newer one that may differ, both in the order of their paths. All whose
    /// paths begin with the same `front` bits come together or not at all. The only error is a failed allocation.
    pub(crate) fn differences(
        &self,
        alloc: Global,
        newer: &Kept,
        front: u32,
    ) -> Result<(Vec<Entry<Key, Item>>, Vec<Entry<Key, Item>>), AllocError>
        ensures { IfOk result (λ found. ArePageDifferences front (layout_kept self.now) (items_kept self.now) (layout_kept newer.now) (items_kept newer.now) found.0.items found.1.items) }
    {
        match (self, newer) {
            (Kept::Tree(old), Kept::Tree(new)) => old.differences(alloc, new, front),
            (Kept::Sorted(old), Kept::Sorted(new)) if have_one_digest(old, new) => {
                Ok((Vec::new(alloc), Vec::new(alloc)))
            }
            _ => Ok((self.in_path_order(alloc)?, newer.in_path_order(alloc)?)),
        }
    }

    /// The digest. This takes no memory.
    pub(crate) fn digest(&self) -> [u8; 32]
        ensures { result ≡ digest_in (layout_kept self.now) (items_kept self.now) }
    {
        match self {
            Kept::Sorted(page) => page.digest(),
            Kept::Tree(tree) => tree.digest(),
        }
    }

    /// Makes the digest, so that it is kept.
    pub(crate) fn refresh(&mut self)
        ensures { self.new ≡ self.old }
    {
        match self {
            Kept::Sorted(page) => page.refresh(),
            Kept::Tree(tree) => {
                tree.seal();
            }
        }
    }

    /// Writes the text, by the layout.
    pub(crate) fn put_text<S: Sink>(&self, sink: &mut S) -> Result<(), S::Refusal>
        requires { PageFits (map.entries (items_kept self.now)) }
        ensures { OnOk result (Puts S.holds (text_in (layout_kept self.now) (items_kept self.now)) sink.old sink.new) }
    {
        match self {
            Kept::Sorted(page) => page.put_text(sink),
            Kept::Tree(tree) => tree.put(sink),
        }
    }

    /// Whether an item is due at the moment or before it.
    pub(crate) fn has_due(&self, moment: u32) -> bool
        ensures none { result ≡ false → alive (items_kept self.now) moment ≡ items_kept self.now }
        ensures some { result ≡ true → alive (items_kept self.now) moment ≢ items_kept self.now }
    {
        match self {
            Kept::Sorted(page) => page.has_due(moment),
            Kept::Tree(tree) => tree.has_due(moment),
        }
    }

    /// Drops every item that is due at the moment or before it, and answers how many entries it looked
    /// at or copied: one more than it dropped, at most, and all entries if they are sorted and something
    /// is due. The only error is a failed allocation, and then nothing has changed.
    pub(crate) fn drop_due_counted(&mut self, moment: u32) -> Result<u64, AllocError>
        ensures ok { OnOk result (items_kept self.new ≡ alive (items_kept self.old) moment) }
        ensures layout { layout_kept self.new ≡ layout_kept self.old }
        ensures err { OnErr result (self.new ≡ self.old) }
        ensures count { IfOk result (λ looks. looks + length (map.entries (items_kept self.new))
            ≤ length (map.entries (items_kept self.old)) + 1 + beside_due moment (items_kept self.old ∷ [])) }
        ensures least { layout_kept self.old ≡ Sorted → IfOk result (λ looks. beside_due moment (items_kept self.old ∷ []) ≤ looks) }
        ensures dropped { IfOk result (λ looks. length (map.entries (items_kept self.old)) ≤ looks + length (map.entries (items_kept self.new))) }
    {
        match self {
            Kept::Sorted(page) => page.drop_due_counted(moment),
            Kept::Tree(tree) => tree.drop_due_counted(moment),
        }
    }

    /// Puts the item, for which there is room. The only error is a failed allocation, and then nothing
    /// has changed.
    pub(crate) fn put(&mut self, key: Key, item: Item) -> Result<(), AllocError>
        requires { PageFits (map.entries (map.insert (items_kept self.old) key item)) }
        ensures ok { OnOk result (items_kept self.new ≡ map.insert (items_kept self.old) key item) }
        ensures layout { layout_kept self.new ≡ layout_kept self.old }
        ensures err { OnErr result (self.new ≡ self.old) }
    {
        match self {
            Kept::Sorted(page) => page.put(key, item),
            Kept::Tree(tree) => tree.put(key, item),
        }
    }

    /// Removes the item of the key, if there is one. The only error is a failed allocation, and then
    /// nothing has changed.
    pub(crate) fn remove(&mut self, key: &Key) -> Result<(), AllocError>
        ensures ok { OnOk result (items_kept self.new ≡ map.remove (items_kept self.old) key.now) }
        ensures layout { layout_kept self.new ≡ layout_kept self.old }
        ensures err { OnErr result (self.new ≡ self.old) }
    {
        match self {
            Kept::Sorted(page) => page.remove(key),
            Kept::Tree(tree) => tree.remove(key),
        }
    }

    /// The same items in this layout. Data is shared. The only error is a failed allocation.
    pub(crate) fn converted(&self, alloc: Global, layout: Layout) -> Result<Kept, AllocError>
        requires { PageFits (map.entries (items_kept self.now)) }
        ensures { IfOk result (λ kept. (items_kept kept ≡ items_kept self.now) × (layout_kept kept ≡ layout)) }
    {
        match (self, layout) {
            (Kept::Sorted(page), Layout::Sorted) => Ok(Kept::Sorted(page.clone()?)),
            (Kept::Sorted(page), Layout::Tree) => Ok(Kept::Tree(ItemTree::from_plain(
                alloc,
                page.store(),
            )?)),
            (Kept::Tree(tree), Layout::Sorted) => Ok(Kept::Sorted(SortedPage::of_store(
                alloc,
                tree.to_plain(alloc)?,
            )?)),
            (Kept::Tree(tree), Layout::Tree) => Ok(Kept::Tree(tree.clone()?)),
        }
    }
}

/// Whether the digests of two pages are the same.
fn have_one_digest(old: &SortedPage, new: &SortedPage) -> bool
    ensures { result ≡ true → digest_in Sorted old.now ≡ digest_in Sorted new.now }
{
    old.digest() == new.digest()
}

/// The same entries, shared.
fn shared(alloc: Global, entries: &[Entry<Key, Item>]) -> Result<Vec<Entry<Key, Item>>, AllocError>
    ensures { IfOk result (λ copies. copies.items ≡ entries.now) }
{
    let mut copies = Vec::with_capacity(alloc, entries.len())?;
    for entry in entries {
        copies.push(entry.clone()?)?;
    }
    Ok(copies)
}

impl Clone for Kept {
    ghost is_clone = { λ kept copy. copy ≡ kept };

    /// The same items, shared.
    fn clone(&self) -> Result<Kept, AllocError> {
        match self {
            Kept::Sorted(page) => Ok(Kept::Sorted(page.clone()?)),
            Kept::Tree(tree) => Ok(Kept::Tree(tree.clone()?)),
        }
    }
}

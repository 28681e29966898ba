ghost use Rattle.std.specs.Prelude.{◌≡◌, ◌≢◌, ◌≤◌, ◌<◌, ◌+◌, ◌-◌, ◌^◌, ◌==◌, ◌↔◌, ◌∷◌, [], true, false, min, length, map as map_list, None, IfOk, OnOk, OnErr, IsTrue};
ghost use Rattle.std.specs.List.{list_all};
ghost use Rattle.std.specs.FinMap as map;
ghost use Rattle.items.specs.Map.{alive};
ghost use Rattle.wire.specs.Item.{PageFits};
ghost use Rattle.wire.specs.Record.{Puts};
ghost use Rattle.pages.specs.Page.{page_number, item_count, beside_due, refreshed, sealed_in, HasRoom};
ghost use Rattle.pages.specs.Layout.{digest_in, text_in, entries_in};
ghost use Rattle.pages.specs.declared.layout.Layout.TheVariants.{Sorted};
ghost use Rattle.pages.specs.declared.layout.Layout.TheVariants as laid;
ghost use Rattle.pages.specs.declared.page.TheConstants.{MOST_ENTRIES};
ghost use Rattle.pages.specs.Joined.{IsOwn, items_of};
ghost use Rattle.pages.specs.Differing.{ArePageDifferences};

use crate::kept::Kept;
use crate::layout::Layout;
use crate::number::page_of;
use crate::sorted_page::SortedPage;
use crate::tree::Tree;
use base::Entry;
use item_tree::{ItemTree, are_same};
use items::{Item, PlainStore, Store};
use proto::Key;
use std::alloc::{AllocError, Global};
use std::marker::Model;
use std::sync::Arc;
use wire::{Entries, Sink};

/// How many entries a page has at most: its text counts them by four bytes.
pub(crate) const MOST_ENTRIES: usize = 4294967295;

/// What a page that was written weighs, beside the entries that its text is written of anew.
const PAGE_WEIGHT: usize = 64;

/// One page: a store by itself, in one of two layouts.
///
/// It shares all with its clones, and a write copies what it changes, so a clone keeps what it had. What
/// is known of its digest is kept until a write.
pub struct Page {
    alloc: Global,
    kept: Kept,
    /// Whether the digest was made since the last write.
    sealed: bool,
    /// The tree over the digests of all pages of a store. Only page 0 keeps it, so that it goes
    /// along when the pages are parted and joined again. It spares time and no more: the tree of
    /// any other pages would do as well. It is shared with a snapshot.
    tree: Option<Arc<Tree, Global>>,
}

impl Drop for Page {
    fn drop(self) {
        let Page {
            alloc: _,
            kept: _,
            sealed: _,
            tree: _,
        } = self;
    }
}

impl Model for Page {
    ghost use Rattle.std.specs.Coded.{coded_list, coded_ℕ};
    ghost use Rattle.std.specs.FinMap as map;
    ghost use Rattle.items.specs.contracts.item.Item as item;
    ghost use Rattle.wire.specs.Item.{PageFits};
    ghost use Rattle.pages.specs.contracts.layout.Layout as kind;
    ghost use Rattle.pages.specs.Page.{PageState, page_code};
    ghost use Rattle.pages.specs.Kept.{items_kept, layout_kept};

    ghost Value = { PageState };

    ghost coded = { page_code (map.code (coded_list coded_ℕ) item.the_row.coded) kind.the_row.coded };

    ghost view = { λ a. record { items = items_kept a.kept; layout = layout_kept a.kept; sealed = a.sealed } };

    ghost invariant = { λ a. PageFits (map.entries (items_kept a.kept)) };
}

/// Whether each key is of the page of this number.
fn all_of_page(entries: &[Entry<Key, Item>], number: usize) -> bool
    ensures { result ≡ list_all (λ entry. page_number entry.0 == number) entries.now }
{
    entries.iter().all(|entry| page_of(entry.key()) == number)
}

impl Page {
    /// A page without items. The only error is a failed allocation.
    pub fn new(alloc: Global) -> Result<Page, AllocError>
        ensures { IfOk result (λ page. page ≡ record { items = map.empty; layout = Sorted; sealed = false }) }
    {
        Page::of_store(alloc, PlainStore::new(alloc))
    }

    /// A page of these entries. The only error is a failed allocation.
    pub fn from_entries(alloc: Global, entries: Entries) -> Result<Page, AllocError>
        requires { PageFits entries }
        ensures { IfOk result (λ page. page ≡ record { items = map.from_sorted entries; layout = Sorted; sealed = false }) }
    {
        Page::of_store(alloc, PlainStore::from_sorted(entries.into_vec())?)
    }

    fn of_store(alloc: Global, store: PlainStore) -> Result<Page, AllocError>
        requires { PageFits (map.entries store) }
        ensures { IfOk result (λ page. page ≡ record { items = store; layout = Sorted; sealed = false }) }
    {
        Ok(Page {
            alloc,
            kept: Kept::Sorted(SortedPage::of_store(alloc, store)?),
            sealed: false,
            tree: None,
        })
    }

    /// A page of the items of this tree.
    pub(crate) fn of_tree(alloc: Global, tree: ItemTree) -> Page
        requires { PageFits (map.entries tree) }
        ensures { result ≡ record { items = tree; layout = laid.Tree; sealed = false } }
    {
        Page {
            alloc,
            kept: Kept::Tree(tree),
            sealed: false,
            tree: None,
        }
    }

    /// A page in this layout of these entries, which are shared. Of two entries with one key the first one counts. Refused
    /// if an allocation fails, or in the same way if there are 2^32 entries or more.
    pub fn of_entries(
        alloc: Global,
        layout: Layout,
        entries: &[Entry<Key, Item>],
    ) -> Result<Page, AllocError>
        ensures { IfOk result (λ page. page ≡ record { items = map.from_entries entries.now; layout = layout; sealed = false }) }
    {
        let tree = ItemTree::of_entries(alloc, entries)?;
        if tree.len() > MOST_ENTRIES as u64 {
            return Err(AllocError);
        }
        match layout {
            Layout::Sorted => Page::of_store(alloc, tree.to_plain(alloc)?),
            Layout::Tree => Ok(Page::of_tree(alloc, tree)),
        }
    }

    /// How its items are kept.
    pub fn layout(&self) -> Layout
        ensures { result ≡ self.now.layout }
    {
        self.kept.layout()
    }

    /// How many items it has.
    pub fn len(&self) -> u64
        ensures len { result ≡ length (map.entries self.now.items) }
        ensures few { result < 2 ^ 32 }
    {
        self.kept.len()
    }

    /// How many bytes its keys and data have. No clause says so.
    pub(crate) fn bytes(&self) -> u64 {
        self.kept.bytes()
    }

    /// Its entries, which are sorted, in the order of their keys.
    pub(crate) fn sorted_entries(&self) -> &[Entry<Key, Item>]
        requires { self.now.layout ≡ Sorted }
        ensures entries { result.now ≡ map.entries self.now.items }
        ensures fit { PageFits result.now }
    {
        self.kept.sorted_entries()
    }

    /// Its entries, shared, in the order of its layout. The only error is a failed allocation.
    pub fn entries(&self, alloc: Global) -> Result<Vec<Entry<Key, Item>>, AllocError>
        ensures { IfOk result (λ entries. entries.items ≡ entries_in self.now.layout self.now.items) }
    {
        self.kept.entries(alloc)
    }

    /// The entries of this page and those of a newer one that may differ, both in the order of their paths. All whose
    /// paths begin with the same `front` bits come together or not at all. The only error is a failed allocation.
    pub(crate) fn differences(
        &self,
        alloc: Global,
        newer: &Page,
        front: u32,
    ) -> Result<(Vec<Entry<Key, Item>>, Vec<Entry<Key, Item>>), AllocError>
        ensures { IfOk result (λ found. ArePageDifferences front self.now.layout self.now.items newer.now.layout newer.now.items found.0.items found.1.items) }
    {
        self.kept.differences(alloc, &newer.kept, front)
    }

    /// Whether the other page has the same items, in whatever layout. The only error is a failed
    /// allocation.
    pub fn is_same(&self, alloc: Global, other: &Page) -> Result<bool, AllocError>
        ensures { IfOk result (λ same. IsTrue same ↔ (self.now.items ≡ other.now.items)) }
    {
        let layout = self.layout();
        if layout == other.layout() && self.digest() != other.digest() {
            return Ok(false);
        }
        let mut laid = other.clone()?;
        laid.seal(layout)?;
        let entries = self.entries(alloc)?;
        let others = laid.entries(alloc)?;
        Ok(are_same(entries.as_slice(), others.as_slice()))
    }

    /// Whether the page has keys of this number alone, as page `number` of a store has. The only error is
    /// a failed allocation.
    pub fn is_own(&self, alloc: Global, number: usize) -> Result<bool, AllocError>
        ensures { IfOk result (λ own. IsTrue own ↔ IsOwn number self.now.items) }
    {
        let entries = self.entries(alloc)?;
        Ok(all_of_page(entries.as_slice(), number))
    }

    /// The digest: that which is kept, or else from all entries that were written. This takes no memory.
    pub fn digest(&self) -> [u8; 32]
        ensures { result ≡ digest_in self.now.layout self.now.items }
    {
        self.kept.digest()
    }

    /// What it costs to make the digest so that it is kept, in entries: nothing if it is.
    pub fn weight(&self) -> usize {
        if self.sealed {
            return 0;
        }
        match self.kept.layout() {
            Layout::Sorted => (self.kept.len() as usize).saturating_add(PAGE_WEIGHT),
            Layout::Tree => PAGE_WEIGHT,
        }
    }

    /// Writes the page's text.
    pub fn put_text<S: Sink>(&self, sink: &mut S) -> Result<(), S::Refusal>
        ensures { OnOk result (Puts S.holds (text_in self.now.layout self.now.items) sink.old sink.new) }
    {
        self.kept.put_text(sink)
    }

    /// Makes the digest new if none is kept. What there is no memory to keep is made again when it is asked
    /// for; there is no error.
    pub fn refresh(&mut self)
        ensures { self.new ≡ refreshed self.old }
    {
        if !self.sealed {
            self.kept.refresh();
            self.sealed = true;
        }
    }

    /// Brings the page into this layout. The only error is a failed allocation, and then the page is as it
    /// was.
    pub fn lay_out(&mut self, layout: Layout) -> Result<(), AllocError>
        ensures items { self.new.items ≡ self.old.items }
        ensures ok { OnOk result (self.new.layout ≡ layout) }
        ensures same { self.old.layout ≡ layout → self.new ≡ self.old }
        ensures unsealed { OnOk result (self.old.layout ≢ layout → self.new.sealed ≡ false) }
        ensures err { OnErr result (self.new ≡ self.old) }
    {
        if self.kept.layout() != layout {
            self.kept = self.kept.converted(self.alloc, layout)?;
            self.sealed = false;
        }
        Ok(())
    }

    /// Brings the page into this layout, and makes its digest. The only error is a failed allocation, and
    /// then the page is as it was.
    pub fn seal(&mut self, layout: Layout) -> Result<(), AllocError>
        ensures ok { OnOk result (self.new ≡ sealed_in layout self.old) }
        ensures err { OnErr result (self.new ≡ self.old) }
    {
        self.lay_out(layout)?;
        self.refresh();
        Ok(())
    }

    /// Takes out the tree over the digests of all pages, if the page keeps one.
    pub(crate) fn remove_tree(&mut self) -> Option<Arc<Tree, Global>>
        ensures { self.new ≡ self.old }
    {
        self.tree.take()
    }

    /// Keeps a tree over the digests of all pages.
    pub(crate) fn keep_tree(&mut self, tree: Arc<Tree, Global>)
        ensures { self.new ≡ self.old }
    {
        self.tree = Some(tree);
    }

    /// Whether an item is due at the moment or before it. It looks at one entry at most.
    pub(crate) fn has_due(&self, moment: u32) -> bool
        ensures none { result ≡ false → alive self.now.items moment ≡ self.now.items }
        ensures some { result ≡ true → alive self.now.items moment ≢ self.now.items }
    {
        self.kept.has_due(moment)
    }

    /// Drops every item that is due at the moment or before it, as `drop_due`, and answers how many
    /// entries it looked at or copied: one more than it dropped, at most, and all entries if they are
    /// sorted and something is due. If nothing is due the page stays shared. The only error is a
    /// failed allocation, and then nothing has changed.
    pub fn drop_due_counted(&mut self, moment: u32) -> Result<u64, AllocError>
        ensures ok { OnOk result (self.new.items ≡ alive self.old.items moment) }
        ensures layout { self.new.layout ≡ self.old.layout }
        ensures same { alive self.old.items moment ≡ self.old.items → self.new ≡ self.old }
        ensures err { OnErr result (self.new ≡ self.old) }
        ensures count { IfOk result (λ looks. looks + length (map.entries self.new.items)
            ≤ length (map.entries self.old.items) + 1 + beside_due moment (self.old.items ∷ [])) }
        ensures least { self.old.layout ≡ Sorted → IfOk result (λ looks. beside_due moment (self.old.items ∷ []) ≤ looks) }
        ensures dropped { IfOk result (λ looks. length (map.entries self.old.items) ≤ looks + length (map.entries self.new.items)) }
    {
        if !self.has_due(moment) {
            return Ok(1);
        }
        let looks = self.kept.drop_due_counted(moment)?;
        self.sealed = false;
        Ok(looks)
    }

    /// Whether the page may have an item at this key: it has one there, or fewer entries than it has
    /// at most.
    fn has_room(&self, key: &Key) -> bool
        ensures limit { MOST_ENTRIES + 1 ≡ 2 ^ 32 }
        ensures room { IsTrue result ↔ HasRoom self.now.items key.now }
    {
        self.len() < MOST_ENTRIES as u64 || self.get(key).is_some()
    }
}

/// Drops every item of these pages that is due at the moment or before it, and answers how many entries it
/// looked at or copied. The count saturates. The only error is a failed allocation, and then nothing has
/// changed: no page is written before all are made.
pub(crate) fn drop_from_all(pages: &mut [Page], moment: u32) -> Result<u64, AllocError>
    ensures ok { OnOk result (items_of pages.new ≡ map_list (λ page. alive page moment) (items_of pages.old)) }
    ensures err { OnErr result (pages.new ≡ pages.old) }
    ensures count { IfOk result (λ looks. looks + item_count (items_of pages.new)
        ≤ item_count (items_of pages.old) + length pages.old + beside_due moment (items_of pages.old)) }
    ensures dropped { IfOk result (λ looks. min (item_count (items_of pages.old)) (2 ^ 64 - 1) ≤ looks + item_count (items_of pages.new)) }
{
    let Some((first, rest)) = pages.split_first_mut() else {
        return Ok(0);
    };
    if !first.has_due(moment) {
        return Ok(drop_from_all(rest, moment)?.saturating_add(1));
    }
    let mut left = first.clone()?;
    let looks = left.drop_due_counted(moment)?;
    let others = drop_from_all(rest, moment)?;
    *first = left;
    Ok(looks.saturating_add(others))
}

impl Clone for Page {
    ghost is_clone = { λ page copy. copy ≡ page };

    /// The same page, shared.
    fn clone(&self) -> Result<Page, AllocError> {
        Ok(Page {
            alloc: self.alloc,
            kept: self.kept.clone()?,
            sealed: self.sealed,
            tree: self.tree.clone()?,
        })
    }
}

impl Store for Page {
    ghost contents = { λ page. page.items };

    fn get(&self, key: &Key) -> Option<&Item> {
        self.kept.get(key)
    }

    /// Refused if an allocation fails, or in the same way if the page has 2^32 - 1 entries and none at
    /// the key.
    fn put(&mut self, key: Key, item: Item) -> Result<(), AllocError>
        ensures ok { OnOk result (self.new ≡ record { items = map.insert self.old.items key item; layout = self.old.layout; sealed = false }) }
        ensures err { OnErr result (self.new ≡ self.old) }
    {
        if !self.has_room(&key) {
            return Err(AllocError);
        }
        self.kept.put(key, item)?;
        self.sealed = false;
        Ok(())
    }

    fn remove(&mut self, key: &Key) -> Result<(), AllocError>
        ensures ok { OnOk result (self.new.items ≡ map.remove self.old.items key.now) }
        ensures layout { self.new.layout ≡ self.old.layout }
        ensures same { map.get self.old.items key.now ≡ None → self.new ≡ self.old }
        ensures err { OnErr result (self.new ≡ self.old) }
    {
        if self.get(key).is_some() {
            self.kept.remove(key)?;
            self.sealed = false;
        }
        Ok(())
    }

    fn drop_due(&mut self, moment: u32) -> Result<(), AllocError>
        ensures ok { OnOk result (self.new.items ≡ alive self.old.items moment) }
        ensures layout { self.new.layout ≡ self.old.layout }
        ensures same { alive self.old.items moment ≡ self.old.items → self.new ≡ self.old }
        ensures err { OnErr result (self.new ≡ self.old) }
    {
        self.drop_due_counted(moment)?;
        Ok(())
    }
}

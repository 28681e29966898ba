ghost use Rattle.std.specs.Prelude.{◌≡◌, ◌≤◌, ◌+◌, ◌-◌, ◌^◌, min, length, IfOk, OnOk, OnErr, replicate};
ghost use Rattle.std.specs.FinMap as map;
ghost use Rattle.items.specs.Map.{alive};
ghost use Rattle.pages.specs.Page.{page_count, beside_due};
ghost use Rattle.pages.specs.Joined.{ArePages, joined_pages, parts, items_of};

use crate::group::seal_all;
use crate::layout::Layout;
use crate::number::page_of;
use crate::page::{Page, drop_from_all};
use crate::snapshot::Snapshot;
use crate::tree::Tree;
use items::{Item, Store};
use proto::Key;
use std::alloc::{AllocError, Global};
use std::marker::Model;
use std::sync::Arc;
use token::PAGES;

/// `PAGES` pages that are written.
pub(crate) struct OwnPages {
    pages: Vec<Page>,
}

impl Drop for OwnPages {
    fn drop(self) {
        let OwnPages { pages: _ } = self;
    }
}

impl Model for OwnPages {
    ghost use Rattle.std.specs.Coded.{coded_list, coded_ℕ};
    ghost use Rattle.std.specs.FinMap as map;
    ghost use Rattle.items.specs.Map.{Items};
    ghost use Rattle.items.specs.contracts.item.Item as item;
    ghost use Rattle.pages.specs.Joined.{ArePages, joined_pages, items_of};

    ghost Value = { Items };

    ghost coded = { map.code (coded_list coded_ℕ) item.the_row.coded };

    ghost view = { λ a. joined_pages (items_of a.pages.items) };

    ghost invariant = { λ a. ArePages (items_of a.pages.items) };
}

/// As many pages without items as a store has, with one digest made for all of them.
fn empty_pages(alloc: Global) -> Result<Vec<Page>, AllocError>
    ensures { IfOk result (λ pages. items_of pages.items ≡ replicate page_count map.empty) }
{
    let mut empty = Page::new(alloc)?;
    empty.seal(Layout::Sorted)?;
    let mut pages = Vec::with_capacity(alloc, PAGES)?;
    for made in 0..PAGES {
        pages.push(empty.clone()?)?;
    }
    Ok(pages)
}

/// How many items the pages have.
fn count_of(pages: &Vec<Page>) -> u64
    requires { ArePages (items_of pages.now.items) }
    ensures { result ≡ length (map.entries (joined_pages (items_of pages.now.items))) }
{
    let mut len = 0;
    for number in 0..PAGES {
        len += pages[number].len();
    }
    len
}

impl OwnPages {
    /// Pages without items. The only error is a failed allocation.
    pub fn new(alloc: Global) -> Result<OwnPages, AllocError>
        ensures { IfOk result (λ pages. pages ≡ map.empty) }
    {
        let pages = empty_pages(alloc)?;
        Ok(OwnPages { pages })
    }

    /// The `PAGES` pages that these are together, in the order of their numbers. Page `p` has only keys
    /// of number `p`.
    pub fn join(pages: Vec<Page>) -> OwnPages
        requires { ArePages (items_of pages.items) }
        ensures { result ≡ joined_pages (items_of pages.items) }
    {
        OwnPages { pages }
    }

    /// The same, with a tree over digests, of which one over theirs is made.
    pub(crate) fn with_tree(mut pages: Vec<Page>, tree: Arc<Tree, Global>) -> OwnPages
        requires { ArePages (items_of pages.items) }
        ensures { result ≡ joined_pages (items_of pages.items) }
    {
        pages[0].keep_tree(tree);
        OwnPages::join(pages)
    }

    /// The pages, in the order of their numbers.
    pub fn part(self) -> Vec<Page>
        ensures { items_of result.items ≡ parts self }
    {
        let OwnPages { pages: parts } = self;
        parts
    }

    /// How many items there are.
    pub fn len(&self) -> u64
        ensures { result ≡ length (map.entries self.now) }
    {
        count_of(&self.pages)
    }

    /// Keeps the pages as they are now, in this layout. A page is brought into the layout if it is in the
    /// other one. A digest is made for each page that was written since the pages were last sealed, and
    /// for no other, and then the nodes of the tree above those that changed. The only error is a failed
    /// allocation.
    pub fn seal(self, layout: Layout) -> Result<Snapshot, AllocError>
        ensures { IfOk result (λ snapshot. snapshot ≡ record { items = self; layout = layout }) }
    {
        let OwnPages { mut pages } = self;
        seal_all(&mut pages, layout)?;
        Snapshot::of_sealed(pages, layout)
    }

    /// Drops every item that is due at the moment or before it, as `drop_due`, and answers how many
    /// entries it looked at or copied: one more for each page than it dropped, at most, and all entries of
    /// the sorted pages of which something is due. The count saturates. The only error is a failed
    /// allocation, and then nothing has changed.
    pub fn drop_due_counted(&mut self, moment: u32) -> Result<u64, AllocError>
        ensures ok { OnOk result (self.new ≡ alive self.old moment) }
        ensures err { OnErr result (self.new ≡ self.old) }
        ensures count { IfOk result (λ looks. looks + length (map.entries self.new)
            ≤ length (map.entries self.old) + page_count + beside_due moment (parts self.old)) }
        ensures dropped { IfOk result (λ looks. min (length (map.entries self.old)) (2 ^ 64 - 1) ≤ looks + length (map.entries self.new)) }
    {
        let looks = drop_from_all(&mut self.pages, moment)?;
        Ok(looks)
    }
}

impl Store for OwnPages {
    ghost contents = { λ pages. pages };

    fn get(&self, key: &Key) -> Option<&Item> {
        self.pages[page_of(key)].get(key)
    }

    /// Refused if an allocation fails, or in the same way if the key's page has 2^32 - 1 entries and
    /// none at the key.
    fn put(&mut self, key: Key, item: Item) -> Result<(), AllocError> {
        let page = &mut self.pages[page_of(&key)];
        page.put(key, item)
    }

    fn remove(&mut self, key: &Key) -> Result<(), AllocError> {
        let page = &mut self.pages[page_of(key)];
        page.remove(key)
    }

    fn drop_due(&mut self, moment: u32) -> Result<(), AllocError> {
        self.drop_due_counted(moment)?;
        Ok(())
    }
}

ghost use Rattle.std.specs.Prelude.{◌≡◌, ◌<◌, ◌^◌, ◌↔◌, length, false, IfOk, OnOk, IsTrue};
ghost use Rattle.std.specs.Option.{option_copied};
ghost use Rattle.std.specs.Arc.{arc_value};
ghost use Rattle.std.specs.FinMap as map;
ghost use Rattle.wire.specs.Item.{PageFits};
ghost use Rattle.wire.specs.Record.{Puts};
ghost use Rattle.items.specs.Map.{alive};
ghost use Rattle.pages.specs.Form.{root_in};
ghost use Rattle.pages.specs.Page.{page_items, page_entries, page_digest_in, page_count, of_each};
ghost use Rattle.pages.specs.Layout.{text_in, entries_in};
ghost use Rattle.pages.specs.Joined.{ArePages, AreSealed, IsSnapshot, joined_pages, items_of};
ghost use Rattle.pages.specs.Differing.{ArePageDifferences};
ghost use Rattle.pages.specs.Others.{AreSameBeside};
ghost use Rattle.pages.specs.declared.layout.Layout.{Layout as LayoutOf};
ghost use Rattle.pages.specs.declared.layout.Layout.TheVariants.{Sorted};

use crate::grouped_pages::GroupedPages;
use crate::groups::Groups;
use crate::layout::Layout;
use crate::number::page_of;
use crate::own_pages::OwnPages;
use crate::page::Page;
use crate::page_set::PageSet;
use crate::pages::Pages;
use crate::tree::{Tree, renewed};
use base::Entry;
use items::{Item, Store};
use proto::Key;
use std::alloc::{AllocError, Global};
use std::marker::Model;
use std::sync::Arc;
use token::PAGES;
use wire::Sink;

/// Pages that are kept as they are, all in one layout, and the tree over their digests.
pub struct Snapshot {
    alloc: Global,
    groups: Arc<Groups, Global>,
    layout: Layout,
    tree: Arc<Tree, Global>,
}

impl Drop for Snapshot {
    fn drop(self) {
        let Snapshot {
            alloc: _,
            groups: _,
            layout: _,
            tree: _,
        } = self;
    }
}

impl Model for Snapshot {
    ghost use Rattle.std.specs.Arc.{arc_value};
    ghost use Rattle.std.specs.Coded.{coded_list, coded_ℕ};
    ghost use Rattle.std.specs.FinMap as map;
    ghost use Rattle.items.specs.contracts.item.Item as item;
    ghost use Rattle.pages.specs.contracts.layout.Layout as kind;
    ghost use Rattle.pages.specs.Page.{Laid, laid_code};
    ghost use Rattle.pages.specs.Joined.{IsSnapshot, joined_pages, items_of};

    ghost Value = { Laid };

    ghost coded = { laid_code (map.code (coded_list coded_ℕ) item.the_row.coded) kind.the_row.coded };

    ghost view = { λ a. record { items = joined_pages (items_of (arc_value a.groups)); layout = a.layout } };

    ghost invariant = { λ a. IsSnapshot a.layout (arc_value a.groups) (arc_value a.tree) };
}

fn digests_of(pages: &Vec<Page>) -> [[u8; 32]; PAGES]
    requires { ArePages (items_of pages.now.items) }
    ensures { (layout : LayoutOf) → AreSealed layout pages.now.items → result ≡ of_each (page_digest_in layout (joined_pages (items_of pages.now.items))) }
{
    let mut digests = [[0u8; 32]; PAGES];
    for number in 0..PAGES {
        digests[number] = pages[number].digest();
    }
    digests
}

/// The tree over these digests, made of the one that the pages keep, if any. The only error is a failed allocation.
fn tree_over(
    pages: &mut Vec<Page>,
    digests: &[[u8; 32]; PAGES],
) -> Result<Arc<Tree, Global>, AllocError>
    requires { ArePages (items_of pages.old.items) }
    ensures tree { IfOk result (λ tree. arc_value tree ≡ digests.now) }
    ensures same { pages.new.items ≡ pages.old.items }
{
    let alloc = *pages.allocator();
    match pages[0].remove_tree() {
        Some(tree) => renewed(tree, digests),
        None => Ok(Arc::new(alloc, Tree::new(alloc, digests)?)?),
    }
}

impl Snapshot {
    /// The pages of these groups, which are all in this layout, and whose digests are all kept, with the tree over them.
    /// The only error is a failed allocation.
    pub(crate) fn of_groups(
        alloc: Global,
        groups: Groups,
        layout: Layout,
        tree: Arc<Tree, Global>,
    ) -> Result<Snapshot, AllocError>
        requires { IsSnapshot layout groups (arc_value tree) }
        ensures { IfOk result (λ snapshot. snapshot ≡ record { items = joined_pages (items_of groups); layout = layout }) }
    {
        Ok(Snapshot {
            alloc,
            groups: Arc::new(alloc, groups)?,
            layout,
            tree,
        })
    }

    /// These pages, which are all in this layout, and whose digests are all kept. The only error is a
    /// failed allocation.
    pub(crate) fn of_sealed(mut pages: Vec<Page>, layout: Layout) -> Result<Snapshot, AllocError>
        requires { AreSealed layout pages.items }
        ensures { IfOk result (λ snapshot. snapshot ≡ record { items = joined_pages (items_of pages.items); layout = layout }) }
    {
        let alloc = *pages.allocator();
        let digests = digests_of(&pages);
        let tree = tree_over(&mut pages, &digests)?;
        Snapshot::of_groups(alloc, Groups::of_pages(pages)?, layout, tree)
    }

    /// The same pages, shared: nothing is copied. The only error is a failed allocation.
    pub fn share(&self) -> Result<Snapshot, AllocError>
        ensures { IfOk result (λ snapshot. snapshot ≡ self.now) }
    {
        Ok(Snapshot {
            alloc: self.alloc,
            groups: self.groups.clone()?,
            layout: self.layout,
            tree: self.tree.clone()?,
        })
    }

    /// The pages to be written, with the digests that are kept. They are shared until the first write. The only error
    /// is a failed allocation.
    pub fn open(&self) -> Result<Pages, AllocError>
        ensures { IfOk result (λ pages. pages ≡ self.now.items) }
    {
        Ok(Pages::of_shared(self.share()?))
    }

    /// The same pages, to be written: a write copies one group of them. The only error is a failed allocation.
    pub(crate) fn grouped(&self) -> Result<GroupedPages, AllocError>
        ensures { IfOk result (λ pages. pages ≡ self.now.items) }
    {
        let groups = (*self.groups).clone()?;
        let tree = self.tree.clone()?;
        Ok(GroupedPages::of_sealed(self.alloc, groups, self.layout, tree))
    }

    /// The same pages, by themselves. No item is copied. The only error is a failed allocation.
    pub(crate) fn own(&self) -> Result<OwnPages, AllocError>
        ensures { IfOk result (λ pages. pages ≡ self.now.items) }
    {
        let pages = self.groups.pages(self.alloc)?;
        Ok(OwnPages::with_tree(pages, self.tree.clone()?))
    }

    /// The same pages in this layout. The only error is a failed allocation.
    pub(crate) fn in_layout(self, layout: Layout) -> Result<Snapshot, AllocError>
        ensures { IfOk result (λ snapshot. snapshot ≡ record { items = self.items; layout = layout }) }
    {
        if self.layout == layout {
            return Ok(self);
        }
        self.own()?.seal(layout)
    }

    /// How many items there are.
    pub(crate) fn count(&self) -> u64
        ensures { result ≡ length (map.entries self.now.items) }
    {
        self.groups.count()
    }

    /// Whether something is due at the moment or before it. It looks at one entry of each page.
    pub(crate) fn has_due(&self, moment: u32) -> bool
        ensures { result ≡ false → alive self.now.items moment ≡ self.now.items }
    {
        self.groups.has_due(moment)
    }

    /// The item of a key.
    pub(crate) fn get(&self, key: &Key) -> Option<&Item>
        ensures { option_copied result ≡ map.get self.now.items key.now }
    {
        self.page(page_of(key)).get(key)
    }

    fn page(&self, number: usize) -> &Page
        requires { number < page_count }
        ensures items { result.now.items ≡ page_items self.now.items number }
        ensures layout { result.now.layout ≡ self.now.layout }
    {
        self.groups.page(number)
    }

    /// How the items are kept.
    pub fn layout(&self) -> Layout
        ensures { result ≡ self.now.layout }
    {
        self.layout
    }

    /// The pages in which something is due at the moment or before it: to drop what is due leaves all
    /// others as they are. It looks at one entry of each page.
    pub fn due_pages(&self, moment: u32) -> PageSet
        ensures { AreSameBeside result self.now.items (alive self.now.items moment) }
    {
        self.groups.due(moment)
    }

    /// How many items a page has.
    pub fn len(&self, number: usize) -> u64
        requires { number < page_count }
        ensures len { result ≡ length (page_entries self.now.items number) }
        ensures few { result < 2 ^ 32 }
    {
        self.page(number).len()
    }

    /// How many bytes the keys and the data of a page have. No clause says so. Of a tree they are kept, of sorted items each
    /// one is looked at.
    pub fn bytes(&self, number: usize) -> u64
        requires { number < page_count }
    {
        self.page(number).bytes()
    }

    /// The entries of a page of sorted ones, in the order of their keys.
    pub(crate) fn sorted_page(&self, number: usize) -> &[Entry<Key, Item>]
        requires within { number < page_count }
        requires sorted { self.now.layout ≡ Sorted }
        ensures entries { result.now ≡ page_entries self.now.items number }
        ensures fit { PageFits result.now }
    {
        self.page(number).sorted_entries()
    }

    /// The entries of a page, shared, in the order of the layout. The only error is a failed allocation.
    pub fn entries(&self, alloc: Global, number: usize) -> Result<Vec<Entry<Key, Item>>, AllocError>
        requires { number < page_count }
        ensures { IfOk result (λ entries. entries.items ≡ entries_in self.now.layout (page_items self.now.items number)) }
    {
        self.page(number).entries(alloc)
    }

    /// The entries of a page and those of the page in a newer snapshot that may differ, shared, both in the order of
    /// their paths. All whose paths begin with the same `front` bits come together or not at all, and what does not come
    /// is the same in both, if digests tell texts apart. Of two trees it visits what is above other digests, and else
    /// nothing, or all entries. The only error is a failed allocation.
    pub fn differences(
        &self,
        alloc: Global,
        newer: &Snapshot,
        number: usize,
        front: u32,
    ) -> Result<(Vec<Entry<Key, Item>>, Vec<Entry<Key, Item>>), AllocError>
        requires { number < page_count }
        ensures { IfOk result (λ found. ArePageDifferences front self.now.layout (page_items self.now.items number) newer.now.layout (page_items newer.now.items number)
            found.0.items found.1.items) }
    {
        self.page(number)
            .differences(alloc, newer.page(number), front)
    }

    /// Whether a page has the same items in both. The only error is a failed allocation.
    pub fn is_same_page(
        &self,
        alloc: Global,
        other: &Snapshot,
        number: usize,
    ) -> Result<bool, AllocError>
        requires { number < page_count }
        ensures { IfOk result (λ same. IsTrue same ↔ (page_items self.now.items number ≡ page_items other.now.items number)) }
    {
        self.page(number).is_same(alloc, other.page(number))
    }

    /// The digest of a page, by the layout. It was made when the pages were sealed.
    pub fn digest(&self, number: usize) -> [u8; 32]
        requires { number < page_count }
        ensures { result ≡ page_digest_in self.now.layout self.now.items number }
    {
        self.page(number).digest()
    }

    /// Writes the text of a page, by the layout.
    pub fn put_text<S: Sink>(&self, number: usize, sink: &mut S) -> Result<(), S::Refusal>
        requires { number < page_count }
        ensures { OnOk result (Puts S.holds (text_in self.now.layout (page_items self.now.items number)) sink.old sink.new) }
    {
        self.page(number).put_text(sink)
    }

    /// The root of the tree over the digests of the pages. It was made when the pages were sealed.
    pub fn root(&self) -> [u8; 32]
        ensures { result ≡ root_in self.now.layout self.now.items }
    {
        self.tree.root()
    }
}

//! The pages of a store, in groups.

ghost use Rattle.std.specs.Prelude.{◌≡◌, ◌≢◌, ◌<◌, ℕ, length, false, slice_index_or, [], IfOk, OnOk, OnErr};
ghost use Rattle.std.specs.FinMap as map;
ghost use Rattle.std.specs.Arc.{arc_value};
ghost use Rattle.items.specs.Map.{alive};
ghost use Rattle.pages.specs.Page.{page_count, item_count};
ghost use Rattle.pages.specs.Group.{page_at, page_in_group, pages_in, AreGroups, IsEditAt, IsKeptPage, AreUnwrittenKept};
ghost use Rattle.pages.specs.Known.{IsStill};
ghost use Rattle.pages.specs.Joined.{ArePages, joined_pages, items_of};
ghost use Rattle.pages.specs.Others.{has_page, AreSameBeside, AreWithin};
ghost use Rattle.pages.specs.declared.group.TheConstants.{GROUPS, GROUP_PAGES};

use crate::group::{GROUP_PAGES, GROUPS, Group};
use crate::layout::Layout;
use crate::page::Page;
use crate::page_set::PageSet;
use crate::tree::Tree;
use items::Item;
use proto::Key;
use std::alloc::{AllocError, Global};
use std::marker::Model;
use std::sync::Arc;
use token::PAGES;

/// `PAGES` pages in groups, which are shared with clones: page `p` is in group `p / GROUP_PAGES`.
pub(crate) struct Groups {
    groups: Vec<Group>,
}

impl Drop for Groups {
    fn drop(self) {
        let Groups { groups: _ } = self;
    }
}

impl Model for Groups {
    ghost use Rattle.std.specs.Prelude.{List};
    ghost use Rattle.std.specs.Coded.{coded_list};
    ghost use Rattle.pages.specs.Page.{PageState};
    ghost use Rattle.pages.specs.contracts.page.Page as page;
    ghost use Rattle.pages.specs.Group.{AreGroups, pages_in};

    ghost Value = { List PageState };

    ghost coded = { coded_list page.the_row.coded };

    ghost view = { λ a. pages_in a.groups.items };

    ghost invariant = { λ a. AreGroups a.groups.items };
}

impl Groups {
    /// These pages, which are as many as a store has. The only error is a failed allocation.
    pub(crate) fn of_pages(pages: Vec<Page>) -> Result<Groups, AllocError>
        requires { length pages.items ≡ page_count }
        ensures { IfOk result (λ groups. groups ≡ pages.items) }
    {
        Ok(Groups {
            groups: grouped(pages)?,
        })
    }

    /// The pages, each shared. The only error is a failed allocation.
    pub(crate) fn pages(&self, alloc: Global) -> Result<Vec<Page>, AllocError>
        ensures { IfOk result (λ pages. pages.items ≡ self.now) }
    {
        let _ = &self.groups;
        let mut pages = Vec::with_capacity(alloc, PAGES)?;
        for number in 0..PAGES {
            pages.push(self.page(number).clone()?)?;
        }
        Ok(pages)
    }

    /// A page, by its number.
    pub(crate) fn page(&self, number: usize) -> &Page
        requires { number < page_count }
        ensures { result.now ≡ slice_index_or self.now number result.now }
    {
        self.groups[number / GROUP_PAGES].page(number % GROUP_PAGES)
    }

    /// Puts the item into a page. Refused as `Page::put` is, and then nothing has changed.
    pub(crate) fn put(&mut self, number: usize, key: Key, item: Item) -> Result<(), AllocError>
        requires { number < page_count }
        ensures others { OnOk result (IsEditAt number self.old self.new) }
        ensures ok { OnOk result ((page_at self.new number).items ≡ map.insert (page_at self.old number).items key item) }
        ensures err { OnErr result (self.new ≡ self.old) }
    {
        let group = &mut self.groups[number / GROUP_PAGES];
        group.put(number % GROUP_PAGES, key, item)?;
        Ok(())
    }

    /// Removes the item of a key from a page. The only error is a failed allocation, and then nothing has changed.
    pub(crate) fn remove(&mut self, number: usize, key: &Key) -> Result<(), AllocError>
        requires { number < page_count }
        ensures others { OnOk result (IsEditAt number self.old self.new) }
        ensures ok { OnOk result ((page_at self.new number).items ≡ map.remove (page_at self.old number).items key.now) }
        ensures err { OnErr result (self.new ≡ self.old) }
    {
        let group = &mut self.groups[number / GROUP_PAGES];
        group.remove(number % GROUP_PAGES, key)?;
        Ok(())
    }

    /// Brings each page of a group into this layout, and renews the tree over the digests of all pages. The only error
    /// is a failed allocation.
    fn seal(&mut self, group: usize, layout: Layout, tree: &mut Tree) -> Result<(), AllocError>
        requires { group < GROUPS }
        ensures sealed { OnOk result ((i : ℕ) → i < GROUP_PAGES
            → IsKeptPage layout (page_at self.new (page_in_group group i)) (slice_index_or tree.new (page_in_group group i) [])) }
        ensures others { OnOk result ((g i : ℕ) → g ≢ group → i < GROUP_PAGES
            → (page_at self.new (page_in_group g i) ≡ page_at self.old (page_in_group g i)) × (slice_index_or tree.new (page_in_group g i) [] ≡ slice_index_or tree.old (page_in_group g i) [])) }
        ensures items { OnOk result (items_of self.new ≡ items_of self.old) }
        ensures count { OnOk result (length tree.new ≡ page_count) }
    {
        let written = &mut self.groups[group];
        written.seal(layout)?;
        tree.renew_group(group, &written.digests())?;
        Ok(())
    }

    /// Seals a group in this layout if it was written, and then it was not. The only error is a failed allocation.
    fn seal_one(
        &mut self,
        group: usize,
        layout: Layout,
        written: &mut [bool; GROUPS],
        tree: &mut Tree,
    ) -> Result<(), AllocError>
        requires within { group < GROUPS }
        requires kept { AreUnwrittenKept layout self.old tree.old written.old }
        ensures kept { OnOk result (AreUnwrittenKept layout self.new tree.new written.new) }
        ensures done { OnOk result (slice_index_or written.new group false ≡ false) }
        ensures others { OnOk result ((g : ℕ) → g ≢ group → slice_index_or written.new g false ≡ slice_index_or written.old g false) }
        ensures items { OnOk result (items_of self.new ≡ items_of self.old) }
    {
        if !written[group] {
            return Ok(());
        }
        self.seal(group, layout, tree)?;
        written[group] = false;
        Ok(())
    }

    /// Seals each group that was written, in a tree that is not shared.
    fn seal_each(
        &mut self,
        layout: Layout,
        written: [bool; GROUPS],
        tree: &mut Tree,
    ) -> Result<(), AllocError>
        requires { AreUnwrittenKept layout self.old tree.old written }
        ensures kept { OnOk result (AreUnwrittenKept layout self.new tree.new []) }
        ensures items { OnOk result (items_of self.new ≡ items_of self.old) }
    {
        let mut left = written;
        for group in 0..GROUPS {
            self.seal_one(group, layout, &mut left, tree)?;
        }
        tree.renew_top();
        Ok(())
    }

    /// Seals each group that was written in this layout, in which the others are sealed, and renews the tree over the
    /// digests of all pages, which has those of the other groups. The only error is a failed allocation.
    pub(crate) fn seal_written(
        &mut self,
        layout: Layout,
        written: [bool; GROUPS],
        tree: &mut Arc<Tree, Global>,
    ) -> Result<(), AllocError>
        requires { AreUnwrittenKept layout self.old (arc_value tree.old) written }
        ensures kept { OnOk result (AreUnwrittenKept layout self.new (arc_value tree.new) []) }
        ensures items { OnOk result (items_of self.new ≡ items_of self.old) }
    {
        self.seal_each(layout, written, Arc::make_mut(tree)?)
    }

    /// What it costs to make the digests of a group's pages that are not kept, in entries.
    pub(crate) fn weight(&self, group: usize) -> usize
        requires { group < GROUPS }
    {
        self.groups[group].weight()
    }

    /// How many items the pages have.
    pub(crate) fn count(&self) -> u64
        requires { ArePages (items_of self.now) }
        ensures { result ≡ length (map.entries (joined_pages (items_of self.now))) }
    {
        count_in(&self.groups)
    }

    /// Adds the pages of a group in which something is due.
    fn add_due(&self, group: usize, moment: u32, due: &mut PageSet)
        requires { group < GROUPS }
        ensures within { AreWithin due.old due.new }
        ensures own { (i : ℕ) → i < GROUP_PAGES → has_page due.new (page_in_group group i) ≡ false → IsStill moment (page_at self.now (page_in_group group i)) }
    {
        self.groups[group].add_due(group * GROUP_PAGES, moment, due);
    }

    /// The pages in which something is due at the moment or before it. It looks at pages of groups alone in which
    /// something is due, or of which that is not known.
    pub(crate) fn due(&self, moment: u32) -> PageSet
        requires { ArePages (items_of self.now) }
        ensures { AreSameBeside result (joined_pages (items_of self.now)) (alive (joined_pages (items_of self.now)) moment) }
    {
        let mut due = PageSet::new();
        for group in 0..GROUPS {
            self.add_due(group, moment, &mut due);
        }
        due
    }

    /// Whether something is due in one of the pages of a group.
    fn has_due_in(&self, group: usize, moment: u32) -> bool
        requires { group < GROUPS }
        ensures { result ≡ false → (i : ℕ) → i < GROUP_PAGES → IsStill moment (page_at self.now (page_in_group group i)) }
    {
        self.groups[group].has_due(moment)
    }

    /// Whether something is due in one of the pages at the moment or before it.
    pub(crate) fn has_due(&self, moment: u32) -> bool
        requires { ArePages (items_of self.now) }
        ensures { result ≡ false → alive (joined_pages (items_of self.now)) moment ≡ joined_pages (items_of self.now) }
    {
        for group in 0..GROUPS {
            if self.has_due_in(group, moment) {
                return true;
            }
        }
        false
    }
}

/// How many items the pages of all groups have.
fn count_in(groups: &Vec<Group>) -> u64
    requires { length groups.now.items ≡ GROUPS }
    ensures { result ≡ item_count (items_of (pages_in groups.now.items)) }
{
    let mut count = 0;
    for group in 0..GROUPS {
        count += groups[group].len();
    }
    count
}

/// These pages, which are as many as a store has, in groups. The only error is a failed allocation.
fn grouped(pages: Vec<Page>) -> Result<Vec<Group>, AllocError>
    requires { length pages.items ≡ page_count }
    ensures pages { IfOk result (λ groups. pages_in groups.items ≡ pages.items) }
    ensures are { IfOk result (λ groups. AreGroups groups.items) }
{
    let mut rest = pages;
    let mut groups = Vec::with_capacity(*rest.allocator(), GROUPS)?;
    for left in (0..GROUPS).rev() {
        let last = rest.split_off(left * GROUP_PAGES)?;
        groups.insert(0, Group::of_pages(last)?)?;
    }
    Ok(groups)
}

impl Clone for Groups {
    ghost is_clone = { λ groups copy. copy ≡ groups };

    /// The same pages, shared.
    fn clone(&self) -> Result<Groups, AllocError> {
        Ok(Groups {
            groups: self.groups.clone()?,
        })
    }
}

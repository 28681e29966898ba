//! Some of the pages of a store, shared together.

ghost use Rattle.std.specs.Prelude.{◌≡◌, ◌≤◌, ◌<◌, ◌+◌, ◌^◌, ℕ, true, false, length, slice_index_or, [], map as map_list, IfOk, OnOk, OnErr};
ghost use Rattle.std.specs.FinMap as map;
ghost use Rattle.pages.specs.Page.{PageState, page_count, item_count, sealed_in};
ghost use Rattle.pages.specs.Layout.{digest_in};
ghost use Rattle.pages.specs.Joined.{items_of};
ghost use Rattle.pages.specs.Others.{has_page, AreWithin};
ghost use Rattle.pages.specs.Group.{page_at, IsEditAt};
ghost use Rattle.pages.specs.Known.{IsStill, AreStill};
ghost use Rattle.pages.specs.declared.group.TheConstants.{GROUP_PAGES};

use crate::layout::Layout;
use crate::page::Page;
use crate::page_set::PageSet;
use items::{Item, Store};
use proto::Key;
use std::alloc::{AllocError, Global};
use std::marker::Model;
use std::sync::Arc;

/// How many groups the pages of a store are in.
pub(crate) const GROUPS: usize = 16;

/// How many pages a group has.
pub(crate) const GROUP_PAGES: usize = 16;

/// A time that is later than each moment.
const NEVER: u64 = 4294967296;

/// The pages of one group.
pub(crate) struct GroupPages {
    pages: Vec<Page>,
}

impl Drop for GroupPages {
    fn drop(self) {
        let GroupPages { pages: _ } = self;
    }
}

impl Model for GroupPages {
    ghost use Rattle.std.specs.Prelude.{◌≡◌, List, length};
    ghost use Rattle.std.specs.Coded.{coded_list};
    ghost use Rattle.pages.specs.Page.{PageState};
    ghost use Rattle.pages.specs.contracts.page.Page as page;
    ghost use Rattle.pages.specs.declared.group.TheConstants.{GROUP_PAGES};

    ghost Value = { List PageState };

    ghost coded = { coded_list page.the_row.coded };

    ghost view = { λ a. a.pages.items };

    ghost invariant = { λ a. length a.pages.items ≡ GROUP_PAGES };
}

/// Brings each page into this layout, and makes its digest. The only error is a failed allocation.
pub(crate) fn seal_all(pages: &mut Vec<Page>, layout: Layout) -> Result<(), AllocError>
    ensures ok { OnOk result (pages.new.items ≡ map_list (sealed_in layout) pages.old.items) }
    ensures count { length pages.new.items ≡ length pages.old.items }
{
    for page in pages.iter_mut() {
        page.seal(layout)?;
    }
    Ok(())
}

impl GroupPages {
    fn page(&self, index: usize) -> &Page
        requires { index < GROUP_PAGES }
        ensures { result.now ≡ slice_index_or self.now index result.now }
    {
        &self.pages[index]
    }

    fn put(&mut self, index: usize, key: Key, item: Item) -> Result<(), AllocError>
        requires { index < GROUP_PAGES }
        ensures others { OnOk result (IsEditAt index self.old self.new) }
        ensures ok { OnOk result ((page_at self.new index).items ≡ map.insert (page_at self.old index).items key item) }
        ensures err { OnErr result (self.new ≡ self.old) }
    {
        let page = &mut self.pages[index];
        page.put(key, item)?;
        Ok(())
    }

    fn remove(&mut self, index: usize, key: &Key) -> Result<(), AllocError>
        requires { index < GROUP_PAGES }
        ensures others { OnOk result (IsEditAt index self.old self.new) }
        ensures ok { OnOk result ((page_at self.new index).items ≡ map.remove (page_at self.old index).items key.now) }
        ensures err { OnErr result (self.new ≡ self.old) }
    {
        let page = &mut self.pages[index];
        page.remove(key)?;
        Ok(())
    }

    fn seal(&mut self, layout: Layout) -> Result<(), AllocError>
        ensures ok { OnOk result (self.new ≡ map_list (sealed_in layout) self.old) }
        ensures count { length self.new ≡ length self.old }
    {
        seal_all(&mut self.pages, layout)
    }

    fn len(&self) -> u64
        ensures len { result ≡ item_count (items_of self.now) }
        ensures few { result ≤ 2 ^ 36 }
    {
        let _ = &self.pages;
        let mut len = 0;
        for index in 0..GROUP_PAGES {
            len += self.page(index).len();
        }
        len
    }

    fn has_due(&self, moment: u32) -> bool
        ensures { result ≡ false → AreStill moment self.now }
    {
        let _ = &self.pages;
        for index in 0..GROUP_PAGES {
            if self.page(index).has_due(moment) {
                return true;
            }
        }
        false
    }

    fn add_due(&self, first: usize, moment: u32, due: &mut PageSet)
        requires { first + GROUP_PAGES ≤ page_count }
        ensures within { AreWithin due.old due.new }
        ensures own { (i : ℕ) → i < GROUP_PAGES → has_page due.new (first + i) ≡ false → IsStill moment (page_at self.now i) }
    {
        let _ = &self.pages;
        for index in 0..GROUP_PAGES {
            if self.page(index).has_due(moment) {
                due.add(first + index);
            }
        }
    }

    /// Whether nothing is due before this time, and something at it, if it is a moment.
    fn is_first_due(&self, time: u64) -> bool
        ensures { result ≡ true → (moment : ℕ) → moment < time → AreStill moment self.now }
    {
        if time == 0 || time > NEVER {
            return false;
        }
        let before = (time - 1) as u32;
        if self.has_due(before) {
            return false;
        }
        before == u32::MAX || self.has_due(before + 1)
    }

    /// The first moment at which something is due, or `NEVER`.
    fn search_due(&self) -> u64
        ensures { (moment : ℕ) → moment < result → AreStill moment self.now }
    {
        if !self.has_due(u32::MAX) {
            return NEVER;
        }
        let mut low = 0u32;
        let mut high = u32::MAX;
        while low < high {
            let middle = low + (high - low) / 2;
            if self.has_due(middle) {
                high = middle;
            } else {
                low = middle + 1;
            }
        }
        low as u64
    }

    /// The first moment at which something is due, or `NEVER`. If the guess is right it looks at each page twice.
    fn first_due(&self, guess: u64) -> u64
        ensures { (moment : ℕ) → moment < result → AreStill moment self.now }
    {
        if self.is_first_due(guess) {
            return guess;
        }
        self.search_due()
    }

    fn weight(&self) -> usize {
        self.pages
            .iter()
            .fold(0usize, |sum, page| sum.saturating_add(page.weight()))
    }

    fn digests(&self) -> [[u8; 32]; GROUP_PAGES]
        ensures { (i : ℕ) → i < GROUP_PAGES → slice_index_or result i [] ≡ digest_in (page_at self.now i).layout (page_at self.now i).items }
    {
        let _ = &self.pages;
        let mut digests = [[0u8; 32]; GROUP_PAGES];
        for index in 0..GROUP_PAGES {
            digests[index] = self.page(index).digest();
        }
        digests
    }
}

impl Clone for GroupPages {
    ghost is_clone = { λ pages copy. copy ≡ pages };

    fn clone(&self) -> Result<GroupPages, AllocError> {
        Ok(GroupPages {
            pages: self.pages.clone()?,
        })
    }
}

/// The pages of one group, shared with its clones. If they are, a write first copies the handles of the pages.
pub(crate) struct Group {
    pages: Arc<GroupPages, Global>,
    /// Whether the two below are right. After a write they are not.
    is_known: bool,
    /// How many items the pages have.
    known_len: u64,
    /// The first moment at which something is due, or `NEVER`. After a write it is a guess.
    first_due: u64,
}

impl Drop for Group {
    fn drop(self) {
        let Group {
            pages: _,
            is_known: _,
            known_len: _,
            first_due: _,
        } = self;
    }
}

impl Model for Group {
    ghost use Rattle.std.specs.Arc.{arc_value};
    ghost use Rattle.std.specs.Prelude.{◌≡◌, List, true};
    ghost use Rattle.std.specs.Coded.{coded_list};
    ghost use Rattle.pages.specs.Page.{PageState};
    ghost use Rattle.pages.specs.contracts.page.Page as page;
    ghost use Rattle.pages.specs.Known.{IsKnownGroup};

    ghost Value = { List PageState };

    ghost coded = { coded_list page.the_row.coded };

    ghost view = { λ a. arc_value a.pages };

    ghost invariant = { λ a. a.is_known ≡ true → IsKnownGroup (arc_value a.pages) a.known_len a.first_due };
}

impl Group {
    /// The pages, which are as many as a group has. The only error is a failed allocation.
    pub(crate) fn of_pages(pages: Vec<Page>) -> Result<Group, AllocError>
        requires { length pages.items ≡ GROUP_PAGES }
        ensures { IfOk result (λ group. group ≡ pages.items) }
    {
        let alloc = *pages.allocator();
        let mut group = Group {
            pages: Arc::new(alloc, GroupPages { pages })?,
            is_known: false,
            known_len: 0,
            first_due: NEVER,
        };
        group.learn();
        Ok(group)
    }

    /// Counts the items of the pages, and finds when something is due first.
    fn learn(&mut self)
        ensures { self.new ≡ self.old }
    {
        self.known_len = self.pages.len();
        self.first_due = self.pages.first_due(self.first_due);
        self.is_known = true;
    }

    /// A page, by its place in the group.
    pub(crate) fn page(&self, index: usize) -> &Page
        requires { index < GROUP_PAGES }
        ensures { result.now ≡ slice_index_or self.now index result.now }
    {
        self.pages.page(index)
    }

    /// Puts the item into a page. Refused as `Page::put` is, and then nothing has changed.
    pub(crate) fn put(&mut self, index: usize, key: Key, item: Item) -> Result<(), AllocError>
        requires { index < GROUP_PAGES }
        ensures others { OnOk result (IsEditAt index self.old self.new) }
        ensures ok { OnOk result ((page_at self.new index).items ≡ map.insert (page_at self.old index).items key item) }
        ensures err { OnErr result (self.new ≡ self.old) }
    {
        self.is_known = false;
        Arc::make_mut(&mut self.pages)?.put(index, key, item)?;
        Ok(())
    }

    /// Removes the item of a key from a page. The only error is a failed allocation, and then nothing has changed.
    pub(crate) fn remove(&mut self, index: usize, key: &Key) -> Result<(), AllocError>
        requires { index < GROUP_PAGES }
        ensures others { OnOk result (IsEditAt index self.old self.new) }
        ensures ok { OnOk result ((page_at self.new index).items ≡ map.remove (page_at self.old index).items key.now) }
        ensures err { OnErr result (self.new ≡ self.old) }
    {
        self.is_known = false;
        Arc::make_mut(&mut self.pages)?.remove(index, key)?;
        Ok(())
    }

    /// Brings each page into this layout, and makes its digest. The only error is a failed allocation.
    pub(crate) fn seal(&mut self, layout: Layout) -> Result<(), AllocError>
        ensures ok { OnOk result (self.new ≡ map_list (sealed_in layout) self.old) }
        ensures count { length self.new ≡ length self.old }
    {
        self.is_known = false;
        Arc::make_mut(&mut self.pages)?.seal(layout)?;
        self.learn();
        Ok(())
    }

    /// How many items the pages have.
    pub(crate) fn len(&self) -> u64
        ensures len { result ≡ item_count (items_of self.now) }
        ensures few { result ≤ 2 ^ 36 }
    {
        if self.is_known {
            return self.known_len;
        }
        self.pages.len()
    }

    /// Whether it is known that nothing is due at the moment or before it.
    fn is_still(&self, moment: u32) -> bool
        ensures { result ≡ true → AreStill moment self.now }
    {
        self.is_known && (moment as u64) < self.first_due
    }

    /// Whether something is due in the pages at the moment or before it.
    pub(crate) fn has_due(&self, moment: u32) -> bool
        ensures { result ≡ false → AreStill moment self.now }
    {
        if self.is_still(moment) {
            return false;
        }
        self.pages.has_due(moment)
    }

    /// Adds the pages in which something is due at the moment or before it. The first page has this number.
    pub(crate) fn add_due(&self, first: usize, moment: u32, due: &mut PageSet)
        requires { first + GROUP_PAGES ≤ page_count }
        ensures within { AreWithin due.old due.new }
        ensures own { (i : ℕ) → i < GROUP_PAGES → has_page due.new (first + i) ≡ false → IsStill moment (page_at self.now i) }
    {
        if !self.is_still(moment) {
            self.pages.add_due(first, moment, due);
        }
    }

    /// What it costs to make the digests that are not kept, in entries.
    pub(crate) fn weight(&self) -> usize {
        self.pages.weight()
    }

    /// The digests of the pages, in the order of their places.
    pub(crate) fn digests(&self) -> [[u8; 32]; GROUP_PAGES]
        ensures { (i : ℕ) → i < GROUP_PAGES → slice_index_or result i [] ≡ digest_in (page_at self.now i).layout (page_at self.now i).items }
    {
        self.pages.digests()
    }
}

impl Clone for Group {
    ghost is_clone = { λ group copy. copy ≡ group };

    /// The same pages, shared.
    fn clone(&self) -> Result<Group, AllocError> {
        Ok(Group {
            pages: self.pages.clone()?,
            is_known: self.is_known,
            known_len: self.known_len,
            first_due: self.first_due,
        })
    }
}

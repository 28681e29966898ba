//! The pages of a snapshot that are written.

ghost use Rattle.std.specs.Prelude.{◌≡◌, true, [], length, IfOk, OnOk, OnErr};
ghost use Rattle.std.specs.Option.{option_copied};
ghost use Rattle.std.specs.FinMap as map;
ghost use Rattle.std.specs.Arc.{arc_value};
ghost use Rattle.pages.specs.Group.{AreUnwrittenKept};
ghost use Rattle.pages.specs.Joined.{joined_pages, items_of};

use crate::group::{GROUP_PAGES, GROUPS};
use crate::groups::Groups;
use crate::layout::Layout;
use crate::number::page_of;
use crate::own_pages::OwnPages;
use crate::snapshot::Snapshot;
use crate::tree::Tree;
use items::{Item, Store};
use proto::Key;
use std::alloc::{AllocError, Global};
use std::marker::Model;
use std::sync::Arc;

/// The pages of a snapshot, of which some were written. Groups of pages that were not are shared with the snapshot.
pub(crate) struct GroupedPages {
    alloc: Global,
    groups: Groups,
    /// The layout of the snapshot.
    layout: Layout,
    /// The tree over the digests of the snapshot's pages.
    tree: Arc<Tree, Global>,
    /// Whether a page of the group may have been written.
    written: [bool; GROUPS],
}

impl Drop for GroupedPages {
    fn drop(self) {
        let GroupedPages {
            alloc: _,
            groups: _,
            layout: _,
            tree: _,
            written: _,
        } = self;
    }
}

impl Model for GroupedPages {
    ghost use Rattle.std.specs.Prelude.{◌≡◌, length};
    ghost use Rattle.std.specs.Arc.{arc_value};
    ghost use Rattle.std.specs.Coded.{coded_list, coded_ℕ};
    ghost use Rattle.std.specs.FinMap as map;
    ghost use Rattle.items.specs.Map.{Items};
    ghost use Rattle.items.specs.contracts.item.Item as item;
    ghost use Rattle.pages.specs.Group.{AreUnwrittenKept};
    ghost use Rattle.pages.specs.declared.group.TheConstants.{GROUPS};
    ghost use Rattle.pages.specs.Joined.{joined_pages, items_of};

    ghost Value = { Items };

    ghost coded = { map.code (coded_list coded_ℕ) item.the_row.coded };

    ghost view = { λ a. joined_pages (items_of a.groups) };

    ghost invariant = { λ a. AreUnwrittenKept a.layout a.groups (arc_value a.tree) a.written × (length a.written ≡ GROUPS) };
}

/// Whether it is one layout.
fn are_same(a: Layout, b: Layout) -> bool
    ensures { result ≡ true → a ≡ b }
{
    if a == b {
        return true;
    }
    false
}

impl GroupedPages {
    /// Pages that are all sealed in this layout, with the tree over their digests.
    pub(crate) fn of_sealed(
        alloc: Global,
        groups: Groups,
        layout: Layout,
        tree: Arc<Tree, Global>,
    ) -> GroupedPages
        requires { AreUnwrittenKept layout groups (arc_value tree) [] }
        ensures { result ≡ joined_pages (items_of groups) }
    {
        GroupedPages {
            alloc,
            groups,
            layout,
            tree,
            written: [false; GROUPS],
        }
    }

    /// How many items there are.
    pub(crate) fn len(&self) -> u64
        ensures { result ≡ length (map.entries self.now) }
    {
        self.groups.count()
    }

    /// What it costs to make the digests of the pages that were written, in entries.
    pub(crate) fn weight(&self) -> usize {
        let mut weight = 0usize;
        for group in 0..GROUPS {
            if self.written[group] {
                weight = weight.saturating_add(self.groups.weight(group));
            }
        }
        weight
    }

    /// The same pages, by themselves. The only error is a failed allocation.
    pub(crate) fn own(&self) -> Result<OwnPages, AllocError>
        ensures { IfOk result (λ pages. pages ≡ self.now) }
    {
        let pages = self.groups.pages(self.alloc)?;
        Ok(OwnPages::with_tree(pages, self.tree.clone()?))
    }

    /// Keeps the pages as they are now, in this layout. If it is that of the snapshot, a group that was not written stays
    /// as it is. The only error is a failed allocation.
    pub(crate) fn seal(self, layout: Layout) -> Result<Snapshot, AllocError>
        ensures { IfOk result (λ snapshot. snapshot ≡ record { items = self; layout = layout }) }
    {
        if !are_same(self.layout, layout) {
            return self.own()?.seal(layout);
        }
        let GroupedPages {
            alloc,
            mut groups,
            layout: _,
            mut tree,
            written,
        } = self;
        groups.seal_written(layout, written, &mut tree)?;
        Snapshot::of_groups(alloc, groups, layout, tree)
    }

    /// The item of a key.
    pub(crate) fn get(&self, key: &Key) -> Option<&Item>
        ensures { option_copied result ≡ map.get self.now key.now }
    {
        self.groups.page(page_of(key)).get(key)
    }

    /// Refused if an allocation fails, or in the same way if the key's page has 2^32 - 1 entries and
    /// none at the key.
    pub(crate) fn put(&mut self, key: Key, item: Item) -> Result<(), AllocError>
        ensures ok { OnOk result (self.new ≡ map.insert self.old key item) }
        ensures err { OnErr result (self.new ≡ self.old) }
    {
        let number = page_of(&key);
        self.written[number / GROUP_PAGES] = true;
        self.groups.put(number, key, item)
    }

    /// Removes the item of a key. The only error is a failed allocation, and then nothing has changed.
    pub(crate) fn remove(&mut self, key: &Key) -> Result<(), AllocError>
        ensures ok { OnOk result (self.new ≡ map.remove self.old key.now) }
        ensures err { OnErr result (self.new ≡ self.old) }
    {
        let number = page_of(key);
        self.written[number / GROUP_PAGES] = true;
        self.groups.remove(number, key)
    }
}

ghost use Rattle.std.specs.Prelude.{◌≡◌, ◌≤◌, ◌+◌, ◌-◌, ◌^◌, min, length, true, IfOk, IfErr, IfSome, OnOk, OnErr};
ghost use Rattle.std.specs.FinMap as map;
ghost use Rattle.items.specs.Map.{alive};
ghost use Rattle.pages.specs.Page.{page_count, beside_due};
ghost use Rattle.pages.specs.Joined.{ArePages, joined_pages, parts, items_of};
ghost use Rattle.pages.specs.Held.{items_held};

use crate::grouped_pages::GroupedPages;
use crate::layout::Layout;
use crate::own_pages::OwnPages;
use crate::page::Page;
use crate::snapshot::Snapshot;
use items::{Item, Store};
use proto::Key;
use std::alloc::{AllocError, Global};
use std::marker::Model;
use token::PAGES;

/// Pages that were written and weigh less than this are not worth two threads that make their digests, as `workers`
/// parts them: so they are not taken apart.
const LEAST_WEIGHT: usize = 512;

/// What a store of pages has.
#[derive(Drop)]
enum Held {
    /// The pages of a snapshot. Nothing was written.
    Shared(Snapshot),
    /// The pages of a snapshot, of which some may have been written.
    Grouped(GroupedPages),
    /// Pages of its own.
    Own(OwnPages),
}

impl Held {
    /// Pages of its own. The only error is a failed allocation.
    fn own(self) -> Result<OwnPages, AllocError>
        ensures { IfOk result (λ pages. pages ≡ items_held self) }
    {
        match self {
            Held::Shared(snapshot) => snapshot.own(),
            Held::Grouped(pages) => pages.own(),
            Held::Own(pages) => Ok(pages),
        }
    }

    /// The same pages, by themselves, if they are not. The only error is a failed allocation.
    fn taken_out(&self) -> Result<Option<OwnPages>, AllocError>
        ensures { IfOk result (λ taken. IfSome taken (λ pages. pages ≡ items_held self.now)) }
    {
        match self {
            Held::Shared(snapshot) => Ok(Some(snapshot.own()?)),
            Held::Grouped(pages) => Ok(Some(pages.own()?)),
            Held::Own(_) => Ok(None),
        }
    }

    /// Drops what is due of pages of its own, and answers how many entries it looked at or copied.
    fn drop_due_counted(&mut self, moment: u32) -> Result<u64, AllocError>
        ensures ok { OnOk result (items_held self.new ≡ alive (items_held self.old) moment) }
        ensures err { OnErr result (items_held self.new ≡ items_held self.old) }
        ensures count { IfOk result (λ looks. looks + length (map.entries (items_held self.new))
            ≤ length (map.entries (items_held self.old)) + page_count + beside_due moment (parts (items_held self.old))) }
        ensures dropped { IfOk result (λ looks. min (length (map.entries (items_held self.old))) (2 ^ 64 - 1) ≤ looks + length (map.entries (items_held self.new))) }
    {
        match self {
            // `make_own` was called before.
            Held::Shared(_) | Held::Grouped(_) => Err(AllocError),
            Held::Own(pages) => pages.drop_due_counted(moment),
        }
    }
}

/// A store of `PAGES` pages. Those of a snapshot are shared until the first write.
pub struct Pages {
    held: Held,
}

impl Drop for Pages {
    fn drop(self) {
        let Pages { held: _ } = self;
    }
}

impl Model for Pages {
    ghost use Rattle.std.specs.Coded.{coded_list, coded_ℕ};
    ghost use Rattle.std.specs.FinMap as map;
    ghost use Rattle.items.specs.Map.{Items};
    ghost use Rattle.items.specs.contracts.item.Item as item;
    ghost use Rattle.pages.specs.Held.{items_held};

    ghost Value = { Items };

    ghost coded = { map.code (coded_list coded_ℕ) item.the_row.coded };

    ghost view = { λ a. items_held a.held };
}

impl Pages {
    /// Pages without items. The only error is a failed allocation.
    pub fn new(alloc: Global) -> Result<Pages, AllocError>
        ensures { IfOk result (λ pages. pages ≡ map.empty) }
    {
        Ok(Pages {
            held: Held::Own(OwnPages::new(alloc)?),
        })
    }

    /// The pages of a snapshot.
    pub(crate) fn of_shared(snapshot: Snapshot) -> Pages
        ensures { result ≡ snapshot.items }
    {
        Pages {
            held: Held::Shared(snapshot),
        }
    }

    /// The `PAGES` pages that these are together, in the order of their numbers. Page `p` has only keys
    /// of number `p`.
    pub fn join(pages: Vec<Page>) -> Pages
        requires { ArePages (items_of pages.items) }
        ensures { result ≡ joined_pages (items_of pages.items) }
    {
        Pages {
            held: Held::Own(OwnPages::join(pages)),
        }
    }

    /// The pages, in the order of their numbers. The only error is a failed allocation, if they were shared.
    pub fn part(self) -> Result<Vec<Page>, AllocError>
        ensures { IfOk result (λ pages. items_of pages.items ≡ parts self) }
    {
        let Pages { held } = self;
        Ok(held.own()?.part())
    }

    /// The pages, in the order of their numbers, if so much was written that threads are worth starting for the digests.
    /// Else it comes back, and `seal` makes what digests are missing.
    pub fn written(self) -> Result<Vec<Page>, Pages>
        ensures ok { IfOk result (λ pages. items_of pages.items ≡ parts self) }
        ensures err { IfErr result (λ pages. pages ≡ self) }
    {
        let Pages { held } = self;
        match held {
            Held::Shared(snapshot) => Err(Pages::of_shared(snapshot)),
            Held::Grouped(pages) => Pages::taken_apart(pages),
            Held::Own(pages) => Ok(pages.part()),
        }
    }

    /// These pages, in the order of their numbers, if threads are worth starting for their digests. Else they come back,
    /// also if an allocation fails.
    fn taken_apart(pages: GroupedPages) -> Result<Vec<Page>, Pages>
        ensures ok { IfOk result (λ parts_of. items_of parts_of.items ≡ parts pages) }
        ensures err { IfErr result (λ back. back ≡ pages) }
    {
        if pages.weight() < LEAST_WEIGHT {
            return Err(Pages {
                held: Held::Grouped(pages),
            });
        }
        match pages.own() {
            Ok(own) => Ok(own.part()),
            Err(_) => Err(Pages {
                held: Held::Grouped(pages),
            }),
        }
    }

    /// How many items there are.
    pub fn len(&self) -> u64
        ensures { result ≡ length (map.entries self.now) }
    {
        match &self.held {
            Held::Shared(snapshot) => snapshot.count(),
            Held::Grouped(pages) => pages.len(),
            Held::Own(pages) => pages.len(),
        }
    }

    /// Keeps the pages as they are now, in this layout. A page is brought into the layout if it is in the
    /// other one. A digest is made for each page that was written since the pages were last sealed, and
    /// for no other, and then the nodes of the tree above those that changed. The only error is a failed
    /// allocation.
    pub fn seal(self, layout: Layout) -> Result<Snapshot, AllocError>
        ensures { IfOk result (λ snapshot. snapshot ≡ record { items = self; layout = layout }) }
    {
        let Pages { held } = self;
        match held {
            Held::Shared(snapshot) => snapshot.in_layout(layout),
            Held::Grouped(pages) => pages.seal(layout),
            Held::Own(pages) => pages.seal(layout),
        }
    }

    /// Whether the pages are shared, and nothing is due in them at the moment or before it.
    fn is_still(&self, moment: u32) -> bool
        ensures { result ≡ true → alive self.now moment ≡ self.now }
    {
        match &self.held {
            Held::Shared(snapshot) => !snapshot.has_due(moment),
            Held::Grouped(_) => false,
            Held::Own(_) => false,
        }
    }

    /// Pages of its own in place of those of a snapshot. The only error is a failed allocation.
    fn make_own(&mut self) -> Result<(), AllocError>
        ensures { self.new ≡ self.old }
    {
        if let Some(pages) = self.held.taken_out()? {
            self.held = Held::Own(pages);
        }
        Ok(())
    }

    /// Pages that are written in place of shared ones. The only error is a failed allocation.
    fn make_written(&mut self) -> Result<(), AllocError>
        ensures { self.new ≡ self.old }
    {
        if let Held::Shared(snapshot) = &self.held {
            let pages = snapshot.grouped()?;
            self.held = Held::Grouped(pages);
        }
        Ok(())
    }

    /// Drops every item that is due at the moment or before it, as `drop_due`, and answers how many
    /// entries it looked at or copied: one more for each page than it dropped, at most, and all entries of
    /// the sorted pages of which something is due. The count saturates. The only error is a failed
    /// allocation, and then nothing has changed.
    pub fn drop_due_counted(&mut self, moment: u32) -> Result<u64, AllocError>
        ensures ok { OnOk result (self.new ≡ alive self.old moment) }
        ensures err { OnErr result (self.new ≡ self.old) }
        ensures count { IfOk result (λ looks. looks + length (map.entries self.new)
            ≤ length (map.entries self.old) + page_count + beside_due moment (parts self.old)) }
        ensures dropped { IfOk result (λ looks. min (length (map.entries self.old)) (2 ^ 64 - 1) ≤ looks + length (map.entries self.new)) }
    {
        if self.is_still(moment) {
            return Ok(PAGES as u64);
        }
        self.make_own()?;
        self.held.drop_due_counted(moment)
    }
}

impl Store for Pages {
    ghost contents = { λ pages. pages };

    fn get(&self, key: &Key) -> Option<&Item> {
        match &self.held {
            Held::Shared(snapshot) => snapshot.get(key),
            Held::Grouped(pages) => pages.get(key),
            Held::Own(pages) => pages.get(key),
        }
    }

    /// Refused if an allocation fails, or in the same way if the key's page has 2^32 - 1 entries and
    /// none at the key.
    fn put(&mut self, key: Key, item: Item) -> Result<(), AllocError> {
        self.make_written()?;
        match &mut self.held {
            Held::Grouped(pages) => pages.put(key, item),
            Held::Own(pages) => pages.put(key, item),
            // `make_written` left none that are shared.
            Held::Shared(_) => Err(AllocError),
        }
    }

    fn remove(&mut self, key: &Key) -> Result<(), AllocError> {
        if self.get(key).is_none() {
            return Ok(());
        }
        self.make_written()?;
        match &mut self.held {
            Held::Grouped(pages) => pages.remove(key),
            Held::Own(pages) => pages.remove(key),
            // `make_written` left none that are shared.
            Held::Shared(_) => Err(AllocError),
        }
    }

    fn drop_due(&mut self, moment: u32) -> Result<(), AllocError> {
        self.drop_due_counted(moment)?;
        Ok(())
    }
}

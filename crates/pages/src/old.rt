//! The pages of the old form, which records of version 1 have: old page `p` of `OLD_PAGES` is those of
//! today's pages whose numbers are `p` modulo `OLD_PAGES`, merged in the order of keys.

ghost use Rattle.std.specs.Prelude.{◌≡◌, ◌<◌, ◌≤◌, ◌==◌, ◌↔◌, ℕ, length, filter, nat_le, IsTrue, IfOk, IfSome};
ghost use Rattle.std.specs.List.{list_all};
ghost use Rattle.wire.specs.Item.{PageFits, EntriesFit};
ghost use Rattle.token.specs.declared.form.Form.TheVariants.{Old};
ghost use Rattle.token.specs.declared.tree.TheConstants.{OLD_PAGES};
ghost use Rattle.token.specs.Merged.{AreParts, lent};
ghost use Rattle.pages.specs.Form.{root_by, HasTexts, DataWithin};
ghost use Rattle.pages.specs.Page.{digest_among, page_number, page_count, of_each};
ghost use Rattle.pages.specs.Joined.{items_of};
ghost use Rattle.pages.specs.declared.layout.Layout.TheVariants.{Sorted};
ghost use Rattle.pages.specs.Old.{old_entries, part_of_old, part_given, page_over_old, given_or, given_at, AreGiven};

use crate::number::page_of;
use crate::page::{MOST_ENTRIES, Page};
use crate::pages::Pages;
use crate::snapshot::Snapshot;
use base::Entry;
use items::Item;
use proto::Key;
use std::alloc::{AllocError, Global};
use token::{OLD_HEIGHT, OLD_PAGES, PAGES};
use wire::Entries;

/// Whether the data of each item has so many bytes at most.
fn are_within(entries: &[Entry<Key, Item>], most: usize) -> bool
    ensures { result ≡ list_all (λ e. nat_le (length e.1.block) most) entries.now }
{
    entries
        .iter()
        .all(|entry| entry.value().block.len() <= most)
}

/// The entries whose keys are of the page of this number, shared.
fn part_of(
    alloc: Global,
    entries: &[Entry<Key, Item>],
    number: usize,
) -> Result<Vec<Entry<Key, Item>>, AllocError>
    ensures { IfOk result (λ part. part.items ≡ filter (λ e. page_number e.0 == number) entries.now) }
{
    let mut part = Vec::new(alloc);
    for entry in entries {
        if page_of(entry.key()) == number {
            part.push(entry.clone()?)?;
        }
    }
    Ok(part)
}

/// The page of this number: of the entries that are given of its old page, or else the one before,
/// shared.
fn page_over(
    alloc: Global,
    number: usize,
    before: &Page,
    given: &Option<Entries>,
) -> Result<Page, AllocError>
    requires { IfSome given.now EntriesFit }
    ensures { IfOk result (λ page. page.items ≡ part_given number before.now.items given.now) }
{
    match given {
        None => before.clone(),
        Some(entries) => {
            let part = part_of(alloc, entries.as_slice(), number)?;
            Ok(Page::from_entries(alloc, Entries::new(part))?)
        }
    }
}

/// The pages of a store over those before.
fn pages_over(
    alloc: Global,
    before: &Vec<Page>,
    given: &[Option<Entries>],
) -> Result<Vec<Page>, AllocError>
    requires given { AreGiven given.now }
    requires count { length before.now.items ≡ page_count }
    ensures { IfOk result (λ pages. items_of pages.items ≡ of_each (page_over_old (items_of before.now.items) given.now)) }
{
    let mut pages = Vec::with_capacity(alloc, PAGES)?;
    for number in 0..PAGES {
        let page = page_over(alloc, number, &before[number], &given[number % OLD_PAGES])?;
        pages.push(page)?;
    }
    Ok(pages)
}

impl Pages {
    /// These pages, of which the old pages that are given have just the entries that are given. All
    /// others are as they were, and shared. The only error is a failed allocation.
    pub fn with_old_pages(
        self,
        alloc: Global,
        given: &[Option<Entries>],
    ) -> Result<Pages, AllocError>
        requires { AreGiven given.now }
        ensures { IfOk result (λ pages. (p : ℕ) → p < OLD_PAGES → old_entries pages p ≡ given_or self p (given_at given.now p)) }
    {
        let before = self.part()?;
        Ok(Pages::join(pages_over(alloc, &before, given)?))
    }
}

impl Snapshot {
    /// The pages that an old page is merged from.
    fn old_parts(&self, number: usize) -> [&[Entry<Key, Item>]; 4]
        requires within { number < OLD_PAGES }
        requires sorted { self.now.layout ≡ Sorted }
        ensures { AreParts part_of_old (old_entries self.now.items number) (lent result) }
    {
        [
            self.sorted_page(number),
            self.sorted_page(number + OLD_PAGES),
            self.sorted_page(number + 2 * OLD_PAGES),
            self.sorted_page(number + 3 * OLD_PAGES),
        ]
    }

    /// How many entries an old page has.
    fn old_len(&self, number: usize) -> usize
        requires { number < OLD_PAGES }
        ensures { result ≡ length (old_entries self.now.items number) }
    {
        (self.len(number)
            + self.len(number + OLD_PAGES)
            + self.len(number + 2 * OLD_PAGES)
            + self.len(number + 3 * OLD_PAGES)) as usize
    }

    fn old_digest(&self, number: usize) -> [u8; 32]
        requires within { number < OLD_PAGES }
        requires sorted { self.now.layout ≡ Sorted }
        requires fits { PageFits (old_entries self.now.items number) }
        ensures { result ≡ digest_among OLD_PAGES self.now.items number }
    {
        token::merged_digest(self.old_parts(number))
    }

    /// The root over the digests of the pages of the old form. It is made anew with each call, from
    /// all entries, and takes no memory.
    pub fn old_root(&self) -> [u8; 32]
        requires sorted { self.now.layout ≡ Sorted }
        requires texts { HasTexts Old self.now.items }
        ensures { result ≡ root_by Old self.now.items }
    {
        let mut digests = [[0u8; 32]; OLD_PAGES];
        for number in 0..OLD_PAGES {
            digests[number] = self.old_digest(number);
        }
        token::root(&digests, OLD_HEIGHT)
    }

    /// Whether each page of the old form has a text: one of today's has by itself, and four together
    /// may have too many entries for one.
    pub fn has_old_texts(&self) -> bool
        ensures { IsTrue result ↔ HasTexts Old self.now.items }
    {
        for number in 0..OLD_PAGES {
            if self.old_len(number) > MOST_ENTRIES {
                return false;
            }
        }
        true
    }

    /// Whether the data of each item has so many bytes at most. It looks at every item.
    pub fn has_data_within(&self, most: usize) -> bool
        requires { self.now.layout ≡ Sorted }
        ensures { IsTrue result ↔ DataWithin most self.now.items }
    {
        for number in 0..PAGES {
            if !are_within(self.sorted_page(number), most) {
                return false;
            }
        }
        true
    }
}

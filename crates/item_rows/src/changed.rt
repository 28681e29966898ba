//! What became of rows between two snapshots.

ghost use Rattle.std.specs.Prelude.{◌≡◌, ◌<◌, ◌≤◌, length, take, drop, IfOk, OnOk};
ghost use Rattle.item_rows.specs.Row.{row_number_of as row_number_of_key};
ghost use Rattle.item_rows.specs.Rising.{AreRising};
ghost use Rattle.pages.specs.Page.{page_count};
ghost use Rattle.item_rows.specs.Changed.{at_front, row_number_at_front, lower_row_number, AreNoted, IsNoteOf, AreSnapshotsTold, IsPageNoted, LeadTo};

use crate::row_items::RowItems;
use crate::row_number::row_number_of;
use base::Entry;
use item_tree::are_same;
use items::Item;
use pages::{PAGES, Snapshot};
use proto::Key;
use std::alloc::{AllocError, Global};
use wire::Counted;

/// So many of the first bits of a key's path are in its row number, after the number of its page.
const ROW_NUMBER_BITS: u32 = 55;

/// The row number of an entry.
fn row_number(entry: &Entry<Key, Item>) -> u64
    ensures { result ≡ row_number_of_key entry.now.0 }
{
    row_number_of(entry.key()).cast_unsigned()
}

/// The row number of the first entry.
fn first_row_number(entries: &[Entry<Key, Item>]) -> Option<u64>
    ensures { result ≡ row_number_at_front entries.now }
{
    match entries {
        [] => None,
        [first, ..] => Some(row_number(first)),
    }
}

/// The lower one of two row numbers: `None` if there is none.
fn lower(one: Option<u64>, other: Option<u64>) -> Option<u64>
    ensures { result ≡ lower_row_number one other }
{
    match (one, other) {
        (None, number) => number,
        (Some(number), None) => Some(number),
        (Some(number), Some(other)) => Some(if other < number { other } else { number }),
    }
}

/// How many entries at the front are in this row, and the row number of the one behind them. `first` is that of the first
/// entry: each row number is computed once, since it takes a hash.
fn count_at_front(entries: &[Entry<Key, Item>], first: Option<u64>, at: u64) -> (usize, Option<u64>)
    requires { first ≡ row_number_at_front entries.now }
    ensures front { result.0 ≡ at_front at entries.now }
    ensures fits { result.0 ≤ length entries.now }
    ensures behind { result.1 ≡ row_number_at_front (drop result.0 entries.now) }
{
    match entries {
        [_, rest @ ..] if first == Some(at) => {
            let (count, behind) = count_at_front(rest, first_row_number(rest), at);
            (1 + count, behind)
        }
        _ => (0, first),
    }
}

/// Entries that are not compared yet.
#[derive(Clone, Copy)]
struct Rest<'a> {
    entries: &'a [Entry<Key, Item>],
    /// The row number of the first one.
    first: Option<u64>,
}

impl<'a> Rest<'a> {
    fn of(entries: &'a [Entry<Key, Item>]) -> Rest<'a>
        ensures entries { result.entries.now ≡ entries.now }
        ensures first { result.first ≡ row_number_at_front entries.now }
    {
        Rest {
            entries,
            first: first_row_number(entries),
        }
    }

    /// The entries at the front that are in this row, and what is behind them.
    fn split_row(self, at: u64) -> (&'a [Entry<Key, Item>], Rest<'a>)
        requires { self.first ≡ row_number_at_front self.entries.now }
        ensures front { result.0.now ≡ take (at_front at self.entry.entries.now) self.entry.entries.now }
        ensures rest { result.1.entries.now ≡ drop (at_front at self.entry.entries.now) self.entry.entries.now }
        ensures first { result.1.first ≡ row_number_at_front result.1.entries.now }
    {
        let (count, first) = count_at_front(self.entries, self.first, at);
        let rest = Rest {
            entries: &self.entries[count..],
            first,
        };
        (&self.entries[..count], rest)
    }
}

/// The same entries, shared, as those of a row.
fn row_items(alloc: Global, at: u64, entries: &[Entry<Key, Item>]) -> Result<RowItems, AllocError>
    ensures { IfOk result (λ row_items. row_items ≡ (at, entries.now)) }
{
    let mut items = Vec::new(alloc);
    for entry in entries {
        items.push(entry.clone()?)?;
    }
    Ok((at, Counted::new(items)))
}

/// Notes what is in a row now, if it is not what was there.
fn note(
    alloc: Global,
    at: u64,
    old: &[Entry<Key, Item>],
    new: &[Entry<Key, Item>],
    changes: &mut Vec<RowItems>,
) -> Result<(), AllocError>
    ensures { OnOk result (IsNoteOf at old.now new.now changes.old.items changes.new.items) }
{
    if are_same(old, new) {
        return Ok(());
    }
    changes.push(row_items(alloc, at, new)?)?;
    Ok(())
}

/// Notes the rows in which not the same items are in two lists of entries, if each is in the order of row numbers.
fn compare(
    alloc: Global,
    old: &[Entry<Key, Item>],
    new: &[Entry<Key, Item>],
) -> Result<Vec<RowItems>, AllocError>
    ensures { IfOk result (λ changes. AreRising row_number_of_key old.now → AreRising row_number_of_key new.now → AreNoted old.now new.now changes.items) }
{
    let mut changes = Vec::new(alloc);
    let (mut old_rest, mut new_rest) = (Rest::of(old), Rest::of(new));
    while let Some(at) = lower(old_rest.first, new_rest.first) {
        let (before, old_behind) = old_rest.split_row(at);
        let (after, new_behind) = new_rest.split_row(at);
        note(alloc, at, before, after, &mut changes)?;
        old_rest = old_behind;
        new_rest = new_behind;
    }
    Ok(changes)
}

/// What became of the rows of a page. Of two trees it looks at what is above other digests.
fn compare_page(
    alloc: Global,
    old: &Snapshot,
    new: &Snapshot,
    number: usize,
) -> Result<Vec<RowItems>, AllocError>
    requires { number < page_count }
    ensures { IfOk result (λ changes. IsPageNoted number old.now new.now changes.items) }
{
    let (before, now) = old.differences(alloc, new, number, ROW_NUMBER_BITS)?;
    compare(alloc, before.as_slice(), now.as_slice())
}

/// What became of rows from the old snapshot to the new one: those in which not the same items are, once each, with
/// the items that are there in the new one. What has the same digest in both is not looked at, so a write costs one path
/// in the tree of its page. The only error is a failed allocation.
pub fn changes_since(
    alloc: Global,
    old: &Snapshot,
    new: &Snapshot,
) -> Result<Vec<RowItems>, AllocError>
    ensures { IfOk result (λ changes. AreSnapshotsTold old.now new.now → LeadTo changes.items old.now.items new.now.items) }
{
    let mut changes = Vec::new(alloc);
    for number in 0..PAGES {
        let mut found = compare_page(alloc, old, new, number)?;
        changes.append(&mut found)?;
    }
    Ok(changes)
}

//! The pages of a state in a record of version 1, which has the 64 pages of the old form.

ghost use Rattle.std.specs.Prelude.{◌≡◌, ◌≢◌, ◌<◌, ◌↔◌, length, map as map_list, Some, IsTrue, IfSome, IfOk};
ghost use Rattle.wire.specs.Record.{Takes};
ghost use Rattle.token.specs.declared.form.Form.TheVariants.{Old};
ghost use Rattle.token.specs.declared.tree.TheConstants.{OLD_PAGES};
ghost use Rattle.pages.specs.Form.{HasTexts};
ghost use Rattle.pages.specs.Old.{old_entries};
ghost use Rattle.states.specs.OldRecord.{old_pages_text, old_changes_text, AreOfOld, AreInPlace, AreOthers};

use pages::{Layout, Pages, Snapshot, page_of};
use proto::Fault;
use std::alloc::{AllocError, Global};
use token::OLD_PAGES;
use wire::{Counted, Entries, take_values};

/// Whether all keys are of this old page.
fn is_of_old(entries: &Entries, number: usize) -> bool
    ensures { IsTrue result ↔ AreOfOld number entries.now }
{
    entries
        .as_slice()
        .iter()
        .all(|entry| page_of(entry.key()) % OLD_PAGES == number)
}

fn is_in_place(given: &Option<Entries>, number: usize) -> bool
    ensures { IsTrue result ↔ IfSome given.now (AreOfOld number) }
{
    match given {
        None => true,
        Some(entries) => is_of_old(entries, number),
    }
}

/// Whether what is given of each old page has its keys alone.
fn are_in_place(given: &[Option<Entries>]) -> bool
    requires { length given.now ≡ OLD_PAGES }
    ensures { IsTrue result ↔ AreInPlace given.now }
{
    for number in 0..OLD_PAGES {
        if !is_in_place(&given[number], number) {
            return false;
        }
    }
    true
}

/// The entries of all old pages as given ones.
fn all_given(alloc: Global, entries: Counted<Entries>) -> Result<Vec<Option<Entries>>, AllocError>
    ensures { IfOk result (λ given. given.items ≡ map_list (λ es. Some es) entries) }
{
    let mut given = Vec::new(alloc);
    for entries in entries.into_vec() {
        given.push(Some(entries))?;
    }
    Ok(given)
}

/// The items whose old pages' encoding is a prefix of the bytes.
pub fn take_old_pages<'b>(alloc: Global, bytes: &'b [u8]) -> Result<(Pages, &'b [u8]), Fault>
    ensures { Takes (HasTexts Old) old_pages_text bytes.now result }
{
    let (entries, rest) = take_values::<Entries>(alloc, OLD_PAGES, bytes)?;
    let given = all_given(alloc, entries)?;
    if !are_in_place(given.as_slice()) {
        return Err(Fault::BadRecord);
    }
    let pages = Pages::new(alloc)?.with_old_pages(alloc, given.as_slice())?;
    Ok((pages, rest))
}

/// Whether an old page has the same entries in both. The only error is a failed allocation.
fn is_same_old(
    alloc: Global,
    before: &Snapshot,
    after: &Snapshot,
    number: usize,
) -> Result<bool, AllocError>
    requires { number < OLD_PAGES }
    ensures { IfOk result (λ same. IsTrue same ↔ (old_entries before.now.items number ≡ old_entries after.now.items number)) }
{
    for part in 0..4usize {
        if !before.is_same_page(alloc, after, number + part * OLD_PAGES)? {
            return Ok(false);
        }
    }
    Ok(true)
}

fn is_other(
    alloc: Global,
    before: &Snapshot,
    after: &Snapshot,
    given: &Option<Entries>,
    number: usize,
) -> Result<bool, AllocError>
    requires { number < OLD_PAGES }
    ensures { IfOk result (λ other. IsTrue other ↔ IfSome given.now (λ es. old_entries before.now.items number ≢ old_entries after.now.items number)) }
{
    match given {
        None => Ok(true),
        Some(_) => Ok(!is_same_old(alloc, before, after, number)?),
    }
}

/// Whether what is given of each old page is another than before. The only error is a failed allocation.
fn are_others(
    alloc: Global,
    before: &Snapshot,
    after: &Snapshot,
    given: &[Option<Entries>],
) -> Result<bool, AllocError>
    requires { length given.now ≡ OLD_PAGES }
    ensures { IfOk result (λ others. IsTrue others ↔ AreOthers before.now.items after.now.items given.now) }
{
    for number in 0..OLD_PAGES {
        if !is_other(alloc, before, after, &given[number], number)? {
            return Ok(false);
        }
    }
    Ok(true)
}

/// The items whose old pages' encoding over those before is a prefix of the bytes: of each old page
/// 0 if it is the same, and its four pages are shared then, or 1 and its entries.
pub fn take_old_changes<'b>(
    alloc: Global,
    before: &Snapshot,
    bytes: &'b [u8],
) -> Result<(Pages, &'b [u8]), Fault>
    ensures { Takes (HasTexts Old) (old_changes_text before.now.items) bytes.now result }
{
    let (given, rest) = take_values::<Option<Entries>>(alloc, OLD_PAGES, bytes)?;
    let given = given.as_slice();
    if !are_in_place(given) {
        return Err(Fault::BadRecord);
    }
    let pages = before.open()?.with_old_pages(alloc, given)?;
    let after = pages.seal(Layout::Sorted)?;
    if !are_others(alloc, before, &after, given)? {
        return Err(Fault::BadRecord);
    }
    if !after.has_old_texts() {
        return Err(Fault::BadRecord);
    }
    Ok((after.open()?, rest))
}

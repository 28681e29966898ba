//! The pages of a state in its record over the state before it: a page that is the same in both is
//! one byte.

ghost use Rattle.std.specs.Prelude.{◌≡◌, ◌<◌, IfOk, OnOk};
ghost use Rattle.wire.specs.Record.{Always, Puts, Takes};
ghost use Rattle.pages.specs.Page.{page_items, page_count};
ghost use Rattle.pages.specs.Joined.{IsOwn};
ghost use Rattle.pages.specs.Others.{AreSameBeside, AreChanged, IsChangedAt};
ghost use Rattle.states.specs.StateRecord.{change_text, changes_text, flagged_page, flagged_text};

use crate::page_texts::take_page;
use pages::{Layout, PAGES, Page, PageSet, Pages, Snapshot};
use proto::Fault;
use std::alloc::{AllocError, Global};
use wire::{Sink, take_first};

/// Whether a page has other items in the one than in the other. A page that is not in the set has not, and no
/// item of it is read. The only error is a failed allocation.
fn is_changed(
    alloc: Global,
    before: &Snapshot,
    after: &Snapshot,
    may_differ: &PageSet,
    number: usize,
) -> Result<bool, AllocError>
    requires beside { AreSameBeside may_differ.now before.now.items after.now.items }
    requires within { number < page_count }
    ensures { IfOk result (IsChangedAt before.now.items after.now.items number) }
{
    if !may_differ.has(number) {
        return Ok(false);
    }
    Ok(!before.is_same_page(alloc, after, number)?)
}

/// The pages that have other items in the one than in the other. Those that are not in the set have not.
/// The only error is a failed allocation.
pub fn changed_pages(
    alloc: Global,
    before: &Snapshot,
    after: &Snapshot,
    may_differ: &PageSet,
) -> Result<PageSet, AllocError>
    requires { AreSameBeside may_differ.now before.now.items after.now.items }
    ensures { IfOk result (λ changed. AreChanged changed before.now.items after.now.items) }
{
    let mut changed = PageSet::new();
    for number in 0..PAGES {
        if is_changed(alloc, before, after, may_differ, number)? {
            changed.add(number);
        }
    }
    Ok(changed)
}

fn put_change<S: Sink>(
    after: &Snapshot,
    changed: bool,
    number: usize,
    sink: &mut S,
) -> Result<(), S::Refusal>
    requires { number < page_count }
    ensures { OnOk result (Puts S.holds (flagged_page after.now.layout changed (page_items after.now.items number)) sink.old sink.new) }
{
    if !changed {
        return sink.put(&[0u8]);
    }
    sink.put(&[1u8])?;
    after.put_text(number, sink)
}

/// Writes of each page whether it is in the set, and if it is, its text.
pub fn put_changes<S: Sink>(
    after: &Snapshot,
    changed: &PageSet,
    sink: &mut S,
) -> Result<(), S::Refusal>
    ensures { OnOk result (Puts S.holds (flagged_text after.now.layout changed.now after.now.items) sink.old sink.new) }
{
    for number in 0..PAGES {
        put_change(after, changed.has(number), number, sink)?;
    }
    Ok(())
}

/// The page of this number: the one before, which is shared then, or another, in this layout.
fn take_change<'b>(
    alloc: Global,
    layout: Layout,
    number: usize,
    before: &Page,
    bytes: &'b [u8],
) -> Result<(Page, &'b [u8]), Fault>
    requires { IsOwn number before.now.items }
    ensures { Takes (λ page. IsOwn number page.items) (λ page. change_text layout before.now.items page.items) bytes.now result }
{
    let (mark, rest) = take_first(bytes)?;
    if mark == 0 {
        return Ok((before.clone()?, rest));
    }
    if mark != 1 {
        return Err(Fault::BadRecord);
    }
    let (page, rest) = take_page(alloc, layout, number, rest)?;
    if before.is_same(alloc, &page)? {
        return Err(Fault::BadRecord);
    }
    Ok((page, rest))
}

/// The pages whose texts in this layout over those before are a prefix of the bytes. A page that is the same
/// is shared.
pub fn take_changes<'b>(
    alloc: Global,
    layout: Layout,
    before: &Snapshot,
    bytes: &'b [u8],
) -> Result<(Pages, &'b [u8]), Fault>
    ensures { Takes Always (changes_text layout before.now.items) bytes.now result }
{
    let shared = before.open()?.part()?;
    let mut pages = Vec::with_capacity(alloc, PAGES)?;
    let mut rest = bytes;
    for number in 0..PAGES {
        let (page, after) = take_change(alloc, layout, number, &shared[number], rest)?;
        pages.push(page)?;
        rest = after;
    }
    Ok((Pages::join(pages), rest))
}

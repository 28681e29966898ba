//! The pages of a state in its record.

ghost use Rattle.std.specs.Prelude.{◌≡◌, OnOk};
ghost use Rattle.wire.specs.Record.{Always, Puts, Takes};
ghost use Rattle.pages.specs.Layout.{text_in};
ghost use Rattle.pages.specs.Joined.{IsOwn};
ghost use Rattle.states.specs.StateRecord.{pages_text};

use pages::{Layout, PAGES, Page, Pages, Snapshot};
use proto::Fault;
use std::alloc::Global;
use wire::{Record, Sink};

/// Writes the text of each page, in the order of their numbers.
pub fn put_pages<S: Sink>(pages: &Snapshot, sink: &mut S) -> Result<(), S::Refusal>
    ensures { OnOk result (Puts S.holds (pages_text pages.now.layout pages.now.items) sink.old sink.new) }
{
    for number in 0..PAGES {
        pages.put_text(number, sink)?;
    }
    Ok(())
}

/// The page in this layout whose text is a prefix of the bytes, and the bytes after it. Its keys are all of
/// its number. `BadRecord`: there is none. `NoMemory` is the only other error.
pub fn take_page<'b>(
    alloc: Global,
    layout: Layout,
    number: usize,
    bytes: &'b [u8],
) -> Result<(Page, &'b [u8]), Fault>
    ensures { Takes (λ page. IsOwn number page.items) (λ page. text_in layout page.items) bytes.now result }
{
    let (page, rest) = Page::take(alloc, bytes)?;
    if page.layout() != layout {
        return Err(Fault::BadRecord);
    }
    if !page.is_own(alloc, number)? {
        return Err(Fault::BadRecord);
    }
    Ok((page, rest))
}

/// The pages whose texts in this layout are a prefix of the bytes.
pub fn take_pages<'b>(
    alloc: Global,
    layout: Layout,
    bytes: &'b [u8],
) -> Result<(Pages, &'b [u8]), Fault>
    ensures { Takes Always (pages_text layout) bytes.now result }
{
    let mut pages = Vec::with_capacity(alloc, PAGES)?;
    let mut rest = bytes;
    for number in 0..PAGES {
        let (page, after) = take_page(alloc, layout, number, rest)?;
        pages.push(page)?;
        rest = after;
    }
    Ok((Pages::join(pages), rest))
}

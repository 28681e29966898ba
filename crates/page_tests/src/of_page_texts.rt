//! Single pages in each layout: their texts, what is dropped of them, and when their digests are made.

use crate::changes::{put_on_236, put_rows};
use items::Store;
use pages::{Layout, Page};
use proto::Fault;
use sha2::{Digest, Sha256};
use std::alloc::{AllocError, Global};
use std::test::Fail;

/// SHA-256 of the text of a tree, by how many items it has, from `scripts/page_trees`, row by row.
const TEXTS: [[u8; 32]; 4] = [
    [
        0xb4, 0x54, 0x82, 0x22, 0x4b, 0x43, 0x9a, 0x3d, 0x54, 0x8c, 0x65, 0x37, 0x89, 0x29, 0xb7,
        0xdc, 0xc1, 0x6a, 0x42, 0x28, 0x85, 0x30, 0xb7, 0xb2, 0x0d, 0x5c, 0x81, 0x03, 0xcc, 0x87,
        0x9d, 0x10,
    ],
    [
        0xf9, 0xd0, 0x70, 0xc4, 0xfb, 0x0f, 0x45, 0x23, 0x11, 0x4c, 0xb2, 0x68, 0x56, 0x59, 0xa2,
        0xa7, 0x1e, 0xbe, 0x64, 0x0f, 0x7d, 0x7d, 0xc7, 0x3f, 0x7e, 0x51, 0x47, 0xc5, 0xcb, 0x8f,
        0x9f, 0xdc,
    ],
    [
        0x87, 0xc3, 0xaf, 0x0d, 0xf7, 0x54, 0xdc, 0xe6, 0xf4, 0x31, 0xea, 0xa3, 0x9d, 0x4c, 0x41,
        0x32, 0x20, 0x34, 0xba, 0x30, 0x9a, 0xf2, 0x22, 0xf0, 0xc4, 0x27, 0x55, 0x4e, 0x28, 0xbb,
        0x0f, 0x46,
    ],
    [
        0xbb, 0x2e, 0x8c, 0xf6, 0x27, 0x2b, 0xb1, 0x5c, 0xd4, 0x1b, 0x54, 0xad, 0x54, 0x2c, 0xa0,
        0x8a, 0x73, 0x65, 0x64, 0xe3, 0x42, 0xee, 0xbf, 0x69, 0x3a, 0x1b, 0xe9, 0x75, 0x78, 0x14,
        0x9f, 0xef,
    ],
];

/// The page of so many items in this layout.
fn page_of_rows(alloc: Global, layout: Layout, count: usize) -> Result<Page, AllocError> {
    let mut page = Page::new(alloc)?;
    put_rows(alloc, &mut page, 0, count)?;
    page.seal(layout)?;
    Ok(page)
}

fn text_of(alloc: Global, page: &Page) -> Result<Vec<u8>, AllocError> {
    let mut text = Vec::new(alloc);
    page.put_text(&mut text)?;
    Ok(text)
}

/// Whether the page has the layout that the mark of the bytes tells, and its text and the rest are those
/// bytes.
fn begins(alloc: Global, bytes: &[u8], page: &Page, rest: &[u8]) -> Result<bool, AllocError> {
    let mark = match page.layout() {
        Layout::Sorted => 0u8,
        Layout::Tree => 6,
    };
    let mut again = text_of(alloc, page)?;
    again.extend_from_slice(rest)?;
    Ok(again.as_slice() == bytes && bytes.first() == Some(&mark))
}

/// Whether the bytes begin with the page that is read of them; nothing if they begin with no page.
fn taken(alloc: Global, bytes: &[u8]) -> Result<Option<bool>, Fault> {
    match Page::take(alloc, bytes) {
        Ok((page, rest)) => Ok(Some(begins(alloc, bytes, &page, rest)?)),
        Err(Fault::BadRecord) => Ok(None),
        Err(fault) => Err(fault),
    }
}

/// Turns bits of one byte; to turn them once more gives back what was there.
fn turn(bytes: &mut [u8], at: usize, turned: u8) {
    if let Some(byte) = bytes.get_mut(at) {
        *byte ^= turned;
    }
}

/// Whether the text with this byte changed in any way is none, or begins with the text of what is read.
fn is_told_apart(alloc: Global, bytes: &mut [u8], at: usize) -> Result<bool, Fault> {
    for turned in 1u8..=255 {
        turn(bytes, at, turned);
        let again = taken(alloc, bytes);
        turn(bytes, at, turned);
        if again? == Some(false) {
            return Ok(false);
        }
    }
    Ok(true)
}

/// Whether the text is none if it is cut at each of its bytes, and is distinguished if each is changed.
fn are_told_apart(alloc: Global, bytes: &mut [u8]) -> Result<bool, Fault> {
    for at in 0..bytes.len() {
        let front = taken(alloc, bytes.get(..at).unwrap_or(&[]))?;
        if front.is_some() || !is_told_apart(alloc, bytes, at)? {
            return Ok(false);
        }
    }
    Ok(true)
}

/// Whether the page that is read of these bytes is the same, in the same layout, and leaves `rest`.
fn is_read(alloc: Global, page: &Page, bytes: &[u8]) -> Result<bool, Fault> {
    let (back, rest) = Page::take(alloc, bytes)?;
    Ok(
        rest == b"rest".as_slice()
            && back.layout() == page.layout()
            && back.digest() == page.digest()
            && back.is_same(alloc, page)?,
    )
}

fn is_read_back(alloc: Global, page: &Page) -> Result<bool, Fault> {
    let mut text = text_of(alloc, page)?;
    text.extend_from_slice(b"rest")?;
    is_read(alloc, page, text.as_slice())
}

/// Whether what is cut or changed of the page's text is distinguished, and the text of a tree has the digest of
/// its row. The text of two is not changed, for the time.
fn has_text(alloc: Global, page: &Page, count: usize) -> Result<bool, Fault> {
    let mut text = text_of(alloc, page)?;
    let has_digest = page.layout() == Layout::Sorted
        || Sha256::digest(text.as_slice()) == TEXTS[count.min(3)];
    Ok(has_digest && (count == 2 || are_told_apart(alloc, text.as_mut_slice())?))
}

/// The same of a page of so many items in this layout; and whether it is read back.
fn holds(alloc: Global, layout: Layout, count: usize) -> Result<bool, Fault> {
    let page = page_of_rows(alloc, layout, count)?;
    Ok(has_text(alloc, &page, count)? && is_read_back(alloc, &page)?)
}

/// Whether the text of this layout is none with the mark of the other one: its entries have another order.
fn needs_its_mark(alloc: Global, layout: Layout) -> Result<bool, Fault> {
    let mut text = text_of(alloc, &page_of_rows(alloc, layout, 3)?)?;
    // 00 becomes 06, and 06 becomes 00
    turn(text.as_mut_slice(), 0, 6);
    Ok(taken(alloc, text.as_slice())?.is_none())
}

/// Two entries with one key in a tree's text.
const TWICE: &[u8] =
    b"\x06\x00\x00\x00\x02\x01\x61\x00\x00\x00\x00\x00\x00\x00\x00\x00\x00\x00\x00\x40\x00\x00\x00\x01\x35\x01\x61\x00\x00\x00\x00\x00\x00\x00\x00\x00\x00\x00\x00\x40\x00\x00\x00\x01\x35";

#[test]
fn texts_of_pages(rt: HostRuntime) -> Result<(), Fail> {
    for count in 0..4usize {
        assert!(rt;
            holds(rt.alloc(), Layout::Sorted, count)?,
            "sorted, of {count}"
        );
        assert!(rt;
            holds(rt.alloc(), Layout::Tree, count)?,
            "a tree of {count}"
        );
    }
    assert!(rt;
        needs_its_mark(rt.alloc(), Layout::Sorted)?,
        "in the order of a tree"
    );
    assert!(rt;
        needs_its_mark(rt.alloc(), Layout::Tree)?,
        "in the order of keys"
    );
    assert!(rt; taken(rt.alloc(), TWICE)? == None, "a key twice");
    Ok(())
}

/// Whether the keys are those of page 97 alone.
fn is_of_97(alloc: Global, page: &Page) -> Result<bool, AllocError> {
    Ok(page.is_own(alloc, 97)? && !page.is_own(alloc, 98)?)
}

/// Whether that holds in both layouts, until there is a key of page 236.
fn tells_its_keys(alloc: Global, page: &mut Page) -> Result<bool, AllocError> {
    let sorted = is_of_97(alloc, page)?;
    page.lay_out(Layout::Tree)?;
    let tree = is_of_97(alloc, page)?;
    put_on_236(alloc, page, 0)?;
    Ok(sorted && tree && !page.is_own(alloc, 97)? && !page.is_own(alloc, 236)?)
}

/// A page of 100 items, of which every third is due at its number.
fn page_of_100(alloc: Global, layout: Layout) -> Result<Page, AllocError> {
    let mut page = Page::new(alloc)?;
    for n in 0..100u32 {
        put_on_236(alloc, &mut page, n)?;
    }
    page.seal(layout)?;
    Ok(page)
}

/// A drop from a page of 100 items: the moment, how many entries it counts, and how many items it leaves.
type Drops = (u32, u64, u64);

/// A tree counts what it drops: 17 items are due at 50, and 17 more at 99.
const OF_A_TREE: [Drops; 4] = [(50, 17, 83), (50, 1, 83), (99, 17, 66), (u32::MAX, 1, 66)];

/// A sorted page counts all its items, and of its index what it drops and one more, if there is one.
const OF_A_SORTED_PAGE: [Drops; 4] = [(50, 118, 83), (50, 1, 83), (99, 100, 66), (u32::MAX, 1, 66)];

/// Whether the page counts and leaves so many, one drop after the other.
fn counts(page: &mut Page, drops: &[Drops]) -> Result<bool, AllocError> {
    for (moment, looks, left) in drops {
        if page.drop_due_counted(*moment)? != *looks || page.len() != *left {
            return Ok(false);
        }
    }
    Ok(true)
}

/// What the page weighs: as it is, in a tree, with its digest, in the same layout once more, and after a put.
fn weights(alloc: Global, page: &mut Page) -> Result<[usize; 5], AllocError> {
    let first = page.weight();
    page.lay_out(Layout::Tree)?;
    let laid = page.weight();
    page.refresh();
    let fresh = page.weight();
    page.lay_out(Layout::Tree)?;
    let again = page.weight();
    put_on_236(alloc, page, 100)?;
    Ok([first, laid, fresh, again, page.weight()])
}

/// What the page weighs if it is sorted again: with its digest, after one item was dropped, and after none
/// was.
fn sorted_weights(page: &mut Page) -> Result<[usize; 3], AllocError> {
    page.seal(Layout::Sorted)?;
    let first = page.weight();
    page.drop_due(0)?;
    let dropped = page.weight();
    page.refresh();
    page.drop_due(0)?;
    Ok([first, dropped, page.weight()])
}

/// Whether the digest is the same before it is made and after it.
fn keeps_its_digest(page: &mut Page) -> bool {
    let before = page.digest();
    page.refresh();
    page.digest() == before
}

/// Whether a sorted page of 100 items costs this to make its digest, and the digest is then as before.
fn costs(alloc: Global, page: &mut Page) -> Result<bool, AllocError> {
    let first = weights(alloc, page)?;
    let is_kept = keeps_its_digest(page);
    let sorted = sorted_weights(page)?;
    put_on_236(alloc, page, 0)?;
    Ok(is_kept && keeps_its_digest(page) && first == [0, 64, 0, 0, 64] && sorted == [0, 164, 0])
}

fn has_keys(alloc: Global) -> Result<bool, AllocError> {
    let mut page = page_of_rows(alloc, Layout::Sorted, 3)?;
    tells_its_keys(alloc, &mut page)
}

fn counts_of_100(alloc: Global, layout: Layout, drops: &[Drops]) -> Result<bool, AllocError> {
    let mut page = page_of_100(alloc, layout)?;
    counts(&mut page, drops)
}

fn has_costs(alloc: Global) -> Result<bool, AllocError> {
    let mut page = page_of_100(alloc, Layout::Sorted)?;
    costs(alloc, &mut page)
}

#[test]
fn keys_drops_and_costs_of_pages(rt: HostRuntime) -> Result<(), Fail> {
    assert!(rt; has_keys(rt.alloc())?, "keys of one page");
    assert!(rt;
        counts_of_100(rt.alloc(), Layout::Tree, &OF_A_TREE)?,
        "a drop from a tree looks at what it drops"
    );
    assert!(rt;
        counts_of_100(rt.alloc(), Layout::Sorted, &OF_A_SORTED_PAGE)?,
        "a drop from a sorted page looks at all"
    );
    assert!(rt; has_costs(rt.alloc())?, "what it costs to make a digest");
    Ok(())
}

//! Stores whose pages are kept sorted, or as Merkle trees.

ghost use Rattle.std.specs.Prelude.{◌<◌};
ghost use Rattle.pages.specs.Page.{page_count};

use crate::changes::{State, changed, new_state, put_numbered, put_rows};
use items::{Item, PlainStore, Store};
use pages::{Layout, PAGES, Pages, Snapshot};
use rand_core::SeedableRng;
use rand_pcg::Lcg64Xsh32;
use std::alloc::{AllocError, Global};
use std::test::Fail;

/// The digest of page 97, and the root, by how many items the page has. They are from `scripts/page_trees`,
/// row by row.
const TREES: [([u8; 32], [u8; 32]); 4] = [
    (
        [
            0xe3, 0xb0, 0xc4, 0x42, 0x98, 0xfc, 0x1c, 0x14, 0x9a, 0xfb, 0xf4, 0xc8, 0x99, 0x6f,
            0xb9, 0x24, 0x27, 0xae, 0x41, 0xe4, 0x64, 0x9b, 0x93, 0x4c, 0xa4, 0x95, 0x99, 0x1b,
            0x78, 0x52, 0xb8, 0x55,
        ],
        [
            0x12, 0x14, 0x44, 0xeb, 0x86, 0x66, 0x00, 0xb1, 0x47, 0x6e, 0xb0, 0xee, 0x3e, 0x20,
            0xc0, 0xad, 0xca, 0x78, 0x0b, 0x17, 0xd1, 0xce, 0x53, 0x7e, 0x6f, 0x4c, 0x95, 0xdf,
            0x6d, 0x98, 0x15, 0x79,
        ],
    ),
    (
        [
            0x5c, 0x61, 0x0e, 0x42, 0x54, 0x74, 0xff, 0x97, 0x0c, 0x44, 0x8f, 0x5a, 0x2e, 0x39,
            0x7c, 0xb4, 0x85, 0xab, 0x72, 0x86, 0xf8, 0xd7, 0x94, 0x6d, 0x9c, 0x44, 0x7c, 0xd0,
            0xbb, 0x0b, 0x44, 0x36,
        ],
        [
            0xfc, 0x7a, 0xdf, 0xe0, 0xd0, 0x55, 0x4b, 0xe5, 0x67, 0x98, 0xf7, 0x00, 0x66, 0x9c,
            0xcb, 0xae, 0xb2, 0x67, 0x35, 0x57, 0x45, 0xd3, 0xfe, 0xdf, 0x8a, 0x21, 0xbb, 0x36,
            0x43, 0x88, 0xf8, 0x82,
        ],
    ),
    (
        [
            0x24, 0x01, 0xbb, 0xe4, 0x25, 0xcd, 0xf8, 0x35, 0x8b, 0xf7, 0xd2, 0x36, 0xba, 0x5b,
            0xa6, 0x44, 0xcf, 0x0b, 0x16, 0x8d, 0x96, 0xee, 0xf4, 0x9a, 0xb8, 0xa3, 0x66, 0x06,
            0xba, 0x27, 0xfa, 0x6b,
        ],
        [
            0x1c, 0x23, 0x56, 0x12, 0xec, 0x40, 0x46, 0x8f, 0x2d, 0xc5, 0xce, 0x4a, 0x14, 0x4a,
            0x02, 0xa8, 0x31, 0x87, 0xa1, 0xc9, 0xb5, 0xd9, 0x45, 0x61, 0xae, 0xce, 0x15, 0x2a,
            0xa3, 0x9a, 0xed, 0xfe,
        ],
    ),
    (
        [
            0x46, 0x74, 0x3d, 0x25, 0x80, 0xd4, 0x10, 0x7a, 0x3a, 0x9c, 0xbb, 0xb5, 0xe2, 0x19,
            0x32, 0x18, 0x60, 0xc8, 0x3c, 0xc7, 0x0c, 0xeb, 0x8b, 0x94, 0x4a, 0x7a, 0xa6, 0xb2,
            0x08, 0x91, 0xa8, 0x44,
        ],
        [
            0x4a, 0x40, 0xdf, 0x3f, 0x84, 0xae, 0x60, 0x93, 0x5b, 0x99, 0x52, 0x5f, 0x4b, 0xab,
            0x8b, 0x9c, 0x71, 0xbd, 0x82, 0x49, 0x88, 0xc6, 0x15, 0x83, 0xdc, 0x8e, 0xfc, 0x19,
            0xc8, 0x5a, 0x70, 0xd1,
        ],
    ),
];

/// Whether pages as trees, of which page 97 alone has items, have the digests of so many of them.
fn is_row(kept: &Snapshot, count: usize) -> bool {
    let (page, root) = &TREES[count.min(3)];
    let none = &TREES[0].0;
    kept.layout() == Layout::Tree
        && kept.len(97) == count as u64
        && kept.digest(97) == *page
        && kept.digest(98) == *none
        && kept.root() == *root
}

/// The same pages in this layout, if so many items of page 97 are more, from this place on.
fn with_rows(
    alloc: Global,
    kept: &Snapshot,
    layout: Layout,
    from: usize,
    count: usize,
) -> Result<Snapshot, AllocError> {
    let mut pages = kept.open()?;
    put_rows(alloc, &mut pages, from, count)?;
    pages.seal(layout)
}

/// Pages of so many items, which are put at once.
fn put_at_once(alloc: Global, count: usize) -> Result<Snapshot, AllocError> {
    let mut pages = Pages::new(alloc)?;
    put_rows(alloc, &mut pages, 0, count)?;
    pages.seal(Layout::Tree)
}

/// Whether the rows hold if so many items are put at once, and if pages that are sealed before each
/// item grow by it.
fn holds(alloc: Global, grown: &mut Snapshot, count: usize) -> Result<bool, AllocError> {
    let at_once = put_at_once(alloc, count)?;
    let is_grown = is_row(grown, count);
    *grown = with_rows(alloc, grown, Layout::Tree, count, 1)?;
    Ok(is_row(&at_once, count) && is_grown)
}

#[test]
fn roots_over_trees(rt: HostRuntime) -> Result<(), Fail> {
    let mut grown = Pages::new(rt.alloc())?.seal(Layout::Tree)?;
    for count in 0..4usize {
        assert!(rt; holds(rt.alloc(), &mut grown, count)?, "{count}");
    }
    Ok(())
}

/// How many items are put on the page 236, and as many on all pages.
const COUNT: u32 = 150;

/// Pages of all these items in this layout, which are put in steps of so many.
fn afresh(alloc: Global, layout: Layout, step: u32) -> Result<Snapshot, AllocError> {
    let mut pages = Pages::new(alloc)?;
    for n in 0..COUNT {
        put_numbered(alloc, &mut pages, n.wrapping_mul(step) % COUNT)?;
    }
    pages.seal(layout)
}

fn text_of(alloc: Global, kept: &Snapshot, number: usize) -> Result<Vec<u8>, AllocError>
    requires { number < page_count }
{
    let mut text = Vec::new(alloc);
    kept.put_text(number, &mut text)?;
    Ok(text)
}

/// Whether a page has the same digest and the same text in both.
fn is_same_at(alloc: Global, a: &Snapshot, b: &Snapshot, number: usize) -> Result<bool, AllocError>
    requires { number < page_count }
{
    let text = text_of(alloc, a, number)?;
    Ok(
        a.len(number) == b.len(number)
            && a.digest(number) == b.digest(number)
            && text.as_slice() == text_of(alloc, b, number)?.as_slice(),
    )
}

/// Whether two stores have the same items on each page, in whatever layouts.
fn have_same_items(alloc: Global, a: &Snapshot, b: &Snapshot) -> Result<bool, AllocError> {
    for number in 0..PAGES {
        if !a.is_same_page(alloc, b, number)? || !b.is_same_page(alloc, a, number)? {
            return Ok(false);
        }
    }
    Ok(true)
}

/// Whether two stores have the same layout, the same root and the same pages.
fn are_same(alloc: Global, a: &Snapshot, b: &Snapshot) -> Result<bool, AllocError> {
    if a.layout() != b.layout() || a.root() != b.root() {
        return Ok(false);
    }
    for number in 0..PAGES {
        if !is_same_at(alloc, a, b, number)? {
            return Ok(false);
        }
    }
    have_same_items(alloc, a, b)
}

/// Whether the pages are as those that are made afresh in their layout, in steps of so many.
fn are_as_afresh(alloc: Global, kept: &Snapshot, step: u32) -> Result<bool, AllocError> {
    are_same(alloc, kept, &afresh(alloc, kept.layout(), step)?)
}

/// Whether the trees, if they are sorted again, are as the sorted pages were.
fn go_back(alloc: Global, sorted: &Snapshot, trees: &Snapshot) -> Result<bool, AllocError> {
    let back = trees.open()?.seal(Layout::Sorted)?;
    Ok(are_same(alloc, sorted, &back)? && are_as_afresh(alloc, &back, 11)?)
}

/// Whether sorted pages are the same in trees, and back.
fn go_there_and_back(alloc: Global, sorted: &Snapshot) -> Result<bool, AllocError> {
    let trees = sorted.open()?.seal(Layout::Tree)?;
    Ok(
        sorted.len(236) == u64::from(COUNT)
            && trees.root() != sorted.root()
            && are_as_afresh(alloc, &trees, 7)?
            && have_same_items(alloc, sorted, &trees)?
            && go_back(alloc, sorted, &trees)?,
    )
}

/// Whether page 97 alone differs if it has one item more, in this layout.
fn tells_one_item(alloc: Global, kept: &Snapshot, layout: Layout) -> Result<bool, AllocError> {
    let more = with_rows(alloc, kept, layout, 0, 1)?;
    Ok(
        !kept.is_same_page(alloc, &more, 97)?
            && !more.is_same_page(alloc, kept, 97)?
            && more.is_same_page(alloc, kept, 236)?,
    )
}

/// The same in both layouts.
fn tell_one_item(alloc: Global, kept: &Snapshot) -> Result<bool, AllocError> {
    Ok(tells_one_item(alloc, kept, Layout::Sorted)? && tells_one_item(alloc, kept, Layout::Tree)?)
}

#[test]
fn sorted_pages_become_trees_and_sorted_again(rt: HostRuntime) -> Result<(), Fail> {
    let sorted = afresh(rt.alloc(), Layout::Sorted, 1)?;
    let are_same = go_there_and_back(rt.alloc(), &sorted)?;
    let of_sorted = tell_one_item(rt.alloc(), &sorted)?;
    let of_trees = tell_one_item(rt.alloc(), &afresh(rt.alloc(), Layout::Tree, 1)?)?;
    assert!(rt; are_same, "there and back");
    assert!(rt;
        of_sorted && of_trees,
        "one item more is told: {of_sorted} {of_trees}"
    );
    Ok(())
}

fn is_item(found: &Item, item: &Item) -> bool {
    found.block == item.block
        && found.flags == item.flags
        && found.due == item.due
        && found.unique == item.unique
}

/// Whether the pages have just the items of the plain store.
fn has_items(pages: &Pages, plain: &PlainStore) -> bool {
    for entry in plain.as_slice() {
        match pages.get(entry.key()) {
            Some(found) if is_item(found, entry.value()) => {}
            _ => return false,
        }
    }
    pages.len() == plain.as_slice().len() as u64
}

/// Pages of the items of the plain store.
fn of_plain(alloc: Global, plain: &PlainStore) -> Result<Pages, AllocError> {
    let mut pages = Pages::new(alloc)?;
    for entry in plain.as_slice() {
        pages.put(entry.key().clone()?, entry.value().clone()?)?;
    }
    Ok(pages)
}

/// Whether the pages are as those that are made from scratch of the plain store.
fn agree(alloc: Global, state: &State) -> Result<bool, AllocError> {
    let made = of_plain(alloc, &state.1)?.seal(state.0.layout())?;
    are_same(alloc, &state.0, &made)
}

/// Makes 25 random changes in both, and keeps the pages in this layout after each: whether each time they
/// have the same items.
fn agree_after_each(
    alloc: Global,
    words: &mut Lcg64Xsh32,
    state: &mut State,
    layout: Layout,
) -> Result<bool, AllocError> {
    for _ in 0..25usize {
        *state = changed(alloc, words, state, layout)?;
        if !has_items(&state.0.open()?, &state.1) {
            return Ok(false);
        }
    }
    Ok(true)
}

/// The same; and whether then each digest and the root are as from scratch, and pages that were kept before
/// are as they were.
fn agree_before_and_after(
    alloc: Global,
    words: &mut Lcg64Xsh32,
    state: &mut State,
    layout: Layout,
) -> Result<bool, AllocError> {
    let before = (state.0.share()?, state.1.clone()?);
    Ok(
        agree_after_each(alloc, words, state, layout)?
            && agree(alloc, state)?
            && agree(alloc, &before)?,
    )
}

/// How many times that holds, one after the other, of so many times in these layouts in turns.
fn agreed(
    alloc: Global,
    seed: u64,
    layouts: [Layout; 2],
    times: usize,
) -> Result<usize, AllocError> {
    let mut words = Lcg64Xsh32::seed_from_u64(seed);
    let mut state = new_state(alloc, layouts[1])?;
    for n in 0..times {
        if !agree_before_and_after(alloc, &mut words, &mut state, layouts[n % 2])? {
            return Ok(n);
        }
    }
    Ok(times)
}

/// 500 random changes.
#[test]
fn random_changes_of_trees(rt: HostRuntime) -> Result<(), Fail> {
    let agreed = agreed(rt.alloc(), 21, [Layout::Tree, Layout::Tree], 20)?;
    assert!(rt; agreed == 20, "{agreed}");
    Ok(())
}

/// 200 random changes, of which 25 are made in one layout and 25 in the other.
#[test]
fn random_changes_in_both_layouts(rt: HostRuntime) -> Result<(), Fail> {
    let agreed = agreed(rt.alloc(), 22, [Layout::Tree, Layout::Sorted], 8)?;
    assert!(rt; agreed == 8, "{agreed}");
    Ok(())
}

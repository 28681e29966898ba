//! Stores of pages: their digests and roots, the texts of their pages, and which pages may differ.

ghost use Rattle.std.specs.Prelude.{◌<◌};
ghost use Rattle.pages.specs.Page.{page_count};

use crate::changes::{State, any_item, changed, key, new_state, nth_key, put_five};
use base::{Entry, Text};
use items::{Item, PlainStore, Store};
use pages::{Layout, PAGES, Page, PageSet, Pages, Snapshot, page_of};
use proto::{Block, Key, Reader, Turn};
use rand_core::SeedableRng;
use rand_core::utils::NextWord;
use rand_pcg::Lcg64Xsh32;
use sha2::{Digest, Sha256};
use std::alloc::{AllocError, Global};
use std::test::Fail;
use token::{HEIGHT, OLD_HEIGHT, OLD_PAGES};
use wire::LEAST_SHARED_BYTES;

/// A number's last bytes, the highest first.
fn put_number(hasher: &mut Sha256, number: u64, width: usize) {
    let bytes = number.to_be_bytes();
    hasher.update(&bytes[8usize.saturating_sub(width)..]);
}

fn put_entry(hasher: &mut Sha256, key: &Key, item: &Item) {
    put_number(hasher, key.as_slice().len() as u64, 1);
    hasher.update(key.as_slice());
    put_number(hasher, u64::from(item.flags), 4);
    match item.due {
        None => put_number(hasher, 0, 1),
        Some(due) => {
            put_number(hasher, 1, 1);
            put_number(hasher, due, 8);
        }
    }
    put_number(hasher, item.unique, 8);
    put_number(hasher, item.block.as_slice().len() as u64, 4);
    hasher.update(item.block.as_slice());
}

/// How many entries are on a page. The mask is one less than the number of pages.
fn count_on(entries: &[Entry<Key, Item>], number: usize, mask: usize) -> u64 {
    let mut count = 0u64;
    for entry in entries {
        if page_of(entry.key()) & mask == number {
            count = count.wrapping_add(1);
        }
    }
    count
}

/// The digest of a page, from scratch: its text is spelled here.
fn digest_of(entries: &[Entry<Key, Item>], number: usize, mask: usize) -> [u8; 32] {
    let mut hasher = Sha256::new();
    put_number(&mut hasher, 0, 1);
    put_number(&mut hasher, count_on(entries, number, mask), 4);
    for entry in entries {
        if page_of(entry.key()) & mask == number {
            put_entry(&mut hasher, entry.key(), entry.value());
        }
    }
    hasher.finalize()
}

/// Whether the root of the pages of the old form is that of the plain store, from scratch.
fn old_root_agrees(state: &State) -> bool {
    let mut digests = [[0u8; 32]; OLD_PAGES];
    for number in 0..OLD_PAGES {
        digests[number] = digest_of(state.1.as_slice(), number, OLD_PAGES - 1);
    }
    state.0.layout() == Layout::Sorted
        && state.0.has_old_texts()
        && state.0.old_root() == token::root(&digests, OLD_HEIGHT)
}

/// Which pages have entries.
fn filled(entries: &[Entry<Key, Item>]) -> [bool; PAGES] {
    let mut filled = [false; PAGES];
    for entry in entries {
        filled[page_of(entry.key()) & (PAGES - 1)] = true;
    }
    filled
}

/// Whether each digest and the root are those of the plain store, from scratch.
fn agree(state: &State) -> bool {
    let mut digests = [EMPTY; PAGES];
    let filled = filled(state.1.as_slice());
    for number in 0..PAGES {
        if filled[number] {
            digests[number] = digest_of(state.1.as_slice(), number, PAGES - 1);
        }
        if state.0.digest(number) != digests[number] {
            return false;
        }
    }
    state.0.root() == token::root(&digests, HEIGHT)
}

/// Keys and their pages.
const PAGES_OF_KEYS: [(&[u8], usize); 9] = [
    (b"a", 97),
    (b"b", 98),
    (b"c", 99),
    (b"n", 110),
    (b"x", 120),
    (b"y", 121),
    (b"C", 67),
    (b"E", 69),
    (b"ab", 195),
];

/// Keys of old page 33, in their order, and their pages today: the four pages that it is merged from have
/// them in turns.
const OF_OLD_PAGE_33: [(&[u8], usize); 8] = [
    (b"!", 33),
    (b"a", 97),
    (b"a@", 161),
    (b"a``", 33),
    (b"pq", 225),
    (b"q0", 161),
    (b"qp", 225),
    (b"~~e", 97),
];

fn is_on(alloc: Global, row: &(&[u8], usize)) -> Result<bool, AllocError> {
    Ok(page_of(&key(alloc, row.0)?) == row.1)
}

/// The state with an item at the key.
fn with_key(alloc: Global, state: &State, bytes: &[u8]) -> Result<State, AllocError> {
    let mut pages = state.0.open()?;
    put_five(alloc, &mut pages, bytes, 0, None)?;
    let mut after = state.1.clone()?;
    put_five(alloc, &mut after, bytes, 0, None)?;
    Ok((pages.seal(Layout::Sorted)?, after))
}

/// Whether the pages are sorted, and the data of each item has so many bytes at most.
fn has_data_within(state: &State, most: usize) -> bool {
    state.0.layout() == Layout::Sorted && state.0.has_data_within(most)
}

/// Whether the keys, one after the other, are on their page, and leave the root of the old pages right.
fn grow_by_keys(alloc: Global, state: &mut State) -> Result<bool, AllocError> {
    for row in &OF_OLD_PAGE_33 {
        *state = with_key(alloc, state, row.0)?;
        if !is_on(alloc, row)? || !old_root_agrees(state) {
            return Ok(false);
        }
    }
    Ok(true)
}

/// The same of a state without items; and whether the data of the items is within its bounds.
fn grow(alloc: Global, state: &mut State) -> Result<bool, AllocError> {
    let at_first = old_root_agrees(state) && has_data_within(state, 0);
    Ok(
        at_first
            && grow_by_keys(alloc, state)?
            && has_data_within(state, 1)
            && !has_data_within(state, 0),
    )
}

/// SHA-256 of 00 00000000, by another program.
const EMPTY: [u8; 32] = [
    0x88, 0x55, 0x50, 0x8a, 0xad, 0xe1, 0x6e, 0xc5, 0x73, 0xd2, 0x1e, 0x6a, 0x48, 0x5d, 0xfd, 0x0a,
    0x76, 0x24, 0x08, 0x5c, 0x1a, 0x14, 0xb5, 0xec, 0xdd, 0x64, 0x85, 0xde, 0x0c, 0x68, 0x39, 0xa4,
];

/// SHA-256 of 00 00000001 01 61 00000000 00 0000000000000040 00000001 35, by another program.
const ONE: [u8; 32] = [
    0x73, 0xa7, 0x3c, 0x62, 0xab, 0x4e, 0x82, 0x0d, 0x79, 0x34, 0x33, 0xac, 0x48, 0x02, 0x54, 0x8e,
    0x44, 0xfa, 0xf5, 0xc8, 0x78, 0x5e, 0xa2, 0x32, 0xe9, 0x7d, 0xc1, 0x0c, 0x1d, 0x4f, 0xdf, 0x19,
];

/// The pages with one item more.
fn with_five(alloc: Global, kept: &Snapshot, due: Option<u64>) -> Result<Snapshot, AllocError> {
    let mut pages = kept.open()?;
    put_five(alloc, &mut pages, b"a", 0, due)?;
    pages.seal(Layout::Sorted)
}

/// The text of a page. If it is kept its pieces are shared, so that the tail stays empty.
fn text_of(alloc: Global, kept: &Snapshot, number: usize) -> Result<Text, AllocError>
    requires { number < page_count }
{
    let mut text = Text::new(alloc);
    kept.put_text(number, &mut text)?;
    Ok(text)
}

/// Whether the page's text is kept, and is this one.
fn has_text(alloc: Global, kept: &Snapshot, number: usize, text: &[u8]) -> Result<bool, AllocError>
    requires { number < page_count }
{
    let kept = text_of(alloc, kept, number)?;
    Ok(kept.parts().1.is_empty() && kept.joined(alloc)?.as_slice() == text)
}

/// The text of a page with one item.
const TEXT_OF_ONE: &[u8] =
    b"\x00\x00\x00\x00\x01\x01\x61\x00\x00\x00\x00\x00\x00\x00\x00\x00\x00\x00\x00\x40\x00\x00\x00\x01\x35";

/// The text of a page without items.
const TEXT_OF_NONE: &[u8] = b"\x00\x00\x00\x00\x00";

/// Whether the texts of the pages 98 and 97 are put one behind the other.
fn puts_its_texts(alloc: Global, kept: &Snapshot) -> Result<bool, AllocError> {
    let mut record = Text::new(alloc);
    kept.put_text(98, &mut record)?;
    kept.put_text(97, &mut record)?;
    let joined = record.joined(alloc)?;
    Ok(
        joined.as_slice().get(..5) == Some(TEXT_OF_NONE)
            && joined.as_slice().get(5..) == Some(TEXT_OF_ONE),
    )
}

/// Whether page 97 has the text of one item, and page 98 that of none, one by one and one behind the other.
fn has_its_texts(alloc: Global, kept: &Snapshot) -> Result<bool, AllocError> {
    Ok(
        has_text(alloc, kept, 97, TEXT_OF_ONE)?
            && has_text(alloc, kept, 98, TEXT_OF_NONE)?
            && puts_its_texts(alloc, kept)?,
    )
}

/// Whether the pages with one item more have their digests and texts, and so have shared ones.
fn is_right_with_five(alloc: Global, kept: &Snapshot) -> Result<bool, AllocError> {
    let after = with_five(alloc, kept, None)?;
    Ok(
        [after.digest(97), after.digest(98), kept.digest(97)] == [ONE, EMPTY, EMPTY]
            && [kept.len(97), after.len(97)] == [0, 1]
            && has_its_texts(alloc, &after)?
            && has_its_texts(alloc, &after.share()?)?,
    )
}

/// The page of five keys, whose data has these sizes, by their order.
const LARGE: usize = 219;

/// The five keys, the byte of their data, and its size.
const FIVE: [(&[u8], u8, usize); 5] = [
    (b"az", 0, 5000),
    (b"by", 1, LEAST_SHARED_BYTES - 1),
    (b"cx", 2, LEAST_SHARED_BYTES),
    (b"dw", 3, 5),
    (b"ev", 4, 5000),
];

/// The sizes of the pieces of their text. Before each data are 3 bytes of the key and 17 of the item,
/// before the first 5 of the page.
const SIZES: [usize; 6] = [
    25,
    5000,
    20 + (LEAST_SHARED_BYTES - 1) + 20,
    LEAST_SHARED_BYTES,
    20 + 5 + 20,
    5000,
];

fn put_sized(
    alloc: Global,
    pages: &mut Pages,
    bytes: &[u8],
    byte: u8,
    size: usize,
) -> Result<(), AllocError> {
    let key = key(alloc, bytes)?;
    let item = Item {
        block: Block::new(vec![in alloc; byte; size.min(5000)]?)?,
        flags: 0,
        due: None,
        unique: 64,
    };
    pages.put(key, item)
}

fn with_five_sizes(alloc: Global) -> Result<Snapshot, AllocError> {
    let mut pages = Pages::new(alloc)?;
    for (bytes, byte, size) in &FIVE {
        put_sized(alloc, &mut pages, *bytes, *byte, *size)?;
    }
    pages.seal(Layout::Sorted)
}

/// Whether the pieces of the text have these sizes, and its tail is empty.
fn has_sizes(text: &Text, sizes: &[usize]) -> bool {
    let (pieces, tail) = text.parts();
    for (piece, size) in pieces.iter().zip(sizes.iter()) {
        if piece.len() != *size {
            return false;
        }
    }
    tail.is_empty() && pieces.len() == sizes.len()
}

/// Whether the page's text is the same in one piece and in several, of the right sizes, and its digest that
/// of it.
fn shares_large_data(alloc: Global, kept: &Snapshot) -> Result<bool, AllocError> {
    let mut bytes = Vec::new(alloc);
    kept.put_text(LARGE, &mut bytes)?;
    let text = text_of(alloc, kept, LARGE)?;
    let entries = kept.entries(alloc, LARGE)?;
    Ok(
        has_sizes(&text, &SIZES)
            && kept.digest(LARGE) == Sha256::digest(bytes.as_slice())
            && kept.digest(LARGE) == digest_of(entries.as_slice(), LARGE, PAGES - 1)
            && text.joined(alloc)?.as_slice() == bytes.as_slice(),
    )
}

/// Which of the pages 97 to 101 are in the set.
fn marks(pages: &PageSet) -> [bool; 5] {
    [
        pages.has(97),
        pages.has(98),
        pages.has(99),
        pages.has(100),
        pages.has(101),
    ]
}

fn add_commands(pages: &mut PageSet, turns: &[Turn]) {
    for turn in turns {
        if let Turn::Ask(command, _) = turn {
            pages.add_command(command);
        }
    }
}

/// Commands on keys of the pages 98 to 101, and which of 97 to 101 may then differ.
const MAY_DIFFER: [(&[u8], [bool; 5]); 4] = [
    (b"", [true, false, false, false, false]),
    (b"get b\r\ndelete c\r\n", [true, false, true, false, false]),
    (b"gat 0 d\r\n", [true, false, true, true, false]),
    (b"gats 0 e\r\n", [true, false, true, true, true]),
];

/// Whether just these pages may differ, one row after the other.
fn may_differ(alloc: Global, pages: &mut PageSet) -> Result<bool, AllocError> {
    for (lines, wanted) in &MAY_DIFFER {
        add_commands(pages, Reader::new(alloc).feed(alloc, *lines)?.as_slice());
        if marks(pages) != *wanted {
            return Ok(false);
        }
    }
    Ok(true)
}

/// Puts an item on page 97, and removes one that is not there: whether the item is there after that, and the
/// page weighs its entries and 64 more, since it has no digest.
fn are_stores(alloc: Global, pages: &mut Vec<Page>) -> Result<bool, AllocError> {
    if pages.len() < 99 {
        return Ok(false);
    }
    let there = put_and_remove(alloc, &mut pages[97])?;
    Ok(there && pages[97].weight() == 65 && pages[98].weight() == 0)
}

/// Whether the item is there after that.
fn put_and_remove(alloc: Global, page: &mut Page) -> Result<bool, AllocError> {
    let item = any_item(alloc, &mut Lcg64Xsh32::seed_from_u64(3))?;
    page.put(key(alloc, b"a")?, item)?;
    page.remove(&key(alloc, b"b")?)?;
    Ok(page.get(&key(alloc, b"a")?).is_some())
}

fn put_1000(alloc: Global, pages: &mut Pages) -> Result<(), AllocError> {
    for n in 0..1000u32 {
        put_five(alloc, pages, &nth_key(n), n, None)?;
    }
    Ok(())
}

/// How many of the 1,000 keys, one after the other, have the item that was put for them.
fn found_of_1000(alloc: Global, pages: &Pages) -> Result<u32, AllocError> {
    for n in 0..1000u32 {
        match pages.get(&key(alloc, &nth_key(n))?) {
            Some(item) if item.flags == n => {}
            _ => return Ok(n),
        }
    }
    Ok(1000)
}

/// Whether 1,000 items are put and found on one page.
fn has_1000(alloc: Global, mut pages: Pages) -> Result<bool, AllocError> {
    put_1000(alloc, &mut pages)?;
    let found = found_of_1000(alloc, &pages)?;
    Ok(found == 1000 && pages.len() == 1000 && pages.seal(Layout::Sorted)?.len(236) == 1000)
}

/// Whether just the pages that a due item and these commands tell may differ.
fn only_these_differ(alloc: Global, kept: &Snapshot) -> Result<bool, AllocError> {
    let none = [false, false, false, false, false];
    // Page 97 has an item that is due at 10.
    let due = with_five(alloc, kept, Some(10))?;
    Ok(
        marks(&PageSet::new()) == none
            && marks(&due.due_pages(9)) == none
            && may_differ(alloc, &mut due.due_pages(10))?,
    )
}

/// Whether both hold of pages without items.
fn hold_of_none(alloc: Global) -> Result<[bool; 2], AllocError> {
    let none = Pages::new(alloc)?.seal(Layout::Sorted)?;
    let is_right = is_right_with_five(alloc, &none)?;
    Ok([is_right, only_these_differ(alloc, &none)?])
}

#[test]
fn digests_texts_and_sets_of_pages(rt: HostRuntime) -> Result<(), Fail> {
    let alloc = rt.alloc();
    for row in &PAGES_OF_KEYS {
        assert!(rt; is_on(alloc, row)?, "{}", row.1);
    }
    assert!(rt;
        grow(alloc, &mut new_state(alloc, Layout::Sorted)?)?,
        "roots of old pages"
    );
    assert!(rt;
        shares_large_data(alloc, &with_five_sizes(alloc)?)?,
        "texts share large data"
    );
    assert!(rt;
        are_stores(alloc, &mut Pages::new(alloc)?.part()?)?,
        "parted pages"
    );
    assert!(rt;
        has_1000(alloc, Pages::new(alloc)?)?,
        "a page of 1000 items"
    );
    let hold = hold_of_none(alloc)?;
    assert!(rt; hold[0], "digests and texts");
    assert!(rt; hold[1], "pages that may differ");
    Ok(())
}

/// The digests of all pages, and the root behind them.
type Digests = [[u8; 32]; PAGES + 1];

fn digests_of(kept: &Snapshot) -> Digests {
    let mut digests = [[0u8; 32]; PAGES + 1];
    for number in 0..PAGES {
        digests[number] = kept.digest(number);
    }
    digests[PAGES] = kept.root();
    digests
}

/// A state, and the digests that it had when it was made.
type Made = (State, Digests);

/// Whether the pages of the state have the digests that they had when it was made.
fn is_as_it_was(made: &Made) -> bool {
    digests_of(&made.0.0) == made.1
}

/// Makes a random step from the last state: whether the state after it agrees, and the one before it is as it was.
fn step(alloc: Global, words: &mut Lcg64Xsh32, chain: &mut Vec<Made>) -> Result<bool, AllocError> {
    let Some(last) = chain.last() else {
        return Ok(false);
    };
    let state = changed(alloc, words, &last.0, Layout::Sorted)?;
    let is_kept = is_as_it_was(last);
    let digests = digests_of(&state.0);
    let is_right = agree(&state);
    chain.push((state, digests))?;
    Ok(is_kept && is_right)
}

/// Takes so many steps back: whether the state before them is as it was.
fn undo(chain: &mut Vec<Made>, steps: usize) -> bool {
    chain.truncate(chain.len().saturating_sub(steps).max(1));
    match chain.last() {
        Some(last) => is_as_it_was(last),
        None => false,
    }
}

/// Puts an item at a key that has none, on opened pages, and removes it again: whether the pages differ between, and
/// have their digests, entries and texts again after that.
fn put_and_undo(alloc: Global, made: &Made) -> Result<bool, AllocError> {
    let kept = &made.0.0;
    let put = with_five(alloc, kept, Some(7))?;
    let mut pages = put.open()?;
    pages.remove(&key(alloc, b"a")?)?;
    let undone = pages.seal(Layout::Sorted)?;
    Ok(
        put.root() != kept.root()
            && put.digest(97) != kept.digest(97)
            && digests_of(&undone) == made.1
            && undone.is_same_page(alloc, kept, 97)?
            && has_text_of(alloc, &undone, kept)?,
    )
}

/// Whether page 97 has the same text in both.
fn has_text_of(alloc: Global, pages: &Snapshot, kept: &Snapshot) -> Result<bool, AllocError> {
    let text = text_of(alloc, kept, 97)?.joined(alloc)?;
    has_text(alloc, pages, 97, text.as_slice())
}

/// A step, and then another one that is undone at once. After one step in four, one to three are taken back.
fn step_with_undo(
    alloc: Global,
    words: &mut Lcg64Xsh32,
    chain: &mut Vec<Made>,
) -> Result<[bool; 3], AllocError> {
    let is_right = step(alloc, words, chain)?;
    let is_undone = match chain.last() {
        Some(last) => put_and_undo(alloc, last)?,
        None => false,
    };
    let word = words.next_word() as usize;
    let is_back = word % 4 > 0 || undo(chain, 1 + word / 4 % 3);
    Ok([is_right, is_undone, is_back])
}

/// 1,000 random steps, each looked at, some of which are taken back.
#[test]
fn random_steps_with_undo(rt: HostRuntime) -> Result<(), Fail> {
    let mut words = Lcg64Xsh32::seed_from_u64(20);
    let state = new_state(rt.alloc(), Layout::Sorted)?;
    let digests = digests_of(&state.0);
    let mut chain = vec![in rt.alloc(); (state, digests)]?;
    for steps in 0..1000u32 {
        let is_right = step_with_undo(rt.alloc(), &mut words, &mut chain)?;
        assert!(rt; is_right == [true; 3], "{steps}: {is_right:?}");
    }
    Ok(())
}

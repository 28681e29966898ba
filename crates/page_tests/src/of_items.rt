//! Which entries a drop of what is due looks at.

use crate::changes::key;
use item_steps::{Stamp, Step, apply};
use items::{PlainStore, Store};
use pages::{Layout, Pages};
use proto::{Block, StoreVerb, Update};
use std::alloc::{AllocError, Global};
use std::test::Fail;

/// Sets an item at the key of one byte, or touches the one that is there.
fn update<S: Store>(
    alloc: Global,
    store: &mut S,
    verb: Option<StoreVerb>,
    byte: u8,
    exptime: i32,
    moment: u32,
) -> Result<(), AllocError> {
    let key = key(alloc, &[byte])?;
    let update = match verb {
        Some(verb) => Update::Store {
            verb,
            key,
            flags: 0,
            exptime,
            block: Block::from_slice(alloc, b"5")?,
        },
        None => Update::Touch { key, exptime },
    };
    let stamp = Stamp { moment, stamp: 64 };
    apply(alloc, store, &Step::Update(update), stamp)?;
    Ok(())
}

/// Sets it at moment 1000.
fn set<S: Store>(alloc: Global, store: &mut S, byte: u8, exptime: i32) -> Result<(), AllocError> {
    update(alloc, store, Some(StoreVerb::Set), byte, exptime, 1000)
}

/// The items `a`, `b`, `c`, `d`, set at moment 1000, and due at 1010, 1020, never and 2011.
fn set_four<S: Store>(alloc: Global, store: &mut S) -> Result<(), AllocError> {
    set(alloc, store, b'a', 10)?;
    set(alloc, store, b'b', 20)?;
    set(alloc, store, b'c', 0)?;
    set(alloc, store, b'd', 1011)
}

/// Whether the store has each of these keys of one byte, and no other.
fn has_keys(store: &PlainStore, keys: &[u8]) -> bool {
    for (entry, key) in store.as_slice().iter().zip(keys.iter()) {
        if entry.key().as_slice() != [*key].as_slice() {
            return false;
        }
    }
    store.as_slice().len() == keys.len()
}

/// Drops what is due at each of these moments: whether it looks at so many entries, and just these keys are
/// left.
fn drops(store: &mut PlainStore, rows: &[(u32, u64, &[u8])]) -> Result<bool, AllocError> {
    for (moment, looks, left) in rows {
        if store.drop_due_counted(*moment)? != *looks || !has_keys(store, *left) {
            return Ok(false);
        }
    }
    Ok(true)
}

/// Whether a drop looks at what it drops, and at one more, if there is one.
fn looks_at_what_it_drops(alloc: Global, store: &mut PlainStore) -> Result<bool, AllocError> {
    set_four(alloc, store)?;
    let first = drops(store, &[(1009, 1, b"abcd"), (1010, 2, b"bcd")])?;
    // `b` is then due at 1015.
    update(alloc, store, None, b'b', 5, 1010)?;
    Ok(
        first
            && drops(
                store,
                &[(1020, 2, b"cd"), (2011, 1, b"c"), (4000000000, 0, b"c")],
            )?,
    )
}

/// At how many entries drops look.
fn looks(alloc: Global, pages: &mut Pages) -> Result<[u64; 4], AllocError> {
    set_four(alloc, pages)?;
    let first = pages.drop_due_counted(1009)?;
    let second = pages.drop_due_counted(1010)?;
    // `b` is then due at 1015.
    update(alloc, pages, None, b'b', 5, 1010)?;
    let third = pages.drop_due_counted(1020)?;
    Ok([first, second, third, pages.drop_due_counted(2011)?])
}

/// Whether drops look at each page. Each item is on a page of its own, of which a drop counts all items if
/// something is due. Of each other page it counts one look.
fn looks_at_each_page(alloc: Global, mut pages: Pages) -> Result<bool, AllocError> {
    let looks = looks(alloc, &mut pages)?;
    let left = pages.len();
    Ok(looks == [256, 257, 257, 257] && left == 1 && pages.seal(Layout::Sorted)?.len(99) == 1)
}

/// 94 items that are due at 1001 to 1050, each set four or five times.
fn set_many(alloc: Global, store: &mut PlainStore) -> Result<(), AllocError> {
    for n in 0..400u32 {
        let byte = 33 + (n % 94) as u8;
        set(alloc, store, byte, 1 + (7 * n % 50) as i32)?;
    }
    Ok(())
}

fn are_alive(store: &PlainStore, moment: u32) -> bool {
    for entry in store.as_slice() {
        if !entry.value().is_alive(moment) {
            return false;
        }
    }
    true
}

/// Drops what is due: whether it looks at what it drops and at one more, if there is one, and all that is
/// left is alive.
fn drops_what_is_due(store: &mut PlainStore, moment: u32) -> Result<bool, AllocError> {
    let before = store.as_slice().len();
    let looks = store.drop_due_counted(moment)?;
    let left = store.as_slice().len();
    let dropped = before.saturating_sub(left) as u64;
    let last = if left == 0 { 0 } else { 1 };
    Ok(looks == dropped.saturating_add(last) && are_alive(store, moment))
}

/// How many of these drops look at what they drop, one after the other.
fn dropped_at(store: &mut PlainStore, moments: &[u32]) -> Result<usize, AllocError> {
    for (place, moment) in moments.iter().enumerate() {
        if !drops_what_is_due(store, *moment)? {
            return Ok(place);
        }
    }
    Ok(moments.len())
}

/// How many items there are, how many drops look at what they drop, and how many items are left.
fn counts_of_many(alloc: Global, store: &mut PlainStore) -> Result<[usize; 3], AllocError> {
    set_many(alloc, store)?;
    let before = store.as_slice().len();
    let dropped = dropped_at(store, &[1000, 1005, 1031, 1032, 1049, 1050, 1051])?;
    Ok([before, dropped, store.as_slice().len()])
}

#[test]
fn a_drop_looks_at_what_it_drops(rt: HostRuntime) -> Result<(), Fail> {
    let of_plain = looks_at_what_it_drops(rt.alloc(), &mut PlainStore::new(rt.alloc()))?;
    let of_pages = looks_at_each_page(rt.alloc(), Pages::new(rt.alloc())?)?;
    let of_many = counts_of_many(rt.alloc(), &mut PlainStore::new(rt.alloc()))?;
    assert!(rt; of_plain, "a plain store");
    assert!(rt; of_pages, "pages");
    assert!(rt;
        of_many == [94, 7, 0],
        "many are dropped at once: {}",
        of_many[1]
    );
    Ok(())
}

/// How many items the store has, how many never go, and at how many entries of the index a drop of
/// all others looks.
fn counted(store: &PlainStore) -> Result<(usize, usize, u64), AllocError> {
    let mut rest = store.clone()?;
    let looks = rest.drop_due_counted(4000000000)?;
    Ok((store.as_slice().len(), rest.as_slice().len(), looks))
}

/// The same, asked again if the first asking is refused.
fn counted_again(store: &PlainStore) -> Result<(usize, usize, u64), AllocError> {
    match counted(store) {
        Ok(counts) => Ok(counts),
        Err(_) => counted(store),
    }
}

/// Sets, and again if that was refused. False if a refusal changed something.
fn sets(alloc: Global, store: &mut PlainStore, byte: u8, exptime: i32) -> Result<bool, AllocError> {
    let before = counted_again(store)?;
    if set(alloc, store, byte, exptime).is_ok() {
        return Ok(true);
    }
    let same = counted_again(store)? == before;
    set(alloc, store, byte, exptime)?;
    Ok(same)
}

/// Sets 13 items, most of them twice, of which each fifth is never due.
fn sets_twenty(alloc: Global, store: &mut PlainStore) -> Result<bool, AllocError> {
    for n in 0..20u8 {
        let exptime = if n % 5 == 4 { 0 } else { 10 + i32::from(n) };
        if !sets(alloc, store, b'a' + n % 13, exptime)? {
            return Ok(false);
        }
    }
    Ok(true)
}

/// With `--fail-alloc N` one allocation of it fails, for each N.
#[test]
fn a_refused_put_changes_nothing(rt: HostRuntime) -> Result<(), Fail> {
    let mut store = PlainStore::new(rt.alloc());
    let is_same = sets_twenty(rt.alloc(), &mut store)?;
    let counts = counted_again(&store)?;
    let looks = store.drop_due_counted(1022)?;
    assert!(rt; is_same && counts == (13, 3, 10) && looks == 6);
    Ok(())
}

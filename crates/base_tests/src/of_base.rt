//! Maps, lists with limits, and texts of shared pieces.

use base::{Entry, Listed, SortedMap, Text};
use std::alloc::{AllocError, Global};
use std::sync::Arc;
use std::test::Fail;

/// What is done to a map.
enum Change {
    Insert(u16, u64),
    Put(u16, u64),
    Remove(u16),
    /// Only values below this one stay.
    Retain(u64),
}

fn make(
    alloc: Global,
    map: &mut SortedMap<u16, u64>,
    changes: &[Change],
) -> Result<(), AllocError> {
    for change in changes {
        match change {
            Change::Insert(key, value) => map.insert(*key, *value)?,
            Change::Put(key, value) => map.put(Entry::new(alloc, *key, *value)?)?,
            Change::Remove(key) => map.remove(key),
            Change::Retain(most) => {
                let most = *most;
                map.retain(|entry| *entry.value() < most);
            }
        }
    }
    Ok(())
}

/// What a map has: its keys in their order, and what is found at some of them or at others.
struct Wanted {
    keys: &'static [u16],
    values: &'static [(u16, Option<u64>)],
}

fn has_keys(map: &SortedMap<u16, u64>, keys: &[u16]) -> bool {
    for (entry, key) in map.entries().iter().zip(keys.iter()) {
        if entry.key() != key {
            return false;
        }
    }
    map.entries().len() == keys.len()
}

fn has(map: &SortedMap<u16, u64>, wanted: &Wanted) -> bool {
    for (key, value) in wanted.values {
        if map.get(key).copied() != *value {
            return false;
        }
    }
    has_keys(map, wanted.keys)
}

/// A test's name; what is done to a new map before it is cloned, and after it; what the map has then, and
/// what the clone has.
type Row = (
    &'static str,
    &'static [Change],
    &'static [Change],
    &'static Wanted,
    &'static Wanted,
);

const ROWS: [Row; 2] = [
    (
        "a map keeps its keys in order",
        &[],
        &[
            Change::Insert(9, 1),
            Change::Insert(3, 2),
            Change::Put(5, 3),
            Change::Put(9, 4),
        ],
        &Wanted {
            keys: &[3, 5, 9],
            values: &[(9, Some(4)), (4, None)],
        },
        &Wanted {
            keys: &[],
            values: &[],
        },
    ),
    (
        "a clone of a map is left alone",
        &[
            Change::Insert(1, 10),
            Change::Insert(2, 20),
            Change::Insert(3, 30),
        ],
        &[Change::Insert(2, 21), Change::Remove(1), Change::Retain(30)],
        &Wanted {
            keys: &[2],
            values: &[],
        },
        &Wanted {
            keys: &[1, 2, 3],
            values: &[(2, Some(20))],
        },
    ),
];

fn holds(alloc: Global, map: &mut SortedMap<u16, u64>, row: &Row) -> Result<bool, AllocError> {
    let (_, before, after, wanted, of_clone) = row;
    make(alloc, map, *before)?;
    let copy = map.clone()?;
    make(alloc, map, *after)?;
    Ok(has(map, *wanted) && has(&copy, *of_clone))
}

type Few = Listed<u8, 1, 2>;

/// Whether the bytes are a list of one or two, which has them, and a clone of it as well.
fn is_list(alloc: Global, bytes: &[u8]) -> Result<bool, AllocError> {
    let Some(list) = Few::try_new(Vec::from_slice(alloc, bytes)?) else {
        return Ok(false);
    };
    Ok(list.clone()?.as_slice() == bytes && list.into_vec().as_slice() == bytes)
}

/// Puts a piece, one that is shared, and two behind them.
fn put_long(text: &mut Text, piece: &Arc<Vec<u8>>) -> Result<(), AllocError> {
    text.put(b"so ")?;
    text.share(piece)?;
    text.seal()?;
    text.put_two(b" a", b" text")
}

fn is_text(alloc: Global, text: &Text, bytes: &[u8]) -> Result<bool, AllocError> {
    Ok(text.joined(alloc)?.as_slice() == bytes)
}

/// Whether the text has what was put and shared, and then once more what a clone of it has.
fn has_it_twice(alloc: Global, text: &mut Text) -> Result<bool, AllocError> {
    let copy = text.clone()?;
    text.append(&copy)?;
    Ok(
        text.len() == 28
            && is_text(alloc, &copy, b"so long a text")?
            && is_text(alloc, text, b"so long a textso long a text")?,
    )
}

fn is_long_text(alloc: Global, text: &mut Text) -> Result<bool, AllocError> {
    let piece = Arc::new(alloc, Vec::from_slice(alloc, b"long")?)?;
    put_long(text, &piece)?;
    has_it_twice(alloc, text)
}

fn holds_anew(alloc: Global, row: &Row) -> Result<bool, AllocError> {
    let mut map = SortedMap::new(alloc);
    holds(alloc, &mut map, row)
}

fn is_long(alloc: Global) -> Result<bool, AllocError> {
    let mut text = Text::new(alloc);
    is_long_text(alloc, &mut text)
}

#[test]
fn maps_lists_and_texts(rt: HostRuntime) -> Result<(), Fail> {
    for row in &ROWS {
        assert!(rt; holds_anew(rt.alloc(), row)?, "{}", row.0);
    }
    let lists = [
        is_list(rt.alloc(), &[])?,
        is_list(rt.alloc(), &[1, 2, 3])?,
        is_list(rt.alloc(), &[1, 2])?,
        is_list(rt.alloc(), &[7])?,
    ];
    assert!(rt;
        lists == [false, false, true, true],
        "a list keeps its limits"
    );
    assert!(rt; is_long(rt.alloc())?, "a text has what was put and shared");
    Ok(())
}

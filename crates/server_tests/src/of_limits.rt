//! When a server with a limit of memory stores no more.

use service::Limit;
use std::test::Fail;

/// So many bytes each item has.
const ITEM: u64 = 1_000;

/// A limit. The items are counted again for each 10,000 bytes that are asked to be stored.
const LIMIT: u64 = 10_240_000;

/// Items with so many bytes, and what a server knows of them.
struct Store {
    bytes: u64,
    limit: Limit,
    asked: u64,
    micros: u64,
    /// How often the items were counted.
    looks: u64,
}

impl Drop for Store {
    fn drop(self) {
        let Store {
            bytes: _,
            limit: _,
            asked: _,
            micros: _,
            looks: _,
        } = self;
    }
}

impl Store {
    fn of(bytes: u64) -> Store {
        Store {
            bytes,
            limit: Limit::new(LIMIT),
            asked: 0,
            micros: 0,
            looks: 0,
        }
    }

    /// Whether it stores no more, as a service decides it before each piece.
    fn is_full(&mut self) -> bool {
        if self.limit.is_due(self.asked, self.micros) {
            self.limit.found(self.bytes, self.asked, self.micros);
            self.looks = self.looks.saturating_add(1);
        }
        self.limit.is_reached(self.asked)
    }

    /// An item is asked to be stored, after which the items have so many bytes.
    fn ask(&mut self, bytes: u64) {
        self.asked = self.asked.saturating_add(ITEM);
        self.bytes = bytes;
    }
}

/// Stores items until it is full: how many.
fn filled(store: &mut Store) -> u64 {
    for count in 0..20_000u64 {
        if store.is_full() {
            return count;
        }
        let bytes = store.bytes.saturating_add(ITEM);
        store.ask(bytes);
    }
    0
}

/// Whether it is never full while so many items are stored in place of others.
fn has_room_throughout(store: &mut Store, count: u64) -> bool {
    for _ in 0..count {
        if store.is_full() {
            return false;
        }
        let bytes = store.bytes;
        store.ask(bytes);
    }
    true
}

/// After how many milliseconds it stores again, if it does within a second.
fn millis_until_room(store: &mut Store) -> Option<u64> {
    for millis in 0..1_000u64 {
        store.micros = store.micros.saturating_add(1_000);
        if !store.is_full() {
            return Some(millis);
        }
    }
    None
}

#[test]
fn without_a_limit_nothing_is_counted(rt: HostRuntime) -> Result<(), Fail> {
    let limit = Limit::new(0);
    assert!(rt; !limit.is_set());
    assert!(rt; !limit.is_reached(u64::MAX));
    assert!(rt; !limit.is_due(u64::MAX, u64::MAX));
    Ok(())
}

#[test]
fn nothing_is_stored_before_the_items_are_counted(rt: HostRuntime) -> Result<(), Fail> {
    let mut limit = Limit::new(LIMIT);
    assert!(rt; limit.is_due(0, 0) && limit.is_reached(0));
    limit.found(0, 0, 0);
    assert!(rt; !limit.is_due(0, 0) && !limit.is_reached(0));
    Ok(())
}

#[test]
fn what_was_asked_since_they_were_counted_counts(rt: HostRuntime) -> Result<(), Fail> {
    let mut limit = Limit::new(LIMIT);
    limit.found(LIMIT - 700, 5_000, 0);
    assert!(rt; !limit.is_reached(5_700));
    assert!(rt; limit.is_reached(5_701));
    Ok(())
}

#[test]
fn they_are_counted_as_more_is_asked(rt: HostRuntime) -> Result<(), Fail> {
    let mut limit = Limit::new(LIMIT);
    limit.found(0, 0, 0);
    assert!(rt; !limit.is_due(9_999, 1_000_000));
    assert!(rt; limit.is_due(10_000, 0));
    let mut store = Store::of(0);
    assert!(rt; has_room_throughout(&mut store, 5_000));
    assert_eq!(rt; store.looks, 500);
    Ok(())
}

#[test]
fn it_is_full_just_below_the_limit(rt: HostRuntime) -> Result<(), Fail> {
    let mut store = Store::of(0);
    let count = filled(&mut store);
    assert!(rt; 10_230 <= count && count <= 10_241);
    Ok(())
}

#[test]
fn items_in_place_of_others_do_not_fill_it(rt: HostRuntime) -> Result<(), Fail> {
    let mut store = Store::of(LIMIT - 20_000);
    assert!(rt; has_room_throughout(&mut store, 50_000));
    Ok(())
}

#[test]
fn there_is_room_within_some_milliseconds(rt: HostRuntime) -> Result<(), Fail> {
    let mut store = Store::of(0);
    assert!(rt; filled(&mut store) != 0);
    store.bytes = LIMIT / 2;
    let millis = millis_until_room(&mut store);
    assert!(rt; matches!(millis, Some(millis) if millis < 10));
    Ok(())
}

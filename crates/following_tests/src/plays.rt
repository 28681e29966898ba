//! What becomes of an executor that is slower than the others, or was away. Batches take some 1 ms on the others, and a
//! decision 1.2 ms.

use crate::executor::Counts;
use crate::model::{Model, Outcome, Setting};
use std::alloc::{AllocError, Global};
use std::test::Fail;

/// How long it is played, in microseconds.
const TEN_SECONDS: u64 = 10000000;

/// By how many numbers an executor may be behind that follows.
const MOST_LAG: u64 = 64;

fn played(alloc: Global, setting: Setting) -> Result<Option<Outcome>, AllocError> {
    let mut model = Model::new(alloc, setting)?;
    model.run()?;
    Ok(model.outcome())
}

/// Whether it executed each batch, and never fell behind; and whether so many were decided at least.
fn keeps_up(outcome: Outcome, decided: u64) -> bool {
    let Counts {
        executed,
        fell_behind,
        needs,
        parcels,
        taken,
    } = outcome.counts;
    decided <= outcome.decided
        && outcome.lag <= MOST_LAG
        && outcome.decided <= executed.saturating_add(MOST_LAG)
        && (fell_behind, needs, parcels, taken) == (0, 0, 0, 0)
}

/// Whether it asked for one parcel, took it, and had caught up so many microseconds after it came back.
fn catches_up(outcome: Outcome, most: u64) -> bool {
    let counts = outcome.counts;
    let is_in_time = match outcome.caught_up {
        Some(time) => time <= most,
        None => false,
    };
    is_in_time && (counts.needs, counts.parcels, counts.taken) == (1, 1, 1)
}

fn slow(alloc: Global, slow: u64, decided: u64) -> Result<bool, AllocError> {
    let setting = Setting {
        slow,
        away: 0,
        parcel: 0,
        end: TEN_SECONDS,
    };
    Ok(match played(alloc, setting)? {
        Some(outcome) => keeps_up(outcome, decided),
        None => false,
    })
}

fn away(alloc: Global, parcel: u64, most: u64) -> Result<bool, AllocError> {
    let setting = Setting {
        slow: 900,
        away: 2000000,
        parcel,
        end: TEN_SECONDS,
    };
    Ok(match played(alloc, setting)? {
        Some(outcome) => catches_up(outcome, most),
        None => false,
    })
}

#[test]
fn an_executor_that_is_1_3_times_as_slow_keeps_up(rt: HostRuntime) -> Result<(), Fail> {
    assert!(rt; slow(rt.alloc(), 1200, 7500) == Ok(true));
    Ok(())
}

#[test]
fn an_executor_that_is_1_8_times_as_slow_keeps_up(rt: HostRuntime) -> Result<(), Fail> {
    assert!(rt; slow(rt.alloc(), 1700, 5300) == Ok(true));
    Ok(())
}

#[test]
fn an_executor_that_was_away_fetches_once(rt: HostRuntime) -> Result<(), Fail> {
    assert!(rt; away(rt.alloc(), 500000, 2000000) == Ok(true));
    Ok(())
}

#[test]
fn an_executor_that_was_away_fetches_once_if_that_takes_long(rt: HostRuntime) -> Result<(), Fail> {
    assert!(rt; away(rt.alloc(), 3000000, 7000000) == Ok(true));
    Ok(())
}

//! Records of version 1 and of today that are opened: of a new executor, and of one that was stopped when its
//! batch 1 was complete. What is read is saved as a record of today; if it is refused, or the save fails, the
//! old record stays.

use crate::old_bytes::{NEW, NEXT_TOKEN, NOW, OLD, Record, STOPPED, TOKEN, Written, spelled};
use crate::records::{keeper_of, kept_after};
use crate::tests::{Kept, record, reopens};
use decrees::Ballot;
use exec_node::ExecNode;
use proto::Fault;
use std::alloc::Global;
use std::test::Fail;
use token::Token;

/// It asks for the decree of the first place.
pub const ASK: Ballot = Ballot::Ask { place: 1 };

/// It tells the old token of its tentative state.
pub const TELL: Ballot = Ballot::Token {
    epoch: 1,
    n: 1,
    previous: Token([0; 32]),
    token: Token(TOKEN),
};

/// It tells the token of the next state, over the old token.
pub const TELL_NEXT: Ballot = Ballot::Token {
    epoch: 1,
    n: 2,
    previous: Token(TOKEN),
    token: Token(NEXT_TOKEN),
};

/// Records, whose they are, how long, and what the executor says that opens with them.
const RENEWED: [(Record, Written, usize, &[Ballot]); 4] = [
    (NEW, OLD, 510, &[ASK]),
    (NEW, NOW, 1471, &[ASK]),
    (STOPPED, OLD, 782, &[TELL, ASK]),
    (STOPPED, NOW, 1936, &[TELL, ASK]),
];

fn is_row(
    alloc: Global,
    (record, of, len, said): (Record, Written, usize, &[Ballot]),
) -> Result<bool, Fault> {
    let old = spelled(alloc, of, record)?;
    let now = spelled(alloc, NOW, record)?;
    let keeper = keeper_of(alloc, old.as_slice())?;
    Ok(old.len() == len && reopens(alloc, keeper, said, now.as_slice())?)
}

#[test]
fn a_record_becomes_that_of_today_and_then_stays(rt: HostRuntime) -> Result<(), Fail> {
    for row in RENEWED {
        assert_eq!(rt; is_row(rt.alloc(), row), Ok(true), "of {} bytes", row.2);
    }
    Ok(())
}

/// The records that are cut at each byte, and of which each byte is another in turn.
const CHANGED: [(Record, Written); 3] = [(NEW, OLD), (STOPPED, OLD), (STOPPED, NOW)];

/// How many of the proper fronts of the record are taken.
fn fronts_taken(alloc: Global, bytes: &[u8]) -> Result<u32, Fault> {
    let mut taken = 0u32;
    for len in 0..bytes.len() {
        if kept_after(alloc, bytes.get(..len).unwrap_or(&[]))?.is_some() {
            taken = taken.saturating_add(1);
        }
    }
    Ok(taken)
}

fn fronts_of(alloc: Global, (record, of): (Record, Written)) -> Result<u32, Fault> {
    let bytes = spelled(alloc, of, record)?;
    fronts_taken(alloc, bytes.as_slice())
}

#[test]
fn no_proper_front_of_a_record_is_one(rt: HostRuntime) -> Result<(), Fail> {
    for row in CHANGED {
        assert_eq!(rt; fronts_of(rt.alloc(), row), Ok(0));
    }
    Ok(())
}

/// Whether what is kept is the record of today of the executor whose old record these bytes are: as in
/// it are the 67 bytes between its version and its chain, and the rest as in the other record of today.
fn is_of(kept: &[u8], old: &[u8], now: &[u8]) -> bool {
    kept.first() == Some(&2) && kept.get(1..68) == old.get(1..68) && kept.get(68..) == now.get(68..)
}

/// Whether these bytes give the executor whose record they are. `NotOpen` if they give another one.
fn is_taken(alloc: Global, bytes: &[u8], now: &[u8]) -> Result<bool, Fault> {
    match kept_after(alloc, bytes)? {
        None => Ok(false),
        Some(kept) if is_of(kept.as_slice(), bytes, now) => Ok(true),
        Some(_) => Err(Fault::NotOpen),
    }
}

fn turn(bytes: &mut [u8], index: usize) {
    if let Some(byte) = bytes.get_mut(index) {
        *byte = 255 - *byte;
    }
}

/// How many of the records with one byte changed are taken.
fn changes_taken(alloc: Global, bytes: &mut [u8], now: &[u8]) -> Result<u32, Fault> {
    let mut taken = 0u32;
    for index in 0..bytes.len() {
        turn(bytes, index);
        if is_taken(alloc, bytes, now)? {
            taken = taken.saturating_add(1);
        }
        turn(bytes, index);
    }
    Ok(taken)
}

fn changes_of(alloc: Global, (record, of): (Record, Written)) -> Result<u32, Fault> {
    let mut bytes = spelled(alloc, of, record)?;
    let now = spelled(alloc, NOW, record)?;
    changes_taken(alloc, bytes.as_mut_slice(), now.as_slice())
}

/// In a record that is taken with one byte changed, that byte is one of 64: of the count of decrees, and of
/// the number, the token, the epoch and its first number that they stand for: 8, 8, 32, 8 and 8 bytes. What is
/// before and after them is fixed.
#[test]
fn only_what_decrees_came_to_may_be_another(rt: HostRuntime) -> Result<(), Fail> {
    for row in CHANGED {
        assert_eq!(rt; changes_of(rt.alloc(), row), Ok(64));
    }
    Ok(())
}

/// Records, and versions that are not theirs: none, or the other one of two.
const OTHER_VERSIONS: [(Record, Written, u8); 7] = [
    (NEW, NOW, 3),
    (NEW, NOW, 0),
    (NEW, OLD, 3),
    (NEW, NOW, 1),
    (NEW, OLD, 2),
    (STOPPED, NOW, 1),
    (STOPPED, OLD, 2),
];

/// Whether the record with this version in place of its own is refused.
fn is_refused_as(
    alloc: Global,
    (record, of, version): (Record, Written, u8),
) -> Result<bool, Fault> {
    let mut bytes = spelled(alloc, of, record)?;
    if let Some(first) = bytes.first_mut() {
        *first = version;
    }
    Ok(kept_after(alloc, bytes.as_slice())?.is_none())
}

#[test]
fn a_record_of_one_version_is_none_of_another(rt: HostRuntime) -> Result<(), Fail> {
    for row in OTHER_VERSIONS {
        assert_eq!(rt; is_refused_as(rt.alloc(), row), Ok(true));
    }
    Ok(())
}

/// Opens while the save will fail: why it was refused, if so, and the keeper.
fn opened_under_failure(alloc: Global, keeper: Kept) -> (Option<Fault>, Kept) {
    let mut keeper = keeper;
    keeper.fail_next();
    match ExecNode::open(alloc, 0, 0, keeper) {
        Ok((executor, _)) => (None, executor.end()),
        Err((fault, keeper)) => (Some(fault), keeper),
    }
}

/// Whether the save fails of an executor that opens with these bytes, and they are kept. They are the keeper's then.
fn fails(alloc: Global, bytes: &[u8]) -> Result<(Option<Fault>, bool, Kept), Fault> {
    let (fault, keeper) = opened_under_failure(alloc, keeper_of(alloc, bytes)?);
    let is_kept = record(alloc, &keeper)?.as_slice() == bytes;
    Ok((fault, is_kept, keeper))
}

/// Whether the failed save leaves the old record, with which the executor opens later.
fn is_renewed_later(alloc: Global, old: &[u8], now: &[u8]) -> Result<bool, Fault> {
    let (fault, is_kept, keeper) = fails(alloc, old)?;
    Ok(fault == Some(Fault::Stopped) && is_kept && reopens(alloc, keeper, &[TELL, ASK], now)?)
}

/// Whether nothing is saved if the record is one of today: so no failure comes.
fn is_left(alloc: Global, now: &[u8]) -> Result<bool, Fault> {
    let (fault, is_kept, _) = fails(alloc, now)?;
    Ok(fault.is_none() && is_kept)
}

fn failures_leave_records(alloc: Global) -> Result<bool, Fault> {
    let old = spelled(alloc, OLD, STOPPED)?;
    let now = spelled(alloc, NOW, STOPPED)?;
    Ok(is_renewed_later(alloc, old.as_slice(), now.as_slice())? && is_left(alloc, now.as_slice())?)
}

/// A failed save leaves the old record. A record of today is not saved again.
#[test]
fn a_failed_save_leaves_the_record(rt: HostRuntime) -> Result<(), Fail> {
    assert_eq!(rt; failures_leave_records(rt.alloc()), Ok(true));
    Ok(())
}

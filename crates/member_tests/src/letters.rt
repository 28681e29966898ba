//! Members that pass each other's letters.

use crate::site::{Done, Shown, played};
use proto::Fault;
use std::alloc::Global;
use std::sync::Wait;
use std::test::Fail;
use std::thread::Threads;

pub const SET: &[u8] = b"set n 0 0 1\r\n5\r\n";

pub const ADD: &[u8] = b"incr n 1\r\n";

/// Whether a site of three members answers just these, and all executors are alike then.
pub fn shows<R: Threads + Wait + Sync>(
    rt: &R,
    alloc: Global,
    row: &[Done],
    answers: &[Shown],
) -> Result<bool, Fault> {
    let (given, are_alike) = played(rt, alloc, row)?;
    Ok(are_alike && given.as_slice() == answers)
}

/// The first member stores, and the last adds.
#[test]
fn what_one_member_stores_another_reads(rt: HostRuntime) -> Result<(), Fail> {
    let row = [Done::Ask(1, SET), Done::Pass, Done::Ask(6, ADD), Done::Pass];
    assert!(rt; shows(&rt, rt.alloc(), &row, &[(1, 1, 0), (6, 1, 6)]) == Ok(true));
    Ok(())
}

/// All that the second member says is lost, and then its proxy asks again. It is executed once.
#[test]
fn a_lost_letter_is_asked_for_again(rt: HostRuntime) -> Result<(), Fail> {
    let row = [
        Done::Ask(1, SET),
        Done::Pass,
        Done::Ask(3, ADD),
        Done::Lose(1),
        Done::Again(3),
        Done::Again(3),
        Done::Pass,
        Done::Ask(5, ADD),
        Done::Pass,
    ];
    let answers = [(1, 1, 0), (3, 1, 6), (5, 1, 7)];
    assert!(rt; shows(&rt, rt.alloc(), &row, &answers) == Ok(true));
    Ok(())
}

/// The verifier of the second member suspects the leader, and then leads.
#[test]
fn it_goes_on_with_another_leader(rt: HostRuntime) -> Result<(), Fail> {
    let row = [
        Done::Ask(1, SET),
        Done::Pass,
        Done::Suspect(1),
        Done::Pass,
        Done::Ask(3, ADD),
        Done::Pass,
    ];
    let answers = [(1, 1, 0), (3, 1, 6)];
    assert!(rt; shows(&rt, rt.alloc(), &row, &answers) == Ok(true));
    Ok(())
}

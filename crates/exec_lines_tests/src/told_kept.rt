//! An executor that is told what stands, with its record.

use crate::given::Given::{Cut, Finish, Stands, Step, Want};
use crate::given::{C1, C2, C3, V0, none_told};
use crate::refusals::{Executor, Line, gives_all, opens, restart};
use crate::seen::LEADER;
use keeper::MemKeeper;
use proto::Fault;
use std::alloc::Global;
use std::test::Fail;

/// Of a chain of three the second one stands.
const TWO_OF_THREE: &[Line] = &[
    (Want(C1, 1), b"."),
    (Cut, b". O11 O21"),
    (Step(0), b"."),
    (Finish, b"* T01 T11 T21"),
    (Want(C2, 1), b"."),
    (Cut, b". O12 O22"),
    (Step(0), b"."),
    (Finish, b"* T02 T12 T22"),
    (Want(C3, 1), b"."),
    (Cut, b". O13 O23"),
    (Step(0), b"."),
    (Finish, b"* T03 T13 T23"),
    (Stands(V0, 2, 2, 2, [1, 1]), b"* S11 S21"),
];

fn play(alloc: Global, leader: &mut Executor) -> Result<(), Fault> {
    let mut told = none_told();
    let mut said = Vec::new(alloc);
    gives_all(alloc, leader, &mut told, &mut said, TWO_OF_THREE)
}

/// And it goes on from its record, with the third.
fn restarts(alloc: Global) -> Result<(), Fault> {
    let mut leader = opens(alloc, LEADER, MemKeeper::new(), Some(b">"))?;
    let played = play(alloc, &mut leader);
    let keeper = leader.end();
    played?;
    restart(alloc, keeper, Some(b"> T03 T13 T23 A03 A13 A23"))
}

#[test]
fn what_stands_is_in_its_record(rt: HostRuntime) -> Result<(), Fail> {
    assert!(rt; restarts(rt.alloc()) == Ok(()));
    Ok(())
}

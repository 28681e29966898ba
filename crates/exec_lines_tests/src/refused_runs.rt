//! A job that is run whole by `ExecNode::run`. If an allocation fails, the executor is stopped and has its old
//! record. `NoMemory` ends a row in which one failed, and `NotOpen` one in which something else does not hold.

use crate::given::Given::{Commit, Cut, Sets};
use crate::given::{C1, C2, Told, V0, none_told};
use crate::refusals::{Executor, Letters, Line, answered, gives_all, kept, opens};
use crate::seen::{LEADER, holds, learn};
use keeper::MemKeeper;
use proto::Fault;
use round::{Gate, NoGate};
use std::alloc::Global;
use std::sync::Wait;
use std::test::Fail;
use std::thread::Threads;
use workers::Workers;

/// Client 1 sets `C` and client 2 sets `E`, on pages 67 and 69: one group.
const BEGUN: &[Line] = &[
    (Sets(C1, b'C'), b"."),
    (Sets(C2, b'E'), b"."),
    (Cut, b". O11 O21"),
];

const COMMITTED: &[Line] = &[(Commit(V0, 1), b"* S11 S21")];

/// Two workers run the job.
fn run<R: Threads + Wait + Sync, G: Gate + Sync>(
    rt: &R,
    alloc: Global,
    leader: &mut Executor,
    gate: &G,
) -> Result<Letters, Fault> {
    let Some(two) = Workers::new(2) else {
        return Err(Fault::NotOpen);
    };
    let before = kept(alloc, leader.keeper())?;
    let answer = leader.run(rt, alloc, two, gate);
    answered(alloc, leader, before.as_slice(), answer, b"* T01 T11 T21")
}

/// The job runs on threads, and is committed.
fn play<R: Threads + Wait + Sync, G: Gate + Sync>(
    rt: &R,
    alloc: Global,
    leader: &mut Executor,
    told: &mut Told,
    gate: &G,
) -> Result<(), Fault> {
    let mut said = Vec::new(alloc);
    gives_all(alloc, leader, told, &mut said, BEGUN)?;
    said = run(rt, alloc, leader, gate)?;
    learn(told, said.as_slice());
    gives_all(alloc, leader, told, &mut said, COMMITTED)?;
    holds(leader.job().is_none())
}

/// The gate sees each step.
pub fn row<R: Threads + Wait + Sync, G: Gate + Sync>(
    rt: &R,
    alloc: Global,
    gate: &G,
) -> Result<(), Fault> {
    let mut leader = opens(alloc, LEADER, MemKeeper::new(), Some(b">"))?;
    let mut told = none_told();
    let played = play(rt, alloc, &mut leader, &mut told, gate);
    drop(leader.end());
    played
}

#[test]
fn a_job_runs_with_ample_memory(rt: HostRuntime) -> Result<(), Fail> {
    assert!(rt; row(&rt, rt.alloc(), &NoGate) == Ok(()));
    Ok(())
}

#[test]
fn a_refused_growth_stops_it_in_its_run(rt: HostRuntime) -> Result<(), Fail> {
    let row = row(&rt, rt.alloc(), &NoGate);
    assert!(rt; row == Ok(()) || row == Err(Fault::NoMemory));
    Ok(())
}

//! Batches that run on several threads, looked at by a gate or again and again.

use super::*;
use crate::gates::{Meeting, Waits};
use executor::execute;
use proto::Values;
use round::{Gate, NoGate};
use std::sync::Wait;
use std::test::Fail;
use std::thread::Threads;
use workers::Workers;

/// Runs a batch by that many workers.
pub fn executed<R: Threads + Wait + Sync, G: Gate + Sync>(
    rt: &R,
    alloc: Global,
    base: &Base,
    batch: Batch,
    ordered: bool,
    workers: usize,
    gate: &G,
) -> Result<Tentative, Fault> {
    let Some(workers) = Workers::new(workers) else {
        return Err(Fault::Unfit);
    };
    if batch.n != base.number() + 1 {
        return Err(Fault::Unfit);
    }
    Ok(execute(rt, alloc, base, batch, ordered, workers, gate)?)
}

/// Runs the batch of this record by that many workers.
pub fn on_threads<R: Threads + Wait + Sync, G: Gate + Sync>(
    rt: &R,
    alloc: Global,
    base: &Base,
    bytes: &[u8],
    ordered: bool,
    workers: usize,
    gate: &G,
) -> Result<Tentative, Fault> {
    let batch = read::<Batch>(alloc, bytes)?;
    executed(rt, alloc, base, batch, ordered, workers, gate)
}

/// Runs two requests on two pages by two workers.
fn run_two<R: Threads + Wait + Sync, G: Gate + Sync>(
    rt: &R,
    alloc: Global,
    gate: &G,
) -> Result<Token, Fault> {
    let base = Base::first(alloc)?;
    Ok(undone(on_threads(rt, alloc, &base, SETS_OF_TWO_PAGES, false, 2, gate)?))
}

#[test]
fn two_workers_are_inside_at_once(rt: HostRuntime) -> Result<(), Fail> {
    let gate = Meeting::new(&rt, Waits::Inside);
    assert!(rt; run_two(&rt, rt.alloc(), &gate).is_ok() && gate.met() == 2);
    Ok(())
}

/// Whether the values show the item of this position as batch 2 set it.
fn is_new(values: &Values, position: usize) -> bool {
    match values.as_slice().get(position) {
        Some(found) => found.unique > Some(127),
        None => false,
    }
}

/// Whether the first reader saw the new `a` and the old `b`, and the second the new `b` and the old `a`.
fn cross(replies: &[Answered]) -> bool {
    match replies {
        [one, two, _, _] => match (&one.reply, &two.reply) {
            (Reply::Values(one), Reply::Values(two)) => {
                is_new(one, 0) && !is_new(one, 1) && is_new(two, 0) && !is_new(two, 1)
            }
            _ => true,
        },
        _ => true,
    }
}

/// Runs the batch by four workers, and says whether its readers crossed.
fn is_crossed<R: Threads + Wait + Sync>(rt: &R, alloc: Global, base: &Base) -> Result<bool, Fault> {
    let made = on_threads(rt, alloc, base, CROSSING, false, 4, &NoGate)?;
    Ok(cross(commit(made)?.replies()))
}

/// How often the readers did not cross, in 100 runs of the batch.
fn uncrossed<R: Threads + Wait + Sync>(rt: &R, alloc: Global) -> Result<u32, Fault> {
    let before = after(alloc, &[SET_OF_A_AND_B])?;
    let mut uncrossed = 0u32;
    for _ in 0..100u32 {
        if !is_crossed(rt, alloc, before.as_base())? {
            uncrossed = uncrossed.saturating_add(1);
        }
    }
    Ok(uncrossed)
}

#[test]
fn readers_never_cross_in_a_batch(rt: HostRuntime) -> Result<(), Fail> {
    assert!(rt; uncrossed(&rt, rt.alloc()) == Ok(100));
    Ok(())
}

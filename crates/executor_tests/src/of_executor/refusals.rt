//! Batches that run on threads while allocations may fail: `scripts/refusals` has each fail in turn. A run in
//! which one fails leaves its base as it was: the batch runs over it once more, and comes to the state of one
//! thread. `NoMemory` ends a row in which an allocation elsewhere failed.

use super::ways::{Way, agreeing};
use super::*;
use std::sync::Wait;
use std::test::Fail;
use std::thread::Threads;

/// Two groups of two requests, by two ways; and one group whose 64 pages are digested by several threads.
fn row<R: Threads + Wait + Sync>(rt: &R, alloc: Global) -> Result<(usize, usize), Fault> {
    let four = Way::Workers {
        ordered: false,
        count: 4,
    };
    let mut full = Vec::new(alloc);
    add_full_batch(&mut full)?;
    Ok((
        agreeing(rt, alloc, &[], TWO_GROUPS, &[four, Way::Begun], 2)?,
        agreeing(rt, alloc, &[], full.as_slice(), &[four], 2)?,
    ))
}

#[test]
fn batches_lead_on_with_ample_memory(rt: HostRuntime) -> Result<(), Fail> {
    assert!(rt; row(&rt, rt.alloc()) == Ok((2, 1)));
    Ok(())
}

#[test]
fn a_refused_growth_leaves_the_base(rt: HostRuntime) -> Result<(), Fail> {
    let row = row(&rt, rt.alloc());
    assert!(rt; row == Ok((2, 1)) || row == Err(Fault::NoMemory));
    Ok(())
}

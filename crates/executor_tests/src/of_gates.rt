//! What a gate sees of a round, and when.

use crate::gates::{Counts, Meeting, Waits};
use crate::tasks::{Does, add};
use item_steps::{Stamp, Task};
use pages::Pages;
use proto::Fault;
use round::Gate;
use std::alloc::{AllocError, Global};
use std::rt::Clock;
use std::sync::Wait;
use std::test::*;
use std::thread::Threads;
use workers::{Workers, run};

/// Runs the group on pages without items, by that many workers.
fn run_through<R: Threads + Wait + Sync, G: Gate + Sync>(
    rt: &R,
    alloc: Global,
    group: Vec<Task>,
    workers: usize,
    gate: &G,
) -> Result<(), Fault> {
    let Some(workers) = Workers::new(workers) else {
        return Err(Fault::Unfit);
    };
    let base = Stamp {
        moment: 5,
        stamp: 0,
    };
    run(rt, alloc, Pages::new(alloc)?, group, base, workers, gate)?;
    Ok(())
}

/// Sixteen requests that set the keys from `0` on, whose pages are 48 to 63, and one that reads `a`
/// three times, on page 97.
fn add_seventeen(alloc: Global, group: &mut Vec<Task>) -> Result<(), AllocError> {
    for place in 0..16u32 {
        add(
            alloc,
            group,
            place,
            &[(Does::Set(b'1'), &[b'0' + place as u8])],
        )?;
    }
    let read = (Does::Get, &b"a"[..]);
    add(alloc, group, 16, &[read, read, read])
}

#[test]
fn a_gate_is_told_of_each_step_and_its_page(rt: HostRuntime) -> Result<(), Fail> {
    for workers in &[1usize, 4] {
        let gate = Counts::new();
        let mut group = Vec::new(rt.alloc());
        add_seventeen(rt.alloc(), &mut group)?;
        let ran = run_through(&rt, rt.alloc(), group, *workers, &gate);
        assert!(rt; ran == Ok(()), "{workers}");
        assert!(rt; gate.counts() == (19, 19, 0), "{workers}");
    }
    Ok(())
}

/// Two requests, each of which sets one of the keys.
fn add_two(alloc: Global, group: &mut Vec<Task>, keys: [u8; 2]) -> Result<(), AllocError> {
    add(alloc, group, 0, &[(Does::Set(b'1'), &keys[..1])])?;
    add(alloc, group, 1, &[(Does::Set(b'1'), &keys[1..])])
}

/// How many of the two meet another one by two workers.
fn meet<R: Threads + Wait + Sync + Clock>(
    rt: &R,
    alloc: Global,
    keys: [u8; 2],
    waits: Waits,
) -> Result<u64, Fault> {
    let gate = Meeting::new(rt, waits);
    let mut group = Vec::new(alloc);
    add_two(alloc, &mut group, keys)?;
    run_through(rt, alloc, group, 2, &gate)?;
    Ok(gate.met())
}

/// Two keys, where their steps wait, and how many of them meet.
const ROWS: [(&str, [u8; 2], Waits, u64); 3] = [
    ("two_are_inside_at_once", *b"CE", Waits::Inside, 2),
    (
        "two_of_one_page_are_never_inside_at_once",
        *b"CC",
        Waits::InsideShortly,
        0,
    ),
    (
        "two_of_one_page_are_outside_at_once",
        *b"CC",
        Waits::Outside,
        2,
    ),
];

#[test]
fn steps_meet(rt: HostRuntime) -> Result<(), Fail> {
    for (name, keys, waits, met) in &ROWS {
        assert!(rt;
            meet(&rt, rt.alloc(), *keys, *waits) == Ok(*met),
            "{}",
            name
        );
    }
    Ok(())
}

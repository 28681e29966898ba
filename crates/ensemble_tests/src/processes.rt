//! A process ends, and another one begins with what was kept of it.

use crate::stage::{Done, Shown, played};
use proto::Fault;
use std::alloc::Global;
use std::rt::Clock;
use std::sync::Wait;
use std::test::Fail;
use std::thread::Threads;

const SET: &[u8] = b"set n 0 0 1\r\n5\r\n";

const ADD: &[u8] = b"incr n 1\r\n";

const STORE: [Done; 4] = [Done::Ask(1, SET), Done::Work, Done::Ask(1, ADD), Done::Work];

/// All replicas are opened. No verifier leads then, until one is told to.
const COME_BACK: [Done; 4] = [Done::End, Done::Open, Done::Suspect(0), Done::Work];

const COME_BACK_WITH_NO_LEADER: [Done; 3] = [Done::End, Done::Open, Done::Work];

const LEAD: [Done; 2] = [Done::Suspect(0), Done::Work];

const END: [Done; 1] = [Done::End];

const ASK: [Done; 1] = [Done::Ask(1, ADD)];

const WORK: [Done; 1] = [Done::Work];

const AGAIN: [Done; 2] = [Done::Again(1), Done::Work];

const ASK_OF_ANOTHER: [Done; 2] = [Done::Ask(2, ADD), Done::Work];

/// What is shown after `STORE`, and an increment by each proxy in turn.
const SHOWN: [Shown; 4] = [(1, 1, 0), (1, 2, 6), (1, 3, 7), (2, 1, 8)];

/// Whether just the first so many of these are answered in the row, with one, three and five executors.
fn shows<R: Threads + Wait + Sync + Clock>(
    rt: &R,
    alloc: Global,
    row: &[&[Done]],
    count: usize,
) -> Result<bool, Fault> {
    for u in 0..3u8 {
        let answers = played(rt, alloc, u, row)?;
        if answers.len() != count || !SHOWN.starts_with(answers.as_slice()) {
            return Ok(false);
        }
    }
    Ok(true)
}

#[test]
fn the_next_process_has_the_items(rt: HostRuntime) -> Result<(), Fail> {
    let row: [&[Done]; 5] = [&STORE, &COME_BACK, &ASK, &WORK, &ASK_OF_ANOTHER];
    assert!(rt; shows(&rt, rt.alloc(), &row, 4) == Ok(true));
    Ok(())
}

/// It ends again before a replica was opened.
#[test]
fn a_process_that_did_nothing_passes_it_on(rt: HostRuntime) -> Result<(), Fail> {
    let row: [&[Done]; 6] = [&STORE, &END, &COME_BACK, &COME_BACK, &ASK, &WORK];
    assert!(rt; shows(&rt, rt.alloc(), &row, 3) == Ok(true));
    Ok(())
}

/// The letters of a request are lost with the process, and its proxy asks again: before or after a verifier leads.
#[test]
fn what_was_outstanding_is_executed_once(rt: HostRuntime) -> Result<(), Fail> {
    let after: [&[Done]; 5] = [&STORE, &ASK, &COME_BACK, &AGAIN, &ASK_OF_ANOTHER];
    assert!(rt; shows(&rt, rt.alloc(), &after, 4) == Ok(true));
    let before: [&[Done]; 6] = [
        &STORE,
        &ASK,
        &COME_BACK_WITH_NO_LEADER,
        &AGAIN,
        &LEAD,
        &ASK_OF_ANOTHER,
    ];
    assert!(rt; shows(&rt, rt.alloc(), &before, 4) == Ok(true));
    Ok(())
}

#[test]
fn nothing_is_answered_while_no_verifier_leads(rt: HostRuntime) -> Result<(), Fail> {
    let row: [&[Done]; 5] = [&STORE, &COME_BACK_WITH_NO_LEADER, &ASK, &WORK, &AGAIN];
    assert!(rt; shows(&rt, rt.alloc(), &row, 2) == Ok(true));
    Ok(())
}

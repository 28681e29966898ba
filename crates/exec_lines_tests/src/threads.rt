//! Work that is run whole, on threads.

use crate::given::Given::{Cut, Finish, Sets, Step};
use crate::given::{C1, C2, Told, none_told, token_of};
use crate::parts::NOTHING;
use crate::script::Row::{Begun, Gives, NoneBegun};
use crate::script::{Part, shows, wrong_row};
use crate::seen::{LEADER, U, holds};
use exec_lines::State;
use proto::Fault;
use round::NoGate;
use std::alloc::Global;
use std::sync::Wait;
use std::test::Fail;
use std::thread::Threads;
use token::Token;
use workers::Workers;

/// What comes before two workers run the work, what that leaves to be done, and what comes after it.
type Run = (Part, &'static [u8], Part);

/// A batch of two requests, which set two keys and are one group.
const BOTH: Run = (
    (
        LEADER,
        &[
            Gives(Sets(C1, b'C'), b"."),
            Gives(Sets(C2, b'E'), b"."),
            Gives(Cut, b". O11 O21"),
            Begun(1, 2, false),
        ],
    ),
    b"* T01 T11 T21",
    (LEADER, &[NoneBegun]),
);

/// The two steps are made one by one, and nothing is left to run.
const BY_STEPS: Run = (
    (
        LEADER,
        &[
            Gives(Sets(C1, b'C'), b"."),
            Gives(Sets(C2, b'E'), b"."),
            Gives(Cut, b". O11 O21"),
            Begun(1, 2, false),
            Gives(Step(1), b"."),
            Gives(Step(0), b"."),
            Gives(Finish, b"* T01 T11 T21"),
        ],
    ),
    b".",
    NOTHING,
);

/// Work is not run whole once a step was made, which stays made.
const AFTER_A_STEP: Run = (
    (
        LEADER,
        &[
            Gives(Sets(C1, b'C'), b"."),
            Gives(Sets(C2, b'E'), b"."),
            Gives(Cut, b". O11 O21"),
            Begun(1, 2, false),
            Gives(Step(0), b"."),
        ],
    ),
    b".",
    (
        LEADER,
        &[Gives(Step(1), b"."), Gives(Finish, b"* T01 T11 T21")],
    ),
);

/// Nothing runs if nothing was begun.
const NO_WORK: Run = (NOTHING, b".", NOTHING);

fn runs<R: Threads + Wait + Sync>(
    rt: &R,
    alloc: Global,
    told: &mut Told,
    state: &mut State,
    (before, expected, after): Run,
) -> Result<(), Fault> {
    let Some(two) = Workers::new(2) else {
        return Err(Fault::Unfit);
    };
    holds(wrong_row(alloc, U, told, state, before).is_none())?;
    let outcome = state.run(rt, alloc, U, LEADER, two, &NoGate)?;
    shows(told, &outcome, expected)?;
    holds(wrong_row(alloc, U, told, state, after).is_none())
}

/// The token that is told of state 1.
fn token<R: Threads + Wait + Sync>(rt: &R, alloc: Global, run: Run) -> Result<Token, Fault> {
    let mut state = State::first(alloc)?;
    let mut told = none_told();
    let row = runs(rt, alloc, &mut told, &mut state, run);
    state.end();
    row?;
    Ok(token_of(&told, 1))
}

#[test]
fn two_workers_come_to_the_token_of_single_steps(rt: HostRuntime) -> Result<(), Fail> {
    let token_by_steps = token(&rt, rt.alloc(), BY_STEPS)?;
    assert!(rt; token(&rt, rt.alloc(), BOTH) == Ok(token_by_steps));
    Ok(())
}

#[test]
fn work_is_not_run_whole_if_there_is_none_or_a_step_was_made(rt: HostRuntime) -> Result<(), Fail> {
    token(&rt, rt.alloc(), NO_WORK)?;
    token(&rt, rt.alloc(), AFTER_A_STEP)?;
    Ok(())
}

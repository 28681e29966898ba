//! Tentative states that are handed in: another executor made them of the same batch.

use crate::given::Given::{Adopt, AdoptOverAnother, Order, Step};
use crate::given::{E2, Told, batch, token_of};
use crate::parts::{NOTHING, ONE_EXECUTED};
use crate::script::Row::{Begun, Gives, NoneBegun, Resumes, ToldAsMade, Unfit};
use crate::script::Script;
use crate::seen::{OTHER, U, holds};
use batches::Batch;
use exec_lines::State;
use executor::{Base, Ended, Tentative, Work};
use proto::Fault;
use std::alloc::Global;

/// Makes the one step of the work, and ends its group.
fn made_of(alloc: Global, work: Work) -> Result<Tentative, Fault> {
    let mut work = work;
    let step = work.step(alloc, 0);
    match work.finish(alloc)? {
        Ended::Done(tentative) => Ok(tentative),
        Ended::On(_) => {
            step?;
            Err(Fault::NotOpen)
        }
    }
}

/// What a batch of one request makes of the base.
fn made_over(alloc: Global, base: &Base, batch: Batch) -> Result<Tentative, Fault> {
    if batch.n != base.number() + 1 {
        return Err(Fault::Unfit);
    }
    match Work::begin(alloc, base, batch, false)? {
        Ended::Done(tentative) => Ok(tentative),
        Ended::On(work) => made_of(alloc, work),
    }
}

/// What batch 1 makes of the first state.
pub fn made(alloc: Global, batch: Batch) -> Result<Tentative, Fault> {
    let other = State::first(alloc)?;
    let tentative = made_over(alloc, other.chain().tip(), batch);
    other.end();
    tentative
}

/// What batch 2 makes of another state than that of number 1 that the executor has.
pub fn made_over_another(alloc: Global) -> Result<Tentative, Fault> {
    let second = batch(alloc, 1, 2)?;
    let first = made(alloc, batch(alloc, 1, 1)?)?;
    let tentative = made_over(alloc, first.as_base(), second);
    drop(first.undo());
    tentative
}

/// Whether the token that was told of state 1 is that of the state that is handed in.
pub fn told_as_made(alloc: Global, told: &Told) -> Result<(), Fault> {
    let tentative = made(alloc, batch(alloc, 1, 1)?)?;
    let token = tentative.token();
    drop(tentative.undo());
    holds(token_of(told, 1) == token)
}

pub const SCRIPTS: &[Script] = &[
    (
        "a_state_of_the_batch_over_its_base_completes_the_work",
        U,
        NOTHING,
        (
            OTHER,
            &[
                Gives(Order(E2, 1, 1), b"."),
                Gives(Adopt(1), b"* T01 T11 T21"),
                ToldAsMade,
                NoneBegun,
                Resumes(b"> T01 T11 T21 A01 A11 A21"),
            ],
        ),
    ),
    // The batch of another epoch has another text.
    (
        "a_state_of_another_batch_is_unfit",
        U,
        NOTHING,
        (
            OTHER,
            &[
                Gives(Order(E2, 1, 1), b"."),
                Unfit(Adopt(2)),
                Begun(1, 1, false),
            ],
        ),
    ),
    (
        "a_state_is_unfit_once_a_step_was_made",
        U,
        NOTHING,
        (
            OTHER,
            &[
                Gives(Order(E2, 1, 1), b"."),
                Gives(Step(0), b"."),
                Unfit(Adopt(1)),
            ],
        ),
    ),
    (
        "a_state_is_unfit_without_work",
        U,
        NOTHING,
        (OTHER, &[Unfit(Adopt(1)), Resumes(b"> A01 A11 A21")]),
    ),
    (
        "a_state_over_another_base_is_unfit",
        U,
        ONE_EXECUTED,
        (
            OTHER,
            &[
                Gives(Order(E2, 1, 2), b"."),
                Unfit(AdoptOverAnother),
                Begun(2, 1, false),
            ],
        ),
    ),
];

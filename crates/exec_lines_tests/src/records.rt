//! Records of executors.

ghost use Rattle.std.specs.Prelude.{◌≤◌};

use crate::given::Given::{Commit, Rollback};
use crate::given::{C1, C2, C3, Told, V0, none_told};
use crate::parts::{NOTHING, ONE_EXECUTED, ONE_OF_TWO};
use crate::refusals::{Kept, kept};
use crate::script::Row::{CannotResume, Execute, Gives, GoesOn, Record, Resumes, Stopped};
use crate::script::{Part, Place, Script, resumes, wrong_in, wrong_row};
use crate::seen::{LEADER, U, holds, record};
use decrees::Standing;
use exec_lines::State;
use executor::Committed;
use keeper::{MemKeeper, save_record};
use proto::Fault;
use rollback::Chain;
use states::Version;
use std::alloc::{AllocError, Global};
use std::test::Fail;
use token::Token;

pub const SCRIPTS: &[Script] = &[
    (
        "the_record_of_a_new_executor_has_1471_bytes",
        0,
        NOTHING,
        (LEADER, &[Record(1471, [2, 0x45])]),
    ),
    (
        "an_executor_goes_on_from_its_record",
        U,
        ONE_EXECUTED,
        (LEADER, &[GoesOn(b"> T01 T11 T21 A01 A11 A21")]),
    ),
    // Each member, the place after the decrees, and no need.
    (
        "one_that_goes_on_tells_the_tokens_of_its_members",
        U,
        NOTHING,
        (
            LEADER,
            &[
                Resumes(b"> A01 A11 A21"),
                Execute(C1, 1, b". O11 O21", b"* T01 T11 T21"),
                Gives(Commit(V0, 1), b"* S11"),
                Resumes(b"> A02 A12 A22"),
                Execute(C2, 1, b". O12 O22", b"* T02 T12 T22"),
                Execute(C3, 1, b". O13 O23", b"* T03 T13 T23"),
                Resumes(b"> T02 T12 T22 T03 T13 T23 A02 A12 A22"),
            ],
        ),
    ),
];

/// An executor that has the chain of the record and knows no decree.
fn restored(alloc: Global, kept: &[u8]) -> Result<State, Fault> {
    match kept.get(68..) {
        Some(text) => {
            let (chain, _) = Chain::take(alloc, Version::Second, text)?;
            Ok(State::restored(alloc, 0, Standing::first(), chain))
        }
        None => Err(Fault::BadRecord),
    }
}

fn has(
    alloc: Global,
    place: Place,
    state: &State,
    kept: &[u8],
    expected: &[u8],
) -> Result<(), Fault> {
    let again = record(alloc, place, state)?;
    holds(again.as_slice() == kept)?;
    resumes(alloc, place, state, expected)
}

/// Whether one that is restored has the same record, and says this.
pub fn goes_on(alloc: Global, place: Place, state: &State, expected: &[u8]) -> Result<(), Fault> {
    let kept = record(alloc, place, state)?;
    let again = restored(alloc, kept.as_slice())?;
    let row = has(alloc, place, &again, kept.as_slice(), expected);
    again.end();
    row
}

const ONE_MORE: Part = (LEADER, &[Execute(C3, 1, b". O13 O23", b"* T03 T13 T23")]);

/// Whether the keeper's record is of these bytes, and that of the executor is another.
fn differ(alloc: Global, state: &State, keeper: &Kept, bytes: &[u8]) -> Result<(), Fault> {
    let now = record(alloc, (U, LEADER), state)?;
    let lent = kept(alloc, keeper)?;
    holds(now.as_slice() != bytes && lent.as_slice() == bytes)
}

fn saves(alloc: Global, state: &State, keeper: &mut Kept) -> Result<(), Fault> {
    let record = state.record(alloc, U, LEADER)?;
    save_record(record, keeper)
}

/// Saves the record, which has these bytes, and goes on.
fn saves_and_goes_on(
    alloc: Global,
    told: &mut Told,
    state: &mut State,
    keeper: &mut Kept,
    bytes: &[u8],
) -> Result<(), Fault> {
    saves(alloc, state, keeper)?;
    holds(wrong_row(alloc, U, told, state, ONE_MORE).is_none())?;
    differ(alloc, state, keeper, bytes)
}

/// Whether a keeper lends the record as it was saved, after the executor went on.
fn is_lent_as_it_was(alloc: Global, state: &mut State, keeper: &mut Kept) -> Result<(), Fault> {
    let mut told = none_told();
    holds(wrong_row(alloc, U, &mut told, state, ONE_OF_TWO).is_none())?;
    let bytes = record(alloc, (U, LEADER), state)?;
    saves_and_goes_on(alloc, &mut told, state, keeper, bytes.as_slice())
}

fn with_a_keeper(alloc: Global, state: &mut State) -> Result<(), Fault> {
    let mut keeper = MemKeeper::new();
    is_lent_as_it_was(alloc, state, &mut keeper)
}

#[test]
fn a_keeper_lends_the_record_as_it_was_saved(rt: HostRuntime) -> Result<(), Fail> {
    let mut state = State::first(rt.alloc())?;
    let row = with_a_keeper(rt.alloc(), &mut state);
    state.end();
    assert!(rt; row == Ok(()));
    Ok(())
}

fn first_chain(alloc: Global) -> Result<Chain, AllocError> {
    let (chain, _) = Chain::new(alloc, Committed::first(alloc)?)?;
    Ok(chain)
}

/// If it knows as many decrees as can be counted, it asks for no more.
const ASKS_NO_MORE: Script = (
    "one_that_knows_all_decrees_that_can_be_counted_is_stopped",
    U,
    NOTHING,
    (LEADER, &[CannotResume]),
);

/// If no epoch can follow, it obeys no rollback.
const TURNS_NO_MORE: Script = (
    "a_rollback_of_the_last_epoch_that_can_be_counted_is_stopped",
    U,
    NOTHING,
    (LEADER, &[Stopped(Rollback(V0, 1))]),
);

/// What stands in the last epoch that can be counted.
const LAST: Standing = Standing {
    n: 0,
    token: Token([0; 32]),
    epoch: u64::MAX,
    start: 1,
};

/// The first wrong row of one that goes on from these numbers and the first chain.
fn wrong_from(
    alloc: Global,
    known: u64,
    standing: Standing,
    script: Script,
) -> Result<Option<(usize, bool)>, AllocError>
    requires { 1 ≤ standing.epoch }
{
    let chain = first_chain(alloc)?;
    let state = State::restored(alloc, known, standing, chain);
    Ok(wrong_in(alloc, state, script))
}

#[test]
fn one_whose_counter_is_at_its_limit_is_stopped(rt: HostRuntime) -> Result<(), Fail> {
    let all = wrong_from(rt.alloc(), u64::MAX, Standing::first(), ASKS_NO_MORE)?;
    let last = wrong_from(rt.alloc(), 0, LAST, TURNS_NO_MORE)?;
    assert_eq!(rt; (all, last), (None, None));
    Ok(())
}

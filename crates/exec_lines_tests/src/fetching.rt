//! An executor that is behind, and one that has more.

use crate::given::Given::{Commit, CommitAt, Heard, Want};
use crate::given::{C1, C2, C3, E0, E1, NONE, Told, V0, none_told};
use crate::parts::ONE_COMMITTED;
use crate::refusals::{Letters, Line, input_of};
use crate::script::Row::{Execute, Gives, Resumes};
use crate::script::{Part, shows, wrong_row};
use crate::seen::{LEADER, OTHER, U, holds, record};
use decrees::Letter;
use exec_lines::{Body, State};
use proto::Fault;
use std::alloc::Global;
use std::test::Fail;
use transfer::Parcel;
use wire::{read, write};

/// What is to hold of one that has more and a new one.
#[derive(Clone, Copy)]
enum Row {
    /// The new one takes what the other one answers to its need, and a parcel changes nothing once it is
    /// not behind.
    HandedOver,
    /// If a page that it needs is left out, nothing changes.
    LacksItsPage,
    /// If the state of number 3 stands, one of number 2 changes nothing.
    Older,
    /// One that has no more than it does not answer.
    NoMore,
}

/// Gives this to executor `id`, or hands it the last letter of what was said, and keeps what it says.
fn hears(
    alloc: Global,
    told: &mut Told,
    (id, state): (u8, &mut State),
    said: &mut Letters,
    (given, expected): Line,
) -> Result<(), Fault> {
    let input = input_of(alloc, told, said, given)?;
    let outcome = state.step(alloc, U, id, input)?;
    shows(told, &outcome, expected)?;
    *said = outcome.letters;
    Ok(())
}

/// The new one gets the parcel that was said. Either its record is another then, or nothing changes.
fn gets(
    alloc: Global,
    told: &mut Told,
    state: &mut State,
    said: &mut Letters,
    expected: &'static [u8],
) -> Result<(), Fault> {
    let before = record(alloc, (U, OTHER), state)?;
    hears(alloc, told, (OTHER, state), said, (Heard(E0), expected))?;
    let is_same = record(alloc, (U, OTHER), state)? == before;
    holds(is_same == (expected.first() == Some(&b'.')))
}

/// The new one hears of a commit of a state that it has not: it needs that of the others.
const NEEDS: &[u8] = b"* N00 N20";

const BEHIND: Part = (OTHER, &[Resumes(b"> A02 A12 A22 N00 N20")]);

/// It is not behind any more, and answers by the sessions of the state that it took.
const TAKEN: Part = (
    OTHER,
    &[Resumes(b"> A02 A12 A22"), Gives(Want(C1, 1), b". S11")],
);

/// What the one that has more answers after its batch 1 was committed.
fn first_parcel(
    alloc: Global,
    told: &mut Told,
    more: &mut State,
    state: &mut State,
    said: &mut Letters,
) -> Result<(), Fault> {
    holds(wrong_row(alloc, U, told, more, ONE_COMMITTED).is_none())?;
    hears(alloc, told, (OTHER, state), said, (Commit(V0, 1), NEEDS))?;
    holds(wrong_row(alloc, U, told, state, BEHIND).is_none())?;
    hears(alloc, told, (LEADER, more), said, (Heard(E1), b". P11"))
}

/// How many bytes the record of a parcel has before the count of its pages: 85 of fields, and 16 of
/// the sessions of one client.
const BEFORE_PAGES: usize = 101;

/// The parcel without its pages.
fn without_pages(alloc: Global, parcel: &Parcel) -> Result<Parcel, Fault> {
    parcel.is_parcel();
    let mut bytes = Vec::new(alloc);
    write(alloc, parcel, &mut bytes)?;
    bytes.truncate(BEFORE_PAGES);
    bytes.extend_from_slice(&[0; 4])?;
    read::<Parcel>(alloc, bytes.as_slice())
}

/// Adds the parcel that was said, or the same one without its pages.
fn copy(alloc: Global, said: &Letters, whole: bool, copies: &mut Letters) -> Result<(), Fault> {
    let Some(
        Letter {
            from,
            to,
            body: Body::Parcel(parcel),
        },
    ) = said.last()
    else {
        return Err(Fault::NotOpen);
    };
    let copy = if whole {
        parcel.clone()?
    } else {
        without_pages(alloc, parcel)?
    };
    copies.push(Letter {
        from: *from,
        to: *to,
        body: Body::Parcel(copy),
    })?;
    Ok(())
}

fn is_handed_over(
    alloc: Global,
    told: &mut Told,
    more: &mut State,
    state: &mut State,
    said: &mut Letters,
    copies: &mut Letters,
) -> Result<(), Fault> {
    first_parcel(alloc, told, more, state, said)?;
    copy(alloc, said, true, copies)?;
    gets(alloc, told, state, said, b"*")?;
    holds(wrong_row(alloc, U, told, state, TAKEN).is_none())?;
    gets(alloc, told, state, copies, b".")
}

fn lacks_its_page(
    alloc: Global,
    told: &mut Told,
    more: &mut State,
    state: &mut State,
    said: &mut Letters,
    copies: &mut Letters,
) -> Result<(), Fault> {
    first_parcel(alloc, told, more, state, said)?;
    copy(alloc, said, false, copies)?;
    gets(alloc, told, state, copies, b".")?;
    gets(alloc, told, state, said, b"*")
}

const SECOND: Part = (
    LEADER,
    &[
        Execute(C2, 1, b". O12 O22", b"* T02 T12 T22"),
        Gives(Commit(V0, 2), b"* S21"),
    ],
);

const THIRD: Part = (
    LEADER,
    &[
        Execute(C3, 1, b". O13 O23", b"* T03 T13 T23"),
        Gives(Commit(V0, 3), b"* S31"),
    ],
);

/// The one that has more answers a need with the state after batch 2, and goes on.
fn older_parcel(
    alloc: Global,
    told: &mut Told,
    more: &mut State,
    state: &mut State,
    early: &mut Letters,
) -> Result<(), Fault> {
    holds(wrong_row(alloc, U, told, more, ONE_COMMITTED).is_none())?;
    holds(wrong_row(alloc, U, told, more, SECOND).is_none())?;
    hears(alloc, told, (OTHER, state), early, (Commit(V0, 1), NEEDS))?;
    hears(alloc, told, (LEADER, more), early, (Heard(E1), b". P12"))?;
    holds(wrong_row(alloc, U, told, more, THIRD).is_none())
}

/// The new one hears of the commit of each batch, and gets the state after batch 2 too late.
fn is_older(
    alloc: Global,
    told: &mut Told,
    more: &mut State,
    state: &mut State,
    early: &mut Letters,
    late: &mut Letters,
) -> Result<(), Fault> {
    older_parcel(alloc, told, more, state, early)?;
    hears(alloc, told, (OTHER, state), late, (Commit(V0, 2), NEEDS))?;
    hears(alloc, told, (OTHER, state), late, (Commit(V0, 3), NEEDS))?;
    gets(alloc, told, state, early, b".")?;
    hears(alloc, told, (LEADER, more), late, (Heard(E1), b". P13"))?;
    gets(alloc, told, state, late, b"*")
}

fn has_no_more(
    alloc: Global,
    told: &mut Told,
    more: &mut State,
    state: &mut State,
    said: &mut Letters,
) -> Result<(), Fault> {
    let commit = CommitAt(V0, 1, 1, NONE);
    hears(alloc, told, (OTHER, state), said, (commit, NEEDS))?;
    hears(alloc, told, (LEADER, more), said, (Heard(E1), b"."))
}

fn is_so(alloc: Global, row: Row, more: &mut State, state: &mut State) -> Result<(), Fault> {
    let mut told = none_told();
    let mut said = Vec::new(alloc);
    let mut late = Vec::new(alloc);
    match row {
        Row::HandedOver => is_handed_over(alloc, &mut told, more, state, &mut said, &mut late),
        Row::LacksItsPage => lacks_its_page(alloc, &mut told, more, state, &mut said, &mut late),
        Row::Older => is_older(alloc, &mut told, more, state, &mut said, &mut late),
        Row::NoMore => has_no_more(alloc, &mut told, more, state, &mut said),
    }
}

fn is_row(alloc: Global, row: Row) -> Result<(), Fault> {
    let mut more = State::first(alloc)?;
    let so = match State::first(alloc) {
        Ok(mut state) => {
            let so = is_so(alloc, row, &mut more, &mut state);
            state.end();
            so
        }
        Err(_) => Err(Fault::NoMemory),
    };
    more.end();
    so
}

const ROWS: [(&str, Row); 4] = [
    (
        "one_that_is_behind_takes_the_state_that_stands",
        Row::HandedOver,
    ),
    ("a_parcel_that_lacks_a_page_is_ignored", Row::LacksItsPage),
    ("a_parcel_of_an_older_state_is_ignored", Row::Older),
    (
        "a_need_is_not_answered_by_one_that_has_no_more",
        Row::NoMore,
    ),
];

fn first_wrong(alloc: Global) -> Option<&'static str> {
    for (name, row) in ROWS {
        if is_row(alloc, row).is_err() {
            return Some(name);
        }
    }
    None
}

#[test]
fn an_executor_that_is_behind_and_one_that_has_more(rt: HostRuntime) -> Result<(), Fail> {
    assert_eq!(rt; first_wrong(rt.alloc()), None);
    Ok(())
}

//! Each rule of the table through `ExecNode::handle`, and a restart. If an allocation fails, the executor is
//! stopped and has its old record, with which it is opened again. `scripts/refusals` has each allocation fail in
//! turn. `NoMemory` ends a row in which one failed, and `NotOpen` one in which something else does not hold.

use crate::given::Given::{Adopt, Commit, Cut, Finish, Heard, Order, Rollback, Stands, Step, Want};
use crate::given::{C1, C2, C3, E0, E1, E2, Given, NONE, Told, V0, input, letter, none_told};
use crate::seen::{LEADER, OTHER, U, are_letters, holds, learn, text_of};
use decrees::Letter;
use exec_lines::{Body, ExecutorRecord, Input};
use exec_node::ExecNode;
use keeper::{Keeper, MemKeeper};
use proto::Fault;
use std::alloc::Global;
use std::test::Fail;

/// An executor's keeper.
pub type Kept = MemKeeper<ExecutorRecord>;

pub type Executor = ExecNode<Kept>;

pub type Letters = Vec<Letter<Body>>;

/// An input, and what it leaves: `*` if the record is another and else `.`, and then the letters.
pub type Line = (Given, &'static [u8]);

/// Lines of the executor of this number.
type Lines = (u8, &'static [Line]);

/// The bytes of the record that is kept.
pub fn kept(alloc: Global, keeper: &Kept) -> Result<Vec<u8>, Fault> {
    match keeper.load() {
        None => Ok(Vec::new(alloc)),
        Some(found) => Ok(text_of(alloc, found)?),
    }
}

/// The executor `id` of three, and its first letters. It says nothing of what it does, so that the proofs of
/// those who call it are short; so for `handle`.
fn opened(alloc: Global, id: u8, keeper: Kept) -> Result<(Executor, Letters), (Fault, Kept)> {
    if id > OTHER {
        return Err((Fault::NotOpen, keeper));
    }
    ExecNode::open(alloc, U, id, keeper)
}

fn handle(alloc: Global, executor: &mut Executor, input: Input) -> Result<Letters, Fault> {
    executor.handle(alloc, input)
}

/// Why it was not opened: `NoMemory`, and then its keeper has the record that it had.
fn refusal(alloc: Global, fault: Fault, keeper: &Kept, before: &[u8]) -> Fault {
    match kept(alloc, keeper) {
        Ok(after) if fault != Fault::NoMemory || after.as_slice() != before => Fault::NotOpen,
        _ => fault,
    }
}

/// The executor, if its first letters are these, after `>`, or any are.
fn if_it_says(
    executor: Executor,
    letters: &[Letter<Body>],
    expected: Option<&[u8]>,
) -> Result<Executor, Fault> {
    let is_right = match expected {
        Some(text) => are_letters(b'>', letters, text),
        None => true,
    };
    if is_right {
        return Ok(executor);
    }
    drop(executor.end());
    Err(Fault::NotOpen)
}

fn opens_over(
    alloc: Global,
    id: u8,
    keeper: Kept,
    before: &[u8],
    expected: Option<&[u8]>,
) -> Result<Executor, Fault> {
    match opened(alloc, id, keeper) {
        Ok((executor, letters)) => if_it_says(executor, letters.as_slice(), expected),
        Err((fault, keeper)) => Err(refusal(alloc, fault, &keeper, before)),
    }
}

/// The executor `id`, whose first letters are these, after `>`, or any.
pub fn opens(
    alloc: Global,
    id: u8,
    keeper: Kept,
    expected: Option<&[u8]>,
) -> Result<Executor, Fault> {
    let before = kept(alloc, &keeper)?;
    opens_over(alloc, id, keeper, before.as_slice(), expected)
}

/// Whether it is stopped, and stays so.
fn is_stopped(alloc: Global, executor: &mut Executor) -> bool {
    let again = handle(alloc, executor, Input::Step(0));
    matches!(again, Err(Fault::Stopped)) && !executor.is_up()
}

fn has_record(alloc: Global, executor: &mut Executor, bytes: &[u8]) -> Result<bool, Fault> {
    let kept = kept(alloc, executor.keeper())?;
    Ok(kept.as_slice() == bytes)
}

/// The letters are those that were expected, after `*` if the record is another and else `.`.
fn are_right(
    alloc: Global,
    executor: &mut Executor,
    before: &[u8],
    letters: &[Letter<Body>],
    expected: &[u8],
) -> Result<(), Fault> {
    let is_old = has_record(alloc, executor, before)?;
    let first = if is_old { b'.' } else { b'*' };
    holds(are_letters(first, letters, expected))
}

/// What `handle` answered: the letters that were expected; or `NoMemory`, and then it is stopped and has
/// its old record.
pub fn answered(
    alloc: Global,
    executor: &mut Executor,
    before: &[u8],
    answer: Result<Letters, Fault>,
    expected: &[u8],
) -> Result<Letters, Fault> {
    match answer {
        Ok(letters) => {
            are_right(alloc, executor, before, letters.as_slice(), expected)?;
            Ok(letters)
        }
        Err(fault) => {
            let stops = is_stopped(alloc, executor) && has_record(alloc, executor, before)?;
            holds(stops && fault == Fault::NoMemory)?;
            Err(fault)
        }
    }
}

/// The input. One that was heard is the last letter of what was said.
pub fn input_of(
    alloc: Global,
    told: &Told,
    said: &mut Letters,
    given: Given,
) -> Result<Input, Fault> {
    let Given::Heard(from) = given else {
        return input(alloc, told, given);
    };
    match said.pop() {
        Some(last) => Ok(letter(from, last.body)),
        None => Err(Fault::NotOpen),
    }
}

fn gives(
    alloc: Global,
    executor: &mut Executor,
    told: &mut Told,
    said: &mut Letters,
    (given, expected): Line,
) -> Result<Letters, Fault> {
    let before = kept(alloc, executor.keeper())?;
    let input = input_of(alloc, told, said, given)?;
    let answer = handle(alloc, executor, input);
    let letters = answered(alloc, executor, before.as_slice(), answer, expected)?;
    learn(told, letters.as_slice());
    Ok(letters)
}

/// Gives it the inputs of the lines. What it says last is kept.
pub fn gives_all(
    alloc: Global,
    executor: &mut Executor,
    told: &mut Told,
    said: &mut Letters,
    lines: &[Line],
) -> Result<(), Fault> {
    for line in lines {
        *said = gives(alloc, executor, told, said, *line)?;
    }
    Ok(())
}

const LINES: [Lines; 7] = [
    // Order and Adopt, of another batch 1.
    (
        OTHER,
        &[(Order(E2, 1, 1), b"."), (Adopt(1), b"* T01 T11 T21")],
    ),
    // Want, Cut, Step, Finish, Decided: client 1 is answered, and once more if it asks again.
    (
        LEADER,
        &[
            (Want(C1, 1), b"."),
            (Cut, b". O11 O21"),
            (Step(0), b"."),
            (Finish, b"* T01 T11 T21"),
            (Commit(V0, 1), b"* S11"),
            (Want(C1, 1), b". S11"),
        ],
    ),
    // The decree that commits the leader's batch 1, and the need.
    (OTHER, &[(Commit(V0, 1), b"* N00 N20")]),
    // The parcel.
    (LEADER, &[(Heard(E1), b". P11")]),
    // And the question for the decrees that it lacks.
    (OTHER, &[(Heard(E0), b"*"), (Rollback(V0, 5), b". A02")]),
    // A Rollback, by which a batch is undone that was begun.
    (
        LEADER,
        &[
            (Want(C2, 1), b"."),
            (Cut, b". O12 O22"),
            (Rollback(V0, 2), b"*"),
        ],
    ),
    // Executor 1 leads epoch 2, and then both its members are committed; and then another state stands.
    (
        OTHER,
        &[
            (Stands(V0, 2, 1, 1, [2, 2]), b"*"),
            (Want(C2, 1), b"."),
            (Cut, b". O02 O22"),
            (Step(0), b"."),
            (Finish, b"* T02 T12 T22"),
            (Want(C3, 1), b"."),
            (Cut, b". O03 O23"),
            (Step(0), b"."),
            (Finish, b"* T03 T13 T23"),
            (Stands(V0, 4, 3, 3, [2, 2]), b"* S21 S31"),
            (Stands(V0, 7, 4, NONE, [4, 5]), b"* N03 N23"),
        ],
    ),
];

fn play(alloc: Global, leader: &mut Executor, other: &mut Executor) -> Result<(), Fault> {
    let mut told = none_told();
    let mut said = Vec::new(alloc);
    for (id, lines) in LINES {
        if id == LEADER {
            gives_all(alloc, leader, &mut told, &mut said, lines)?;
        } else {
            gives_all(alloc, other, &mut told, &mut said, lines)?;
        }
    }
    Ok(())
}

/// Plays the lines with another one.
fn play_with(alloc: Global, leader: &mut Executor) -> Result<(), Fault> {
    let mut other = opens(alloc, OTHER, MemKeeper::new(), Some(b">"))?;
    let played = play(alloc, leader, &mut other);
    drop(other.end());
    played
}

/// It goes on from its record, with these letters or any.
pub fn restart(alloc: Global, keeper: Kept, expected: Option<&[u8]>) -> Result<(), Fault> {
    let again = opens(alloc, LEADER, keeper, expected)?;
    drop(again.end());
    Ok(())
}

/// It goes on from its record also if it, or the other one, was refused some memory, which is there
/// then.
fn each_line(alloc: Global) -> Result<(), Fault> {
    let mut leader = opens(alloc, LEADER, MemKeeper::new(), Some(b">"))?;
    let played = play_with(alloc, &mut leader);
    let keeper = leader.end();
    if let Err(fault) = played {
        holds(restart(alloc, keeper, None).is_ok())?;
        return Err(fault);
    }
    restart(alloc, keeper, Some(b"> A03 A13 A23"))
}

#[test]
fn each_line_answers_with_ample_memory(rt: HostRuntime) -> Result<(), Fail> {
    assert!(rt; each_line(rt.alloc()) == Ok(()));
    Ok(())
}

#[test]
fn a_refused_growth_stops_it_with_its_old_record(rt: HostRuntime) -> Result<(), Fail> {
    let row = each_line(rt.alloc());
    assert!(rt; row == Ok(()) || row == Err(Fault::NoMemory));
    Ok(())
}

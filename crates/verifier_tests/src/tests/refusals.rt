//! Each rule of a verifier. If an allocation fails, the verifier is stopped and has its old record, with which it
//! is opened again. `scripts/refusals` has each allocation fail in turn. `NoMemory` ends a row in which one failed,
//! and `NotOpen` one in which something else does not hold.

use super::records::{handle, keeper_of, open, record};
use base::Text;
use decrees::{Ballot, Decree, Letter, Node, Standing};
use keeper::MemKeeper;
use proto::Fault;
use std::alloc::Global;
use std::test::Fail;
use token::Token;
use verifier::{Input, Verifier};

/// What verifier 0 of three is given and by whom, how many letters it answers, and whether it saves.
type Line = (Node, Ballot, usize, bool);

const DECREE: Decree = Decree::Commit {
    n: 1,
    token: Token([7; 32]),
};

const VOTE: Ballot = Ballot::Token {
    epoch: 1,
    n: 1,
    previous: Token([0; 32]),
    token: Token([7; 32]),
};

const ACCEPTED: Ballot = Ballot::Accepted {
    view: 0,
    place: 1,
    decree: DECREE,
};

const LINES: [Line; 13] = [
    (Node::Executor(0), VOTE, 0, false),
    (Node::Executor(1), VOTE, 3, false),
    (
        Node::Verifier(0),
        Ballot::Accept {
            view: 0,
            place: 1,
            decree: DECREE,
        },
        3,
        true,
    ),
    (Node::Verifier(0), ACCEPTED, 0, false),
    (Node::Verifier(1), ACCEPTED, 5, true),
    (Node::Executor(2), Ballot::Ask { place: 1 }, 1, false),
    (
        Node::Verifier(2),
        Ballot::Decided {
            place: 5,
            decree: DECREE,
        },
        1,
        false,
    ),
    (
        Node::Verifier(2),
        Ballot::Decided {
            place: 2,
            decree: Decree::Rollback,
        },
        0,
        true,
    ),
    (Node::Verifier(1), Ballot::Change { view: 1 }, 1, true),
    (
        Node::Verifier(2),
        Ballot::Accept {
            view: 2,
            place: 3,
            decree: Decree::Rollback,
        },
        3,
        true,
    ),
    (
        Node::Verifier(2),
        Ballot::Promise {
            view: 3,
            known: 2,
            accepted: None,
        },
        0,
        false,
    ),
    (Node::Verifier(1), Ballot::Ask { place: 1 }, 2, false),
    (
        Node::Verifier(1),
        Ballot::Accept {
            view: 2,
            place: 1,
            decree: DECREE,
        },
        1,
        false,
    ),
];

/// What it is given when it has forgotten the first decree.
const LATER: [Line; 5] = [
    (Node::Executor(2), Ballot::Ask { place: 1 }, 1, false),
    (Node::Verifier(1), Ballot::Ask { place: 2 }, 1, false),
    (
        Node::Verifier(1),
        Ballot::Accept {
            view: 2,
            place: 1,
            decree: DECREE,
        },
        1,
        false,
    ),
    (
        Node::Verifier(1),
        Ballot::Stands {
            place: 5,
            standing: STANDING,
        },
        0,
        true,
    ),
    (Node::Verifier(2), Ballot::Ask { place: 5 }, 1, false),
];

const STANDING: Standing = Standing {
    n: 3,
    token: Token([9; 32]),
    epoch: 3,
    start: 2,
};

fn holds(is_so: bool) -> Result<(), Fault> {
    if is_so { Ok(()) } else { Err(Fault::NotOpen) }
}

/// Whether it is stopped, and stays so.
fn is_stopped(alloc: Global, verifier: &mut Verifier<MemKeeper<Text>>) -> bool {
    let again = handle(alloc, verifier, Input::Suspect);
    matches!(again, Err(Fault::Stopped)) && !verifier.is_up()
}

fn has_record(
    alloc: Global,
    verifier: &mut Verifier<MemKeeper<Text>>,
    bytes: &[u8],
) -> Result<bool, Fault> {
    let kept = record(alloc, verifier.keeper())?;
    Ok(kept.as_slice() == bytes)
}

/// Does the input, and gives the number of letters; or `NoMemory`, and then it is stopped with its old
/// record.
fn answers(
    alloc: Global,
    verifier: &mut Verifier<MemKeeper<Text>>,
    input: Input,
    before: &[u8],
) -> Result<usize, Fault> {
    match handle(alloc, verifier, input) {
        Ok(sent) => Ok(sent.len()),
        Err(fault) => {
            let stops = is_stopped(alloc, verifier) && has_record(alloc, verifier, before)?;
            holds(stops && fault == Fault::NoMemory)?;
            Err(fault)
        }
    }
}

/// Does the input: the letters that were expected, and the record is another if it is to be saved.
fn does(
    alloc: Global,
    verifier: &mut Verifier<MemKeeper<Text>>,
    input: Input,
    letters: usize,
    saves: bool,
) -> Result<(), Fault> {
    let before = record(alloc, verifier.keeper())?;
    let sent = answers(alloc, verifier, input, before.as_slice())?;
    let is_old = has_record(alloc, verifier, before.as_slice())?;
    holds(sent == letters && is_old != saves)
}

fn all_of(
    alloc: Global,
    verifier: &mut Verifier<MemKeeper<Text>>,
    lines: &[Line],
) -> Result<(), Fault> {
    for line in lines {
        let (from, body, letters, saves) = *line;
        let to = Node::Verifier(0);
        let letter = Input::Letter(Letter { from, to, body });
        does(alloc, verifier, letter, letters, saves)?;
    }
    Ok(())
}

/// Each line; then it forgets its first decree, and is told what stands at a later place.
fn each_line(alloc: Global, verifier: &mut Verifier<MemKeeper<Text>>) -> Result<(), Fault> {
    all_of(alloc, verifier, &LINES)?;
    does(alloc, verifier, Input::Trim { place: 1 }, 0, true)?;
    all_of(alloc, verifier, &LATER)?;
    does(alloc, verifier, Input::Suspect, 3, true)
}

/// Why it was not opened: `NoMemory`, and then its keeper has the record that it had.
fn refusal(
    alloc: Global,
    fault: Fault,
    keeper: &MemKeeper<Text>,
    before: &[u8],
) -> Result<Fault, Fault> {
    let after = record(alloc, keeper)?;
    holds(fault == Fault::NoMemory && after.as_slice() == before)?;
    Ok(fault)
}

/// The verifier of the keeper that has this record; it has so many letters.
fn opened_over(
    alloc: Global,
    keeper: MemKeeper<Text>,
    before: &[u8],
    letters: usize,
) -> Result<Verifier<MemKeeper<Text>>, Fault> {
    match open(alloc, 1, 0, keeper) {
        Ok((verifier, sent)) => {
            holds(sent.len() == letters)?;
            Ok(verifier)
        }
        Err((fault, keeper)) => Err(refusal(alloc, fault, &keeper, before)?),
    }
}

fn opened(
    alloc: Global,
    keeper: MemKeeper<Text>,
    letters: usize,
) -> Result<Verifier<MemKeeper<Text>>, Fault> {
    let before = record(alloc, &keeper)?;
    opened_over(alloc, keeper, before.as_slice(), letters)
}

/// One with this record is opened, and asks the others for decrees.
fn restarted(alloc: Global, bytes: &[u8]) -> Result<(), Fault> {
    drop(opened(alloc, keeper_of(alloc, bytes)?, 2)?);
    Ok(())
}

/// Each line, and a restart: also if a line was refused some memory, which is there then.
fn row(alloc: Global) -> Result<(), Fault> {
    let mut verifier = opened(alloc, MemKeeper::new(), 0)?;
    let played = each_line(alloc, &mut verifier);
    let bytes = record(alloc, &verifier.end())?;
    let again = restarted(alloc, &bytes);
    holds(played.is_ok() || again.is_ok())?;
    played?;
    again
}

#[test]
fn each_line_answers_with_ample_memory(rt: HostRuntime) -> Result<(), Fail> {
    assert!(rt; row(rt.alloc()) == Ok(()));
    Ok(())
}

#[test]
fn a_refused_growth_stops_it_with_its_old_record(rt: HostRuntime) -> Result<(), Fail> {
    let row = row(rt.alloc());
    assert!(rt; row == Ok(()) || row == Err(Fault::NoMemory));
    Ok(())
}

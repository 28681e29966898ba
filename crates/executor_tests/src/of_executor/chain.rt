//! Chains of tentative states: members that are pushed, committed in order, or undone together.

use super::*;
use rollback::{Chain, MOST_MEMBERS};
use states::Version;
use std::test::Fail;

/// Executes the batch of this number over a base: one `set` of `a`, by the client of the same number.
fn execute_next(alloc: Global, base: &Base, number: u8) -> Result<Tentative, Fault> {
    let mut bytes = Vec::new(alloc);
    add_batch_head(&mut bytes, number, 1)?;
    add_set(&mut bytes, number, b'a')?;
    run(alloc, base, bytes.as_slice(), false)
}

/// Pushes a tentative state, which is undone if the chain does not take it.
fn push(chain: &mut Chain, tentative: Tentative) -> Result<(), Fault> {
    match chain.push(tentative) {
        Ok(()) => Ok(()),
        Err((fault, back)) => {
            drop(back.undo());
            Err(fault)
        }
    }
}

/// Executes the batch of this number over the tip, and pushes what it makes.
fn push_next(alloc: Global, chain: &mut Chain, number: u8) -> Result<(), Fault> {
    let tentative = execute_next(alloc, chain.tip(), number)?;
    push(chain, tentative)
}

/// Pushes another member over the tip before the one that batch 1 makes of it.
fn push_both(alloc: Global, chain: &mut Chain) -> Result<(), Fault> {
    let other = execute_next(alloc, chain.tip(), 1)?;
    let pushed = push_next(alloc, chain, 1);
    let refused = push(chain, other);
    pushed?;
    refused
}

/// Commits by the decree of the member at the index, or by a rollback if there is none; tells how many
/// replies came with what was committed.
fn commit_by(chain: &mut Chain, index: usize) -> Option<usize> {
    let decree = match chain.members().get(index) {
        None => Decree::Rollback,
        Some(member) => Decree::Commit {
            n: member.number(),
            token: member.token(),
        },
    };
    let replies = chain.commit_first(&decree)?;
    Some(replies.len())
}

fn add_saved(alloc: Global, chain: &Chain, record: &mut Vec<u8>) -> Result<(), AllocError> {
    chain.saved(alloc)?.put(alloc, record)
}

/// The record of a chain.
fn record_of(alloc: Global, chain: &Chain) -> Result<Vec<u8>, AllocError> {
    let mut record = Vec::new(alloc);
    add_saved(alloc, chain, &mut record)?;
    Ok(record)
}

/// The record of the chain of this version at the front of the bytes, and how many bytes are behind it;
/// nothing if there is no such chain.
pub fn taken_chain(
    alloc: Global,
    version: Version,
    bytes: &[u8],
) -> Result<Option<(Vec<u8>, usize)>, Fault> {
    match Chain::take(alloc, version, bytes) {
        Ok((chain, rest)) => {
            let record = record_of(alloc, &chain);
            drop(chain.end());
            Ok(Some((record?, rest.len())))
        }
        Err(Fault::BadRecord) => Ok(None),
        Err(fault) => Err(fault),
    }
}

fn add_first_state(alloc: Global, parts: &mut Vec<u8>) -> Result<(), AllocError> {
    let first = Committed::first(alloc)?;
    first.write(parts)
}

/// The record of the first state, a count, and the record of the chain's one member.
fn add_parts(alloc: Global, parts: &mut Vec<u8>, chain: &Chain) -> Result<(), AllocError> {
    add_first_state(alloc, parts)?;
    parts.push(1)?;
    match chain.members() {
        [member] => member.write(parts),
        _ => Ok(()),
    }
}

/// Whether they are the record of the chain.
fn is_in_parts(alloc: Global, chain: &Chain) -> Result<bool, Fault> {
    let mut parts = Vec::new(alloc);
    add_parts(alloc, &mut parts, chain)?;
    Ok(record_of(alloc, chain)? == parts)
}

/// Whether the chain is read from the bytes, and leaves so many of them.
fn is_taken(alloc: Global, bytes: &[u8], record: &[u8], left: usize) -> Result<bool, Fault> {
    match taken_chain(alloc, Version::Second, bytes)? {
        Some((again, rest)) => Ok(again.as_slice() == record && rest == left),
        None => Ok(false),
    }
}

/// How many proper fronts of a record are tried, beside the one that lacks its last byte.
const FRONTS: usize = 24;

/// Whether no chain is read from the fronts of the record that are tried.
fn refuses_fronts(alloc: Global, record: &[u8]) -> Result<bool, Fault> {
    let mut refused = true;
    for part in 0..=FRONTS {
        let len = (record.len().wrapping_mul(part) / FRONTS).min(record.len().saturating_sub(1));
        let front = record.get(..len).unwrap_or(record);
        refused = refused && taken_chain(alloc, Version::Second, front)?.is_none();
    }
    Ok(refused)
}

/// Whether the chain is read back from its record, with and without a rest, and from no front of it.
fn is_read_back(alloc: Global, chain: &Chain) -> Result<bool, Fault> {
    let mut record = record_of(alloc, chain)?;
    let len = record.len();
    record.extend_from_slice(b"rest")?;
    is_read_from(alloc, record.get(..len).unwrap_or(&[]), record.as_slice())
}

/// The same of its record, and of that with a rest of four bytes.
fn is_read_from(alloc: Global, whole: &[u8], longer: &[u8]) -> Result<bool, Fault> {
    Ok(
        is_taken(alloc, whole, whole, 0)?
            && is_taken(alloc, longer, whole, 4)?
            && refuses_fronts(alloc, whole)?,
    )
}

/// A step of a row, and what comes of it.
enum Step {
    /// The batch of this number is executed over the tip, and what it makes is pushed.
    Push(u8, Result<(), Fault>),
    /// Another member is executed over the tip before, and then pushed.
    PushBoth(Result<(), Fault>),
    /// The decree of the member at this index commits: so many replies come with it.
    Commit(usize, Option<usize>),
    UndoAll,
    /// It has so many members; the numbers of its tip and of its committed state.
    Is(usize, u64, u64),
    /// Its record is that of its parts.
    IsInParts,
    IsReadBack,
}

/// There is no member at this index, so the decree is a rollback.
const ROLLBACK: Step = Step::Commit(9, None);

/// Steps of a chain over the first state, and the number of the state in which it ends.
const ROWS: [(&str, &[Step], u64); 6] = [
    (
        "a_chain_takes_four_members",
        &[
            Step::Push(1, Ok(())),
            Step::Push(2, Ok(())),
            Step::Push(3, Ok(())),
            Step::Push(4, Ok(())),
            Step::Push(5, Err(Fault::Full)),
            Step::Is(MOST_MEMBERS, 4, 0),
            Step::Commit(0, Some(1)),
            Step::Is(3, 4, 1),
            Step::Push(5, Ok(())),
            Step::Is(MOST_MEMBERS, 5, 1),
        ],
        1,
    ),
    (
        "members_are_committed_in_order",
        &[
            Step::Push(1, Ok(())),
            Step::Push(2, Ok(())),
            Step::Push(3, Ok(())),
            Step::Push(4, Ok(())),
            Step::Commit(1, None),
            Step::Is(MOST_MEMBERS, 4, 0),
            Step::Commit(0, Some(1)),
            Step::Is(3, 4, 1),
            Step::Commit(0, Some(1)),
            Step::Is(2, 4, 2),
            Step::Commit(0, Some(1)),
            Step::Is(1, 4, 3),
            Step::Commit(0, Some(1)),
            Step::Is(0, 4, 4),
            Step::Commit(0, None),
        ],
        4,
    ),
    (
        "a_rollback_undoes_all_members",
        &[
            Step::Push(1, Ok(())),
            Step::Push(2, Ok(())),
            Step::Push(3, Ok(())),
            Step::Push(4, Ok(())),
            ROLLBACK,
            Step::Is(MOST_MEMBERS, 4, 0),
            Step::UndoAll,
            Step::Push(1, Ok(())),
            Step::Is(1, 1, 0),
        ],
        0,
    ),
    (
        "a_member_over_another_state_is_refused",
        &[Step::PushBoth(Err(Fault::Unfit)), Step::Is(1, 1, 0)],
        0,
    ),
    (
        "the_record_of_a_chain",
        &[Step::Push(1, Ok(())), Step::Is(1, 1, 0), Step::IsInParts],
        0,
    ),
    (
        "a_chain_is_read_back",
        &[
            Step::Push(1, Ok(())),
            Step::Push(2, Ok(())),
            Step::Push(3, Ok(())),
            Step::Push(4, Ok(())),
            Step::Commit(0, Some(1)),
            Step::Is(3, 4, 1),
            Step::IsReadBack,
        ],
        1,
    ),
];

fn is(chain: &Chain, len: usize, tip: u64, committed: u64) -> bool {
    (chain.len(), chain.is_empty()) == (len, len == 0)
        && (chain.tip().number(), chain.committed().number()) == (tip, committed)
}

/// Does the step: whether what comes of it is right.
fn does(alloc: Global, chain: &mut Chain, step: &Step) -> Result<bool, Fault> {
    match step {
        Step::Push(number, given) => Ok(push_next(alloc, chain, *number) == *given),
        Step::PushBoth(given) => Ok(push_both(alloc, chain) == *given),
        Step::Commit(index, replies) => Ok(commit_by(chain, *index) == *replies),
        Step::UndoAll => {
            chain.undo_all();
            Ok(true)
        }
        Step::Is(len, tip, committed) => Ok(is(chain, *len, *tip, *committed)),
        Step::IsInParts => is_in_parts(alloc, chain),
        Step::IsReadBack => is_read_back(alloc, chain),
    }
}

/// How many of the steps are right, one after the other.
fn done(alloc: Global, chain: &mut Chain, steps: &[Step]) -> Result<usize, Fault> {
    for (place, step) in steps.iter().enumerate() {
        if !does(alloc, chain, step)? {
            return Ok(place);
        }
    }
    Ok(steps.len())
}

fn first_chain(alloc: Global) -> Result<Chain, Fault> {
    let (chain, _) = Chain::new(alloc, Committed::first(alloc)?)?;
    Ok(chain)
}

/// How many steps of a chain over the first state are right, and the number of the state in which it
/// ends.
fn played(alloc: Global, steps: &[Step]) -> Result<(usize, u64), Fault> {
    let mut chain = first_chain(alloc)?;
    let done = done(alloc, &mut chain, steps);
    let end = chain.end().state().number();
    Ok((done?, end))
}

#[test]
fn chains_go_so(rt: HostRuntime) -> Result<(), Fail> {
    for (name, steps, end) in &ROWS {
        assert_eq!(rt;
            played(rt.alloc(), *steps),
            Ok((steps.len(), *end)),
            "{}",
            name
        );
    }
    Ok(())
}

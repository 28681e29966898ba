//! An executor that an older program left with one tentative state: its token is told again as it was,
//! that token commits it, and what follows has a token of today.

use crate::old_bytes::{
    COMMITTED, NEXT, NOW, OLD, Record, STOPPED, TOKEN, TOKEN_OF_TODAY, spelled,
};
use crate::old_records::TELL_NEXT;
use crate::records::keeper_of;
use crate::tests::{Executor, Kept, execute, is_stored, opened, receive, record, request, says};
use decrees::{Ballot, Decree, Letter, Node};
use exec_lines::Body;
use proto::Fault;
use std::alloc::Global;
use std::test::Fail;
use token::Token;

/// It hears that the state of number 1 and this token is committed.
fn commit(
    alloc: Global,
    executor: &mut Executor,
    token: [u8; 32],
) -> Result<Vec<Letter<Body>>, Fault> {
    let decree = Decree::Commit {
        n: 1,
        token: Token(token),
    };
    let ballot = Ballot::Decided { place: 1, decree };
    receive(alloc, executor, Node::Verifier(0), Body::Ballot(ballot))
}

/// Client 1 asks this request.
fn want(alloc: Global, executor: &mut Executor, number: u8) -> Result<Vec<Letter<Body>>, Fault> {
    let body = Body::Want(request(alloc, number)?);
    receive(alloc, executor, Node::Client(1), body)
}

/// Whether the executor's record is this one, of today.
fn has(alloc: Global, executor: &mut Executor, expected: Record) -> Result<bool, Fault> {
    let keeper: &Kept = executor.keeper();
    let kept = record(alloc, keeper)?;
    Ok(kept == spelled(alloc, NOW, expected)?)
}

/// What is expected of an executor that opens with an old record.
#[derive(Clone, Copy)]
enum Expected {
    /// The old token commits its tentative state, of which its client is answered, and once more if it asks again.
    IsCommitted,
    /// The token that its state would have today is that of another state: none is answered, and the tentative state
    /// is undone.
    IsUndone,
    /// The next batch makes a state of today's form over the old one, and is told over the old token.
    GoesOn,
    /// A client is answered of its committed state.
    AnswersAgain,
}

fn is_so(alloc: Global, executor: &mut Executor, expected: Expected) -> Result<bool, Fault> {
    match expected {
        Expected::IsCommitted => Ok(
            is_stored(commit(alloc, executor, TOKEN)?.as_slice())
                && has(alloc, executor, COMMITTED)?
                && is_stored(want(alloc, executor, 1)?.as_slice()),
        ),
        Expected::IsUndone => Ok(
            commit(alloc, executor, TOKEN_OF_TODAY)?.is_empty()
                && commit(alloc, executor, TOKEN)?.is_empty(),
        ),
        Expected::GoesOn => {
            drop(commit(alloc, executor, TOKEN)?);
            drop(want(alloc, executor, 2)?);
            Ok(
                says(execute(alloc, executor)?.as_slice(), &[TELL_NEXT])
                    && has(alloc, executor, NEXT)?,
            )
        }
        Expected::AnswersAgain => Ok(
            is_stored(want(alloc, executor, 1)?.as_slice()) && has(alloc, executor, COMMITTED)?,
        ),
    }
}

fn is_row(alloc: Global, (record, expected): (Record, Expected)) -> Result<bool, Fault> {
    let old = spelled(alloc, OLD, record)?;
    let (mut executor, _) = opened(alloc, keeper_of(alloc, old.as_slice())?)?;
    let is_so = is_so(alloc, &mut executor, expected);
    drop(executor.end());
    is_so
}

const ROWS: [(Record, Expected); 4] = [
    (STOPPED, Expected::IsCommitted),
    (STOPPED, Expected::IsUndone),
    (STOPPED, Expected::GoesOn),
    (COMMITTED, Expected::AnswersAgain),
];

#[test]
fn an_executor_goes_on_from_an_old_record(rt: HostRuntime) -> Result<(), Fail> {
    for (place, row) in ROWS.iter().enumerate() {
        assert_eq!(rt; is_row(rt.alloc(), *row), Ok(true), "row {place}");
    }
    Ok(())
}

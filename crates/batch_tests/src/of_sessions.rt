//! Replies that are kept of clients, and which request of a client is its next.

use crate::requests::{Says, ask, keep};
use proto::Reply;
use sessions::Sessions;
use std::alloc::{AllocError, Global};
use std::test::Fail;

/// A reply that is kept: the client, the number of its request, and the reply.
type Keep = (u16, u64, Says);

/// What is found of a client: the number of its last request and the reply, if any is kept.
type Found = (u16, Option<(u64, Says)>);

fn keep_all(alloc: Global, sessions: &mut Sessions, kept: &[Keep]) -> Result<(), AllocError> {
    for (client, number, says) in kept {
        keep(alloc, sessions, *client, *number, *says)?;
    }
    Ok(())
}

/// Whether just this is found of each of these clients.
fn are_found(sessions: &Sessions, found: &[Found]) -> bool {
    for (client, wanted) in found {
        let is_found = match (sessions.kept(*client), wanted) {
            (None, None) => true,
            (Some((number, reply)), Some((wanted, says))) => {
                number == *wanted
                    && match (reply, says) {
                        (Reply::Stored, Says::Stored) => true,
                        (Reply::Deleted, Says::Deleted) => true,
                        (Reply::NotFound, Says::NotFound) => true,
                        (Reply::Number(number), Says::Number(wanted)) => number == wanted,
                        _ => false,
                    }
            }
            _ => false,
        };
        if !is_found {
            return false;
        }
    }
    true
}

/// Whether each of these requests is the next of its client, or is not.
fn are_next(
    alloc: Global,
    sessions: &Sessions,
    asked: &[(u16, u64, bool)],
) -> Result<bool, AllocError> {
    for (client, number, is_next) in asked {
        if sessions.fresh(&ask(alloc, *client, *number)?) != *is_next {
            return Ok(false);
        }
    }
    Ok(true)
}

/// A test's name, what is kept in new sessions, and the requests that are then the next ones, or are not.
type Row = (&'static str, &'static [Keep], &'static [(u16, u64, bool)]);

const ROWS: [Row; 3] = [
    (
        "the first request of a client runs first",
        &[],
        &[(7, 1, true), (7, 2, false)],
    ),
    (
        "requests of a client run in order",
        &[(7, 1, Says::Stored)],
        &[(7, 1, false), (7, 2, true), (8, 1, true)],
    ),
    (
        "after the last number nothing is fresh",
        &[(7, u64::MAX, Says::Stored)],
        &[(7, 1, false), (7, u64::MAX, false)],
    ),
];

fn holds(alloc: Global, row: &Row) -> Result<bool, AllocError> {
    let mut sessions = Sessions::new(alloc)?;
    keep_all(alloc, &mut sessions, row.1)?;
    are_next(alloc, &sessions, row.2)
}

/// What is kept at first.
const THREE: [Keep; 3] = [
    (9, 1, Says::Deleted),
    (3, 1, Says::NotFound),
    (9, 2, Says::Number(4)),
];

/// What a copy has of it, then and later.
const OF_THREE: [Found; 3] = [
    (9, Some((2, Says::Number(4)))),
    (3, Some((1, Says::NotFound))),
    (4, None),
];

/// What is kept after the copy.
const TWO_MORE: [Keep; 2] = [(9, 3, Says::Stored), (4, 1, Says::Stored)];

/// What is then found where it was kept.
const OF_FIVE: [Found; 2] = [(9, Some((3, Says::Stored))), (3, Some((1, Says::NotFound)))];

/// Whether a copy has what is kept, and stays as it was.
fn is_copied(alloc: Global, sessions: &mut Sessions) -> Result<bool, AllocError> {
    keep_all(alloc, sessions, &THREE)?;
    let copy = sessions.clone()?;
    let entries = copy.entries();
    let has_both = entries.len() == 2 && *entries[0].key() == 3 && *entries[1].key() == 9;
    let is_same = has_both && are_found(&copy, &OF_THREE);
    keep_all(alloc, sessions, &TWO_MORE)?;
    Ok(is_same && are_found(sessions, &OF_FIVE) && are_found(&copy, &OF_THREE))
}

/// Keeps request 1 of each of a thousand clients, from the last to the first, with the client as the reply.
fn keep_a_thousand(alloc: Global, sessions: &mut Sessions) -> Result<(), AllocError> {
    for below in 0..1000u16 {
        let client = 1000 - below;
        keep(alloc, sessions, client, 1, Says::Number(u64::from(client)))?;
    }
    Ok(())
}

/// Whether of each of them is kept request 1 and the client, and of no other anything.
fn has_a_thousand(sessions: &Sessions) -> bool {
    for client in 1..1001u16 {
        let wanted = Some((1, Says::Number(u64::from(client))));
        if !are_found(sessions, &[(client, wanted)]) {
            return false;
        }
    }
    sessions.entries().len() == 1000 && are_found(sessions, &[(1001, None)])
}

/// Whether a copy stays as it was, and then new sessions keep a thousand clients.
fn hold_more(alloc: Global, sessions: &mut Sessions) -> Result<bool, AllocError> {
    let copied = is_copied(alloc, sessions)?;
    *sessions = Sessions::new(alloc)?;
    keep_a_thousand(alloc, sessions)?;
    Ok(copied && has_a_thousand(sessions))
}

#[test]
fn rows_of_sessions(rt: HostRuntime) -> Result<(), Fail> {
    for row in &ROWS {
        assert!(rt; holds(rt.alloc(), row)?, "{}", row.0);
    }
    assert!(rt;
        hold_more(rt.alloc(), &mut Sessions::new(rt.alloc())?)?,
        "copies and a thousand"
    );
    Ok(())
}

//! Letters that have no ballot, and their bytes by hand.

use crate::rows::{Part, bytes_of, is_strict};
use decrees::{Letter, Node};
use exec_lines::Body;
use letters::read;
use proto::Fault;
use std::alloc::Global;
use std::test::Fail;

/// What tells a letter from the others here.
#[derive(Clone, Copy, PartialEq, Eq)]
enum Shown {
    /// The request's client and number.
    Want(u16, u64),
    /// The batch's epoch, number and moment, and how many requests it has.
    Order(u64, u64, u32, usize),
    /// The request's number.
    Reply(u64),
    /// The number of the state.
    Need(u64),
    Parcel(u64),
    Ballot,
}

/// A letter, and its text.
#[derive(Clone, Copy)]
struct Row {
    name: &'static str,
    from: Node,
    to: Node,
    shown: Shown,
    text: &'static [Part<'static>],
}

const ONE: &[u8] = &[0, 0, 0, 0, 0, 0, 0, 1];

const ROWS: [Row; 8] = [
    Row {
        name: "a client asks",
        from: Node::Client(258),
        to: Node::Executor(0),
        shown: Shown::Want(258, 7),
        text: &[
            (&[0, 1, 2, 1, 0, 0], 1),
            (&[1, 2, 0, 0, 0, 0, 0, 0, 0, 7], 1),
            (&[0, 0, 0, 0, 1, 1, b'a'], 1),
        ],
    },
    Row {
        name: "a batch without requests",
        from: Node::Executor(0),
        to: Node::Executor(1),
        shown: Shown::Order(3, 1, 1000, 0),
        text: &[
            (&[1, 0, 1, 1, 1, 4], 1),
            (&[0, 0, 0, 0, 0, 0, 0, 3], 1),
            (ONE, 1),
            (&[0, 0, 3, 232, 0, 0, 0, 0], 1),
        ],
    },
    Row {
        name: "a batch of two requests",
        from: Node::Executor(0),
        to: Node::Executor(2),
        shown: Shown::Order(1, 1, 1000, 2),
        text: &[
            (&[1, 0, 1, 2, 1, 4], 1),
            (ONE, 2),
            (&[0, 0, 3, 232, 0, 0, 0, 2], 1),
            (&[0, 1], 1),
            (ONE, 1),
            (&[2, 1, b'a', 0, 0, 0, 0, 0, 0, 0, 0, 0, 0, 0, 1, b'5'], 1),
            (&[0, 2], 1),
            (ONE, 1),
            (&[8, 1, b'a'], 1),
        ],
    },
    Row {
        name: "what was stored is told",
        from: Node::Executor(1),
        to: Node::Client(1),
        shown: Shown::Reply(1),
        text: &[(&[1, 1, 0, 0, 1, 2], 1), (ONE, 1), (&[0], 1)],
    },
    Row {
        name: "a number is told",
        from: Node::Executor(1),
        to: Node::Client(1),
        shown: Shown::Reply(1),
        text: &[(&[1, 1, 0, 0, 1, 2], 1), (ONE, 1), (&[6], 1), (ONE, 1)],
    },
    Row {
        name: "an item is told",
        from: Node::Executor(1),
        to: Node::Client(1),
        shown: Shown::Reply(0),
        text: &[
            (&[1, 1, 0, 0, 1, 2], 1),
            (&[0], 8),
            (
                &[7, 0, 0, 0, 1, 1, b'a', 0, 0, 0, 0, 0, 0, 0, 1, b'5', 1],
                1,
            ),
            (&[0, 0, 0, 0, 0, 0, 0, 64], 1),
        ],
    },
    Row {
        name: "an executor needs a state",
        from: Node::Executor(2),
        to: Node::Executor(0),
        shown: Shown::Need(1),
        text: &[
            (&[1, 2, 1, 0, 3], 1),
            (ONE, 1),
            (&[0, 0, 1, 0], 1),
            (&[6], 32 * 256),
        ],
    },
    Row {
        name: "a state is sent",
        from: Node::Executor(0),
        to: Node::Executor(2),
        shown: Shown::Parcel(1),
        text: &[
            (&[1, 0, 1, 2, 4, 2], 1),
            (ONE, 1),
            (&[7], 32),
            (&[0, 0, 0, 0, 0, 0, 0, 4], 1),
            (&[9], 32),
            (&[0, 0, 3, 232], 1),
            (&[3, 0, 0, 0, 1, 0, 1, 0, 0, 0, 0, 0, 0, 0, 1, 0], 1),
            (&[0, 0, 0, 1, 33, 0, 0, 0, 0, 1, 1, b'!'], 1),
            (&[0, 0, 0, 0, 0], 1),
            (&[0, 0, 0, 0, 0, 0, 0, 64, 0, 0, 0, 1, b'2'], 1),
        ],
    },
];

fn shown_of(body: &Body) -> Shown {
    match body {
        Body::Want(request) => Shown::Want(request.client, request.number),
        Body::Order(batch) => {
            Shown::Order(batch.epoch, batch.n, batch.moment, batch.requests.len())
        }
        Body::Reply { number, .. } => Shown::Reply(*number),
        Body::Need(need) => Shown::Need(need.number),
        Body::Parcel(parcel) => Shown::Parcel(parcel.number()),
        Body::Ballot(_) => Shown::Ballot,
    }
}

/// Whether it is the letter of the row.
fn is_of(letter: &Letter<Body>, row: &Row) -> bool {
    letter.from == row.from && letter.to == row.to && shown_of(&letter.body) == row.shown
}

/// Whether the letter of the row is read of its bytes.
fn is_read(alloc: Global, row: &Row) -> Result<bool, Fault> {
    let bytes = bytes_of(alloc, row.text)?;
    match read(alloc, bytes.as_slice()) {
        Ok(letter) => Ok(is_of(&letter, row)),
        Err(fault) => Err(fault),
    }
}

#[test]
fn each_kind_of_letter_is_read_of_its_text(rt: HostRuntime) -> Result<(), Fail> {
    for row in &ROWS {
        assert!(rt; is_read(rt.alloc(), row) == Ok(true), "{}", row.name);
    }
    Ok(())
}

#[test]
fn changed_texts_are_not_taken_for_the_same_letter(rt: HostRuntime) -> Result<(), Fail> {
    for row in &ROWS {
        assert!(rt; is_strict(rt.alloc(), row.text) == Ok(true), "{}", row.name);
    }
    Ok(())
}

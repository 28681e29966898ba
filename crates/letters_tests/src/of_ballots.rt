//! Each kind of ballot, and its bytes by hand.

use crate::rows::{Part, bytes_of, has_text, is_strict};
use decrees::{Ballot, Decree, Letter, Node, Standing};
use exec_lines::Body;
use letters::read;
use proto::Fault;
use std::alloc::{AllocError, Global};
use std::test::Fail;
use token::Token;

const SEVENS: Token = Token([7; 32]);

const NINES: Token = Token([9; 32]);

/// A letter that has a ballot, and its text.
#[derive(Clone, Copy)]
struct Row {
    name: &'static str,
    from: Node,
    to: Node,
    ballot: Ballot,
    text: &'static [Part<'static>],
}

const ROWS: [Row; 6] = [
    Row {
        name: "an executor tells a token",
        from: Node::Executor(2),
        to: Node::Verifier(0),
        ballot: Ballot::Token {
            epoch: 3,
            n: 260,
            previous: SEVENS,
            token: NINES,
        },
        text: &[
            (&[1, 2, 2, 0, 5, 0], 1),
            (&[0, 0, 0, 0, 0, 0, 0, 3], 1),
            (&[0, 0, 0, 0, 0, 0, 1, 4], 1),
            (&[7], 32),
            (&[9], 32),
        ],
    },
    Row {
        name: "a leader proposes a commit",
        from: Node::Verifier(1),
        to: Node::Verifier(2),
        ballot: Ballot::Accept {
            view: 1,
            place: 2,
            decree: Decree::Commit { n: 5, token: NINES },
        },
        text: &[
            (&[2, 1, 2, 2, 5, 1], 1),
            (&[0, 0, 0, 0, 0, 0, 0, 1], 1),
            (&[0, 0, 0, 0, 0, 0, 0, 2], 1),
            (&[1, 0, 0, 0, 0, 0, 0, 0, 5], 1),
            (&[9], 32),
        ],
    },
    Row {
        name: "a verifier has accepted a rollback",
        from: Node::Verifier(2),
        to: Node::Verifier(1),
        ballot: Ballot::Accepted {
            view: 1,
            place: 2,
            decree: Decree::Rollback,
        },
        text: &[
            (&[2, 2, 2, 1, 5, 2], 1),
            (&[0, 0, 0, 0, 0, 0, 0, 1], 1),
            (&[0, 0, 0, 0, 0, 0, 0, 2], 1),
            (&[0], 1),
        ],
    },
    Row {
        name: "a decree is decided",
        from: Node::Verifier(0),
        to: Node::Executor(1),
        ballot: Ballot::Decided {
            place: 513,
            decree: Decree::Commit {
                n: 6,
                token: SEVENS,
            },
        },
        text: &[
            (&[2, 0, 1, 1, 5, 3], 1),
            (&[0, 0, 0, 0, 0, 0, 2, 1], 1),
            (&[1, 0, 0, 0, 0, 0, 0, 0, 6], 1),
            (&[7], 32),
        ],
    },
    Row {
        name: "an executor asks for decrees",
        from: Node::Executor(1),
        to: Node::Verifier(1),
        ballot: Ballot::Ask { place: u64::MAX },
        text: &[(&[1, 1, 2, 1, 5, 4], 1), (&[255], 8)],
    },
    Row {
        name: "a verifier leads a view",
        from: Node::Verifier(1),
        to: Node::Verifier(0),
        ballot: Ballot::Change { view: 7 },
        text: &[(&[2, 1, 2, 0, 5, 5, 0, 0, 0, 0, 0, 0, 0, 7], 1)],
    },
];

const LATER: [Row; 3] = [
    Row {
        name: "a promise without what was accepted",
        from: Node::Verifier(0),
        to: Node::Verifier(1),
        ballot: Ballot::Promise {
            view: 7,
            known: 3,
            accepted: None,
        },
        text: &[
            (&[2, 0, 2, 1, 5, 6], 1),
            (&[0, 0, 0, 0, 0, 0, 0, 7], 1),
            (&[0, 0, 0, 0, 0, 0, 0, 3], 1),
            (&[0], 1),
        ],
    },
    Row {
        name: "a promise with what was accepted",
        from: Node::Verifier(0),
        to: Node::Verifier(1),
        ballot: Ballot::Promise {
            view: 7,
            known: 3,
            accepted: Some((4, Decree::Commit { n: 9, token: NINES })),
        },
        text: &[
            (&[2, 0, 2, 1, 5, 6], 1),
            (&[0, 0, 0, 0, 0, 0, 0, 7], 1),
            (&[0, 0, 0, 0, 0, 0, 0, 3], 1),
            (&[1, 0, 0, 0, 0, 0, 0, 0, 4], 1),
            (&[1, 0, 0, 0, 0, 0, 0, 0, 9], 1),
            (&[9], 32),
        ],
    },
    Row {
        name: "what stands after a place",
        from: Node::Verifier(2),
        to: Node::Executor(0),
        ballot: Ballot::Stands {
            place: 8,
            standing: Standing {
                n: 6,
                token: SEVENS,
                epoch: 3,
                start: 5,
            },
        },
        text: &[
            (&[2, 2, 1, 0, 5, 7], 1),
            (&[0, 0, 0, 0, 0, 0, 0, 8], 1),
            (&[0, 0, 0, 0, 0, 0, 0, 6], 1),
            (&[7], 32),
            (&[0, 0, 0, 0, 0, 0, 0, 3], 1),
            (&[0, 0, 0, 0, 0, 0, 0, 5], 1),
        ],
    },
];

/// Whether it is the letter of the row.
fn is_of(letter: &Letter<Body>, row: &Row) -> bool {
    match &letter.body {
        Body::Ballot(ballot) => {
            letter.from == row.from && letter.to == row.to && *ballot == row.ballot
        }
        _ => false,
    }
}

/// Whether the letter of the row is read of these bytes.
fn is_read(alloc: Global, row: &Row, bytes: &[u8]) -> bool {
    match read(alloc, bytes) {
        Ok(letter) => is_of(&letter, row),
        Err(_) => false,
    }
}

/// Whether these bytes are the text of the row's letter.
fn is_written(alloc: Global, row: &Row, bytes: &[u8]) -> Result<bool, AllocError> {
    let letter = Letter {
        from: row.from,
        to: row.to,
        body: Body::Ballot(row.ballot),
    };
    has_text(alloc, &letter, bytes)
}

/// Whether the letter of the row has its text, and its text is that of this letter.
fn is_so(alloc: Global, row: &Row) -> Result<bool, Fault> {
    let bytes = bytes_of(alloc, row.text)?;
    Ok(is_written(alloc, row, bytes.as_slice())? && is_read(alloc, row, bytes.as_slice()))
}

#[test]
fn each_kind_of_ballot_has_its_text(rt: HostRuntime) -> Result<(), Fail> {
    for row in &ROWS {
        assert!(rt; is_so(rt.alloc(), row) == Ok(true), "{}", row.name);
    }
    for row in &LATER {
        assert!(rt; is_so(rt.alloc(), row) == Ok(true), "{}", row.name);
    }
    Ok(())
}

#[test]
fn changed_texts_are_not_taken_for_the_same_ballot(rt: HostRuntime) -> Result<(), Fail> {
    for row in &ROWS {
        assert!(rt; is_strict(rt.alloc(), row.text) == Ok(true), "{}", row.name);
    }
    for row in &LATER {
        assert!(rt; is_strict(rt.alloc(), row.text) == Ok(true), "{}", row.name);
    }
    Ok(())
}

//! What an executor is given, as the rows of a script name it.

use crate::adopting::{made, made_over_another};
use batches::Batch;
use decrees::{Ballot, Decree, Letter, Node, Standing};
use exec_lines::{Body, Input};
use proto::{Fault, Reply};
use sessions::Request;
use std::alloc::Global;
use token::Token;
use wire::read;

pub const C1: Node = Node::Client(1);

pub const C2: Node = Node::Client(2);

pub const C3: Node = Node::Client(3);

pub const C4: Node = Node::Client(4);

pub const C5: Node = Node::Client(5);

pub const E0: Node = Node::Executor(0);

pub const E1: Node = Node::Executor(1);

pub const E2: Node = Node::Executor(2);

pub const V0: Node = Node::Verifier(0);

pub const V1: Node = Node::Verifier(1);

pub const V2: Node = Node::Verifier(2);

/// What was sent of each state, by its number: the token of the state before it, its own, and its epoch.
pub type Told = [(Token, Token, u64); 10];

/// What is known of the states before any was sent. A function, since the table would be in the proof of each
/// function that names a constant.
pub fn none_told() -> Told {
    let mut told = [(NO_TOKEN, NO_TOKEN, 0u64); 10];
    told[0] = (NO_TOKEN, FIRST_TOKEN, 1);
    told
}

/// The token of state 0.
pub const FIRST_TOKEN: Token = Token([0; 32]);

/// The token of no state.
pub const NO_TOKEN: Token = Token([7; 32]);

/// Is the number of no state in any script, so that its token is `NO_TOKEN`.
pub const NONE: u64 = 9;

/// An input. Letters have their sender first. If a state's number stands for its token, that is the
/// one that was told last.
#[derive(Clone, Copy)]
pub enum Given {
    /// A batch is to be cut, at moment 1000.
    Cut,
    /// A step at this place of the batch.
    Step(u32),
    /// The end of a group.
    Finish,
    /// What another hand made of batch 1 of this epoch, over the first state.
    Adopt(u8),
    /// And of batch 2, over another state 1 than the executor has.
    AdoptOverAnother,
    /// The request of this number: it sets `a`.
    Want(Node, u8),
    /// Request 1: it sets this key.
    Sets(Node, u8),
    /// The batch of this epoch and number.
    Order(Node, u8, u8),
    /// The batch of this text.
    OrderOf(Node, &'static [u8]),
    /// The state of this number is committed, at the place of that number.
    Commit(Node, u64),
    /// At this place this number is committed, with the token of this state.
    CommitAt(Node, u64, u64, u64),
    /// At this place is a rollback.
    Rollback(Node, u64),
    /// After the decrees up to this place this number stands with the token of this state, in the epoch
    /// of these numbers: its own, and that of its first batch.
    Stands(Node, u64, u64, u64, [u64; 2]),
    /// What this says.
    Says(Node, Ballot),
    /// A reply.
    Replies(Node),
    /// The last letter of the other executor, if two are played with.
    Heard(Node),
}

/// The token of the state of this number.
pub fn token_of(told: &Told, n: u64) -> Token {
    match told.get((n % 10) as usize) {
        Some((_, token, _)) => *token,
        None => NO_TOKEN,
    }
}

/// The request of this number, of the client that has the sender's number: it sets this key.
fn set(alloc: Global, from: Node, number: u8, key: u8) -> Result<Request, Fault> {
    let client = match from {
        Node::Client(client) => (client % 256) as u8,
        Node::Executor(id) | Node::Verifier(id) => id,
    };
    read::<Request>(
        alloc,
        &[
            0, client, 0, 0, 0, 0, 0, 0, 0, number, 2, 1, key, 0, 0, 0, 0, 0, 0, 0, 0, 0, 0, 0, 1,
            b'5',
        ],
    )
}

/// The batch of this epoch and number of client 9's request 1, that sets `a`.
pub fn batch(alloc: Global, epoch: u8, n: u8) -> Result<Batch, Fault> {
    read::<Batch>(
        alloc,
        &[
            4, 0, 0, 0, 0, 0, 0, 0, epoch, 0, 0, 0, 0, 0, 0, 0, n, 0, 0, 3, 232, 0, 0, 0, 1, 0, 9,
            0, 0, 0, 0, 0, 0, 0, 1, 2, 1, b'a', 0, 0, 0, 0, 0, 0, 0, 0, 0, 0, 0, 1, b'5',
        ],
    )
}

/// The letter to an executor.
pub fn letter(from: Node, body: Body) -> Input {
    let to = E0;
    Input::Letter(Letter { from, to, body })
}

fn decided(from: Node, place: u64, decree: Decree) -> Input {
    letter(from, Body::Ballot(Ballot::Decided { place, decree }))
}

fn stands(from: Node, place: u64, n: u64, token: Token, epoch: [u64; 2]) -> Input {
    let [epoch, start] = epoch;
    let standing = Standing {
        n,
        token,
        epoch,
        start,
    };
    letter(from, Body::Ballot(Ballot::Stands { place, standing }))
}

/// The input, with the tokens that were told.
pub fn input(alloc: Global, told: &Told, given: Given) -> Result<Input, Fault> {
    Ok(match given {
        Given::Cut => Input::Cut(1000),
        Given::Step(place) => Input::Step(place),
        Given::Finish => Input::Finish,
        Given::Adopt(epoch) => Input::Adopt(made(alloc, batch(alloc, epoch, 1)?)?),
        Given::AdoptOverAnother => Input::Adopt(made_over_another(alloc)?),
        Given::Want(from, number) => letter(from, Body::Want(set(alloc, from, number, b'a')?)),
        Given::Sets(from, key) => letter(from, Body::Want(set(alloc, from, 1, key)?)),
        Given::Order(from, epoch, n) => letter(from, Body::Order(batch(alloc, epoch, n)?)),
        Given::OrderOf(from, text) => letter(from, Body::Order(read::<Batch>(alloc, text)?)),
        Given::Commit(from, n) => {
            let token = token_of(told, n);
            decided(from, n, Decree::Commit { n, token })
        }
        Given::CommitAt(from, place, n, of) => {
            let token = token_of(told, of);
            decided(from, place, Decree::Commit { n, token })
        }
        Given::Rollback(from, place) => decided(from, place, Decree::Rollback),
        Given::Stands(from, place, n, of, epoch) => {
            stands(from, place, n, token_of(told, of), epoch)
        }
        Given::Says(from, ballot) => letter(from, Body::Ballot(ballot)),
        Given::Replies(from) => letter(
            from,
            Body::Reply {
                number: 1,
                reply: Reply::Stored,
            },
        ),
        Given::Heard(_) => return Err(Fault::NotOpen),
    })
}

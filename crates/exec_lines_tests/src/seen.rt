//! What a step left to be done, as a short text.

use crate::given::Told;
use crate::script::Place;
use decrees::{Ballot, Letter, Node};
use exec_lines::{Body, ExecutorRecord, State};
use keeper::ToText;
use proto::{Fault, Reply};
use std::alloc::{AllocError, Global};

/// So many executors may fail: there are three, and three verifiers.
pub const U: u8 = 1;

/// The executor that leads epoch 1.
pub const LEADER: u8 = 0;

/// The one that leads epoch 2.
pub const OTHER: u8 = 1;

/// `T` for a token and the number of its state, `A` for the question which decrees come from a place
/// on, and that place; `O` for an order and the batch's number, `N` for a need and `P` for a parcel and
/// the number of the state that each of them is of; `S` for STORED, and the number of its request.
fn marks(body: &Body) -> (u8, u64) {
    match body {
        Body::Order(batch) => (b'O', batch.n),
        Body::Reply {
            number,
            reply: Reply::Stored,
        } => (b'S', *number),
        Body::Need(need) => (b'N', need.number),
        Body::Parcel(parcel) => (b'P', parcel.number()),
        Body::Ballot(Ballot::Token { n, .. }) => (b'T', *n),
        Body::Ballot(Ballot::Ask { place }) => (b'A', *place),
        _ => (b'?', 0),
    }
}

/// The last digit of a number.
fn digit(number: u64) -> u8 {
    b'0' + (number % 10) as u8
}

/// A space, the mark, the number of the node that the letter goes to, and what it tells of.
fn text(letter: &Letter<Body>) -> [u8; 4] {
    let to = match letter.to {
        Node::Client(client) => u64::from(client),
        Node::Executor(id) | Node::Verifier(id) => u64::from(id),
    };
    let (mark, of) = marks(&letter.body);
    [b' ', mark, digit(to), digit(of)]
}

/// Whether these are the letters, after this mark.
pub fn are_letters(first: u8, letters: &[Letter<Body>], expected: &[u8]) -> bool {
    let mut at = 1usize;
    for letter in letters {
        let next = at.wrapping_add(4);
        if expected.get(at..next) != Some(&text(letter)) {
            return false;
        }
        at = next;
    }
    expected.first() == Some(&first) && expected.len() == at
}

/// `NotOpen` if something does not hold.
pub fn holds(is_so: bool) -> Result<(), Fault> {
    if is_so { Ok(()) } else { Err(Fault::NotOpen) }
}

/// Keeps what the last letter tells of a state.
pub fn learn(told: &mut Told, letters: &[Letter<Body>]) {
    if let Some(letter) = letters.last()
        && let Body::Ballot(
            Ballot::Token {
                epoch,
                n,
                previous,
                token,
            },
        ) = &letter.body
        && let Some(of) = told.get_mut((*n % 10) as usize)
    {
        *of = (*previous, *token, *epoch);
    }
}

/// The bytes of the record.
pub fn record(alloc: Global, (u, id): Place, state: &State) -> Result<Vec<u8>, AllocError> {
    let record = state.record(alloc, u, id)?;
    text_of(alloc, &record)
}

/// The bytes of a record.
pub fn text_of(alloc: Global, record: &ExecutorRecord) -> Result<Vec<u8>, AllocError> {
    let text = record.to_text(alloc)?;
    text.joined(alloc)
}

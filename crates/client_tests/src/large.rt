//! Large pieces, which would not be served in time if a turn cost as much as those that wait.

use crate::seen::{CLIENT, handled, holds};
use client::{Client, Input};
use proto::{Fault, Reply};
use std::alloc::{AllocError, Global};
use std::test::Fail;

/// How many lines a piece has.
const MANY: u64 = 20_000;

fn many(alloc: Global, line: &[u8]) -> Result<Vec<u8>, AllocError> {
    let mut piece = Vec::new(alloc);
    for _ in 0..MANY {
        piece.extend_from_slice(line)?;
    }
    Ok(piece)
}

/// Each request is answered, and the next one is asked.
fn answers_each(alloc: Global, client: &mut Client) -> Result<(), Fault> {
    for number in 1..MANY {
        let reply = Reply::Deleted;
        let (letters, bytes) = handled(alloc, client, Input::Reply { number, reply })?;
        holds(letters.len() == 3 && bytes.as_slice() == b"DELETED\r\n".as_slice())?;
    }
    Ok(())
}

fn feeds(alloc: Global, client: &mut Client) -> Result<(), Fault> {
    let piece = many(alloc, b"delete a\r\n")?;
    let (letters, bytes) = handled(alloc, client, Input::Feed(piece))?;
    holds(letters.len() == 3 && bytes.is_empty())
}

fn serves_many(alloc: Global) -> Result<(), Fault> {
    let mut client = Client::new(alloc, CLIENT, 1);
    feeds(alloc, &mut client)?;
    answers_each(alloc, &mut client)
}

#[test]
fn many_commands_of_one_piece_are_served_in_time(rt: HostRuntime) -> Result<(), Fail> {
    assert!(rt; serves_many(rt.alloc()) == Ok(()));
    Ok(())
}

fn are_many_errors(alloc: Global, bytes: &[u8]) -> Result<bool, AllocError> {
    let errors = many(alloc, b"ERROR\r\n")?;
    Ok(bytes == errors.as_slice())
}

fn tells(alloc: Global, client: &mut Client) -> Result<(), Fault> {
    let piece = many(alloc, b"frob\r\n")?;
    let (letters, bytes) = handled(alloc, client, Input::Feed(piece))?;
    holds(letters.is_empty() && are_many_errors(alloc, bytes.as_slice())?)
}

fn tells_many(alloc: Global) -> Result<(), Fault> {
    let mut client = Client::new(alloc, CLIENT, 1);
    tells(alloc, &mut client)
}

#[test]
fn many_texts_of_one_piece_are_given_in_time(rt: HostRuntime) -> Result<(), Fail> {
    assert!(rt; tells_many(rt.alloc()) == Ok(()));
    Ok(())
}

//! What a client's part of the server gives and asks, next to what a row says.

use crate::handed::{Handed, input};
use client::{Client, Input};
use decrees::{Letter, Node};
use exec_lines::Body;
use proto::{Command, Fault, Key, Update};
use sessions::Request;
use std::alloc::{AllocError, Global};

/// The number of the client.
pub const CLIENT: u16 = 7;

/// What is handed in, the bytes that the client is given, and what is asked of each executor: the number
/// of the request and its command as words, or nothing.
pub type Row<'a> = (Handed<'a>, &'a [u8], &'a [u8]);

fn add_words(text: &mut Vec<u8>, words: &[&[u8]]) -> Result<(), AllocError> {
    for word in words {
        text.push(b' ')?;
        text.extend_from_slice(*word)?;
    }
    Ok(())
}

fn add_keys(text: &mut Vec<u8>, keys: &[Key]) -> Result<(), AllocError> {
    for key in keys {
        add_words(text, &[key.as_slice()])?;
    }
    Ok(())
}

/// Adds the name of a command, its keys, and what a `set` stores.
fn add_command(text: &mut Vec<u8>, command: &Command) -> Result<(), AllocError> {
    match command {
        Command::Get(keys) => {
            add_words(text, &[b"get"])?;
            add_keys(text, keys.as_slice())
        }
        Command::Update(Update::Store { key, block, .. }) => {
            add_words(text, &[b"set", key.as_slice(), block.as_slice()])
        }
        Command::Update(Update::Delete { key }) => add_words(text, &[b"delete", key.as_slice()]),
        _ => Ok(text.push(b'?')?),
    }
}

/// Adds the last digit of the number, and the command.
fn add_request(text: &mut Vec<u8>, request: &Request) -> Result<(), AllocError> {
    text.push(b'0' + (request.number % 10) as u8)?;
    add_command(text, &request.command)
}

/// Whether the client wants this of the executor, as a request of its own.
fn is_asked(
    alloc: Global,
    letter: &Letter<Body>,
    executor: u8,
    asked: &[u8],
) -> Result<bool, AllocError> {
    if letter.from != Node::Client(CLIENT) || letter.to != Node::Executor(executor) {
        return Ok(false);
    }
    match &letter.body {
        Body::Want(request) => {
            let mut text = Vec::new(alloc);
            add_request(&mut text, request)?;
            Ok(request.client == CLIENT && text.as_slice() == asked)
        }
        _ => Ok(false),
    }
}

fn each_is_asked(
    alloc: Global,
    letters: &[Letter<Body>],
    asked: &[u8],
) -> Result<bool, AllocError> {
    let mut executor = 0u8;
    for letter in letters {
        if !is_asked(alloc, letter, executor, asked)? {
            return Ok(false);
        }
        executor = executor.wrapping_add(1);
    }
    Ok(true)
}

/// Whether just this is asked, of each of so many executors in their order; or nothing.
fn are_asked(
    alloc: Global,
    letters: &[Letter<Body>],
    executors: usize,
    asked: &[u8],
) -> Result<bool, AllocError> {
    if asked.is_empty() {
        return Ok(letters.is_empty());
    }
    Ok(letters.len() == executors && each_is_asked(alloc, letters, asked)?)
}

/// `NotOpen` if something does not hold.
pub fn holds(is_so: bool) -> Result<(), Fault> {
    if is_so { Ok(()) } else { Err(Fault::NotOpen) }
}

/// Whether it was stopped, and whatever comes is refused for that.
fn is_stopped(alloc: Global, client: &mut Client) -> bool {
    !client.is_up()
        && matches!(client.handle(alloc, Input::Again), Err(Fault::Stopped))
        && matches!(client.handle(alloc, Input::Hangup), Err(Fault::Stopped))
}

/// What it gives and asks. If that is refused, memory was, and it is stopped.
pub fn handled(
    alloc: Global,
    client: &mut Client,
    input: Input,
) -> Result<(Vec<Letter<Body>>, Vec<u8>), Fault> {
    match client.handle(alloc, input) {
        Ok(both) => Ok(both),
        Err(fault) => {
            holds(fault == Fault::NoMemory && is_stopped(alloc, client))?;
            Err(fault)
        }
    }
}

/// Rows of one connection, before `2 u + 1` executors.
#[derive(Clone, Copy)]
pub struct Talk {
    pub name: &'static str,
    /// How many executors may fail, 3 at most.
    pub u: u8,
    /// Whether it is closed in the end, which is no error.
    pub closes: bool,
    pub rows: &'static [Row<'static>],
}

fn plays(alloc: Global, client: &mut Client, executors: usize, row: &Row) -> Result<(), Fault> {
    let (handed, bytes, asked) = row;
    let (letters, given) = handled(alloc, client, input(alloc, *handed)?)?;
    holds(given.as_slice() == *bytes)?;
    holds(are_asked(alloc, letters.as_slice(), executors, *asked)?)
}

fn plays_all(alloc: Global, client: &mut Client, talk: &Talk) -> Result<(), Fault> {
    let executors = 2 * usize::from(talk.u) + 1;
    for row in talk.rows {
        plays(alloc, client, executors, row)?;
    }
    holds(client.is_up() && client.is_closed() == talk.closes)
}

/// Plays the rows. It is up then, and closed or not.
pub fn is_held(alloc: Global, talk: &Talk) -> Result<(), Fault> {
    let mut client = Client::new(alloc, CLIENT, talk.u.min(3));
    plays_all(alloc, &mut client, talk)
}

//! What a client's part of the server is handed.

use client::Input;
use proto::{Block, Fault, Found, Key, Reply, Values};
use std::alloc::{AllocError, Global};

/// What is handed in. A reply is to the request of its number.
#[derive(Clone, Copy)]
pub enum Handed<'a> {
    /// The next bytes of the client's connection.
    Feed(&'a [u8]),
    /// `STORED` is answered.
    Stored(u64),
    /// `DELETED` is answered.
    Deleted(u64),
    /// The item `a` is answered, of data `5`.
    Found(u64),
    Again,
    Hangup,
}

fn item(alloc: Global) -> Result<Found, AllocError> {
    let key = Key::from_slice(alloc, &[b'a'])?;
    Ok(Found {
        key,
        flags: 0,
        block: Block::from_slice(alloc, b"5")?,
        unique: None,
    })
}

fn found(alloc: Global) -> Result<Reply, Fault> {
    let mut items = Vec::new(alloc);
    items.push(item(alloc)?)?;
    match Values::try_new(items) {
        Some(values) => Ok(Reply::Values(values)),
        None => Err(Fault::NotOpen),
    }
}

pub fn input(alloc: Global, handed: Handed) -> Result<Input, Fault> {
    Ok(match handed {
        Handed::Feed(piece) => Input::Feed(Vec::from_slice(alloc, piece)?),
        Handed::Stored(number) => Input::Reply {
            number,
            reply: Reply::Stored,
        },
        Handed::Deleted(number) => Input::Reply {
            number,
            reply: Reply::Deleted,
        },
        Handed::Found(number) => Input::Reply {
            number,
            reply: found(alloc)?,
        },
        Handed::Again => Input::Again,
        Handed::Hangup => Input::Hangup,
    })
}

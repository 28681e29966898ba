//! A slot for a connection, and what its connection does.

ghost use Rattle.std.specs.Prelude.{◌≡◌, ◌⊎◌, None, IfOk, IfErr, if◌then◌else◌};
ghost use Rattle.connections.specs.Connection.{IsFedTo};
ghost use Rattle.grammar.specs.Reads.{dialect_of, with_mark};
ghost use Rattle.connections.specs.Slots.{is_of_connection, is_untaken, comes_to, stays_open, IsSaid, AnswersOne, FeedsSlot, AnswersSlot, TakesSlot, left_slot, written_slot};

use crate::connection::Connection;
use grammar::Conditions;
use loop_messages::Said;
use proto::{Fault, Reply};
use session::Ready;
use std::alloc::Global;

/// The key at which a connection is, and its number. At the key another connection may be by now.
#[derive(Clone, Copy)]
pub struct ConnectionId {
    pub key: usize,
    pub number: u64,
}

/// Whether the connection of this number is there.
pub fn is_there(slot: &Option<Connection>, number: u64) -> bool
    ensures { result ≡ is_of_connection number slot.now }
{
    match slot {
        Some(connection) => connection.number() == number,
        None => false,
    }
}

/// Whether the connection of this number is there and has a command that was not taken.
pub fn is_ready(slot: &Option<Connection>, number: u64) -> bool
    ensures { result ≡ is_untaken number slot.now }
{
    match slot {
        Some(connection) => connection.number() == number && connection.is_ready(),
        None => false,
    }
}

/// What the connection is given, with how it is then.
fn said_of(connection: &Connection, at: ConnectionId, bytes: Vec<u8>) -> Said
    ensures said { IsSaid at connection.now result }
    ensures bytes { result.bytes.items ≡ bytes.items }
{
    Said {
        key: at.key,
        number: at.number,
        bytes,
        closes: connection.is_closed(),
        waits: connection.is_waiting(),
    }
}

/// The connection reads a piece.
fn feed_one(
    connection: &mut Connection,
    alloc: Global,
    at: ConnectionId,
    piece: Vec<u8>,
    conditions: &mut Conditions,
) -> Result<Said, Fault>
    ensures ok { IfOk result (λ said. IsFedTo connection.old (with_mark (dialect_of connection.old.session.reader) conditions.old.is_full piece.items) connection.new said.bytes.items × IsSaid at connection.new said) }
    ensures same { connection.new.number ≡ connection.old.number }
    ensures only { IfErr result (λ fault. (fault ≡ Fault.NoMemory) ⊎ (fault ≡ Fault.Stopped)) }
{
    let bytes = connection.feed(alloc, piece.as_slice(), conditions)?;
    Ok(said_of(connection, at, bytes))
}

/// The connection takes the reply to its command of this number. If it fails it is given nothing, and is to be
/// closed.
fn answer_one(
    connection: &mut Connection,
    alloc: Global,
    at: ConnectionId,
    turn: u64,
    reply: Reply,
) -> Said
    ensures answers { AnswersOne at turn reply connection.old connection.new result }
    ensures same { connection.new.number ≡ connection.old.number }
{
    match connection.answer(alloc, turn, &reply) {
        Ok(bytes) => said_of(connection, at, bytes),
        Err(_) => Said::last(alloc, at.key, at.number),
    }
}

/// Only if it stays, what is there stays there.
fn settle(slot: &mut Option<Connection>, stays: bool)
    ensures { slot.new ≡ (if stays then slot.old else None) }
{
    if !stays {
        *slot = None;
    }
}

/// Whether a connection that was fed stays.
fn stays_after(fed: &Result<Said, Fault>) -> bool
    ensures { result ≡ stays_open fed.now }
{
    match fed {
        Ok(said) => !said.closes,
        Err(_) => false,
    }
}

/// The connection that is there, if there is one, reads a piece. If it is closed then, or fails, it leaves.
pub fn feed(
    slot: &mut Option<Connection>,
    alloc: Global,
    at: ConnectionId,
    piece: Vec<u8>,
    conditions: &mut Conditions,
) -> Result<Said, Fault>
    ensures { FeedsSlot at (comes_to slot.old conditions.old.is_full piece.items) slot.old slot.new result }
{
    let Some(connection) = slot else {
        return Err(Fault::Unfit);
    };
    let fed = feed_one(connection, alloc, at, piece, conditions);
    settle(slot, stays_after(&fed));
    fed
}

/// The connection that is there, if there is one, takes the reply to its command of this number. If it is closed
/// then, or fails, it leaves.
pub fn answer(
    slot: &mut Option<Connection>,
    alloc: Global,
    at: ConnectionId,
    turn: u64,
    reply: Reply,
) -> Option<Said>
    ensures { AnswersSlot at turn reply slot.old slot.new result }
{
    let Some(connection) = slot else {
        return None;
    };
    let said = answer_one(connection, alloc, at, turn, reply);
    settle(slot, !said.closes);
    Some(said)
}

/// Takes the command of the connection of this number, if it is there.
pub fn take(slot: &mut Option<Connection>, number: u64) -> Option<Ready>
    ensures { TakesSlot number slot.old slot.new result }
{
    match slot {
        Some(connection) if connection.number() == number => connection.take(),
        _ => None,
    }
}

/// The connection of this number leaves, if it is there.
pub fn leave(slot: &mut Option<Connection>, number: u64)
    ensures { slot.new ≡ left_slot number slot.old }
{
    if is_there(slot, number) {
        *slot = None;
    }
}

/// So many bytes of the connection of this number are written, if it is there.
pub fn written(slot: &mut Option<Connection>, number: u64, count: usize)
    ensures { slot.new ≡ written_slot number count slot.old }
{
    if let Some(connection) = slot {
        if connection.number() == number {
            connection.written(count);
        }
    }
}

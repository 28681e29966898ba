//! A table of slots.

ghost use Rattle.std.specs.Prelude.{◌≡◌, ◌<◌, ◌≤◌, ◌⊎◌, length, slice_set, is_some, Some, Err, OnOk, IfErr};
ghost use Rattle.connections.specs.Slots.{slot_in, comes_to, FeedsAt, AnswersAt, TakesAt, left_at, written_at, IsGrown};
ghost use Rattle.connections.specs.Slots.{is_here as is_here_in, is_untaken_in};

use crate::connection::Connection;
use crate::slots;
use crate::slots::ConnectionId;
use grammar::Conditions;
use loop_messages::Said;
use proto::{Fault, Reply};
use session::Ready;
use std::alloc::Global;

/// The most slots of a table.
pub const MOST_SLOTS: usize = 65536;

/// Whether the connection is here.
pub fn is_here(table: &Vec<Option<Connection>>, at: ConnectionId) -> bool
    ensures { result ≡ is_here_in at.number table.now.items at.key }
{
    match table.get(at.key) {
        Some(slot) => slots::is_there(slot, at.number),
        None => false,
    }
}

/// Whether the connection is here and has a command that was not taken.
pub fn is_ready(table: &Vec<Option<Connection>>, at: ConnectionId) -> bool
    ensures { result ≡ is_untaken_in at.number table.now.items at.key }
{
    match table.get(at.key) {
        Some(slot) => slots::is_ready(slot, at.number),
        None => false,
    }
}

/// Whether any connection is at this key.
pub fn is_taken(table: &Vec<Option<Connection>>, key: usize) -> bool
    ensures { result ≡ is_some (slot_in table.now.items key) }
{
    match table.get(key) {
        Some(slot) => slot.is_some(),
        None => false,
    }
}

/// Makes slots up to this key.
#[tactic(auto, using(crate::proofs::SlotLemmas::grown_pushed))]
pub fn grow_to(table: &mut Vec<Option<Connection>>, key: usize) -> Result<(), Fault>
    ensures grown { IsGrown table.old.items table.new.items }
    ensures ok { OnOk result (key < length table.new.items) }
    ensures full { result ≡ Err Fault.Full → MOST_SLOTS ≤ key }
    ensures only { IfErr result (λ fault. (fault ≡ Fault.NoMemory) ⊎ (fault ≡ Fault.Full)) }
{
    if MOST_SLOTS <= key {
        return Err(Fault::Full);
    }
    while table.len() <= key {
        table.push(None)?;
    }
    Ok(())
}

/// Puts the connection at this key.
pub fn put(table: &mut Vec<Option<Connection>>, key: usize, connection: Connection)
    requires { key < length table.old.items }
    ensures { table.new.items ≡ slice_set table.old.items key (Some connection) }
{
    table[key] = Some(connection);
}

/// Gives the connection at this key a piece.
pub fn feed(
    table: &mut Vec<Option<Connection>>,
    alloc: Global,
    at: ConnectionId,
    piece: Vec<u8>,
    conditions: &mut Conditions,
) -> Result<Said, Fault>
    ensures { FeedsAt at (comes_to (slot_in table.old.items at.key) conditions.old.is_full piece.items) table.old.items table.new.items result }
{
    match table.get_mut(at.key) {
        Some(slot) => slots::feed(slot, alloc, at, piece, conditions),
        None => Err(Fault::Unfit),
    }
}

/// Gives the connection at this key a reply to its command of this number.
pub fn answer(
    table: &mut Vec<Option<Connection>>,
    alloc: Global,
    at: ConnectionId,
    turn: u64,
    reply: Reply,
) -> Option<Said>
    ensures { AnswersAt at turn reply table.old.items table.new.items result }
{
    match table.get_mut(at.key) {
        Some(slot) => slots::answer(slot, alloc, at, turn, reply),
        None => None,
    }
}

/// Takes the command of the connection, if it is here.
pub fn take(table: &mut Vec<Option<Connection>>, at: ConnectionId) -> Option<Ready>
    ensures { TakesAt at table.old.items table.new.items result }
{
    match table.get_mut(at.key) {
        Some(slot) => slots::take(slot, at.number),
        None => None,
    }
}

/// The connection leaves, if it is here.
pub fn leave(table: &mut Vec<Option<Connection>>, at: ConnectionId)
    ensures { table.new.items ≡ left_at at table.old.items }
{
    if let Some(slot) = table.get_mut(at.key) {
        slots::leave(slot, at.number);
    }
}

/// So many bytes of the connection are written, if it is here.
pub fn written(table: &mut Vec<Option<Connection>>, at: ConnectionId, count: usize)
    ensures { table.new.items ≡ written_at at count table.old.items }
{
    if let Some(slot) = table.get_mut(at.key) {
        slots::written(slot, at.number, count);
    }
}

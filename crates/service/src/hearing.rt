//! What is heard of connections.

ghost use Rattle.std.specs.Prelude.{◌≡◌, ◌<◌, true, false, None, OnErr, IfOk};
ghost use Rattle.std.specs.VecDeque.{deque_len, deque_capacity};
ghost use Rattle.connections.specs.Slots.{slot_in, is_here, is_untaken_in, left_at, written_at, HasSameOthers};
ghost use Rattle.service.specs.Owed.{queue_with, StillRemembers};
ghost use Rattle.grammar.specs.Reads.{with_mark};
ghost use Rattle.service.specs.Service.{Hears};
ghost use Rattle.connections.specs.Told.{IsToldAt};

use crate::note::Waiting;
use connections::{ConnectionId, Connections};
use grammar::Conditions;
use loop_messages::Said;
use proto::Fault;
use std::alloc::Global;
use std::collections::VecDeque;

/// Puts a connection into the queue if a command of it waits for a proxy, since this moment in microseconds. There is
/// room for it.
pub fn enqueue(
    connections: &Connections,
    queue: &mut VecDeque<Waiting>,
    at: ConnectionId,
    since: u64,
)
    requires { deque_len queue.old < deque_capacity queue.old }
    ensures { queue.new.items ≡ queue_with (is_untaken_in at.number connections.now.table at.key) queue.old.items (record { at = at; since = since }) }
{
    if connections.is_ready(at) {
        let _ = queue.push_back(Waiting { at, since });
    }
}

/// Makes room in the queue for one more. `false`: there is no memory for it, and this connection has left.
fn has_room_for(
    connections: &mut Connections,
    queue: &mut VecDeque<Waiting>,
    at: ConnectionId,
) -> bool
    ensures queue { queue.new.items ≡ queue.old.items }
    ensures room { result ≡ true → deque_len queue.new < deque_capacity queue.new }
    ensures same { result ≡ true → connections.new ≡ connections.old }
    ensures leaves { result ≡ false → is_here at.number connections.new.table at.key ≡ false }
    ensures left { result ≡ false → connections.new ≡ record connections.old { table = left_at at connections.old.table } }
    ensures same_others { HasSameOthers at.key connections.old.table connections.new.table }
    ensures logs { connections.new ≡ record connections.old { table = connections.new.table } }
    ensures remembers { result ≡ false → StillRemembers queue.old.items queue.new.items connections.old.table connections.new.table }
{
    let has_room = queue.reserve(1).is_ok();
    if !has_room {
        connections.leave(at);
    }
    has_room
}

/// Reads a piece of what comes of a connection, under these conditions. If it asks a command it joins the queue.
pub fn hear_at(
    alloc: Global,
    connections: &mut Connections,
    queue: &mut VecDeque<Waiting>,
    at: ConnectionId,
    piece: Vec<u8>,
    conditions: &mut Conditions,
    micros: u64,
) -> Result<Said, Fault>
    ensures hears { Hears at.key at.number (with_mark connections.old.dialect conditions.old.is_full piece.items) connections.old connections.new result }
    ensures leaves { OnErr result (is_here at.number connections.new.table at.key ≡ false) }
    ensures closes { IfOk result (λ said. said.closes ≡ true → slot_in connections.new.table at.key ≡ None) }
    ensures told { IfOk result (λ said. IsToldAt at connections.old.table connections.new.table said) }
    ensures same_others { HasSameOthers at.key connections.old.table connections.new.table }
    ensures dialect { connections.new.dialect ≡ connections.old.dialect }
    ensures since { connections.new.first ≡ connections.old.first }
    ensures taken { connections.new.taken ≡ connections.old.taken }
    ensures replied { connections.new.replied ≡ connections.old.replied }
    ensures remembers { StillRemembers queue.old.items queue.new.items connections.old.table connections.new.table }
{
    if !has_room_for(connections, queue, at) {
        return Err(Fault::NoMemory);
    }
    let said = connections.hear(alloc, at, piece, conditions)?;
    enqueue(connections, queue, at, micros);
    Ok(said)
}

/// So many of the bytes that a connection was given are written. If its command may be asked now, it joins the queue.
/// `false`: there is no memory for it there, and it has left.
pub fn write_at(
    connections: &mut Connections,
    queue: &mut VecDeque<Waiting>,
    at: ConnectionId,
    count: usize,
    since: u64,
) -> bool
    ensures written { result ≡ true → connections.new ≡ record connections.old { table = written_at at count connections.old.table } }
    ensures leaves { result ≡ false → is_here at.number connections.new.table at.key ≡ false }
    ensures left { result ≡ false → connections.new ≡ record connections.old { table = left_at at connections.old.table } }
    ensures logs { connections.new ≡ record connections.old { table = connections.new.table } }
    ensures remembers { StillRemembers queue.old.items queue.new.items connections.old.table connections.new.table }
{
    if !has_room_for(connections, queue, at) {
        return false;
    }
    connections.written(at, count);
    enqueue(connections, queue, at, since);
    true
}

//! How a command is asked of a proxy.

ghost use Rattle.std.specs.Prelude.{◌≡◌, true};
ghost use Rattle.connections.specs.Slots.{is_here};
ghost use Rattle.ensemble.specs.Nodes.{IsFree};
ghost use Rattle.connections.specs.Told.{IsToldAt};
ghost use Rattle.service.specs.Steps.{AsksFor, Fails};
ghost use Rattle.service.specs.Told.{IsToldIfFailed};

use crate::assignment::Assignment;
use crate::note::Note;
use connections::{ConnectionId, Connections, Ready};
use ensemble::Ensemble;
use figures::Asked;
use loop_messages::Said;
use std::alloc::Global;

/// What came of it that a command was to be asked.
#[derive(Drop)]
pub enum Asking {
    /// There was no command, or the connection is not here any more.
    Nothing,
    /// It was asked.
    Asked(Assignment),
    /// There is no memory for it. The connection is to be closed.
    Failed(Said),
}

/// The connection, which is here, leaves, since memory ran out for its command: what it is told.
fn failed(alloc: Global, connections: &mut Connections, at: ConnectionId) -> Said
    requires { is_here at.number connections.old.table at.key ≡ true }
    ensures fails { Fails at connections.old connections.new result }
    ensures told { IsToldAt at connections.old.table connections.new.table result }
{
    match connections.drop_out(alloc, at) {
        Some(said) => said,
        // It is here.
        None => unreachable!(),
    }
}

/// The command of the connection, if it has one that may be asked, is asked of the proxy, which is free. It is noted
/// for its count.
pub fn ask(
    alloc: Global,
    connections: &mut Connections,
    ensemble: &mut Ensemble,
    at: ConnectionId,
    proxy: u16,
    note: &mut Note,
) -> Asking
    requires { IsFree ensemble.old.nodes.proxies proxy }
    ensures asks { AsksFor at proxy connections.old ensemble.old connections.new ensemble.new result }
    ensures told { IsToldIfFailed at connections.old.table connections.new.table result }
{
    let Some(ready) = connections.take(at) else {
        return Asking::Nothing;
    };
    let Ready {
        turn,
        command,
        quiet,
    } = ready;
    note.asked = Some(Asked::of(&command));
    match ensemble.ask(alloc, proxy, command, quiet) {
        Ok(number) => Asking::Asked(Assignment {
            connection: at.number,
            turn,
            proxy,
            number,
        }),
        Err(_) => Asking::Failed(failed(alloc, connections, at)),
    }
}

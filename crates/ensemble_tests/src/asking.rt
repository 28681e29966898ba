//! Commands of their bytes, as a connection reads them.

ghost use Rattle.std.specs.Prelude.{IfOk};
ghost use Rattle.memcached_spec.specs.Asked.{HasText};

use connections::{ConnectionId, Connections, Ready};
use grammar::{Conditions, Dialect};
use proto::Fault;
use std::alloc::Global;

const HERE: ConnectionId = ConnectionId { key: 0, number: 0 };

/// The first command that these bytes ask. Unfit: they ask none.
pub fn asked(alloc: Global, bytes: &[u8]) -> Result<Ready, Fault>
    ensures { IfOk result (λ ready. HasText ready.command ready.quiet) }
{
    let mut connections = Connections::new(alloc, Dialect::Profile);
    let mut piece = Vec::new(alloc);
    piece.extend_from_slice(bytes)?;
    connections.come(alloc, HERE)?;
    let mut conditions = Conditions::NONE;
    connections.hear(alloc, HERE, piece, &mut conditions)?;
    connections.take(HERE).ok_or(Fault::Unfit)
}

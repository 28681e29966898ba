//! A node as text: a mark of its kind, and its number.

ghost use Rattle.std.specs.Prelude.{◌≡◌, ◌∷◌, OnOk};
ghost use Rattle.wire.specs.Record.{Always, Puts, Takes};
ghost use Rattle.letters.specs.Letter.{node_text};

use crate::marked::put_marked;
use decrees::Node;
use proto::Fault;
use std::alloc::Global;
use wire::{Record, Sink, take_first};

/// Writes the node.
pub fn put_node<S: Sink>(node: Node, sink: &mut S) -> Result<(), S::Refusal>
    ensures { OnOk result (Puts S.holds (node_text node) sink.old sink.new) }
{
    match node {
        Node::Client(client) => put_marked(0, &client, sink),
        Node::Executor(executor) => put_marked(1, &executor, sink),
        Node::Verifier(verifier) => put_marked(2, &verifier, sink),
    }
}

fn take_client(alloc: Global, bytes: &[u8]) -> Result<(Node, &[u8]), Fault>
    ensures { Takes Always node_text (0 ∷ bytes.now) result }
{
    let (client, rest) = u16::take(alloc, bytes)?;
    Ok((Node::Client(client), rest))
}

fn take_executor(alloc: Global, bytes: &[u8]) -> Result<(Node, &[u8]), Fault>
    ensures { Takes Always node_text (1 ∷ bytes.now) result }
{
    let (executor, rest) = u8::take(alloc, bytes)?;
    Ok((Node::Executor(executor), rest))
}

fn take_verifier(alloc: Global, bytes: &[u8]) -> Result<(Node, &[u8]), Fault>
    ensures { Takes Always node_text (2 ∷ bytes.now) result }
{
    let (verifier, rest) = u8::take(alloc, bytes)?;
    Ok((Node::Verifier(verifier), rest))
}

/// The node behind this mark.
fn take_marked(alloc: Global, mark: u8, bytes: &[u8]) -> Result<(Node, &[u8]), Fault>
    ensures { Takes Always node_text (mark ∷ bytes.now) result }
{
    match mark {
        0 => take_client(alloc, bytes),
        1 => take_executor(alloc, bytes),
        2 => take_verifier(alloc, bytes),
        _ => Err(Fault::BadRecord),
    }
}

/// Reads the node at the start of the bytes, and gives the bytes after it.
pub fn take_node(alloc: Global, bytes: &[u8]) -> Result<(Node, &[u8]), Fault>
    ensures { Takes Always node_text bytes.now result }
{
    let (mark, rest) = take_first(bytes)?;
    take_marked(alloc, mark, rest)
}

//! What a letter says as text: a mark of its kind, and that as records have it.

ghost use Rattle.std.specs.Prelude.{◌≡◌, ◌∷◌, OnOk};
ghost use Rattle.wire.specs.Record.{Puts, Takes};
ghost use Rattle.letters.specs.Letter.{letter_body_text, BodyFits};

use crate::ballot::{put_ballot, take_ballot};
use crate::marked::put_marked;
use batches::Batch;
use exec_lines::Body;
use proto::{Fault, Reply};
use sessions::Request;
use std::alloc::Global;
use transfer::{Need, Parcel};
use wire::{Record, Sink, take_first};

/// Writes what is said.
pub fn put_body<S: Sink>(body: &Body, sink: &mut S) -> Result<(), S::Refusal>
    ensures { OnOk result (Puts S.holds (letter_body_text body.now) sink.old sink.new) }
{
    match body {
        Body::Want(request) => put_marked(0, request, sink),
        Body::Order(batch) => put_marked(1, batch, sink),
        Body::Reply { number, reply } => {
            put_marked(2, number, sink)?;
            reply.put(sink)
        }
        Body::Need(need) => {
            need.is_need();
            put_marked(3, need, sink)
        }
        Body::Parcel(parcel) => {
            parcel.is_parcel();
            put_marked(4, parcel, sink)
        }
        Body::Ballot(ballot) => {
            sink.put(&[5u8])?;
            put_ballot(*ballot, sink)
        }
    }
}

fn take_want(alloc: Global, bytes: &[u8]) -> Result<(Body, &[u8]), Fault>
    ensures { Takes BodyFits letter_body_text (0 ∷ bytes.now) result }
{
    let (request, rest) = Request::take(alloc, bytes)?;
    Ok((Body::Want(request), rest))
}

fn take_order(alloc: Global, bytes: &[u8]) -> Result<(Body, &[u8]), Fault>
    ensures { Takes BodyFits letter_body_text (1 ∷ bytes.now) result }
{
    let (batch, rest) = Batch::take(alloc, bytes)?;
    Ok((Body::Order(batch), rest))
}

fn take_reply(alloc: Global, bytes: &[u8]) -> Result<(Body, &[u8]), Fault>
    ensures { Takes BodyFits letter_body_text (2 ∷ bytes.now) result }
{
    let (row, rest) = <(u64, Reply)>::take(alloc, bytes)?;
    let (number, reply) = row;
    Ok((Body::Reply { number, reply }, rest))
}

fn take_need(alloc: Global, bytes: &[u8]) -> Result<(Body, &[u8]), Fault>
    ensures { Takes BodyFits letter_body_text (3 ∷ bytes.now) result }
{
    let (need, rest) = Need::take(alloc, bytes)?;
    Ok((Body::Need(need), rest))
}

fn take_parcel(alloc: Global, bytes: &[u8]) -> Result<(Body, &[u8]), Fault>
    ensures { Takes BodyFits letter_body_text (4 ∷ bytes.now) result }
{
    let (parcel, rest) = Parcel::take(alloc, bytes)?;
    Ok((Body::Parcel(parcel), rest))
}

fn take_said(alloc: Global, bytes: &[u8]) -> Result<(Body, &[u8]), Fault>
    ensures { Takes BodyFits letter_body_text (5 ∷ bytes.now) result }
{
    let (ballot, rest) = take_ballot(alloc, bytes)?;
    Ok((Body::Ballot(ballot), rest))
}

/// What is said behind this mark.
fn take_marked(alloc: Global, mark: u8, bytes: &[u8]) -> Result<(Body, &[u8]), Fault>
    ensures { Takes BodyFits letter_body_text (mark ∷ bytes.now) result }
{
    match mark {
        0 => take_want(alloc, bytes),
        1 => take_order(alloc, bytes),
        2 => take_reply(alloc, bytes),
        3 => take_need(alloc, bytes),
        4 => take_parcel(alloc, bytes),
        5 => take_said(alloc, bytes),
        _ => Err(Fault::BadRecord),
    }
}

/// Reads what is said at the start of the bytes, and gives the bytes after it.
pub fn take_body(alloc: Global, bytes: &[u8]) -> Result<(Body, &[u8]), Fault>
    ensures { Takes BodyFits letter_body_text bytes.now result }
{
    let (mark, rest) = take_first(bytes)?;
    take_marked(alloc, mark, rest)
}

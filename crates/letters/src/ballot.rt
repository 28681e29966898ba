//! A ballot as text: a mark of its kind, and its fields.

ghost use Rattle.std.specs.Prelude.{◌≡◌, ◌∷◌, OnOk};
ghost use Rattle.wire.specs.Record.{Always, Puts, Takes};
ghost use Rattle.letters.specs.Letter.{ballot_text};

use crate::marked::put_marked;
use decrees::{Ballot, Decree, Start};
use proto::Fault;
use std::alloc::Global;
use token::Token;
use wire::{Record, Sink, take_first};

/// Writes the ballot.
pub fn put_ballot<S: Sink>(ballot: Ballot, sink: &mut S) -> Result<(), S::Refusal>
    ensures { OnOk result (Puts S.holds (ballot_text ballot) sink.old sink.new) }
{
    match ballot {
        Ballot::Token {
            epoch,
            n,
            previous,
            token,
        } => put_marked(0, &(((epoch, n), previous), token), sink),
        Ballot::Accept {
            view,
            place,
            decree,
        } => put_marked(1, &((view, place), decree), sink),
        Ballot::Accepted {
            view,
            place,
            decree,
        } => put_marked(2, &((view, place), decree), sink),
        Ballot::Decided { place, decree } => put_marked(3, &(place, decree), sink),
        Ballot::Ask { place } => put_marked(4, &place, sink),
        Ballot::Change { view } => put_marked(5, &view, sink),
        Ballot::Promise {
            view,
            known,
            accepted,
        } => put_marked(6, &((view, known), accepted), sink),
        Ballot::Stands { place, standing } => put_marked(7, &Start { place, standing }, sink),
    }
}

fn take_token(alloc: Global, bytes: &[u8]) -> Result<(Ballot, &[u8]), Fault>
    ensures { Takes Always ballot_text (0 ∷ bytes.now) result }
{
    let (row, rest) = <(((u64, u64), Token), Token)>::take(alloc, bytes)?;
    let (((epoch, n), previous), token) = row;
    let ballot = Ballot::Token {
        epoch,
        n,
        previous,
        token,
    };
    Ok((ballot, rest))
}

fn take_accept(alloc: Global, bytes: &[u8]) -> Result<(Ballot, &[u8]), Fault>
    ensures { Takes Always ballot_text (1 ∷ bytes.now) result }
{
    let (row, rest) = <((u64, u64), Decree)>::take(alloc, bytes)?;
    let ((view, place), decree) = row;
    let ballot = Ballot::Accept {
        view,
        place,
        decree,
    };
    Ok((ballot, rest))
}

fn take_accepted(alloc: Global, bytes: &[u8]) -> Result<(Ballot, &[u8]), Fault>
    ensures { Takes Always ballot_text (2 ∷ bytes.now) result }
{
    let (row, rest) = <((u64, u64), Decree)>::take(alloc, bytes)?;
    let ((view, place), decree) = row;
    let ballot = Ballot::Accepted {
        view,
        place,
        decree,
    };
    Ok((ballot, rest))
}

fn take_decided(alloc: Global, bytes: &[u8]) -> Result<(Ballot, &[u8]), Fault>
    ensures { Takes Always ballot_text (3 ∷ bytes.now) result }
{
    let (row, rest) = <(u64, Decree)>::take(alloc, bytes)?;
    let (place, decree) = row;
    Ok((Ballot::Decided { place, decree }, rest))
}

fn take_ask(alloc: Global, bytes: &[u8]) -> Result<(Ballot, &[u8]), Fault>
    ensures { Takes Always ballot_text (4 ∷ bytes.now) result }
{
    let (place, rest) = u64::take(alloc, bytes)?;
    Ok((Ballot::Ask { place }, rest))
}

fn take_change(alloc: Global, bytes: &[u8]) -> Result<(Ballot, &[u8]), Fault>
    ensures { Takes Always ballot_text (5 ∷ bytes.now) result }
{
    let (view, rest) = u64::take(alloc, bytes)?;
    Ok((Ballot::Change { view }, rest))
}

fn take_promise(alloc: Global, bytes: &[u8]) -> Result<(Ballot, &[u8]), Fault>
    ensures { Takes Always ballot_text (6 ∷ bytes.now) result }
{
    let (row, rest) = <((u64, u64), Option<(u64, Decree)>)>::take(alloc, bytes)?;
    let ((view, known), accepted) = row;
    let ballot = Ballot::Promise {
        view,
        known,
        accepted,
    };
    Ok((ballot, rest))
}

fn take_stands(alloc: Global, bytes: &[u8]) -> Result<(Ballot, &[u8]), Fault>
    ensures { Takes Always ballot_text (7 ∷ bytes.now) result }
{
    let (start, rest) = Start::take(alloc, bytes)?;
    let Start { place, standing } = start;
    Ok((Ballot::Stands { place, standing }, rest))
}

/// The ballot behind this mark.
fn take_marked(alloc: Global, mark: u8, bytes: &[u8]) -> Result<(Ballot, &[u8]), Fault>
    ensures { Takes Always ballot_text (mark ∷ bytes.now) result }
{
    match mark {
        0 => take_token(alloc, bytes),
        1 => take_accept(alloc, bytes),
        2 => take_accepted(alloc, bytes),
        3 => take_decided(alloc, bytes),
        4 => take_ask(alloc, bytes),
        5 => take_change(alloc, bytes),
        6 => take_promise(alloc, bytes),
        7 => take_stands(alloc, bytes),
        _ => Err(Fault::BadRecord),
    }
}

/// Reads the ballot at the start of the bytes, and gives the bytes after it.
pub fn take_ballot(alloc: Global, bytes: &[u8]) -> Result<(Ballot, &[u8]), Fault>
    ensures { Takes Always ballot_text bytes.now result }
{
    let (mark, rest) = take_first(bytes)?;
    take_marked(alloc, mark, rest)
}

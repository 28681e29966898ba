//! The record of a state of version 1, by itself and over the state before it: without a form, and with
//! the 64 pages of the old form.

ghost use Rattle.std.specs.Prelude.{◌≡◌, IfOk};
ghost use Rattle.wire.specs.Record.{Takes};
ghost use Rattle.states.specs.State.{initial_state};
ghost use Rattle.states.specs.StateRecord.{IsFirstState};
ghost use Rattle.states.specs.OldRecord.{old_front_text, old_state_text, old_after_text, IsOldFront, IsOldState, IsOldLaterState, IsOldSuccessor};

use crate::head::Head;
use crate::old_record::{take_old_changes, take_old_pages};
use crate::origin::Told;
use crate::state::State;
use crate::within::{has_blocks_within, has_replies_within};
use batches::Batch;
use pages::Layout;
use proto::Fault;
use sessions::Sessions;
use std::alloc::{AllocError, Global};
use token::{OLD_BLOCK_BYTES, Token};
use wire::{Record, Sink};

/// The head of the old form and the sessions, whose record is a prefix of the bytes.
fn take_front(alloc: Global, bytes: &[u8]) -> Result<((Head, Sessions), &[u8]), Fault>
    ensures { Takes IsOldFront old_front_text bytes.now result }
{
    let ((told, sessions), rest) = <((Told, Token), Sessions)>::take(alloc, bytes)?;
    if !has_replies_within(&sessions, OLD_BLOCK_BYTES) {
        return Err(Fault::BadRecord);
    }
    Ok(((Head::of_old(told), sessions), rest))
}

/// The record of the first state, whose 64 pages are five zero bytes each.
#[tactic(auto, unfolding(crate::specs::OldRecord::old_state_text))]
fn first_text(alloc: Global, first: &State) -> Result<Vec<u8>, AllocError>
    requires { first.now ≡ initial_state }
    ensures { IfOk result (λ text. text.items ≡ old_state_text first.now) }
{
    let mut text = Vec::new(alloc);
    first.head().put_old(&mut text)?;
    first.put_sessions(&mut text)?;
    text.put(&[0u8; 320])?;
    Ok(text)
}

/// The first state, whose record is a prefix of the bytes.
fn take_old_first(alloc: Global, bytes: &[u8]) -> Result<(State, &[u8]), Fault>
    ensures { Takes IsFirstState old_state_text bytes.now result }
{
    let first = State::first(alloc)?;
    let text = first_text(alloc, &first)?;
    match bytes.strip_prefix(text.as_slice()) {
        Some(rest) => Ok((first, rest)),
        None => Err(Fault::BadRecord),
    }
}

/// A state that a batch led to, whose record is a prefix of the bytes.
fn take_old_later(alloc: Global, bytes: &[u8]) -> Result<(State, &[u8]), Fault>
    ensures { Takes IsOldLaterState old_state_text bytes.now result }
{
    let ((head, sessions), rest) = take_front(alloc, bytes)?;
    let (pages, rest) = take_old_pages(alloc, rest)?;
    let sealed = pages.seal(Layout::Sorted)?;
    let state = head.later(alloc, sessions, sealed)?;
    Ok((state, rest))
}

impl State {
    /// `take` of a record of version 1. A state of number 1 or more has the old form, and keeps the token
    /// that it has there, which is recomputed.
    pub(crate) fn take_old(alloc: Global, bytes: &[u8]) -> Result<(State, &[u8]), Fault>
        ensures { Takes IsOldState old_state_text bytes.now result }
    {
        let (head, _) = Head::take_old(alloc, bytes)?;
        if head.origin.number == 0 {
            take_old_first(alloc, bytes)
        } else {
            take_old_later(alloc, bytes)
        }
    }

    /// `take_after` of a record of version 1, which has no batch with a longer block than it takes. The
    /// state has the old form.
    pub(crate) fn take_old_after<'b>(
        alloc: Global,
        before: &State,
        batch: &Batch,
        bytes: &'b [u8],
    ) -> Result<(State, &'b [u8]), Fault>
        ensures { Takes (IsOldSuccessor before.now batch.now) (old_after_text before.now.items) bytes.now result }
    {
        if !has_blocks_within(batch, OLD_BLOCK_BYTES) {
            return Err(Fault::BadRecord);
        }
        let ((head, sessions), rest) = take_front(alloc, bytes)?;
        let (pages, rest) = take_old_changes(alloc, before.pages(), rest)?;
        let sealed = pages.seal(Layout::Sorted)?;
        let state = head.successor(alloc, before, batch, sessions, sealed)?;
        Ok((state, rest))
    }
}

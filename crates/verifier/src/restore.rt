//! A verifier's state from the bytes of its record.

ghost use Rattle.std.specs.Prelude.{◌≡◌, ◌+◌, ◌<◌, ◌^◌, ◌∷◌, IfOk, IfErr, OnOk, IsTrue, not, nat_lt, vec_len};
ghost use Rattle.wire.specs.Record.{Refused};
ghost use Rattle.verifier.specs.State.{VerifierState};
ghost use Rattle.verifier.specs.Record.{IsRecord};
ghost use Rattle.verifier.specs.Row.{verifier_state_of, may_be_of as may_be, is_row_of};

use crate::record::{Head, KIND, TRIMMED, WHOLE, read_trimmed, read_whole};
use crate::state::State;
use decrees::{Decree, Log, Start};
use proto::Fault;
use std::alloc::Global;
use wire::{take_first, take_mark};

/// Whether the place after so many decrees behind this one has a number.
fn counts(place: u64, count: u64) -> bool
    ensures { result ≡ nat_lt ((place + count) + 1) (2 ^ 64) }
{
    count < u64::MAX - place
}

/// Whether a record of the verifier may have these fields, with so many decrees.
fn may_be_of(u: u8, id: u8, head: &Head, start: &Start, count: u64) -> bool
    ensures { result ≡ may_be u id head.now start.now count }
{
    let numbers = head.0.0;
    numbers.0 == id && numbers.1 == u && start.could_stand() && counts(start.place, count)
}

/// The state of a verifier that goes on from these fields of a record.
fn of_row(
    alloc: Global,
    u: u8,
    id: u8,
    head: Head,
    start: Start,
    decrees: Vec<Decree>,
) -> Result<State, Fault>
    requires { vec_len decrees < 2 ^ 32 }
    ensures ok { IfOk result (λ state. state ≡ verifier_state_of head start decrees.items) }
    ensures valid { OnOk result (IsTrue (is_row_of u id head start decrees.items)) }
    ensures err { IfErr result (λ fault. Refused fault (IsTrue (not (is_row_of u id head start decrees.items)))) }
{
    if !may_be_of(u, id, &head, &start, decrees.len() as u64) {
        return Err(Fault::BadRecord);
    }
    let log = Log::restored(start, decrees)?;
    Ok(State::restored(alloc, head.0.1, head.1, log))
}

/// The state of the record of version 1 that has these bytes behind its marks.
fn of_whole(alloc: Global, u: u8, id: u8, bytes: &[u8]) -> Result<State, Fault>
    ensures ok { IfOk result (IsRecord u id (1 ∷ 86 ∷ bytes.now)) }
    ensures err { IfErr result (λ fault. Refused fault ((s : VerifierState) → IsRecord u id (1 ∷ 86 ∷ bytes.now) s → ⊥)) }
{
    let (head, decrees) = read_whole(alloc, bytes)?;
    of_row(alloc, u, id, head, Start::first(), decrees.into_vec())
}

/// The state of the record of version 2 that has these bytes behind its marks.
fn of_trimmed(alloc: Global, u: u8, id: u8, bytes: &[u8]) -> Result<State, Fault>
    ensures ok { IfOk result (IsRecord u id (2 ∷ 86 ∷ bytes.now)) }
    ensures err { IfErr result (λ fault. Refused fault ((s : VerifierState) → IsRecord u id (2 ∷ 86 ∷ bytes.now) s → ⊥)) }
{
    let ((head, start), decrees) = read_trimmed(alloc, bytes)?;
    if start.place == 0 {
        return Err(Fault::BadRecord);
    }
    of_row(alloc, u, id, head, start, decrees.into_vec())
}

/// The state of the verifier whose record these bytes are.
pub fn restore(alloc: Global, u: u8, id: u8, bytes: &[u8]) -> Result<State, Fault>
    ensures ok { IfOk result (IsRecord u id bytes.now) }
    ensures err { IfErr result (λ fault. Refused fault ((s : VerifierState) → IsRecord u id bytes.now s → ⊥)) }
{
    let (version, rest) = take_first(bytes)?;
    let rest = take_mark(rest, KIND)?;
    match version {
        WHOLE => of_whole(alloc, u, id, rest),
        TRIMMED => of_trimmed(alloc, u, id, rest),
        _ => Err(Fault::BadRecord),
    }
}

//! A schedule, from its bytes to what is shown of it.

ghost use Rattle.std.specs.Prelude.{◌≡◌, ◌⊎◌, IfOk, IfErr, OnOk, IfSome};
ghost use Rattle.std.specs.Io.KnownBytes.{Appends};
ghost use Rattle.schedules.specs.Schedule.{IsRefusedRightly};
ghost use Rattle.app.specs.Printed.{refusal_text, unread_text};
ghost use Rattle.app.specs.Play.{Shows, IsPlayFaultOf, IsPrinted, IsPrintedInPart, IsShown, IsShownInPart, IsRefused};

use crate::fault::PlayFault;
use crate::input::read_input;
use crate::making::events_of;
use crate::printing::text_of_world;
use crate::progress::Progress;
use itoa::Buffer;
use schedules::{Schedule, ScheduleFault};
use std::alloc::Global;
use std::io::{Read, Write};
use streams::{WriteOnce, write_session};
use world::play;

/// All is shown.
pub const SHOWN: u8 = 0;

/// What was read is no schedule, or memory ran out.
pub const REFUSED: u8 = 1;

/// A read or a write failed.
pub const STREAM_FAILED: u8 = 3;

/// What is shown of the schedule that the bytes spell.
fn text_of_schedule<P: Progress>(
    alloc: Global,
    bytes: &[u8],
    progress: &mut P,
) -> Result<Vec<u8>, ScheduleFault>
    ensures shown { IfOk result (λ text. Shows bytes.now text.items) }
    ensures refused { IfErr result (λ fault. IsRefusedRightly bytes.now fault) }
{
    let Schedule { config, lines } = Schedule::read(alloc, bytes)?;
    let events = events_of(alloc, &config, lines, progress)?;
    let world = play(alloc, &config, events.as_slice())?;
    let text = text_of_world(alloc, &world);
    world.end();
    Ok(text?)
}

/// What is shown of the schedule that the reader holds.
#[tactic(auto, using(crate::proofs::PlayLemmas::shown_known, crate::proofs::PlayLemmas::refused_known, crate::proofs::PlayLemmas::unread_known))]
fn text_of_input<R: Read, P: Progress>(
    alloc: Global,
    input: &mut R,
    progress: &mut P,
) -> Result<Vec<u8>, PlayFault>
    ensures shown { IfOk result (λ text. IfSome (R.remaining input.old) (λ bytes. Shows bytes text.items)) }
    ensures refused { IfErr result (λ fault. IsPlayFaultOf (R.remaining input.old) fault) }
{
    match read_input(alloc, input) {
        Ok(bytes) => match text_of_schedule(alloc, bytes.as_slice(), progress) {
            Ok(text) => Ok(text),
            Err(fault) => Err(PlayFault::Refused(fault)),
        },
        Err(fault) => Err(fault),
    }
}

/// Writes what is shown: the status.
fn show<O: WriteOnce>(out: &mut O, text: &[u8]) -> u8
    ensures status { (result ≡ SHOWN) ⊎ (result ≡ STREAM_FAILED) }
    ensures shown { result ≡ SHOWN → IsPrinted O.takes O.contents text.now out.old out.new }
    ensures in_part { result ≡ STREAM_FAILED → IsPrintedInPart O.takes O.contents text.now out.old out.new }
{
    match write_session(out, text) {
        Ok(()) => SHOWN,
        Err(_) => STREAM_FAILED,
    }
}

/// Writes the refusal. An error is that of `write_session`, of the piece that was not written whole.
fn write_refusal<E: Write>(err: &mut E, fault: ScheduleFault) -> Result<(), usize>
    ensures { OnOk result (Appends (E.contents err.old) (E.contents err.new) (refusal_text fault)) }
{
    match fault {
        ScheduleFault::NoMemory => write_session(err, b"refused: 1 NoMemory\n".as_slice()),
        ScheduleFault::BadSchedule { line } => {
            write_session(err, b"refused: 6 BadSchedule line ".as_slice())?;
            let mut buffer = Buffer::new();
            write_session(err, buffer.format(line).as_bytes())?;
            write_session(err, b"\n".as_slice())
        }
    }
}

/// Writes the refusal: the status.
fn refuse<E: Write>(err: &mut E, fault: ScheduleFault) -> u8
    ensures status { (result ≡ REFUSED) ⊎ (result ≡ STREAM_FAILED) }
    ensures refused { result ≡ REFUSED → Appends (E.contents err.old) (E.contents err.new) (refusal_text fault) }
{
    match write_refusal(err, fault) {
        Ok(()) => REFUSED,
        Err(_) => STREAM_FAILED,
    }
}

/// Writes that the file of this name cannot be read.
fn write_unread<E: Write>(err: &mut E, name: &str) -> Result<(), usize>
    ensures { OnOk result (Appends (E.contents err.old) (E.contents err.new) (unread_text name.now)) }
{
    write_session(err, b"cannot read ".as_slice())?;
    write_session(err, name.as_bytes())?;
    write_session(err, b"\n".as_slice())
}

/// Reads a schedule to its end, makes its events, plays them all from the first world on, and writes a
/// line for each node to `out`: clients, executors, verifiers. The result is a status.
///
/// `SHOWN`: all lines were written. `REFUSED`: `refused: 6 BadSchedule line K`, with the number of the
/// first bad line, or `refused: 1 NoMemory` was written to `err`, and nothing to `out`. `STREAM_FAILED`:
/// a read failed, and `cannot read` with the name was written to `err`; or a write failed, and nothing
/// was written after it. If a write to `out` failed, what was written before it is a beginning of the lines,
/// and `err` is untouched. `progress` sees each event that happens as the events are made; then they
/// are played once more, from the first world on, for what is shown.
#[tactic(auto, using(crate::proofs::PlayLemmas::all_known, crate::proofs::PlayLemmas::part_known, crate::proofs::PlayLemmas::refusal_known))]
pub fn play_text<R: Read, O: WriteOnce, E: Write, P: Progress>(
    alloc: Global,
    name: &str,
    input: &mut R,
    out: &mut O,
    err: &mut E,
    progress: &mut P,
) -> u8
    ensures status { (result ≡ SHOWN) ⊎ ((result ≡ REFUSED) ⊎ (result ≡ STREAM_FAILED)) }
    ensures shown { result ≡ SHOWN → IsShown O.takes O.contents (R.remaining input.old) out.old out.new }
    ensures shown_alone { result ≡ SHOWN → err.new ≡ err.old }
    ensures refused { result ≡ REFUSED → IfSome (R.remaining input.old) (λ bytes. IsRefused bytes (E.contents err.old) (E.contents err.new)) }
    ensures refused_alone { result ≡ REFUSED → out.new ≡ out.old }
    ensures told_in_part { result ≡ STREAM_FAILED → (out.new ≡ out.old) ⊎ (IsShownInPart O.takes O.contents (R.remaining input.old) out.old out.new × (err.new ≡ err.old)) }
{
    match text_of_input(alloc, input, progress) {
        Ok(text) => show(out, text.as_slice()),
        Err(PlayFault::Refused(fault)) => refuse(err, fault),
        Err(PlayFault::Read) => {
            let _told = write_unread(err, name);
            STREAM_FAILED
        }
    }
}

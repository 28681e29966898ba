//! A whole file.

ghost use Rattle.std.specs.Prelude.{◌≡◌, ◌+◌, ◌<◌, ◌≤◌, ◌^◌, ◌∷◌, IfOk, IfErr, None, length, map};
ghost use Rattle.std.specs.Option.{option_map};
ghost use Rattle.schedules.specs.Schedule as spec;
ghost use Rattle.schedules.specs.Reading.{size_said, clients_said, head_said, lines_said, line_view, GivesSaid};

use crate::fault::ScheduleFault;
use crate::line::{ScheduleLine, line_of};
use crate::parts::parted;
use events::Config;
use proto::number_in;
use std::alloc::Global;

/// How many clients a schedule has at most. A world may have more.
pub const MOST_CLIENTS: u16 = 64;

/// How large a world is, and what happens in it.
#[derive(Drop)]
pub struct Schedule {
    pub config: Config,
    /// In their order.
    pub lines: Vec<ScheduleLine>,
}

/// The first line, and what comes after it.
fn front_line(bytes: &[u8]) -> (&[u8], &[u8])
    requires { 0 < length bytes.now }
    ensures line { spec.lines_of bytes.now ≡ result.0.now ∷ spec.lines_of result.1.now }
    ensures shorter { length result.1.now < length bytes.now }
{
    match parted(b'\n', bytes) {
        Some((line, after)) => (line, after),
        None => bytes.split_at(bytes.len()),
    }
}

/// Whether it is empty, or begins with `#`.
fn is_skipped(line: &[u8]) -> bool
    ensures { result ≡ spec.is_skipped line.now }
{
    match line {
        [] => true,
        [b, ..] => *b == b'#',
    }
}

/// How many replicas of a kind may fail, of the line `u U`.
fn size_in(line: &[u8]) -> Option<u8>
    ensures said { result ≡ size_said line.now }
{
    let (word, digits) = parted(b' ', line)?;
    if word != b"u".as_slice() {
        return None;
    }
    match number_in(digits) {
        Some(n) if n < 4 => Some(n as u8),
        _ => None,
    }
}

/// How many clients there are, of the line `clients C`.
fn clients_in(line: &[u8]) -> Option<u16>
    ensures said { result ≡ clients_said line.now }
{
    let (word, digits) = parted(b' ', line)?;
    if word != b"clients".as_slice() {
        return None;
    }
    match number_in(digits) {
        Some(n) if 1 <= n && n <= MOST_CLIENTS as u64 => Some(n as u16),
        _ => None,
    }
}

/// The size of a world of which this is known, of the line `clients C`.
fn config_in(u: u8, line: &[u8]) -> Option<Config>
    requires { u < 4 }
    ensures { result ≡ option_map (λ clients. record { u = u; clients = clients }) (clients_said line.now) }
{
    let clients = clients_in(line)?;
    match Config::new(u, clients) {
        Ok(config) => Some(config),
        Err(_) => unreachable!(),
    }
}

/// The beginning of a file.
#[derive(Drop)]
struct Head<'a> {
    config: Config,
    /// How many lines there were so far.
    lines: u64,
    /// What comes after them.
    rest: &'a [u8],
}

/// The lines up to that of `clients`.
fn head_of(bytes: &[u8]) -> Result<Head<'_>, ScheduleFault>
    ensures said { GivesSaid (λ h. (h.config, h.lines, spec.lines_of h.rest.now)) result (head_said None 0 (spec.lines_of bytes.now)) }
    ensures count { IfOk result (λ h. h.lines + length h.rest.now ≤ length bytes.now) }
{
    let mut rest = bytes;
    let mut number = 0u64;
    let mut size = None;
    while !rest.is_empty() {
        let (line, after) = front_line(rest);
        rest = after;
        number += 1;
        if !is_skipped(line) {
            match size {
                None => match size_in(line) {
                    None => return Err(ScheduleFault::BadSchedule { line: number }),
                    Some(u) => size = Some(u),
                },
                Some(u) => {
                    return match config_in(u, line) {
                        None => Err(ScheduleFault::BadSchedule { line: number }),
                        Some(config) => Ok(Head {
                            config,
                            lines: number,
                            rest,
                        }),
                    };
                }
            }
        }
    }
    Err(ScheduleFault::BadSchedule { line: number + 1 })
}

/// What the lines say, after so many.
fn lines_in(alloc: Global, before: u64, bytes: &[u8]) -> Result<Vec<ScheduleLine>, ScheduleFault>
    requires { before + length bytes.now < 2 ^ 64 }
    ensures { GivesSaid (λ lines. map line_view lines.items) result (lines_said before (spec.lines_of bytes.now)) }
{
    let mut lines = Vec::new(alloc);
    let mut rest = bytes;
    let mut number = before;
    while !rest.is_empty() {
        let (line, after) = front_line(rest);
        rest = after;
        number += 1;
        if !is_skipped(line) {
            match line_of(alloc, line)? {
                None => return Err(ScheduleFault::BadSchedule { line: number }),
                Some(said) => lines.push(said)?,
            }
        }
    }
    Ok(lines)
}

impl Schedule {
    /// The one schedule that the bytes of a file spell. `BadSchedule` comes exactly if they spell
    /// none: it has the number of the first line that is not allowed at its place, or the one after
    /// the last line, if `u` and `clients` are missing. There is no other error than this and
    /// `NoMemory`.
    pub fn read(alloc: Global, bytes: &[u8]) -> Result<Schedule, ScheduleFault>
        ensures spelled { IfOk result (λ schedule. spec.SpellsSchedule bytes.now schedule) }
        ensures refused { IfErr result (λ fault. spec.IsRefusedRightly bytes.now fault) }
    {
        match head_of(bytes) {
            Err(fault) => Err(fault),
            Ok(head) => {
                let lines = lines_in(alloc, head.lines, head.rest)?;
                Ok(Schedule {
                    config: head.config,
                    lines,
                })
            }
        }
    }
}

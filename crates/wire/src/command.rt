ghost use Rattle.std.specs.Prelude.{◌≡◌, ◌≢◌, ◌≤◌, ◌∷◌};
ghost use Rattle.wire.specs.Record.{Always, Takes};
ghost use Rattle.wire.specs.Command.{command_text};
ghost use Rattle.wire.specs.CommandLaws.{command_prefix_free};

use crate::front::take_first;
use crate::record::Record;
use crate::sink::Sink;
use crate::update;
use proto::{Command, Fault, Keys};
use std::alloc::Global;

fn take_get(alloc: Global, bytes: &[u8]) -> Result<(Command, &[u8]), Fault>
    ensures { Takes Always command_text (0 ∷ bytes.now) result }
{
    let (keys, rest) = Keys::take(alloc, bytes)?;
    Ok((Command::Get(keys), rest))
}

fn take_gets(alloc: Global, bytes: &[u8]) -> Result<(Command, &[u8]), Fault>
    ensures { Takes Always command_text (1 ∷ bytes.now) result }
{
    let (keys, rest) = Keys::take(alloc, bytes)?;
    Ok((Command::Gets(keys), rest))
}

fn take_gat(alloc: Global, bytes: &[u8]) -> Result<(Command, &[u8]), Fault>
    ensures { Takes Always command_text (12 ∷ bytes.now) result }
{
    let (row, rest) = <(i32, Keys)>::take(alloc, bytes)?;
    let (exptime, keys) = row;
    Ok((Command::Gat(exptime, keys), rest))
}

fn take_gats(alloc: Global, bytes: &[u8]) -> Result<(Command, &[u8]), Fault>
    ensures { Takes Always command_text (13 ∷ bytes.now) result }
{
    let (row, rest) = <(i32, Keys)>::take(alloc, bytes)?;
    let (exptime, keys) = row;
    Ok((Command::Gats(exptime, keys), rest))
}

fn take_update(alloc: Global, mark: u8, bytes: &[u8]) -> Result<(Command, &[u8]), Fault>
    requires no_get { 2 ≤ mark }
    requires no_gat { mark ≢ 12 }
    requires no_gats { mark ≢ 13 }
    ensures { Takes Always command_text (mark ∷ bytes.now) result }
{
    let (update, rest) = update::take_marked(alloc, mark, bytes)?;
    Ok((Command::Update(update), rest))
}

/// The command behind this mark.
fn take_marked(alloc: Global, mark: u8, bytes: &[u8]) -> Result<(Command, &[u8]), Fault>
    ensures { Takes Always command_text (mark ∷ bytes.now) result }
{
    match mark {
        0 => take_get(alloc, bytes),
        1 => take_gets(alloc, bytes),
        12 => take_gat(alloc, bytes),
        13 => take_gats(alloc, bytes),
        _ => take_update(alloc, mark, bytes),
    }
}

impl Record for Command {
    ghost fits = { Always };

    ghost encoding = { command_text };

    fn put<S: Sink>(&self, sink: &mut S) -> Result<(), S::Refusal> {
        match self {
            Command::Get(keys) => {
                sink.put(&[0u8])?;
                keys.put(sink)
            }
            Command::Gets(keys) => {
                sink.put(&[1u8])?;
                keys.put(sink)
            }
            Command::Gat(exptime, keys) => {
                sink.put(&[12u8])?;
                exptime.put(sink)?;
                keys.put(sink)
            }
            Command::Gats(exptime, keys) => {
                sink.put(&[13u8])?;
                exptime.put(sink)?;
                keys.put(sink)
            }
            Command::Update(update) => update.put(sink),
        }
    }

    fn take<'b>(alloc: Global, bytes: &'b [u8]) -> Result<(Command, &'b [u8]), Fault> {
        let (mark, rest) = take_first(bytes)?;
        take_marked(alloc, mark, rest)
    }

    ghost prefix_free = { command_prefix_free };
}

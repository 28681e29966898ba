//! What a line asks while no more may be stored.

ghost use Rattle.std.specs.Prelude.{◌≡◌};
ghost use Rattle.grammar.specs.Limit as spec;

use crate::turn::leaves_out;
use dialect::{Notice, Show, Turn};
use proto::{Block, Command, Key, StoreVerb, Update};

/// What is shown in place of the reply, if anything is.
fn refused_show(show: Show) -> Show
    ensures { result ≡ spec.refused_show show }
{
    if leaves_out(&show) {
        Show::Quiet
    } else {
        Show::Instead(Notice::OutOfMemory)
    }
}

/// What is said in place of the command, if anything is.
fn refused_say(show: Show) -> Turn
    ensures { result ≡ spec.refused_say show }
{
    if leaves_out(&show) {
        Turn::Say(Notice::Silent)
    } else {
        Turn::Say(Notice::OutOfMemory)
    }
}

/// A storage command with this key. A `set` removes what it would have replaced: that must not be read as if the `set`
/// had not been.
fn refused_store(verb: StoreVerb, key: Key, show: Show) -> Turn
    ensures { result ≡ spec.refused_store verb key show }
{
    match verb {
        StoreVerb::Set => Turn::Ask(Command::Update(Update::Delete { key }), refused_show(show)),
        StoreVerb::Add => refused_say(show),
        StoreVerb::Replace => refused_say(show),
        StoreVerb::Append => refused_say(show),
        StoreVerb::Prepend => refused_say(show),
    }
}

/// A `cas`. One of an empty block is not refused, since no item is longer after it.
fn refused_cas(key: Key, flags: u32, exptime: i32, block: Block, unique: u64, show: Show) -> Turn
    ensures { result ≡ spec.refused_cas key flags exptime block unique show }
{
    if !block.is_empty() {
        return refused_say(show);
    }
    Turn::Ask(
        Command::Update(Update::Cas {
            key,
            flags,
            exptime,
            block,
            unique,
        }),
        show,
    )
}

fn refused_update(update: Update, show: Show) -> Turn
    ensures { result ≡ spec.refused_update update show }
{
    match update {
        Update::Store {
            verb,
            key,
            flags: _,
            exptime: _,
            block: _block,
        } => refused_store(verb, key, show),
        Update::Cas {
            key,
            flags,
            exptime,
            block,
            unique,
        } => refused_cas(key, flags, exptime, block, unique, show),
        other => Turn::Ask(Command::Update(other), show),
    }
}

fn refused_ask(command: Command, show: Show) -> Turn
    ensures { result ≡ spec.refused_ask command show }
{
    match command {
        Command::Update(update) => refused_update(update, show),
        other => Turn::Ask(other, show),
    }
}

/// What is asked while the items have more bytes than may be stored: no command that stores. All other commands are.
pub fn refused(turn: Turn) -> Turn
    ensures { result ≡ spec.refused_turn turn }
{
    match turn {
        Turn::Ask(command, show) => refused_ask(command, show),
        other => other,
    }
}

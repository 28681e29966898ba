//! Turns as lines of text.

use dialect::{Field, MetaShow, Reader, Show, Turn};
use proto::{Command, Key, StoreVerb, Update};
use std::alloc::{AllocError, Global};

/// Bytes of a stream, and what is expected of them.
pub type Row = (&'static [u8], &'static [u8]);

fn add_key(key: &Key, out: &mut Vec<u8>) -> Result<(), AllocError> {
    out.extend_from_slice(b" ")?;
    out.extend_from_slice(key.as_slice())
}

fn add_keys(name: &[u8], keys: &[Key], out: &mut Vec<u8>) -> Result<(), AllocError> {
    out.extend_from_slice(name)?;
    for key in keys {
        add_key(key, out)?;
    }
    Ok(())
}

fn add_number(alloc: Global, number: u64, out: &mut Vec<u8>) -> Result<(), AllocError> {
    out.extend_from_slice(b" ")?;
    out.extend_from_slice(number.to_string(alloc)?.as_bytes())
}

fn add_time(alloc: Global, time: i32, out: &mut Vec<u8>) -> Result<(), AllocError> {
    out.extend_from_slice(b" ")?;
    out.extend_from_slice(time.to_string(alloc)?.as_bytes())
}

fn verb_text(verb: StoreVerb) -> &'static [u8] {
    match verb {
        StoreVerb::Set => b"set",
        StoreVerb::Add => b"add",
        StoreVerb::Replace => b"replace",
        StoreVerb::Append => b"append",
        StoreVerb::Prepend => b"prepend",
    }
}

fn add_stored(
    alloc: Global,
    key: &Key,
    flags: u32,
    exptime: i32,
    block: &[u8],
    out: &mut Vec<u8>,
) -> Result<(), AllocError> {
    add_key(key, out)?;
    add_number(alloc, flags as u64, out)?;
    add_time(alloc, exptime, out)?;
    out.extend_from_slice(b" ")?;
    out.extend_from_slice(block)
}

fn add_update(alloc: Global, update: &Update, out: &mut Vec<u8>) -> Result<(), AllocError> {
    match update {
        Update::Store {
            verb,
            key,
            flags,
            exptime,
            block,
        } => {
            out.extend_from_slice(verb_text(*verb))?;
            add_stored(alloc, key, *flags, *exptime, block.as_slice(), out)
        }
        Update::Cas {
            key,
            flags,
            exptime,
            block,
            unique,
        } => {
            out.extend_from_slice(b"cas")?;
            add_stored(alloc, key, *flags, *exptime, block.as_slice(), out)?;
            add_number(alloc, *unique, out)
        }
        Update::Delete { key } => {
            out.extend_from_slice(b"delete")?;
            add_key(key, out)
        }
        Update::Touch { key, exptime } => {
            out.extend_from_slice(b"touch")?;
            add_key(key, out)?;
            add_time(alloc, *exptime, out)
        }
        Update::Incr { key, delta } => {
            out.extend_from_slice(b"incr")?;
            add_key(key, out)?;
            add_number(alloc, *delta, out)
        }
        Update::Decr { key, delta } => {
            out.extend_from_slice(b"decr")?;
            add_key(key, out)?;
            add_number(alloc, *delta, out)
        }
    }
}

fn add_command(alloc: Global, command: &Command, out: &mut Vec<u8>) -> Result<(), AllocError> {
    match command {
        Command::Get(keys) => add_keys(b"get", keys.as_slice(), out),
        Command::Gets(keys) => add_keys(b"gets", keys.as_slice(), out),
        Command::Gat(exptime, keys) => {
            out.extend_from_slice(b"gat")?;
            add_time(alloc, *exptime, out)?;
            add_keys(b"", keys.as_slice(), out)
        }
        Command::Gats(exptime, keys) => {
            out.extend_from_slice(b"gats")?;
            add_time(alloc, *exptime, out)?;
            add_keys(b"", keys.as_slice(), out)
        }
        Command::Update(update) => add_update(alloc, update, out),
    }
}

fn add_field(field: &Field, out: &mut Vec<u8>) -> Result<(), AllocError> {
    match field {
        Field::Flags => out.extend_from_slice(b" flags"),
        Field::Size => out.extend_from_slice(b" size"),
        Field::Unique => out.extend_from_slice(b" unique"),
        Field::Word(word) => {
            out.extend_from_slice(b" ")?;
            out.extend_from_slice(word.as_slice())
        }
    }
}

fn add_meta(show: &MetaShow, out: &mut Vec<u8>) -> Result<(), AllocError> {
    out.extend_from_slice(b" (meta")?;
    if show.quiet {
        out.extend_from_slice(b" quiet")?;
    }
    if show.value {
        out.extend_from_slice(b" value")?;
    }
    for field in show.fields.as_slice() {
        add_field(field, out)?;
    }
    out.extend_from_slice(b")\n")
}

fn add_show(show: &Show, out: &mut Vec<u8>) -> Result<(), AllocError> {
    match show {
        Show::Whole => out.extend_from_slice(b"\n"),
        Show::Quiet => out.extend_from_slice(b" (quiet)\n"),
        Show::Items => out.extend_from_slice(b" (items)\n"),
        Show::Instead(notice) => {
            out.extend_from_slice(b" -> ")?;
            out.extend_from_slice(notice.text())
        }
        Show::Meta(show) => add_meta(show, out),
    }
}

fn add_turn(alloc: Global, turn: &Turn, out: &mut Vec<u8>) -> Result<(), AllocError> {
    match turn {
        Turn::Ask(command, show) => {
            add_command(alloc, command, out)?;
            add_show(show, out)
        }
        Turn::Say(notice) => out.extend_from_slice(notice.text()),
        Turn::Close(notice) => {
            out.extend_from_slice(notice.text())?;
            out.extend_from_slice(b"closed\n")
        }
    }
}

/// The turns of the piece. If an allocation fails it is fed once more: nothing has changed by then.
fn feed_again(alloc: Global, reader: &mut Reader, piece: &[u8]) -> Result<Vec<Turn>, AllocError> {
    match reader.feed(alloc, piece) {
        Ok(turns) => Ok(turns),
        Err(_) => reader.feed(alloc, piece),
    }
}

/// Feeds a piece, and adds a line for each turn: the command with what is shown of it, or the text.
pub fn tell_piece(
    alloc: Global,
    reader: &mut Reader,
    piece: &[u8],
    out: &mut Vec<u8>,
) -> Result<(), AllocError> {
    for turn in &feed_again(alloc, reader, piece)? {
        add_turn(alloc, turn, out)?;
    }
    Ok(())
}

fn tell_pieces(
    alloc: Global,
    reader: &mut Reader,
    pieces: &[&[u8]],
    out: &mut Vec<u8>,
) -> Result<(), AllocError> {
    for piece in pieces {
        tell_piece(alloc, reader, *piece, out)?;
    }
    Ok(())
}

/// Whether this is told of these pieces of a stream.
pub fn is_told(alloc: Global, pieces: &[&[u8]], expected: &[u8]) -> Result<bool, AllocError> {
    let mut out = Vec::new(alloc);
    tell_pieces(alloc, &mut Reader::new(alloc), pieces, &mut out)?;
    Ok(out.as_slice() == expected)
}

/// The first of the rows of whose bytes something else is told than what is expected.
pub fn first_wrong(alloc: Global, rows: &[Row]) -> Result<Option<usize>, AllocError> {
    for (at, (bytes, expected)) in rows.iter().enumerate() {
        if !is_told(alloc, &[*bytes], *expected)? {
            return Ok(Some(at));
        }
    }
    Ok(None)
}

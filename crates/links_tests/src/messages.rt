//! The bytes of messages.

use crate::texts::text_of;
use base::Text;
use links::{Message, MessageFault, MessageReader, to_bytes};
use std::alloc::Global;
use std::test::Fail;

/// A message, and its bytes by hand.
#[derive(Clone, Copy)]
struct Row {
    name: &'static str,
    number: u64,
    first: u8,
    size: usize,
    bytes: &'static [u8],
}

const ROWS: [Row; 3] = [
    Row {
        name: "a letter",
        number: 0x0102,
        first: b'a',
        size: 3,
        bytes: &[0, 0, 0, 0, 0, 0, 1, 2, 0, 0, 0, 3, b'a', b'b', b'c'],
    },
    Row {
        name: "an acknowledgement",
        number: u64::MAX,
        first: 0,
        size: 0,
        bytes: &[255, 255, 255, 255, 255, 255, 255, 255, 0, 0, 0, 0],
    },
    Row {
        name: "a heartbeat",
        number: 0,
        first: 9,
        size: 1,
        bytes: &[0, 0, 0, 0, 0, 0, 0, 0, 0, 0, 0, 1, 9],
    },
];

/// Whether the row's message has its bytes.
fn is_written(alloc: Global, row: &Row) -> Option<bool> {
    let text = text_of(alloc, row.first, row.size)?;
    let bytes = to_bytes(alloc, row.number, &text).ok()?;
    Some(bytes.as_slice() == row.bytes)
}

#[test]
fn messages_have_their_bytes(rt: HostRuntime) {
    for row in &ROWS {
        assert!(rt; is_written(rt.alloc(), row) == Some(true), "{}", row.name);
    }
}

/// Whether the messages are those of the rows.
fn are_rows(messages: &[Message]) -> bool {
    for (message, row) in messages.iter().zip(&ROWS) {
        if message.number() != row.number || message.text().len() != row.size {
            return false;
        }
    }
    messages.len() == ROWS.len()
}

/// The bytes of all rows, one after the other.
fn bytes_of_rows(alloc: Global) -> Option<Vec<u8>> {
    let mut bytes = Vec::new(alloc);
    for row in &ROWS {
        bytes.extend_from_slice(row.bytes).ok()?;
    }
    Some(bytes)
}

/// Whether they are read of their bytes in parts of so many.
fn are_read(alloc: Global, part: usize) -> Option<bool> {
    let bytes = bytes_of_rows(alloc)?;
    let mut reader = MessageReader::new(alloc, 3);
    let mut messages = Vec::new(alloc);
    for some in bytes.chunks(part.max(1)) {
        reader.feed(alloc, some, &mut messages).ok()?;
    }
    Some(are_rows(messages.as_slice()) && reader.end().is_none())
}

#[test]
fn messages_are_read_in_any_parts(rt: HostRuntime) {
    for part in [1, 2, 7, 12, 13, 100] {
        assert!(rt; are_read(rt.alloc(), part) == Some(true), "{part}");
    }
}

/// Whether a text above the limit is refused once its length is there, and what comes behind it is not read.
fn is_refused(alloc: Global) -> Option<bool> {
    let mut reader = MessageReader::new(alloc, 3);
    let mut messages = Vec::new(alloc);
    let long = [0, 0, 0, 0, 0, 0, 0, 1, 0, 0, 0, 4];
    let (front, last) = long.split_at(11);
    reader.feed(alloc, front, &mut messages).ok()?;
    let first = reader.feed(alloc, last, &mut messages);
    let bytes = bytes_of_rows(alloc)?;
    let second = reader.feed(alloc, bytes.as_slice(), &mut messages);
    Some(
        first == Err(MessageFault::TooLong)
            && second == Err(MessageFault::TooLong)
            && messages.is_empty(),
    )
}

#[test]
fn a_long_text_is_refused(rt: HostRuntime) {
    assert!(rt; is_refused(rt.alloc()) == Some(true));
}

/// Whether a text of several shared parts is written as one.
fn is_joined(alloc: Global) -> Option<bool> {
    let mut text = text_of(alloc, b'a', 2)?;
    text.seal().ok()?;
    let mut whole = Text::new(alloc);
    whole.append(&text).ok()?;
    whole.put(b"c").ok()?;
    let bytes = to_bytes(alloc, 0x0102, &whole).ok()?;
    Some(bytes.as_slice() == ROWS[0].bytes)
}

#[test]
fn a_shared_text_is_written_whole(rt: HostRuntime) -> Result<(), Fail> {
    assert!(rt; is_joined(rt.alloc()) == Some(true));
    let message = Message::new(1, Vec::from_slice(rt.alloc(), b"abc")?);
    assert!(rt; message.into_text().as_slice() == b"abc".as_slice());
    Ok(())
}

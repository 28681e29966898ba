//! What is said on a connection: messages.

ghost use Rattle.std.specs.Prelude.{◌≡◌, ◌≤◌, ◌<◌, ◌+◌, ◌^◌, ◌↔◌, length, Err, IfOk};
ghost use Rattle.links.specs.Message.{message_text, said_number, said_size};

use crate::message_fault::MessageFault;
use base::Text;
use std::alloc::{AllocError, Global};
use std::marker::Model;

/// The bytes of a message's number.
pub const NUMBER_BYTES: usize = 8;

/// The bytes of the length of a message's text.
pub const SIZE_BYTES: usize = 4;

/// The bytes before a message's text.
pub const HEADER_BYTES: usize = 12;

/// The number of a message that is neither a letter nor an acknowledgement. It says that its sender is up.
pub const HEARTBEAT: u64 = 0;

/// A number and a text. On a lane it is a letter under its number, which is 1 or higher. On the way back it is the
/// acknowledgement of all letters up to its number, and has no text. On both ways the number 0 is a heartbeat, whatever its
/// text.
pub struct Message {
    number: u64,
    text: Vec<u8>,
}

impl Drop for Message {
    fn drop(self) {
        let Message { number: _, text: _ } = self;
    }
}

impl Model for Message {
    ghost use Rattle.std.specs.Prelude.{ℕ, List};

    ghost Value = { ℕ × List ℕ };

    ghost view = { λ m. (m.number, m.text.items) };
}

impl Message {
    pub fn new(number: u64, text: Vec<u8>) -> Message
        ensures { result ≡ (number, text.items) }
    {
        Message { number, text }
    }

    pub fn number(&self) -> u64
        ensures { result ≡ self.now.0 }
    {
        self.number
    }

    pub fn text(&self) -> &[u8]
        ensures { result.now ≡ self.now.1 }
    {
        self.text.as_slice()
    }

    /// Its text, taken out.
    pub fn into_text(self) -> Vec<u8>
        ensures { result.items ≡ self.1 }
    {
        let Message { number: _, text } = self;
        text
    }
}

/// The bytes to send of a message: its number in eight bytes, the length of its text in four, the highest byte of each
/// first, and its text.
///
/// TooLong: the text has 4 GiB or more; NoMemory.
pub fn to_bytes(alloc: Global, number: u64, text: &Text) -> Result<Vec<u8>, MessageFault>
    ensures ok { IfOk result (λ bytes. bytes.items ≡ message_text (number, text.now)) }
    ensures too_long { (result ≡ Err MessageFault.TooLong) ↔ (2 ^ 32 ≤ length text.now) }
{
    if (u32::MAX as usize) < text.len() {
        return Err(MessageFault::TooLong);
    }
    let size = text.len() as u32;
    let mut whole = Text::new(alloc);
    whole.put_two(&number.to_be_bytes(), &size.to_be_bytes())?;
    whole.append(text)?;
    Ok(whole.joined(alloc)?)
}

/// The number that a header says.
fn number_of(bytes: &[u8]) -> u64
    requires { HEADER_BYTES ≤ length bytes.now }
    ensures { result ≡ said_number bytes.now }
{
    match bytes.split_first_chunk::<8>() {
        Some((front, _)) => u64::from_be_bytes(*front),
        None => unreachable!(),
    }
}

/// The length of the text that a header says.
pub fn size_of(bytes: &[u8]) -> usize
    requires { HEADER_BYTES ≤ length bytes.now }
    ensures said { result ≡ said_size bytes.now }
    ensures fits { result < 2 ^ 32 }
{
    let (_, behind) = bytes.split_at(NUMBER_BYTES);
    match behind.split_first_chunk::<4>() {
        Some((front, _)) => u32::from_be_bytes(*front) as usize,
        None => unreachable!(),
    }
}

/// The message of bytes that are a header and just as much text as it says.
pub fn message_in(alloc: Global, bytes: &[u8]) -> Result<Message, AllocError>
    requires { length bytes.now ≡ HEADER_BYTES + said_size bytes.now }
    ensures text { IfOk result (λ m. bytes.now ≡ message_text m) }
    ensures number { IfOk result (λ m. m.0 < 2 ^ 64) }
    ensures size { IfOk result (λ m. length m.1 ≡ said_size bytes.now) }
{
    let (_, text) = bytes.split_at(HEADER_BYTES);
    let text = Vec::from_slice(alloc, text)?;
    Ok(Message {
        number: number_of(bytes),
        text,
    })
}

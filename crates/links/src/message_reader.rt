//! Messages are read of bytes that come.

ghost use Rattle.std.specs.Prelude.{◌≡◌, ◌≤◌, ◌<◌, ◌+◌, ◌-◌, ◌^◌, ◌++◌, ℕ, List, [], length, Some, None, IfOk, OnOk, IfErr, MatchResult};
ghost use Rattle.links.specs.Numbered.{Numbered};
ghost use Rattle.links.specs.Message.{said_size, IsPartOfMessage, HasLongText, EndsReading};
ghost use Rattle.links.specs.Reading.{HasReadMessages, ReadsMore, StepReads, ReadsAll};

use crate::message::{HEADER_BYTES, Message, message_in, size_of};
use crate::message_fault::MessageFault;
use std::alloc::Global;
use std::marker::Model;

/// How many bytes are missing of the header or, if that is there, of the message.
fn missing_in(bytes: &[u8]) -> usize
    ensures to_header { length bytes.now < HEADER_BYTES → result ≡ HEADER_BYTES - length bytes.now }
    ensures to_end { HEADER_BYTES ≤ length bytes.now → result ≡ HEADER_BYTES + said_size bytes.now - length bytes.now }
{
    if bytes.len() < HEADER_BYTES {
        return HEADER_BYTES - bytes.len();
    }
    (HEADER_BYTES + size_of(bytes)).saturating_sub(bytes.len())
}

/// The length of the text that a header says, unless it is above the limit.
fn checked_size(bytes: &[u8], most: usize) -> Result<usize, MessageFault>
    requires { HEADER_BYTES ≤ length bytes.now }
    ensures ok { IfOk result (λ size. (size ≡ said_size bytes.now) × (size ≤ most) × (size < 2 ^ 32)) }
    ensures err { IfErr result (λ fault. (fault ≡ MessageFault.TooLong) × HasLongText most bytes.now) }
{
    let size = size_of(bytes);
    if most < size {
        return Err(MessageFault::TooLong);
    }
    Ok(size)
}

/// Takes some of the bytes, at most to the end of the header or of the message: the message that is whole now, and how many
/// bytes were taken.
fn step(
    alloc: Global,
    most: usize,
    coming: &mut Vec<u8>,
    unread: &[u8],
) -> Result<(Option<Message>, usize), MessageFault>
    requires part { IsPartOfMessage most coming.old.items }
    requires some { 0 < length unread.now }
    ensures ok { IfOk result (λ r. StepReads most coming.old.items unread.now r.0 r.1 coming.new.items) }
    ensures err { IfErr result (λ fault. EndsReading fault most (coming.old.items ++ unread.now)) }
{
    let n = missing_in(coming.as_slice()).min(unread.len());
    let (front, _) = unread.split_at(n);
    coming.extend_from_slice(front)?;
    if coming.len() < HEADER_BYTES {
        return Ok((None, n));
    }
    let size = checked_size(coming.as_slice(), most)?;
    if coming.len() < HEADER_BYTES + size {
        return Ok((None, n));
    }
    let message = message_in(alloc, coming.as_slice())?;
    coming.clear();
    Ok((Some(message), n))
}

/// Reads all of the bytes. The messages that end in them go behind the others.
fn read_all(
    alloc: Global,
    most: usize,
    coming: &mut Vec<u8>,
    bytes: &[u8],
    messages: &mut Vec<Message>,
) -> Result<(), MessageFault>
    requires { IsPartOfMessage most coming.old.items }
    ensures ok { OnOk result (ReadsAll most (coming.old.items ++ bytes.now) messages.old.items messages.new.items None coming.new.items) }
    ensures err { IfErr result (λ fault. ReadsAll most (coming.old.items ++ bytes.now) messages.old.items messages.new.items (Some fault) coming.new.items) }
{
    let mut unread = bytes;
    while !unread.is_empty() {
        let (message, n) = step(alloc, most, coming, unread)?;
        let (_, after) = unread.split_at(n);
        unread = after;
        if let Some(message) = message {
            messages.push(message)?;
        }
    }
    Ok(())
}

/// Reads the messages of one way of one connection, whose bytes come in any parts. It keeps the bytes of one message that is
/// not whole, and asks for no memory for a text that is too long.
pub struct MessageReader {
    /// The most bytes of a text.
    most: usize,
    /// What is there of the next message.
    coming: Vec<u8>,
    /// Why nothing more is read.
    end: Option<MessageFault>,
}

impl Drop for MessageReader {
    fn drop(self) {
        let MessageReader {
            most: _,
            coming: _,
            end: _,
        } = self;
    }
}

impl Model for MessageReader {
    ghost use Rattle.links.specs.Reading.{MessageReaderView, IsKeptPart};

    ghost Value = { MessageReaderView };

    ghost view = { λ r. record { most = r.most; kept = r.coming.items; end = r.end } };

    ghost invariant = { λ r. IsKeptPart r.end r.most r.coming.items };
}

impl MessageReader {
    /// Nothing came yet. `most` is the most bytes of a text.
    pub fn new(alloc: Global, most: usize) -> MessageReader
        ensures begun { HasReadMessages most [] [] result }
        ensures open { result.end ≡ None }
    {
        MessageReader {
            most,
            coming: Vec::new(alloc),
            end: None,
        }
    }

    /// Reads the next bytes that came, however they are cut. The messages that end in them go behind the others, in order.
    ///
    /// After an error nothing more is read, whatever comes: each later call has the same error, and the connection is to be
    /// closed. The messages before the error count.
    ///
    /// TooLong: a header says a longer text than is allowed; NoMemory.
    pub fn feed(
        &mut self,
        alloc: Global,
        bytes: &[u8],
        messages: &mut Vec<Message>,
    ) -> Result<(), MessageFault>
        ensures read { (most : ℕ) (all : List ℕ) (before : List Numbered) → HasReadMessages most all before self.old → ReadsMore most (all ++ bytes.now) before messages.old.items messages.new.items self.new }
        ensures ended { MatchResult result (λ _. self.new.end ≡ None) (λ fault. self.new.end ≡ Some fault) }
        ensures stays { (fault : MessageFault) → self.old.end ≡ Some fault → (self.new ≡ self.old) × (messages.new.items ≡ messages.old.items) }
        ensures held { length self.new.kept < HEADER_BYTES + self.new.most }
        ensures limit { self.new.most ≡ self.old.most }
    {
        if let Some(fault) = self.end {
            return Err(fault);
        }
        let most = self.most;
        match read_all(alloc, most, &mut self.coming, bytes, messages) {
            Ok(()) => Ok(()),
            Err(fault) => {
                self.coming.clear();
                self.end = Some(fault);
                Err(fault)
            }
        }
    }

    /// Why nothing more is read, if so.
    pub fn end(&self) -> Option<MessageFault>
        ensures { result ≡ self.now.end }
    {
        self.end
    }
}

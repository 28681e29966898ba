//! A connection.

ghost use Rattle.std.specs.Prelude.{◌≡◌, ℕ};

use grammar::{Conditions, Dialect};
use loop_messages::MOST_UNWRITTEN;
use proto::{Fault, Reply};
use session::{Ready, Session};
use std::alloc::Global;
use std::marker::Model;

/// A connection's part of the server. It has at most one command outstanding.
pub struct Connection {
    number: u64,
    session: Session,
    /// How many bytes it was given that are not written yet.
    unwritten: usize,
}

impl Drop for Connection {
    fn drop(self) {
        let Connection {
            number: _,
            session: _,
            unwritten: _,
        } = self;
    }
}

impl Model for Connection {
    ghost use Rattle.std.specs.Prelude.{◌≡◌};
    ghost use Rattle.connections.specs.Connection.{ConnectionView};

    ghost Value = { ConnectionView };

    ghost view = { λ c. record { number = c.number; session = c.session; unwritten = c.unwritten } };
}

impl Connection {
    ghost use Rattle.std.specs.Prelude.{◌≡◌, ◌⊎◌, ◌≤◌, ◌-◌, None, IfOk, IfErr, IfSome, IfNone, is_some};
    ghost use Rattle.grammar.specs.Reads.{dialect_of, with_mark};
    ghost use Rattle.connections.specs.Connection.{IsFedTo, ConnectionAnswers, IsTaken, new_connection};
    ghost use Rattle.loop_messages.specs.declared.message.TheConstants.{MOST_UNWRITTEN};

    /// The connection of this number, of which nothing came yet, and whose bytes are read in this grammar.
    pub fn new(alloc: Global, dialect: Dialect, number: u64) -> Connection
        ensures { result ≡ new_connection dialect number }
    {
        Connection {
            number,
            session: Session::new(alloc, dialect),
            unwritten: 0,
        }
    }

    /// Its number.
    pub fn number(&self) -> u64
        ensures { result ≡ self.now.number }
    {
        self.number
    }

    /// Reads a piece of its bytes, under these conditions: the bytes that it is given at once. If a command is outstanding what comes
    /// behind it waits, so nothing is given.
    ///
    /// NoMemory: an allocation failed; Stopped: the connection has asked 2^64 - 1 commands. After an error a part may
    /// have been read: the connection is to be closed.
    pub fn feed(
        &mut self,
        alloc: Global,
        piece: &[u8],
        conditions: &mut Conditions,
    ) -> Result<Vec<u8>, Fault>
        ensures ok { IfOk result (λ bytes. IsFedTo self.old (with_mark (dialect_of self.old.session.reader) conditions.old.is_full piece.now) self.new bytes.items) }
        ensures same { self.new.number ≡ self.old.number }
        ensures only { IfErr result (λ fault. (fault ≡ Fault.NoMemory) ⊎ (fault ≡ Fault.Stopped)) }
    {
        let bytes = self.session.feed(alloc, piece, conditions)?;
        self.unwritten = self.unwritten.saturating_add(bytes.len());
        Ok(bytes)
    }

    /// Takes the reply to its command of this number: the bytes that it is given. If that command is not
    /// outstanding, or was not taken, nothing is given and nothing changes.
    ///
    /// NoMemory, Stopped: as in `feed`.
    pub fn answer(&mut self, alloc: Global, turn: u64, reply: &Reply) -> Result<Vec<u8>, Fault>
        ensures ok { IfOk result (λ bytes. ConnectionAnswers self.old turn reply.now self.new bytes.items) }
        ensures same { self.new.number ≡ self.old.number }
        ensures only { IfErr result (λ fault. (fault ≡ Fault.NoMemory) ⊎ (fault ≡ Fault.Stopped)) }
    {
        let bytes = self.session.answer(alloc, turn, reply)?;
        self.unwritten = self.unwritten.saturating_add(bytes.len());
        Ok(bytes)
    }

    /// Takes the outstanding command, once. `None`, and nothing changes: it was taken, or none is outstanding, or
    /// `MOST_UNWRITTEN` bytes or more are not written yet.
    pub fn take(&mut self) -> Option<Ready>
        ensures none { IfNone result (self.new ≡ self.old) }
        ensures why { IfNone result ((self.old.session.command ≡ None) ⊎ (self.old.session.outstanding ≡ None) ⊎ (MOST_UNWRITTEN ≤ self.old.unwritten)) }
        ensures some { IfSome result (λ ready. IsTaken self.old ready self.new) }
    {
        if MOST_UNWRITTEN <= self.unwritten {
            return None;
        }
        self.session.take()
    }

    /// So many of the bytes that it was given are written.
    pub fn written(&mut self, count: usize)
        ensures { self.new ≡ record self.old { unwritten = self.old.unwritten - count } }
    {
        self.unwritten = self.unwritten.saturating_sub(count);
    }

    /// Whether its outstanding command was not taken.
    pub fn is_ready(&self) -> bool
        ensures { result ≡ is_some self.now.session.command }
    {
        self.session.is_ready()
    }

    /// Whether a command of it is outstanding, taken or not.
    pub fn is_waiting(&self) -> bool
        ensures { result ≡ is_some self.now.session.outstanding }
    {
        self.session.is_waiting()
    }

    /// Whether it gives nothing more: it took a `quit` or bytes after which nothing is read.
    pub fn is_closed(&self) -> bool
        ensures { result ≡ self.now.session.closed }
    {
        self.session.is_closed()
    }
}

//! A session, and what comes of each call.

ghost use Rattle.std.specs.Prelude.{◌≡◌, ◌+◌, ◌^◌, ◌⊎◌, Some, None, IfOk, IfErr, IfSome, IfNone, OnOk, Err, is_some};
ghost use Rattle.grammar.specs.Turns.{is_left_out};
ghost use Rattle.grammar.specs.Reads.{dialect_of, with_mark};
ghost use Rattle.session.specs.Session.{SessionStep, IsFedSession, session_answered, session_goes as taken, session_goes_on as went_on, new_session, IsTakenOfSession};

use crate::turns::Turns;
use grammar::{Conditions, Dialect, Reader, Show, Turn, leaves_out, write_shown};
use proto::{Command, Fault, Reply};
use std::alloc::Global;

/// The command that waits for its reply.
#[derive(Drop)]
pub struct Awaited {
    /// The how manyth command of the session it is, from 1.
    pub number: u64,
    /// What the client is shown of its reply.
    pub show: Show,
}

/// A command to be executed.
#[derive(Drop)]
pub struct Ready {
    /// The how manyth command of the session it is, from 1.
    pub turn: u64,
    pub command: Command,
    /// Whether its reply is left out of what the client is given.
    pub quiet: bool,
}

/// What is kept of one client's stream. At most one command is outstanding.
pub struct Session {
    pub reader: Reader,
    /// What was read and not taken yet.
    pub waiting: Turns,
    /// How many commands were outstanding so far: the number of the last one.
    pub last: u64,
    pub outstanding: Option<Awaited>,
    /// The outstanding command, until it is taken.
    pub command: Option<Command>,
    /// Whether a Close was taken: nothing is read any more.
    pub closed: bool,
}

impl Drop for Session {
    fn drop(self) {
        let Session {
            reader: _,
            waiting: _,
            last: _,
            outstanding: _,
            command: _,
            closed: _,
        } = self;
    }
}

impl Session {
    /// Of a client of which nothing came yet, whose bytes are read in this grammar.
    pub fn new(alloc: Global, dialect: Dialect) -> Session
        ensures { result ≡ new_session dialect }
    {
        Session {
            reader: Reader::new(alloc, dialect),
            waiting: Turns::new(alloc),
            last: 0,
            outstanding: None,
            command: None,
            closed: false,
        }
    }

    /// The command becomes the outstanding one.
    fn ask(&mut self, command: Command, show: Show) -> Result<(), Fault>
        ensures ok { OnOk result (self.new ≡ record self.old { last = self.old.last + 1; outstanding = Some (record { number = self.old.last + 1; show = show }); command = Some command }) }
        ensures stopped { result ≡ Err Fault.Stopped → self.old.last + 1 ≡ 2 ^ 64 }
        ensures only { IfErr result (λ fault. fault ≡ Fault.Stopped) }
    {
        let number = self.last.checked_add(1).ok_or(Fault::Stopped)?;
        self.last = number;
        self.outstanding = Some(Awaited { number, show });
        self.command = Some(command);
        Ok(())
    }

    /// Takes the turns that wait, up to the first one that asks or closes: the texts behind these bytes.
    fn go(&mut self, bytes: &mut Vec<u8>) -> Result<(), Fault>
        ensures ok { OnOk result (record { session = self.new; bytes = bytes.new.items } ≡ taken self.old bytes.old.items self.old.waiting) }
        ensures stopped { result ≡ Err Fault.Stopped → (taken self.old bytes.old.items self.old.waiting).session.last ≡ 2 ^ 64 }
        ensures only { IfErr result (λ fault. (fault ≡ Fault.NoMemory) ⊎ (fault ≡ Fault.Stopped)) }
    {
        while let Some(turn) = self.waiting.take() {
            match turn {
                Turn::Say(notice) => bytes.extend_from_slice(notice.text())?,
                Turn::Close(notice) => {
                    bytes.extend_from_slice(notice.text())?;
                    self.waiting.clear();
                    self.closed = true;
                    return Ok(());
                }
                Turn::Ask(command, show) => return self.ask(command, show),
            }
        }
        Ok(())
    }

    /// It goes on, behind these bytes, if it is not closed and nothing is outstanding.
    fn go_on(&mut self, bytes: &mut Vec<u8>) -> Result<(), Fault>
        ensures ok { OnOk result (record { session = self.new; bytes = bytes.new.items } ≡ went_on self.old bytes.old.items) }
        ensures stopped { result ≡ Err Fault.Stopped → (went_on self.old bytes.old.items).session.last ≡ 2 ^ 64 }
        ensures only { IfErr result (λ fault. (fault ≡ Fault.NoMemory) ⊎ (fault ≡ Fault.Stopped)) }
    {
        if self.closed || self.outstanding.is_some() {
            return Ok(());
        }
        self.go(bytes)
    }

    /// Reads a piece of the client's bytes, under these conditions: the bytes that the client is given at once. If a
    /// command is outstanding what comes behind it waits, so nothing is given.
    ///
    /// NoMemory: an allocation failed; Stopped: no number is left for a command. After an error a part may have been
    /// read: the session is to be let go.
    pub fn feed(
        &mut self,
        alloc: Global,
        piece: &[u8],
        conditions: &mut Conditions,
    ) -> Result<Vec<u8>, Fault>
        ensures ok { IfOk result (λ bytes. IsFedSession self.old (with_mark (dialect_of self.old.reader) conditions.old.is_full piece.now) (record { session = self.new; bytes = bytes.items })) }
        ensures stopped { result ≡ Err Fault.Stopped → (g : SessionStep) × IsFedSession self.old (with_mark (dialect_of self.old.reader) conditions.old.is_full piece.now) g × (g.session.last ≡ 2 ^ 64) }
        ensures only { IfErr result (λ fault. (fault ≡ Fault.NoMemory) ⊎ (fault ≡ Fault.Stopped)) }
    {
        let mut bytes = Vec::new(alloc);
        if self.closed {
            return Ok(bytes);
        }
        let turns = self.reader.feed(alloc, piece, conditions)?;
        self.waiting.add(turns)?;
        self.go_on(&mut bytes)?;
        Ok(bytes)
    }

    /// The outstanding command is answered by these bytes.
    fn give(&mut self, mut bytes: Vec<u8>) -> Result<Vec<u8>, Fault>
        ensures ok { IfOk result (λ given. record { session = self.new; bytes = given.items } ≡ went_on (record self.old { outstanding = None }) bytes.items) }
        ensures stopped { result ≡ Err Fault.Stopped → (went_on (record self.old { outstanding = None }) bytes.items).session.last ≡ 2 ^ 64 }
        ensures only { IfErr result (λ fault. (fault ≡ Fault.NoMemory) ⊎ (fault ≡ Fault.Stopped)) }
    {
        self.outstanding = None;
        self.go_on(&mut bytes)?;
        Ok(bytes)
    }

    /// Takes the reply to the command of this number: the bytes that the client is given. If that command is not
    /// outstanding, or was not taken, nothing is given and nothing changes.
    ///
    /// NoMemory, Stopped: as in `feed`.
    pub fn answer(&mut self, alloc: Global, number: u64, reply: &Reply) -> Result<Vec<u8>, Fault>
        ensures ok { IfOk result (λ bytes. record { session = self.new; bytes = bytes.items } ≡ session_answered self.old number reply.now) }
        ensures stopped { result ≡ Err Fault.Stopped → (session_answered self.old number reply.now).session.last ≡ 2 ^ 64 }
        ensures only { IfErr result (λ fault. (fault ≡ Fault.NoMemory) ⊎ (fault ≡ Fault.Stopped)) }
    {
        if self.command.is_some() {
            return Ok(Vec::new(alloc));
        }
        let mut bytes = Vec::new(alloc);
        match &self.outstanding {
            Some(asked) if asked.number == number => {
                write_shown(reply, &asked.show, &mut bytes)?;
            }
            _ => return Ok(bytes),
        }
        self.give(bytes)
    }

    /// Takes the outstanding command, once. `None`, and nothing changes: it was taken, or none is outstanding.
    pub fn take(&mut self) -> Option<Ready>
        ensures none { IfNone result ((self.new ≡ self.old) × ((self.old.command ≡ None) ⊎ (self.old.outstanding ≡ None))) }
        ensures some { IfSome result (λ ready. IsTakenOfSession self.old ready self.new) }
    {
        let asked = self.outstanding.as_ref()?;
        let command = self.command.take()?;
        Some(Ready {
            turn: asked.number,
            command,
            quiet: leaves_out(&asked.show),
        })
    }

    /// Whether a command is outstanding, taken or not.
    pub fn is_waiting(&self) -> bool
        ensures { result ≡ is_some self.now.outstanding }
    {
        self.outstanding.is_some()
    }

    /// Whether the outstanding command was not taken.
    pub fn is_ready(&self) -> bool
        ensures { result ≡ is_some self.now.command }
    {
        self.command.is_some()
    }

    /// Whether it gives nothing more: it took a `quit` or bytes after which nothing is read.
    pub fn is_closed(&self) -> bool
        ensures { result ≡ self.now.closed }
    {
        self.closed
    }
}

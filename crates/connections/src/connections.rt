//! All connections.

ghost use Rattle.std.specs.Prelude.{◌≡◌};

use crate::connection::Connection;
use crate::history::History;
use crate::slots::ConnectionId;
use crate::table;
use ghost_log::GhostLog;
use grammar::{Conditions, Dialect};
use loop_messages::Said;
use proto::{Command, Fault, Reply};
use session::Ready;
use std::alloc::Global;
use std::marker::Model;

/// The number of a connection, and that of one of its commands, from 1.
#[derive(Clone, Copy)]
pub struct CommandNumber {
    pub connection: u64,
    pub turn: u64,
}

/// The connections that are here, by the event loop's keys, with the history of all that ever came.
pub struct Connections {
    /// In which grammar their bytes are read.
    dialect: Dialect,
    table: Vec<Option<Connection>>,
    /// The least number that the next connection may have.
    next: u64,
    /// The least number that the first connection might have.
    first: u64,
    history: History,
    /// The commands that were taken.
    taken: GhostLog<CommandNumber, Command>,
    /// The replies that came back.
    replied: GhostLog<CommandNumber, Reply>,
}

impl Drop for Connections {
    fn drop(self) {
        let Connections {
            dialect: _,
            table: _,
            next: _,
            first: _,
            history: _,
            taken: _,
            replied: _,
        } = self;
    }
}

impl Model for Connections {
    ghost use Rattle.connections.specs.Connections.{ConnectionsView, IsConnections};

    ghost Value = { ConnectionsView };

    ghost view = { λ c. record { dialect = c.dialect; table = c.table.items; next = c.next; first = c.first; heard = c.history.heard; given = c.history.given; passed = c.history.passed; taken = c.taken.items; replied = c.replied.items } };

    ghost invariant = { λ c. IsConnections (record { dialect = c.dialect; table = c.table.items; next = c.next; first = c.first; heard = c.history.heard; given = c.history.given; passed = c.history.passed; taken = c.taken.items; replied = c.replied.items }) };
}

impl Connections {
    ghost use Rattle.std.specs.Prelude.{◌≡◌, ◌<◌, ◌≤◌, ◌+◌, ◌^◌, ◌++◌, ◌∷◌, ◌⊎◌, [], true, false, None, Some, IfOk, IfErr, OnOk, OnErr, OnSome, IfSome, IfNone, Err, is_some};
    ghost use Rattle.memcached_spec.specs.Asked.{HasText};
    ghost use Rattle.grammar.specs.Reads.{with_mark};
    ghost use Rattle.connections.specs.Connection.{new_connection};
    ghost use Rattle.connections.specs.Slots.{slot_in, is_here, is_untaken_in, left_at, written_at, HasSameOthers, IsGrown};
    ghost use Rattle.connections.specs.Owed.{ReadsFurther, AnswersOn, BecomesAt, IsTakenAt, HasNoneToTake};
    ghost use Rattle.connections.specs.History.{IsHistory, given_as, moment_as};
    ghost use Rattle.connections.specs.Told.{IsToldAt, IsToldToLeave, IsFedAt, IsAnsweredAt};
    ghost use Rattle.connections.specs.declared.table.TheConstants.{MOST_SLOTS};
    ghost use Rattle.connections.specs.Connections.{IsConnections, no_connections, no_connections_from, HasSameLogs, PassesOn, AreBefore, AreReplied};

    /// No connection came. Their bytes are to be read in this grammar.
    pub fn new(alloc: Global, dialect: Dialect) -> Connections
        ensures { result ≡ no_connections dialect }
    {
        Connections::from(alloc, dialect, 0)
    }

    /// No connection came, and the first one that comes has this number at least: numbers below it were those of
    /// connections of a process before this one.
    pub fn from(alloc: Global, dialect: Dialect, first: u64) -> Connections
        ensures { result ≡ no_connections_from dialect first }
    {
        Connections {
            dialect,
            table: Vec::new(alloc),
            next: first,
            first,
            history: History::new(),
            taken: GhostLog::new(),
            replied: GhostLog::new(),
        }
    }

    /// In which grammar their bytes are read.
    pub fn dialect(&self) -> Dialect
        ensures { result ≡ self.now.dialect }
    {
        self.dialect
    }

    /// The least number that the next connection may have.
    pub fn next(&self) -> u64
        ensures { result ≡ self.now.next }
    {
        self.next
    }

    /// A connection comes. Connections are numbered by rising numbers; the event loop may use a key again after
    /// its connection left.
    ///
    /// After an error no connection has changed. Unfit: the number is not above those that came, or is 2^64 - 1, or
    /// another connection is at the key; Full: the key is 65,536 or more; NoMemory: an allocation failed.
    pub fn come(&mut self, alloc: Global, at: ConnectionId) -> Result<(), Fault>
        ensures logs { HasSameLogs self.old self.new }
        ensures here { OnOk result (slot_in self.new.table at.key ≡ Some (new_connection self.old.dialect at.number)) }
        ensures next { OnOk result ((self.old.next ≤ at.number) × (self.new.next ≡ at.number + 1)) }
        ensures err { OnErr result (self.new.next ≡ self.old.next) }
        ensures same { OnErr result (IsGrown self.old.table self.new.table) }
        ensures same_others { HasSameOthers at.key self.old.table self.new.table }
        ensures unfit { result ≡ Err Fault.Unfit → (at.number < self.old.next) ⊎ (is_some (slot_in self.old.table at.key) ≡ true) ⊎ (at.number + 1 ≡ 2 ^ 64) }
        ensures full { result ≡ Err Fault.Full → MOST_SLOTS ≤ at.key }
        ensures only { IfErr result (λ fault. (fault ≡ Fault.Unfit) ⊎ (fault ≡ Fault.Full) ⊎ (fault ≡ Fault.NoMemory)) }
    {
        if at.number < self.next {
            return Err(Fault::Unfit);
        }
        if table::is_taken(&self.table, at.key) {
            return Err(Fault::Unfit);
        }
        let next = at.number.checked_add(1).ok_or(Fault::Unfit)?;
        table::grow_to(&mut self.table, at.key)?;
        table::put(
            &mut self.table,
            at.key,
            Connection::new(alloc, self.dialect, at.number),
        );
        self.next = next;
        Ok(())
    }

    /// Reads a piece of what comes of a connection, under these conditions: what the connection is given at once. It stays at its key unless
    /// that says that it is to be closed, and it is told whether a command of it is outstanding now.
    ///
    /// Unfit: it is not here; NoMemory: an allocation failed; Stopped: it has no number left for a command. After
    /// an error it is not here any more, and is to be closed.
    pub fn hear(
        &mut self,
        alloc: Global,
        at: ConnectionId,
        piece: Vec<u8>,
        conditions: &mut Conditions,
    ) -> Result<Said, Fault>
        ensures heard { is_here at.number self.old.table at.key ≡ true → self.new.heard ≡ self.old.heard ++ (at.number, with_mark self.old.dialect conditions.old.is_full piece.items) ∷ [] }
        ensures given { IfOk result (λ said. self.new.given ≡ self.old.given ++ (at.number, said.bytes.items) ∷ []) }
        ensures passed { is_here at.number self.old.table at.key ≡ true → PassesOn at.number (with_mark self.old.dialect conditions.old.is_full piece.items) self.old.passed self.new.passed result }
        ensures to { IfOk result (λ said. (said.key ≡ at.key) × (said.number ≡ at.number)) }
        ensures not_here { is_here at.number self.old.table at.key ≡ false → (result ≡ Err Fault.Unfit) × (self.new ≡ self.old) }
        ensures err { OnErr result (self.new.given ≡ self.old.given) }
        ensures leaves { OnErr result (is_here at.number self.new.table at.key ≡ false) }
        ensures left { OnErr result (self.new.table ≡ left_at at self.old.table) }
        ensures reads { IfOk result (λ said. BecomesAt ReadsFurther at self.old.table self.new.table) }
        ensures closes { IfOk result (λ said. said.closes ≡ true → slot_in self.new.table at.key ≡ None) }
        ensures told { IfOk result (λ said. IsToldAt at self.old.table self.new.table said) }
        ensures fed { IfOk result (λ said. IsFedAt at (with_mark self.old.dialect conditions.old.is_full piece.items) self.old.table self.new.table said) }
        ensures same_others { HasSameOthers at.key self.old.table self.new.table }
        ensures others { (self.new.taken ≡ self.old.taken) × (self.new.replied ≡ self.old.replied) × (self.new.next ≡ self.old.next) }
        ensures dialect { self.new.dialect ≡ self.old.dialect }
        ensures since { self.new.first ≡ self.old.first }
    {
        if !table::is_here(&self.table, at) {
            return Err(Fault::Unfit);
        }
        self.history
            .hear(at.number, self.dialect, conditions.is_full, &piece);
        let said = table::feed(&mut self.table, alloc, at, piece, conditions)?;
        self.history.give(at.number, &said.bytes);
        Ok(said)
    }

    /// Takes the command of a connection that was not taken. `None`: there is none, or the connection is not here.
    pub fn take(&mut self, at: ConnectionId) -> Option<Ready>
        ensures none { IfNone result (self.new ≡ self.old) }
        ensures why { IfNone result (HasNoneToTake at self.old.table) }
        ensures there { IfSome result (λ ready. IsTakenAt at self.old.table self.new.table ready) }
        ensures taken { IfSome result (λ ready. self.new.taken ≡ self.old.taken ++ (record { connection = at.number; turn = ready.turn }, ready.command) ∷ []) }
        ensures first { IfSome result (λ ready. AreBefore self.old.taken at.number ready.turn) }
        ensures in_turn { IfSome result (λ ready. AreReplied self.old.replied at.number ready.turn) }
        ensures text { IfSome result (λ ready. HasText ready.command ready.quiet) }
        ensures same_others { HasSameOthers at.key self.old.table self.new.table }
        ensures others { (self.new.heard ≡ self.old.heard) × (self.new.given ≡ self.old.given) × (self.new.passed ≡ self.old.passed) × (self.new.replied ≡ self.old.replied) × (self.new.next ≡ self.old.next) }
        ensures dialect { self.new.dialect ≡ self.old.dialect }
        ensures since { self.new.first ≡ self.old.first }
    {
        let ready = table::take(&mut self.table, at)?;
        let number = CommandNumber {
            connection: at.number,
            turn: ready.turn,
        };
        self.taken = self.taken.and(&number, &ready.command);
        Some(ready)
    }

    /// Gives a connection the reply to its command of this number: what it is given. It stays at its key unless that
    /// says that it is to be closed, and it is told whether its next command is outstanding now. `None`: it is not here
    /// any more, and the reply is let go. If memory is wanted it leaves, and is told to close.
    pub fn answer(
        &mut self,
        alloc: Global,
        at: ConnectionId,
        turn: u64,
        reply: Reply,
    ) -> Option<Said>
        ensures none { IfNone result (self.new ≡ self.old) }
        ensures here { is_some result ≡ is_here at.number self.old.table at.key }
        ensures answers { IfSome result (λ said. BecomesAt (AnswersOn turn) at self.old.table self.new.table) }
        ensures replied { OnSome result (self.new.replied ≡ self.old.replied ++ (record { connection = at.number; turn = turn }, reply) ∷ []) }
        ensures given { IfSome result (λ said. self.new.given ≡ self.old.given ++ (at.number, said.bytes.items) ∷ []) }
        ensures passed { IfSome result (λ said. self.new.passed ≡ self.old.passed ++ given_as at.number said.bytes.items ∷ []) }
        ensures to { IfSome result (λ said. (said.key ≡ at.key) × (said.number ≡ at.number)) }
        ensures closes { IfSome result (λ said. said.closes ≡ true → slot_in self.new.table at.key ≡ None) }
        ensures told { IfSome result (λ said. IsToldAt at self.old.table self.new.table said) }
        ensures answered { IfSome result (λ said. IsAnsweredAt at turn reply self.old.table self.new.table said) }
        ensures same_others { HasSameOthers at.key self.old.table self.new.table }
        ensures others { (self.new.heard ≡ self.old.heard) × (self.new.taken ≡ self.old.taken) × (self.new.next ≡ self.old.next) }
        ensures dialect { self.new.dialect ≡ self.old.dialect }
        ensures since { self.new.first ≡ self.old.first }
    {
        if !table::is_here(&self.table, at) {
            return None;
        }
        let number = CommandNumber {
            connection: at.number,
            turn,
        };
        self.replied = self.replied.and(&number, &reply);
        let said = table::answer(&mut self.table, alloc, at, turn, reply)?;
        self.history.give(at.number, &said.bytes);
        Some(said)
    }

    /// A connection leaves. If it is not here nothing changes.
    pub fn leave(&mut self, at: ConnectionId)
        ensures left { is_here at.number self.new.table at.key ≡ false }
        ensures same_others { HasSameOthers at.key self.old.table self.new.table }
        ensures table { self.new ≡ record self.old { table = left_at at self.old.table } }
    {
        table::leave(&mut self.table, at);
    }

    /// A connection leaves for want of memory: what it is told. `None`: it is not here.
    pub fn drop_out(&mut self, alloc: Global, at: ConnectionId) -> Option<Said>
        ensures none { IfNone result (self.new ≡ self.old) }
        ensures here { is_some result ≡ is_here at.number self.old.table at.key }
        ensures given { IfSome result (λ said. self.new.given ≡ self.old.given ++ (at.number, said.bytes.items) ∷ []) }
        ensures passed { IfSome result (λ said. self.new.passed ≡ self.old.passed ++ given_as at.number said.bytes.items ∷ []) }
        ensures to { IfSome result (λ said. (said.key ≡ at.key) × (said.number ≡ at.number) × (said.closes ≡ true)) }
        ensures left { OnSome result (self.new.table ≡ left_at at self.old.table) }
        ensures told { IfSome result (λ said. IsToldAt at self.old.table self.new.table said) }
        ensures fails { IfSome result (λ said. IsToldToLeave at self.new.table said) }
        ensures others { (self.new.heard ≡ self.old.heard) × (self.new.taken ≡ self.old.taken) × (self.new.replied ≡ self.old.replied) × (self.new.next ≡ self.old.next) }
        ensures dialect { self.new.dialect ≡ self.old.dialect }
        ensures since { self.new.first ≡ self.old.first }
    {
        if !table::is_here(&self.table, at) {
            return None;
        }
        table::leave(&mut self.table, at);
        let said = Said::last(alloc, at.key, at.number);
        self.history.give(at.number, &said.bytes);
        Some(said)
    }

    /// So many of the bytes that a connection was given are written. If it is not here nothing changes. While 256 KB
    /// or more are not written its command is not taken.
    pub fn written(&mut self, at: ConnectionId, count: usize)
        ensures { self.new ≡ record self.old { table = written_at at count self.old.table } }
    {
        table::written(&mut self.table, at, count);
    }

    /// Whether a connection is here and has a command that was not taken.
    pub fn is_ready(&self, at: ConnectionId) -> bool
        ensures { result ≡ is_untaken_in at.number self.now.table at.key }
    {
        table::is_ready(&self.table, at)
    }

    /// From now on it is this moment, in seconds. It is noted between what passes.
    pub fn note(&mut self, alloc: Global, moment: u32)
        ensures passed { self.new.passed ≡ self.old.passed ++ moment_as moment ∷ [] }
        ensures others { self.new ≡ record self.old { passed = self.new.passed } }
    {
        self.history.note(alloc, moment);
    }

    /// What always holds of them. It does nothing.
    pub fn always(&self)
        ensures connections { IsConnections self.now }
        ensures history { IsHistory (record { heard = self.now.heard; given = self.now.given; passed = self.now.passed }) }
    {
        self.history.always();
    }
}

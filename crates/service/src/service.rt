//! The service, and what comes from outside.

ghost use Rattle.std.specs.Prelude.{◌≡◌};

use crate::assignment::Assignment;
use crate::counting::Counting;
use crate::hearing::{hear_at, write_at};
use crate::incidents::Incidents;
use crate::nodes::Nodes;
use crate::note::Waiting;
use crate::pool::Pool;
use connections::{ConnectionId, Connections, Dialect};
use ensemble::{Config, Ensemble};
use figures::Figures;
use ghost_log::GhostLog;
use loop_messages::Said;
use proto::Fault;
use std::alloc::Global;
use std::collections::VecDeque;
use std::marker::Model;

/// Connections over the client proxies of one ensemble. It cannot be dropped: `end` ends it.
pub struct Service {
    pub(crate) ensemble: Ensemble,
    pub(crate) connections: Connections,
    /// Those whose command waits for a proxy, in order. Some may have left.
    pub(crate) queue: VecDeque<Waiting>,
    pub(crate) pool: Pool,
    pub(crate) nodes: Nodes,
    pub(crate) u: u8,
    pub(crate) suspicions: u64,
    pub(crate) counting: Counting,
    /// How often something was left undone here for want of memory.
    pub(crate) refused: u64,
    /// Which command was asked as which request, each with its proxy.
    pub(crate) assignments: GhostLog<Assignment, u16>,
}

impl Model for Service {
    ghost use Rattle.std.specs.Prelude.{◌<◌, ◌+◌};
    ghost use Rattle.connections.specs.contracts.connections.Connections as of_connections;
    ghost use Rattle.sessions.specs.contracts.request.Request as of_request;
    ghost use Rattle.proto.specs.contracts.reply.Reply as of_reply;
    ghost use Rattle.ensemble.specs.contracts.noted.Noted as of_noted;
    ghost use Rattle.service.specs.contracts.assignment.Assignment as of_assignment;
    ghost use Rattle.service.specs.contracts.assignment.Outstanding as of_outstanding;
    ghost use Rattle.service.specs.contracts.note.Waiting as of_waiting;
    ghost use Rattle.service.specs.contracts.pause.Pause as of_pause;
    ghost use Rattle.ensemble.specs.contracts.ensemble.Ensemble as of_ensemble;
    ghost use Rattle.service.specs.Service.{ServiceView, IsService, HasMoments, assigned, none_shown, service_code};
    ghost use Rattle.service.specs.Owed.{Remembers};
    ghost use Rattle.service.specs.Ticks.{HavePauses};

    ghost Value = { ServiceView };

    ghost coded = { service_code of_connections.the_row.coded of_request.the_row.coded of_reply.the_row.coded of_noted.the_row.coded of_assignment.the_row.coded of_outstanding.the_row.coded of_waiting.the_row.coded of_ensemble.the_row.coded of_pause.the_row.coded };

    ghost view = { λ s. record { connections = s.connections; asked = s.ensemble.asked; answered = s.ensemble.answered; order = s.ensemble.order; assignments = assigned s.assignments.items; waiting = s.pool; queue = s.queue.items; replicas = record { ensemble = s.ensemble; refused = s.refused + s.ensemble.refused; pauses = s.nodes.pauses.items } } };

    ghost invariant = { λ s. IsService (record { connections = s.connections; asked = s.ensemble.asked; answered = s.ensemble.answered; order = s.ensemble.order; assignments = assigned s.assignments.items; waiting = s.pool; queue = s.queue.items; replicas = none_shown })
        × HasMoments (record { connections = s.connections; asked = s.ensemble.asked; answered = s.ensemble.answered; order = s.ensemble.order; assignments = assigned s.assignments.items; waiting = s.pool; queue = s.queue.items; replicas = none_shown }) × HavePauses s.u s.ensemble.nodes s.nodes.members s.nodes.pauses.items × Remembers s.queue.items s.pool s.connections.table };
}

impl Service {
    ghost use Rattle.std.specs.Prelude.{◌≡◌, ◌≢◌, ◌<◌, ◌≤◌, ◌+◌, ◌-◌, ◌^◌, ◌++◌, ◌∷◌, ◌⊎◌, ℕ, Bool, [], min, true, false, None, Some, Err, is_some, IfOk, IfErr, OnOk, OnErr};
    ghost use Rattle.grammar.specs.Reads.{with_mark};
    ghost use Rattle.connections.specs.Connection.{new_connection};
    ghost use Rattle.connections.specs.Slots.{slot_in, is_here, left_at, written_at, HasSameOthers, IsGrown};
    ghost use Rattle.connections.specs.Connections.{HasSameLogs, no_connections};
    ghost use Rattle.connections.specs.declared.table.TheConstants.{MOST_SLOTS};
    ghost use Rattle.connections.specs.Told.{IsToldAt};
    ghost use Rattle.service.specs.Service.{HasSameRequests, IsSameProcess, Hears};
    ghost use Rattle.service.specs.Process.{IsServiceAlone, IsProcess};
    ghost use Rattle.ensemble.specs.Process.{IsEnsembleAfter};
    ghost use Rattle.ensemble.specs.First.{AreAllUp};
    ghost use Rattle.service.specs.Steps.{NoneWaits};
    ghost use Rattle.service.specs.Owed.{AllWait, IsFreeIn};
    ghost use Rattle.service.specs.Ticks.{AreAllUpIn, EachHasPause};

    /// A service to which no connection came, over `2u + 1` executors, as many verifiers, and as many proxies as
    /// the config has clients. What connections send is read in this grammar.
    ///
    /// The only error is NoMemory: an allocation failed.
    pub fn open(alloc: Global, config: &Config, dialect: Dialect) -> Result<Service, Fault>
        ensures connections { IfOk result (λ s. s.connections ≡ no_connections dialect) }
        ensures asked { IfOk result (λ s. s.asked ≡ []) }
        ensures answered { IfOk result (λ s. s.answered ≡ []) }
        ensures order { IfOk result (λ s. s.order ≡ []) }
        ensures up { IfOk result (λ s. AreAllUp config.now.u config.now.clients s.replicas.ensemble.nodes) }
        ensures found { IfOk result (λ s. s.replicas.ensemble.found ≡ None) }
        ensures only { IfErr result (λ fault. fault ≡ Fault.NoMemory) }
    {
        let u = config.u();
        let pool = Pool::new(alloc, config.clients())?;
        let nodes = Nodes::new(alloc, u)?;
        let members = nodes.members();
        let ensemble = Ensemble::open(alloc, config)?;
        Ok(Service {
            ensemble,
            connections: Connections::new(alloc, dialect),
            queue: VecDeque::new(alloc),
            pool,
            nodes,
            u,
            suspicions: 0,
            counting: Counting::new(members),
            refused: 0,
            assignments: GhostLog::new(),
        })
    }

    /// A connection comes. `key` is where the event loop keeps it, and is used again after it left; `number` is
    /// above those of all connections that came before.
    ///
    /// After an error no connection has changed, and this one is to be closed. Unfit: the number is not above the
    /// others, or is 2^64 - 1, or a connection is at the key; Full: the key is 65,536 or more; NoMemory: an allocation
    /// failed.
    pub fn come(&mut self, alloc: Global, key: usize, number: u64) -> Result<(), Fault>
        ensures here { OnOk result (slot_in self.new.connections.table key ≡ Some (new_connection self.old.connections.dialect number)) }
        ensures same { OnErr result (IsGrown self.old.connections.table self.new.connections.table) }
        ensures same_others { HasSameOthers key self.old.connections.table self.new.connections.table }
        ensures unfit { result ≡ Err Fault.Unfit → (number < self.old.connections.next) ⊎ (is_some (slot_in self.old.connections.table key) ≡ true) ⊎ (number + 1 ≡ 2 ^ 64) }
        ensures full { result ≡ Err Fault.Full → MOST_SLOTS ≤ key }
        ensures only { IfErr result (λ fault. (fault ≡ Fault.Unfit) ⊎ (fault ≡ Fault.Full) ⊎ (fault ≡ Fault.NoMemory)) }
        ensures logs { HasSameLogs self.old.connections self.new.connections }
        ensures requests { HasSameRequests self.old self.new }
        ensures process { IsSameProcess self.old self.new }
    {
        self.connections.come(alloc, ConnectionId { key, number })
    }

    /// Reads a piece of what comes of a connection: what the connection is given at once, before its command, if
    /// it asks one, is answered by `work`. It stays at its key unless that says that it is to be closed, and it is told
    /// whether a command of it is outstanding now.
    ///
    /// Unfit: it is not here; NoMemory: an allocation failed; Stopped: it has no number left for a command. After
    /// an error it has left, and is to be closed. Nothing else has changed.
    pub fn hear(
        &mut self,
        alloc: Global,
        key: usize,
        number: u64,
        piece: Vec<u8>,
    ) -> Result<Said, Fault>
        ensures hears { (full : Bool) × Hears key number (with_mark self.old.connections.dialect full piece.items) self.old.connections self.new.connections result }
        ensures leaves { OnErr result (is_here number self.new.connections.table key ≡ false) }
        ensures closes { IfOk result (λ said. said.closes ≡ true → slot_in self.new.connections.table key ≡ None) }
        ensures told { IfOk result (λ said. IsToldAt (record { key = key; number = number }) self.old.connections.table self.new.connections.table said) }
        ensures same_others { HasSameOthers key self.old.connections.table self.new.connections.table }
        ensures requests { HasSameRequests self.old self.new }
        ensures process { IsSameProcess self.old self.new }
    {
        self.counting.decide(&self.ensemble);
        let micros = self.counting.micros();
        let heard = hear_at(
            alloc,
            &mut self.connections,
            &mut self.queue,
            ConnectionId { key, number },
            piece,
            &mut self.counting.conditions,
            micros,
        );
        self.counting.hear(&heard);
        self.connections.always();
        heard
    }

    /// So many of the bytes that a connection was given are written. While 256 KB or more are not written its next
    /// command is not asked. If the connection is not here nothing changes.
    ///
    /// `false`: there is no memory for it in the queue. It has left, and is to be closed.
    pub fn written(&mut self, key: usize, number: u64, count: usize) -> bool
        ensures written { result ≡ true → self.new.connections ≡ record self.old.connections { table = written_at (record { key = key; number = number }) count self.old.connections.table } }
        ensures leaves { result ≡ false → is_here number self.new.connections.table key ≡ false }
        ensures left { result ≡ false → self.new.connections.table ≡ left_at (record { key = key; number = number }) self.old.connections.table }
        ensures logs { HasSameLogs self.old.connections self.new.connections }
        ensures requests { HasSameRequests self.old self.new }
        ensures process { IsSameProcess self.old self.new }
    {
        let at = ConnectionId { key, number };
        write_at(
            &mut self.connections,
            &mut self.queue,
            at,
            count,
            self.counting.micros(),
        )
    }

    /// A connection has left. Its command, if one was asked, is carried out; its reply is let go when it comes. If the
    /// connection is not here nothing changes.
    pub fn leave(&mut self, key: usize, number: u64)
        ensures leaves { is_here number self.new.connections.table key ≡ false }
        ensures left { self.new.connections.table ≡ left_at (record { key = key; number = number }) self.old.connections.table }
        ensures logs { HasSameLogs self.old.connections self.new.connections }
        ensures requests { HasSameRequests self.old self.new }
        ensures process { IsSameProcess self.old self.new }
    {
        self.connections.leave(ConnectionId { key, number });
    }

    /// Whether `work` has something to do at once: a command waits, and a proxy is free.
    pub fn is_ready(&self) -> bool
        ensures no { result ≡ false → (self.now.queue ≡ []) ⊎ AllWait self.now.waiting }
        ensures yes { result ≡ true → (proxy : ℕ) × IsFreeIn self.now.waiting proxy }
    {
        !self.queue.is_empty() && self.pool.free().is_some()
    }

    /// Whether something waits for a tick: a request is not answered, or a node is down.
    pub fn is_waiting(&self) -> bool
        ensures no { result ≡ false → (self.now.queue ≡ []) × NoneWaits self.now.waiting }
        ensures up { result ≡ false → AreAllUpIn self.now.replicas }
    {
        if !self.queue.is_empty() {
            return true;
        }
        if self.pool.is_waiting() {
            return true;
        }
        if self.has_asked_for_nobody() {
            return true;
        }
        self.is_any_down()
    }

    /// How often something was left undone for want of memory, or since a bound was reached: see `Ensemble::refused`.
    /// It stays at 2^64 - 1.
    pub fn refused(&self) -> u64
        ensures { result ≡ min self.now.replicas.refused (2 ^ 64 - 1) }
    {
        self.refused.saturating_add(self.ensemble.refused())
    }

    /// What it has come through.
    pub fn incidents(&self) -> Incidents {
        Incidents {
            suspicions: self.suspicions,
            rollbacks: self.ensemble.epoch().saturating_sub(1),
        }
    }

    /// It is now so late by the caller's clock, in microseconds. It is read before connections are heard and after each
    /// `work`. Times are counted by it, and nothing is decided.
    pub fn set_micros(&mut self, micros: u64)
        ensures { self.new ≡ self.old }
    {
        self.counting.set_micros(micros);
    }

    /// What was counted, and where the replicas are; `stats` shows these from now on. The bytes of the items are counted in
    /// each call. Left 0 is what only the event loop and the system know.
    pub fn figures(&mut self) -> Figures
        ensures same { self.new ≡ self.old }
    {
        self.counting.look(&self.ensemble);
        let mut figures = self.counting.conditions.figures;
        self.show_replicas(&mut figures);
        figures.memory.refusals = self.refused().saturating_add(self.counting.closed());
        self.counting.conditions.figures = figures;
        figures
    }

    /// The items are to have at most so many bytes, with their keys. While they have more, storage commands are refused
    /// in the dialect with a limit. 0: as many as there is memory for.
    pub fn set_limit(&mut self, bytes: u64)
        ensures { self.new ≡ self.old }
    {
        self.counting.set_limit(bytes);
    }

    /// Takes over the parts of these figures that only the event loop and the system know, for `stats`: the process,
    /// its time, its connections and how many there may be.
    pub fn see(&mut self, seen: &Figures)
        ensures { self.new ≡ self.old }
    {
        self.counting.see(seen);
    }

    /// What always holds of it: of itself alone, of its replicas, and of all that was asked and given, also before its process
    /// began if it was reopened. It does nothing.
    pub fn shows(&self)
        ensures own { IsServiceAlone self.now }
        ensures ensemble { IsEnsembleAfter self.now.replicas.ensemble.found self.now.replicas.ensemble }
        ensures process { IsProcess self.now }
        ensures pauses { EachHasPause self.now.replicas }
    {
        self.connections.always();
        self.ensemble.shows();
    }

    /// Ends it.
    pub fn end(self) {
        let Service {
            ensemble,
            connections,
            queue,
            pool,
            nodes,
            u: _,
            suspicions: _,
            counting,
            refused: _,
            assignments: _,
        } = self;
        drop(counting);
        ensemble.end();
        drop(connections);
        drop(queue);
        drop(pool);
        drop(nodes);
    }
}

//! All figures.

ghost use Rattle.std.specs.Prelude.{◌≡◌, ◌≢◌, ◌∷◌, [], ◌<◌};
ghost use Rattle.figures.specs.Count.{up, sum_of};
ghost use Rattle.figures.specs.Outcome.{outcome_of};
ghost use Rattle.figures.specs.Asked.{found_of};
ghost use Rattle.figures.specs.Commands.{kind_count};
ghost use Rattle.figures.specs.declared.kind.Kind.{Kind};
ghost use Rattle.figures.specs.declared.outcome.Outcome.{Outcome};

use crate::asked::{Asked, found_in};
use crate::commands::Commands;
use crate::count::plus;
use crate::histogram::Histogram;
use crate::node::{MOST_NODES, NodeFigures};
use crate::outcome::Outcome;
use crate::refusal::Refusals;
use proto::Reply;

/// The version of the daemon. `CHANGELOG.md` says what its numbers mean.
pub const VERSION: &str = "2.1.0";

/// Connections of clients.
#[derive(Clone, Copy, Debug, PartialEq, Eq, Default)]
pub struct Connections {
    /// Open now.
    pub open: u64,
    /// Accepted since the start.
    pub accepted: u64,
    /// Closed at once since the limit was reached.
    pub refused: u64,
    /// Closed since nothing happened on them for as long as is allowed.
    pub idle: u64,
    /// How often a connection could not be accepted, as at the limit on descriptors.
    pub failed: u64,
    /// Bytes read from all connections.
    pub bytes_read: u64,
    /// Bytes written to all connections.
    pub bytes_written: u64,
}

/// Keys of `get`, `gets`, `gat` and `gats`.
#[derive(Clone, Copy, Debug, PartialEq, Eq, Default)]
pub struct Keys {
    pub asked: u64,
    pub found: u64,
}

/// Batches of requests.
#[derive(Clone, Copy, Debug, PartialEq, Eq, Default)]
pub struct Batches {
    /// Cut by the leading executor.
    pub cut: u64,
    /// Requests in all of them.
    pub requests: u64,
    /// Decided as Commits.
    pub committed: u64,
    /// Decided as Rollbacks.
    pub rolled_back: u64,
}

/// What the parts of a batch's way took. Each of the last three is one time for all batches of a round.
#[derive(Clone, Copy, Debug, PartialEq, Eq)]
pub struct BatchParts {
    /// From when a command could be asked to when a proxy asked it.
    pub wait: Histogram,
    /// While executors ran batches.
    pub execute: Histogram,
    /// From then to the first decree that an executor heard.
    pub agree: Histogram,
    /// From then until no letter was under way.
    pub commit: Histogram,
}

/// The replicas.
#[derive(Clone, Copy, Debug, PartialEq, Eq)]
pub struct Replicas {
    /// How many executors there are, and as many verifiers: 1, 3, 5 or 7.
    pub members: u8,
    /// The executors. Those from `members` on are not there.
    pub executors: [NodeFigures; MOST_NODES],
    /// The verifiers. Those from `members` on are not there.
    pub verifiers: [NodeFigures; MOST_NODES],
    /// The epoch, which each Rollback raises. The first is 1.
    pub epoch: u64,
    /// The view of the verifiers, which each change of the leader raises.
    pub view: u64,
    /// The number of the last state that was committed.
    pub number: u64,
    /// How often a verifier heard that the leader is suspected.
    pub suspicions: u64,
}

/// What is stored, and what it takes.
#[derive(Clone, Copy, Debug, PartialEq, Eq, Default)]
pub struct Memory {
    /// Items in one state.
    pub items: u64,
    /// Bytes of their keys and blocks.
    pub item_bytes: u64,
    /// Resident memory of the process in bytes. 0: it is not known.
    pub resident_bytes: u64,
    /// How often the service was refused memory, or stopped at a bound, and left something undone.
    pub refusals: u64,
}

/// What is saved before it is answered. All are 0 if nothing is (`--data`).
#[derive(Clone, Copy, Debug, PartialEq, Eq)]
pub struct Saves {
    /// Saves that succeeded.
    pub made: u64,
    /// Saves that failed.
    pub failed: u64,
    /// Messages to connections that wait for a save.
    pub waiting: u64,
    /// 1 if the last save failed, so that nothing is answered; else 0.
    pub failing: u64,
    /// Bytes of the files in all folders.
    pub bytes: u64,
    /// Folders in which it is saved, each with a copy.
    pub folders: u64,
    /// Of these, those whose copy is of the last save.
    pub current_folders: u64,
    /// What each save took, also one that failed.
    pub times: Histogram,
}

/// The process.
#[derive(Clone, Copy, Debug, PartialEq, Eq, Default)]
pub struct Process {
    /// Its number in the system. 0: it is not known.
    pub id: u64,
    /// The moment at which it began, in seconds since 1970. 0: it is not known.
    pub started: u64,
}

/// The limits that a server was started with.
#[derive(Clone, Copy, Debug, PartialEq, Eq, Default)]
pub struct Limits {
    /// Connections that are served at once. 0: it is not known.
    pub connections: u64,
    /// Seconds after which a connection on which nothing happens is closed. 0: none is.
    pub idle_seconds: u64,
    /// Bytes of keys and blocks above which nothing more is stored. 0: there is no limit.
    pub item_bytes: u64,
}

/// All that a server counts, and how far it is. It can be copied.
#[derive(Clone, Copy, Debug, PartialEq, Eq)]
pub struct Figures {
    /// Seconds since the start.
    pub uptime_seconds: u64,
    pub process: Process,
    pub limits: Limits,
    pub connections: Connections,
    /// Commands that were answered, by kind and outcome.
    pub commands: Commands,
    /// Lines that were answered by an error or closed the connection, by why.
    pub refusals: Refusals,
    pub keys: Keys,
    pub batches: Batches,
    pub replicas: Replicas,
    pub memory: Memory,
    pub saves: Saves,
    /// From when bytes of a connection were read to when all that answers them was written.
    pub reply_times: Histogram,
    /// The rounds of the service that answered a command.
    pub batch_times: Histogram,
    pub batch_parts: BatchParts,
}

impl Connections {
    /// No connection came.
    pub const NONE: Connections = Connections {
        open: 0,
        accepted: 0,
        refused: 0,
        idle: 0,
        failed: 0,
        bytes_read: 0,
        bytes_written: 0,
    };
}

impl Process {
    /// Nothing is known of it.
    pub const NONE: Process = Process { id: 0, started: 0 };
}

impl Limits {
    /// There is none.
    pub const NONE: Limits = Limits {
        connections: 0,
        idle_seconds: 0,
        item_bytes: 0,
    };
}

impl Keys {
    /// No key was asked.
    pub const NONE: Keys = Keys { asked: 0, found: 0 };
}

impl Batches {
    /// No batch was cut.
    pub const NONE: Batches = Batches {
        cut: 0,
        requests: 0,
        committed: 0,
        rolled_back: 0,
    };
}

impl BatchParts {
    /// There was no batch.
    pub const NONE: BatchParts = BatchParts {
        wait: Histogram::NONE,
        execute: Histogram::NONE,
        agree: Histogram::NONE,
        commit: Histogram::NONE,
    };
}

impl Replicas {
    /// No replica is there.
    pub const NONE: Replicas = Replicas {
        members: 0,
        executors: [NodeFigures::NONE; MOST_NODES],
        verifiers: [NodeFigures::NONE; MOST_NODES],
        epoch: 0,
        view: 0,
        number: 0,
        suspicions: 0,
    };
}

impl Memory {
    /// Nothing is stored.
    pub const NONE: Memory = Memory {
        items: 0,
        item_bytes: 0,
        resident_bytes: 0,
        refusals: 0,
    };
}

impl Saves {
    /// Nothing is saved.
    pub const NONE: Saves = Saves {
        made: 0,
        failed: 0,
        waiting: 0,
        failing: 0,
        bytes: 0,
        folders: 0,
        current_folders: 0,
        times: Histogram::NONE,
    };
}

impl Figures {
    /// Nothing was counted.
    pub const NONE: Figures = Figures {
        uptime_seconds: 0,
        process: Process::NONE,
        limits: Limits::NONE,
        connections: Connections::NONE,
        commands: Commands::NONE,
        refusals: Refusals::NONE,
        keys: Keys::NONE,
        batches: Batches::NONE,
        replicas: Replicas::NONE,
        memory: Memory::NONE,
        saves: Saves::NONE,
        reply_times: Histogram::NONE,
        batch_times: Histogram::NONE,
        batch_parts: BatchParts::NONE,
    };

    /// A command was answered.
    pub fn answer(&mut self, asked: Asked, reply: &Reply)
        ensures counted { kind_count self.new.commands asked.kind (outcome_of reply.now) ≡ up (kind_count self.old.commands asked.kind (outcome_of reply.now)) }
        ensures outcomes { (other : Outcome) → other ≢ outcome_of reply.now → kind_count self.new.commands asked.kind other ≡ kind_count self.old.commands asked.kind other }
        ensures kinds { (other : Kind) → (any : Outcome) → other ≢ asked.kind → kind_count self.new.commands other any ≡ kind_count self.old.commands other any }
        ensures keys { self.new.keys ≡ record { asked = sum_of self.old.keys.asked asked.keys; found = sum_of self.old.keys.found (found_of reply.now) } }
        ensures others { self.new ≡ record self.old { commands = self.new.commands; keys = self.new.keys } }
    {
        self.commands.count(asked.kind, Outcome::of(reply));
        self.keys = Keys {
            asked: plus(self.keys.asked, asked.keys),
            found: plus(self.keys.found, found_in(reply)),
        };
    }
}

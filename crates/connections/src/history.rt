//! What came of connections, and what they were given.

ghost use Rattle.std.specs.Prelude.{◌≡◌};

use ghost_log::GhostLog;
use grammar::Dialect;
use std::alloc::Global;
use std::marker::Model;

/// What a thing is that passed.
#[derive(Clone, Copy)]
pub enum Passing {
    /// A piece that came of the connection of this number.
    Heard(u64),
    /// What that connection was given.
    Given(u64),
    /// From then on it was this moment, in seconds.
    Moment(u32),
}

/// A connection, and under which condition a piece of it was read: it comes with that in a dialect with a limit.
#[derive(Clone, Copy)]
struct Hearing {
    number: u64,
    dialect: Dialect,
    is_full: bool,
}

/// What a thing is, and under which condition it passed. What is given has none, as a piece in the profile.
#[derive(Clone, Copy)]
struct PassedAs {
    passing: Passing,
    dialect: Dialect,
    is_full: bool,
}

impl PassedAs {
    ghost use Rattle.std.specs.Prelude.{◌≡◌, false};
    ghost use Rattle.grammar.specs.declared.reader.Dialect.TheVariants.{Profile};

    /// It passed under no condition.
    fn plain(passing: Passing) -> PassedAs
        ensures { result ≡ record { passing = passing; dialect = Profile; is_full = false } }
    {
        PassedAs {
            passing,
            dialect: Dialect::Profile,
            is_full: false,
        }
    }
}

/// All that ever came of connections, and all that they were given. It is known to the proof alone: a log has no bytes.
pub struct History {
    /// What came of each connection.
    heard: GhostLog<Hearing, Vec<u8>>,
    /// What each connection was given.
    given: GhostLog<u64, Vec<u8>>,
    /// Both, in one order, with the moments between them.
    passed: GhostLog<PassedAs, Vec<u8>>,
}

impl Drop for History {
    fn drop(self) {
        let History {
            heard: _,
            given: _,
            passed: _,
        } = self;
    }
}

impl Model for History {
    ghost use Rattle.connections.specs.History.{HistoryView, IsHistory};
    ghost use Rattle.connections.specs.Logs.{logged, heard_logged, passed_logged};

    ghost Value = { HistoryView };

    ghost view = { λ h. record { heard = heard_logged h.heard.items; given = logged h.given.items; passed = passed_logged h.passed.items } };

    ghost invariant = { λ h. IsHistory (record { heard = heard_logged h.heard.items; given = logged h.given.items; passed = passed_logged h.passed.items }) };
}

impl History {
    ghost use Rattle.std.specs.Prelude.{◌≡◌, ◌++◌, ◌∷◌, []};
    ghost use Rattle.grammar.specs.Reads.{with_mark};
    ghost use Rattle.connections.specs.History.{IsHistory, no_history, heard_as, given_as, moment_as};

    /// Nothing came.
    pub fn new() -> History
        ensures { result ≡ no_history }
    {
        History {
            heard: GhostLog::new(),
            given: GhostLog::new(),
            passed: GhostLog::new(),
        }
    }

    /// This piece came of the connection of this number, and was read in this grammar, under this condition.
    #[tactic(auto, using(crate::proofs::HistoryLemmas::heard_logged_more, crate::proofs::HistoryLemmas::passed_logged_more))]
    pub fn hear(&mut self, number: u64, dialect: Dialect, is_full: bool, piece: &Vec<u8>)
        ensures heard { self.new.heard ≡ self.old.heard ++ (number, with_mark dialect is_full piece.now.items) ∷ [] }
        ensures given { self.new.given ≡ self.old.given }
        ensures passed { self.new.passed ≡ self.old.passed ++ heard_as number (with_mark dialect is_full piece.now.items) ∷ [] }
    {
        let hearing = Hearing {
            number,
            dialect,
            is_full,
        };
        let passed = PassedAs {
            passing: Passing::Heard(number),
            dialect,
            is_full,
        };
        self.heard = self.heard.and(&hearing, piece);
        self.passed = self.passed.and(&passed, piece);
    }

    /// The connection of this number was given these bytes.
    #[tactic(auto, using(crate::proofs::HistoryLemmas::logged_more, crate::proofs::HistoryLemmas::passed_logged_more))]
    pub fn give(&mut self, number: u64, bytes: &Vec<u8>)
        ensures given { self.new.given ≡ self.old.given ++ (number, bytes.now.items) ∷ [] }
        ensures heard { self.new.heard ≡ self.old.heard }
        ensures passed { self.new.passed ≡ self.old.passed ++ given_as number bytes.now.items ∷ [] }
    {
        self.given = self.given.and(&number, bytes);
        let passed = PassedAs::plain(Passing::Given(number));
        self.passed = self.passed.and(&passed, bytes);
    }

    /// From now on it is this moment, in seconds.
    #[tactic(auto, using(crate::proofs::HistoryLemmas::passed_logged_more))]
    pub fn note(&mut self, alloc: Global, moment: u32)
        ensures heard { self.new.heard ≡ self.old.heard }
        ensures given { self.new.given ≡ self.old.given }
        ensures passed { self.new.passed ≡ self.old.passed ++ moment_as moment ∷ [] }
    {
        let nothing = Vec::new(alloc);
        let passed = PassedAs::plain(Passing::Moment(moment));
        self.passed = self.passed.and(&passed, &nothing);
    }

    /// What always holds of it. It does nothing.
    pub fn always(&self)
        ensures { IsHistory self.now }
    {
        let _ = &self.heard;
    }
}

//! Commands that were answered.

ghost use Rattle.std.specs.Prelude.{◌≡◌, ◌≢◌, slice_index};
ghost use Rattle.figures.specs.Count.{up};
ghost use Rattle.figures.specs.Commands.{outcome_count, kind_count};
ghost use Rattle.figures.specs.declared.kind.Kind.{Kind};
ghost use Rattle.figures.specs.declared.outcome.Outcome.{Outcome};

use crate::count::one_more;
use crate::kind::{KINDS, Kind};
use crate::outcome::{OUTCOMES, Outcome};

/// How many replies had each outcome.
#[derive(Clone, Copy, Debug, PartialEq, Eq)]
pub struct Outcomes {
    counts: [u64; OUTCOMES],
}

/// How many commands of each kind had each outcome.
#[derive(Clone, Copy, Debug, PartialEq, Eq)]
pub struct Commands {
    rows: [Outcomes; KINDS],
}

impl Outcomes {
    /// No reply was counted.
    pub const NONE: Outcomes = Outcomes {
        counts: [0; OUTCOMES],
    };

    /// How many replies had the outcome.
    pub fn of(&self, outcome: Outcome) -> u64
        ensures { result ≡ outcome_count self.now outcome }
    {
        self.counts[outcome.place()]
    }

    /// One more reply had the outcome.
    pub fn count(&mut self, outcome: Outcome)
        ensures counted { outcome_count self.new outcome ≡ up (outcome_count self.old outcome) }
        ensures others { (other : Outcome) → other ≢ outcome → outcome_count self.new other ≡ outcome_count self.old other }
    {
        let place = outcome.place();
        self.counts[place] = one_more(self.counts[place]);
    }
}

impl Commands {
    /// No command was counted.
    pub const NONE: Commands = Commands {
        rows: [Outcomes::NONE; KINDS],
    };

    /// How many commands of the kind had each outcome.
    pub fn of(&self, kind: Kind) -> &Outcomes
        ensures { (outcome : Outcome) → outcome_count result.now outcome ≡ kind_count self.now kind outcome }
    {
        &self.rows[kind.place()]
    }

    /// How many commands of the kind had the outcome.
    pub fn count_of(&self, kind: Kind, outcome: Outcome) -> u64
        ensures { result ≡ kind_count self.now kind outcome }
    {
        self.of(kind).of(outcome)
    }

    /// One more command of the kind had the outcome.
    pub fn count(&mut self, kind: Kind, outcome: Outcome)
        ensures counted { kind_count self.new kind outcome ≡ up (kind_count self.old kind outcome) }
        ensures outcomes { (other : Outcome) → other ≢ outcome → kind_count self.new kind other ≡ kind_count self.old kind other }
        ensures kinds { (other : Kind) → (any : Outcome) → other ≢ kind → kind_count self.new other any ≡ kind_count self.old other any }
    {
        let row = &mut self.rows[kind.place()];
        row.count(outcome);
    }
}

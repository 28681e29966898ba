//! Turns that wait.

ghost use Rattle.std.specs.Prelude.{◌≡◌, ◌∷◌, ◌++◌, [], OnOk, OnErr, MatchOption};

use grammar::Turn;
use std::alloc::{AllocError, Global};
use std::collections::VecDeque;
use std::marker::Model;

/// Turns that wait, in order. The first one is taken without a move of the others, so that all of them
/// together are taken in linear time.
pub struct Turns {
    turns: VecDeque<Turn>,
}

impl Drop for Turns {
    fn drop(self) {
        let Turns { turns: _ } = self;
    }
}

impl Model for Turns {
    ghost use Rattle.std.specs.Prelude.{List};
    ghost use Rattle.grammar.specs.declared.turn.Turn.{Turn};

    ghost Value = { List Turn };

    ghost view = { λ a. a.turns.items };
}

impl Turns {
    /// None wait.
    pub(crate) fn new(alloc: Global) -> Turns
        ensures { result ≡ [] }
    {
        Turns {
            turns: VecDeque::new(alloc),
        }
    }

    /// Takes the first one. `None` exactly if none wait.
    pub(crate) fn take(&mut self) -> Option<Turn>
        ensures { MatchOption result ((self.old ≡ []) × (self.new ≡ [])) (λ turn. self.old ≡ turn ∷ self.new) }
    {
        self.turns.pop_front()
    }

    /// These wait behind the others. After a failed allocation, the only error, nothing has changed.
    pub(crate) fn add(&mut self, turns: Vec<Turn>) -> Result<(), AllocError>
        ensures ok { OnOk result (self.new ≡ self.old ++ turns.items) }
        ensures err { OnErr result (self.new ≡ self.old) }
    {
        let mut added = VecDeque::from_vec(turns);
        self.turns.append(&mut added)
    }

    /// Lets them go.
    pub(crate) fn clear(&mut self)
        ensures { self.new ≡ [] }
    {
        self.turns.clear();
    }
}

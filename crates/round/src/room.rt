//! Names one round: its ticket word, what it began with, and its callers.

ghost use Rattle.std.specs.Prelude.{ℕ, List};
ghost use Rattle.atomic_table.specs.Seated.{TableId};
ghost use Rattle.items.specs.Map.{Items};
ghost use Rattle.item_steps.specs.declared.step.Stamp.{Stamp};
ghost use Rattle.item_steps.specs.declared.group.Task.{Task};

use std::marker::Brand;

/// One round, for the proof alone: the word of its tickets, the items that it opened with, the place
/// of place 0, its group, and how many callers it has. A lock and a seat carry it as their type
/// parameter, so that those of two rounds are never taken for one another.
pub trait Room {
    ghost table: { TableId };

    ghost opening: { Items };

    ghost base: { Stamp };

    ghost group: { List Task };

    ghost callers: { ℕ };
}

impl Room for Brand {
    ghost use Rattle.std.specs.Prelude.{[]};
    ghost use Rattle.std.specs.FinMap as map;
    ghost use Rattle.round.specs.Histories.{no_table};

    ghost table = { no_table };

    ghost opening = { map.empty };

    ghost base = { record { moment = 0; stamp = 0 } };

    ghost group = { [] };

    ghost callers = { 0 };
}

//! The rule of the ticket word, and what each step on it tells.

use atomic_table::{Join, Play, Seat, Split, TableRule};
use item_steps::{Answer, Step};
use std::collections::LinkedList;
use std::marker::{Brand, PhantomData};

/// One step of the round. No value of it is made.
pub struct Entry {
    pub page: u64,
    pub caller: u64,
    pub place: u32,
    pub step: Step,
    pub answer: Answer,
}

/// The log of one name, a page or a caller. No value of it is made.
pub struct Held {
    pub name: u64,
    pub log: LinkedList<Entry>,
}

/// What a token knows. No value of it is made.
pub struct View {
    pub held: LinkedList<Held>,
    pub next: u64,
    pub makes: bool,
}

/// The rule of the ticket word.
pub struct Counts;

impl TableRule<u8, View, ()> for Counts {
    ghost use Rattle.round.specs.Tickets.{TicketRule, maker};

    ghost holds = { λ _ s. TicketRule s.words s.views };

    ghost first = { λ _. maker 0 };
}

/// The step that is drawn for, for the proof alone.
pub trait Said {
    ghost use Rattle.round.specs.declared.rule.Entry.{Entry};

    ghost entry: { Entry };
}

impl Said for Brand {
    ghost use Rattle.std.specs.Prelude.{[], None};
    ghost use Rattle.item_steps.specs.declared.step.Step.TheVariants as step;
    ghost use Rattle.item_steps.specs.declared.step.Answer.TheVariants as answer;

    ghost entry = { record { page = 0; caller = 0; place = 0; step = step.Read []; answer = answer.Seen None } };
}

/// A ticket is drawn for the step.
pub struct Draws<W> {
    marker: PhantomData<W>,
}

impl<W: Said> Play<u8, View> for Draws<W> {
    ghost use Rattle.round.specs.Tickets.{Drew};

    ghost then = { λ s m n w. Drew W.entry m n w };
}

/// The order of all steps is learned.
pub struct Learns;

impl Play<u8, View> for Learns {
    ghost use Rattle.round.specs.Tickets.{Learned};

    ghost then = { λ s m n w. Learned m n w };
}

/// All that a token knows goes to another.
pub struct Whole;

impl Split<View> for Whole {
    ghost use Rattle.round.specs.Tickets.{spent};

    ghost left = { λ v. spent };

    ghost right = { λ v. v };
}

impl Join<View> for Whole {
    ghost use Rattle.round.specs.Tickets.{both, spent};

    ghost both = { both };

    ghost spent = { spent };
}

/// A page and a caller that are known together are parted.
pub struct Parts;

impl Split<View> for Parts {
    ghost use Rattle.round.specs.Tickets.{page_part, caller_part};

    ghost left = { page_part };

    ghost right = { caller_part };
}

/// A page or a caller gets its name.
pub struct NewName;

impl Split<View> for NewName {
    ghost use Rattle.std.specs.Prelude.{[]};
    ghost use Rattle.round.specs.Tickets.{made, name_view};

    ghost left = { made };

    ghost right = { λ v. name_view v.next [] };
}

/// What its holder knows of the steps so far. It takes no bytes.
pub type Knowledge = Seat<u8, View>;

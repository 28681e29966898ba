//! The word that the tickets are drawn from.

ghost use Rattle.std.specs.Prelude.{◌≡◌, ℕ, true, false, ◌<◌, ◌≤◌, [], ◌∷◌, ◌++◌, IfOk};
ghost use Rattle.pages.specs.Page.{page_count};
ghost use Rattle.round.specs.Tickets.{maker, name_view, both, made, view_log, Known};

use crate::rule::{Counts, Draws, Knowledge, Learns, NewName, Parts, Said, View, Whole};
use atomic_table::Table;
use item_steps::{Answer, Step};
use std::alloc::{AllocError, Global};
use std::marker::Brand;

/// The word that the tickets of one round are drawn from.
pub struct TicketWord {
    table: Table<u8, View, (), Counts, Global>,
    pub ghost one_word: { table.shared.table_id.words ≡ 1 },
}

impl Drop for TicketWord {
    fn drop(self) {
        let TicketWord { table: _ } = self;
    }
}

impl TicketWord {
    /// A word with no ticket drawn, and the token that makes the others. The only error is want of
    /// memory.
    pub fn open(alloc: Global) -> Result<(TicketWord, Knowledge), AllocError>
        ensures { IfOk result (λ r. (r.1.table_id ≡ r.0.table.shared.table_id) × (r.1.me ≡ (maker 0, []))) }
    {
        let (table, token) = Table::of_words(alloc, &[0], &())?;
        Ok((TicketWord { table }, token))
    }

    /// A token for the next name, which has no step yet.
    pub(crate) fn new_name(&self, master: &mut Knowledge) -> Knowledge
        requires token { master.old.table_id ≡ self.now.table.shared.table_id }
        requires makes { master.old.me.0.makes ≡ true }
        ensures master { (master.new.table_id ≡ master.old.table_id) × (master.new.me ≡ (made master.old.me.0, master.old.me.1)) }
        ensures name { (result.table_id ≡ master.old.table_id) × (result.me ≡ (name_view master.old.me.0.next [], [])) }
    {
        self.table.shared.split_seat::<NewName>(master)
    }

    /// Takes in all that another token knows.
    pub(crate) fn take_in(&self, master: &mut Knowledge, other: Knowledge)
        requires tokens { (master.old.table_id ≡ self.now.table.shared.table_id) × (other.table_id ≡ self.now.table.shared.table_id) }
        requires free { other.me.1 ≡ [] }
        ensures { (master.new.table_id ≡ master.old.table_id) × (master.new.me ≡ (both master.old.me.0 other.me.0, master.old.me.1)) }
    {
        self.table.shared.join_seat::<Whole>(master, other);
    }

    /// There is an order of all steps, in which each log that the token holds is whole.
    pub(crate) fn learn(&self, token: &mut Knowledge)
        requires token { (token.old.table_id ≡ self.now.table.shared.table_id) × (token.old.me.1 ≡ []) }
        ensures { Known token.old.me.0 }
    {
        self.table.shared.load::<Learns>(token, 0);
    }

    /// Draws the ticket of one step, which from then on is in the page's log and the caller's.
    pub(crate) fn draw(
        &self,
        page: &mut Knowledge,
        caller: &mut Knowledge,
        number: usize,
        name: usize,
        place: u32,
        step: &Step,
        answer: &Answer,
    ) -> u64
        requires tokens { (page.old.table_id ≡ self.now.table.shared.table_id) × (caller.old.table_id ≡ self.now.table.shared.table_id) }
        requires page { page.old.me ≡ (name_view number (view_log page.old.me.0), []) }
        requires caller { caller.old.me ≡ (name_view name (view_log caller.old.me.0), []) }
        requires kinds { (number < page_count) × (page_count ≤ name) }
        ensures tokens { (page.new.table_id ≡ page.old.table_id) × (caller.new.table_id ≡ caller.old.table_id) }
        ensures page { page.new.me ≡ (
          name_view number (view_log page.old.me.0
              ++ (record { page = number; caller = name; place = place; step = step.now; answer = answer.now }) ∷ []),
          [],
        ) }
        ensures caller { caller.new.me ≡ (
          name_view name (view_log caller.old.me.0
              ++ (record { page = number; caller = name; place = place; step = step.now; answer = answer.now }) ∷ []),
          [],
        ) }
    {
        self.draw_said::<Brand>(page, caller, number, name, place, step, answer)
    }

    /// The page's token takes in all that the caller's knows, to which nothing is left.
    fn take_all(&self, page: &mut Knowledge, caller: &mut Knowledge)
        requires tokens { (page.old.table_id ≡ self.now.table.shared.table_id) × (caller.old.table_id ≡ self.now.table.shared.table_id) }
        requires caller { caller.old.me.0.makes ≡ false }
        ensures { (page.new.table_id ≡ page.old.table_id) × (page.new.me ≡ (both page.old.me.0 caller.old.me.0, page.old.me.1)) }
    {
        let whole = self.table.shared.split_seat::<Whole>(caller);
        self.take_in(page, whole);
    }

    fn draw_said<W: Said>(
        &self,
        page: &mut Knowledge,
        caller: &mut Knowledge,
        number: usize,
        name: usize,
        place: u32,
        step: &Step,
        answer: &Answer,
    ) -> u64
        requires said { W.entry ≡ record { page = number; caller = name; place = place; step = step.now; answer = answer.now } }
        requires tokens { (page.old.table_id ≡ self.now.table.shared.table_id) × (caller.old.table_id ≡ self.now.table.shared.table_id) }
        requires page { page.old.me ≡ (name_view number (view_log page.old.me.0), []) }
        requires caller { caller.old.me ≡ (name_view name (view_log caller.old.me.0), []) }
        requires kinds { (number < page_count) × (page_count ≤ name) }
        ensures tokens { (page.new.table_id ≡ page.old.table_id) × (caller.new.table_id ≡ caller.old.table_id) }
        ensures page { page.new.me ≡ (name_view number (view_log page.old.me.0 ++ W.entry ∷ []), []) }
        ensures caller { caller.new.me ≡ (name_view name (view_log caller.old.me.0 ++ W.entry ∷ []), []) }
    {
        self.take_all(page, caller);
        let ticket = self.table.shared.fetch_add::<Draws<W>>(page, 0, 1);
        *caller = self.table.shared.split_seat::<Parts>(page);
        ticket
    }
}

//! What lies under the lock of a page.

ghost use Rattle.std.specs.Prelude.{◌≡◌, ◌<◌, [], true, Some, OnOk, OnErr, None, slice_get};
ghost use Rattle.pages.specs.Page.{page_count, page_items};
ghost use Rattle.item_steps.specs.declared.group.Task.{Task};
ghost use Rattle.item_steps.specs.declared.step.Step.{Step};
ghost use Rattle.round.specs.Tickets.{name_view};
ghost use Rattle.pages.specs.Step.{step_page};
ghost use Rattle.round.specs.Sittings.{Sitting, SeatStep, running_in, next_of, fits};

use crate::room::Room;
use crate::rule::Knowledge;
use crate::seat::Seat;
use crate::word::TicketWord;
use item_steps::Stamp;
use pages::{PAGES, Page};
use std::alloc::{AllocError, Global};
use std::marker::{Model, PhantomData};

/// A page, and the token that knows its steps in their order.
#[derive(Drop)]
pub struct Locked<J: Room> {
    pub(crate) number: usize,
    pub(crate) page: Page,
    pub(crate) token: Knowledge,
    pub(crate) of: PhantomData<J>,
}

impl<J: Room> Model for Locked<J> {
    ghost use Rattle.std.specs.Prelude.{◌≡◌, ℕ, ◌<◌, List, []};
    ghost use Rattle.pages.specs.Page.{page_count, page_items};
    ghost use Rattle.round.specs.declared.rule.Entry.{Entry};
    ghost use Rattle.round.specs.Tickets.{name_view, view_log};
    ghost use Rattle.round.specs.Histories.{IsRoundHistory};

    ghost Value = { ℕ × List Entry };

    ghost view = { λ s. (s.number, view_log s.token.me.0) };

    ghost invariant = { λ s. (s.token.table_id ≡ J.table) × (s.token.me ≡ (name_view s.number (view_log s.token.me.0), []))
        × (s.number < page_count) × IsRoundHistory J.base s.number (page_items J.opening s.number) (view_log s.token.me.0) s.page.items };
}

impl<J: Room> Locked<J> {
    /// The page of this number as the round opens, with a token that knows of no step.
    pub(crate) fn new(number: usize, page: Page, token: Knowledge) -> Locked<J>
        requires token { (token.table_id ≡ J.table) × (token.me ≡ (name_view number [], [])) }
        requires number { number < page_count }
        requires page { page.items ≡ page_items J.opening number }
    {
        Locked {
            number,
            page,
            token,
            of: PhantomData,
        }
    }

    /// Makes the next step of the seat's request of this index, which is a step of this page, and
    /// draws its ticket. It errs only if an allocation fails; then nothing changes.
    pub(crate) fn make(
        &mut self,
        alloc: Global,
        word: &TicketWord,
        base: Stamp,
        seat: &mut Seat<J>,
        index: usize,
    ) -> Result<(), AllocError>
        requires word { word.now.table.shared.table_id ≡ J.table }
        requires base { base ≡ J.base }
        requires fit { fits J.base J.group J.callers ≡ true }
        requires here { (task : Task) × (step : Step) × (slice_get seat.old.tasks index ≡ Some task)
            × (next_of (running_in seat.old.log task) ≡ Some step) × (step_page step ≡ self.old.0) }
        ensures made { OnOk result ((task : Task) → slice_get seat.old.tasks index ≡ Some task
            → SeatStep seat.old task.place seat.new) }
        ensures none { OnErr result ((seat.new ≡ seat.old) × (self.new ≡ self.old)) }
    {
        let running = &mut seat.running[index];
        running.make(alloc, &mut self.page, base)?;
        let place = running.place();
        let (step, answer) = running.last();
        let name = PAGES + seat.caller;
        word.draw(
            &mut self.token,
            &mut seat.token,
            self.number,
            name,
            place,
            step,
            answer,
        );
        Ok(())
    }
}

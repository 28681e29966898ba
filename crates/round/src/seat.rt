//! The seats of the callers.

ghost use Rattle.std.specs.Prelude.{◌≡◌, ◌<◌, ◌==◌, ◌↔◌, ◌⊎◌, [], true, false, Some, IfSome, IfNone, IfOk, IfErr, IsErrOf, map, length, slice_get, option_map};
ghost use Rattle.std.specs.List.{list_all, list_any, position};
ghost use Rattle.item_steps.specs.declared.group.Task.{Task};
ghost use Rattle.round.specs.Tickets.{name_view, name_of_caller};
ghost use Rattle.item_steps.specs.declared.step.Step.{Step};
ghost use Rattle.pages.specs.Step.{step_page};
ghost use Rattle.round.specs.Sittings.{Running as RunningState, running_in, next_of, dealt, holds, is_done, has_ended, are_apart, IsAtEnd};

use crate::room::Room;
use crate::rule::Knowledge;
use crate::running::Running;
use pages::page_of;
use proto::Fault;
use std::marker::{Model, PhantomData};

/// What one caller of a round holds: its requests, and the answers to the steps that it made.
///
/// A step goes through the seat that has its request, and one thread at a time has a seat.
#[derive(Drop)]
pub struct Seat<J: Room> {
    pub(crate) caller: usize,
    pub(crate) running: Vec<Running>,
    // The index of the request that made the latest step.
    pub(crate) latest: usize,
    pub(crate) token: Knowledge,
    pub(crate) of: PhantomData<J>,
}

impl<J: Room> Model for Seat<J> {
    ghost use Rattle.std.specs.Prelude.{map};
    ghost use Rattle.round.specs.Tickets.{view_log};
    ghost use Rattle.round.specs.Sittings.{Sitting, IsSeated};

    ghost Value = { Sitting };

    ghost view = { λ s. record { caller = s.caller; tasks = map (λ r. r.task) s.running.items; log = view_log s.token.me.0 } };

    ghost invariant = { λ s. IsSeated J.table J.group J.callers s.token s.caller s.running.items };
}

/// Whether the request of this index is the one at the place.
fn is_at(running: &[Running], index: usize, place: u32) -> bool
    ensures { result ≡ true → (r : RunningState) × (slice_get running.now index ≡ Some r) × (r.task.place ≡ place) }
{
    match running.get(index) {
        Some(r) => r.place() == place,
        None => false,
    }
}

/// Where the request at the place is among these, if it is.
fn index_at(running: &[Running], place: u32) -> Option<usize>
    ensures { result ≡ position (λ r. r.task.place == place) running.now }
{
    running.iter().position(|r| r.place() == place)
}

/// The same, looked for first where the latest step was made and right after it: a request is mostly
/// stepped until it has no step left, and then the one after it.
fn index_near(running: &[Running], latest: usize, place: u32) -> Option<usize>
    ensures some { IfSome result (λ i. (r : RunningState) × (slice_get running.now i ≡ Some r) × (r.task.place ≡ place)) }
    ensures none { result ≡ None → list_any (λ r. r.task.place == place) running.now ≡ false }
{
    if is_at(running, latest, place) {
        return Some(latest);
    }
    let next = latest.wrapping_add(1);
    if is_at(running, next, place) {
        return Some(next);
    }
    index_at(running, place)
}

/// Whether no step of these is left.
fn all_done(running: &[Running]) -> bool
    ensures { result ≡ list_all is_done running.now }
{
    running.iter().all(|r| r.is_done())
}

impl<J: Room> Seat<J> {
    /// The seat of a caller, whose token knows of no step, with its requests before their first step.
    pub(crate) fn new(caller: usize, running: Vec<Running>, token: Knowledge) -> Seat<J>
        requires token { (token.table_id ≡ J.table) × (token.me ≡ (name_view (name_of_caller caller) [], [])) }
        requires few { caller < J.callers }
        requires has { running.items ≡ map (running_in []) (dealt J.callers caller J.group) }
        ensures { result ≡ record { caller = caller; tasks = dealt J.callers caller J.group; log = [] } }
    {
        Seat {
            caller,
            running,
            latest: 0,
            token,
            of: PhantomData,
        }
    }

    /// How many requests the seat has.
    pub fn requests(&self) -> usize
        ensures { result ≡ length self.now.tasks }
    {
        self.running.len()
    }

    /// The place of the seat's request of this index, if it has so many.
    pub fn place_at(&self, index: usize) -> Option<u32>
        ensures { result ≡ option_map (λ task. task.place) (slice_get self.now.tasks index) }
    {
        match self.running.get(index) {
            Some(running) => Some(running.place()),
            None => None,
        }
    }

    /// Where the request at the place is among those of the seat, if it is.
    pub(crate) fn index_of(&self, place: u32) -> Option<usize>
        ensures some { IfSome result (λ i. (task : Task) × (slice_get self.now.tasks i ≡ Some task) × (task.place ≡ place)) }
        ensures none { IfNone result (holds self.now place ≡ false) }
    {
        index_near(&self.running, self.latest, place)
    }

    /// The page on which the next step of the request of this index runs, if one is left.
    pub(crate) fn next_page(&self, index: usize) -> Option<usize>
        requires { index < length self.now.tasks }
        ensures its { self.now.tasks ≡ dealt J.callers self.now.caller J.group }
        ensures page { (task : Task) → slice_get self.now.tasks index ≡ Some task
            → result ≡ option_map step_page (next_of (running_in self.now.log task)) }
    {
        match self.running[index].next_key() {
            Some(key) => Some(page_of(key)),
            None => None,
        }
    }

    /// Where the request at the place is among those of the seat, and the page on which its next
    /// step runs. `Unfit` if the seat does not hold the place, `NotOpen` if no step is left.
    pub(crate) fn next(&self, place: u32) -> Result<(usize, usize), Fault>
        requires { are_apart J.group ≡ true }
        ensures ok { IfOk result (λ next. (task : Task) × (step : Step) × (slice_get self.now.tasks next.0 ≡ Some task)
            × (task.place ≡ place) × (next_of (running_in self.now.log task) ≡ Some step) × (step_page step ≡ next.1)) }
        ensures unfit { IsErrOf result Fault.Unfit ↔ (holds self.now place ≡ false) }
        ensures not_open { IsErrOf result Fault.NotOpen ↔ IsAtEnd self.now place }
        ensures only { IfErr result (λ fault. (fault ≡ Fault.Unfit) ⊎ (fault ≡ Fault.NotOpen)) }
    {
        let Some(index) = self.index_of(place) else {
            return Err(Fault::Unfit);
        };
        match self.next_page(index) {
            Some(number) => Ok((index, number)),
            None => Err(Fault::NotOpen),
        }
    }

    /// The request of this index makes a step.
    pub(crate) fn note_latest(&mut self, index: usize)
        ensures { self.new ≡ self.old }
    {
        self.latest = index;
    }

    /// Whether no step of the seat is left.
    pub fn has_ended(&self) -> bool
        ensures { result ≡ has_ended self.now }
    {
        all_done(&self.running)
    }
}

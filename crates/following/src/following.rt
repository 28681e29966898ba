ghost use Rattle.std.specs.Prelude.{◌≡◌, ◌<◌, ◌≤◌, ◌+◌, ◌*◌, ℕ, true, false, [], ◌∷◌, Some, not, nat_lt, ◌&&◌, if◌then◌else◌};
ghost use Rattle.following.specs.declared.action.Action.TheVariants.{HandInOrder, HandInDecree, HandInParcel, DropParcel, Ask, Need, Wait};
ghost use Rattle.following.specs.declared.letter.HeldLetter.TheVariants.{Order, Parcel};
ghost use Rattle.following.specs.Letters.{next_decree_place, has_room_for_batch, decree_place, is_later_decree, is_parcel_below};
ghost use Rattle.following.specs.Rules.{with_held, row_if, first_of, fetching_rules, following_rules, rules_of, next_action, is_asked_already as asked_already, is_silent as silent, is_overdue as overdue, is_held, next_peer as peer_next, peer_after as after_peer, IsHeldAt, IsOther, NoneApplies};
ghost use Rattle.following.specs.After.{following_from, with_next_tick, with_action, with_stuck, after_next};

use crate::action::Action;
use crate::finding::{
    due_decree, due_order, has_later_decree, has_parcel, is_stuck, next_decree, parcel_below,
    parcel_of,
};
use crate::letter::HeldLetter;
use crate::report::ExecutorReport;

/// An Ask is not repeated for so many ticks and a part of one: a tenth of a second.
const ASK_TICKS: u8 = 1;

/// An Ask is answered by so many decrees, from the one that is asked for on.
const ASKED_DECREES: u64 = 16;

/// Another Need leaves if no byte of a parcel came for more ticks than these: a second.
const NEED_TICKS: u8 = 10;

/// A decree to which nothing leads is handed in after more ticks than these: a fifth of a second.
const STUCK_TICKS: u8 = 2;

/// What a member remembers of the letters that it holds for its executor.
#[derive(Clone, Copy, Debug, PartialEq, Eq)]
pub struct Following {
    /// The number of the executor, and the highest number that one has.
    id: u8,
    last: u8,
    /// The executor to which the last Need left. At first it is this one.
    peer: u8,
    /// For how many ticks no Need has left, and no byte of a parcel has come.
    quiet: u8,
    /// The place for which the last Ask left, and how many ticks ago. Places are numbered from 1.
    asked: u64,
    asked_ticks: u8,
    /// The place of the next decree, if nothing leads to it, and for how many ticks this is so. 0: something does.
    stuck: u64,
    stuck_ticks: u8,
}

impl Following {
    /// Of executor `id` of `2u + 1`. Nothing was asked for yet.
    pub fn new(u: u8, id: u8) -> Following
        requires { u < 4 }
        ensures { result ≡ following_from u id }
    {
        Following {
            id,
            last: 2 * u,
            peer: id,
            quiet: u8::MAX,
            asked: 0,
            asked_ticks: u8::MAX,
            stuck: 0,
            stuck_ticks: 0,
        }
    }

    /// A tick has passed.
    pub fn tick(&mut self)
        ensures { self.new ≡ with_next_tick self.old }
    {
        self.quiet = self.quiet.saturating_add(1);
        self.asked_ticks = self.asked_ticks.saturating_add(1);
        self.stuck_ticks = self.stuck_ticks.saturating_add(1);
    }

    /// Bytes of a parcel came.
    pub fn hear_parcel(&mut self)
        ensures { self.new ≡ record self.old { quiet = 0 } }
    {
        self.quiet = 0;
    }

    /// What is to be done next, with an executor that reports this, and these letters held. The caller does it, and asks
    /// again, until it is to wait.
    ///
    /// While the executor fetches, a parcel is handed in once it is of the standing number. Decrees are handed in up to
    /// that, and no orders. While it follows, the next decree is handed in if it fits the chain, and else an order if it
    /// can be executed. A decree to which nothing leads is handed in after a fifth of a second: then the executor fetches.
    pub fn next(&mut self, report: ExecutorReport, held: &[HeldLetter]) -> Action
        ensures table { result ≡ next_action self.old report held.now }
        ensures after { self.new ≡ after_next self.old report held.now }

        // What leaves the table no choice.
        ensures decree { (i : ℕ) → result ≡ HandInDecree i → IsHeldAt held.now i (λ l. decree_place l ≡ report.known + 1) }
        ensures order { (i : ℕ) → result ≡ HandInOrder i → IsHeldAt held.now i (λ l. l ≡ Order report.epoch ((report.number + report.chain) + 1)) }
        ensures room { (i : ℕ) → result ≡ HandInOrder i → has_room_for_batch report ≡ true }
        ensures parcel { (i : ℕ) → result ≡ HandInParcel i → IsHeldAt held.now i (λ l. l ≡ Parcel report.standing) }
        ensures dropped { (i : ℕ) → result ≡ DropParcel i → IsHeldAt held.now i (λ l. is_parcel_below report.standing l ≡ true) }
        ensures ask { (place : ℕ) → result ≡ Ask place → (place ≡ next_decree_place report) × (asked_already self.old report ≡ false) }
        ensures need { (peer : ℕ) → result ≡ Need peer → (silent self.old ≡ true) × IsOther self.old peer }
        ensures wait { result ≡ Wait → NoneApplies (rules_of self.old report held.now) }
    {
        let action = self.action(report, held);
        self.note(action);
        self.mark(report, held);
        action
    }

    /// What the first rule says that applies.
    fn action(&self, report: ExecutorReport, held: &[HeldLetter]) -> Action
        ensures { result ≡ next_action self.now report held.now }
    {
        if report.is_fetching() {
            self.fetch(report, held)
        } else {
            self.follow(report, held)
        }
    }

    /// What is next while the executor fetches.
    fn fetch(&self, report: ExecutorReport, held: &[HeldLetter]) -> Action
        ensures { result ≡ first_of (fetching_rules self.now report held.now) }
    {
        if let Some(i) = parcel_of(report.standing, held) {
            return Action::HandInParcel(i);
        }
        if let Some(i) = parcel_below(report.standing, held) {
            return Action::DropParcel(i);
        }
        if !has_parcel(held) {
            return self.need();
        }
        match next_decree(report, held) {
            Some(i) => Action::HandInDecree(i),
            None => self.ask(report),
        }
    }

    /// What is next while the executor follows.
    fn follow(&self, report: ExecutorReport, held: &[HeldLetter]) -> Action
        ensures { result ≡ first_of (following_rules self.now report held.now) }
    {
        if let Some(i) = due_decree(report, held) {
            return Action::HandInDecree(i);
        }
        if let Some(i) = due_order(report, held) {
            return Action::HandInOrder(i);
        }
        match next_decree(report, held) {
            Some(i) => self.wait_for_order(report, i),
            None => self.ask_if_later(report, held),
        }
    }

    /// The next decree is at this index, and nothing leads to it: it is handed in if it is held for long.
    fn wait_for_order(&self, report: ExecutorReport, i: usize) -> Action
        ensures { result ≡ first_of (row_if (not report.is_running && overdue self.now report) (Some (HandInDecree i)) ∷ []) }
    {
        if !report.is_running && self.is_overdue(report) {
            Action::HandInDecree(i)
        } else {
            Action::Wait
        }
    }

    /// The next decree is missing: it is asked for if a later one is held.
    fn ask_if_later(&self, report: ExecutorReport, held: &[HeldLetter]) -> Action
        ensures { result ≡ first_of (row_if (is_held (is_later_decree report) held.now && not (asked_already self.now report)) (Some (Ask (next_decree_place report))) ∷ []) }
    {
        if has_later_decree(report, held) {
            self.ask(report)
        } else {
            Action::Wait
        }
    }

    /// The next decree is asked for, unless it was a moment ago.
    fn ask(&self, report: ExecutorReport) -> Action
        ensures { result ≡ first_of (row_if (not (asked_already self.now report)) (Some (Ask (next_decree_place report))) ∷ []) }
    {
        if self.is_asked(report) {
            Action::Wait
        } else {
            Action::Ask(report.next_place())
        }
    }

    /// The next peer is asked for its state, unless one was within the last second.
    fn need(&self) -> Action
        ensures { result ≡ first_of (row_if (silent self.now && nat_lt 0 self.now.last) (Some (Need (peer_next self.now))) ∷ []) }
    {
        if self.is_silent() && 0 < self.last {
            Action::Need(self.next_peer())
        } else {
            Action::Wait
        }
    }

    /// Whether an Ask left a moment ago whose answer has the next decree.
    fn is_asked(&self, report: ExecutorReport) -> bool
        ensures { result ≡ asked_already self.now report }
    {
        let place = report.next_place();
        self.asked_ticks <= ASK_TICKS && self.asked <= place && place - self.asked < ASKED_DECREES
    }

    /// Whether for a second no Need has left, and no byte of a parcel has come.
    fn is_silent(&self) -> bool
        ensures { result ≡ silent self.now }
    {
        NEED_TICKS < self.quiet
    }

    /// Whether nothing has led to the next decree for more than two ticks.
    fn is_overdue(&self, report: ExecutorReport) -> bool
        ensures { result ≡ overdue self.now report }
    {
        self.stuck == report.next_place() && STUCK_TICKS < self.stuck_ticks
    }

    /// The executor after this one, round and round.
    fn peer_after(&self, peer: u8) -> u8
        ensures { result ≡ after_peer self.now peer }
    {
        if peer < self.last { peer + 1 } else { 0 }
    }

    /// The next executor to be asked for its state, which is not this one.
    fn next_peer(&self) -> u8
        ensures { result ≡ peer_next self.now }
    {
        let peer = self.peer_after(self.peer);
        if peer == self.id {
            self.peer_after(peer)
        } else {
            peer
        }
    }

    /// Notes what leaves.
    fn note(&mut self, action: Action)
        ensures { self.new ≡ with_action self.old action }
    {
        match action {
            Action::Ask(place) => {
                self.asked = place;
                self.asked_ticks = 0;
            }
            Action::Need(peer) => {
                self.peer = peer;
                self.quiet = 0;
            }
            Action::HandInOrder(_) => {}
            Action::HandInDecree(_) => {}
            Action::HandInParcel(_) => {}
            Action::DropParcel(_) => {}
            Action::Wait => {}
        }
    }

    /// Notes since when nothing leads to the next decree.
    fn mark(&mut self, report: ExecutorReport, held: &[HeldLetter])
        ensures { self.new ≡ with_stuck self.old report held.now }
    {
        let is_stuck = is_stuck(report, held);
        let place = report.next_place();
        if !is_stuck {
            self.stuck = 0;
            self.stuck_ticks = 0;
        } else if self.stuck != place {
            self.stuck = place;
            self.stuck_ticks = 0;
        }
    }
}

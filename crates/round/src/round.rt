//! A round, from its opening to its close.

ghost use Rattle.std.specs.Prelude.{◌≡◌, ◌↔◌, ◌⊎◌, true, false, [], length, map, vec_len, IfOk, IfErr, OnOk, OnErr, IsErrOf};
ghost use Rattle.std.specs.List.{list_all, range_with_len};
ghost use Rattle.item_steps.specs.Schedule.{GroupRuns};
ghost use Rattle.pages.specs.Page.{page_count};
ghost use Rattle.round.specs.Tickets.{maker, name_of_caller};
ghost use Rattle.round.specs.Sittings.{fits, holds, has_ended, SeatStep, IsAtEnd, seats_of};
ghost use Rattle.round.specs.Orders.{RoundResult};

use crate::close::{all_ended, collect, gather};
use crate::gate::Gate;
use crate::locked::Locked;
use crate::open::{deal, fits, lock_pages, seat_callers};
use crate::room::Room;
use crate::rule::Knowledge;
use crate::running::Ran;
use crate::seat::Seat;
use crate::word::TicketWord;
use item_steps::{Stamp, Task};
use pages::{Pages, page_of};
use proto::Fault;
use std::alloc::Global;
use std::marker::PhantomData;
use std::sync::{Mutex, Wait};

/// The token that made the others. It lies under a lock, since a token is not `Sync`.
#[derive(Drop)]
struct Master<J: Room> {
    token: Knowledge,
    of: PhantomData<J>,
    ghost mastered: { (token.table_id ≡ J.table) × (token.me ≡ (maker (name_of_caller J.callers), [])) },
}

/// A group that runs over pages. Several callers make steps at once, each through its seat.
#[derive(Drop)]
pub struct Round<J: Room> {
    word: TicketWord,
    master: Mutex<Master<J>>,
    pages: Vec<Mutex<Locked<J>>>,
    base: Stamp,
    requests: usize,
    pub ghost named: { word.table.shared.table_id ≡ J.table },
    pub ghost all: { vec_len pages ≡ page_count },
    pub ghost same_base: { base ≡ J.base },
    pub ghost counted: { requests ≡ length J.group },
    pub ghost fit: { fits J.base J.group J.callers ≡ true },
}

impl<J: Room> Round<J> {
    fn new(
        word: TicketWord,
        master: Knowledge,
        pages: Vec<Mutex<Locked<J>>>,
        base: Stamp,
        requests: usize,
    ) -> Round<J>
        requires word { word.table.shared.table_id ≡ J.table }
        requires master { (master.table_id ≡ J.table) × (master.me ≡ (maker (name_of_caller J.callers), [])) }
        requires pages { vec_len pages ≡ page_count }
        requires base { base ≡ J.base }
        requires requests { requests ≡ length J.group }
        requires fit { fits J.base J.group J.callers ≡ true }
    {
        let master = Mutex::new(Master {
            token: master,
            of: PhantomData,
        });
        Round {
            word,
            master,
            pages,
            base,
            requests,
        }
    }

    /// A round of the group over the pages, and the seats of its callers, in their order. Seat `c` has
    /// the requests whose position in the group is `c` modulo the number of callers. The stamp of a
    /// request is the base's stamp plus its place.
    ///
    /// The word is a new one, and `master` is the token that came with it.
    ///
    /// `Unfit` if there are not 1 to 64 callers, or more than 64 requests, or a request of more than
    /// 64 steps, or two requests of one place, or a stamp of 2^64 or more. The only other error is want
    /// of memory.
    pub fn open(
        alloc: Global,
        word: TicketWord,
        master: Knowledge,
        pages: Pages,
        group: Vec<Task>,
        base: Stamp,
        callers: usize,
    ) -> Result<(Round<J>, Vec<Seat<J>>), Fault>
        requires word { word.table.shared.table_id ≡ J.table }
        requires token { (master.table_id ≡ J.table) × (master.me ≡ (maker 0, [])) }
        requires pages { pages ≡ J.opening }
        requires group { group.items ≡ J.group }
        requires base { base ≡ J.base }
        requires callers { callers ≡ J.callers }
        ensures seats { IfOk result (λ r. r.1.items ≡ seats_of J.callers J.group) }
        ensures unfit { IsErrOf result Fault.Unfit ↔ (fits base group.items callers ≡ false) }
        ensures only { IfErr result (λ fault. (fault ≡ Fault.Unfit) ⊎ (fault ≡ Fault.NoMemory)) }
    {
        if !fits(base, &group, callers) {
            return Err(Fault::Unfit);
        }
        let mut master = master;
        let requests = group.len();
        let pages = lock_pages(alloc, &word, &mut master, pages)?;
        let lists = deal(alloc, group, callers)?;
        let seats = seat_callers(alloc, &word, &mut master, lists)?;
        Ok((Round::new(word, master, pages, base, requests), seats))
    }

    /// Does the next step of the request, inside the lock of the page of its key, and notes its answer
    /// in the seat. A ticket is drawn for it inside the lock.
    ///
    /// `Unfit` if the seat does not hold the place, `NotOpen` if no step is left,
    /// `NoMemory` if an allocation fails. An `Err` changes neither the page nor the seat, and draws
    /// no ticket.
    pub fn step<R: Wait, G: Gate>(
        &self,
        rt: &R,
        alloc: Global,
        seat: &mut Seat<J>,
        place: u32,
        gate: &G,
    ) -> Result<(), Fault>
        ensures made { OnOk result (SeatStep seat.old place seat.new) }
        ensures unfit { IsErrOf result Fault.Unfit ↔ (holds seat.old place ≡ false) }
        ensures not_open { IsErrOf result Fault.NotOpen ↔ IsAtEnd seat.old place }
        ensures only { IfErr result (λ fault. (fault ≡ Fault.Unfit) ⊎ ((fault ≡ Fault.NotOpen) ⊎ (fault ≡ Fault.NoMemory))) }
        ensures err { OnErr result (seat.new ≡ seat.old) }
    {
        let (index, number) = seat.next(place)?;
        seat.note_latest(index);
        let mut locked = self.pages[number].lock(rt);
        // Cannot come: `lock_pages` puts page i under lock i, and no call moves a lock or a page. But what lies
        // under a lock is known by its type alone, which is that of every page; so no clause can say it.
        if locked.number != number {
            return Err(Fault::NoMemory);
        }
        let done = locked.make(alloc, &self.word, self.base, seat, index);
        if done.is_ok() {
            gate.inside(number, place);
        }
        drop(locked);
        done?;
        gate.outside(number, place);
        Ok(())
    }

    /// Ends the round: the pages, and the requests with their answers, in the group's order.
    /// The seats are those that `open` gave, in their order.
    ///
    /// `NotOpen` if a step is left, `NoMemory` if an allocation fails.
    pub fn close(self, alloc: Global, seats: Vec<Seat<J>>) -> Result<(Pages, Vec<Ran>), Fault>
        requires { map (λ s. s.caller) seats.items ≡ range_with_len 0 J.callers }
        ensures ended { IfOk result (λ r. RoundResult J.base J.opening J.group seats.items r.0 (map (λ ran. ran.answers) r.1.items)) }
        ensures runs { IfOk result (λ r. GroupRuns J.base J.opening J.group r.0 (map (λ ran. ran.answers) r.1.items)) }
        ensures tasks { IfOk result (λ r. map (λ ran. ran.task) r.1.items ≡ J.group) }
        ensures not_open { IsErrOf result Fault.NotOpen ↔ (list_all has_ended seats.items ≡ false) }
        ensures only { IfErr result (λ fault. (fault ≡ Fault.NotOpen) ⊎ (fault ≡ Fault.NoMemory)) }
    {
        if !all_ended(&seats) {
            return Err(Fault::NotOpen);
        }
        let Round {
            word,
            master,
            pages,
            base: _,
            requests,
        } = self;
        let Master {
            token: master,
            of: _,
        } = master.into_inner();
        let (pages, running) = gather(alloc, &word, master, pages, seats)?;
        let ran = collect(alloc, running, requests)?;
        Ok((pages, ran))
    }
}

//! What a round comes to: its pages and answers.

ghost use Rattle.std.specs.Prelude.{◌≡◌, ◌++◌, ◌<◌, true, List, [], map, length, vec_len, IfOk, OnOk};
ghost use Rattle.std.specs.List.{list_all, AllByRecursion, range_with_len};
ghost use Rattle.item_steps.specs.declared.group.Task.{Task};
ghost use Rattle.pages.specs.Page.{page_count};
ghost use Rattle.pages.specs.Joined.{items_of};
ghost use Rattle.round.specs.declared.rule.Held.{Held};
ghost use Rattle.round.specs.Tickets.{maker, name_of_caller};
ghost use Rattle.round.specs.Sittings.{Running, running_in, dealt, fits, has_ended, IsSitting};
ghost use Rattle.round.specs.Orders.{AreHistories, AreOf, Gathered, IsAsBefore};

use crate::locked::Locked;
use crate::room::Room;
use crate::rule::Knowledge;
use crate::running::{Ran, Running};
use crate::seat::Seat;
use crate::word::TicketWord;
use pages::{PAGES, Page, Pages};
use std::alloc::{AllocError, Global};
use std::sync::Mutex;

/// Whether no step of the seats is left.
pub(crate) fn all_ended<J: Room>(seats: &[Seat<J>]) -> bool
    ensures { result ≡ list_all has_ended seats.now }
{
    seats.iter().all(|seat| seat.has_ended())
}

/// Takes the locks apart. The token knows the log of each page.
pub(crate) fn gather_pages<J: Room>(
    alloc: Global,
    word: &TicketWord,
    master: &mut Knowledge,
    locks: Vec<Mutex<Locked<J>>>,
) -> Result<Vec<Page>, AllocError>
    requires word { word.now.table.shared.table_id ≡ J.table }
    requires master { (master.old.table_id ≡ J.table) × (master.old.me.1 ≡ []) × (master.old.me.0.held ≡ []) }
    ensures master { IsAsBefore J.table master.old master.new }
    ensures pages { IfOk result (λ pages. AreHistories J.base J.opening 0 master.new.me.0.held (items_of pages.items)) }
    ensures all { IfOk result (λ pages. vec_len pages ≡ vec_len locks) }
{
    let mut pages = Vec::with_capacity(alloc, PAGES)?;
    for lock in locks {
        let Locked {
            number,
            page,
            token,
            of: _,
        } = lock.into_inner();
        // Cannot come, as in `Round::step`: lock i has page i, and its type cannot say so.
        if number != pages.len() {
            return Err(AllocError);
        }
        word.take_in(master, token);
        pages.push(page)?;
    }
    Ok(pages)
}

/// Takes the seats apart. The token knows their steps beside what it knew.
pub(crate) fn gather_seats<J: Room>(
    alloc: Global,
    word: &TicketWord,
    master: &mut Knowledge,
    seats: Vec<Seat<J>>,
) -> Result<Vec<Vec<Running>>, AllocError>
    requires word { word.now.table.shared.table_id ≡ J.table }
    requires master { (master.old.table_id ≡ J.table) × (master.old.me.1 ≡ []) }
    ensures master { IsAsBefore J.table master.old master.new }
    ensures held { OnOk result ((hs : List Held) × (master.new.me.0.held ≡ master.old.me.0.held ++ hs) × AreOf hs seats.items) }
    ensures sat { OnOk result (AllByRecursion (IsSitting J.group J.callers) seats.items) }
    ensures running { IfOk result (λ lists. map (λ l. l.items) lists.items ≡ map (λ s. map (running_in s.log) s.tasks) seats.items) }
{
    let mut lists = Vec::with_capacity(alloc, seats.len())?;
    for seat in seats {
        let Seat {
            caller: _,
            running,
            latest: _,
            token,
            of: _,
        } = seat;
        word.take_in(master, token);
        lists.push(running)?;
    }
    Ok(lists)
}

/// Takes a round apart whose seats have no step left: its pages, and the requests of each caller with
/// their answers. It errs only if an allocation fails.
pub(crate) fn gather<J: Room>(
    alloc: Global,
    word: &TicketWord,
    master: Knowledge,
    locks: Vec<Mutex<Locked<J>>>,
    seats: Vec<Seat<J>>,
) -> Result<(Pages, Vec<Vec<Running>>), AllocError>
    requires word { word.now.table.shared.table_id ≡ J.table }
    requires master { (master.table_id ≡ J.table) × (master.me ≡ (maker (name_of_caller J.callers), [])) }
    requires locks { vec_len locks ≡ page_count }
    requires seats { map (λ s. s.caller) seats.items ≡ range_with_len 0 J.callers }
    requires ended { list_all has_ended seats.items ≡ true }
    requires fit { fits J.base J.group J.callers ≡ true }
    ensures { IfOk result (λ r. Gathered J.base J.opening J.group J.callers seats.items r.0 (map (λ l. l.items) r.1.items)) }
{
    let mut master = master;
    let pages = gather_pages(alloc, word, &mut master, locks)?;
    let running = gather_seats(alloc, word, &mut master, seats)?;
    word.learn(&mut master);
    Ok((Pages::join(pages), running))
}

/// So many requests, which were dealt to callers in turn, in the order of the group. It errs only if an
/// allocation fails.
pub(crate) fn collect(
    alloc: Global,
    lists: Vec<Vec<Running>>,
    requests: usize,
) -> Result<Vec<Ran>, AllocError>
    requires some { 0 < vec_len lists }
    requires dealt { (f : Task → Running) × (group : List Task) × (length group ≡ requests)
        × (map (λ l. l.items) lists.items ≡ map (λ caller. map f (dealt (vec_len lists) caller group)) (range_with_len 0 (vec_len lists))) }
    ensures { IfOk result (λ ran. (f : Task → Running) (group : List Task) → length group ≡ requests
        → map (λ l. l.items) lists.items ≡ map (λ caller. map f (dealt (vec_len lists) caller group)) (range_with_len 0 (vec_len lists))
        → ran.items ≡ map f group) }
{
    let mut lists = lists;
    let callers = lists.len();
    let mut ran = Vec::with_capacity(alloc, requests)?;
    for taken in 0..requests {
        // The last of those that are left.
        let position = requests - 1 - taken;
        let Some(running) = lists[position % callers].pop() else {
            unreachable!();
        };
        ran.push(running.into_ran())?;
    }
    ran.reverse();
    Ok(ran)
}

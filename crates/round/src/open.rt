//! What a round opens with: its locks and its seats.

ghost use Rattle.std.specs.Prelude.{◌≡◌, ◌<◌, ◌==◌, [], length, map, vec_len, IfOk, OnOk, not};
ghost use Rattle.std.specs.List.{list_all};
ghost use Rattle.pages.specs.Page.{page_count};
ghost use Rattle.round.specs.Tickets.{maker, name_of_caller};
ghost use Rattle.round.specs.Sittings.{task_fits, are_apart, group_fits, fits, running_in, dealt, lists_of, seats_of};

use crate::locked::Locked;
use crate::room::Room;
use crate::rule::Knowledge;
use crate::running::Running;
use crate::seat::Seat;
use crate::word::TicketWord;
use item_steps::{Stamp, Task};
use pages::{PAGES, Pages};
use std::alloc::{AllocError, Global};
use std::sync::Mutex;

/// How many callers a round has at most.
pub const MOST_CALLERS: usize = 64;

/// How many requests a group has at most.
pub const MOST_TASKS: usize = 64;

/// How many steps a request has at most.
pub const MOST_STEPS: usize = 64;

fn task_fits(base: Stamp, task: &Task) -> bool
    ensures { result ≡ task_fits base task.now }
{
    task.steps.as_slice().len() <= MOST_STEPS
        && base.stamp.checked_add(u64::from(task.place)).is_some()
}

fn tasks_fit(base: Stamp, group: &[Task]) -> bool
    ensures { result ≡ list_all (task_fits base) group.now }
{
    group.iter().all(|task| task_fits(base, task))
}

/// Whether none of the others has the request's place.
fn is_apart(task: &Task, others: &[Task]) -> bool
    ensures { result ≡ list_all (λ other. not (other.place == task.now.place)) others.now }
{
    others.iter().all(|other| other.place != task.place)
}

/// Whether no two of the requests have one place.
fn are_apart(group: &[Task]) -> bool
    ensures { result ≡ are_apart group.now }
{
    match group {
        [] => true,
        [task, others @ ..] => is_apart(task, others) && are_apart(others),
    }
}

/// Whether a round takes the group: at most 64 requests of at most 64 steps, no two of one place,
/// each stamp below 2^64.
pub fn group_fits(base: Stamp, group: &[Task]) -> bool
    ensures { result ≡ group_fits base group.now }
{
    group.len() <= MOST_TASKS && tasks_fit(base, group) && are_apart(group)
}

/// Whether a round takes the group, with so many callers.
pub(crate) fn fits(base: Stamp, group: &[Task], callers: usize) -> bool
    ensures { result ≡ fits base group.now callers }
{
    0 < callers && callers <= MOST_CALLERS && group_fits(base, group)
}

/// The pages, each under a lock, in the order of their numbers.
pub(crate) fn lock_pages<J: Room>(
    alloc: Global,
    word: &TicketWord,
    master: &mut Knowledge,
    pages: Pages,
) -> Result<Vec<Mutex<Locked<J>>>, AllocError>
    requires word { word.now.table.shared.table_id ≡ J.table }
    requires master { (master.old.table_id ≡ J.table) × (master.old.me ≡ (maker 0, [])) }
    requires pages { pages ≡ J.opening }
    ensures master { OnOk result ((master.new.table_id ≡ J.table) × (master.new.me ≡ (maker page_count, []))) }
    ensures all { IfOk result (λ locks. vec_len locks ≡ page_count) }
{
    let mut locks = Vec::with_capacity(alloc, PAGES)?;
    let parts = pages.part()?;
    for page in parts {
        let token = word.new_name(master);
        locks.push(Mutex::new(Locked::new(locks.len(), page, token)))?;
    }
    Ok(locks)
}

/// A list for each caller, with nothing in it.
fn empty_lists(alloc: Global, callers: usize) -> Result<Vec<Vec<Running>>, AllocError>
    ensures { IfOk result (λ lists. map (λ l. l.items) lists.items ≡ lists_of callers []) }
{
    let mut lists = Vec::with_capacity(alloc, callers)?;
    for made in 0..callers {
        lists.push(Vec::new(alloc))?;
    }
    Ok(lists)
}

/// The requests of each caller, in turn, before their first step.
pub(crate) fn deal(
    alloc: Global,
    group: Vec<Task>,
    callers: usize,
) -> Result<Vec<Vec<Running>>, AllocError>
    requires { 0 < callers }
    ensures { IfOk result (λ lists. map (λ l. l.items) lists.items ≡ lists_of callers group.items) }
{
    let mut lists = empty_lists(alloc, callers)?;
    let mut caller = 0;
    for task in group {
        lists[caller].push(Running::new(alloc, task))?;
        caller = (caller + 1) % callers;
    }
    Ok(lists)
}

/// The seats of the callers who have these requests.
pub(crate) fn seat_callers<J: Room>(
    alloc: Global,
    word: &TicketWord,
    master: &mut Knowledge,
    lists: Vec<Vec<Running>>,
) -> Result<Vec<Seat<J>>, AllocError>
    requires word { word.now.table.shared.table_id ≡ J.table }
    requires master { (master.old.table_id ≡ J.table) × (master.old.me ≡ (maker page_count, [])) }
    requires lists { map (λ l. l.items) lists.items ≡ lists_of J.callers J.group }
    ensures master { OnOk result ((master.new.table_id ≡ J.table) × (master.new.me ≡ (maker (name_of_caller J.callers), []))) }
    ensures seats { IfOk result (λ seats. seats.items ≡ seats_of J.callers J.group) }
{
    let mut seats = Vec::with_capacity(alloc, lists.len())?;
    for running in lists {
        let token = word.new_name(master);
        seats.push(Seat::new(seats.len(), running, token))?;
    }
    Ok(seats)
}

//! A whole round: opened, worked by several threads, and closed.

ghost use Rattle.std.specs.Prelude.{◌≡◌, ◌↔◌, ◌⊎◌, false, [], map, IfOk, IfErr, IsErrOf};
ghost use Rattle.item_steps.specs.Schedule.{GroupRuns};
ghost use Rattle.round.specs.Tickets.{maker};
ghost use Rattle.round.specs.Sittings.{fits, group_fits};
ghost use Rattle.workers.specs.InOrder.{StayInOrder};

use crate::workers::Workers;
use item_steps::{Stamp, Task};
use pages::Pages;
use proto::Fault;
use round::{Gate, Knowledge, MOST_STEPS, Ran, Room, Round, Seat, TicketWord, group_fits};
use std::alloc::Global;
use std::marker::Brand;
use std::sync::Wait;
use std::thread;
use std::thread::Threads;

/// Makes the steps that are left of one request, as far as there is memory.
fn make_request<J: Room, R: Wait, G: Gate>(
    rt: &R,
    alloc: Global,
    round: &Round<J>,
    seat: &mut Seat<J>,
    place: u32,
    gate: &G,
)
    ensures { seat.new.caller ≡ seat.old.caller }
{
    for _ in 0..MOST_STEPS {
        if round.step(rt, alloc, seat, place, gate).is_err() {
            return;
        }
    }
}

/// Makes the steps that are left of a seat, request by request, as far as there is memory.
fn make_all<J: Room, R: Wait, G: Gate>(
    rt: &R,
    alloc: Global,
    round: &Round<J>,
    seat: &mut Seat<J>,
    gate: &G,
)
    ensures { seat.new.caller ≡ seat.old.caller }
{
    for index in 0..seat.requests() {
        if let Some(place) = seat.place_at(index) {
            make_request(rt, alloc, round, seat, place, gate);
        }
    }
}

/// Makes the steps that are left of all seats, as far as there is memory. One seat is worked by the
/// thread that calls, each other one by a thread of its own; if a thread cannot be started, the
/// caller does its work too.
fn work<J: Room + Send + Sync, R: Threads + Wait + Sync, G: Gate + Sync>(
    rt: &R,
    alloc: Global,
    round: &Round<J>,
    seats: &mut [Seat<J>],
    gate: &G,
)
    ensures { StayInOrder seats.old seats.new }
{
    let threads = seats.len().max(1);
    thread::for_each_mut(
        rt,
        seats,
        threads,
        &|_, seat| { make_all(rt, alloc, round, seat, gate) },
    );
}

fn within<J: Room + Send + Sync, R: Threads + Wait + Sync, G: Gate + Sync>(
    rt: &R,
    alloc: Global,
    word: TicketWord,
    master: Knowledge,
    pages: Pages,
    group: Vec<Task>,
    base: Stamp,
    callers: usize,
    gate: &G,
) -> Result<(Pages, Vec<Ran>), Fault>
    requires word { word.table.shared.table_id ≡ J.table }
    requires token { (master.table_id ≡ J.table) × (master.me ≡ (maker 0, [])) }
    requires pages { pages ≡ J.opening }
    requires group { group.items ≡ J.group }
    requires base { base ≡ J.base }
    requires callers { callers ≡ J.callers }
    ensures runs { IfOk result (λ r. GroupRuns base pages group.items r.0 (map (λ ran. ran.answers) r.1.items)) }
    ensures tasks { IfOk result (λ r. map (λ ran. ran.task) r.1.items ≡ group.items) }
    ensures unfit { IfErr result (λ fault. fault ≡ Fault.Unfit → fits base group.items callers ≡ false) }
    ensures only { IfErr result (λ fault. (fault ≡ Fault.Unfit) ⊎ (fault ≡ Fault.NoMemory)) }
{
    let (round, mut seats) = Round::<J>::open(alloc, word, master, pages, group, base, callers)?;
    work(rt, alloc, &round, seats.as_mut_slice(), gate);
    match round.close(alloc, seats) {
        // A thread stops at a step for which it finds no memory, and that step is left.
        Err(Fault::NotOpen) => Err(Fault::NoMemory),
        closed => closed,
    }
}

/// Runs the steps of the group on the pages, by as many threads at once as `workers` has on steps: worker
/// `w` makes the steps of the requests whose position in the group is `w` modulo their number. One is the thread that calls;
/// each other one that has a request is a thread of its own, which has ended when the call returns.
///
/// The requests come back with their answers, in the group's order. The pages and the answers are what
/// some interleaving of the group's steps leads to. The stamp of a request is the base's stamp plus its place.
///
/// `Unfit` if a round does not take the group: see `round::group_fits`. `NoMemory` if an
/// allocation fails.
pub fn run<R: Threads + Wait + Sync, G: Gate + Sync>(
    rt: &R,
    alloc: Global,
    pages: Pages,
    group: Vec<Task>,
    base: Stamp,
    workers: Workers,
    gate: &G,
) -> Result<(Pages, Vec<Ran>), Fault>
    ensures runs { IfOk result (λ r. GroupRuns base pages group.items r.0 (map (λ ran. ran.answers) r.1.items)) }
    ensures tasks { IfOk result (λ r. map (λ ran. ran.task) r.1.items ≡ group.items) }
    ensures unfit { IsErrOf result Fault.Unfit ↔ (group_fits base group.items ≡ false) }
    ensures only { IfErr result (λ fault. (fault ≡ Fault.Unfit) ⊎ (fault ≡ Fault.NoMemory)) }
{
    if !group_fits(base, &group) {
        return Err(Fault::Unfit);
    }
    // A worker without a request would have nothing to do.
    let busy = workers.on_steps().min(group.len()).max(1);
    let (word, master) = TicketWord::open(alloc)?;
    within::<Brand, R, G>(rt, alloc, word, master, pages, group, base, busy, gate)
}

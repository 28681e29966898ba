//! Requests that wait, and the batches that are cut of them.

use crate::requests::{Says, ask, keep};
use batches::{Batch, Gather};
use proto::Fault;
use sessions::Sessions;
use std::alloc::{AllocError, Global};
use std::test::Fail;

/// The clients 1 to 64.
const FIRST_64: [u16; 64] = [
    1, 2, 3, 4, 5, 6, 7, 8, 9, 10, 11, 12, 13, 14, 15, 16, 17, 18, 19, 20, 21, 22, 23, 24, 25, 26,
    27, 28, 29, 30, 31, 32, 33, 34, 35, 36, 37, 38, 39, 40, 41, 42, 43, 44, 45, 46, 47, 48, 49, 50,
    51, 52, 53, 54, 55, 56, 57, 58, 59, 60, 61, 62, 63, 64,
];

/// A step of a row.
enum Step {
    /// Each of these clients asks, its first request.
    Ask(&'static [u16]),
    /// This client asks, the request of this number.
    AskOne(u16, u64),
    /// The reply to the client's request of this number is kept.
    Keep(u16, u64),
    /// A cut at this number finds requests of just these clients, in this order; so many wait on.
    Cut(u64, &'static [u16], usize),
    /// A cut at this number finds that there are no more numbers; so many wait on.
    IsFull(u64, usize),
}

fn ask_all(alloc: Global, gather: &mut Gather, clients: &[u16]) -> Result<(), AllocError> {
    for client in clients {
        gather.add(ask(alloc, *client, 1)?)?;
    }
    Ok(())
}

/// The next batch. If an allocation fails it is cut once more: nothing has changed by then.
fn cut_again(
    alloc: Global,
    gather: &mut Gather,
    sessions: &Sessions,
    n: u64,
) -> Result<Option<Batch>, Fault> {
    let n = n.max(1);
    match gather.cut(alloc, 1, n, 1000, sessions) {
        Err(Fault::NoMemory) => gather.cut(alloc, 1, n, 1000, sessions),
        cut => cut,
    }
}

/// Whether the batch has this number, and requests of just these clients; of none there is no batch.
fn is_batch(batch: &Option<Batch>, n: u64, clients: &[u16]) -> bool {
    let Some(batch) = batch else {
        return clients.is_empty();
    };
    let requests = batch.requests.as_slice();
    for (request, client) in requests.iter().zip(clients.iter()) {
        if request.client != *client {
            return false;
        }
    }
    batch.n == n && requests.len() == clients.len()
}

/// Whether so many requests wait.
fn wait(gather: &Gather, count: usize) -> bool {
    gather.len() == count && gather.is_empty() == (count == 0)
}

/// Does the step: whether it gives what it has to.
fn does(
    alloc: Global,
    gather: &mut Gather,
    sessions: &mut Sessions,
    step: &Step,
) -> Result<bool, Fault> {
    match step {
        Step::Ask(clients) => ask_all(alloc, gather, *clients)?,
        Step::AskOne(client, number) => gather.add(ask(alloc, *client, *number)?)?,
        Step::Keep(client, number) => keep(alloc, sessions, *client, *number, Says::Stored)?,
        Step::Cut(n, clients, left) => {
            let batch = cut_again(alloc, gather, sessions, *n)?;
            return Ok(is_batch(&batch, *n, *clients) && wait(gather, *left));
        }
        Step::IsFull(n, left) => {
            let is_full = matches!(cut_again(alloc, gather, sessions, *n), Err(Fault::Full));
            return Ok(is_full && wait(gather, *left));
        }
    }
    Ok(true)
}

/// How many of the steps, one after the other, give what they have to; the next one does not.
fn done(
    alloc: Global,
    gather: &mut Gather,
    sessions: &mut Sessions,
    steps: &[Step],
) -> Result<usize, Fault> {
    for (place, step) in steps.iter().enumerate() {
        if !does(alloc, gather, sessions, step)? {
            return Ok(place);
        }
    }
    Ok(steps.len())
}

/// The same of new sessions, if nothing waits.
fn done_anew(alloc: Global, steps: &[Step]) -> Result<usize, Fault> {
    let mut sessions = Sessions::new(alloc)?;
    done(alloc, &mut Gather::new(alloc), &mut sessions, steps)
}

const SIXTY_FOUR: &[Step] = &[Step::Ask(&FIRST_64), Step::Cut(1, &FIRST_64, 0)];

const A_65TH_WAITS: &[Step] = &[
    Step::Ask(&FIRST_64),
    Step::AskOne(65, 1),
    Step::Cut(1, &FIRST_64, 1),
    Step::Cut(1, &[65], 0),
];

const A_LATER_REQUEST: &[Step] = &[
    Step::Keep(1, 1),
    Step::Keep(3, 1),
    Step::AskOne(1, 2),
    Step::AskOne(2, 1),
    Step::AskOne(1, 1),
    Step::AskOne(1, 2),
    Step::AskOne(3, 2),
    Step::AskOne(3, 1),
    Step::AskOne(2, 2),
    // The second request of client 2 waits for its first.
    Step::Cut(1, &[1, 3], 1),
    Step::Keep(2, 2),
    Step::Cut(1, &[], 0),
];

const NOTHING_FOUND: &[Step] = &[
    Step::AskOne(1, 2),
    Step::AskOne(2, 3),
    Step::Cut(1, &[], 2),
    Step::Keep(1, 1),
    Step::Cut(1, &[1], 1),
];

const THE_LAST_BATCH: &[Step] = &[
    Step::AskOne(1, 1),
    Step::IsFull(288230376151711744, 1),
    Step::Cut(288230376151711743, &[1], 0),
];

const ROWS: [(&str, &[Step]); 5] = [
    ("sixty-four requests make one batch", SIXTY_FOUR),
    ("a 65th client waits for the next batch", A_65TH_WAITS),
    ("a later request goes last", A_LATER_REQUEST),
    ("a cut that finds nothing changes nothing", NOTHING_FOUND),
    ("the last batch has the number 2^58 - 1", THE_LAST_BATCH),
];

#[test]
fn rows_of_batches(rt: HostRuntime) -> Result<(), Fail> {
    for (name, steps) in &ROWS {
        let done = done_anew(rt.alloc(), *steps)?;
        assert!(rt; done == steps.len(), "{name}: {done}");
    }
    Ok(())
}

/// `scripts/refusals` has each of its allocations fail in turn.
#[test]
fn a_refused_cut_changes_nothing(rt: HostRuntime) -> Result<(), Fail> {
    let done = done_anew(rt.alloc(), A_65TH_WAITS);
    assert!(rt; done == Ok(A_65TH_WAITS.len()) || done == Err(Fault::NoMemory));
    Ok(())
}

//! Batches of 64 requests on 16 workers: the order in which their steps were made is printed, and gives
//! the same replies on a plain store.

use super::threads::executed;
use super::*;
use crate::gates::Order;
use crate::of_workers::{replay, shared_key};
use batches::Gather;
use item_steps::{Answer, Stamp, Steps, Task, reply_of, steps_of};
use items::PlainStore;
use proto::write_reply;
use rand_core::SeedableRng;
use rand_pcg::Lcg64Xsh32;
use sessions::Request;
use std::sync::{Mutex, Wait};
use std::test::Fail;
use std::thread::Threads;

/// The moment of each batch.
const MOMENT: u32 = 1000;

/// The request of this record waits for a batch.
fn ask(alloc: Global, gather: &mut Gather, request: &[u8]) -> Result<(), Fault> {
    Ok(gather.add(read::<Request>(alloc, request)?)?)
}

/// Eight clients set the shared keys to `0`.
fn ask_zeros(alloc: Global, gather: &mut Gather) -> Result<(), Fault> {
    for n in 0..8u8 {
        let (client, key) = (200 + n, b'0' + n);
        let set = [
            0, client, 0, 0, 0, 0, 0, 0, 0, 1, 2, 1, key, 0, 0, 0, 0, 0, 0, 0, 0, 0, 0, 0, 1, b'0',
        ];
        ask(alloc, gather, &set)?;
    }
    Ok(())
}

/// 64 clients ask `gats 0` of two keys of their own and then of a shared one, which the mixer does not look
/// at; between them 64 clients ask `incr` of a shared key by 1. Each request has this number.
fn ask_all(
    alloc: Global,
    gather: &mut Gather,
    words: &mut Lcg64Xsh32,
    number: u16,
) -> Result<(), Fault> {
    let [high, low] = number.to_be_bytes();
    for n in 0..64u8 {
        let (client, own, shared) = (1 + 2 * n, b'0' + n, shared_key(words));
        let gats = [
            0, client, 0, 0, 0, 0, 0, 0, high, low, 13, 0, 0, 0, 0, 0, 0, 0, 3, 2, b'x', own, 2,
            b'y', own, 1, shared,
        ];
        ask(alloc, gather, &gats)?;
        let (client, shared) = (2 + 2 * n, shared_key(words));
        let incr = [
            0, client, 0, 0, 0, 0, 0, 0, high, low, 10, 1, shared, 0, 0, 0, 0, 0, 0, 0, 1,
        ];
        ask(alloc, gather, &incr)?;
    }
    Ok(())
}

/// The next batch of those that wait.
fn cut_next(alloc: Global, base: &Base, gather: &mut Gather) -> Result<Batch, Fault> {
    match base.cut(alloc, gather, 1, MOMENT)? {
        Some(batch) => Ok(batch),
        None => Err(Fault::NotOpen),
    }
}

/// What the batch makes of the base on 16 workers. The order that the gate saw goes to `order`.
fn run_batch<R: Threads + Wait + Sync>(
    rt: &R,
    alloc: Global,
    base: &Base,
    batch: Batch,
    order: &mut Vec<u32>,
) -> Result<Committed, Fault> {
    let gate = Order {
        rt,
        places: Mutex::new(Vec::new(alloc)),
    };
    let tentative = executed(rt, alloc, base, batch, false, 16, &gate)?;
    *order = gate.places.into_inner();
    commit(tentative)
}

/// The requests with their steps, by their places.
fn add_tasks(alloc: Global, requests: &[Request], tasks: &mut Vec<Task>) -> Result<(), AllocError> {
    let mut place = 0u32;
    for request in requests {
        tasks.push(Task {
            place,
            steps: Steps::new(steps_of(alloc, &request.command)?),
        })?;
        place = place.wrapping_add(1);
    }
    Ok(())
}

/// The answers to each request of the batch on the plain store, if the steps are made in this order.
fn replay_batch(
    alloc: Global,
    plain: &mut PlainStore,
    batch: &Batch,
    order: &[u32],
    answers: &mut Vec<Vec<Answer>>,
) -> Result<(), AllocError> {
    let base = Stamp {
        moment: MOMENT,
        stamp: batch.first_stamp(),
    };
    let mut tasks = Vec::new(alloc);
    add_tasks(alloc, batch.requests.as_slice(), &mut tasks)?;
    replay(alloc, plain, tasks.as_slice(), base, order, answers)
}

/// Whether the answers, one to each step, make a reply of the same text as this one.
fn is_given(
    alloc: Global,
    request: &Request,
    answers: &[Answer],
    given: &Reply,
) -> Result<bool, AllocError> {
    if steps_of(alloc, &request.command)?.len() != answers.len() {
        return Ok(false);
    }
    let reply = reply_of(alloc, &request.command, answers)?;
    let (mut expected, mut text) = (Vec::new(alloc), Vec::new(alloc));
    write_reply(&reply, &mut expected)?;
    write_reply(given, &mut text)?;
    Ok(text == expected)
}

/// Whether these are the replies to the requests.
fn are_given(
    alloc: Global,
    requests: &[Request],
    answers: &[Vec<Answer>],
    replies: &[Answered],
) -> Result<bool, AllocError> {
    for ((request, answers), answered) in requests.iter().zip(answers).zip(replies) {
        if !is_given(alloc, request, answers.as_slice(), &answered.reply)? {
            return Ok(false);
        }
    }
    Ok((requests.len(), answers.len()) == (replies.len(), replies.len()))
}

/// Whether they are those on the plain store, if the steps are made in this order, one after the other.
fn agree(
    alloc: Global,
    plain: &mut PlainStore,
    batch: &Batch,
    order: &[u32],
    replies: &[Answered],
) -> Result<bool, AllocError> {
    let mut answers = Vec::new(alloc);
    replay_batch(alloc, plain, batch, order, &mut answers)?;
    are_given(
        alloc,
        batch.requests.as_slice(),
        answers.as_slice(),
        replies,
    )
}

/// Adds the places: each is one character, `0` for 0 up to `o` for 63.
fn add_order(order: &[u32], line: &mut String) -> Result<(), AllocError> {
    for place in order {
        line.push(char::from(b'0' + (*place % 64) as u8))?;
    }
    line.push(' ')
}

/// A committed state, and the same items on a plain store.
struct Both {
    committed: Committed,
    plain: PlainStore,
}

impl Drop for Both {
    fn drop(self) {
        let Both {
            committed: _,
            plain: _,
        } = self;
    }
}

/// Whether the order in which 16 workers make the steps of the batch gives the same replies; the line says
/// which it was.
fn is_replayed<R: Threads + Wait + Sync>(
    rt: &R,
    alloc: Global,
    both: &mut Both,
    batch: &Batch,
    order: &mut Vec<u32>,
    line: &mut String,
) -> Result<bool, Fault> {
    both.committed = run_batch(rt, alloc, both.committed.as_base(), batch.clone()?, order)?;
    add_order(order.as_slice(), line)?;
    let replies = both.committed.replies();
    Ok(agree(alloc, &mut both.plain, batch, order.as_slice(), replies)?)
}

/// The same of the next batch of those that wait.
fn is_next_replayed<R: Threads + Wait + Sync>(
    rt: &R,
    alloc: Global,
    both: &mut Both,
    gather: &mut Gather,
    line: &mut String,
) -> Result<bool, Fault> {
    let batch = cut_next(alloc, both.committed.as_base(), gather)?;
    let mut order = Vec::new(alloc);
    is_replayed(rt, alloc, both, &batch, &mut order, line)
}

/// Whether both batches of a round are replayed. Prints the round's number and its orders.
fn is_round_replayed<R: Threads + Wait + Sync + Print>(
    rt: &R,
    alloc: Global,
    both: &mut Both,
    gather: &mut Gather,
    number: u16,
) -> Result<bool, Fault> {
    let mut line = String::new(alloc);
    let first = is_next_replayed(rt, alloc, both, gather, &mut line)?;
    let second = is_next_replayed(rt, alloc, both, gather, &mut line)?;
    let _printed = println!(rt; "round {number}: {line}");
    Ok(first && second && gather.is_empty())
}

/// How many rounds up to this one are replayed, one after the other.
fn replayed<R: Threads + Wait + Sync + Print>(
    rt: &R,
    alloc: Global,
    both: &mut Both,
    gather: &mut Gather,
    last: u16,
) -> Result<u16, Fault> {
    let mut words = Lcg64Xsh32::seed_from_u64(64);
    for number in 1..=last {
        ask_all(alloc, gather, &mut words, number)?;
        if !is_round_replayed(rt, alloc, both, gather, number)? {
            return Ok(number.saturating_sub(1));
        }
    }
    Ok(last)
}

/// The same after a batch that sets the shared keys.
fn replayed_after_zeros<R: Threads + Wait + Sync + Print>(
    rt: &R,
    alloc: Global,
    both: &mut Both,
    gather: &mut Gather,
    last: u16,
) -> Result<u16, Fault> {
    ask_zeros(alloc, gather)?;
    let mut line = String::new(alloc);
    if !is_next_replayed(rt, alloc, both, gather, &mut line)? {
        return Err(Fault::Unfit);
    }
    replayed(rt, alloc, both, gather, last)
}

#[test]
fn orders_of_batches_replay(rt: HostRuntime) -> Result<(), Fail> {
    let mut gather = Gather::new(rt.alloc());
    let mut both = Both {
        committed: Committed::first(rt.alloc())?,
        plain: PlainStore::new(rt.alloc()),
    };
    let rounds = replayed_after_zeros(&rt, rt.alloc(), &mut both, &mut gather, 1000);
    assert_eq!(rt; rounds, Ok(1000));
    Ok(())
}

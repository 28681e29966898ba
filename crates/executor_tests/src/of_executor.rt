use batches::Batch;
use decrees::Decree;
use executor::{Answered, Base, Committed, Ended, Tentative, Work};
use proto::{Fault, Reply};
use std::alloc::{AllocError, Global};
use token::Token;
use wire::read;

mod chain;
mod forms;
mod migration;
mod old_bytes;
mod old_members;
mod records;
mod refusals;
mod replays;
mod rows;
mod steps;
mod threads;
mod ways;

use rows::*;

/// The head of a batch of epoch 1 at moment 1000: its number, and how many requests it has.
fn add_batch_head(bytes: &mut Vec<u8>, number: u8, count: u8) -> Result<(), AllocError> {
    bytes.extend_from_slice(&[
        4, 0, 0, 0, 0, 0, 0, 0, 1, 0, 0, 0, 0, 0, 0, 0, number, 0, 0, 3, 232, 0, 0, 0, count,
    ])
}

/// Adds a `set` of the key, by a client's request 1.
fn add_set(bytes: &mut Vec<u8>, client: u8, key: u8) -> Result<(), AllocError> {
    bytes.extend_from_slice(&[
        0, client, 0, 0, 0, 0, 0, 0, 0, 1, 2, 1, key, 0, 0, 0, 0, 0, 0, 0, 0, 0, 0, 0, 1, b'5',
    ])
}

/// Batch 1: 64 clients set 64 keys.
fn add_full_batch(bytes: &mut Vec<u8>) -> Result<(), AllocError> {
    add_batch_head(bytes, 1, 64)?;
    for key in 33..97u8 {
        add_set(bytes, key - 32, key)?;
    }
    Ok(())
}

/// Begins a batch.
fn begin(alloc: Global, base: &Base, bytes: &[u8], ordered: bool) -> Result<Ended, Fault> {
    let batch = read::<Batch>(alloc, bytes)?;
    if batch.n != base.number() + 1 {
        return Err(Fault::Unfit);
    }
    Ok(Work::begin(alloc, base, batch, ordered)?)
}

/// Makes the steps of the group that runs, 4096 at most, always that of the lowest place.
fn make_steps(alloc: Global, work: &mut Work) -> Result<(), AllocError> {
    for _ in 0..4096u32 {
        match work.next_place() {
            None => return Ok(()),
            Some(place) => drop(work.step(alloc, place)?),
        }
    }
    Ok(())
}

/// Runs the groups of a batch one after the other, 64 at most.
fn run_groups(alloc: Global, work: Work) -> Result<Tentative, Fault> {
    let mut work = work;
    for _ in 0..64u32 {
        make_steps(alloc, &mut work)?;
        match work.finish(alloc)? {
            Ended::Done(tentative) => return Ok(tentative),
            Ended::On(next) => work = next,
        }
    }
    Err(Fault::NotOpen)
}

/// Runs a batch to its end, step by step.
fn run(alloc: Global, base: &Base, bytes: &[u8], ordered: bool) -> Result<Tentative, Fault> {
    match begin(alloc, base, bytes, ordered)? {
        Ended::Done(tentative) => Ok(tentative),
        Ended::On(work) => run_groups(alloc, work),
    }
}

fn commit(tentative: Tentative) -> Result<Committed, Fault> {
    let own = Decree::Commit {
        n: tentative.number(),
        token: tentative.token(),
    };
    match tentative.commit(&own) {
        Ok(committed) => Ok(committed),
        Err(back) => {
            drop(back.undo());
            Err(Fault::NotOpen)
        }
    }
}

fn undone(tentative: Tentative) -> Token {
    let token = tentative.token();
    drop(tentative.undo());
    token
}

/// The token of a batch that is run step by step, which is undone then.
fn token_of(alloc: Global, base: &Base, bytes: &[u8]) -> Result<Token, Fault> {
    Ok(undone(run(alloc, base, bytes, false)?))
}

/// The state that a batch makes of a base, committed.
fn committed(alloc: Global, base: &Base, bytes: &[u8]) -> Result<Committed, Fault> {
    commit(run(alloc, base, bytes, false)?)
}

/// Executes these batches over the state, which is then the one after them.
fn go_on(alloc: Global, last: &mut Committed, batches: &[&[u8]]) -> Result<(), Fault> {
    for bytes in batches {
        *last = committed(alloc, last.as_base(), bytes)?;
    }
    Ok(())
}

/// The state after these batches over the first one.
fn after(alloc: Global, batches: &[&[u8]]) -> Result<Committed, Fault> {
    let mut last = Committed::first(alloc)?;
    go_on(alloc, &mut last, batches)?;
    Ok(last)
}

/// How a reply looks: `s` for STORED, and 0, 1 or 2 for none, one or more items that a `get` found.
fn mark(reply: &Reply) -> u8 {
    match reply {
        Reply::Stored => b's',
        Reply::Values(values) => match values.as_slice() {
            [] => b'0',
            [_] => b'1',
            _ => b'2',
        },
        _ => b'?',
    }
}

/// How the replies look, four at most; `.` if there is none.
fn marks(replies: &[Answered]) -> [u8; 4] {
    let mut out = [b'.'; 4];
    for (place, answered) in replies.iter().enumerate() {
        if place < 4 {
            out[place] = mark(&answered.reply);
        }
    }
    out
}

//! What work, bases and states tell on the way.

use super::ways::work_of;
use super::*;
use batches::Gather;
use states::State;
use std::test::Fail;

/// Whether it is the state that no batch led to, with no replies.
fn is_first(committed: &Committed) -> bool {
    let none = Token([0; 32]);
    let state = committed.state();
    (state.number(), state.epoch(), state.moment()) == (0, 1, 0)
        && (state.previous(), state.token()) == (none, none)
        && *state.batch() == [0; 32]
        && state.sessions().entries().is_empty()
        && state.pages().len(97) == 0
        && committed.replies().is_empty()
}

#[test]
fn the_state_of_number_0(rt: HostRuntime) -> Result<(), Fail> {
    let committed = Committed::first(rt.alloc())?;
    assert!(rt; is_first(&committed));
    Ok(())
}

/// By another program, over the texts of the batch of one `set`, of page 97 and of 255 pages without
/// items, of client 1's session, and of the token over them.
pub const TOKEN_OF_ONE_SET: [u8; 32] = [
    0xd6, 0xfa, 0xbc, 0x9b, 0x91, 0x08, 0xa6, 0xbc, 0x5a, 0x18, 0xa7, 0x6b, 0x45, 0x60, 0x68, 0x87,
    0x8a, 0x9a, 0xa2, 0xff, 0x34, 0xd7, 0xe9, 0x24, 0xa3, 0x27, 0x59, 0x8c, 0xf0, 0xcd, 0xd3, 0x9b,
];

#[test]
fn the_token_of_one_set(rt: HostRuntime) -> Result<(), Fail> {
    let base = Base::first(rt.alloc())?;
    assert!(rt; token_of(rt.alloc(), &base, ONE_SET) == Ok(Token(TOKEN_OF_ONE_SET)));
    Ok(())
}

/// The greatest unique that a `gets` would show of the keys on the key's page.
fn latest(alloc: Global, state: &State, key: u8) -> Result<u64, AllocError> {
    let mut latest = 0;
    for entry in &state.pages().entries(alloc, key as usize)? {
        latest = entry.value().unique.max(latest);
    }
    Ok(latest)
}

fn latest_of(alloc: Global, state: &State, keys: &[u8; 3]) -> Result<[u64; 3], AllocError> {
    Ok([
        latest(alloc, state, keys[0])?,
        latest(alloc, state, keys[1])?,
        latest(alloc, state, keys[2])?,
    ])
}

fn later_stamps(alloc: Global, full: &Committed) -> Result<[u64; 3], Fault> {
    let later = committed(alloc, full.as_base(), SET_MORE)?;
    Ok(latest_of(alloc, later.state(), b"_`a")?)
}

/// Those of three keys after the full batch, and of three after one more `set` of `a`.
fn stamps(alloc: Global, full: &Committed) -> Result<([u64; 3], [u64; 3]), Fault> {
    let first = latest_of(alloc, full.state(), b"!_`")?;
    Ok((first, later_stamps(alloc, full)?))
}

#[test]
fn stamps_are_64_times_the_number_and_the_place(rt: HostRuntime) -> Result<(), Fail> {
    let mut bytes = Vec::new(rt.alloc());
    add_full_batch(&mut bytes)?;
    let full = after(rt.alloc(), &[bytes.as_slice()])?;
    assert!(rt; stamps(rt.alloc(), &full) == Ok(([64, 126, 127], [126, 127, 128])));
    Ok(())
}

/// What work tells of its first group: whether no step was made before the first one and some after it,
/// and which place comes next before and after that step.
type First = (bool, Option<u32>, Option<u32>);

fn step_of(alloc: Global, work: &mut Work) -> Result<First, Fault> {
    let (untouched, next) = (work.is_untouched(), work.next_place());
    let made = work.step(alloc, 0)? && !work.is_untouched();
    Ok((untouched && made, next, work.next_place()))
}

/// Work of a batch over the first state.
fn first_work(alloc: Global, bytes: &[u8]) -> Result<Work, Fault> {
    let base = Base::first(alloc)?;
    work_of(alloc, &base, bytes)
}

fn first_step(alloc: Global, bytes: &[u8]) -> Result<First, Fault> {
    let mut work = first_work(alloc, bytes)?;
    step_of(alloc, &mut work)
}

#[test]
fn work_tells_which_place_comes_next(rt: HostRuntime) -> Result<(), Fail> {
    // The reader at place 1 is in the second group, and the writers are in the first.
    let of_three = first_step(rt.alloc(), THIRD_KEY);
    let of_one = first_step(rt.alloc(), ONE_SET);
    assert!(rt; of_three == Ok((true, Some(0), Some(2))), "of three");
    assert!(rt; of_one == Ok((true, Some(0), None)), "of one");
    Ok(())
}

/// Adds each request of the batch to those that wait.
fn add_requests(gather: &mut Gather, batch: &Batch) -> Result<(), AllocError> {
    for request in batch.requests.as_slice() {
        gather.add(request.clone()?)?;
    }
    Ok(())
}

/// How many requests are cut for the batch after the base.
fn cut_of(alloc: Global, base: &Base, gather: &mut Gather) -> Result<usize, Fault> {
    match base.cut(alloc, gather, 1, 1000)? {
        Some(batch) => Ok(batch.requests.len()),
        None => Ok(0),
    }
}

/// How many of the requests of this record are cut over the base, and how many after these.
fn cuts(alloc: Global, base: &Base, gather: &mut Gather) -> Result<(usize, usize), Fault> {
    add_requests(gather, &read::<Batch>(alloc, THIRD_KEY)?)?;
    let first = cut_of(alloc, base, gather)?;
    Ok((first, cut_of(alloc, base, gather)?))
}

#[test]
fn a_batch_is_cut_of_those_that_wait(rt: HostRuntime) -> Result<(), Fail> {
    let base = Base::first(rt.alloc())?;
    let mut gather = Gather::new(rt.alloc());
    assert!(rt; cuts(rt.alloc(), &base, &mut gather) == Ok((3, 0)));
    Ok(())
}

/// The token of the tentative state of batch 1, and that state as a base.
fn base_of_tentative(alloc: Global, bytes: &[u8]) -> Result<(Token, Base), Fault> {
    let first = Base::first(alloc)?;
    let tentative = run(alloc, &first, bytes, false)?;
    let base = tentative.as_base().share();
    let token = undone(tentative);
    Ok((token, base?))
}

/// What a `get` finds over the base.
fn found_over(alloc: Global, base: &Base) -> Result<[u8; 4], Fault> {
    let committed = committed(alloc, base, GET_THREE)?;
    Ok(marks(committed.replies()))
}

/// Whether that base has the number and the token of the state, and what a `get` finds over it.
fn found_over_tentative(alloc: Global) -> Result<(bool, [u8; 4]), Fault> {
    let (token, base) = base_of_tentative(alloc, THIRD_KEY)?;
    let is_known = base.number() == 1 && base.token() == token;
    Ok((is_known, found_over(alloc, &base)?))
}

#[test]
fn a_tentative_state_is_a_base(rt: HostRuntime) -> Result<(), Fail> {
    assert!(rt; found_over_tentative(rt.alloc()) == Ok((true, *b"2...")));
    Ok(())
}

//! Batches by each way to run them: how they are answered, and that all ways come to one state.

use super::threads::on_threads;
use super::*;
use round::NoGate;
use std::sync::Wait;
use std::test::Fail;
use std::thread::Threads;
use workers::Workers;

/// How a batch is run.
#[derive(Clone, Copy)]
pub enum Way {
    /// Step by step.
    Alone { ordered: bool },
    /// Step by step, the last request first. Only for a batch of one group.
    Backwards,
    /// Whole, by so many workers.
    Workers { ordered: bool, count: usize },
    /// Its work is begun, and then run to its end by four workers.
    Begun,
}

/// Work of a batch that has a group.
pub fn work_of(alloc: Global, base: &Base, bytes: &[u8]) -> Result<Work, Fault> {
    match begin(alloc, base, bytes, false)? {
        Ended::On(work) => Ok(work),
        Ended::Done(tentative) => {
            drop(tentative.undo());
            Err(Fault::NotOpen)
        }
    }
}

/// Makes all steps of the group that runs, the last request first.
fn step_backwards(alloc: Global, work: &mut Work) -> Result<(), AllocError> {
    for turn in 0..4096u32 {
        // Each request has 64 turns, of which it needs one a step.
        drop(work.step(alloc, 63u32.saturating_sub(turn / 64))?);
    }
    Ok(())
}

/// What the last group ends in.
fn done_of(ended: Ended) -> Result<Tentative, Fault> {
    match ended {
        Ended::Done(tentative) => Ok(tentative),
        Ended::On(_) => Err(Fault::NotOpen),
    }
}

fn run_backwards(alloc: Global, work: Work) -> Result<Tentative, Fault> {
    let mut work = work;
    step_backwards(alloc, &mut work)?;
    done_of(work.finish(alloc)?)
}

fn run_begun<R: Threads + Wait + Sync>(
    rt: &R,
    alloc: Global,
    work: Work,
) -> Result<Tentative, Fault> {
    match Workers::new(4) {
        Some(four) if work.is_untouched() => Ok(work.run_on_threads(rt, alloc, four, &NoGate)?),
        _ => Err(Fault::Unfit),
    }
}

pub fn run_by<R: Threads + Wait + Sync>(
    rt: &R,
    alloc: Global,
    base: &Base,
    bytes: &[u8],
    way: Way,
) -> Result<Tentative, Fault> {
    match way {
        Way::Alone { ordered } => run(alloc, base, bytes, ordered),
        Way::Backwards => run_backwards(alloc, work_of(alloc, base, bytes)?),
        Way::Workers { ordered, count } => {
            on_threads(rt, alloc, base, bytes, ordered, count, &NoGate)
        }
        Way::Begun => run_begun(rt, alloc, work_of(alloc, base, bytes)?),
    }
}

/// A batch after others, and how the replies to it look.
struct Row {
    name: &'static str,
    before: &'static [&'static [u8]],
    batch: &'static [u8],
    way: Way,
    shown: &'static [u8; 4],
}

const GROUPS: Way = Way::Alone { ordered: false };

const ORDERED: Way = Way::Alone { ordered: true };

const BY_FOUR: Way = Way::Workers {
    ordered: false,
    count: 4,
};

const ORDERED_BY_FOUR: Way = Way::Workers {
    ordered: true,
    count: 4,
};

const ROWS: [Row; 12] = [
    Row {
        name: "an item that is due at once is not found by a later group",
        before: &[],
        batch: DUE_AT_ONCE,
        way: GROUPS,
        shown: b"s0..",
    },
    Row {
        name: "groups and batch order differ where a third key is overlooked: groups",
        before: &[],
        batch: THIRD_KEY,
        way: GROUPS,
        shown: b"s2s.",
    },
    Row {
        name: "groups and batch order differ where a third key is overlooked: batch order",
        before: &[],
        batch: THIRD_KEY,
        way: ORDERED,
        shown: b"s1s.",
    },
    Row {
        name: "an item is found until it is due: before",
        before: &[DUE_LATER],
        batch: GET_BEFORE_IT_IS_DUE,
        way: GROUPS,
        shown: b"1...",
    },
    Row {
        name: "an item is found until it is due: then",
        before: &[DUE_LATER],
        batch: GET_ONCE_IT_IS_DUE,
        way: GROUPS,
        shown: b"0...",
    },
    Row {
        name: "a gat gives an item another due time: before",
        before: &[ONE_SET, GAT_OF_A],
        batch: GET_AT_1009,
        way: GROUPS,
        shown: b"1...",
    },
    Row {
        name: "a gat gives an item another due time: once due",
        before: &[ONE_SET, GAT_OF_A],
        batch: GET_AT_1010,
        way: GROUPS,
        shown: b"0...",
    },
    Row {
        name: "a get beside a gat sees the item",
        before: &[SET_OF_C],
        batch: GAT_AND_GET_OF_C,
        way: GROUPS,
        shown: b"11..",
    },
    Row {
        name: "two groups run one after the other on threads",
        before: &[],
        batch: TWO_GROUPS,
        way: BY_FOUR,
        shown: b"s10s",
    },
    Row {
        name: "an ordered batch runs in its order on threads",
        before: &[],
        batch: THIRD_KEY,
        way: ORDERED_BY_FOUR,
        shown: b"s1s.",
    },
    Row {
        name: "a batch of no request has no group",
        before: &[],
        batch: NO_REQUEST,
        way: BY_FOUR,
        shown: b"....",
    },
    Row {
        name: "an ordered batch of no request has no group",
        before: &[],
        batch: NO_REQUEST,
        way: ORDERED_BY_FOUR,
        shown: b"....",
    },
];

/// How the replies to the row's batch over this base look.
fn shown_over<R: Threads + Wait + Sync>(
    rt: &R,
    alloc: Global,
    base: &Base,
    row: &Row,
) -> Result<[u8; 4], Fault> {
    let committed = commit(run_by(rt, alloc, base, row.batch, row.way)?)?;
    Ok(marks(committed.replies()))
}

fn shown<R: Threads + Wait + Sync>(rt: &R, alloc: Global, row: &Row) -> Result<[u8; 4], Fault> {
    let before = after(alloc, row.before)?;
    shown_over(rt, alloc, before.as_base(), row)
}

#[test]
fn batches_are_answered_so(rt: HostRuntime) -> Result<(), Fail> {
    for row in &ROWS {
        assert!(rt;
            shown(&rt, rt.alloc(), row) == Ok(*row.shown),
            "{}",
            row.name
        );
    }
    Ok(())
}

/// The token to which the batch leads, which is tried so often as long as memory is refused.
fn token_by<R: Threads + Wait + Sync>(
    rt: &R,
    alloc: Global,
    base: &Base,
    bytes: &[u8],
    way: Way,
    tries: u32,
) -> Result<Token, Fault> {
    for _ in 0..tries {
        match run_by(rt, alloc, base, bytes, way) {
            Ok(tentative) => return Ok(undone(tentative)),
            Err(Fault::NoMemory) => {}
            Err(fault) => return Err(fault),
        }
    }
    Err(Fault::NoMemory)
}

/// How many of the ways lead to the state of one thread, up to the first that does not; none if the base
/// is not as it was.
fn agreeing_over<R: Threads + Wait + Sync>(
    rt: &R,
    alloc: Global,
    base: &Base,
    bytes: &[u8],
    ways: &[Way],
    tries: u32,
) -> Result<usize, Fault> {
    let before = (base.number(), base.token());
    let token = token_of(alloc, base, bytes)?;
    let mut agreeing = 0usize;
    for way in ways {
        if token_by(rt, alloc, base, bytes, *way, tries)? != token {
            return Ok(agreeing);
        }
        agreeing = agreeing.saturating_add(1);
    }
    if (base.number(), base.token()) != before {
        return Ok(0);
    }
    Ok(agreeing)
}

/// The same over the state after other batches.
pub fn agreeing<R: Threads + Wait + Sync>(
    rt: &R,
    alloc: Global,
    before: &[&[u8]],
    bytes: &[u8],
    ways: &[Way],
    tries: u32,
) -> Result<usize, Fault> {
    let before = after(alloc, before)?;
    agreeing_over(rt, alloc, before.as_base(), bytes, ways, tries)
}

const ALL: [Way; 5] = [
    Way::Backwards,
    Way::Workers {
        ordered: false,
        count: 1,
    },
    Way::Workers {
        ordered: false,
        count: 4,
    },
    Way::Workers {
        ordered: false,
        count: 16,
    },
    Way::Begun,
];

/// The steps of the full batch do not conflict. Those of the other are a reader and a `gat` of its key.
#[test]
fn each_way_leads_to_the_state_of_one_thread(rt: HostRuntime) -> Result<(), Fail> {
    let mut full = Vec::new(rt.alloc());
    add_full_batch(&mut full)?;
    let of_full = agreeing(&rt, rt.alloc(), &[], full.as_slice(), &ALL, 1);
    let ways = [Way::Backwards];
    let of_gat = agreeing(&rt, rt.alloc(), &[SET_OF_C], GAT_AND_GET_OF_C, &ways, 1);
    assert!(rt; of_full == Ok(5), "of a full batch");
    assert!(rt; of_gat == Ok(1), "of gat and get");
    Ok(())
}

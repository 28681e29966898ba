//! What happens in a row, and how all that comes of it is brought to an end.

use events::{Config, Event, Replica};
use proto::Fault;
use std::alloc::{AllocError, Global};
use world::World;

/// What happens in a row.
#[derive(Clone, Copy)]
pub enum Done<'a> {
    /// The only client is fed these bytes.
    Feed(&'a [u8]),
    /// It asks again what was not answered.
    Again,
    Hangup,
    /// The executor cuts a batch.
    Cut(u8),
    /// The last letter that was sent comes before all others, and this executor executes the batch of one
    /// request that is in it.
    First(u8),
    /// All letters that were not delivered yet are, in order, and all work is done: each letter before more
    /// work, and the work of the lowest executor first.
    Settle,
    /// As `Settle`, but each letter comes twice.
    SettleTwice,
    /// The letters sent so far never come.
    LoseLetters,
    Suspect(u8),
    Crash(Replica),
    Restart(Replica),
    Lost(Replica),
    FailSave(Replica),
}

/// How far a row is.
#[derive(Clone, Copy)]
struct Stage {
    /// How many letters were delivered, or never come.
    delivered: u64,
}

fn deliver(alloc: Global, world: World, letter: u64, times: u8) -> Result<World, AllocError> {
    let mut world = world;
    for _ in 0..times {
        world = world.step(alloc, &Event::Deliver { letter })?;
    }
    Ok(world)
}

/// Each letter that was not delivered yet comes so many times.
fn deliver_all(
    alloc: Global,
    stage: &mut Stage,
    world: World,
    times: u8,
) -> Result<World, AllocError> {
    let mut world = world;
    for _ in 0..4000u32 {
        if world.sent() as u64 <= stage.delivered {
            return Ok(world);
        }
        stage.delivered = stage.delivered.saturating_add(1);
        world = deliver(alloc, world, stage.delivered, times)?;
    }
    Ok(world)
}

/// All letters that were not delivered come so many times each, and then the lowest executor that has work
/// does what comes next of it; until nothing is left to do.
fn settle(alloc: Global, stage: &mut Stage, world: World, times: u8) -> Result<World, AllocError> {
    let mut world = world;
    for _ in 0..1000u32 {
        world = deliver_all(alloc, stage, world, times)?;
        match world.next_work() {
            Some(event) => world = world.step(alloc, &event)?,
            None => return Ok(world),
        }
    }
    Ok(world)
}

/// The bytes come from the only client.
pub fn fed(alloc: Global, bytes: &[u8], world: World) -> Result<World, AllocError> {
    match Vec::from_slice(alloc, bytes) {
        Ok(bytes) => world.step(alloc, &Event::Feed { client: 1, bytes }),
        Err(error) => {
            world.end();
            Err(error)
        }
    }
}

fn execute_first(alloc: Global, executor: u8, world: World) -> Result<World, AllocError> {
    let letter = world.sent() as u64;
    let world = world.step(alloc, &Event::Deliver { letter })?;
    let world = world.step(alloc, &Event::Step { executor, place: 0 })?;
    world.step(alloc, &Event::Finish { executor })
}

fn does(alloc: Global, stage: &mut Stage, world: World, done: Done) -> Result<World, AllocError> {
    let event = match done {
        Done::Feed(bytes) => return fed(alloc, bytes, world),
        Done::Settle => return settle(alloc, stage, world, 1),
        Done::SettleTwice => return settle(alloc, stage, world, 2),
        Done::First(executor) => return execute_first(alloc, executor, world),
        Done::LoseLetters => {
            stage.delivered = world.sent() as u64;
            return Ok(world);
        }
        Done::Again => Event::Again { client: 1 },
        Done::Hangup => Event::Hangup { client: 1 },
        Done::Cut(executor) => Event::Cut {
            executor,
            moment: 1000,
        },
        Done::Suspect(verifier) => Event::Suspect { verifier },
        Done::Crash(replica) => Event::Crash(replica),
        Done::Restart(replica) => Event::Restart(replica),
        Done::Lost(replica) => Event::Lost(replica),
        Done::FailSave(replica) => Event::FailSave(replica),
    };
    world.step(alloc, &event)
}

fn happened(
    alloc: Global,
    stage: &mut Stage,
    world: World,
    row: &[Done],
) -> Result<World, AllocError> {
    let mut world = world;
    for done in row {
        world = does(alloc, stage, world, *done)?;
    }
    Ok(world)
}

/// The world after the row has happened so many times. Letters that were sent before it come once more.
pub fn repeated(alloc: Global, world: World, row: &[Done], times: u8) -> Result<World, AllocError> {
    let mut stage = Stage { delivered: 0 };
    let mut world = world;
    for _ in 0..times {
        world = happened(alloc, &mut stage, world, row)?;
    }
    Ok(world)
}

/// The world in which the row has happened, if `u` of the replicas may fail.
pub fn played(alloc: Global, u: u8, row: &[Done]) -> Result<World, Fault> {
    let config = Config::new(u, 1)?;
    Ok(repeated(alloc, World::open(alloc, &config)?, row, 1)?)
}

/// Whether the only client is given just these bytes.
pub fn gives(alloc: Global, u: u8, row: &[Done], bytes: &[u8]) -> Result<bool, Fault> {
    let world = played(alloc, u, row)?;
    let gave = world.given(1) == Some(bytes);
    world.end();
    Ok(gave)
}

/// How many letters are sent.
pub fn sends(alloc: Global, u: u8, row: &[Done]) -> Result<usize, Fault> {
    let world = played(alloc, u, row)?;
    let sent = world.sent();
    world.end();
    Ok(sent)
}

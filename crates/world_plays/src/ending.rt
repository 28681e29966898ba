//! How a play is brought to its end.

use crate::acting::settle;
use crate::stage::Stage;
use events::{Event, Replica};
use std::alloc::{AllocError, Global};
use world::World;

/// All replicas that are down are opened, and letters reach all.
fn healed(alloc: Global, stage: &mut Stage, world: World) -> Result<World, AllocError> {
    stage.deaf = None;
    let mut world = world;
    for id in 0..stage.members() {
        world = stage.happen(alloc, world, &Event::Restart(Replica::Executor(id)))?;
        world = stage.happen(alloc, world, &Event::Restart(Replica::Verifier(id)))?;
    }
    Ok(world)
}

/// All clients ask again, and all executors are to cut a batch.
fn asked_again(alloc: Global, stage: &mut Stage, world: World) -> Result<World, AllocError> {
    let mut world = world;
    for client in 0..stage.clients {
        let client = client.saturating_add(1);
        world = stage.happen(alloc, world, &Event::Again { client })?;
    }
    world = settle(alloc, stage, world, 2000)?;
    for executor in 0..stage.members() {
        let cut = Event::Cut {
            executor,
            moment: 3000,
        };
        world = stage.happen(alloc, world, &cut)?;
    }
    settle(alloc, stage, world, 2000)
}

/// All clients ask again, and then a verifier suspects that the leader is lost.
fn retried(
    alloc: Global,
    stage: &mut Stage,
    verifier: u8,
    world: World,
) -> Result<World, AllocError> {
    // A save that was to fail may have stopped one.
    let world = healed(alloc, stage, world)?;
    let world = asked_again(alloc, stage, world)?;
    let world = stage.happen(alloc, world, &Event::Suspect { verifier })?;
    settle(alloc, stage, world, 2000)
}

/// What is left to do is done, as far as that goes.
pub fn ended(alloc: Global, stage: &mut Stage, world: World) -> Result<World, AllocError> {
    let mut world = retried(alloc, stage, 0, world)?;
    for verifier in 0..stage.members() {
        world = retried(alloc, stage, verifier, world)?;
    }
    world = healed(alloc, stage, world)?;
    world = asked_again(alloc, stage, world)?;
    healed(alloc, stage, world)
}

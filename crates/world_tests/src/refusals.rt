//! A row in which allocations may fail: `scripts/refusals` has each fail in turn. `NoMemory` ends a row in which
//! one of the world's own failed, for its lists or for the copy of a letter.

use crate::stage::{Done, played};
use proto::Fault;
use slots::Status;
use std::alloc::Global;
use std::test::Fail;
use world::World;

/// Executor 2 is the first to execute each batch.
const EXECUTOR_2_FIRST: [Done; 8] = [
    Done::Feed(b"set a 0 0 1\r\n5\r\nget a\r\n"),
    Done::Settle,
    Done::Cut(0),
    Done::First(2),
    Done::Settle,
    Done::Cut(0),
    Done::First(2),
    Done::Settle,
];

const GIVEN: &[u8] = b"STORED\r\nVALUE a 0 1\r\n5\r\nEND\r\n";

/// Whether all but executor 2 are up.
fn others_are_up(world: &World) -> bool {
    let mut executors = world.executors().iter().take(2);
    let mut verifiers = world.verifiers().iter();
    let mut clients = world.clients().iter();
    executors.all(|slot| matches!(slot.status(), Status::Up(_)))
        && verifiers.all(|slot| matches!(slot.status(), Status::Up(_)))
        && clients.all(|slot| slot.is_open())
}

/// Whether the client was given all; or a beginning of it, if another node than executor 2 has stopped.
fn is_right(world: &World) -> bool {
    match world.given(1) {
        Some(given) => GIVEN.starts_with(given)
            && (given.len() == GIVEN.len() || !others_are_up(world)),
        None => false,
    }
}

fn row(alloc: Global) -> Result<bool, Fault> {
    let world = played(alloc, 1, &EXECUTOR_2_FIRST)?;
    let is_right = is_right(&world);
    world.end();
    Ok(is_right)
}

#[test]
fn the_row_holds_with_ample_memory(rt: HostRuntime) -> Result<(), Fail> {
    assert!(rt; row(rt.alloc()) == Ok(true));
    Ok(())
}

#[test]
fn one_that_is_refused_a_growth_is_not_missed(rt: HostRuntime) -> Result<(), Fail> {
    let row = row(rt.alloc());
    assert!(rt; row == Ok(true) || row == Err(Fault::NoMemory));
    Ok(())
}

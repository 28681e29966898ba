//! A row, a schedule in which all goes well: once as it is, and then with a crash and a restart of each
//! replica after each of its events.

use crate::acting::settle;
use crate::counts::{Counts, Failed};
use crate::stage::{Again, Stage};
use events::{Event, Replica};
use proto::Fault;
use schedules::{Schedule, ScheduleLine};
use std::alloc::{AllocError, Global};
use world::World;

/// Whether no line names a letter by its number, which is another one after a restart.
fn is_row(lines: &[ScheduleLine]) -> bool {
    lines.iter().all(|line| match line {
        ScheduleLine::Happens(Event::Deliver { .. }) => false,
        ScheduleLine::Happens(_) => true,
        ScheduleLine::Settle { .. } => true,
        ScheduleLine::Random { .. } => false,
    })
}

fn follow(
    alloc: Global,
    stage: &mut Stage,
    line: &ScheduleLine,
    world: World,
) -> Result<World, AllocError> {
    match line {
        ScheduleLine::Happens(event) => stage.happen(alloc, world, event),
        ScheduleLine::Settle { most } => settle(alloc, stage, world, *most),
        ScheduleLine::Random { .. } => Ok(world),
    }
}

/// The world in which the row has happened.
fn played(alloc: Global, stage: &mut Stage, row: &Schedule) -> Result<World, AllocError> {
    let mut world = World::open(alloc, &row.config)?;
    for line in &row.lines {
        world = follow(alloc, stage, line, world)?;
    }
    Ok(world)
}

/// What each client was given.
fn given(alloc: Global, world: &World) -> Result<Vec<Vec<u8>>, AllocError> {
    let mut all = Vec::new(alloc);
    for slot in world.clients() {
        all.push(Vec::from_slice(alloc, slot.given())?)?;
    }
    Ok(all)
}

/// Whether each client was given a beginning of this.
fn is_beginning(world: &World, whole: &[Vec<u8>]) -> bool {
    let mut slots = world.clients().iter();
    whole.iter().all(|bytes| match slots.next() {
        Some(slot) => bytes.starts_with(slot.given()),
        None => false,
    })
}

/// What clients are given in the row as it is, and how many events it has.
fn whole(alloc: Global, row: &Schedule) -> Result<(Vec<Vec<u8>>, u32), Fault> {
    let mut stage = Stage::new(alloc, &row.config)?;
    let world = played(alloc, &mut stage, row)?;
    let all = given(alloc, &world);
    world.end();
    Ok((all?, stage.happened))
}

/// The row with a restart. False: it shows what no server would, or not the row's bytes.
fn is_right(
    alloc: Global,
    row: &Schedule,
    whole: &[Vec<u8>],
    again: Again,
    counts: &mut Counts,
) -> Result<bool, Fault> {
    let mut stage = Stage::new(alloc, &row.config)?;
    stage.again = Some(again);
    let world = played(alloc, &mut stage, row)?;
    let turns = stage.judge.turns_given(&world);
    let is_right = turns.is_some() && is_beginning(&world, whole);
    counts.add(&world, stage.happened, turns.unwrap_or(0));
    world.end();
    Ok(is_right)
}

/// The replica of this number, executors first.
fn replica(members: u8, number: u8) -> Replica {
    if number < members {
        Replica::Executor(number)
    } else {
        Replica::Verifier(number - members)
    }
}

/// The row with a restart of each replica after so many events, until one shows what it should not.
fn restart_each(
    alloc: Global,
    row: &Schedule,
    whole: &[Vec<u8>],
    after: u32,
    counts: &mut Counts,
) -> Result<(), Fault> {
    let members = 2 * row.config.u() + 1;
    for number in 0..2 * members {
        let again = Again {
            after,
            replica: replica(members, number),
        };
        if !is_right(alloc, row, whole, again, counts)? {
            counts.failed = Some(Failed::Restart { after, number });
            return Ok(());
        }
    }
    Ok(())
}

/// The row with a restart of each replica after each event, until one shows what it should not.
/// `BadSchedule`: a line names a letter by its number, or has events at random.
pub fn play_restarts(alloc: Global, row: &Schedule) -> Result<Counts, Fault> {
    if !is_row(&row.lines) {
        return Err(Fault::BadSchedule);
    }
    let (whole, events) = whole(alloc, row)?;
    let mut counts = Counts::new();
    for before in 0..events {
        restart_each(alloc, row, &whole, before.saturating_add(1), &mut counts)?;
        if counts.failed.is_some() {
            return Ok(counts);
        }
    }
    Ok(counts)
}

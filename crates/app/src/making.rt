//! The events that a schedule makes. They happen in a world as they are made, since what `settle` and
//! `random` make depends on it.

ghost use Rattle.std.specs.Prelude.{◌≡◌, IfOk, length};
ghost use Rattle.makers.specs.Table.{next_event, after_event};
ghost use Rattle.app.specs.Making as spec;

use crate::past::Past;
use crate::progress::Progress;
use events::{Config, Event};
use makers::Maker;
use schedules::ScheduleLine;
use std::alloc::{AllocError, Global};
use world::World;

/// The first world, in which nothing happened yet.
fn first_world(alloc: Global, config: &Config) -> Result<(World, Past), AllocError>
    ensures { IfOk result (λ r. spec.IsFirstStage config.now (spec.stage r.0 r.1)) }
{
    let world = World::open(alloc, config)?;
    match Past::new(alloc, world.sent()) {
        Ok(past) => Ok((world, past)),
        Err(error) => {
            world.end();
            Err(error)
        }
    }
}

/// The event happens.
fn happen<P: Progress>(
    alloc: Global,
    world: World,
    past: &mut Past,
    event: Event,
    progress: &mut P,
) -> Result<World, AllocError>
    ensures { IfOk result (λ now. spec.HappensAt (spec.stage world past.old) event (spec.stage now past.new)) }
{
    let world = world.step(alloc, &event)?;
    match past.note(event, world.sent()) {
        Ok(()) => {
            progress.happened(past.count());
            Ok(world)
        }
        Err(error) => {
            world.end();
            Err(error)
        }
    }
}

/// What is left to do.
fn next_to_settle(world: &World, past: &mut Past) -> Option<Event>
    ensures next { spec.IsNextToSettle (spec.stage world.now past.old) result }
    ensures same { past.new ≡ past.old }
{
    match past.next_letter() {
        Some(letter) => Some(Event::Deliver { letter }),
        None => world.next_work(),
    }
}

/// Letters are delivered and work is done, until nothing is left to do, by at most so many events.
#[tactic(auto, using(crate::proofs::MakingLemmas::settles_nothing, crate::proofs::MakingLemmas::settles_next, crate::proofs::MakingLemmas::settles_most, crate::proofs::MakingLemmas::settles_all))]
fn settle<P: Progress>(
    alloc: Global,
    world: World,
    past: &mut Past,
    most: u32,
    progress: &mut P,
) -> Result<World, AllocError>
    ensures { IfOk result (λ now. spec.StageSettles most (spec.stage world past.old) (spec.stage now past.new)) }
{
    let mut world = world;
    for _ in 0..most {
        match next_to_settle(&world, past) {
            Some(event) => world = happen(alloc, world, past, event, progress)?,
            None => return Ok(world),
        }
    }
    Ok(world)
}

/// The next event at random, if the next words make one.
fn happen_next<P: Progress>(
    alloc: Global,
    config: &Config,
    world: World,
    past: &mut Past,
    maker: &mut Maker,
    progress: &mut P,
) -> Result<World, AllocError>
    ensures made { IfOk result (λ now. spec.MayHappen (spec.stage world past.old) (next_event config.now (length world.letters) maker.old) (spec.stage now past.new)) }
    ensures words { maker.new ≡ after_event maker.old }
{
    match maker.event(config, world.sent() as u64) {
        Some(event) => happen(alloc, world, past, event, progress),
        None => Ok(world),
    }
}

/// So many events, made at random of the seed.
#[tactic(auto, using(crate::proofs::MakingLemmas::words_next, crate::proofs::MakingLemmas::made_next))]
fn happen_at_random<P: Progress>(
    alloc: Global,
    config: &Config,
    world: World,
    past: &mut Past,
    seed: u64,
    count: u32,
    progress: &mut P,
) -> Result<World, AllocError>
    ensures { IfOk result (λ now. spec.MadeOfWords config.now count (spec.words_of_seed seed) (spec.stage world past.old) (spec.stage now past.new)) }
{
    let mut world = world;
    let mut maker = Maker::new(seed);
    for _ in 0..count {
        world = happen_next(alloc, config, world, past, &mut maker, progress)?;
    }
    Ok(world)
}

/// What the line says happens.
fn follow_line<P: Progress>(
    alloc: Global,
    config: &Config,
    world: World,
    past: &mut Past,
    line: ScheduleLine,
    progress: &mut P,
) -> Result<World, AllocError>
    ensures { IfOk result (λ now. spec.LineMakes config.now line (spec.stage world past.old) (spec.stage now past.new)) }
{
    match line {
        ScheduleLine::Happens(event) => happen(alloc, world, past, event, progress),
        ScheduleLine::Settle { most } => settle(alloc, world, past, most, progress),
        ScheduleLine::Random { seed, count } => {
            happen_at_random(alloc, config, world, past, seed, count, progress)
        }
    }
}

/// What the lines say happens, one line after the other.
#[tactic(auto, using(crate::proofs::MakingLemmas::lines_make_next))]
fn follow_lines<P: Progress>(
    alloc: Global,
    config: &Config,
    world: World,
    past: &mut Past,
    lines: Vec<ScheduleLine>,
    progress: &mut P,
) -> Result<World, AllocError>
    ensures { IfOk result (λ now. spec.LinesMake config.now lines.items (spec.stage world past.old) (spec.stage now past.new)) }
{
    let mut world = world;
    for line in lines {
        world = follow_line(alloc, config, world, past, line, progress)?;
    }
    Ok(world)
}

/// The events that the lines of a schedule make, in a world of this size.
pub fn events_of<P: Progress>(
    alloc: Global,
    config: &Config,
    lines: Vec<ScheduleLine>,
    progress: &mut P,
) -> Result<Vec<Event>, AllocError>
    ensures { IfOk result (λ events. spec.Makes config.now lines.items events.items) }
{
    let (world, mut past) = first_world(alloc, config)?;
    let world = follow_lines(alloc, config, world, &mut past, lines, progress)?;
    world.end();
    Ok(past.into_events())
}

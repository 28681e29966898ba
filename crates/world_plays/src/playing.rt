//! Plays of kinds, from their first event to what came of them.

use crate::acting::{settle, step_at_random};
use crate::checks::replies;
use crate::counts::{Counts, Failed};
use crate::ending::ended;
use crate::stage::{Kind, MOST, Stage, kind_of};
use crate::task::Seeds;
use events::{Config, Event};
use proto::Fault;
use random::Words;
use std::alloc::{AllocError, Global};
use world::World;

/// The counter is set, and its batch is decided.
fn begun(alloc: Global, stage: &mut Stage, config: &Config) -> Result<World, AllocError> {
    let mut bytes = Vec::new(alloc);
    bytes.extend_from_slice(b"set n 0 0 1\r\n0\r\n".as_slice())?;
    let feed = Event::Feed { client: 1, bytes };
    let mut world = World::open(alloc, config)?;
    world = stage.happen(alloc, world, &feed)?;
    world = settle(alloc, stage, world, 1000)?;
    let cut = Event::Cut {
        executor: 0,
        moment: 1000,
    };
    world = stage.happen(alloc, world, &cut)?;
    settle(alloc, stage, world, 10_000)
}

/// So many acts at random, unless what they show is not what one server would.
fn acted(
    alloc: Global,
    stage: &mut Stage,
    words: &mut Words,
    kind: Kind,
    events: u32,
    world: World,
) -> Result<World, AllocError> {
    let mut world = world;
    for _ in 0..events {
        if !stage.judge.is_one() {
            return Ok(world);
        }
        world = step_at_random(alloc, stage, words, kind, world)?;
    }
    Ok(world)
}

/// Whether a world shows what one server gives, at its end; what came of it is counted.
fn is_right(
    world: &World,
    stage: &Stage,
    seen: &mut Vec<bool>,
    events: u32,
    counts: &mut Counts,
) -> bool {
    match (stage.judge.turns_given(world), replies(world, seen)) {
        (Some(_), Some(replies)) => {
            counts.add(world, events, replies);
            true
        }
        _ => false,
    }
}

fn any_config(words: &mut Words) -> Result<Config, Fault> {
    let u = u8::try_from(words.below(4)).unwrap_or(0);
    let clients = u16::try_from(words.below(8)).unwrap_or(0);
    Config::new(u, clients.saturating_add(1))
}

/// The play of a seed. False: it shows what no server would.
fn play(
    alloc: Global,
    seed: u32,
    events: u32,
    trims: bool,
    counts: &mut Counts,
) -> Result<bool, Fault> {
    let mut words = Words::new(seed);
    let config = any_config(&mut words)?;
    let kind = kind_of(words.below(8));
    let mut stage = Stage::new(alloc, &config)?;
    stage.trims = trims;
    let mut seen = vec![in alloc; false; MOST]?;
    let mut world = begun(alloc, &mut stage, &config)?;
    world = acted(alloc, &mut stage, &mut words, kind, events, world)?;
    world = ended(alloc, &mut stage, world)?;
    let is_one = is_right(&world, &stage, &mut seen, events, counts);
    world.end();
    Ok(is_one)
}

/// The plays of these seeds, with or without trims, until one shows what no server would.
pub fn play_all(alloc: Global, seeds: Seeds, trims: bool) -> Result<Counts, Fault> {
    let mut counts = Counts::new();
    for i in 0..seeds.count {
        let seed = seeds.first.wrapping_add(i);
        if !play(alloc, seed, seeds.events, trims, &mut counts)? {
            counts.failed = Some(Failed::Kind { seed });
            return Ok(counts);
        }
    }
    Ok(counts)
}

//! Plays of events that a maker makes: eight clients first ask twenty commands each.

use crate::counts::{Counts, Failed};
use crate::ending::ended;
use crate::stage::Stage;
use events::{Config, Event};
use makers::Maker;
use proto::Fault;
use random::Words;
use std::alloc::{AllocError, Global};
use world::World;

const CLIENTS: u16 = 8;

const COMMANDS_OF_A_CLIENT: u32 = 20;

/// What clients ask. No command has more than two keys, so each order of a group has the same answers.
const COMMANDS: [&[u8]; 20] = [
    b"set a 0 0 1\r\n1\r\n",
    b"set b 7 0 2\r\n10\r\n",
    b"set b 7 300 1\r\n8\r\n",
    b"set a 0 0 1 noreply\r\n9\r\n",
    b"add a 0 0 1\r\n2\r\n",
    b"replace b 3 0 1\r\n3\r\n",
    b"append a 0 0 1\r\n4\r\n",
    b"prepend b 0 0 1\r\n5\r\n",
    b"cas a 0 0 1 64\r\n6\r\n",
    b"cas b 0 0 1 129\r\n7\r\n",
    b"incr a 1\r\n",
    b"incr a 12\r\n",
    b"decr b 3\r\n",
    b"get a b\r\n",
    b"gets b a\r\n",
    b"gat 200 b\r\n",
    b"gats 0 a b\r\n",
    b"touch a 400\r\n",
    b"delete b\r\n",
    b"version\r\n",
];

/// What a client asks, all of it.
fn commands(alloc: Global, words: &mut Words, client: u16) -> Result<Event, AllocError> {
    let mut bytes = Vec::new(alloc);
    for _ in 0..COMMANDS_OF_A_CLIENT {
        if let Some(command) = COMMANDS.get(words.below(20) as usize) {
            bytes.extend_from_slice(*command)?;
        }
    }
    Ok(Event::Feed { client, bytes })
}

/// A client asks all its commands.
fn asked(
    alloc: Global,
    stage: &mut Stage,
    words: &mut Words,
    client: u16,
    world: World,
) -> Result<World, AllocError> {
    match commands(alloc, words, client) {
        Ok(event) => stage.happen(alloc, world, &event),
        Err(error) => {
            world.end();
            Err(error)
        }
    }
}

fn begun(
    alloc: Global,
    stage: &mut Stage,
    config: &Config,
    seed: u32,
) -> Result<World, AllocError> {
    let mut words = Words::new(seed);
    let mut world = World::open(alloc, config)?;
    for client in 0..CLIENTS {
        world = asked(alloc, stage, &mut words, client.saturating_add(1), world)?;
    }
    Ok(world)
}

/// So many events of the maker, unless what they show is not what one server would.
fn made(
    alloc: Global,
    stage: &mut Stage,
    config: &Config,
    seed: u32,
    events: u32,
    world: World,
) -> Result<World, AllocError> {
    let mut maker = Maker::new(u64::from(seed));
    let mut world = world;
    for _ in 0..events {
        if !stage.judge.is_one() {
            return Ok(world);
        }
        if let Some(event) = maker.event(config, world.sent() as u64) {
            world = stage.happen(alloc, world, &event)?;
        }
    }
    Ok(world)
}

/// The play of a seed if `u` of each kind may fail. False: it shows what no server would.
fn play(alloc: Global, seed: u32, u: u8, events: u32, counts: &mut Counts) -> Result<bool, Fault> {
    let config = Config::new(u, CLIENTS)?;
    let mut stage = Stage::new(alloc, &config)?;
    let mut world = begun(alloc, &mut stage, &config, seed)?;
    world = made(alloc, &mut stage, &config, seed, events, world)?;
    stage.passed = world.sent() as u64;
    world = ended(alloc, &mut stage, world)?;
    let turns = stage.judge.turns_given(&world);
    if let Some(turns) = turns {
        counts.add(&world, events, turns);
    }
    world.end();
    Ok(turns.is_some())
}

/// The plays of a seed, if 0 to 3 of each kind may fail, until one shows what no server would.
fn play_each(alloc: Global, seed: u32, events: u32, counts: &mut Counts) -> Result<(), Fault> {
    for u in 0..4u8 {
        if !play(alloc, seed, u, events, counts)? {
            counts.failed = Some(Failed::Random { seed, u });
            return Ok(());
        }
    }
    Ok(())
}

/// The plays of so many seeds, from the first one on, until one shows what no server would.
pub fn play_random(alloc: Global, first: u32, seeds: u32, events: u32) -> Result<Counts, Fault> {
    let mut counts = Counts::new();
    for i in 0..seeds {
        play_each(alloc, first.wrapping_add(i), events, &mut counts)?;
        if counts.failed.is_some() {
            return Ok(counts);
        }
    }
    Ok(counts)
}

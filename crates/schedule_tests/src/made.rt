//! Events made at random.

use crate::seen::add_event;
use events::{Config, Event, Replica};
use makers::Maker;
use std::alloc::{AllocError, Global};
use std::test::Fail;

/// How many events are made of a seed.
const MADE: u32 = 1000;

/// A bit for each kind of event that is made, and one for all that are not.
fn kind_of(event: &Event) -> u16 {
    match event {
        Event::Deliver { letter: _ } => 1,
        Event::Step {
            executor: _,
            place: _,
        } => 2,
        Event::Finish { executor: _ } => 4,
        Event::Cut {
            executor: _,
            moment: _,
        } => 8,
        Event::Again { client: _ } => 16,
        Event::Suspect { verifier: _ } => 32,
        Event::Crash(Replica::Executor(_)) => 64,
        Event::Crash(Replica::Verifier(_)) => 128,
        Event::Restart(Replica::Executor(_)) => 256,
        Event::Restart(Replica::Verifier(_)) => 512,
        Event::FailSave(Replica::Executor(_)) => 1024,
        Event::FailSave(Replica::Verifier(_)) => 2048,
        _ => 4096,
    }
}

/// The kinds that are made of this seed if so many letters were sent; 0 if there is no such world.
fn kinds_made(seed: u64, u: u8, clients: u16, sent: u64) -> u16 {
    let Ok(config) = Config::new(u, clients) else {
        return 0;
    };
    let mut maker = Maker::new(seed);
    let mut kinds = 0;
    for _ in 0..MADE {
        if let Some(event) = maker.event(&config, sent) {
            kinds |= kind_of(&event);
        }
    }
    kinds
}

fn is_replica(config: &Config, number: u8) -> bool {
    number <= 2 * config.u()
}

/// What the event names is there, and its place and moment are in their limits.
fn is_there(config: &Config, sent: u64, event: &Event) -> bool {
    match event {
        Event::Deliver { letter } => 1 <= *letter && *letter <= sent,
        Event::Step { executor, place } => is_replica(config, *executor) && *place < 64,
        Event::Finish { executor } => is_replica(config, *executor),
        Event::Cut { executor, moment } => {
            is_replica(config, *executor) && 1000 <= *moment && *moment < 2000
        }
        Event::Again { client } => 1 <= *client && *client <= config.clients(),
        Event::Suspect { verifier } => is_replica(config, *verifier),
        Event::Crash(Replica::Executor(id) | Replica::Verifier(id))
        | Event::Restart(Replica::Executor(id) | Replica::Verifier(id))
        | Event::FailSave(Replica::Executor(id) | Replica::Verifier(id)) => is_replica(config, *id),
        _ => false,
    }
}

/// All that is made of this seed is there.
fn all_are_there(seed: u64, u: u8, clients: u16, sent: u64) -> bool {
    let Ok(config) = Config::new(u, clients) else {
        return false;
    };
    let mut maker = Maker::new(seed);
    for _ in 0..MADE {
        if let Some(event) = maker.event(&config, sent)
            && !is_there(&config, sent, &event)
        {
            return false;
        }
    }
    true
}

/// The next events in words.
fn next_words(
    alloc: Global,
    maker: &mut Maker,
    sent: u64,
    count: u32,
) -> Result<String, AllocError> {
    let mut words = String::new(alloc);
    let Ok(config) = Config::new(1, 2) else {
        return Ok(words);
    };
    for _ in 0..count {
        match maker.event(&config, sent) {
            Some(event) => add_event(&mut words, &event)?,
            None => words.push_str(" none")?,
        }
        words.push_str(";")?;
    }
    Ok(words)
}

#[test]
fn each_line_of_the_table_is_made(rt: HostRuntime) -> Result<(), Fail> {
    for (u, clients) in [(0u8, 1u16), (1, 2), (2, 8), (3, 64)] {
        assert!(rt; kinds_made(1, u, clients, 10) == 4095);
        assert!(rt; kinds_made(1, u, clients, 0) == 4094);
    }
    Ok(())
}

#[test]
fn what_is_named_is_there(rt: HostRuntime) -> Result<(), Fail> {
    for (u, clients) in [(0u8, 1u16), (1, 2), (2, 8), (3, 64)] {
        assert!(rt; all_are_there(2, u, clients, 1));
        assert!(rt; all_are_there(3, u, clients, 1_000_000_000_000));
        assert!(rt; all_are_there(u64::MAX, u, clients, u64::MAX));
    }
    Ok(())
}

/// What the kit's generator gives for seed 1, in a world of `u` 1 and 2 clients with 10 letters.
#[test]
fn a_seed_makes_these_events(rt: HostRuntime) -> Result<(), Fail> {
    let mut maker = Maker::new(1);
    let first = next_words(rt.alloc(), &mut maker, 10, 6)?;
    assert!(rt;
        first.as_str()
            == " Deliver 5; Deliver 6; Step 1 of 20; Step 1 of 20; Deliver 1; Deliver 3;",
        "{first}"
    );
    let next = next_words(rt.alloc(), &mut maker, 10, 6)?;
    assert!(rt;
        next.as_str()
            == " Deliver 6; FailSave verifier 0; FailSave executor 1; Deliver 6; Again 2; FailSave executor 2;",
        "{next}"
    );
    Ok(())
}

#[test]
fn one_seed_makes_one_list_of_events(rt: HostRuntime) -> Result<(), Fail> {
    let first = next_words(rt.alloc(), &mut Maker::new(7), 10, MADE)?;
    let second = next_words(rt.alloc(), &mut Maker::new(7), 10, MADE)?;
    let other = next_words(rt.alloc(), &mut Maker::new(8), 10, MADE)?;
    assert!(rt; first.as_str() == second.as_str());
    assert!(rt; first.as_str() != other.as_str());
    Ok(())
}

/// Three words are taken for an event, also if there is none.
#[test]
fn what_was_sent_before_changes_nothing(rt: HostRuntime) -> Result<(), Fail> {
    let mut some = Maker::new(9);
    let mut none = Maker::new(9);
    let before = next_words(rt.alloc(), &mut some, 10, 100)?;
    let nothing = next_words(rt.alloc(), &mut none, 0, 100)?;
    assert!(rt; before.as_str() != nothing.as_str());
    let after = next_words(rt.alloc(), &mut some, 10, 100)?;
    let same = next_words(rt.alloc(), &mut none, 10, 100)?;
    assert!(rt; after.as_str() == same.as_str());
    Ok(())
}

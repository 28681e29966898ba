//! What happens next in a play.

use crate::stage::{Kind, Stage};
use events::{Event, Replica};
use random::Words;
use std::alloc::{AllocError, Global};
use world::World;

#[derive(Clone, Copy)]
enum Act {
    DeliverNext,
    DeliverAny,
    Work,
    AnyWork,
    Cut,
    Feed,
    Again,
    Suspect,
    Crash,
    Restart,
    FailSave,
    Lose,
    Deafen,
    Forget,
}

const ACTS: [Act; 14] = [
    Act::DeliverNext,
    Act::DeliverAny,
    Act::Work,
    Act::AnyWork,
    Act::Cut,
    Act::Feed,
    Act::Again,
    Act::Suspect,
    Act::Crash,
    Act::Restart,
    Act::FailSave,
    Act::Lose,
    Act::Deafen,
    Act::Forget,
];

/// How often each act comes, of some hundred.
fn weights(kind: Kind) -> [u32; 14] {
    match kind {
        Kind::Calm => [60, 2, 20, 0, 6, 8, 2, 0, 0, 0, 0, 0, 0, 0],
        Kind::Failover => [50, 2, 18, 0, 6, 6, 4, 2, 1, 4, 0, 0, 0, 0],
        Kind::Partition => [50, 2, 18, 0, 6, 6, 4, 2, 0, 0, 0, 0, 2, 1],
        Kind::LongChain => [26, 2, 26, 0, 20, 16, 2, 0, 0, 0, 0, 0, 1, 0],
        Kind::Diverging => [50, 4, 0, 24, 8, 8, 3, 1, 0, 0, 0, 0, 0, 0],
        Kind::RestartStorm => [45, 2, 16, 0, 6, 6, 4, 1, 5, 10, 2, 0, 0, 0],
        Kind::Losses => [50, 2, 18, 0, 6, 6, 5, 3, 1, 3, 0, 1, 0, 0],
        Kind::AnyEvents => [25, 20, 10, 5, 6, 6, 6, 4, 3, 8, 2, 0, 2, 1],
    }
}

fn next_act(kind: Kind, words: &mut Words) -> Act {
    let weights = weights(kind);
    let mut left = words.below(100);
    for i in 0..14usize {
        if left < weights[i] {
            return ACTS[i];
        }
        left -= weights[i];
    }
    Act::DeliverNext
}

/// The number of some executor, or of some verifier.
fn any_member(stage: &Stage, words: &mut Words) -> u8 {
    u8::try_from(words.below(u32::from(stage.members()))).unwrap_or(0)
}

/// Some executor or verifier.
fn any_replica(stage: &Stage, words: &mut Words) -> Replica {
    let id = any_member(stage, words);
    if words.below(2) == 0 {
        Replica::Executor(id)
    } else {
        Replica::Verifier(id)
    }
}

/// The next letter that was not delivered, if it reaches its node; if not it never comes.
fn next_letter(stage: &mut Stage, world: &World) -> Option<Event> {
    let at = usize::try_from(stage.passed).ok()?;
    let letter = world.letters().get(at)?;
    stage.passed = stage.passed.saturating_add(1);
    if stage.hears(letter.to) {
        Some(Event::Deliver {
            letter: stage.passed,
        })
    } else {
        None
    }
}

/// A replica is lost for good, if fewer than `u` of its kind were.
fn loss(stage: &mut Stage, words: &mut Words) -> Option<Event> {
    let replica = any_replica(stage, words);
    match replica {
        Replica::Executor(_) => {
            if stage.lost_executors >= stage.u {
                return None;
            }
            stage.lost_executors = stage.lost_executors.saturating_add(1);
        }
        Replica::Verifier(_) => {
            if stage.lost_verifiers >= stage.u {
                return None;
            }
            stage.lost_verifiers = stage.lost_verifiers.saturating_add(1);
        }
    }
    Some(Event::Lost(replica))
}

fn any_work(executor: u8, words: &mut Words) -> Event {
    if words.below(4) == 0 {
        Event::Finish { executor }
    } else {
        Event::Step {
            executor,
            place: words.below(8),
        }
    }
}

/// The client adds one to the counter, once or more often.
pub fn increments(alloc: Global, client: u16, times: u32) -> Result<Event, AllocError> {
    let mut bytes = Vec::new(alloc);
    for _ in 0..times {
        bytes.extend_from_slice(b"incr n 1\r\n".as_slice())?;
    }
    Ok(Event::Feed { client, bytes })
}

/// The event of an act, if it has one.
fn event_of(
    alloc: Global,
    stage: &mut Stage,
    words: &mut Words,
    world: &World,
    act: Act,
) -> Result<Option<Event>, AllocError> {
    let executor = any_member(stage, words);
    let client = u16::try_from(words.below(u32::from(stage.clients)))
        .unwrap_or(0)
        .saturating_add(1);
    Ok(match act {
        Act::DeliverNext => next_letter(stage, world),
        Act::DeliverAny => Some(Event::Deliver {
            letter: u64::from(words.below(u32::try_from(world.sent()).unwrap_or(
                u32::MAX,
            ))).saturating_add(1),
        }),
        Act::Work => world.next_work(),
        Act::AnyWork => Some(any_work(executor, words)),
        Act::Cut => Some(Event::Cut {
            executor,
            moment: words.below(1000).saturating_add(1000),
        }),
        Act::Feed => Some(increments(alloc, client, words.below(3).saturating_add(1))?),
        Act::Again => Some(Event::Again { client }),
        Act::Suspect => Some(Event::Suspect { verifier: executor }),
        Act::Crash => Some(Event::Crash(any_replica(stage, words))),
        Act::Restart => Some(Event::Restart(any_replica(stage, words))),
        Act::FailSave => Some(Event::FailSave(any_replica(stage, words))),
        Act::Lose => loss(stage, words),
        Act::Deafen => {
            stage.deaf = (words.below(3) > 0).then_some(any_replica(stage, words));
            None
        }
        Act::Forget => {
            stage.passed = stage.passed.saturating_add(1).min(world.sent() as u64);
            None
        }
    })
}

/// Some verifier trims its log up to some place, known or not.
fn trim(stage: &Stage, words: &mut Words) -> Event {
    Event::Trim {
        verifier: any_member(stage, words),
        place: u64::from(words.below(32)),
    }
}

/// The next event, of an act at random.
pub fn step_at_random(
    alloc: Global,
    stage: &mut Stage,
    words: &mut Words,
    kind: Kind,
    world: World,
) -> Result<World, AllocError> {
    if stage.trims && words.below(16) == 0 {
        let event = trim(stage, words);
        return stage.happen(alloc, world, &event);
    }
    let act = next_act(kind, words);
    match event_of(alloc, stage, words, &world, act) {
        Ok(Some(event)) => stage.happen(alloc, world, &event),
        Ok(None) => Ok(world),
        Err(e) => {
            world.end();
            Err(e)
        }
    }
}

/// Letters are delivered and work is done until nothing is left to do, or by so many events.
pub fn settle(
    alloc: Global,
    stage: &mut Stage,
    world: World,
    events: u32,
) -> Result<World, AllocError> {
    let mut world = world;
    for _ in 0..events {
        let is_done = stage.passed >= world.sent() as u64;
        let next = if is_done {
            world.next_work()
        } else {
            next_letter(stage, &world)
        };
        match next {
            Some(event) => world = stage.happen(alloc, world, &event)?,
            None => {
                if is_done {
                    return Ok(world);
                }
            }
        }
    }
    Ok(world)
}

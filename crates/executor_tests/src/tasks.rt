//! Requests as a round takes them.

use item_steps::{Step, Steps, Task};
use proto::{Block, Key, StoreVerb, Update, is_key_text};
use std::alloc::{AllocError, Global};

/// What a step does with its key.
#[derive(Clone, Copy)]
pub enum Does {
    Get,
    Touch,
    /// Counts the number up by one.
    Incr,
    /// Stores a number of this one digit.
    Set(u8),
}

/// The key of these bytes, or else `k`.
fn key(alloc: Global, bytes: &[u8]) -> Result<Key, AllocError> {
    if is_key_text(bytes) {
        return Ok(Key::from_slice(alloc, bytes)?);
    }
    Ok(Key::from_slice(alloc, &[b'k'])?)
}

pub fn step(alloc: Global, does: Does, bytes: &[u8]) -> Result<Step, AllocError> {
    let key = key(alloc, bytes)?;
    Ok(match does {
        Does::Get => Step::Read(key),
        Does::Touch => Step::ReadAndTouch { key, exptime: 0 },
        Does::Incr => Step::Update(Update::Incr { key, delta: 1 }),
        Does::Set(digit) => Step::Update(Update::Store {
            verb: StoreVerb::Set,
            key,
            flags: 0,
            exptime: 0,
            block: Block::from_slice(alloc, &[digit])?,
        }),
    })
}

fn add_steps(
    alloc: Global,
    steps: &mut Vec<Step>,
    asked: &[(Does, &[u8])],
) -> Result<(), AllocError> {
    for (does, bytes) in asked {
        steps.push(step(alloc, *does, bytes)?)?;
    }
    Ok(())
}

/// Adds a request of these steps, each with its key.
pub fn add(
    alloc: Global,
    group: &mut Vec<Task>,
    place: u32,
    asked: &[(Does, &[u8])],
) -> Result<(), AllocError> {
    let mut steps = Vec::new(alloc);
    add_steps(alloc, &mut steps, asked)?;
    group.push(Task {
        place,
        steps: Steps::new(steps),
    })?;
    Ok(())
}

/// Adds requests of these steps, the first one at this place.
pub fn add_all(
    alloc: Global,
    group: &mut Vec<Task>,
    first: u32,
    requests: &[&[(Does, &[u8])]],
) -> Result<(), AllocError> {
    let mut place = first;
    for asked in requests {
        add(alloc, group, place, asked)?;
        place = place.wrapping_add(1);
    }
    Ok(())
}

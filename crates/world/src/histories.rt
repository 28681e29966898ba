//! The history of a play.

ghost use Rattle.std.specs.Prelude.{◌≡◌, ◌++◌, ◌∷◌, [], map, IfOk, OnOk};
ghost use Rattle.linear_laws.specs.Laws.{given_in};
ghost use Rattle.world.specs.History.{IsHistoryOfPlay, IsHistoryTo, IsLinearizableIfDistinct, texts_in, history_in};

use crate::client_slot::ClientSlot;
use crate::world::World;
use events::{Config, Event};
use linear_laws::reached_are_linearizable;
use std::alloc::{AllocError, Global};

/// What the clients had been given, that of number 1 first.
fn given_now(alloc: Global, clients: &[ClientSlot]) -> Result<Vec<Vec<u8>>, AllocError>
    ensures { IfOk result (λ given. texts_in given.items ≡ map (λ slot. slot.given) clients.now) }
{
    let mut given = Vec::with_capacity(alloc, clients.len())?;
    for slot in clients {
        let mut bytes = Vec::new(alloc);
        bytes.extend_from_slice(slot.given())?;
        given.push(bytes)?;
    }
    Ok(given)
}

/// Adds what the clients of this world had been given.
fn note(alloc: Global, world: &World, history: &mut Vec<Vec<Vec<u8>>>) -> Result<(), AllocError>
    ensures { OnOk result (history_in history.new.items ≡ history_in history.old.items ++ given_in world.now ∷ []) }
{
    let given = given_now(alloc, world.clients())?;
    history.push(given)?;
    Ok(())
}

/// Notes the world, which is ended if there is no memory for that.
fn noted(alloc: Global, world: World, history: &mut Vec<Vec<Vec<u8>>>) -> Result<World, AllocError>
    ensures same { IfOk result (λ now. now ≡ world) }
    ensures noted { OnOk result (history_in history.new.items ≡ history_in history.old.items ++ given_in world ∷ []) }
{
    match note(alloc, &world, history) {
        Ok(()) => Ok(world),
        Err(error) => {
            world.end();
            Err(error)
        }
    }
}

/// The world to which the events lead, and what clients had been given before the first event and after
/// each one.
#[tactic(auto, using(crate::proofs::HistoryLemmas::history_first, crate::proofs::HistoryLemmas::history_next))]
fn played(
    alloc: Global,
    config: &Config,
    events: &[Event],
) -> Result<(World, Vec<Vec<Vec<u8>>>), AllocError>
    ensures { IfOk result (λ played. IsHistoryTo config.now events.now played.0 (history_in played.1.items)) }
{
    let mut history = Vec::new(alloc);
    let mut world = noted(alloc, World::open(alloc, config)?, &mut history)?;
    for event in events {
        world = noted(alloc, world.step(alloc, event)?, &mut history)?;
    }
    Ok((world, history))
}

/// What clients had been given before the first of these events and after each one: at each moment a list, of
/// what the client of number 1 had been given, that of number 2 and so on. The events are played as by `play`,
/// from the first world on.
///
/// If digests tell apart the states that executors had on the way, this history is linearizable, as that of
/// one memcached server (`memcached_spec`), and no batch shows what is due at its moment.
///
/// A node that runs out of memory stops. The only error is that memory runs out for the world's lists, for the
/// history, for the copy of a letter, or for a node that is opened for the first time.
#[tactic(auto, using(crate::proofs::HistoryLemmas::history_is))]
pub fn history(
    alloc: Global,
    config: &Config,
    events: &[Event],
) -> Result<Vec<Vec<Vec<u8>>>, AllocError>
    ensures is { IfOk result (λ history. IsHistoryOfPlay config.now events.now (history_in history.items)) }
    ensures linearizable { IfOk result (λ history. IsLinearizableIfDistinct config.now events.now (history_in history.items)) }
{
    reached_are_linearizable();
    let (world, history) = played(alloc, config, events)?;
    world.end();
    Ok(history)
}

//! The first world.

ghost use Rattle.std.specs.Prelude.{◌≡◌, ◌<◌, ◌≤◌, ◌*◌, ◌+◌, IfOk};
ghost use Rattle.slots.specs.declared.slot.Slot.TheVariants.{Up};
ghost use Rattle.worlds.specs.World.{new_clients};
ghost use Rattle.worlds.specs.First.{first_executor, first_verifier, all_up};

use crate::client_slot::ClientSlot;
use crate::world::{World, end_executors};
use events::Config;
use slots::{ExecutorSlot, Status, VerifierSlot};
use std::alloc::{AllocError, Global};

/// So many clients, of which nothing came yet.
fn first_clients(alloc: Global, u: u8, count: u16) -> Result<Vec<ClientSlot>, AllocError>
    requires { u < 4 }
    ensures { IfOk result (λ clients. clients.items ≡ new_clients u count) }
{
    let mut clients = Vec::new(alloc);
    for i in 0..count {
        clients.push(ClientSlot::new(alloc, i + 1, u))?;
    }
    Ok(clients)
}

/// A verifier that is opened for the first time. Without a record it sends nothing.
fn opened_verifier(alloc: Global, u: u8, id: u8) -> Result<VerifierSlot, AllocError>
    requires few { u < 4 }
    requires member { id ≤ 2 * u }
    ensures { IfOk result (λ slot. slot ≡ Up (first_verifier u id)) }
{
    let mut slot = VerifierSlot::unopened();
    slot.restart(alloc, u, id);
    match slot.status() {
        Status::Up(_) => Ok(slot),
        _ => Err(AllocError),
    }
}

/// An executor alike.
fn opened_executor(alloc: Global, u: u8, id: u8) -> Result<ExecutorSlot, AllocError>
    requires few { u < 4 }
    requires member { id ≤ 2 * u }
    ensures { IfOk result (λ slot. slot ≡ Up (first_executor u id)) }
{
    let mut slot = ExecutorSlot::unopened();
    slot.restart(alloc, u, id);
    match slot.status() {
        Status::Up(_) => Ok(slot),
        _ => {
            slot.end();
            Err(AllocError)
        }
    }
}

/// The verifiers below this number, each opened.
fn first_verifiers(alloc: Global, u: u8, count: u8) -> Result<Vec<VerifierSlot>, AllocError>
    requires few { u < 4 }
    requires members { count ≤ 2 * u + 1 }
    ensures { IfOk result (λ slots. slots.items ≡ all_up (first_verifier u) count) }
{
    let mut slots = Vec::new(alloc);
    for id in 0..count {
        slots.push(opened_verifier(alloc, u, id)?)?;
    }
    Ok(slots)
}

/// The executors below this number, each opened. Room is taken first, since they cannot be dropped.
fn first_executors(alloc: Global, u: u8, count: u8) -> Result<Vec<ExecutorSlot>, AllocError>
    requires few { u < 4 }
    requires members { count ≤ 2 * u + 1 }
    ensures { IfOk result (λ slots. slots.items ≡ all_up (first_executor u) count) }
{
    let mut slots = Vec::with_capacity(alloc, usize::from(count))?;
    for id in 0..count {
        match opened_executor(alloc, u, id) {
            Ok(slot) => slots.push_reserved(slot),
            Err(error) => {
                end_executors(slots);
                return Err(error);
            }
        }
    }
    Ok(slots)
}

impl World {
    ghost use Rattle.std.specs.Prelude.{◌≡◌, IfOk};
    ghost use Rattle.worlds.specs.First.{first_world};

    /// The first world: each replica is up with its first record, and nothing was sent yet. The only
    /// error is that there is no memory for the world's lists or for one of its nodes; then all nodes
    /// are ended.
    #[tactic(auto, using(worlds::proofs::FirstLemmas::length_all_up))]
    pub fn open(alloc: Global, config: &Config) -> Result<World, AllocError>
        ensures { IfOk result (λ world. world ≡ first_world config.now) }
    {
        let u = config.u();
        let clients = first_clients(alloc, u, config.clients())?;
        let verifiers = first_verifiers(alloc, u, 2 * u + 1)?;
        let executors = first_executors(alloc, u, 2 * u + 1)?;
        Ok(World {
            u,
            clients,
            executors,
            verifiers,
            letters: Vec::new(alloc),
        })
    }
}

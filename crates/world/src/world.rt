//! All nodes, and all letters that were ever sent.

ghost use Rattle.std.specs.Prelude.{◌≡◌};

use crate::client_slot::ClientSlot;
use decrees::Letter;
use exec_lines::Body;
use slots::{ExecutorSlot, VerifierSlot};
use std::marker::Model;

/// All nodes of one world, and all letters that were ever sent. It cannot be dropped, since executors
/// cannot: `end` ends it.
pub struct World {
    pub(crate) u: u8,
    pub(crate) clients: Vec<ClientSlot>,
    pub(crate) executors: Vec<ExecutorSlot>,
    pub(crate) verifiers: Vec<VerifierSlot>,
    pub(crate) letters: Vec<Letter<Body>>,
}

impl Model for World {
    ghost use Rattle.world.specs.contracts.client_slot.ClientSlot as client_slot;
    ghost use Rattle.exec_lines.specs.contracts.state.State as executor;
    ghost use Rattle.verifier.specs.contracts.state.State as verifier;
    ghost use Rattle.slots.specs.UpSlots.{executor_slot_code, verifier_slot_code};
    ghost use Rattle.decrees.specs.contracts.node.Letter as letter;
    ghost use Rattle.exec_lines.specs.contracts.body.Body as body;
    ghost use Rattle.worlds.specs.World.{WorldView};
    ghost use Rattle.world.specs.World.{IsWorld, world_code};

    ghost Value = { WorldView };

    ghost coded = { world_code client_slot.the_row.coded (executor_slot_code executor.the_row.coded) (verifier_slot_code verifier.the_row.coded) (letter.the_row body.the_row).coded };

    ghost view = { λ w. record { u = w.u; clients = w.clients.items; executors = w.executors.items; verifiers = w.verifiers.items; letters = w.letters.items } };

    ghost invariant = { λ w. IsWorld (record { u = w.u; clients = w.clients.items; executors = w.executors.items; verifiers = w.verifiers.items; letters = w.letters.items }) };
}

/// Ends these executors.
pub fn end_executors(mut executors: Vec<ExecutorSlot>) {
    while let Some(slot) = executors.pop() {
        slot.end();
    }
    executors.destroy_empty();
}

impl World {
    ghost use Rattle.std.specs.Prelude.{◌≡◌, length};
    ghost use Rattle.std.specs.Option.{option_map};
    ghost use Rattle.world.specs.World.{given_to};

    /// How many letters were ever sent. They are numbered from 1, in this order.
    pub fn sent(&self) -> usize
        ensures { result ≡ length self.now.letters }
    {
        self.letters.len()
    }

    /// What the client of this number was given so far; clients are numbered from 1. None: there is no
    /// such client.
    pub fn given(&self, client: u16) -> Option<&[u8]>
        ensures { option_map (λ bytes. bytes.now) result ≡ given_to self.now.clients client }
    {
        if client == 0 {
            return None;
        }
        let slot = self.clients.get(usize::from(client - 1))?;
        Some(slot.given())
    }

    /// All letters that were ever sent, in this order: they are numbered from 1.
    pub fn letters(&self) -> &[Letter<Body>]
        ensures { result.now ≡ self.now.letters }
    {
        &self.letters
    }

    /// The slots of its clients, that of client 1 first.
    pub fn clients(&self) -> &[ClientSlot]
        ensures { result.now ≡ self.now.clients }
    {
        &self.clients
    }

    /// The slots of its executors, by number.
    pub fn executors(&self) -> &[ExecutorSlot]
        ensures { result.now ≡ self.now.executors }
    {
        &self.executors
    }

    /// The slots of its verifiers, by number.
    pub fn verifiers(&self) -> &[VerifierSlot]
        ensures { result.now ≡ self.now.verifiers }
    {
        &self.verifiers
    }

    /// Ends all nodes.
    pub fn end(self) {
        let World {
            u: _,
            clients,
            executors,
            verifiers,
            letters,
        } = self;
        end_executors(executors);
        drop(clients);
        drop(verifiers);
        drop(letters);
    }
}

//! The slot of a client: its part of the server, and what it was given.

ghost use Rattle.std.specs.Prelude.{◌≡◌, ◌<◌, ◌≤◌};

use client::{Client, Input};
use decrees::Letter;
use exec_lines::Body;
use std::alloc::{AllocError, Global};
use std::marker::Model;

/// A client's part of the server, and the bytes that its client was given so far.
pub struct ClientSlot {
    client: Client,
    given: Vec<u8>,
}

impl Drop for ClientSlot {
    fn drop(self) {
        let ClientSlot {
            client: _,
            given: _,
        } = self;
    }
}

impl Model for ClientSlot {
    ghost use Rattle.worlds.specs.Clients.{ClientSlot};

    ghost Value = { ClientSlot };

    ghost view = { λ p. record { client = p.client; given = p.given.items } };
}

impl ClientSlot {
    ghost use Rattle.std.specs.Prelude.{◌≡◌, ◌<◌, ◌≤◌, IfOk, true, []};
    ghost use Rattle.client.specs.Talk.{new_talk};
    ghost use Rattle.worlds.specs.Clients.{ClientSettles, is_client_open};

    /// Of the client of this number, of which nothing came yet, before `2u + 1` executors.
    pub(crate) fn new(alloc: Global, client: u16, u: u8) -> ClientSlot
        requires numbered { 1 ≤ client }
        requires few { u < 4 }
        ensures { result ≡ record { client = record { client = client; u = u; talk = new_talk; up = true }; given = [] } }
    {
        ClientSlot {
            client: Client::new(alloc, client, u),
            given: Vec::new(alloc),
        }
    }

    /// Gives it the input, if it was not stopped; the result is what it sends. If its step meets an
    /// error it stops, and nothing is sent or given. The only error of this call is that there was no memory for
    /// what its client is given: then that and what it sends are lost, and its world is to be ended.
    #[tactic(auto, using(crate::proofs::ClientLemmas::client_does, crate::proofs::ClientLemmas::client_stops))]
    pub(crate) fn settle(
        &mut self,
        alloc: Global,
        input: Input,
    ) -> Result<Vec<Letter<Body>>, AllocError>
        ensures { IfOk result (λ letters. ClientSettles self.old input self.new letters.items) }
    {
        match self.client.handle(alloc, input) {
            Ok((letters, bytes)) => {
                self.given.extend_from_slice(&bytes)?;
                Ok(letters)
            }
            Err(_) => Ok(Vec::new(alloc)),
        }
    }

    /// Whether what its client sends is still taken: it was not closed, its client did not hang up, and it
    /// was not stopped.
    pub fn is_open(&self) -> bool
        ensures { result ≡ is_client_open self.now }
    {
        self.client.is_up() && !self.client.is_closed()
    }

    /// What its client was given so far.
    pub fn given(&self) -> &[u8]
        ensures { result.now ≡ self.now.given }
    {
        &self.given
    }
}

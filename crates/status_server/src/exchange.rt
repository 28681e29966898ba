//! One request and its response.

use status::{Seen, answer};
use std::alloc::{AllocError, Global};
use std::marker::Model;

/// What came of a request, and its response once it can be given.
#[derive(Drop)]
pub struct Exchange {
    request: Vec<u8>,
    response: Vec<u8>,
    /// So many bytes of the response are written.
    written: usize,
}

impl Model for Exchange {
    ghost use Rattle.std.specs.Prelude.{◌≤◌, length};
    ghost use Rattle.status_server.specs.Exchange.{ExchangeView};

    ghost Value = { ExchangeView };

    ghost view = { λ e. record { request = e.request.items; response = e.response.items; written = e.written } };

    ghost invariant = { λ e. e.written ≤ length e.response.items };
}

impl Exchange {
    ghost use Rattle.std.specs.Prelude.{◌≡◌, ◌+◌, ◌≤◌, ◌↔◌, [], drop, length, OnOk, IsTrue};
    ghost use Rattle.status_server.specs.Exchange.{ExchangeFollows};

    /// Nothing came.
    pub fn new(alloc: Global) -> Exchange
        ensures { result ≡ record { request = []; response = []; written = 0 } }
    {
        Exchange {
            request: Vec::new(alloc),
            response: Vec::new(alloc),
            written: 0,
        }
    }

    /// Whether more of the request is needed: the response is not there.
    pub fn is_waiting(&self) -> bool
        ensures { IsTrue result ↔ (self.now.response ≡ []) }
    {
        self.response.is_empty()
    }

    /// More of the request comes, before the response is there. On error the connection is to be closed.
    pub fn hear(&mut self, alloc: Global, piece: &[u8], seen: &Seen) -> Result<(), AllocError>
        requires { self.old.response ≡ [] }
        ensures ok { OnOk result (ExchangeFollows self.old.request piece.now seen.now self.new) }
    {
        self.request.extend_from_slice(piece)?;
        if let Some(response) = answer(alloc, self.request.as_slice(), seen)? {
            self.response = response;
        }
        Ok(())
    }

    /// What is to be written next: nothing, if all is written or the response is not there.
    pub fn rest(&self) -> &[u8]
        ensures { result.now ≡ drop self.now.written self.now.response }
    {
        &self.response[self.written..]
    }

    /// So many more bytes are written.
    pub fn write(&mut self, count: usize)
        requires { count + self.old.written ≤ length self.old.response }
        ensures { self.new ≡ record self.old { written = self.old.written + count } }
    {
        self.written += count;
    }
}

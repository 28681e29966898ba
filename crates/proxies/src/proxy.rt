//! A proxy.

ghost use Rattle.std.specs.Prelude.{◌≡◌, ◌≤◌};

use client::Asked;
use proto::{Command, Fault};
use sessions::Request;
use std::alloc::AllocError;
use std::marker::Model;

/// A client of the replicas that asks for others. It has at most one request outstanding.
pub struct Proxy {
    client: u16,
    last: u64,
    asked: Option<Asked>,
}

impl Drop for Proxy {
    fn drop(self) {
        let Proxy {
            client: _,
            last: _,
            asked: _,
        } = self;
    }
}

impl Model for Proxy {
    ghost use Rattle.std.specs.Prelude.{◌≤◌};
    ghost use Rattle.proxies.specs.Proxy.{ProxyView};

    ghost Value = { ProxyView };

    ghost view = { λ p. record { client = p.client; last = p.last; asked = p.asked } };

    ghost invariant = { λ p. 1 ≤ p.client };
}

impl Proxy {
    ghost use Rattle.std.specs.Prelude.{◌≡◌, ◌≤◌, ◌⊎◌, ◌^◌, ◌-◌, ◌+◌, None, Some, IfOk, OnErr, OnOk, Err, IfErr, is_none};
    ghost use Rattle.std.specs.Option.{option_map};
    ghost use Rattle.client.specs.Talk.{next_request};
    ghost use Rattle.proxies.specs.Proxy.{asks, answers, has_asked, request_of};

    /// One that has asked nothing. Clients are numbered from 1.
    pub fn new(client: u16) -> Proxy
        requires { 1 ≤ client }
        ensures { result ≡ record { client = client; last = 0; asked = None } }
    {
        Proxy {
            client,
            last: 0,
            asked: None,
        }
    }

    /// One that asked so many requests, and has this one outstanding: for a process that goes on from a record.
    pub fn of(client: u16, last: u64, asked: Option<Asked>) -> Proxy
        requires { 1 ≤ client }
        ensures { result ≡ record { client = client; last = last; asked = asked } }
    {
        Proxy {
            client,
            last,
            asked,
        }
    }

    /// Its number as a client.
    pub fn client(&self) -> u16
        ensures client { result ≡ self.now.client }
        ensures from_one { 1 ≤ result }
    {
        self.client
    }

    /// The number of its last request. 0: it has asked nothing.
    pub fn last(&self) -> u64
        ensures { result ≡ self.now.last }
    {
        self.last
    }

    /// What is outstanding.
    pub fn asked(&self) -> Option<&Asked>
        ensures { option_map (λ asked. asked.now) result ≡ self.now.asked }
    {
        self.asked.as_ref()
    }

    /// One that has asked the same, for the record of a process.
    pub fn copy(&self) -> Result<Proxy, AllocError>
        ensures { IfOk result (λ proxy. proxy ≡ self.now) }
    {
        let asked = match &self.asked {
            None => None,
            Some(asked) => Some(Asked {
                request: asked.request.clone()?,
                quiet: asked.quiet,
            }),
        };
        Ok(Proxy {
            client: self.client,
            last: self.last,
            asked,
        })
    }

    /// Asks the command as its next request, which is to be sent to all executors. `quiet`: the reply is
    /// left out of what the connection is given. After an error nothing has changed. Stopped: no number is
    /// left; NoMemory: an allocation failed.
    pub fn ask(&mut self, command: Command, quiet: bool) -> Result<Request, Fault>
        requires { self.old.asked ≡ None }
        ensures ok { OnOk result (self.new ≡ asks self.old command quiet) }
        ensures request { IfOk result (λ r. r ≡ next_request self.old.client self.old.last command) }
        ensures err { OnErr result (self.new ≡ self.old) }
        ensures stopped { result ≡ Err Fault.Stopped → self.old.last ≡ 2 ^ 64 - 1 }
        ensures only { IfErr result (λ fault. (fault ≡ Fault.NoMemory) ⊎ (fault ≡ Fault.Stopped)) }
    {
        let number = self.last.checked_add(1).ok_or(Fault::Stopped)?;
        let request = Request {
            client: self.client,
            number,
            command,
        };
        let copy = request.clone()?;
        self.last = number;
        self.asked = Some(Asked { request, quiet });
        Ok(copy)
    }

    /// The request of this number is answered. False, and nothing changes: that request is not outstanding.
    pub fn answer(&mut self, number: u64) -> bool
        ensures after { self.new ≡ answers self.old number }
        ensures was_asked { result ≡ has_asked self.old.asked number }
    {
        let was_asked = match &self.asked {
            Some(asked) => asked.request.number == number,
            None => false,
        };
        if was_asked {
            self.asked = None;
        }
        was_asked
    }

    /// What is outstanding, which is to be sent to all executors once more. None: nothing is outstanding.
    /// The only error is a failed allocation.
    pub fn again(&self) -> Result<Option<Request>, AllocError>
        ensures { IfOk result (λ request. request ≡ request_of self.now.asked) }
    {
        match &self.asked {
            None => Ok(None),
            Some(asked) => Ok(Some(asked.request.clone()?)),
        }
    }

    /// Whether nothing is outstanding, so that it may ask.
    pub fn is_free(&self) -> bool
        ensures { result ≡ is_none self.now.asked }
    {
        self.asked.is_none()
    }
}

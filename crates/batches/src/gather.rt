use crate::batch::{Batch, GREATEST_NUMBER, MOST_REQUESTS, Requests};
use crate::held::{add_request, all_wait_on, part};
use indexmap::IndexMap;
use proto::Fault;
use sessions::{Request, Sessions};
use std::alloc::{AllocError, Global};
use std::marker::Model;
use std::mem;

/// The requests that wait for a batch: at most one a client, in the order of arrival.
pub struct Gather {
    held: IndexMap<u16, Request>,
}

impl Drop for Gather {
    fn drop(self) {
        let Gather { held: _ } = self;
    }
}

impl Model for Gather {
    ghost use Rattle.std.specs.Prelude.{List, ◌≡◌};
    ghost use Rattle.std.specs.Map.{values_of};
    ghost use Rattle.sessions.specs.declared.request.Request.{Request};
    ghost use Rattle.batches.specs.Waiting.{keyed};

    ghost Value = { List Request };

    ghost view = { λ g. values_of g.held.entries };

    ghost invariant = { λ g. g.held.entries ≡ keyed (values_of g.held.entries) };
}

impl Gather {
    ghost use Rattle.std.specs.Prelude.{◌≡◌, ◌≤◌, ◌<◌, ◌↔◌, [], length, IsTrue, IfOk, IfErr, IfSome, OnOk, OnErr};
    ghost use Rattle.batches.specs.Waiting.{IsOneEach, added};
    ghost use Rattle.batches.specs.Cut.{taken, left, IsCut, Fits};

    /// Nothing waits.
    pub fn new(alloc: Global) -> Gather
        ensures { result ≡ [] }
    {
        Gather {
            held: IndexMap::new(alloc),
        }
    }

    /// How many requests wait.
    pub fn len(&self) -> usize
        ensures len { result ≡ length self.now }
        ensures one_each { IsOneEach self.now }
    {
        self.held.len()
    }

    /// Whether nothing waits.
    pub fn is_empty(&self) -> bool
        ensures { IsTrue result ↔ (self.now ≡ []) }
    {
        self.held.is_empty()
    }

    /// A request comes. If the client's request that waits has the same number or a higher one,
    /// it is ignored; a later one takes its place and goes last. If an allocation fails nothing
    /// changes.
    pub fn add(&mut self, request: Request) -> Result<(), AllocError>
        ensures ok { OnOk result (self.new ≡ added request self.old) }
        ensures err { OnErr result (self.new ≡ self.old) }
    {
        add_request(&mut self.held, request)
    }

    /// Takes the first `MOST_REQUESTS` requests that are the next of their clients into a batch, and drops those
    /// that ran already. The others wait on, in their order. There is no batch if none is next;
    /// those that ran are dropped all the same. If none is next and none ran, what waits is only
    /// looked through.
    ///
    /// `Full` comes exactly if `n` is above `GREATEST_NUMBER`. After it and after `NoMemory`
    /// nothing has changed.
    pub fn cut(
        &mut self,
        alloc: Global,
        epoch: u64,
        n: u64,
        moment: u32,
        sessions: &Sessions,
    ) -> Result<Option<Batch>, Fault>
        requires { 1 ≤ n }
        ensures batch { IfOk result (λ batch.
            IsCut epoch n moment (taken MOST_REQUESTS sessions.now self.old) batch) }
        ensures left { OnOk result (self.new ≡ left MOST_REQUESTS sessions.now self.old) }
        ensures fits { IfOk result (λ batch. IfSome batch
            (λ b. Fits MOST_REQUESTS sessions.now b.requests)) }

        ensures full { (result ≡ Err Fault.Full) ↔ (GREATEST_NUMBER < n) }
        ensures no_memory { n ≤ GREATEST_NUMBER → IfErr result (λ fault. fault ≡ Fault.NoMemory) }
        ensures err { OnErr result (self.new ≡ self.old) }
    {
        if n > GREATEST_NUMBER {
            return Err(Fault::Full);
        }
        let requests = self.take_fresh(alloc, sessions)?;
        if requests.is_empty() {
            return Ok(None);
        }
        Ok(Some(Batch {
            epoch,
            n,
            moment,
            requests: Requests::new(requests),
        }))
    }

    /// The requests of the next batch. If none is next and none ran already, what waits is not
    /// touched; else what waits on is put together anew.
    fn take_fresh(&mut self, alloc: Global, sessions: &Sessions) -> Result<Vec<Request>, AllocError>
        ensures taken { IfOk result (λ requests. requests.items
            ≡ taken MOST_REQUESTS sessions.now self.old) }
        ensures left { OnOk result (self.new ≡ left MOST_REQUESTS sessions.now self.old) }
        ensures fits { IfOk result (λ requests. Fits MOST_REQUESTS sessions.now requests.items) }
        ensures err { OnErr result (self.new ≡ self.old) }
    {
        if all_wait_on(&self.held, sessions) {
            return Ok(Vec::new(alloc));
        }
        let len = self.held.len();
        let mut taken = Vec::with_capacity(alloc, len.min(MOST_REQUESTS))?;
        let mut left = IndexMap::with_capacity(alloc, len)?;
        let held = mem::replace(&mut self.held, IndexMap::new(alloc));
        part(held, sessions, &mut taken, &mut left);
        self.held = left;
        Ok(taken)
    }
}

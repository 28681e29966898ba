ghost use Rattle.std.specs.Prelude.{◌≡◌, ◌+◌, ◌<◌, ◌≤◌, ◌^◌, ◌↔◌, Err, IfOk, IfErr, IfSome, OnOk, OnErr};
ghost use Rattle.batches.specs.Cut.{taken, left, IsCut, Fits};
ghost use Rattle.batches.specs.declared.batch.TheConstants.{MOST_REQUESTS, GREATEST_NUMBER};
ghost use Rattle.states.specs.State.{initial_state};

use batches::{Batch, Gather};
use proto::Fault;
use states::State;
use std::alloc::{AllocError, Global};
use token::Token;

/// A state to execute a batch over. It shows no reply. `Tentative` and `Committed` lend theirs.
pub struct Base {
    pub(crate) state: State,
}

impl Drop for Base {
    fn drop(self) {
        let Base { state: _ } = self;
    }
}

impl Base {
    /// The state of number 0: no items, no sessions, moment 0.
    pub fn first(alloc: Global) -> Result<Base, AllocError>
        ensures { IfOk result (λ base. base.state ≡ initial_state) }
    {
        Ok(Base {
            state: State::first(alloc)?,
        })
    }

    /// The same base, for a holder of its own. Its pages are shared, and not copied.
    pub fn share(&self) -> Result<Base, AllocError>
        ensures { IfOk result (λ base. base ≡ self.now) }
    {
        Ok(Base {
            state: self.state.share()?,
        })
    }

    /// How many batches led to the state.
    pub fn number(&self) -> u64
        ensures number { result ≡ self.now.state.number }
        ensures few { result < 2 ^ 58 }
    {
        self.state.number()
    }

    /// The token by which the state is known.
    pub fn token(&self) -> Token
        ensures { result ≡ self.now.state.token }
    {
        self.state.token()
    }

    /// Takes the first 64 requests that are the next of their clients out of those that wait, as the
    /// batch after this state: see `Gather::cut`. `Full` comes exactly if the number of that batch
    /// is above the greatest.
    pub fn cut(
        &self,
        alloc: Global,
        gather: &mut Gather,
        epoch: u64,
        moment: u32,
    ) -> Result<Option<Batch>, Fault>
        ensures batch { IfOk result (λ batch.
            IsCut epoch (self.now.state.number + 1) moment (taken MOST_REQUESTS self.now.state.sessions gather.old) batch) }
        ensures fits { IfOk result (λ batch. IfSome batch (λ b. Fits MOST_REQUESTS self.now.state.sessions b.requests)) }
        ensures left { OnOk result (gather.new ≡ left MOST_REQUESTS self.now.state.sessions gather.old) }
        ensures full { (result ≡ Err Fault.Full) ↔ (GREATEST_NUMBER < self.now.state.number + 1) }
        ensures no_memory { self.now.state.number + 1 ≤ GREATEST_NUMBER → IfErr result (λ fault. fault ≡ Fault.NoMemory) }
        ensures err { OnErr result (gather.new ≡ gather.old) }
    {
        let number = self.state.number() + 1;
        gather.cut(alloc, epoch, number, moment, self.state.sessions())
    }
}

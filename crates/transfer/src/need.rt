//! What a node that is behind says of the state that it has.

ghost use Rattle.std.specs.Prelude.{◌≡◌, IfOk};
ghost use Rattle.pages.specs.Page.{page_digest_in, of_each};
ghost use Rattle.transfer.specs.Need.{need_of, need_text, IsNeed};
ghost use Rattle.transfer.specs.NeedProofs.{need_prefix_free};

use base::Listed;
use pages::{PAGES, Snapshot};
use proto::Fault;
use states::State;
use std::alloc::{AllocError, Global};
use wire::{Counted, Record, Sink, put_list};

/// A digest for each page, in the order of their numbers.
pub type Digests = Listed<[u8; 32], PAGES, PAGES>;

/// What a node says of the state that it has: how many batches led to it, and the digests of its pages.
#[derive(Drop)]
pub struct Need {
    pub number: u64,
    pub digests: Digests,
}

fn digests_of(alloc: Global, pages: &Snapshot) -> Result<Vec<[u8; 32]>, AllocError>
    ensures { IfOk result (λ digests. digests.items ≡ of_each (page_digest_in pages.now.layout pages.now.items)) }
{
    let mut digests = Vec::with_capacity(alloc, PAGES)?;
    for number in 0..PAGES {
        digests.push(pages.digest(number))?;
    }
    Ok(digests)
}

fn copied(digests: &Digests) -> Result<Digests, AllocError>
    ensures { IfOk result (λ copy. copy ≡ digests.now) }
{
    digests.clone()
}

impl Need {
    /// What is said of this state. Its digests are lent by the state, and none is computed. The only
    /// error is a failed allocation.
    pub fn of_state(alloc: Global, state: &State) -> Result<Need, AllocError>
        ensures { IfOk result (λ need. need ≡ need_of state.now) }
    {
        Ok(Need {
            number: state.number(),
            digests: Digests::new(digests_of(alloc, state.pages())?),
        })
    }

    /// What is true of every need: see `IsNeed`. It does nothing.
    pub fn is_need(&self)
        ensures { IsNeed self.now }
    {
        let _digests = self.digests.as_slice();
    }
}

impl Clone for Need {
    ghost is_clone = { λ need copy. copy ≡ need };

    fn clone(&self) -> Result<Need, AllocError> {
        Ok(Need {
            number: self.number,
            digests: copied(&self.digests)?,
        })
    }
}

impl Record for Need {
    ghost fits = { IsNeed };

    ghost encoding = { need_text };

    fn put<S: Sink>(&self, sink: &mut S) -> Result<(), S::Refusal> {
        self.number.put(sink)?;
        put_list(self.digests.as_slice(), sink)
    }

    fn take<'b>(alloc: Global, bytes: &'b [u8]) -> Result<(Need, &'b [u8]), Fault> {
        let ((number, listed), rest) = <(u64, Counted<[u8; 32]>)>::take(alloc, bytes)?;
        match Digests::try_new(listed.into_vec()) {
            Some(digests) => Ok((Need { number, digests }, rest)),
            None => Err(Fault::BadRecord),
        }
    }

    ghost prefix_free = { need_prefix_free };
}

ghost use Rattle.std.specs.Prelude.{◌≡◌, ◌≤◌, ◌↔◌, length, IsTrue, IfOk};
ghost use Rattle.batches.specs.declared.batch.TheConstants.{MOST_REQUESTS, GREATEST_NUMBER};
ghost use Rattle.batches.specs.Stamp.{first_stamp};

use base::SharedList;
use sessions::Request;
use std::alloc::AllocError;

/// The most requests that a batch has.
pub const MOST_REQUESTS: usize = 64;

/// The greatest number of a batch: the stamps of its requests, `MOST_REQUESTS` times the number and
/// more, fit.
pub const GREATEST_NUMBER: u64 = (1 << 58) - 1;

/// The requests of a batch, in its order: up to `MOST_REQUESTS`.
pub type Requests = SharedList<Request, 0, MOST_REQUESTS>;

/// Requests that are executed together. Batches are numbered from 1 to `GREATEST_NUMBER`.
pub struct Batch {
    pub epoch: u64,
    pub n: u64,
    pub moment: u32,
    pub requests: Requests,
    pub ghost first: { 1 ≤ n },
    pub ghost last: { n ≤ GREATEST_NUMBER },
    pub ghost few: { length requests ≤ MOST_REQUESTS },
}

impl Drop for Batch {
    fn drop(self) {
        let Batch {
            epoch: _,
            n: _,
            moment: _,
            requests: _,
        } = self;
    }
}

fn copied(requests: &Requests) -> Result<Requests, AllocError>
    ensures { IfOk result (λ copy. copy ≡ requests.now) }
{
    requests.clone()
}

/// Whether the requests are the same, in their order.
fn are_same(requests: &[Request], others: &[Request]) -> bool
    ensures { IsTrue result ↔ (requests.now ≡ others.now) }
{
    match (requests, others) {
        ([], []) => true,
        ([request, requests @ ..], [other, others @ ..]) => {
            request.is_same(other) && are_same(requests, others)
        }
        _ => false,
    }
}

impl Batch {
    /// Whether it is the same as the other one. It takes no memory.
    pub fn is_same(&self, other: &Batch) -> bool
        ensures { IsTrue result ↔ (self.now ≡ other.now) }
    {
        self.epoch == other.epoch
            && self.n == other.n
            && self.moment == other.moment
            && are_same(self.requests.as_slice(), other.requests.as_slice())
    }

    /// The stamp of its first request. Each other one has one more than the one before it.
    pub fn first_stamp(&self) -> u64
        ensures { result ≡ first_stamp self.now.n }
    {
        MOST_REQUESTS as u64 * self.n
    }
}

impl Clone for Batch {
    ghost is_clone = { λ batch copy. copy ≡ batch };

    fn clone(&self) -> Result<Batch, AllocError> {
        Ok(Batch {
            epoch: self.epoch,
            n: self.n,
            moment: self.moment,
            requests: copied(&self.requests)?,
        })
    }
}

//! When the primary waits for executors that are behind.

ghost use Rattle.std.specs.Prelude.{◌≡◌, ◌↔◌, ◌<◌, ◌+◌, IsTrue};
ghost use Rattle.std.specs.List.{Any};
ghost use Rattle.following.specs.declared.pace.TheConstants.{MOST_LAG, MOST_WAIT};

/// The primary cuts no batch by which an executor that follows would be more numbers behind than these.
pub const MOST_LAG: u64 = 64;

/// But it does not wait longer than so many milliseconds before a batch.
pub const MOST_WAIT: u32 = 50;

/// Whether an executor whose committed state has this number would be too far behind a batch.
fn lags(batch: u64, number: u64) -> bool
    ensures { IsTrue result ↔ (number + MOST_LAG < batch) }
{
    MOST_LAG < batch && number < batch - MOST_LAG
}

/// Whether the primary has to wait before it cuts the batch of this number: it has waited for so many milliseconds, and the
/// executors that follow have committed states of these numbers.
///
/// Who is slower for good would else be given more orders than it can hold. Who is slow for a moment catches up.
pub fn must_wait(batch: u64, waited: u32, numbers: &[u64]) -> bool
    ensures { IsTrue result ↔ ((waited < MOST_WAIT) × Any (λ number. number + MOST_LAG < batch) numbers.now) }
{
    waited < MOST_WAIT && numbers.iter().any(|number| lags(batch, *number))
}

//! Counts.

ghost use Rattle.std.specs.Prelude.{◌≡◌};
ghost use Rattle.figures.specs.Count.{up, sum_of};

/// One more than the count. A count stays at 2^64 - 1.
pub fn one_more(count: u64) -> u64
    ensures { result ≡ up count }
{
    count.saturating_add(1)
}

/// So many more than the count. A count stays at 2^64 - 1.
pub fn plus(count: u64, more: u64) -> u64
    ensures { result ≡ sum_of count more }
{
    count.saturating_add(more)
}

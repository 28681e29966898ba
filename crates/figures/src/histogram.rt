//! Histograms of times.

ghost use Rattle.std.specs.Prelude.{◌≡◌, ◌<◌, slice_set, slice_index};
ghost use Rattle.figures.specs.Count.{up, sum_of};
ghost use Rattle.figures.specs.Histogram.{bucket_of};
ghost use Rattle.figures.specs.declared.histogram.TheConstants.{BUCKETS};

use crate::count::{one_more, plus};

/// The upper bounds of all buckets but the last, in microseconds. The last bucket has no bound.
pub const BOUNDS: [u64; 15] = [
    50, 100, 250, 500, 1_000, 2_500, 5_000, 10_000, 25_000, 50_000, 100_000, 250_000, 500_000,
    1_000_000, 2_500_000,
];

/// How many buckets there are.
pub const BUCKETS: usize = 16;

/// How many times were in each bucket, and their sum.
#[derive(Clone, Copy, Debug, PartialEq, Eq)]
pub struct Histogram {
    /// How many times were above the bound of the bucket before, and not above that of this one.
    pub counts: [u64; BUCKETS],
    /// The sum of all times in microseconds.
    pub sum: u64,
}

/// The first bucket whose bound is not below the time.
fn bucket(micros: u64) -> usize
    ensures bucket { result ≡ bucket_of micros }
    ensures below { result < BUCKETS }
{
    BOUNDS.iter().take_while(|bound| **bound < micros).count()
}

impl Histogram {
    /// No time was seen.
    pub const NONE: Histogram = Histogram {
        counts: [0; BUCKETS],
        sum: 0,
    };

    /// A time of so many microseconds was seen.
    pub fn observe(&mut self, micros: u64)
        ensures bucket { self.new.counts ≡ slice_set self.old.counts (bucket_of micros) (up (slice_index self.old.counts (bucket_of micros))) }
        ensures sum { self.new.sum ≡ sum_of self.old.sum micros }
    {
        let place = bucket(micros);
        self.counts[place] = one_more(self.counts[place]);
        self.sum = plus(self.sum, micros);
    }
}

//! How much a lane holds.

use letters::{MOST_BULK_BYTES, MOST_QUICK_BYTES};

/// How much a lane to one peer holds, at most. The letters are those that are not acknowledged.
#[derive(Clone, Copy, Debug, PartialEq, Eq)]
pub struct LaneBounds {
    /// The most bytes of one letter.
    pub most_letter_bytes: usize,
    /// The most bytes of all letters together.
    pub most_bytes: usize,
    pub most_letters: usize,
}

impl LaneBounds {
    /// Of the lane for letters that are not bulk.
    pub const QUICK: LaneBounds = LaneBounds {
        most_letter_bytes: MOST_QUICK_BYTES,
        most_bytes: 32 * 1024 * 1024,
        most_letters: 65_536,
    };

    /// Of the lane for bulk letters. A parcel that is longer needs bounds of its own.
    pub const BULK: LaneBounds = LaneBounds {
        most_letter_bytes: MOST_BULK_BYTES,
        most_bytes: 256 * 1024 * 1024,
        most_letters: 65_536,
    };
}

use decrees::{Ballot, Letter};

/// What a verifier is given.
#[derive(Clone, Copy, PartialEq, Eq)]
pub enum Input {
    /// A letter to it.
    Letter(Letter<Ballot>),
    /// The leader is suspected to be lost: it comes to lead a view of its own.
    Suspect,
    /// The decrees up to this place may be forgotten.
    Trim { place: u64 },
}

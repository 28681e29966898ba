ghost use Rattle.std.specs.Prelude.{◌≡◌};
ghost use Rattle.following.specs.Letters.{decree_place as place_in};

/// What a letter is that is held for an executor.
#[derive(Clone, Copy, Debug, PartialEq, Eq)]
pub enum HeldLetter {
    /// The primary of this epoch orders the batch of this number.
    Order { epoch: u64, number: u64 },
    /// The decree of this place commits the batch of this number.
    Commit { place: u64, number: u64 },
    /// The decree of this place is a Rollback.
    Rollback { place: u64 },
    /// The state of this number.
    Parcel { number: u64 },
}

/// The place of a decree. 0: the letter is none.
pub(crate) fn decree_place(letter: HeldLetter) -> u64
    ensures { result ≡ place_in letter }
{
    match letter {
        HeldLetter::Commit { place, .. } => place,
        HeldLetter::Rollback { place } => place,
        HeldLetter::Order { .. } => 0,
        HeldLetter::Parcel { .. } => 0,
    }
}

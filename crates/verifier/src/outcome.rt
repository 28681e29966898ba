//! What a step leaves to be done.

ghost use Rattle.std.specs.Prelude.{◌≡◌, false, []};

use decrees::{Ballot, Letter};
use std::alloc::Global;

/// What a step leaves to be done: whether the record has to be saved, and the letters that leave
/// after that.
#[derive(Drop)]
pub struct Outcome {
    pub saves: bool,
    pub letters: Vec<Letter<Ballot>>,
}

/// Nothing to save, and no letter.
pub fn nothing(alloc: Global) -> Outcome
    ensures saves { result.saves ≡ false }
    ensures letters { result.letters.items ≡ [] }
{
    Outcome {
        saves: false,
        letters: Vec::new(alloc),
    }
}

//! What a step leaves to be done.

ghost use Rattle.std.specs.Prelude.{◌≡◌, false, true, []};

use crate::body::Body;
use decrees::Letter;
use std::alloc::Global;

/// What a step leaves to be done: whether the record has to be saved, and the letters that leave
/// after that, in order.
#[derive(Drop)]
pub struct Outcome {
    pub saves: bool,
    pub letters: Vec<Letter<Body>>,
}

impl Outcome {
    /// Nothing to save, and no letter.
    pub fn nothing(alloc: Global) -> Outcome
        ensures saves { result.saves ≡ false }
        ensures letters { result.letters.items ≡ [] }
    {
        Outcome::said(Vec::new(alloc))
    }

    /// These letters, and nothing to save.
    pub fn said(letters: Vec<Letter<Body>>) -> Outcome
        ensures saves { result.saves ≡ false }
        ensures letters { result.letters ≡ letters }
    {
        Outcome {
            saves: false,
            letters,
        }
    }

    /// The record is saved, and then these letters leave.
    pub fn saved(letters: Vec<Letter<Body>>) -> Outcome
        ensures saves { result.saves ≡ true }
        ensures letters { result.letters ≡ letters }
    {
        Outcome {
            saves: true,
            letters,
        }
    }
}

//! What came of a command.

ghost use Rattle.std.specs.Prelude.{◌≡◌, ◌<◌, Some, slice_get};
ghost use Rattle.figures.specs.Outcome.{outcome_of, outcome_place, outcome_of_values, outcome_name};
ghost use Rattle.figures.specs.declared.outcome.TheConstants.{OUTCOMES, ALL_OUTCOMES};

use proto::{Reply, Values};

/// How many outcomes there are.
pub const OUTCOMES: usize = 11;

/// What a reply says, without its values.
#[derive(Clone, Copy, Debug, PartialEq, Eq)]
pub enum Outcome {
    /// At least one key of the command was found.
    Hit,
    /// No key of the command was found.
    Miss,
    Stored,
    NotStored,
    Exists,
    NotFound,
    Deleted,
    Touched,
    /// The number after `incr` or `decr`.
    Counted,
    TooLarge,
    NotNumber,
}

/// All of them, each at its place.
pub const ALL_OUTCOMES: [Outcome; OUTCOMES] = [
    Outcome::Hit,
    Outcome::Miss,
    Outcome::Stored,
    Outcome::NotStored,
    Outcome::Exists,
    Outcome::NotFound,
    Outcome::Deleted,
    Outcome::Touched,
    Outcome::Counted,
    Outcome::TooLarge,
    Outcome::NotNumber,
];

fn of_values(values: &Values) -> Outcome
    ensures { result ≡ outcome_of_values values.now }
{
    if values.is_empty() {
        Outcome::Miss
    } else {
        Outcome::Hit
    }
}

impl Outcome {
    /// The outcome that a reply tells.
    pub fn of(reply: &Reply) -> Outcome
        ensures { result ≡ outcome_of reply.now }
    {
        match reply {
            Reply::Stored => Outcome::Stored,
            Reply::NotStored => Outcome::NotStored,
            Reply::Exists => Outcome::Exists,
            Reply::NotFound => Outcome::NotFound,
            Reply::Deleted => Outcome::Deleted,
            Reply::Touched => Outcome::Touched,
            Reply::Number(_) => Outcome::Counted,
            Reply::Values(values) => of_values(values),
            Reply::TooLarge => Outcome::TooLarge,
            Reply::NotNumber => Outcome::NotNumber,
        }
    }

    /// Its name in lines and pages.
    pub fn name(self) -> &'static str
        ensures { result.now ≡ outcome_name self }
    {
        match self {
            Outcome::Hit => "hit",
            Outcome::Miss => "miss",
            Outcome::Stored => "stored",
            Outcome::NotStored => "not_stored",
            Outcome::Exists => "exists",
            Outcome::NotFound => "not_found",
            Outcome::Deleted => "deleted",
            Outcome::Touched => "touched",
            Outcome::Counted => "counted",
            Outcome::TooLarge => "too_large",
            Outcome::NotNumber => "not_number",
        }
    }

    /// Where its count is kept.
    pub(crate) fn place(self) -> usize
        ensures place { result ≡ outcome_place self }
        ensures below { result < OUTCOMES }
        ensures listed { slice_get ALL_OUTCOMES result ≡ Some self }
    {
        match self {
            Outcome::Hit => 0,
            Outcome::Miss => 1,
            Outcome::Stored => 2,
            Outcome::NotStored => 3,
            Outcome::Exists => 4,
            Outcome::NotFound => 5,
            Outcome::Deleted => 6,
            Outcome::Touched => 7,
            Outcome::Counted => 8,
            Outcome::TooLarge => 9,
            Outcome::NotNumber => 10,
        }
    }
}

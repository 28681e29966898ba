//! Why lines were refused.

ghost use Rattle.std.specs.Prelude.{◌≡◌, ◌≢◌, ◌<◌, Some, slice_get};
ghost use Rattle.figures.specs.Count.{up};
ghost use Rattle.figures.specs.Refusal.{refusal_place, refusal_name, refusal_count};
ghost use Rattle.figures.specs.declared.refusal.Refusal.{Refusal as RefusalValue};
ghost use Rattle.figures.specs.declared.refusal.TheConstants.{REFUSALS, ALL_REFUSALS};

use crate::count::one_more;

/// How many reasons there are.
pub const REFUSALS: usize = 10;

/// Why a line was answered by an error, or closed its connection. Lines that say `noreply` are not counted, and a
/// command that was executed is not refused, whatever its reply is.
#[derive(Clone, Copy, Debug, PartialEq, Eq)]
pub enum Refusal {
    /// The name is no command's, or there are too few or too many words.
    Unknown,
    /// A word of the line is bad.
    Format,
    /// The number of an `incr` or `decr`, or an exptime, is bad.
    Number,
    /// The block does not end as its size says.
    Chunk,
    /// The line is too long.
    Long,
    /// The block is too large.
    Large,
    /// It is of the binary protocol.
    Binary,
    /// It is a request of HTTP.
    Http,
    /// The command is one that this server does not do, such as `flush_all`.
    Forbidden,
    /// The items have more bytes than the server may store.
    Full,
}

/// All of them, each at its place.
pub const ALL_REFUSALS: [Refusal; REFUSALS] = [
    Refusal::Unknown,
    Refusal::Format,
    Refusal::Number,
    Refusal::Chunk,
    Refusal::Long,
    Refusal::Large,
    Refusal::Binary,
    Refusal::Http,
    Refusal::Forbidden,
    Refusal::Full,
];

/// How many lines were refused, by why.
#[derive(Clone, Copy, Debug, PartialEq, Eq)]
pub struct Refusals {
    counts: [u64; REFUSALS],
}

impl Refusal {
    /// Its name in lines and pages.
    pub fn name(self) -> &'static str
        ensures { result.now ≡ refusal_name self }
    {
        match self {
            Refusal::Unknown => "unknown",
            Refusal::Format => "format",
            Refusal::Number => "number",
            Refusal::Chunk => "chunk",
            Refusal::Long => "long",
            Refusal::Large => "large",
            Refusal::Binary => "binary",
            Refusal::Http => "http",
            Refusal::Forbidden => "forbidden",
            Refusal::Full => "full",
        }
    }

    /// Where its count is kept.
    pub(crate) fn place(self) -> usize
        ensures place { result ≡ refusal_place self }
        ensures below { result < REFUSALS }
        ensures listed { slice_get ALL_REFUSALS result ≡ Some self }
    {
        match self {
            Refusal::Unknown => 0,
            Refusal::Format => 1,
            Refusal::Number => 2,
            Refusal::Chunk => 3,
            Refusal::Long => 4,
            Refusal::Large => 5,
            Refusal::Binary => 6,
            Refusal::Http => 7,
            Refusal::Forbidden => 8,
            Refusal::Full => 9,
        }
    }
}

impl Refusals {
    /// No line was refused.
    pub const NONE: Refusals = Refusals {
        counts: [0; REFUSALS],
    };

    /// How many lines were refused for this.
    pub fn of(&self, refusal: Refusal) -> u64
        ensures { result ≡ refusal_count self.now refusal }
    {
        self.counts[refusal.place()]
    }

    /// One more line was refused for this.
    pub fn count(&mut self, refusal: Refusal)
        ensures counted { refusal_count self.new refusal ≡ up (refusal_count self.old refusal) }
        ensures others { (other : RefusalValue) → other ≢ refusal → refusal_count self.new other ≡ refusal_count self.old other }
    {
        let place = refusal.place();
        self.counts[place] = one_more(self.counts[place]);
    }
}

ghost use Rattle.std.specs.Prelude.{◌≡◌, ◌↔◌, IsSome, IfSome, length, count_by};

/// When a record was saved: in which start of the server, and as which save of it. Later starts have higher numbers, and
/// so have later saves of one start.
#[derive(Clone, Copy, Debug, PartialEq, Eq)]
pub struct SaveStamp {
    pub start: u64,
    pub save: u64,
}

impl SaveStamp {
    ghost use Rattle.folders.specs.Folders.{is_later_save};

    /// Whether this one is of a later start, or of a later save of the same start.
    pub fn is_later_than(self, other: SaveStamp) -> bool
        ensures { result ≡ is_later_save self other }
    {
        self.start > other.start || (self.start == other.start && self.save > other.save)
    }
}

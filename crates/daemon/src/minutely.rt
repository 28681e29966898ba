//! Lines that are logged at most once a minute.

ghost use Rattle.std.specs.Prelude.{◌≡◌, ◌≤◌, ◌<◌, ◌+◌, ◌⊎◌, ℕ, Some, true};

/// When a line was logged of something that goes on.
#[derive(Clone, Copy, Debug, PartialEq, Eq)]
pub struct Minutely {
    /// The second of the last line.
    pub last: Option<u64>,
}

impl Minutely {
    /// No line was logged.
    pub const NONE: Minutely = Minutely { last: None };

    /// Whether a line is due in this second: none was in the minute before it. It is logged then. If the clock was set
    /// back one is due, too.
    pub fn is_due(&mut self, second: u64) -> bool
        ensures told { result ≡ true → self.new.last ≡ Some second }
        ensures rest { (last : ℕ) → self.old.last ≡ Some last → result ≡ true → (second < last) ⊎ (last + 60 ≤ second) }
    {
        let is_due = match self.last {
            Some(last) => second < last || 60 <= second - last,
            None => true,
        };
        if is_due {
            self.last = Some(second);
        }
        is_due
    }
}

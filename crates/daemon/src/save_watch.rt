//! When it is logged that nothing can be saved, and that it can again.

ghost use Rattle.std.specs.Prelude.{◌≡◌, ◌-◌, ℕ, Some, None, true, false};
ghost use Rattle.daemon.specs.declared.save_watch.SaveLine.TheVariants.{Fails, Again};

use crate::minutely::Minutely;

/// Since when saves fail, and when that was logged.
#[derive(Clone, Copy, Debug, PartialEq, Eq)]
pub struct SaveWatch {
    told: Minutely,
    since: Option<u64>,
}

/// What is logged of saves.
#[derive(Clone, Copy, Debug, PartialEq, Eq)]
pub enum SaveLine {
    Nothing,
    /// The last save failed.
    Fails,
    /// Saves succeed again, after so many seconds.
    Again(u64),
}

impl SaveWatch {
    /// No save has failed.
    pub const NONE: SaveWatch = SaveWatch {
        told: Minutely::NONE,
        since: None,
    };

    /// What is due this second: at most once a minute that saves fail, and once that they succeed again, if it was logged
    /// that they fail.
    pub fn look(&mut self, is_failing: bool, second: u64) -> SaveLine
        ensures fails { result ≡ Fails → is_failing ≡ true }
        ensures again { (seconds : ℕ) → result ≡ Again seconds → is_failing ≡ false }
        ensures over { is_failing ≡ false → self.new.since ≡ None }
    {
        if is_failing {
            self.since = self.since.or(Some(second));
            return if self.told.is_due(second) {
                SaveLine::Fails
            } else {
                SaveLine::Nothing
            };
        }
        let since = self.since;
        *self = SaveWatch::NONE;
        match since {
            Some(since) => SaveLine::Again(second.saturating_sub(since)),
            None => SaveLine::Nothing,
        }
    }
}

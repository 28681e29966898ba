//! All verifiers of the model, as one.

/// How many decrees answer an Ask.
const ANSWERED: u64 = 16;

pub struct Verifier {
    /// The highest batch that each executor has told a token of.
    told: [u64; 3],
    /// The last batch that is decided.
    pub decided: u64,
    /// Whether a decision is under way.
    pub is_busy: bool,
}

impl Drop for Verifier {
    fn drop(self) {
        let Verifier {
            told: _,
            decided: _,
            is_busy: _,
        } = self;
    }
}

impl Verifier {
    pub fn new() -> Verifier {
        Verifier {
            told: [0; 3],
            decided: 0,
            is_busy: false,
        }
    }

    /// An executor tells a token.
    pub fn hear(&mut self, from: u8, number: u64) {
        if let Some(told) = self.told.get_mut(usize::from(from)) {
            *told = number;
        }
    }

    /// The batch that can be decided now, if one can: two executors told its token.
    pub fn next(&self) -> Option<u64> {
        let tokens = self
            .told
            .iter()
            .filter(|number| self.decided < **number)
            .count();
        if self.is_busy || tokens < 2 {
            return None;
        }
        Some(self.decided.saturating_add(1))
    }

    /// The last place of the decrees that answer an Ask for the decrees from this place on.
    pub fn last_answered(&self, place: u64) -> u64 {
        self.decided.min(place.saturating_add(ANSWERED - 1))
    }
}

//! Whether the items have more bytes than they may.

/// The items are looked at again whenever this part of the limit was asked to be stored.
const PARTS: u64 = 1024;

/// While the limit is reached they are looked at after so many microseconds.
const MICROS_BETWEEN: u64 = 4_000;

/// A limit for the bytes that the keys and the data of all items have. It decides when these are counted again, and whether
/// more may be stored.
///
/// What was asked to be stored since they were counted is taken to be stored, also if it replaced something. So
/// nothing more may be stored from a thousandth below the limit on. What connections have sent and no proxy has taken yet
/// may come on top of it.
#[derive(Clone, Copy)]
pub struct Limit {
    /// 0: there is none.
    bytes: u64,
    /// How many bytes the items had when they were last counted. None: they were not.
    found: Option<u64>,
    /// How many bytes had been asked to be stored by then.
    asked: u64,
    /// When that was.
    micros: u64,
}

impl Limit {
    /// At most so many bytes. 0: as many as there is memory for.
    pub fn new(bytes: u64) -> Limit {
        Limit {
            bytes,
            found: None,
            asked: 0,
            micros: 0,
        }
    }

    /// Whether there is one.
    pub fn is_set(&self) -> bool {
        self.bytes != 0
    }

    /// Whether the items are to be counted now, at this moment in microseconds, if so many bytes were asked to be stored so
    /// far.
    pub fn is_due(&self, asked: u64, micros: u64) -> bool {
        if !self.is_set() || self.found.is_none() {
            return self.is_set();
        }
        let is_later = MICROS_BETWEEN <= micros.saturating_sub(self.micros);
        let part = (self.bytes / PARTS).max(1);
        part <= asked.saturating_sub(self.asked) || (is_later && self.is_reached(asked))
    }

    /// The items had so many bytes at this moment in microseconds, when so many were asked to be stored.
    pub fn found(&mut self, bytes: u64, asked: u64, micros: u64) {
        self.found = Some(bytes);
        self.asked = asked;
        self.micros = micros;
    }

    /// Whether no more may be stored, if so many bytes were asked to be stored so far. So it is while nobody knows how many
    /// bytes the items have.
    pub fn is_reached(&self, asked: u64) -> bool {
        match self.found {
            Some(bytes) => {
                let more = asked.saturating_sub(self.asked);
                self.is_set() && self.bytes < bytes.saturating_add(more)
            }
            None => self.is_set(),
        }
    }
}

//! When a client that waits asks again, and when it suspects the leader.

ghost use Rattle.std.specs.Prelude.{◌≡◌, ◌<◌, true, false};
ghost use Rattle.housekeeping.specs.Patience.{urge_of, after_tick};

/// A client asks again if the executors went on by so many steps each since it asked: its request is in
/// none of their batches. A chain has four batches, and the request waits for the one after them.
const STEPS_TO_AGAIN: u64 = 8;

/// The most ticks between two suspicions of one client.
const MOST_PAUSE: u8 = 16;

/// How far a server has come. It tells a client that waits whether anything may still answer it.
#[derive(Clone, Copy, Debug, PartialEq, Eq)]
pub struct Seen {
    /// How often nothing was under way any more. It wraps.
    pub rests: u32,
    /// The sum of the steps of all executors. A decree that an executor obeys is a step.
    pub steps: u64,
}

/// What is due after a tick.
#[derive(Clone, Copy, Debug, PartialEq, Eq)]
pub enum Urge {
    /// To wait on.
    Wait,
    /// To ask again.
    Again,
    /// To ask again, and to tell a verifier that the leader is suspected.
    Suspect,
}

/// What a client that waits knows of its request.
#[derive(Clone, Copy)]
pub struct Patience {
    /// How far the server was when the request was last sent.
    since: Seen,
    /// Whether it was sent more than once.
    has_asked_again: bool,
    /// For so many ticks nothing is due.
    pause: u8,
    /// The pause after the next suspicion.
    next_pause: u8,
}

impl Patience {
    /// The request is sent for the first time, and the server is so far.
    pub fn new(seen: Seen) -> Patience
        ensures since { result.since ≡ seen }
        ensures first { result.has_asked_again ≡ false }
        ensures pause { result.pause ≡ 0 }
        ensures next_pause { result.next_pause ≡ 1 }
    {
        Patience {
            since: seen,
            has_asked_again: false,
            pause: 0,
            next_pause: 1,
        }
    }

    /// The request is sent again, and the server is so far.
    pub fn ask_again(&mut self, seen: Seen)
        ensures since { self.new.since ≡ seen }
        ensures again { self.new.has_asked_again ≡ true }
        ensures pause { self.new.pause ≡ self.old.pause }
        ensures next_pause { self.new.next_pause ≡ self.old.next_pause }
    {
        self.since = seen;
        self.has_asked_again = true;
    }

    /// One more tick, with `2u + 1` executors and the server so far: what is due. The pause after a
    /// suspicion doubles, up to 16 ticks.
    pub fn tick(&mut self, u: u8, seen: Seen) -> Urge
        requires { u < 4 }
        ensures urge { result ≡ urge_of u self.old seen }
        ensures after { self.new ≡ after_tick u self.old seen }
    {
        if 0 < self.pause {
            self.pause -= 1;
            return Urge::Wait;
        }
        if seen.rests != self.since.rests {
            if !self.has_asked_again {
                return Urge::Again;
            }
            self.pause = self.next_pause;
            self.next_pause = self.next_pause.saturating_mul(2).min(MOST_PAUSE);
            return Urge::Suspect;
        }
        let steps = seen.steps.saturating_sub(self.since.steps);
        if STEPS_TO_AGAIN * u64::from(2 * u + 1) <= steps {
            return Urge::Again;
        }
        Urge::Wait
    }
}

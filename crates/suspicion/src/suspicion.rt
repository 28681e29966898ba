ghost use Rattle.std.specs.Prelude.{◌≡◌, ◌⊎◌, ◌<◌, ◌≤◌, ◌+◌, ◌*◌, ◌^◌, ◌-◌, IsTrue, IsSomeAnd, true, false, min, nat_lt, if◌then◌else◌};
ghost use Rattle.suspicion.specs.Suspicion.{suspicion_from, patience_of, with_tick, with_decree, with_period, observed, backed_off, is_stalled as stalled, is_away as away, is_leaderless as leaderless, may_suspect as suspects};
ghost use Rattle.suspicion.specs.declared.suspicion.TheConstants.{MOST_PATIENCE, STALLED_TURN, AWAY_TURN};

use crate::observed::Observed;

/// The least patience, in ticks: half a second.
pub const LEAST_PATIENCE: u64 = 5;

/// The most patience, in ticks: 16 seconds.
pub const MOST_PATIENCE: u64 = 160;

/// The patience is at least so many times the longest wait for a decree lately.
const WAITS: u64 = 4;

/// A member waits so many ticks longer for each turn until it leads, if no decree comes.
pub const STALLED_TURN: u64 = 3;

/// The same if the leader's member is not connected.
pub const AWAY_TURN: u64 = 2;

/// The most by which suspicions multiply the patience.
const MOST_FACTOR: u8 = 32;

/// What was lately is of this period and the one before. A period has so many ticks at which something waits: 30 seconds.
const PERIOD: u32 = 300;

/// What a member knows of the wait for decrees. All times are in ticks, at which something waits here.
#[derive(Clone, Copy, Debug, PartialEq, Eq)]
pub struct Suspicion {
    /// The place of the last decree that was obeyed.
    known: u64,
    /// Whether something waited at the last tick.
    was_waiting: bool,
    /// For how long something has waited since the last decree.
    gap: u32,
    /// The same since the last decree or the last suspicion, whichever was later.
    quiet: u32,
    /// By how much the suspicions since the last decree multiply the patience. It is 1 if there was none.
    factor: u8,
    /// The longest gap before a decree in this period, and in the one before.
    longest: u32,
    earlier: u32,
    /// How much of this period is over.
    age: u32,
}

impl Suspicion {
    /// Nothing has waited yet, and so many decrees were obeyed.
    pub fn new(known: u64) -> Suspicion
        ensures { result ≡ suspicion_from known }
    {
        Suspicion {
            known,
            was_waiting: false,
            gap: 0,
            quiet: 0,
            factor: 1,
            longest: 0,
            earlier: 0,
            age: 0,
        }
    }

    /// After how many ticks with no decree the first in turn suspects the leader, but for the ticks of the turns: the
    /// greater of five and four times the longest wait for a decree lately, doubled for each suspicion since the last
    /// decree, and at most 160.
    pub fn patience(&self) -> u64
        ensures exact { result ≡ patience_of self.now }
        ensures most { result ≤ MOST_PATIENCE }
    {
        let longest = u64::from(self.longest.max(self.earlier));
        let least = (WAITS * longest).max(LEAST_PATIENCE);
        least
            .saturating_mul(u64::from(self.factor))
            .min(MOST_PATIENCE)
    }

    /// One more tick passed, and counts if something waited at the last one.
    fn pass(&mut self)
        ensures { self.new ≡ with_tick self.old }
    {
        if self.was_waiting {
            self.gap = self.gap.saturating_add(1);
            self.quiet = self.quiet.saturating_add(1);
            self.age = self.age.saturating_add(1);
        } else {
            self.gap = 0;
            self.quiet = 0;
        }
    }

    /// Decrees up to this place are obeyed.
    fn obey(&mut self, known: u64)
        ensures { self.new ≡ with_decree known self.old }
    {
        if self.known != known {
            self.known = known;
            self.longest = self.longest.max(self.gap);
            self.gap = 0;
            self.quiet = 0;
            self.factor = 1;
        }
    }

    /// Begins another period, if this one is over.
    fn renew(&mut self)
        ensures { self.new ≡ with_period self.old }
    {
        if PERIOD <= self.age {
            self.earlier = self.longest;
            self.longest = 0;
            self.age = 0;
        }
    }

    /// One more tick passed, at which this is observed.
    fn observe(&mut self, seen: Observed)
        ensures { self.new ≡ observed self.old seen }
    {
        self.pass();
        self.obey(seen.known);
        self.renew();
        self.was_waiting = seen.is_waiting;
    }

    /// Whether no decree has come for longer than the patience of this rank.
    fn is_stalled(&self, seen: Observed) -> bool
        ensures { result ≡ stalled self.now seen }
    {
        self.patience() + STALLED_TURN * u64::from(seen.rank) < u64::from(self.quiet)
    }

    /// Whether the leader's member is away for longer than this rank waits. It is no reason for a second suspicion before
    /// the patience is over, if no decree came in between.
    fn is_leaderless(&self, seen: Observed) -> bool
        ensures { result ≡ leaderless self.now seen }
    {
        is_away(seen) && (self.factor == 1 || self.patience() < u64::from(self.quiet))
    }

    /// The leader is suspected: the patience doubles, and begins anew.
    fn back_off(&mut self)
        ensures { self.new ≡ backed_off self.old }
    {
        self.quiet = 0;
        self.factor = self.factor.saturating_mul(2).min(MOST_FACTOR);
    }

    /// Whether enough others are heard, something waits here, and there is a reason.
    fn may_suspect(&self, u: u8, seen: Observed) -> bool
        ensures { result ≡ suspects u self.now seen }
    {
        u <= seen.peers && seen.is_waiting && (self.is_stalled(seen) || self.is_leaderless(seen))
    }

    /// One more tick of a member of a site of `2u + 1`, at which it observes this: whether its verifier is to suspect the
    /// leader now.
    ///
    /// It is if at least `u` others are heard, something waits here, and either the leader's member has been away for more
    /// than two ticks for each turn until this member leads, or no decree has come for more than its patience and three
    /// ticks for each such turn. If it has suspected the leader since the last decree, its patience is over since then,
    /// too.
    pub fn tick(&mut self, u: u8, seen: Observed) -> bool
        ensures exact { result ≡ suspects u (observed self.old seen) seen }
        ensures after { self.new ≡ (if result then backed_off (observed self.old seen) else observed self.old seen) }
        ensures heard { IsTrue result → u ≤ seen.peers }
        ensures waiting { IsTrue result → seen.is_waiting ≡ true }
        ensures late { IsTrue result → (IsSomeAnd seen.leader_away (λ ticks. AWAY_TURN * seen.rank < ticks)) ⊎ (patience_of (observed self.old seen) + STALLED_TURN * seen.rank < (observed self.old seen).quiet) }
        ensures again { IsTrue result → ((observed self.old seen).factor ≡ 1) ⊎ (patience_of (observed self.old seen) < (observed self.old seen).quiet) }
    {
        self.observe(seen);
        let is_due = self.may_suspect(u, seen);
        if is_due {
            self.back_off();
        }
        is_due
    }
}

/// Whether the leader's member is away for longer than this rank waits.
fn is_away(seen: Observed) -> bool
    ensures { result ≡ away seen }
{
    match seen.leader_away {
        Some(ticks) => AWAY_TURN * u64::from(seen.rank) < u64::from(ticks),
        None => false,
    }
}

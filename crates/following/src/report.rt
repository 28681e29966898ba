ghost use Rattle.std.specs.Prelude.{◌≡◌, ◌+◌, ◌^◌, ◌-◌, min};
ghost use Rattle.following.specs.Letters.{is_fetching as fetching, has_room_for_batch, next_decree_place as place_after};

/// The most tentative states of an executor: so many has its chain.
pub const MOST_MEMBERS: usize = 4;

/// How far an executor is.
#[derive(Clone, Copy, Debug, PartialEq, Eq)]
pub struct ExecutorReport {
    /// The number of its committed state.
    pub number: u64,
    /// The place of the last decree that it has obeyed.
    pub known: u64,
    /// The number of the state that stands by the decrees that it has obeyed.
    pub standing: u64,
    pub epoch: u64,
    /// How many tentative states are over the committed one.
    pub chain: usize,
    /// Whether it executes a batch.
    pub is_running: bool,
}

impl ExecutorReport {
    /// Whether it has not the state that stands, and has to fetch it. Else it follows: it executes batches.
    pub fn is_fetching(self) -> bool
        ensures { result ≡ fetching self }
    {
        self.number < self.standing
    }

    /// Whether it may begin a batch: it follows, executes none, and its chain has room.
    pub fn may_begin(self) -> bool
        ensures { result ≡ has_room_for_batch self }
    {
        !self.is_fetching() && !self.is_running && self.chain < MOST_MEMBERS
    }

    /// The place of the decree that it has to obey next.
    pub fn next_place(self) -> u64
        ensures { result ≡ place_after self }
    {
        self.known.saturating_add(1)
    }
}

/// What a member observes at a tick.
#[derive(Clone, Copy, Debug, PartialEq, Eq)]
pub struct Observed {
    /// How many other members were heard within the last second.
    pub peers: u8,
    /// Whether something waits here for a decree: a request of a proxy that was asked a while ago, or a tentative state.
    pub is_waiting: bool,
    /// For how many ticks the leader's member has not been connected. None: it is connected, or it is this member.
    pub leader_away: Option<u32>,
    /// The place of the last decree that the executor here has obeyed. Any change counts as a decree.
    pub known: u64,
    /// How many turns it takes until the verifier here leads: 1 if it is the next.
    pub rank: u8,
}

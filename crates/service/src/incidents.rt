/// What a server has come through.
#[derive(Clone, Copy, Debug, PartialEq, Eq)]
pub struct Incidents {
    /// How often a verifier was told that the leader is suspected.
    pub suspicions: u64,
    /// How many Rollbacks were decided.
    pub rollbacks: u64,
}

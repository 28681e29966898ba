use token::Token;

/// What the verifiers decide for one place. Places are numbered from 1.
#[derive(Clone, Copy, Debug, PartialEq, Eq)]
pub enum Decree {
    /// The state after batch `n` is the one with this token.
    Commit { n: u64, token: Token },
    /// What was executed since the last Commit is undone, and the next epoch begins.
    Rollback,
}

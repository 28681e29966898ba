//! One executor or verifier.

/// The most executors that a server has, and the most verifiers: 2u + 1 at u = 3.
pub const MOST_NODES: usize = 7;

/// What is known of one executor or verifier.
#[derive(Clone, Copy, Debug, PartialEq, Eq)]
pub struct NodeFigures {
    /// Whether it is up.
    pub is_up: bool,
    /// How often it was found down after it had been up.
    pub stops: u64,
}

impl NodeFigures {
    /// It is down, and has never stopped.
    pub const NONE: NodeFigures = NodeFigures {
        is_up: false,
        stops: 0,
    };
}

/// A node. Executors and verifiers are numbered from 0 to `2u`, clients from 1.
#[derive(Clone, Copy, PartialEq, Eq)]
pub enum Node {
    Client(u16),
    Executor(u8),
    Verifier(u8),
}

/// What one node says to another.
#[derive(Clone, Copy, PartialEq, Eq, Drop)]
pub struct Letter<B> {
    pub from: Node,
    pub to: Node,
    pub body: B,
}

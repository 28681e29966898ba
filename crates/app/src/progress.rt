//! How far a play is, for those who wait for it.

/// Sees how far a play is.
pub trait Progress {
    /// So many events have happened by now.
    fn happened(&mut self, events: usize);
}

/// Tells nobody.
#[derive(Drop)]
pub struct Untold;

impl Progress for Untold {
    fn happened(&mut self, _events: usize) {}
}

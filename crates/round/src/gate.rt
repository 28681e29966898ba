//! Sees each step, inside the lock of its page and after it.
//!
//! No contract says that a gate is called: what it is given, how often, and on which side of the unlock
//! is only tested (`executor_tests`). A gate is for tests and measures, and nothing that is promised may
//! rest on one.

/// Is called at each step that was made: `inside` within the lock of the step's page, and `outside`
/// after the lock. Both are given the page's number, below `pages::PAGES`, and the request's place. It may
/// look and wait; it changes nothing of the round.
pub trait Gate {
    fn inside(&self, page: usize, place: u32);

    fn outside(&self, page: usize, place: u32);
}

/// Does nothing.
#[derive(Clone, Copy)]
pub struct NoGate;

impl Gate for NoGate {
    fn inside(&self, _page: usize, _place: u32) {}

    fn outside(&self, _page: usize, _place: u32) {}
}

//! What the threads of the event loop and of the service send each other.

use loop_messages::{Heard, Said};

/// A message to the service's thread.
#[derive(Drop)]
pub enum ToService {
    /// All that happened in one pass of the event loop, in order, which was over at this moment in microseconds since
    /// the start of 1970.
    Heard { heard: Vec<Heard>, micros: u64 },
    /// A tenth of a second has passed.
    Tick,
    /// The service is to end.
    Stop,
}

/// A message to the event loop's thread.
#[derive(Drop)]
pub struct FromService {
    /// How many messages are done with by this one.
    pub answered: usize,
    /// Whether the service wants ticks.
    pub is_waiting: bool,
    /// What is said, in order.
    pub said: Vec<Said>,
}

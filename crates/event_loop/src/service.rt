//! What answers the connections.

use loop_messages::{Heard, Said};
use std::rt::Clock;
use std::sync::Wait;
use std::thread::Threads;

/// A service behind an event loop. One thread at a time calls it.
pub trait Serve {
    ghost use denote.Param.Send.{IsSync};

    /// It is now so many microseconds after the start of 1970. It is said before it works and after, and before it hears: then
    /// the moment at which what it hears was read.
    fn set_micros(&mut self, micros: u64);

    /// Takes what happened, in order. To each `Bytes` it says at least once that it does not wait, or
    /// that it closes, now or in a later `work`.
    fn hear(&mut self, heard: Vec<Heard>);

    /// Does what is due, and gives all that is said since the last call, in order. It does as much as keeps no
    /// reply waiting for long: one batch. `seconds` are those since 1970, by a clock that nobody sets back;
    /// by `clock` it takes times for figures.
    fn work<R: Threads + Wait + Sync, C: Clock>(
        &mut self,
        rt: &R,
        clock: &C,
        seconds: u32,
    ) -> Vec<Said>
        requires { IsSync R.row };

    /// A tenth of a second has passed, and something waits for it.
    fn tick(&mut self);

    /// Whether another `work` has something to do although nothing more happens.
    fn has_work(&self) -> bool;

    /// Whether something waits that may need a tick.
    fn is_waiting(&self) -> bool;
}

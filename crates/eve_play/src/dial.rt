//! How far the play is, for whoever looks at standard error.

use app::Progress;
use std::io::IsTerminal;
use std::time::Instant;

/// The clock is looked at once in so many events.
const EVENTS_BETWEEN_LOOKS: usize = 64;

/// Says on standard error once a second how many events have happened, if this is a terminal.
#[derive(Drop)]
pub struct Dial<'a> {
    rt: &'a HostRuntime,
    /// When it last said so, or began; `None` if nobody looks, or there is no clock.
    last: Option<Instant>,
}

impl<'a> Dial<'a> {
    /// A dial that has said nothing.
    pub fn new(rt: &'a HostRuntime) -> Dial<'a> {
        let last = if rt.stderr().is_terminal() {
            Instant::now(rt).ok()
        } else {
            None
        };
        Dial { rt, last }
    }

    /// Whether a second has gone by since it last said something.
    fn is_due(&self) -> bool {
        let Some(last) = self.last else {
            return false;
        };
        match last.elapsed(self.rt) {
            Ok(since) => 1 <= since.as_secs(),
            Err(_) => false,
        }
    }
}

impl Progress for Dial<'_> {
    fn happened(&mut self, events: usize) {
        if !events.is_multiple_of(EVENTS_BETWEEN_LOOKS) || !self.is_due() {
            return;
        }
        let rt = self.rt;
        self.last = Instant::now(rt).ok();
        let _ = eprintln!(rt; "{events} events");
    }
}

//! The time by which the service is given how late it is.

use std::rt::Clock;
use std::time::{Duration, Instant, SystemTime};

/// A clock that begins with the time of the system's clock, and then goes by itself: setting the system's clock later
/// does not change it. memcached keeps its time so, too.
#[derive(Clone, Copy)]
pub struct Moments {
    /// The time since the start of 1970 when it began.
    began: Duration,
    /// None: the system has no clock that only goes on.
    start: Option<Instant>,
}

/// The time since the start of 1970, or none if the clock cannot be read.
fn since_1970<R: Clock>(rt: &R) -> Duration {
    let Ok(now) = SystemTime::now(rt) else {
        return Duration::from_secs(0);
    };
    now.duration_since(SystemTime::UNIX_EPOCH)
        .unwrap_or(Duration::from_secs(0))
}

impl Moments {
    /// It begins now.
    pub fn begin<R: Clock>(rt: &R) -> Moments {
        Moments {
            began: since_1970(rt),
            start: Instant::now(rt).ok(),
        }
    }

    /// The time since the start of 1970.
    fn now<R: Clock>(&self, rt: &R) -> Duration {
        let Some(start) = self.start else {
            return since_1970(rt);
        };
        match Instant::now(rt) {
            Ok(now) => self
                .began
                .saturating_add(now.saturating_duration_since(start)),
            Err(_) => self.began,
        }
    }

    /// The seconds since the start of 1970.
    pub fn seconds<R: Clock>(&self, rt: &R) -> u32 {
        u32::try_from(self.now(rt).as_secs()).unwrap_or(u32::MAX)
    }

    /// The microseconds since the start of 1970.
    pub fn micros<R: Clock>(&self, rt: &R) -> u64 {
        u64::try_from(self.now(rt).as_micros()).unwrap_or(u64::MAX)
    }
}

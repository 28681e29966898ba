//! Lines with a time.

ghost use Rattle.std.specs.Prelude.{true, [], Some};

use jiff::Timestamp;
use log::kv::Source;
use log::span::Spans;
use log::{Line, Log, Metadata, Record};
use std::fmt::Display;
use std::rt::Clock;
use std::time::SystemTime;

/// Writes each record to the standard error of `R`, after the time in UTC: `2026-11-27T02:43:00Z [WARN ] ..`. A
/// clock that cannot be read gives 1970.
#[derive_where(Clone, Copy)]
pub struct Stamped<'a, R>(pub &'a R);

/// The seconds of the clock since 1970, or 0 if it cannot be read.
pub fn seconds<R: Clock>(rt: &R) -> u64 {
    let Ok(now) = SystemTime::now(rt) else {
        return 0;
    };
    match now.duration_since(SystemTime::UNIX_EPOCH) {
        Ok(since) => since.as_secs(),
        Err(_) => 0,
    }
}

/// The clock's time in whole seconds.
fn time<R: Clock>(rt: &R) -> Option<Timestamp> {
    let second = i64::try_from(seconds(rt)).ok()?;
    Timestamp::from_second(second).ok()
}

impl<R: Eprint + Clock> Log for Stamped<'_, R> {
    ghost enables = { λ _ _ _. Some true };

    ghost target_of = { λ _. Some [] };

    fn enabled(&self, _metadata: &Metadata<'_>) -> bool {
        true
    }

    fn log<D: Display, K: Source, S: Spans>(&self, record: &Record<'_, D, K, S>) {
        let line = Line::new(record);
        // A line that cannot be written is lost.
        let _ = match time(self.0) {
            Some(time) => eprintln!(self.0; "{time} {line}"),
            None => self.0.eprintln(line),
        };
    }

    fn flush(&self) {}

    fn target(&self) -> &str {
        ""
    }
}

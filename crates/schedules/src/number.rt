//! The numbers in lines.

ghost use Rattle.std.specs.Prelude.{◌≡◌, ◌+◌, ◌^◌};
ghost use Rattle.proto.specs.Number.{number_below};
ghost use Rattle.schedules.specs.declared.number.TheConstants.{MOST_EVENTS, MOST_PLACES};
ghost use Rattle.schedules.specs.Reading as spec;

use events::Replica;
use proto::number_in;

/// How many events a line of `settle` or `random` gives at most.
pub const MOST_EVENTS: u32 = 1_000_000;

/// Places of a batch are below this.
pub const MOST_PLACES: u32 = 64;

/// A client. A number above 65535 is read as that: no world has either.
pub fn client_in(digits: &[u8]) -> Option<u16>
    ensures { result ≡ spec.client_said digits.now }
{
    let number = number_in(digits)?;
    Some(u16::try_from(number).unwrap_or(u16::MAX))
}

/// An executor, or a verifier, if it is known which of them. A number above 255 is read as that: no
/// world has either.
pub fn replica_number_in(digits: &[u8]) -> Option<u8>
    ensures { result ≡ spec.replica_number_said digits.now }
{
    let number = number_in(digits)?;
    Some(u8::try_from(number).unwrap_or(u8::MAX))
}

/// `e` or `v`, and a number.
pub fn replica_in(word: &[u8]) -> Option<Replica>
    ensures { result ≡ spec.replica_said word.now }
{
    match word {
        [b'e', digits @ ..] => Some(Replica::Executor(replica_number_in(digits)?)),
        [b'v', digits @ ..] => Some(Replica::Verifier(replica_number_in(digits)?)),
        _ => None,
    }
}

/// A moment, in seconds.
pub fn moment_in(digits: &[u8]) -> Option<u32>
    ensures { result ≡ number_below (2 ^ 32) digits.now }
{
    match number_in(digits) {
        Some(n) if n < 4294967296 => Some(n as u32),
        _ => None,
    }
}

/// The place of a request in its batch.
pub fn place_in(digits: &[u8]) -> Option<u32>
    ensures { result ≡ number_below MOST_PLACES digits.now }
{
    match number_in(digits) {
        Some(n) if n < MOST_PLACES as u64 => Some(n as u32),
        _ => None,
    }
}

/// How many events are to come at most.
pub fn count_in(digits: &[u8]) -> Option<u32>
    ensures { result ≡ number_below (MOST_EVENTS + 1) digits.now }
{
    match number_in(digits) {
        Some(n) if n <= MOST_EVENTS as u64 => Some(n as u32),
        _ => None,
    }
}

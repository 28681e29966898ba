//! The numbers of the dialect.

ghost use Rattle.std.specs.Prelude.{◌≡◌, ◌≤◌, ◌^◌, ◌-◌, ◌+◌, IfSome};
ghost use Rattle.std.specs.Option.{option_map};
ghost use Rattle.proto.specs.Number.{number_below};
ghost use Rattle.dialect.specs.Number.{unsigned_of, flags_of as flags_value, exptime_of as exptime_value, block_size_of as size_value, wrapped, wrapped_minus};

use crate::line::MOST_SIZE;
use proto::number_in;

/// One more than the greatest number of 32 bits.
const ABOVE_32_BITS: u64 = 4_294_967_296;

/// A number below 2^64, which may have a plus in front.
pub fn unsigned_in(word: &[u8]) -> Option<u64>
    ensures { result ≡ unsigned_of word.now }
{
    match word {
        [b'+', digits @ ..] => number_in(digits),
        _ => number_in(word),
    }
}

/// The lower 32 bits of a number.
pub fn flags_of(word: &[u8]) -> Option<u32>
    ensures { result ≡ flags_value word.now }
{
    match unsigned_in(word) {
        None => None,
        Some(n) => Some((n % ABOVE_32_BITS) as u32),
    }
}

/// The lower 32 bits of a number, of which the highest is a sign.
fn wrap(n: u64) -> i32
    ensures { result ≡ wrapped n }
{
    let low = n % ABOVE_32_BITS;
    if low < 2147483648 {
        low as i32
    } else {
        (low as i64 - 4_294_967_296) as i32
    }
}

/// The lower 32 bits of the negative of a number, of which the highest is a sign.
fn wrap_minus(n: u64) -> i32
    ensures { result ≡ wrapped_minus n }
{
    let low = n % ABOVE_32_BITS;
    if low <= 2147483648 {
        (0 - low as i64) as i32
    } else {
        (ABOVE_32_BITS - low) as i32
    }
}

fn time_in(digits: &[u8]) -> Option<i32>
    ensures { result ≡ option_map wrapped (number_below (2 ^ 63) digits.now) }
{
    match number_in(digits) {
        Some(n) if n < 9_223_372_036_854_775_808 => Some(wrap(n)),
        _ => None,
    }
}

fn negative_time_in(digits: &[u8]) -> Option<i32>
    ensures { result ≡ option_map wrapped_minus (number_below (2 ^ 63 + 1) digits.now) }
{
    match number_in(digits) {
        Some(n) if n <= 9_223_372_036_854_775_808 => Some(wrap_minus(n)),
        _ => None,
    }
}

/// An expiry time: a number of 64 bits with or without a sign, of which the lower 32 bits count, with a
/// sign. So 4294967295 is -1.
pub fn exptime_of(word: &[u8]) -> Option<i32>
    ensures { result ≡ exptime_value word.now }
{
    match word {
        [b'-', digits @ ..] => negative_time_in(digits),
        [b'+', digits @ ..] => time_in(digits),
        _ => time_in(word),
    }
}

fn size_in(digits: &[u8]) -> Option<u32>
    ensures size { result ≡ number_below (2 ^ 31 - 2) digits.now }
    ensures limit { IfSome result (λ size. size ≤ MOST_SIZE) }
{
    match number_in(digits) {
        Some(n) if n <= MOST_SIZE => Some(n as u32),
        _ => None,
    }
}

/// The size of a block: a number up to `MOST_SIZE`, which may have a plus in front.
pub fn block_size_of(word: &[u8]) -> Option<u32>
    ensures size { result ≡ size_value word.now }
    ensures limit { IfSome result (λ size. size ≤ MOST_SIZE) }
{
    match word {
        [b'+', digits @ ..] => size_in(digits),
        _ => size_in(word),
    }
}

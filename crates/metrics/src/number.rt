//! Numbers as text.

ghost use Rattle.std.specs.Prelude.{◌≡◌, ◌++◌, decimal, OnOk, ◌<◌};
ghost use Rattle.metrics.specs.Number.{seconds_text, six_digits};

use itoa::Buffer;
use std::alloc::AllocError;

/// Adds the number in decimal.
pub fn write_decimal(number: u64, out: &mut Vec<u8>) -> Result<(), AllocError>
    ensures { OnOk result (out.new.items ≡ out.old.items ++ decimal number) }
{
    let mut buffer = Buffer::new();
    out.extend_from_slice(buffer.format(number).as_bytes())
}

fn digits_of(number: u64) -> [u8; 6]
    requires { number < 1000000 }
    ensures { result ≡ six_digits number }
{
    [
        48 + (number / 100000 % 10) as u8,
        48 + (number / 10000 % 10) as u8,
        48 + (number / 1000 % 10) as u8,
        48 + (number / 100 % 10) as u8,
        48 + (number / 10 % 10) as u8,
        48 + (number % 10) as u8,
    ]
}

/// Adds so many microseconds in seconds, with six decimals.
pub fn write_seconds(micros: u64, out: &mut Vec<u8>) -> Result<(), AllocError>
    ensures { OnOk result (out.new.items ≡ out.old.items ++ seconds_text micros) }
{
    write_decimal(micros / 1000000, out)?;
    out.extend_from_slice(b".".as_slice())?;
    out.extend_from_slice(digits_of(micros % 1000000).as_slice())
}

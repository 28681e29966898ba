//! Bytes, as they are printed.

ghost use Rattle.std.specs.Prelude.{◌≡◌, ◌<◌, ◌++◌, OnOk, OnErr};
ghost use Rattle.proto.specs.Growth.{Grows};
ghost use Rattle.schedules.specs.Escape.{hex_digit as hex_digit_of, printed_byte, printed_text};

use crate::escape::is_plain;
use std::alloc::AllocError;

/// In lower case.
fn hex_digit(n: u8) -> u8
    requires { n < 16 }
    ensures { result ≡ hex_digit_of n }
{
    if n < 10 { n + 48 } else { n + 87 }
}

fn append_byte(b: u8, out: &mut Vec<u8>) -> Result<(), AllocError>
    ensures ok { OnOk result (out.new.items ≡ out.old.items ++ printed_byte b) }
    ensures grows { Grows out.old.items out.new.items }
{
    if is_plain(b) {
        out.push(b)?;
        Ok(())
    } else if b == b'\r' {
        out.extend_from_slice(b"\\r".as_slice())
    } else if b == b'\n' {
        out.extend_from_slice(b"\\n".as_slice())
    } else if b == b'\\' {
        out.extend_from_slice(b"\\\\".as_slice())
    } else {
        let text = [b'\\', b'x', hex_digit(b / 16), hex_digit(b % 16)];
        out.extend_from_slice(text.as_slice())
    }
}

/// Adds the bytes as they are printed, or after a failed allocation a beginning of that.
fn append_printed(bytes: &[u8], out: &mut Vec<u8>) -> Result<(), AllocError>
    ensures ok { OnOk result (out.new.items ≡ out.old.items ++ printed_text bytes.now) }
    ensures grows { Grows out.old.items out.new.items }
{
    for b in bytes {
        append_byte(*b, out)?;
    }
    Ok(())
}

/// Adds bytes at the end as they are printed: those from 32 to 126 other than the backslash as they
/// are, and for another one `\r`, `\n` or `\\` if it is one of these, and else `\x` with two digits.
/// As the text of a Feed this stands for the same bytes (`what_is_printed_is_read`). After a failed
/// allocation, the only error, the vector has what it had.
pub fn write_printed(bytes: &[u8], out: &mut Vec<u8>) -> Result<(), AllocError>
    ensures ok { OnOk result (out.new.items ≡ out.old.items ++ printed_text bytes.now) }
    ensures err { OnErr result (out.new.items ≡ out.old.items) }
{
    let start = out.len();
    let written = append_printed(bytes, out);
    if written.is_err() {
        out.truncate(start);
    }
    written
}

//! Texts of each length up to 200 bytes in each lane, against `sha2`.

ghost use Rattle.std.specs.Prelude.{◌≤◌};

use sha_lanes::digest4;
use sha2::{Digest, Sha256};

/// 300 bytes, which repeat after 251.
fn bytes() -> [u8; 300] {
    let mut bytes = [0u8; 300];
    for i in 0..300 {
        bytes[i] = (i * 31 % 251) as u8;
    }
    bytes
}

/// Whether the four digests are those of `sha2`.
fn agree(a: &[u8], b: &[u8], c: &[u8], d: &[u8]) -> bool {
    digest4(a, b, c, d)
        == [
            Sha256::digest(a),
            Sha256::digest(b),
            Sha256::digest(c),
            Sha256::digest(d),
        ]
}

/// Whether they agree at texts of this length in all lanes, and at another length in some.
fn agree_at(bytes: &[u8; 300], len: usize, other: usize) -> bool
    requires len { len ≤ 200 }
    requires other { other ≤ 200 }
{
    let (a, b) = (&bytes[..len], &bytes[20..20 + len]);
    let (c, d) = (&bytes[40..40 + len], &bytes[60..60 + len]);
    let (x, y) = (&bytes[80..80 + other], &bytes[100..100 + other]);
    agree(a, b, c, d) && agree(x, b, c, y) && agree(a, x, y, d)
}

/// The shortest length with as many blocks.
fn shortest(len: usize) -> usize
    ensures { result ≤ len }
{
    if len < 56 { 0 } else { len - (len - 56) % 64 }
}

#[test]
fn texts_of_each_length(rt: HostRuntime) {
    let bytes = bytes();
    for len in 0..201 {
        let alike = agree_at(&bytes, len, shortest(len));
        assert!(rt; alike, "{len} and as many blocks");
        let unlike = agree_at(&bytes, len, 200 - len);
        assert!(rt; unlike, "{len} and {}", 200 - len);
    }
}

//! HMAC with SHA-256, of RFC 2104 and FIPS 198-1.

ghost use Rattle.std.specs.Prelude.{◌≡◌, ◌≤◌, [], bit_xor, length, map};
ghost use Rattle.sha2.specs.Hashers.{Holds256};
ghost use Rattle.mac.specs.Hmac.{padded_with, hmac_sha256};

use sha2::{Digest, Sha256};

/// The bytes of a block of SHA-256.
const BLOCK: usize = 64;

/// The hasher gets each byte of the key with this one, bit by bit.
fn feed_key(hasher: &mut Sha256, key: &[u8], pad: u8)
    requires { Holds256 hasher.old [] }
    ensures { Holds256 hasher.new (map (λ b. bit_xor b pad) key.now) }
{
    for byte in key {
        hasher.update([*byte ^ pad]);
    }
}

/// A hasher that got the key, which is one block at most, as a block of which each byte is with this one, bit by bit.
fn padded(key: &[u8], pad: u8) -> Sha256
    requires { length key.now ≤ 64 }
    ensures { Holds256 result (padded_with pad key.now) }
{
    let mut hasher = Sha256::new();
    feed_key(&mut hasher, key, pad);
    let rest = [pad; BLOCK];
    hasher.update(&rest[..BLOCK - key.len()]);
    hasher
}

/// A tag that is made of pieces of a text.
#[derive(Drop)]
pub struct Mac {
    inner: Sha256,
    outer: Sha256,
}

impl Mac {
    ghost use Rattle.std.specs.Prelude.{◌≡◌, ◌≤◌, ◌++◌, ℕ, List, [], length};
    ghost use Rattle.mac.specs.Hmac.{HoldPads, IsMacOf, hmac_sha256};

    /// With this key, which is one block at most, and no text yet.
    fn begun(key: &[u8]) -> Mac
        requires { length key.now ≤ 64 }
        ensures { HoldPads result key.now }
    {
        Mac {
            inner: padded(key, 0x36),
            outer: padded(key, 0x5C),
        }
    }

    /// With this key, and no text yet.
    pub fn new(key: &[u8]) -> Mac
        ensures { IsMacOf result key.now [] }
    {
        if key.len() <= BLOCK {
            Mac::begun(key)
        } else {
            Mac::begun(&Sha256::digest(key))
        }
    }

    /// These bytes come behind the text.
    pub fn update(&mut self, piece: &[u8])
        ensures { (key text : List ℕ) → IsMacOf self.old key text → IsMacOf self.new key (text ++ piece.now) }
    {
        self.inner.update(piece);
    }

    /// The tag of the text.
    pub fn finalize(self) -> [u8; 32]
        ensures { (key text : List ℕ) → IsMacOf self key text → result ≡ hmac_sha256 key text }
    {
        let Mac { inner, mut outer } = self;
        outer.update(inner.finalize());
        outer.finalize()
    }
}

/// The tag of a text under this key.
pub fn tag_of(key: &[u8], text: &[u8]) -> [u8; 32]
    ensures { result ≡ hmac_sha256 key.now text.now }
{
    let mut mac = Mac::new(key);
    mac.update(text);
    mac.finalize()
}

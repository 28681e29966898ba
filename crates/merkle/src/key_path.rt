ghost use Rattle.std.specs.Prelude.{◌≡◌, ◌<◌, length, slice_index, ◌∷◌};
ghost use Rattle.sha2.specs.Sha256.{sha256};
ghost use Rattle.merkle.specs.KeyPath.{path};

use crate::key::TreeKey;
use proto::Key;
use sha2::{Digest, Sha256};

/// A byte of the length followed by the bytes, or 0 after their end.
fn byte_of(bytes: &[u8], at: usize) -> u8
    requires { length bytes.now < 256 }
    ensures { result ≡ slice_index (length bytes.now ∷ bytes.now) at }
{
    if at == 0 {
        return bytes.len() as u8;
    }
    if at <= bytes.len() { bytes[at - 1] } else { 0 }
}

/// A byte of the path of a key. `kept` is the key's hash.
fn path_byte(key: &Key, kept: &[u8; 32], at: usize) -> u8
    requires { kept.now ≡ sha256 key.now }
    ensures { result ≡ slice_index (path key.now) at }
{
    if at < 32 {
        kept[at]
    } else {
        byte_of(key.as_slice(), at - 32)
    }
}

impl TreeKey for Key {
    ghost use Rattle.std.specs.FinMap.{nat_cmp-IsAntisymmetric, slice_cmp-IsAntisymmetric};
    ghost use Rattle.sha2.specs.Sha256.{sha256};
    ghost use Rattle.proto.specs.Key.{IsKey};
    ghost use Rattle.merkle.specs.KeyPath.{path_bit, path_bits, few};
    ghost use Rattle.merkle.specs.KeyPathLaws.{keys_apart};

    ghost hash = { sha256 };

    ghost bit = { path_bit };

    ghost BITS = { path_bits };

    const BITS: u32 = 2264;

    ghost fits = { IsKey };

    fn known(&self) {
        let _bytes = self.as_slice();
    }

    fn hash(&self) -> [u8; 32] {
        Sha256::digest(self.as_slice())
    }

    fn bit(&self, kept: &[u8; 32], place: u32) -> bool {
        let byte = path_byte(self, kept, (place / 8) as usize);
        (byte >> (7 - place % 8)) & 1 == 1
    }

    ghost only_equal_tie = { slice_cmp-IsAntisymmetric nat_cmp-IsAntisymmetric };

    ghost few = { few };

    ghost apart = { keys_apart };
}

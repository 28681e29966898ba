ghost use Rattle.std.specs.Prelude.{◌≡◌, ◌≤◌, ◌↔◌, length, IsTrue, IfOk};
ghost use Rattle.std.specs.Cmp.Lexicographic.{slice_cmp};
ghost use Rattle.std.specs.Ordering.{nat_cmp};
ghost use Rattle.std.specs.List.{list_all};
ghost use Rattle.proto.specs.Key.{IsKey, is_key, is_key_byte as key_byte};

use base::{Listed, MapKey};
use smallvec::SmallVec;
use std::alloc::{AllocError, Global};
use std::cmp::Ordering;
use std::marker::Model;

/// How many bytes a key has at most (protocol.txt, "Keys").
pub const MOST_KEY_BYTES: usize = 250;

/// How many keys a line of `get` has at most.
pub const MOST_KEYS: usize = 64;

/// A key of so many bytes or fewer lies in the value itself, and is copied without an allocation. Names of sessions, a
/// word and 32 digits, are among them.
const MOST_BYTES_IN_PLACE: usize = 40;

/// A key: 1 to `MOST_KEY_BYTES` bytes, each a printing one that is no space (protocol.txt, "Keys").
pub struct Key {
    bytes: SmallVec<u8, MOST_BYTES_IN_PLACE>,
}

impl Drop for Key {
    fn drop(self) {
        let Key { bytes: _ } = self;
    }
}

impl Model for Key {
    ghost use Rattle.std.specs.Prelude.{List, ℕ};

    ghost Value = { List ℕ };

    ghost use Rattle.proto.specs.Key.{IsKey};

    ghost view = { λ a. a.bytes.items };

    ghost invariant = { λ a. IsKey a.bytes.items };
}

fn is_key_byte(b: u8) -> bool
    ensures { result ≡ key_byte b }
{
    (33 <= b && b <= 126) || 128 <= b
}

fn are_key_bytes(bytes: &[u8]) -> bool
    ensures { result ≡ list_all key_byte bytes.now }
{
    bytes.iter().all(|b| is_key_byte(*b))
}

/// Whether the bytes may be a key: 1 to `MOST_KEY_BYTES`, and none a space or a control
/// character (protocol.txt, "Keys").
pub fn is_key_text(bytes: &[u8]) -> bool
    ensures { result ≡ is_key bytes.now }
{
    1 <= bytes.len() && bytes.len() <= MOST_KEY_BYTES && are_key_bytes(bytes)
}

impl Key {
    /// The key of these bytes, which may be one (`is_key_text`). The only error is a failed allocation.
    pub fn from_slice(alloc: Global, bytes: &[u8]) -> Result<Key, AllocError>
        requires { IsKey bytes.now }
        ensures { IfOk result (λ key. key ≡ bytes.now) }
    {
        Ok(Key {
            bytes: SmallVec::from_slice(alloc, bytes)?,
        })
    }

    /// Its bytes.
    pub fn as_slice(&self) -> &[u8]
        ensures bytes { result.now ≡ self.now }
        ensures valid { IsKey self.now }
    {
        self.bytes.as_slice()
    }

    /// The order of their bytes, from the first on.
    pub fn compare(&self, other: &Key) -> Ordering
        ensures { result ≡ slice_cmp nat_cmp self.now other.now }
    {
        self.bytes.as_slice().cmp(other.bytes.as_slice())
    }
}

/// The keys of a line of `get`: 1 to `MOST_KEYS` of them.
pub type Keys = Listed<Key, 1, MOST_KEYS>;

impl Clone for Key {
    ghost is_clone = { λ key copy. copy ≡ key };

    fn clone(&self) -> Result<Key, AllocError> {
        Ok(Key {
            bytes: SmallVec::from_slice(*self.bytes.allocator(), self.bytes.as_slice())?,
        })
    }
}

impl PartialEq for Key {
    ghost use Rattle.std.proofs.Common.{rules};
    ghost use Rattle.std.specs.Cmp.Rules.{comparing};
    ghost use Rattle.std.specs.Str.{bytes_eq};

    ghost eq = { bytes_eq };

    ghost laws = { Prim.search (comparing, rules) };

    fn eq(&self, other: &Key) -> bool {
        self.bytes.as_slice() == other.bytes.as_slice()
    }
}

impl Eq for Key {
    ghost use Rattle.std.specs.Cmp.Lexicographic.{nat_list_eq_equiv};

    ghost laws = { nat_list_eq_equiv };
}

impl PartialOrd for Key {
    ghost use Rattle.std.specs.Prelude.{Some};
    ghost use Rattle.std.specs.Ordering.{nat_cmp};
    ghost use Rattle.std.specs.Cmp.Lexicographic.{slice_cmp, texts_po};

    ghost partial_cmp = { λ a b. Some (slice_cmp nat_cmp a b) };

    ghost laws = { texts_po };

    fn partial_cmp(&self, other: &Key) -> Option<Ordering> {
        Some(self.cmp(other))
    }
}

impl Ord for Key {
    ghost use Rattle.std.specs.Prelude.{refl};
    ghost use Rattle.std.specs.Ordering.{nat_cmp};
    ghost use Rattle.std.specs.Cmp.Lexicographic.{slice_cmp, nat_list_cmp_total, texts_ties};

    ghost cmp = { slice_cmp nat_cmp };

    ghost total = { nat_list_cmp_total };

    ghost matches_partial_cmp = { λ a b. refl };

    ghost matches_eq = { texts_ties };

    fn cmp(&self, other: &Key) -> Ordering {
        self.compare(other)
    }
}

impl MapKey for Key {
    ghost use Rattle.std.specs.FinMap.{nat_cmp-IsAntisymmetric, slice_cmp-IsAntisymmetric};

    ghost only_equal_tie = { slice_cmp-IsAntisymmetric nat_cmp-IsAntisymmetric };
}

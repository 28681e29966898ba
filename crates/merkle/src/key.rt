ghost use Rattle.std.specs.Prelude.{◌≡◌, ◌<◌, ℕ, Bool, List, Option, OnOk};
ghost use Rattle.std.specs.FinMap.{IsAntisymmetric};
ghost use Rattle.sha2.specs.Sha256.{sha256};
ghost use Rattle.wire.specs.Record.{Puts};
ghost use Rattle.merkle.specs.Shape.{leaf_text};

use wire::Sink;

/// A key that has a path: the bits by which a tree finds it. Only equal keys tie.
pub trait TreeKey: Ord {
    /// 32 bytes that are computed once of each key, and then kept beside it.
    ghost hash: { Self → List ℕ };

    /// The bit at a place of its path.
    ghost bit: { Self → ℕ → Bool };

    /// How many bits a path has.
    ghost BITS: { ℕ };

    const BITS: u32;

    /// What holds of every value of the type.
    ghost fits: { Self → Type 0 };

    fn known(&self)
        ensures { fits self.now };

    fn hash(&self) -> [u8; 32]
        ensures { result ≡ hash self.now };

    fn bit(&self, kept: &[u8; 32], place: u32) -> bool
        requires known { kept.now ≡ hash self.now }
        requires within { place < BITS }
        ensures { result ≡ bit self.now place };

    ghost only_equal_tie: { IsAntisymmetric Self.cmp };

    ghost few: { BITS < 65536 };

    /// Paths tell keys apart.
    ghost apart: { (a b : Self) → fits a → fits b → ((i : ℕ) → i < BITS → bit a i ≡ bit b i) → a ≡ b };
}

/// A value under a key.
pub trait TreeValue<K> {
    /// The text of the key with the value.
    ghost text: { K → Self → List ℕ };

    /// The moment at which it is dropped, if there is one.
    ghost due: { Self → Option ℕ };

    fn due(&self) -> Option<u64>
        ensures { result ≡ due self.now };

    /// How many bytes the key and the value have. It is a figure: no clause says what it gives.
    fn bytes(&self, key: &K) -> u64;

    /// Writes the text of the key with the value.
    fn put_text<S: Sink>(&self, key: &K, sink: &mut S) -> Result<(), S::Refusal>
        ensures { OnOk result (Puts S.holds (text key.now self.now) sink.old sink.new) };

    /// The digest of a leaf with this key and the value.
    fn digest(&self, key: &K) -> [u8; 32]
        ensures { result ≡ sha256 (leaf_text text key.now self.now) };
}

//! Letters that are not acknowledged.

ghost use Rattle.std.specs.Prelude.{◌≡◌, ◌≤◌, ◌++◌, ◌∷◌, [], length, drop, slice_get, Some, IfSome, IfNone, OnOk, OnErr};
ghost use Rattle.links.specs.Sending.{bytes_held};

use base::Text;
use std::alloc::{AllocError, Global};
use std::collections::VecDeque;
use std::marker::Model;

/// Letters in order, and how many bytes they have together.
pub struct HeldLetters {
    letters: VecDeque<Text>,
    bytes: usize,
}

impl Drop for HeldLetters {
    fn drop(self) {
        let HeldLetters {
            letters: _,
            bytes: _,
        } = self;
    }
}

impl Model for HeldLetters {
    ghost use Rattle.std.specs.Prelude.{◌≡◌, ℕ, List};
    ghost use Rattle.links.specs.Sending.{bytes_held};

    ghost Value = { List (List ℕ) };

    ghost view = { λ h. h.letters.items };

    ghost invariant = { λ h. h.bytes ≡ bytes_held h.letters.items };
}

impl HeldLetters {
    /// There is none.
    pub fn new(alloc: Global) -> HeldLetters
        ensures { result ≡ [] }
    {
        HeldLetters {
            letters: VecDeque::new(alloc),
            bytes: 0,
        }
    }

    /// How many there are.
    pub fn len(&self) -> usize
        ensures { result ≡ length self.now }
    {
        self.letters.len()
    }

    /// How many bytes they have.
    pub fn bytes(&self) -> usize
        ensures { result ≡ bytes_held self.now }
    {
        self.bytes
    }

    /// The letter at this place.
    pub fn get(&self, at: usize) -> Option<&Text>
        ensures some { IfSome result (λ letter. slice_get self.now at ≡ Some letter.now) }
        ensures none { IfNone result (length self.now ≤ at) }
    {
        self.letters.get(at)
    }

    /// Adds a letter behind the others. The only error is a failed allocation, or that all of them together have more bytes
    /// than a number can say.
    pub fn push(&mut self, letter: Text) -> Result<(), AllocError>
        ensures ok { OnOk result (self.new ≡ self.old ++ letter ∷ []) }
        ensures err { OnErr result (self.new ≡ self.old) }
    {
        let Some(bytes) = self.bytes.checked_add(letter.len()) else {
            return Err(AllocError);
        };
        self.letters.push_back(letter)?;
        self.bytes = bytes;
        Ok(())
    }

    /// Lets go of the first letter, if there is one.
    fn let_first_go(&mut self)
        ensures { self.new ≡ drop 1 self.old }
    {
        if let Some(letter) = self.letters.pop_front() {
            self.bytes -= letter.len();
        }
    }

    /// Lets go of the first letters, so many.
    pub fn let_go(&mut self, count: usize)
        ensures { self.new ≡ drop count self.old }
    {
        for _ in 0..count {
            self.let_first_go();
        }
    }
}

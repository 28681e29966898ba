ghost use Rattle.std.specs.Prelude.{◌≡◌, List, ℕ, IfOk};

use base::Text;
use std::alloc::{AllocError, Global};

/// A value that stands for bytes, which are written only if somebody asks for them. It can be handed on without a copy.
pub trait ToText: Drop {
    /// The bytes.
    ghost text: { Self → List ℕ };

    /// Writes the bytes.
    fn to_text(&self, alloc: Global) -> Result<Text, AllocError>
        ensures { IfOk result (λ written. written ≡ text self.now) };

    /// A value that stands for the same bytes, and shares what this one has.
    fn share(&self) -> Result<Self, AllocError>
        ensures { IfOk result (λ shared. text shared ≡ text self.now) };
}

/// A text stands for its own bytes.
impl ToText for Text {
    ghost text = { λ bytes. bytes };

    /// The same bytes. The pieces are shared; only the tail is copied.
    fn to_text(&self, _: Global) -> Result<Text, AllocError> {
        self.clone()
    }

    fn share(&self) -> Result<Text, AllocError> {
        self.clone()
    }
}

ghost use Rattle.std.specs.Prelude.{◌≡◌, ◌↔◌, [], length, IsTrue, IfNone, IfSome};

use std::alloc::AllocError;
use std::marker::Model;

/// A list of at least `LEAST` and at most `MOST` elements.
///
/// Give a list with limits of its own a name: `pub type Keys = Listed<Key, 1, 64>`.
#[derive(Drop)]
pub struct Listed<T, const LEAST: usize, const MOST: usize> {
    items: Vec<T>,
}

impl<T, const LEAST: usize, const MOST: usize> Model for Listed<T, LEAST, MOST> {
    ghost use Rattle.std.specs.Prelude.{List};
    ghost use Rattle.base.specs.Limits.{IsWithin};

    ghost Value = { List T };

    ghost view = { λ a. a.items.items };

    ghost invariant = { λ a. IsWithin LEAST MOST a.items.items };
}

impl<T, const LEAST: usize, const MOST: usize> Listed<T, LEAST, MOST> {
    ghost use Rattle.base.specs.Limits.{IsWithin};

    /// The list of these elements, which are `LEAST` to `MOST`.
    pub fn new(items: Vec<T>) -> Listed<T, LEAST, MOST>
        requires { IsWithin LEAST MOST items.items }
        ensures { result ≡ items.items }
    {
        Listed { items }
    }

    /// The list of these elements. `None` exactly if they are fewer than `LEAST` or more than
    /// `MOST`.
    pub fn try_new(items: Vec<T>) -> Option<Listed<T, LEAST, MOST>>
    where
        T: Drop,
        ensures none { IfNone result (¬ (IsWithin LEAST MOST items.items)) }
        ensures some { IfSome result (λ list. (list ≡ items.items) × IsWithin LEAST MOST items.items) }
    {
        if LEAST <= items.len() && items.len() <= MOST {
            Some(Listed { items })
        } else {
            None
        }
    }

    /// The elements, in their order.
    pub fn as_slice(&self) -> &[T]
        ensures items { result.now ≡ self.now }
        ensures limits { IsWithin LEAST MOST self.now }
    {
        self.items.as_slice()
    }

    /// How many elements it has.
    pub fn len(&self) -> usize
        ensures { result ≡ length self.now }
    {
        self.items.len()
    }

    /// Whether it has no element.
    pub fn is_empty(&self) -> bool
        ensures { IsTrue result ↔ (self.now ≡ []) }
    {
        self.items.is_empty()
    }

    /// The vector of the elements.
    pub fn into_vec(self) -> Vec<T>
        ensures items { result.items ≡ self }
        ensures limits { IsWithin LEAST MOST self }
    {
        self.items
    }
}

impl<T: Clone, const LEAST: usize, const MOST: usize> Clone for Listed<T, LEAST, MOST> {
    ghost use Rattle.std.specs.List.{AllZip};

    ghost is_clone = { AllZip T.is_clone };

    /// A list of clones of the elements.
    fn clone(&self) -> Result<Listed<T, LEAST, MOST>, AllocError> {
        Ok(Listed {
            items: self.items.clone()?,
        })
    }
}

ghost use Rattle.std.specs.Prelude.{◌≡◌, ◌↔◌, [], length, IsTrue};
ghost use Rattle.base.specs.Shared.{elements_held};

use std::alloc::{AllocError, Global};
use std::marker::Model;
use std::sync::Arc;

/// The elements of a shared list.
#[derive(Drop)]
enum Held<T> {
    Shared(Arc<Vec<T>, Global>),
    /// There was no memory to share them.
    Own(Vec<T>),
}

impl<T> Held<T> {
    fn as_slice(&self) -> &[T]
        ensures { result.now ≡ elements_held self.now }
    {
        match self {
            Held::Shared(items) => items.as_slice(),
            Held::Own(items) => items.as_slice(),
        }
    }
}

/// A list of at least `LEAST` and at most `MOST` elements, which all its clones share.
#[derive(Drop)]
pub struct SharedList<T, const LEAST: usize, const MOST: usize> {
    held: Held<T>,
}

impl<T, const LEAST: usize, const MOST: usize> Model for SharedList<T, LEAST, MOST> {
    ghost use Rattle.std.specs.Prelude.{List};
    ghost use Rattle.base.specs.Limits.{IsWithin};
    ghost use Rattle.base.specs.Shared.{elements_held};

    ghost Value = { List T };

    ghost view = { λ a. elements_held a.held };

    ghost invariant = { λ a. IsWithin LEAST MOST (elements_held a.held) };
}

impl<T: Drop, const LEAST: usize, const MOST: usize> SharedList<T, LEAST, MOST> {
    ghost use Rattle.base.specs.Limits.{IsWithin};

    /// The list of these elements, which are `LEAST` to `MOST`. If there is no memory to share them, each clone copies them.
    pub fn new(items: Vec<T>) -> SharedList<T, LEAST, MOST>
        requires { IsWithin LEAST MOST items.items }
        ensures { result ≡ items.items }
    {
        let alloc = *items.allocator();
        let held = match Arc::new(alloc, items) {
            Ok(items) => Held::Shared(items),
            Err(failed) => Held::Own(failed.value),
        };
        SharedList { held }
    }
}

impl<T, const LEAST: usize, const MOST: usize> SharedList<T, LEAST, MOST> {
    ghost use Rattle.base.specs.Limits.{IsWithin};

    /// The elements, in their order.
    pub fn as_slice(&self) -> &[T]
        ensures items { result.now ≡ self.now }
        ensures limits { IsWithin LEAST MOST self.now }
    {
        self.held.as_slice()
    }

    /// How many elements it has.
    pub fn len(&self) -> usize
        ensures { result ≡ length self.now }
    {
        self.held.as_slice().len()
    }

    /// Whether it has no element.
    pub fn is_empty(&self) -> bool
        ensures { IsTrue result ↔ (self.now ≡ []) }
    {
        self.held.as_slice().is_empty()
    }
}

impl<T: Clone, const LEAST: usize, const MOST: usize> Clone for SharedList<T, LEAST, MOST> {
    ghost use Rattle.std.specs.Prelude.{◌≡◌, ◌⊎◌};
    ghost use Rattle.std.specs.List.{AllZip};

    ghost is_clone = { λ list copy. (copy ≡ list) ⊎ AllZip T.is_clone list copy };

    /// The same elements, shared, or clones of them if they are not.
    fn clone(&self) -> Result<SharedList<T, LEAST, MOST>, AllocError> {
        let held = match &self.held {
            Held::Shared(items) => Held::Shared(Arc::try_clone(items)?),
            Held::Own(items) => Held::Own(items.clone()?),
        };
        Ok(SharedList { held })
    }
}

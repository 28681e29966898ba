ghost use Rattle.std.specs.Prelude.{◌≡◌, IfOk};

use std::alloc::{AllocError, Global};
use std::marker::Model;
use std::sync::Arc;

/// A key and its value, behind one pointer. Clones of an entry share both.
pub struct Entry<K, V> {
    both: Arc<(K, V), Global>,
}

impl<K: Drop, V: Drop> Drop for Entry<K, V> {
    fn drop(self) {
        let Entry { both: _ } = self;
    }
}

impl<K, V> Model for Entry<K, V> {
    ghost use Rattle.std.specs.Arc.{arc_value};

    ghost Value = { K × V };

    ghost view = { λ a. arc_value a.both };
}

impl<K, V> Entry<K, V> {
    /// An entry of its own, shared with no other.
    pub fn new(alloc: Global, key: K, value: V) -> Result<Entry<K, V>, AllocError>
    where
        K: Drop,
        V: Drop,
        ensures { IfOk result (λ entry. entry ≡ (key, value)) }
    {
        Ok(Entry {
            both: Arc::new(alloc, (key, value))?,
        })
    }

    /// The key, which may be shared with other entries.
    pub fn key(&self) -> &K
        ensures { result.now ≡ self.now.0 }
    {
        &self.both.0
    }

    /// The value, which may be shared with other entries.
    pub fn value(&self) -> &V
        ensures { result.now ≡ self.now.1 }
    {
        &self.both.1
    }
}

impl<K: Drop, V: Drop> Clone for Entry<K, V> {
    ghost is_clone = { λ entry copy. copy ≡ entry };

    /// The same entry, shared. It takes no memory, and fails only if an entry has too many
    /// clones to be counted.
    fn clone(&self) -> Result<Entry<K, V>, AllocError> {
        Ok(Entry {
            both: Arc::try_clone(&self.both)?,
        })
    }
}

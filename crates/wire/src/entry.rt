ghost use Rattle.std.specs.Prelude.{◌≡◌, ◌++◌, List, ℕ};
ghost use Rattle.wire.specs.FieldLaws.{pair_prefix_free};

use crate::record::Record;
use crate::sink::Sink;
use base::Entry;
use proto::Fault;
use std::alloc::Global;

/// The key, and its value. What is read is shared with no other entry.
impl<K: Record + Drop, V: Record + Drop> Record for Entry<K, V> {
    ghost fits = { λ entry. K.fits entry.0 × V.fits entry.1 };

    ghost encoding = { λ entry. K.encoding entry.0 ++ V.encoding entry.1 };

    fn put<S: Sink>(&self, sink: &mut S) -> Result<(), S::Refusal> {
        self.key().put(sink)?;
        self.value().put(sink)
    }

    fn take<'b>(alloc: Global, bytes: &'b [u8]) -> Result<(Entry<K, V>, &'b [u8]), Fault> {
        let ((key, value), rest) = <(K, V)>::take(alloc, bytes)?;
        Ok((Entry::new(alloc, key, value)?, rest))
    }

    ghost prefix_free = { pair_prefix_free K.encoding V.encoding K.prefix_free V.prefix_free };
}

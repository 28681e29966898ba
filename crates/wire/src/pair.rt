ghost use Rattle.std.specs.Prelude.{◌≡◌, ◌++◌, List, ℕ};
ghost use Rattle.wire.specs.FieldLaws.{pair_prefix_free};

use crate::record::Record;
use crate::sink::Sink;
use proto::Fault;
use std::alloc::Global;

/// One value after the other. Longer rows are pairs whose first part is a pair.
impl<A: Record + Drop, B: Record + Drop> Record for (A, B) {
    ghost fits = { λ p. A.fits p.0 × B.fits p.1 };

    ghost encoding = { λ p. A.encoding p.0 ++ B.encoding p.1 };

    fn put<S: Sink>(&self, sink: &mut S) -> Result<(), S::Refusal> {
        self.0.put(sink)?;
        self.1.put(sink)
    }

    fn take<'b>(alloc: Global, bytes: &'b [u8]) -> Result<((A, B), &'b [u8]), Fault> {
        let (first, rest) = A::take(alloc, bytes)?;
        let (second, rest) = B::take(alloc, rest)?;
        Ok(((first, second), rest))
    }

    ghost prefix_free = { pair_prefix_free A.encoding B.encoding A.prefix_free B.prefix_free };
}

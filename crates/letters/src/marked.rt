//! A value behind a mark of its kind.

ghost use Rattle.std.specs.Prelude.{◌≡◌, ◌∷◌, OnOk};
ghost use Rattle.wire.specs.Record.{Puts};

use wire::{Record, Sink};

/// Writes the mark, and the value.
pub fn put_marked<T: Record, S: Sink>(mark: u8, value: &T, sink: &mut S) -> Result<(), S::Refusal>
    requires { T.fits value.now }
    ensures { OnOk result (Puts S.holds (mark ∷ T.encoding value.now) sink.old sink.new) }
{
    sink.put(&[mark])?;
    value.put(sink)
}

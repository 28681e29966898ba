//! A text within another one, behind its length.

ghost use Rattle.std.specs.Prelude.{◌≡◌};
ghost use Rattle.wire.specs.Record.{Always};
ghost use Rattle.process_text.specs.Rows.{long_text};
ghost use Rattle.process_text.specs.RowLaws.{long_prefix_free};

use base::Text;
use proto::Fault;
use std::alloc::Global;
use std::marker::Model;
use wire::{Record, Sink, share_text, take_bytes};

/// A text of any length. If it is written into another text its pieces are shared.
pub struct LongText {
    text: Text,
}

impl Drop for LongText {
    fn drop(self) {
        let LongText { text: _ } = self;
    }
}

impl Model for LongText {
    ghost use Rattle.std.specs.Prelude.{List, ℕ};

    ghost Value = { List ℕ };

    ghost view = { λ l. l.text };
}

impl LongText {
    /// This text.
    pub fn new(text: Text) -> LongText
        ensures { result ≡ text }
    {
        LongText { text }
    }

    /// The text.
    pub fn as_text(&self) -> &Text
        ensures { result.now ≡ self.now }
    {
        &self.text
    }
}

impl Record for LongText {
    ghost fits = { Always };

    ghost encoding = { long_text };

    fn put<S: Sink>(&self, sink: &mut S) -> Result<(), S::Refusal> {
        (self.text.len() as u64).put(sink)?;
        share_text(&self.text, sink)
    }

    fn take<'b>(alloc: Global, bytes: &'b [u8]) -> Result<(LongText, &'b [u8]), Fault> {
        let (size, rest) = u64::take(alloc, bytes)?;
        let (own, rest) = take_bytes(rest, size as usize)?;
        let mut text = Text::new(alloc);
        text.put(own)?;
        Ok((LongText { text }, rest))
    }

    ghost prefix_free = { long_prefix_free };
}

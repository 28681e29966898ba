ghost use Rattle.std.specs.Prelude.{◌≡◌, ◌<◌, ◌++◌, ◌^◌, List, ℕ, length, OnOk, All, flat_map};
ghost use Rattle.std.specs.Int.{w32};
ghost use Rattle.wire.specs.Record.{Puts, Takes};
ghost use Rattle.wire.specs.Number.{num};
ghost use Rattle.wire.specs.Field.{list_text, ListFits, CountFits};
ghost use Rattle.wire.specs.FieldLaws.{list_prefix_free};

use crate::record::Record;
use crate::sink::Sink;
use proto::Fault;
use std::alloc::Global;
use std::marker::Model;

/// A list as a record has it: a count, and so many values.
#[derive(Drop)]
pub struct Counted<T> {
    values: Vec<T>,
}

impl<T> Model for Counted<T> {
    ghost Value = { List T };

    ghost view = { λ l. l.values.items };
}

impl<T> Counted<T> {
    /// These values, in their order.
    pub fn new(values: Vec<T>) -> Counted<T>
        ensures { result ≡ values.items }
    {
        Counted { values }
    }

    /// The values, in their order.
    pub fn as_slice(&self) -> &[T]
        ensures { result.now ≡ self.now }
    {
        self.values.as_slice()
    }

    /// The vector of the values.
    pub fn into_vec(self) -> Vec<T>
        ensures { result.items ≡ self }
    {
        self.values
    }
}

/// Writes how many there are of what follows.
pub fn put_count<S: Sink>(count: usize, sink: &mut S) -> Result<(), S::Refusal>
    requires { count < 2 ^ 32 }
    ensures { OnOk result (Puts S.holds (num w32 count) sink.old sink.new) }
{
    (count as u32).put(sink)
}

fn put_values<T: Record, S: Sink>(values: &[T], sink: &mut S) -> Result<(), S::Refusal>
    requires { All T.fits values.now }
    ensures { OnOk result (Puts S.holds (flat_map T.encoding values.now) sink.old sink.new) }
{
    for value in values {
        value.put(sink)?;
    }
    Ok(())
}

/// Writes a list: its count, and its values.
pub fn put_list<T: Record, S: Sink>(values: &[T], sink: &mut S) -> Result<(), S::Refusal>
    requires { ListFits T.fits values.now }
    ensures { OnOk result (Puts S.holds (list_text T.encoding values.now) sink.old sink.new) }
{
    put_count(values.len(), sink)?;
    put_values(values, sink)
}

/// So many values, whose encodings one after the other are a prefix of the bytes, and the bytes after
/// them. The errors are those of `Record::take`.
pub fn take_values<'b, T: Record + Drop>(
    alloc: Global,
    count: usize,
    bytes: &'b [u8],
) -> Result<(Counted<T>, &'b [u8]), Fault>
    ensures { Takes (CountFits count T.fits) (flat_map T.encoding) bytes.now result }
{
    let mut values = Vec::new(alloc);
    let mut rest = bytes;
    for _ in 0..count {
        let (value, after) = T::take(alloc, rest)?;
        values.push(value)?;
        rest = after;
    }
    Ok((Counted::new(values), rest))
}

impl<T: Record + Drop> Record for Counted<T> {
    ghost fits = { ListFits T.fits };

    ghost encoding = { list_text T.encoding };

    fn put<S: Sink>(&self, sink: &mut S) -> Result<(), S::Refusal> {
        put_list(self.as_slice(), sink)
    }

    fn take<'b>(alloc: Global, bytes: &'b [u8]) -> Result<(Counted<T>, &'b [u8]), Fault> {
        let (count, rest) = u32::take(alloc, bytes)?;
        take_values(alloc, count as usize, rest)
    }

    ghost prefix_free = { list_prefix_free T.encoding T.prefix_free };
}

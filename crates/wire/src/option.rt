ghost use Rattle.std.specs.Prelude.{◌≡◌, List, ℕ, IfSome};
ghost use Rattle.wire.specs.Field.{option_text};
ghost use Rattle.wire.specs.FieldLaws.{option_prefix_free};

use crate::record::Record;
use crate::sink::Sink;
use proto::Fault;
use std::alloc::Global;

impl<T: Record + Drop> Record for Option<T> {
    ghost fits = { λ o. IfSome o T.fits };

    ghost encoding = { option_text T.encoding };

    fn put<S: Sink>(&self, sink: &mut S) -> Result<(), S::Refusal> {
        match self {
            None => sink.put(&[0u8]),
            Some(value) => {
                sink.put(&[1u8])?;
                value.put(sink)
            }
        }
    }

    fn take<'b>(alloc: Global, bytes: &'b [u8]) -> Result<(Option<T>, &'b [u8]), Fault> {
        match bytes {
            [0, rest @ ..] => Ok((None, rest)),
            [1, rest @ ..] => {
                let (value, rest) = T::take(alloc, rest)?;
                Ok((Some(value), rest))
            }
            _ => Err(Fault::BadRecord),
        }
    }

    ghost prefix_free = { option_prefix_free T.encoding T.prefix_free };
}

ghost use Rattle.std.specs.Prelude.{◌≡◌, ◌≤◌, ◌++◌, length, OnOk, ⊤};
ghost use Rattle.std.specs.Int.{w8};
ghost use Rattle.proto.specs.declared.key.TheConstants.{MOST_KEY_BYTES};
ghost use Rattle.wire.specs.Record.{Puts};
ghost use Rattle.wire.specs.Number.{num};
ghost use Rattle.wire.specs.Key.{key_text, keys_text};
ghost use Rattle.wire.specs.KeyLaws.{key_prefix_free, keys_prefix_free};

use crate::counted::{Counted, put_list};
use crate::front::take_bytes;
use crate::record::Record;
use crate::sink::Sink;
use proto::{Fault, Key, Keys, MOST_KEYS, is_key_text};
use std::alloc::Global;

/// Writes a length of one byte, and the bytes.
fn put_short<S: Sink>(bytes: &[u8], sink: &mut S) -> Result<(), S::Refusal>
    requires { length bytes.now ≤ MOST_KEY_BYTES }
    ensures { OnOk result (Puts S.holds (num w8 (length bytes.now) ++ bytes.now) sink.old sink.new) }
{
    (bytes.len() as u8).put(sink)?;
    sink.put(bytes)
}

impl Record for Key {
    ghost fits = { λ _. ⊤ };

    ghost encoding = { key_text };

    fn put<S: Sink>(&self, sink: &mut S) -> Result<(), S::Refusal> {
        put_short(self.as_slice(), sink)
    }

    fn take<'b>(alloc: Global, bytes: &'b [u8]) -> Result<(Key, &'b [u8]), Fault> {
        let (size, rest) = u8::take(alloc, bytes)?;
        let (text, rest) = take_bytes(rest, size as usize)?;
        if !is_key_text(text) {
            return Err(Fault::BadRecord);
        }
        let key = Key::from_slice(alloc, text)?;
        Ok((key, rest))
    }

    ghost prefix_free = { key_prefix_free };
}

impl Record for Keys {
    ghost fits = { λ _. ⊤ };

    ghost encoding = { keys_text };

    fn put<S: Sink>(&self, sink: &mut S) -> Result<(), S::Refusal> {
        put_list(self.as_slice(), sink)
    }

    fn take<'b>(alloc: Global, bytes: &'b [u8]) -> Result<(Keys, &'b [u8]), Fault> {
        let (listed, rest) = Counted::<Key>::take(alloc, bytes)?;
        let keys = listed.into_vec();
        if keys.is_empty() {
            return Err(Fault::BadRecord);
        }
        if MOST_KEYS < keys.len() {
            return Err(Fault::BadRecord);
        }
        Ok((Keys::new(keys), rest))
    }

    ghost prefix_free = { keys_prefix_free };
}

ghost use Rattle.std.specs.Prelude.{◌≡◌, List, ℕ, ⊤};
ghost use Rattle.std.specs.Int.{w8, w16, w32, w64};
ghost use Rattle.wire.specs.Number.{num, num_signed};
ghost use Rattle.wire.specs.NumberLaws.{num_prefix_free, wide8, wide16, wide32, wide64, num_signed_prefix_free};

use crate::record::Record;
use crate::sink::Sink;
use proto::Fault;
use std::alloc::Global;

impl Record for u8 {
    ghost fits = { λ _. ⊤ };

    ghost encoding = { num w8 };

    fn put<S: Sink>(&self, sink: &mut S) -> Result<(), S::Refusal> {
        sink.put(&[*self])
    }

    fn take<'b>(_alloc: Global, bytes: &'b [u8]) -> Result<(u8, &'b [u8]), Fault> {
        match bytes {
            [first, rest @ ..] => Ok((*first, rest)),
            [] => Err(Fault::BadRecord),
        }
    }

    ghost prefix_free = { num_prefix_free w8 wide8 };
}

impl Record for u16 {
    ghost fits = { λ _. ⊤ };

    ghost encoding = { num w16 };

    fn put<S: Sink>(&self, sink: &mut S) -> Result<(), S::Refusal> {
        sink.put(&self.to_be_bytes())
    }

    fn take<'b>(_alloc: Global, bytes: &'b [u8]) -> Result<(u16, &'b [u8]), Fault> {
        match bytes.split_first_chunk::<2>() {
            Some((front, rest)) => Ok((u16::from_be_bytes(*front), rest)),
            None => Err(Fault::BadRecord),
        }
    }

    ghost prefix_free = { num_prefix_free w16 wide16 };
}

impl Record for u32 {
    ghost fits = { λ _. ⊤ };

    ghost encoding = { num w32 };

    fn put<S: Sink>(&self, sink: &mut S) -> Result<(), S::Refusal> {
        sink.put(&self.to_be_bytes())
    }

    fn take<'b>(_alloc: Global, bytes: &'b [u8]) -> Result<(u32, &'b [u8]), Fault> {
        match bytes.split_first_chunk::<4>() {
            Some((front, rest)) => Ok((u32::from_be_bytes(*front), rest)),
            None => Err(Fault::BadRecord),
        }
    }

    ghost prefix_free = { num_prefix_free w32 wide32 };
}

impl Record for u64 {
    ghost fits = { λ _. ⊤ };

    ghost encoding = { num w64 };

    fn put<S: Sink>(&self, sink: &mut S) -> Result<(), S::Refusal> {
        sink.put(&self.to_be_bytes())
    }

    fn take<'b>(_alloc: Global, bytes: &'b [u8]) -> Result<(u64, &'b [u8]), Fault> {
        match bytes.split_first_chunk::<8>() {
            Some((front, rest)) => Ok((u64::from_be_bytes(*front), rest)),
            None => Err(Fault::BadRecord),
        }
    }

    ghost prefix_free = { num_prefix_free w64 wide64 };
}

impl Record for i32 {
    ghost fits = { λ _. ⊤ };

    ghost encoding = { num_signed };

    fn put<S: Sink>(&self, sink: &mut S) -> Result<(), S::Refusal> {
        sink.put(&self.to_be_bytes())
    }

    fn take<'b>(_alloc: Global, bytes: &'b [u8]) -> Result<(i32, &'b [u8]), Fault> {
        match bytes.split_first_chunk::<4>() {
            Some((front, rest)) => Ok((i32::from_be_bytes(*front), rest)),
            None => Err(Fault::BadRecord),
        }
    }

    ghost prefix_free = { num_signed_prefix_free };
}

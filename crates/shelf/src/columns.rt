//! What is in the columns of a row.

ghost use Rattle.std.specs.Prelude.{◌≡◌, pos, IfOk, IfErr, OnOk};
ghost use Rattle.sqlite_value.specs.Order.{column};
ghost use Rattle.sqlite_value.specs.Value.{owned};
ghost use Rattle.sqlite_value.specs.declared.value.Value.TheVariants as sql;
ghost use Rattle.item_rows.specs.Row.{number_column};

use proto::Fault;
use sqlite_value::row::Row;
use sqlite_value::value::{Bytes, ValueRef};
use std::alloc::Global;

/// A number of 64 bits.
pub fn number_in(row: &Row, at: usize) -> Result<u64, Fault>
    ensures ok { IfOk result (λ number. column row.now at ≡ number_column number) }
    ensures only { IfErr result (λ fault. fault ≡ Fault.BadRecord) }
{
    match row.get(at) {
        ValueRef::Int(number) => Ok(number.cast_unsigned()),
        _ => Err(Fault::BadRecord),
    }
}

/// A number of 32 bits.
pub fn small_in(row: &Row, at: usize) -> Result<u32, Fault>
    ensures ok { IfOk result (λ number. column row.now at ≡ sql.Int (pos number)) }
    ensures only { IfErr result (λ fault. fault ≡ Fault.BadRecord) }
{
    match row.get(at) {
        ValueRef::Int(number) if 0 <= number && number < 1 << 32 => Ok(number as u32),
        _ => Err(Fault::BadRecord),
    }
}

/// Bytes. The errors are BadRecord and NoMemory.
pub fn bytes_in(alloc: Global, row: &Row, at: usize) -> Result<Bytes, Fault>
    ensures { IfOk result (λ bytes. column row.now at ≡ sql.Blob bytes) }
{
    match row.get(at) {
        ValueRef::Blob(bytes) => Ok(Bytes::from_slice(alloc, bytes)?),
        _ => Err(Fault::BadRecord),
    }
}

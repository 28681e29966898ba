//! What a file says of the process that wrote it.

ghost use Rattle.std.specs.Prelude.{◌≡◌, ◌∷◌, [], pos, IfOk};
ghost use Rattle.sqlite_value.specs.declared.value.Value.TheVariants as sql;
ghost use Rattle.item_rows.specs.Row.{number_column};
ghost use Rattle.shelf.specs.Rows.{process_row, process_rows};

use crate::columns::{bytes_in, number_in, small_in};
use folders::SaveStamp;
use proto::Fault;
use sqlite_value::row::Row;
use sqlite_value::value::{Bytes, ValueRef};
use std::alloc::{AllocError, Global};

/// What a file says of the process that wrote it.
pub struct SavedProcess {
    /// When it was saved.
    pub stamp: SaveStamp,
    /// Which data it is: a copy of another site's data is refused.
    pub site: Bytes,
    /// Which of the folders this is.
    pub folder: u32,
    /// How many folders there are.
    pub folders: u32,
    /// All of the process but items and long replies.
    pub text: Bytes,
}

impl Drop for SavedProcess {
    fn drop(self) {
        let SavedProcess {
            stamp: _,
            site: _,
            folder: _,
            folders: _,
            text: _,
        } = self;
    }
}

/// Its row. The only error is a failed allocation.
pub fn process_row(alloc: Global, process: &SavedProcess) -> Result<Row, AllocError>
    ensures { IfOk result (λ row. row ≡ process_row process.now) }
{
    let mut row = Row::new(alloc);
    row.push(ValueRef::Int(1))?;
    row.push(ValueRef::Null)?;
    row.push(ValueRef::Int(process.stamp.start.cast_signed()))?;
    row.push(ValueRef::Int(process.stamp.save.cast_signed()))?;
    row.push(ValueRef::Blob(process.site.as_slice()))?;
    row.push(ValueRef::Int(process.folder as i64))?;
    row.push(ValueRef::Int(process.folders as i64))?;
    row.push(ValueRef::Blob(process.text.as_slice()))?;
    Ok(row)
}

/// What its columns have.
fn columns_of(alloc: Global, row: &Row) -> Result<SavedProcess, Fault> {
    Ok(SavedProcess {
        stamp: SaveStamp {
            start: number_in(row, 2)?,
            save: number_in(row, 3)?,
        },
        site: bytes_in(alloc, row, 4)?,
        folder: small_in(row, 5)?,
        folders: small_in(row, 6)?,
        text: bytes_in(alloc, row, 7)?,
    })
}

/// What a row says, as `process_row` made it. Anything else is a BadRecord. The only other error is a failed allocation,
/// NoMemory.
fn process_of(alloc: Global, row: &Row) -> Result<SavedProcess, Fault>
    ensures { IfOk result (λ process. row.now ≡ process_row process) }
{
    let process = columns_of(alloc, row)?;
    if process_row(alloc, &process)?.is_same(row) {
        Ok(process)
    } else {
        Err(Fault::BadRecord)
    }
}

/// What the rows of the table say: there is one, or none. The errors are those of `process_of`.
pub fn process_in(alloc: Global, rows: &[Row]) -> Result<Option<SavedProcess>, Fault>
    ensures { IfOk result (λ process. rows.now ≡ process_rows process) }
{
    match rows {
        [] => Ok(None),
        [row] => Ok(Some(process_of(alloc, row)?)),
        _ => Err(Fault::BadRecord),
    }
}

//! Replies that are too long to be written in each save.

ghost use Rattle.std.specs.Prelude.{◌≡◌, ◌∷◌, [], pos, map, IfOk};
ghost use Rattle.item_rows.specs.Row.{number_column};
ghost use Rattle.shelf.specs.Rows.{reply_row};

use crate::columns::{bytes_in, number_in, small_in};
use proto::Fault;
use sqlite_value::row::Row;
use sqlite_value::value::{Bytes, ValueRef};
use std::alloc::{AllocError, Global};

/// The last reply of a client, which has a row of its own.
pub struct LongReply {
    pub client: u16,
    /// The number of the request.
    pub number: u64,
    pub text: Bytes,
}

impl Drop for LongReply {
    fn drop(self) {
        let LongReply {
            client: _,
            number: _,
            text: _,
        } = self;
    }
}

/// What becomes of the long reply of a client.
#[derive(Drop)]
pub enum ReplyChange {
    /// This one replaces the one before.
    Kept(LongReply),
    /// It has none now.
    Gone(u16),
}

/// Its row. The only error is a failed allocation.
pub fn reply_row(alloc: Global, reply: &LongReply) -> Result<Row, AllocError>
    ensures { IfOk result (λ row. row ≡ reply_row reply.now) }
{
    let mut row = Row::new(alloc);
    row.push(ValueRef::Int(reply.client as i64))?;
    row.push(ValueRef::Null)?;
    row.push(ValueRef::Int(reply.number.cast_signed()))?;
    row.push(ValueRef::Blob(reply.text.as_slice()))?;
    Ok(row)
}

/// What its columns have.
fn columns_of(alloc: Global, row: &Row) -> Result<LongReply, Fault> {
    let client = u16::try_from(small_in(row, 0)?).map_err(|_| Fault::BadRecord)?;
    Ok(LongReply {
        client,
        number: number_in(row, 2)?,
        text: bytes_in(alloc, row, 3)?,
    })
}

/// The reply of a row, as `reply_row` made it. Anything else is a BadRecord. The only other error is a failed
/// allocation, NoMemory.
fn reply_of(alloc: Global, row: &Row) -> Result<LongReply, Fault>
    ensures { IfOk result (λ reply. row.now ≡ reply_row reply) }
{
    let reply = columns_of(alloc, row)?;
    if reply_row(alloc, &reply)?.is_same(row) {
        Ok(reply)
    } else {
        Err(Fault::BadRecord)
    }
}

/// The replies of the rows of the table, in the order of clients. The errors are those of `reply_of`.
pub fn replies_in(alloc: Global, rows: &[Row]) -> Result<Vec<LongReply>, Fault>
    ensures { IfOk result (λ replies. rows.now ≡ map reply_row replies.items) }
{
    let mut replies = Vec::new(alloc);
    for row in rows {
        replies.push(reply_of(alloc, row)?)?;
    }
    Ok(replies)
}

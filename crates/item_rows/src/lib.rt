//! Items as rows of a file, and rows that follow changes late.
//!
//! It is built on `pages` (the page of a key), `items` and `proto`, on `wire` (the text of several items), and on the kit's
//! `sqlite_value` (rows). The layer above uses `row_of` and `item_of`, and `items_row` and `items_of` for all items of
//! one row: what is read of a row is what was written to it, and nothing else is read. A file of a record has a row for
//! each item, and over them the changes of the last saves, in order. `changes_since` finds what became of rows between
//! two snapshots. A save adds its changes, writes some rows anew, and removes the oldest changes: `rows_may_follow_late`
//! says when such a file still says what it should.
#![tactic(auto)]

mod changed;
mod laws;
mod row;
mod row_items;
mod row_number;

pub use changed::changes_since;
pub use laws::rows_may_follow_late;
pub use row::{item_of, row_of};
pub use row_items::{RowItems, fits_row, items_of, items_row};
pub use row_number::row_number_of;

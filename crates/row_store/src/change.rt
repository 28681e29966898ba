use sqlite_value::row::Row;

/// What becomes of one row of a table. Tables have the numbers 0, 1, ..
#[derive(Drop)]
pub enum RowChange {
    /// The row is put in its place, or replaces the row of its number. Its first value is its number.
    Put { table: u32, row: Row },
    /// The row of this number is removed, if there is one.
    Remove { table: u32, number: i64 },
}

//! The tables of a file.

use crate::fault::DataFault;
use crate::opening::FolderStore;
use sqlite::{Alter, Connection, Row};
use sqlite_trees::store::Store;
use sqlite_value::value::ValueRef;

/// The name of each table and what makes it, in the order of their numbers. No table has a second index: it would be
/// tested at each open.
const TABLES: [(&str, &str); 5] = [
    (
        "item",
        "CREATE TABLE item (place INTEGER PRIMARY KEY, key BLOB NOT NULL, flags INTEGER NOT NULL, due INTEGER, stamp INTEGER NOT NULL, data BLOB NOT NULL, more BLOB) STRICT",
    ),
    (
        "change",
        "CREATE TABLE change (turn INTEGER PRIMARY KEY, items BLOB NOT NULL) STRICT",
    ),
    (
        "process",
        "CREATE TABLE process (one INTEGER PRIMARY KEY, start INTEGER NOT NULL, turn INTEGER NOT NULL, site BLOB NOT NULL, folder INTEGER NOT NULL, folders INTEGER NOT NULL, text BLOB NOT NULL) STRICT",
    ),
    (
        "reply",
        "CREATE TABLE reply (client INTEGER PRIMARY KEY, number INTEGER NOT NULL, text BLOB NOT NULL) STRICT",
    ),
    (
        "parked",
        "CREATE TABLE parked (place INTEGER PRIMARY KEY, text BLOB NOT NULL) STRICT",
    ),
];

/// What is in a file, in the order in which it was made.
const LIST: &str = "SELECT name, sql FROM sqlite_schema ORDER BY rowid";

/// The version of the tables. SQLite keeps it as the user version of the file.
const VERSION: u32 = 1;

fn is_text(row: &Row, at: usize, text: &str) -> bool {
    match row.get_ref(at) {
        Ok(ValueRef::Text(bytes)) => bytes == text.as_bytes(),
        _ => false,
    }
}

/// Whether these are the tables.
fn are_tables(listed: &[Row]) -> bool {
    for (number, (name, sql)) in TABLES.iter().enumerate() {
        match listed.get(number) {
            Some(row) if is_text(row, 0, name) && is_text(row, 1, sql) => {}
            _ => return false,
        }
    }
    listed.len() == TABLES.len()
}

/// Makes the tables, all or none of them.
fn make_tables(connection: &mut Connection<FolderStore>) -> Result<(), sqlite::Error> {
    connection.execute_batch("BEGIN")?;
    for (_, sql) in TABLES {
        connection.execute_batch(sql)?;
    }
    connection.execute_batch("COMMIT")
}

/// Makes the tables if there are none and new ones are wanted. Whether they are there then; if not, other ones are.
pub fn has_tables(
    connection: &mut Connection<FolderStore>,
    is_new: bool,
) -> Result<bool, DataFault> {
    let listed = connection.query_all(LIST, &[])?;
    if !listed.is_empty() {
        return Ok(are_tables(&listed));
    }
    if !is_new {
        return Err(DataFault::NoData);
    }
    make_tables(connection)?;
    Ok(true)
}

/// Refuses a store of a later version, and notes the version in one that has none yet.
pub fn set_version<S: Alter>(store: &mut S) -> Result<(), DataFault> {
    match store.version() {
        VERSION => Ok(()),
        0 => {
            store.set_version(VERSION)?;
            store.commit()?;
            Ok(())
        }
        _ => Err(DataFault::LaterVersion),
    }
}

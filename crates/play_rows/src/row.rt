//! A row: a schedule, and what is to be printed of it in its last lines.

use app::{SHOWN, Untold, play_text};
use std::alloc::{AllocError, Global};

/// What is to be printed: what is behind `#> ` in the lines that begin so.
fn wanted(alloc: Global, row: &str) -> Result<String, AllocError> {
    let mut text = String::new(alloc);
    for line in row.lines() {
        if let Some(shown) = line.strip_prefix("#> ") {
            text.push_str(shown)?;
            text.push('\n')?;
        }
    }
    Ok(text)
}

/// What is printed in place of what is to be printed. None: the row holds.
pub fn difference(alloc: Global, name: &str, row: &str) -> Result<Option<String>, AllocError> {
    let mut input = row.as_bytes();
    let mut out = Vec::new(alloc);
    let mut err = Vec::new(alloc);
    let status = play_text(alloc, name, &mut input, &mut out, &mut err, &mut Untold);
    let wanted = wanted(alloc, row)?;
    if status == SHOWN && err.is_empty() && out.as_slice() == wanted.as_bytes() {
        return Ok(None);
    }
    out.extend_from_slice(&err)?;
    Ok(Some(String::from_utf8_lossy(alloc, &out)?))
}

//! Texts of letters.

use base::Text;
use std::alloc::Global;

/// A text of so many bytes, which rise from this one on.
pub fn text_of(alloc: Global, first: u8, size: usize) -> Option<Text> {
    let mut bytes = Vec::with_capacity(alloc, size).ok()?;
    for i in 0..size {
        bytes.push(first.wrapping_add((i % 256) as u8)).ok()?;
    }
    let mut text = Text::new(alloc);
    text.put(bytes.as_slice()).ok()?;
    Some(text)
}

/// Whether the text has just these bytes.
pub fn is_text(alloc: Global, text: &Text, bytes: &[u8]) -> Option<bool> {
    let joined = text.joined(alloc).ok()?;
    Some(joined.as_slice() == bytes)
}

//! The text of a service: that of its process, and the number of the next connection.

ghost use Rattle.std.specs.Prelude.{◌≡◌, IfOk};
ghost use Rattle.process_text.specs.Text.{IsProcessText};
ghost use Rattle.data_folder.specs.Text.{service_text};

use process_text::ProcessText;
use proto::Fault;
use std::alloc::{AllocError, Global};
use wire::{Record, read};

/// The text of a process, and 8 bytes with the number of the next connection. The only error is a failed allocation.
pub fn text_of(alloc: Global, process: &ProcessText, next: u64) -> Result<Vec<u8>, AllocError>
    requires { IsProcessText process.now }
    ensures { IfOk result (λ text. text.items ≡ service_text process.now next) }
{
    let mut text = Vec::new(alloc);
    process.put(&mut text)?;
    next.put(&mut text)?;
    Ok(text)
}

/// The process and the number of such a text. `BadRecord`: it is none. `NoMemory` is the only other error.
pub fn take_text(alloc: Global, text: &[u8]) -> Result<(ProcessText, u64), Fault>
    ensures process { IfOk result (λ read. IsProcessText read.0) }
    ensures is { IfOk result (λ read. text.now ≡ service_text read.0 read.1) }
{
    read::<(ProcessText, u64)>(alloc, text)
}

//! Letters that are sent join all others.

ghost use Rattle.std.specs.Prelude.{◌≡◌, ◌++◌, OnOk};

use decrees::Letter;
use exec_lines::Body;
use std::alloc::AllocError;

/// The letters of a client or an executor join these.
pub fn send(sent: Vec<Letter<Body>>, letters: &mut Vec<Letter<Body>>) -> Result<(), AllocError>
    ensures { OnOk result (letters.new.items ≡ letters.old.items ++ sent.items) }
{
    for letter in sent {
        letters.push(letter)?;
    }
    Ok(())
}

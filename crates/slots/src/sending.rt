//! What verifiers send, among all letters.

ghost use Rattle.std.specs.Prelude.{◌≡◌, ◌++◌, OnOk, map};
ghost use Rattle.slots.specs.Sending.{as_sent};

use decrees::{Ballot, Letter};
use exec_lines::Body;
use std::alloc::AllocError;

/// The ballots of a verifier join these.
pub fn send_ballots(
    sent: &[Letter<Ballot>],
    letters: &mut Vec<Letter<Body>>,
) -> Result<(), AllocError>
    ensures { OnOk result (letters.new.items ≡ letters.old.items ++ map as_sent sent.now) }
{
    for letter in sent {
        letters.push(Letter {
            from: letter.from,
            to: letter.to,
            body: Body::Ballot(letter.body),
        })?;
    }
    Ok(())
}

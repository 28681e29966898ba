//! Letters to each of the nodes that a line names.

ghost use Rattle.std.specs.Prelude.{◌≡◌, ◌<◌, ◌+◌, ◌^◌, ◌++◌, length, [], ◌∷◌, IfOk, OnOk};
ghost use Rattle.verifier.specs.State.{letter as letter_of, to_verifiers as all_verifiers, to_others as all_others, to_executors as all_executors, decided_from};

use decrees::{Ballot, Decree, Letter, Node};
use std::alloc::{AllocError, Global};

fn letter(id: u8, to: Node, body: Ballot) -> Letter<Ballot>
    ensures { result ≡ letter_of id to body }
{
    Letter {
        from: Node::Verifier(id),
        to,
        body,
    }
}

/// One letter, in a vector.
pub fn one(alloc: Global, id: u8, to: Node, body: Ballot) -> Result<Vec<Letter<Ballot>>, AllocError>
    ensures { IfOk result (λ letters. letters.items ≡ letter_of id to body ∷ []) }
{
    let mut letters = Vec::new(alloc);
    letters.push(letter(id, to, body))?;
    Ok(letters)
}

/// To all verifiers, itself too.
pub fn to_verifiers(
    alloc: Global,
    u: u8,
    id: u8,
    body: Ballot,
) -> Result<Vec<Letter<Ballot>>, AllocError>
    requires { u < 4 }
    ensures { IfOk result (λ letters. letters.items ≡ all_verifiers u id body) }
{
    let mut letters = Vec::new(alloc);
    for to in 0..2 * u + 1 {
        letters.push(letter(id, Node::Verifier(to), body))?;
    }
    Ok(letters)
}

/// To all other verifiers.
pub fn to_others(
    alloc: Global,
    u: u8,
    id: u8,
    body: Ballot,
) -> Result<Vec<Letter<Ballot>>, AllocError>
    requires { u < 4 }
    ensures { IfOk result (λ letters. letters.items ≡ all_others u id body) }
{
    let mut letters = Vec::new(alloc);
    for to in 0..2 * u + 1 {
        if to != id {
            letters.push(letter(id, Node::Verifier(to), body))?;
        }
    }
    Ok(letters)
}

/// To all executors.
pub fn to_executors(
    alloc: Global,
    u: u8,
    id: u8,
    body: Ballot,
) -> Result<Vec<Letter<Ballot>>, AllocError>
    requires { u < 4 }
    ensures { IfOk result (λ letters. letters.items ≡ all_executors u id body) }
{
    let mut letters = Vec::new(alloc);
    for to in 0..2 * u + 1 {
        letters.push(letter(id, Node::Executor(to), body))?;
    }
    Ok(letters)
}

/// To all other verifiers and then all executors.
pub fn to_others_and_executors(
    alloc: Global,
    u: u8,
    id: u8,
    body: Ballot,
) -> Result<Vec<Letter<Ballot>>, AllocError>
    requires { u < 4 }
    ensures { IfOk result (λ letters. letters.items ≡ all_others u id body ++ all_executors u id body) }
{
    let mut letters = to_others(alloc, u, id, body)?;
    let more = to_executors(alloc, u, id, body)?;
    letters.extend_from_slice(&more)?;
    Ok(letters)
}

/// The decrees, of the places from this one on.
pub fn decided(
    alloc: Global,
    id: u8,
    to: Node,
    from: u64,
    decrees: &[Decree],
) -> Result<Vec<Letter<Ballot>>, AllocError>
    requires { from + length decrees.now < 2 ^ 64 }
    ensures { IfOk result (λ letters. letters.items ≡ decided_from id to from decrees.now) }
{
    let mut letters = Vec::new(alloc);
    let mut place = from;
    for decree in decrees {
        letters.push(letter(
            id,
            to,
            Ballot::Decided {
                place,
                decree: *decree,
            },
        ))?;
        place += 1;
    }
    Ok(letters)
}

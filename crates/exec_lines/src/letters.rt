//! Letters to each of the nodes that a line names.

ghost use Rattle.std.specs.Prelude.{◌≡◌, ◌<◌, ◌==◌, ◌++◌, [], ◌∷◌, flat_map, IfOk, OnOk, if◌then◌else◌};
ghost use Rattle.decrees.specs.declared.node.Node.TheVariants.{Executor};
ghost use Rattle.exec_lines.specs.declared.body.Body.TheVariants as body;
ghost use Rattle.exec_lines.specs.State.{executor_letter, to_all_verifiers, token_told, to_clients as answers_to, to_other_executors};

use crate::body::Body;
use batches::Batch;
use decrees::{Ballot, Letter, Node};
use executor::{Answered, Tentative};
use std::alloc::{AllocError, Global};
use transfer::Need;

fn letter(id: u8, to: Node, body: Body) -> Letter<Body>
    ensures { result ≡ executor_letter id to body }
{
    Letter {
        from: Node::Executor(id),
        to,
        body,
    }
}

/// One letter, in a vector.
pub fn one(alloc: Global, id: u8, to: Node, body: Body) -> Result<Vec<Letter<Body>>, AllocError>
    ensures { IfOk result (λ letters. letters.items ≡ executor_letter id to body ∷ []) }
{
    let mut letters = Vec::new(alloc);
    letters.push(letter(id, to, body))?;
    Ok(letters)
}

/// To all verifiers, after these letters.
pub fn to_verifiers(
    u: u8,
    id: u8,
    ballot: Ballot,
    letters: &mut Vec<Letter<Body>>,
) -> Result<(), AllocError>
    requires { u < 4 }
    ensures { OnOk result (letters.new.items ≡ letters.old.items ++ to_all_verifiers u id ballot) }
{
    for to in 0..2 * u + 1 {
        letters.push(letter(id, Node::Verifier(to), Body::Ballot(ballot)))?;
    }
    Ok(())
}

/// The token of the tentative state to all verifiers, after these letters.
pub fn tell(
    u: u8,
    id: u8,
    tentative: &Tentative,
    letters: &mut Vec<Letter<Body>>,
) -> Result<(), AllocError>
    requires { u < 4 }
    ensures { OnOk result (letters.new.items ≡ letters.old.items ++ token_told u id tentative.now) }
{
    let ballot = Ballot::Token {
        epoch: tentative.batch().epoch,
        n: tentative.number(),
        previous: tentative.before().token(),
        token: tentative.token(),
    };
    to_verifiers(u, id, ballot, letters)
}

/// The token of each of the tentative states to all verifiers.
pub fn tell_all(
    alloc: Global,
    u: u8,
    id: u8,
    members: &[Tentative],
) -> Result<Vec<Letter<Body>>, AllocError>
    requires { u < 4 }
    ensures { IfOk result (λ letters. letters.items ≡ flat_map (token_told u id) members.now) }
{
    let mut letters = Vec::new(alloc);
    for member in members {
        tell(u, id, member, &mut letters)?;
    }
    Ok(letters)
}

/// The replies, each to its client.
pub fn to_clients(
    alloc: Global,
    id: u8,
    replies: Vec<Answered>,
) -> Result<Vec<Letter<Body>>, AllocError>
    ensures { IfOk result (λ letters. letters.items ≡ answers_to id replies.items) }
{
    let mut letters = Vec::with_capacity(alloc, replies.len())?;
    for answered in replies {
        let Answered {
            place: _,
            client,
            number,
            reply,
        } = answered;
        letters.push(letter(id, Node::Client(client), Body::Reply { number, reply }))?;
    }
    Ok(letters)
}

/// The need to this executor after these letters, if it is another one.
fn push_need(id: u8, to: u8, need: &Need, letters: &mut Vec<Letter<Body>>) -> Result<(), AllocError>
    ensures { OnOk result (letters.new.items ≡ letters.old.items ++ (if to == id then [] else executor_letter id (Executor to) (body.Need need.now) ∷ [])) }
{
    if to == id {
        return Ok(());
    }
    letters.push(letter(id, Node::Executor(to), Body::Need(need.clone()?)))?;
    Ok(())
}

/// The need to all other executors, after these letters.
pub fn need_to_others(
    u: u8,
    id: u8,
    need: &Need,
    letters: &mut Vec<Letter<Body>>,
) -> Result<(), AllocError>
    requires { u < 4 }
    ensures { OnOk result (letters.new.items ≡ letters.old.items ++ to_other_executors u id (body.Need need.now)) }
{
    for to in 0..2 * u + 1 {
        push_need(id, to, need, letters)?;
    }
    Ok(())
}

/// The batch to all other executors. They share the data of its blocks.
pub fn order_to_others(
    alloc: Global,
    u: u8,
    id: u8,
    batch: &Batch,
) -> Result<Vec<Letter<Body>>, AllocError>
    requires { u < 4 }
    ensures { IfOk result (λ letters. letters.items ≡ to_other_executors u id (body.Order batch.now)) }
{
    let mut letters = Vec::new(alloc);
    for to in 0..2 * u + 1 {
        if to != id {
            letters.push(letter(id, Node::Executor(to), Body::Order(batch.clone()?)))?;
        }
    }
    Ok(letters)
}

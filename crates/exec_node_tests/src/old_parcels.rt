//! An executor that goes on from a record of version 1 hands its committed state to another one of the
//! three that has nothing: the state keeps its old token there too.

use crate::old_bytes::{COMMITTED, STOPPED, TOKEN, Written, spelled};
use crate::records::keeper_of;
use crate::tests::{Executor, Kept, is_stored, record, request};
use decrees::{Ballot, Decree, Letter, Node};
use exec_lines::{Body, Input};
use exec_node::ExecNode;
use keeper::MemKeeper;
use proto::Fault;
use std::alloc::Global;
use std::test::Fail;
use token::Token;

type Letters = Vec<Letter<Body>>;

/// The executor that has the state.
const HAS: u8 = 0;

/// The one that needs it.
const NEEDS: u8 = 1;

/// One of three executors, new or with the record of this keeper.
fn opened(alloc: Global, id: u8, keeper: Kept) -> Result<Executor, Fault> {
    if id > NEEDS {
        return Err(Fault::NotOpen);
    }
    match ExecNode::open(alloc, 1, id, keeper) {
        Ok((executor, _)) => Ok(executor),
        Err((fault, _)) => Err(fault),
    }
}

/// It has the old record of one that was stopped when its batch 1 was complete.
fn one_that_has(alloc: Global) -> Result<Executor, Fault> {
    let of = Written {
        version: 1,
        u: 1,
        id: HAS,
    };
    let old = spelled(alloc, of, STOPPED)?;
    opened(alloc, HAS, keeper_of(alloc, old.as_slice())?)
}

/// Executor `id` gets a letter.
fn gets(
    alloc: Global,
    id: u8,
    executor: &mut Executor,
    from: Node,
    body: Body,
) -> Result<Letters, Fault> {
    let to = Node::Executor(id);
    executor.handle(alloc, Input::Letter(Letter { from, to, body }))
}

/// It hears that the old state is committed.
fn hears_of_the_commit(alloc: Global, id: u8, executor: &mut Executor) -> Result<Letters, Fault> {
    let decree = Decree::Commit {
        n: 1,
        token: Token(TOKEN),
    };
    let ballot = Ballot::Decided { place: 1, decree };
    gets(alloc, id, executor, Node::Verifier(0), Body::Ballot(ballot))
}

/// What the last letter says, which goes to this executor.
fn last_body(letters: Letters, to: u8) -> Result<Body, Fault> {
    let mut letters = letters;
    match letters.pop() {
        Some(letter) if letter.to == Node::Executor(to) => Ok(letter.body),
        _ => Err(Fault::NotOpen),
    }
}

/// Whether the one that needed the state answers client 1 of it.
fn answers(alloc: Global, needs: &mut Executor) -> Result<bool, Fault> {
    let want = Body::Want(request(alloc, 1)?);
    let letters = gets(alloc, NEEDS, needs, Node::Client(1), want)?;
    Ok(is_stored(letters.as_slice()))
}

/// Whether the one that needs the state takes the parcel of the one that has it, and then has its
/// record and answers of it.
fn is_handed_over(alloc: Global, has: &mut Executor, needs: &mut Executor) -> Result<bool, Fault> {
    drop(hears_of_the_commit(alloc, HAS, has)?);
    let need = last_body(hears_of_the_commit(alloc, NEEDS, needs)?, 2)?;
    let letters = gets(alloc, HAS, has, Node::Executor(NEEDS), need)?;
    let parcel = last_body(letters, NEEDS)?;
    let taken = gets(alloc, NEEDS, needs, Node::Executor(HAS), parcel)?;
    let of = Written {
        version: 2,
        u: 1,
        id: NEEDS,
    };
    let expected = spelled(alloc, of, COMMITTED)?;
    let keeper: &Kept = needs.keeper();
    let kept = record(alloc, keeper)?;
    Ok(taken.is_empty() && kept == expected && answers(alloc, needs)?)
}

fn is_handed_over_by(alloc: Global, has: &mut Executor) -> Result<bool, Fault> {
    let mut needs = opened(alloc, NEEDS, MemKeeper::new())?;
    let handed = is_handed_over(alloc, has, &mut needs);
    drop(needs.end());
    handed
}

#[test]
fn a_state_of_the_old_form_is_handed_over(rt: HostRuntime) -> Result<(), Fail> {
    let mut has = one_that_has(rt.alloc())?;
    let handed = is_handed_over_by(rt.alloc(), &mut has);
    drop(has.end());
    assert!(rt; handed?);
    Ok(())
}

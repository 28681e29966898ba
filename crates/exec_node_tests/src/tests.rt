use crate::old_records::ASK;
use batches::Batch;
use decrees::{Ballot, Decree, Letter, Node};
use exec_lines::{Body, ExecutorRecord, Input};
use exec_node::ExecNode;
use executor::{Base, Ended, Tentative, Work};
use keeper::{Keeper, MemKeeper, ToText};
use proto::{Fault, Reply};
use sessions::Request;
use std::alloc::Global;
use std::test::Fail;
use token::Token;
use wire::read;

/// An executor's keeper.
pub type Kept = MemKeeper<ExecutorRecord>;

pub type Executor = ExecNode<Kept>;

/// The only executor of its cell, new or with the record of this keeper, and its first letters.
pub fn opened(alloc: Global, keeper: Kept) -> Result<(Executor, Vec<Letter<Body>>), Fault> {
    match ExecNode::open(alloc, 0, 0, keeper) {
        Ok(both) => Ok(both),
        Err((fault, _)) => Err(fault),
    }
}

/// The record that is kept; if there is none, nothing.
pub fn record(alloc: Global, keeper: &Kept) -> Result<Vec<u8>, Fault> {
    match keeper.load() {
        None => Ok(Vec::new(alloc)),
        Some(found) => Ok(found.to_text(alloc)?.joined(alloc)?),
    }
}

/// The keeper of an executor that was opened for the first time, and ended.
pub fn first_keeper(alloc: Global) -> Result<Kept, Fault> {
    let (executor, _) = opened(alloc, MemKeeper::new())?;
    Ok(executor.end())
}

/// Whether the letters say just this to the verifier.
pub fn says(letters: &[Letter<Body>], said: &[Ballot]) -> bool {
    letters.len() == said.len()
        && letters.iter().zip(said).all(|(letter, ballot)| {
            letter.to == Node::Verifier(0)
                && matches!(&letter.body, Body::Ballot(own) if *own == *ballot)
        })
}

/// Whether an executor is up that opens with the keeper's record, says this, and ends with this record.
pub fn reopens(alloc: Global, keeper: Kept, said: &[Ballot], ends: &[u8]) -> Result<bool, Fault> {
    let (executor, letters) = opened(alloc, keeper)?;
    let is_well = executor.is_up() && says(letters.as_slice(), said);
    drop(letters);
    Ok(ends_with(alloc, executor, ends)? && is_well)
}

fn ends_with(alloc: Global, executor: Executor, ends: &[u8]) -> Result<bool, Fault> {
    let kept = record(alloc, &executor.end())?;
    Ok(kept.as_slice() == ends)
}

fn first_record(alloc: Global) -> Result<Vec<u8>, Fault> {
    let keeper = first_keeper(alloc)?;
    record(alloc, &keeper)
}

/// Whether a new executor has a record, and goes on from it.
fn new_one_goes_on(alloc: Global) -> Result<bool, Fault> {
    let before = first_record(alloc)?;
    let is_new = before.len() == 1471 && matches!(before.as_slice(), [2, 0x45, 0, 0, ..]);
    Ok(is_new && reopens(alloc, first_keeper(alloc)?, &[ASK], before.as_slice())?)
}

#[test]
fn a_new_executor_has_a_record_and_goes_on_from_it(rt: HostRuntime) -> Result<(), Fail> {
    assert_eq!(rt; new_one_goes_on(rt.alloc()), Ok(true));
    Ok(())
}

/// Why the first executor of three does not open with the record of the only one, if so.
fn refused(alloc: Global) -> Result<Option<Fault>, Fault> {
    match ExecNode::open(alloc, 1, 0, first_keeper(alloc)?) {
        Ok((executor, _)) => {
            drop(executor.end());
            Ok(None)
        }
        Err((fault, _)) => Ok(Some(fault)),
    }
}

#[test]
fn the_record_of_another_is_refused(rt: HostRuntime) -> Result<(), Fail> {
    assert_eq!(rt; refused(rt.alloc()), Ok(Some(Fault::BadRecord)));
    Ok(())
}

/// The request of client 1 of this number: `set a 5`.
pub fn request(alloc: Global, number: u8) -> Result<Request, Fault> {
    read::<Request>(
        alloc,
        &[
            0, 1, 0, 0, 0, 0, 0, 0, 0, number, 2, 1, b'a', 0, 0, 0, 0, 0, 0, 0, 0, 0, 0, 0, 1, b'5',
        ],
    )
}

pub fn receive(
    alloc: Global,
    executor: &mut Executor,
    from: Node,
    body: Body,
) -> Result<Vec<Letter<Body>>, Fault> {
    let to = Node::Executor(0);
    executor.handle(alloc, Input::Letter(Letter { from, to, body }))
}

/// The number and token that the only letter tells the verifier.
fn told(letters: &[Letter<Body>]) -> Option<(u64, Token)> {
    match &letters.first()?.body {
        Body::Ballot(Ballot::Token { n, token, .. }) => Some((*n, *token)),
        _ => None,
    }
}

/// Whether client 1 is answered that its value is stored.
pub fn is_stored(letters: &[Letter<Body>]) -> bool {
    match letters {
        [letter] => {
            letter.to == Node::Client(1)
                && matches!(
                    &letter.body,
                    Body::Reply {
                        number: 1,
                        reply: Reply::Stored
                    }
                )
        }
        _ => false,
    }
}

/// Makes a batch of the request that waits, and executes it. It gives the letters at its end.
pub fn execute(alloc: Global, executor: &mut Executor) -> Result<Vec<Letter<Body>>, Fault> {
    drop(executor.handle(alloc, Input::Cut(1000))?);
    for _ in 0..4u8 {
        drop(executor.handle(alloc, Input::Step(0))?);
    }
    executor.handle(alloc, Input::Finish)
}

/// Client 1 asks its first request, of which nothing is said yet.
fn wants(alloc: Global, executor: &mut Executor) -> Result<bool, Fault> {
    let body = Body::Want(request(alloc, 1)?);
    Ok(receive(alloc, executor, Node::Client(1), body)?.is_empty())
}

/// Whether a request waits, is executed, and is answered after its state was decided.
fn serves(alloc: Global, executor: &mut Executor) -> Result<bool, Fault> {
    let waits = wants(alloc, executor)?;
    let Some((1, token)) = told(execute(alloc, executor)?.as_slice()) else {
        return Ok(false);
    };
    let ballot = Ballot::Decided {
        place: 1,
        decree: Decree::Commit { n: 1, token },
    };
    let answers = receive(alloc, executor, Node::Verifier(0), Body::Ballot(ballot))?;
    Ok(waits && is_stored(answers.as_slice()))
}

/// Whether a save that fails stops it: no verifier gets the token of the state that was executed, and its first record
/// stays.
fn stops(alloc: Global, executor: &mut Executor) -> Result<bool, Fault> {
    wants(alloc, executor)?;
    executor.keeper().fail_next();
    let failed = matches!(execute(alloc, executor), Err(Fault::Stopped));
    let later = matches!(
        executor.handle(alloc, Input::Cut(1001)),
        Err(Fault::Stopped)
    );
    let keeper: &Kept = executor.keeper();
    Ok(failed && later && record(alloc, keeper)?.len() == 1471 && !executor.is_up())
}

/// Batch 1 of epoch 1, of that request.
pub const FIRST_BATCH: [u8; 51] = [
    4, 0, 0, 0, 0, 0, 0, 0, 1, 0, 0, 0, 0, 0, 0, 0, 1, 0, 0, 3, 232, 0, 0, 0, 1, 0, 1, 0, 0, 0, 0,
    0, 0, 0, 1, 2, 1, b'a', 0, 0, 0, 0, 0, 0, 0, 0, 0, 0, 0, 1, b'5',
];

fn make_steps(alloc: Global, work: &mut Work) -> Result<(), Fault> {
    for _ in 0..4u8 {
        drop(work.step(alloc, 0)?);
    }
    Ok(())
}

/// What the last group ends in.
fn done_of(ended: Ended) -> Result<Tentative, Fault> {
    match ended {
        Ended::Done(tentative) => Ok(tentative),
        Ended::On(_) => Err(Fault::NotOpen),
    }
}

/// What the work makes in its only group.
fn work_to_its_end(alloc: Global, mut work: Work) -> Result<Tentative, Fault> {
    make_steps(alloc, &mut work)?;
    done_of(work.finish(alloc)?)
}

fn made_over(alloc: Global, base: &Base, batch: Batch) -> Result<Tentative, Fault> {
    if batch.n != base.number() + 1 {
        return Err(Fault::BadRecord);
    }
    match Work::begin(alloc, base, batch, false)? {
        Ended::Done(tentative) => Ok(tentative),
        Ended::On(work) => work_to_its_end(alloc, work),
    }
}

/// What the batch makes of the first state.
fn made(alloc: Global) -> Result<Tentative, Fault> {
    let base = Base::first(alloc)?;
    made_over(alloc, &base, read::<Batch>(alloc, &FIRST_BATCH)?)
}

/// Whether a tentative state is refused if nothing is executed, and then taken for its batch.
fn adopts(alloc: Global, executor: &mut Executor) -> Result<bool, Fault> {
    let early = executor.handle(alloc, Input::Adopt(made(alloc)?));
    let refused = matches!(early, Err(Fault::Unfit)) && executor.is_up();
    wants(alloc, executor)?;
    drop(executor.handle(alloc, Input::Cut(1000))?);
    let letters = executor.handle(alloc, Input::Adopt(made(alloc)?))?;
    Ok(refused && matches!(told(letters.as_slice()), Some((1, _))))
}

#[derive(Clone, Copy)]
enum Row {
    Serves,
    Stops,
    Adopts,
}

/// Whether a new executor does so.
fn does(alloc: Global, row: Row) -> Result<bool, Fault> {
    let (mut executor, _) = opened(alloc, MemKeeper::new())?;
    let does = match row {
        Row::Serves => serves(alloc, &mut executor),
        Row::Stops => stops(alloc, &mut executor),
        Row::Adopts => adopts(alloc, &mut executor),
    };
    drop(executor.end());
    does
}

/// A request is answered when its state is decided, a failed save stops the executor, and it adopts what was made
/// of its work.
#[test]
fn an_executor_serves_and_stops_and_adopts(rt: HostRuntime) -> Result<(), Fail> {
    assert_eq!(rt; does(rt.alloc(), Row::Serves), Ok(true));
    assert_eq!(rt; does(rt.alloc(), Row::Stops), Ok(true));
    assert_eq!(rt; does(rt.alloc(), Row::Adopts), Ok(true));
    Ok(())
}

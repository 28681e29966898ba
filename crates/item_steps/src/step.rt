ghost use Rattle.std.specs.Prelude.{◌≡◌, ◌≤◌, ◌++◌, IfOk, OnOk, length};
ghost use Rattle.proto.specs.declared.key.TheConstants.{MOST_KEYS};
ghost use Rattle.proto.specs.declared.reply.Reply.TheVariants.{Values};
ghost use Rattle.item_steps.specs.Steps.{steps, reads, touching_reads, reply, value, values, found};

use items::Item;
use proto::{Command, Found, Key, Keys, Reply, Update, Values};
use std::alloc::{AllocError, Global};

/// One read, or one update, or both, of one key.
#[derive(Drop)]
pub enum Step {
    Read(Key),
    /// Shows the item as it was, and gives it another exptime.
    ReadAndTouch { key: Key, exptime: i32 },
    Update(Update),
}

/// What a step gave.
#[derive(Drop)]
pub enum Answer {
    Seen(Option<Item>),
    Did(Reply),
}

/// The moment of a step's batch, and the stamp of its request.
#[derive(Clone, Copy, PartialEq, Eq)]
pub struct Stamp {
    pub moment: u32,
    pub stamp: u64,
}

/// The steps of a command, in order: `MOST_KEYS` at most.
#[tactic(auto, using(crate::proofs::FewLemmas::as_many_reads, crate::proofs::FewLemmas::as_many_touching_reads))]
pub fn steps_of(alloc: Global, command: &Command) -> Result<Vec<Step>, AllocError>
    ensures steps { IfOk result (λ list. list.items ≡ steps command.now) }
    ensures few { IfOk result (λ list. length list.items ≤ MOST_KEYS) }
{
    match command {
        Command::Get(keys) => reads_of(alloc, keys.as_slice()),
        Command::Gets(keys) => reads_of(alloc, keys.as_slice()),
        Command::Gat(exptime, keys) => touching_reads_of(alloc, *exptime, keys.as_slice()),
        Command::Gats(exptime, keys) => touching_reads_of(alloc, *exptime, keys.as_slice()),
        Command::Update(update) => {
            let mut list = Vec::new(alloc);
            list.push(Step::Update(update.clone()?))?;
            Ok(list)
        }
    }
}

fn reads_of(alloc: Global, keys: &[Key]) -> Result<Vec<Step>, AllocError>
    ensures { IfOk result (λ list. list.items ≡ reads keys.now) }
{
    let mut list = Vec::new(alloc);
    for key in keys {
        list.push(Step::Read(key.clone()?))?;
    }
    Ok(list)
}

fn touching_reads_of(alloc: Global, exptime: i32, keys: &[Key]) -> Result<Vec<Step>, AllocError>
    ensures { IfOk result (λ list. list.items ≡ touching_reads exptime keys.now) }
{
    let mut list = Vec::new(alloc);
    for key in keys {
        list.push(Step::ReadAndTouch {
            key: key.clone()?,
            exptime,
        })?;
    }
    Ok(list)
}

/// The reply to a command whose steps gave these answers.
pub fn reply_of(alloc: Global, command: &Command, answers: &[Answer]) -> Result<Reply, AllocError>
    requires { length answers.now ≡ length (steps command.now) }
    ensures { IfOk result (λ r. r ≡ reply command.now answers.now) }
{
    match command {
        Command::Get(keys) => values_reply(alloc, false, keys, answers),
        Command::Gets(keys) => values_reply(alloc, true, keys, answers),
        Command::Gat(_, keys) => values_reply(alloc, false, keys, answers),
        Command::Gats(_, keys) => values_reply(alloc, true, keys, answers),
        Command::Update(_) => match &answers[0] {
            Answer::Did(reply) => reply.clone(),
            Answer::Seen(_) => Ok(Reply::NotFound),
        },
    }
}

fn values_reply(
    alloc: Global,
    with_unique: bool,
    keys: &Keys,
    answers: &[Answer],
) -> Result<Reply, AllocError>
    requires { length answers.now ≡ length keys.now }
    ensures { IfOk result (λ r. r ≡ Values (values with_unique keys.now answers.now)) }
{
    let values = values_of(alloc, with_unique, keys.as_slice(), answers)?;
    Ok(Reply::Values(values))
}

fn values_of(
    alloc: Global,
    with_unique: bool,
    keys: &[Key],
    answers: &[Answer],
) -> Result<Values, AllocError>
    requires one_each { length answers.now ≡ length keys.now }
    requires few { length keys.now ≤ MOST_KEYS }
    ensures { IfOk result (λ list. list ≡ values with_unique keys.now answers.now) }
{
    let mut list = Vec::new(alloc);
    for i in 0..keys.len() {
        add_value(&mut list, with_unique, &keys[i], &answers[i])?;
    }
    Ok(Values::new(list))
}

fn add_value(
    list: &mut Vec<Found>,
    with_unique: bool,
    key: &Key,
    answer: &Answer,
) -> Result<(), AllocError>
    ensures { OnOk result (list.new.items ≡ list.old.items ++ value with_unique key.now answer.now) }
{
    if let Answer::Seen(Some(item)) = answer {
        list.push(found_of(with_unique, key, item)?)?;
    }
    Ok(())
}

fn found_of(with_unique: bool, key: &Key, item: &Item) -> Result<Found, AllocError>
    ensures { IfOk result (λ f. f ≡ found with_unique key.now item.now) }
{
    Ok(Found {
        key: key.clone()?,
        flags: item.flags,
        block: item.block.clone()?,
        unique: if with_unique { Some(item.unique) } else { None },
    })
}

impl Clone for Step {
    ghost is_clone = { λ step copy. copy ≡ step };

    fn clone(&self) -> Result<Step, AllocError> {
        Ok(match self {
            Step::Read(key) => Step::Read(key.clone()?),
            Step::ReadAndTouch { key, exptime } => Step::ReadAndTouch {
                key: key.clone()?,
                exptime: *exptime,
            },
            Step::Update(update) => Step::Update(update.clone()?),
        })
    }
}

impl Clone for Answer {
    ghost is_clone = { λ answer copy. copy ≡ answer };

    fn clone(&self) -> Result<Answer, AllocError> {
        Ok(match self {
            Answer::Seen(item) => Answer::Seen(item.clone()?),
            Answer::Did(reply) => Answer::Did(reply.clone()?),
        })
    }
}

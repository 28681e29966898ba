//! The members of a site in one thread, and what is answered by them.

use crate::asking::asked;
use decrees::{Letter, Node};
use ensemble::{Answer, Config};
use exec_lines::Body;
use member::{Member, MemberRecord};
use proto::{Fault, Reply};
use std::alloc::Global;
use std::mem;
use std::sync::Wait;
use std::thread::Threads;

/// How many members the site has: one of them may fail.
const MEMBERS: u8 = 3;

/// How many proxies each member has.
const PROXIES: u16 = 2;

/// How many all of them have.
const ALL_PROXIES: u16 = 6;

/// When all batches are cut, in seconds.
const MOMENT: u32 = 7;

/// More rounds than a batch takes.
const ROUNDS: u32 = 24;

/// What is done in a row.
#[derive(Clone, Copy)]
pub enum Done {
    /// The proxy asks the command of these bytes.
    Ask(u16, &'static [u8]),
    /// It asks again what is outstanding.
    Again(u16),
    /// All members work and pass their letters, until nothing more comes of it.
    Pass,
    /// So do all, but what this member has to say is lost.
    Lose(u8),
    /// The verifier of this member is told that the leader is suspected.
    Suspect(u8),
    /// What is kept of this member is recorded.
    Record(u8),
    /// The process of this member ends, and another one begins with what was recorded last.
    Reopen(u8),
}

/// An answer: the proxy, the number of its request, and the number that the reply shows; 0: it shows another reply.
pub type Shown = (u16, u64, u64);

fn shown(answer: &Answer) -> Shown {
    let number = match &answer.reply {
        Reply::Number(number) => *number,
        _ => 0,
    };
    (answer.proxy, answer.number, number)
}

/// The number of the member that has the node.
fn home(node: Node) -> usize {
    match node {
        Node::Client(proxy) => usize::from(proxy.saturating_sub(1) / PROXIES),
        Node::Executor(id) => usize::from(id),
        Node::Verifier(id) => usize::from(id),
    }
}

/// Ends these members.
fn end_all(mut members: Vec<Member>) {
    while let Some(member) = members.pop() {
        member.end();
    }
    members.destroy_empty();
}

/// All members are opened, too.
fn open_all(alloc: Global, members: &mut Vec<Member>) -> Result<(), Fault> {
    let config = &Config::new(1, ALL_PROXIES)?;
    for id in 0..MEMBERS {
        let member = Member::open(alloc, config, id)?;
        if let Err(failed) = members.push(member) {
            failed.value.end();
        }
    }
    Ok(())
}

fn hand(members: &mut Vec<Member>, letter: Letter<Body>) {
    if let Some(member) = members.get_mut(home(letter.to)) {
        member.come(letter);
    }
}

fn hand_all(members: &mut Vec<Member>, letters: Vec<Letter<Body>>) {
    for letter in letters {
        hand(members, letter);
    }
}

/// These answers come behind those.
fn note_all(given: &[Answer], answers: &mut Vec<Shown>) -> Result<(), Fault> {
    for answer in given {
        answers.push(shown(answer))?;
    }
    Ok(())
}

/// The member works, and what it answers comes behind these.
fn work<R: Threads + Wait + Sync>(
    rt: &R,
    alloc: Global,
    member: &mut Member,
    answers: &mut Vec<Shown>,
) -> Result<(), Fault> {
    let given = member.work(rt, alloc, MOMENT);
    note_all(given.as_slice(), answers)
}

/// What the member of this number has to say when it has worked.
fn letters_of<R: Threads + Wait + Sync>(
    rt: &R,
    alloc: Global,
    members: &mut Vec<Member>,
    id: usize,
    answers: &mut Vec<Shown>,
) -> Result<Vec<Letter<Body>>, Fault> {
    let Some(member) = members.get_mut(id) else {
        return Err(Fault::Unfit);
    };
    work(rt, alloc, member, answers)?;
    Ok(member.prepare(alloc)?)
}

/// Each member works once, and its letters are passed, but for those of the one whose letters are lost.
fn pass_once<R: Threads + Wait + Sync>(
    rt: &R,
    alloc: Global,
    members: &mut Vec<Member>,
    lost: Option<usize>,
    answers: &mut Vec<Shown>,
) -> Result<(), Fault> {
    for id in 0..members.len() {
        let letters = letters_of(rt, alloc, members, id, answers)?;
        if lost != Some(id) {
            hand_all(members, letters);
        }
    }
    Ok(())
}

fn pass<R: Threads + Wait + Sync>(
    rt: &R,
    alloc: Global,
    members: &mut Vec<Member>,
    lost: Option<usize>,
    answers: &mut Vec<Shown>,
) -> Result<(), Fault> {
    for _ in 0..ROUNDS {
        pass_once(rt, alloc, members, lost, answers)?;
    }
    Ok(())
}

fn ask(alloc: Global, members: &mut Vec<Member>, proxy: u16, bytes: &[u8]) -> Result<(), Fault> {
    let ready = asked(alloc, bytes)?;
    let Some(member) = members.get_mut(home(Node::Client(proxy))) else {
        return Err(Fault::Unfit);
    };
    if !member.is_free(proxy) {
        return Err(Fault::Unfit);
    }
    member.ask(alloc, proxy, ready.command, ready.quiet)?;
    Ok(())
}

fn record(
    alloc: Global,
    members: &mut Vec<Member>,
    id: u8,
    kept: &mut Vec<MemberRecord>,
) -> Result<(), Fault> {
    let Some(member) = members.get_mut(usize::from(id)) else {
        return Err(Fault::Unfit);
    };
    kept.push(member.record(alloc)?)?;
    Ok(())
}

/// This member is there in place of the one of its number, which ends.
fn put(members: &mut Vec<Member>, id: u8, member: Member) {
    match members.get_mut(usize::from(id)) {
        Some(place) => mem::replace(place, member).end(),
        None => member.end(),
    }
}

fn reopen(
    alloc: Global,
    members: &mut Vec<Member>,
    id: u8,
    kept: &mut Vec<MemberRecord>,
) -> Result<(), Fault> {
    let config = Config::new(1, ALL_PROXIES)?;
    let kept = kept.pop().ok_or(Fault::Unfit)?;
    let stored = kept.process(alloc)?;
    let found = MemberRecord::of_process(alloc, id, &stored)?;
    let member = Member::reopen(alloc, &config, id, found)?;
    put(members, id, member);
    Ok(())
}

fn act<R: Threads + Wait + Sync>(
    rt: &R,
    alloc: Global,
    members: &mut Vec<Member>,
    kept: &mut Vec<MemberRecord>,
    done: Done,
    answers: &mut Vec<Shown>,
) -> Result<(), Fault> {
    match done {
        Done::Ask(proxy, bytes) => ask(alloc, members, proxy, bytes)?,
        Done::Again(proxy) => {
            if let Some(member) = members.get_mut(home(Node::Client(proxy))) {
                member.again(alloc, proxy);
            }
        }
        Done::Pass => pass(rt, alloc, members, None, answers)?,
        Done::Lose(id) => pass(rt, alloc, members, Some(usize::from(id)), answers)?,
        Done::Suspect(id) => {
            if let Some(member) = members.get_mut(usize::from(id)) {
                member.suspect(alloc);
            }
        }
        Done::Record(id) => record(alloc, members, id, kept)?,
        Done::Reopen(id) => reopen(alloc, members, id, kept)?,
    }
    Ok(())
}

/// Whether all executors have the same number of batches, and nothing was refused.
fn are_alike(members: &[Member]) -> bool {
    let Some(first) = members.first() else {
        return false;
    };
    for member in members {
        if member.refused() != 0 || member.number() != first.number() {
            return false;
        }
    }
    true
}

fn play<R: Threads + Wait + Sync>(
    rt: &R,
    alloc: Global,
    row: &[Done],
    members: &mut Vec<Member>,
) -> Result<(Vec<Shown>, bool), Fault> {
    open_all(alloc, members)?;
    let mut answers = Vec::new(alloc);
    let mut kept = Vec::new(alloc);
    for done in row {
        act(rt, alloc, members, &mut kept, *done, &mut answers)?;
    }
    Ok((answers, are_alike(members.as_slice())))
}

/// What is answered in a row by a site of three members, and whether all executors have as many batches in the end, and
/// nothing was refused.
pub fn played<R: Threads + Wait + Sync>(
    rt: &R,
    alloc: Global,
    row: &[Done],
) -> Result<(Vec<Shown>, bool), Fault> {
    let mut members = Vec::new(alloc);
    let answers = play(rt, alloc, row, &mut members);
    end_all(members);
    answers
}

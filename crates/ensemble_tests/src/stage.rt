//! What is done with an ensemble in a row, and what its proxies are answered.

use crate::asking::asked;
use ensemble::{Answer, Config, Ensemble, Replica};
use proto::{Fault, Reply};
use std::alloc::Global;
use std::rt::Clock;
use std::sync::Wait;
use std::thread::Threads;

/// What is done in a row.
#[derive(Clone, Copy)]
pub enum Done {
    /// The proxy asks the command of these bytes.
    Ask(u16, &'static [u8]),
    /// It asks again what is outstanding.
    Again(u16),
    /// The replicas work until nothing more can be done.
    Work,
    Suspect(u8),
    /// Each replica is opened if it is down.
    Open,
    /// The process ends, and another one begins with what was kept of it.
    End,
}

/// An answer: the proxy, the number of its request, and the number that the reply shows; 0: it shows another reply.
pub type Shown = (u16, u64, u64);

fn shown(answer: &Answer) -> Shown {
    let number = match &answer.reply {
        Reply::Number(number) => *number,
        _ => 0,
    };
    (answer.proxy, answer.number, number)
}

fn work<R: Threads + Wait + Sync + Clock>(
    rt: &R,
    alloc: Global,
    ensemble: &mut Ensemble,
    answers: &mut Vec<Shown>,
) -> Result<(), Fault> {
    for answer in ensemble.work(rt, rt, alloc, 7) {
        answers.push(shown(&answer))?;
    }
    Ok(())
}

fn ask(alloc: Global, ensemble: &mut Ensemble, proxy: u16, bytes: &[u8]) -> Result<(), Fault> {
    let ready = asked(alloc, bytes)?;
    if !ensemble.is_free(proxy) {
        return Err(Fault::Unfit);
    }
    ensemble.ask(alloc, proxy, ready.command, ready.quiet)?;
    Ok(())
}

/// Each replica of so many executors and verifiers is opened, if it is down.
fn open(alloc: Global, ensemble: &mut Ensemble) {
    for id in 0..7u8 {
        ensemble.restart(alloc, Replica::Executor(id));
        ensemble.restart(alloc, Replica::Verifier(id));
    }
}

fn act<R: Threads + Wait + Sync + Clock>(
    rt: &R,
    alloc: Global,
    ensemble: &mut Ensemble,
    done: Done,
    answers: &mut Vec<Shown>,
) -> Result<(), Fault> {
    match done {
        Done::Ask(proxy, bytes) => ask(alloc, ensemble, proxy, bytes),
        Done::Again(proxy) => {
            ensemble.again(alloc, proxy);
            Ok(())
        }
        Done::Work => work(rt, alloc, ensemble, answers),
        Done::Suspect(verifier) => {
            ensemble.suspect(alloc, verifier);
            Ok(())
        }
        Done::Open => {
            open(alloc, ensemble);
            Ok(())
        }
        Done::End => Ok(()),
    }
}

/// The ensemble of a process that begins with what was kept of this one, which ends.
fn come_back(alloc: Global, ensemble: Ensemble) -> Result<Ensemble, Fault> {
    let record = ensemble.record(alloc);
    ensemble.end();
    Ensemble::reopen(alloc, record?)
}

fn step<R: Threads + Wait + Sync + Clock>(
    rt: &R,
    alloc: Global,
    mut ensemble: Ensemble,
    done: Done,
    answers: &mut Vec<Shown>,
) -> Result<Ensemble, Fault> {
    if let Done::End = done {
        return come_back(alloc, ensemble);
    }
    match act(rt, alloc, &mut ensemble, done, answers) {
        Ok(()) => Ok(ensemble),
        Err(fault) => {
            ensemble.end();
            Err(fault)
        }
    }
}

fn go_through_part<R: Threads + Wait + Sync + Clock>(
    rt: &R,
    alloc: Global,
    mut ensemble: Ensemble,
    part: &[Done],
    answers: &mut Vec<Shown>,
) -> Result<Ensemble, Fault> {
    for done in part {
        ensemble = step(rt, alloc, ensemble, *done, answers)?;
    }
    Ok(ensemble)
}

fn go_through<R: Threads + Wait + Sync + Clock>(
    rt: &R,
    alloc: Global,
    u: u8,
    row: &[&[Done]],
    answers: &mut Vec<Shown>,
) -> Result<(), Fault> {
    let mut ensemble = Ensemble::open(alloc, &Config::new(u, 2)?)?;
    for part in row {
        ensemble = go_through_part(rt, alloc, ensemble, *part, answers)?;
    }
    ensemble.end();
    Ok(())
}

/// What is answered in a row of parts, with two proxies and `2u + 1` executors.
pub fn played<R: Threads + Wait + Sync + Clock>(
    rt: &R,
    alloc: Global,
    u: u8,
    row: &[&[Done]],
) -> Result<Vec<Shown>, Fault> {
    let mut answers = Vec::new(alloc);
    go_through(rt, alloc, u, row, &mut answers)?;
    Ok(answers)
}

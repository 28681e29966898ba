//! Plays worlds, and checks what clients were given and what executors committed. After each event all
//! committed states are compared by number and token; each new one is compared with one server, which runs
//! its batch whole and in order, and so is what clients were given. A line of standard input says which
//! plays are made:
//!
//! - `kinds FIRST PLAYS EVENTS`: plays of kinds, made at random from so many seeds: crashes of the primary,
//!   partitions, batches that nobody decides, long chains, executors that diverge, storms of restarts,
//!   losses up to `u`. All clients add one to a counter, so each is given rising numbers, and none is given
//!   twice.
//! - `trimmed FIRST PLAYS EVENTS`: the same, and among the events verifiers trim their logs.
//! - `random FIRST SEEDS EVENTS`: for each seed, and for 0 to 3 replicas of each kind that may fail, eight
//!   clients ask twenty commands each, and then come so many events of a line `random` of a schedule.
//! - `restarts FILE`: the row in this file, with a crash and a restart after each of its events, of each
//!   replica. What a client is given has to be a beginning of what the row gives it; so no reply of the row
//!   may depend on whether a request of another client came through.
//!
//! For each line it prints what came of the plays. A play that shows what no server would is printed, and the
//! status is 1; it is 2 if a line cannot be played.
#![tactic(auto)]

mod acting;
mod checks;
mod counts;
mod ending;
mod judge;
mod plain;
mod playing;
mod random_events;
mod restarts;
mod stage;
mod talks;
mod task;

use crate::counts::{Counts, Failed};
use crate::playing::play_all;
use crate::random_events::play_random;
use crate::restarts::play_restarts;
use crate::task::{Task, task_of};
use proto::Fault;
use schedules::Schedule;
use std::process::ExitCode;
use std::{fs, io};

fn print(rt: &HostRuntime, counts: &Counts) -> io::Result<()> {
    println!(rt; "{} plays, {} events", counts.plays, counts.events)?;
    println!(rt; "{} letters, {} replies", counts.letters, counts.replies)?;
    println!(rt;
        "{} commits, {} rollbacks",
        counts.commits, counts.rollbacks
    )?;
    println!(rt;
        "{} changes of view, {} parcels",
        counts.views, counts.parcels
    )?;
    if counts.stands > 0 {
        println!(rt; "{} told what stands", counts.stands)?;
    }
    Ok(())
}

fn print_failed(rt: &HostRuntime, failed: Failed) -> io::Result<()> {
    match failed {
        Failed::Kind { seed } => println!(rt; "seed {seed} shows what no server would"),
        Failed::Random { seed, u } => {
            println!(rt; "seed {seed} with u {u} shows what no server would")
        }
        Failed::Restart { after, number } => println!(rt;
            "a restart of replica {number} after event {after} shows what no server would, or not the row"
        ),
    }
}

/// The plays of the row in the file of this name.
fn play_file(rt: &HostRuntime, name: &str) -> Result<Counts, Fault> {
    let Ok(bytes) = fs::read(rt, name) else {
        return Err(Fault::BadRecord);
    };
    match Schedule::read(rt.alloc(), &bytes) {
        Ok(row) => play_restarts(rt.alloc(), &row),
        Err(_) => Err(Fault::BadSchedule),
    }
}

fn play_line(rt: &HostRuntime, line: &str) -> Result<Counts, Fault> {
    match task_of(line) {
        Some(Task::Kinds(seeds)) => play_all(rt.alloc(), seeds, false),
        Some(Task::Trimmed(seeds)) => play_all(rt.alloc(), seeds, true),
        Some(Task::Random(seeds)) => play_random(
            rt.alloc(),
            seeds.first,
            seeds.count,
            seeds.events,
        ),
        Some(Task::Restarts(name)) => play_file(rt, name),
        None => Err(Fault::BadSchedule),
    }
}

/// Makes the plays of a line, and prints what came of them: the status.
fn follow(rt: &HostRuntime, line: &str) -> io::Result<u8> {
    let Ok(counts) = play_line(rt, line) else {
        println!(rt; "cannot play {line}")?;
        return Ok(2);
    };
    match counts.failed {
        None => {
            print(rt, &counts)?;
            Ok(0)
        }
        Some(failed) => {
            print_failed(rt, failed)?;
            Ok(1)
        }
    }
}

/// Follows all lines, up to the first whose status is not 0: the last status.
fn follow_all(rt: &HostRuntime) -> io::Result<u8> {
    for line in rt.lines(rt.alloc()) {
        let line = line?;
        let status = follow(rt, line.as_str())?;
        if status > 0 {
            return Ok(status);
        }
    }
    Ok(0)
}

fn main(rt: HostRuntime) -> ExitCode {
    match follow_all(&rt) {
        Ok(status) => ExitCode::from(status),
        Err(_) => ExitCode::from(3),
    }
}

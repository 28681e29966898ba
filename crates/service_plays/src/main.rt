//! Drives a service at random, without sockets, and checks what its connections are given. Each connection has keys of its
//! own, on which it uses every command. What it is given has to be the very bytes that a plain model of one server gives.
//! A `get` of a key of another connection has to show what the key has at some moment between question and answer. All
//! connections add one to one counter, or read it.
//!
//! A line `U SEED CALLS` of standard input is a play. With one more word, `memcached`, connections are read in memcached's
//! dialect, which asks the same of these lines. It is so many calls of a service with `2U + 1` executors, made at
//! random from the seed. Connections come, ask in pieces of any length, are slow to write, and leave; ticks come, and
//! the replicas work. Time passes when nothing is outstanding. In the end each connection that is here has to be
//! answered. For each play it prints what came of it. The status is 1 if a reply is wrong, and 2 if a line cannot be
//! played.
//!
//! With the word `ends` a record is made at times, and the process ends at others: all connections are gone, and another
//! process goes on from the last record. Replies up to that record have to stay true. What was asked or given after it
//! never was.
//!
//! With the word `stops` replicas stop at times, as if each were a process that was killed: one, or more than `U`. What
//! connections are given stays right. If more than `U` are down nobody is answered until ticks have opened them.
#![tactic(auto)]

mod command;
mod counter;
mod ending;
mod judge;
mod model;
mod peer;
mod plan;
mod play;
mod stopping;
mod wanted;

use crate::plan::{Plan, plan_of};
use crate::play::play;
use std::io;
use std::process::ExitCode;
use std::rt::Clock;
use std::sync::Wait;
use std::thread::Threads;

/// Makes the play, and prints what came of it: the status.
fn follow<R: Threads + Wait + Sync + Clock>(
    rt: &HostRuntime,
    threads: &R,
    plan: Plan,
) -> io::Result<u8> {
    let Plan {
        dialect: _,
        u,
        seed,
        calls,
        has_ends,
        has_stops: _,
    } = plan;
    let Some(shown) = play(threads, rt.alloc(), plan) else {
        println!(rt; "cannot play u {u}, seed {seed}")?;
        return Ok(2);
    };
    print!(rt;
        "u {u}, seed {seed}, {calls} calls: {} commands, {} replies, {} stops",
        shown.commands, shown.replies, shown.stops
    )?;
    if has_ends {
        print!(rt; ", {} ends", shown.ends)?;
    }
    println!(rt; "")?;
    if let Some(call) = shown.wrong {
        println!(rt; "u {u}, seed {seed}: wrong at call {call}")?;
        return Ok(1);
    }
    Ok(0)
}

/// Makes the plays of all lines, up to the first whose status is not 0: the last status.
fn follow_all<R: Threads + Wait + Sync + Clock>(rt: &HostRuntime, threads: &R) -> io::Result<u8> {
    for line in rt.lines(rt.alloc()) {
        let line = line?;
        let status = match plan_of(line.as_str()) {
            Some(plan) => follow(rt, threads, plan)?,
            None => 2,
        };
        if status > 0 {
            return Ok(status);
        }
    }
    Ok(0)
}

fn main(rt: HostRuntime) -> ExitCode {
    match follow_all(&rt, &rt) {
        Ok(status) => ExitCode::from(status),
        Err(_) => ExitCode::from(3),
    }
}

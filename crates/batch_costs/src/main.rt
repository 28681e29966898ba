//! What a batch costs: its parts, for so many items, as medians of many batches.
//!
//! Each line of standard input is a run: how the keys look (`numbered` or `session`), how many items there
//! are, how many bytes each has, how many workers execute a batch, and how many batches of each kind there
//! are. Standard output says what was executed, and how large the record of the last state is. Standard
//! error has the times, in microseconds. The status is 1 if a line is no run, and 2 if memory ran out.
#![tactic(auto)]

mod clock;
mod commands;
mod kinds;
mod plan;
mod site;
mod table;

use crate::plan::plan_of;
use crate::table::print_table;
use proto::Fault;
use std::process::ExitCode;
use std::sync::Wait;
use std::thread::Threads;

/// The status of a line: 0 if its table was printed.
fn run_line<R: Threads + Wait + Sync>(rt: &HostRuntime, threads: &R, line: &str) -> u8 {
    let Some(plan) = plan_of(line) else {
        return 1;
    };
    match print_table(rt, threads, &plan) {
        Ok(()) => 0,
        Err(Fault::NoMemory) => 2,
        Err(_) => 1,
    }
}

fn main(rt: HostRuntime) -> ExitCode {
    for line in rt.lines(rt.alloc()) {
        let status = match line {
            Ok(text) => run_line(&rt, &rt, text.as_str()),
            Err(_) => 1,
        };
        if status != 0 {
            return ExitCode::from(status);
        }
    }
    ExitCode::SUCCESS
}

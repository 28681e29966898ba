//! Plays rows: schedules that are documents in `data/`. The first lines of each say what it shows, and
//! its last ones, which begin with `#> `, what is printed of it.
//!
//! Standard input has the names of the files, one a line. It prints how many hold; a row that does not is
//! named, with what was printed in its place, and the status is 1.
#![tactic(auto)]

mod row;

use crate::row::difference;
use std::process::ExitCode;
use std::{fs, io};

/// Whether the row of this name holds.
fn holds(rt: &HostRuntime, name: &str) -> io::Result<bool> {
    let row = fs::read_to_string(rt, name)?;
    match difference(rt.alloc(), name, row.as_str())? {
        None => Ok(true),
        Some(printed) => {
            println!(rt; "{name}:\n{printed}")?;
            Ok(false)
        }
    }
}

/// Whether all rows hold; how many do is printed.
fn all_hold(rt: &HostRuntime) -> io::Result<bool> {
    let mut held = 0u64;
    let mut failed = 0u64;
    for line in rt.lines(rt.alloc()) {
        let name = line?;
        if holds(rt, name.as_str())? {
            held = held.saturating_add(1);
        } else {
            failed = failed.saturating_add(1);
        }
    }
    println!(rt; "{held} rows hold")?;
    Ok(failed == 0)
}

fn main(rt: HostRuntime) -> ExitCode {
    match all_hold(&rt) {
        Ok(true) => ExitCode::SUCCESS,
        Ok(false) => ExitCode::from(1),
        Err(_) => ExitCode::from(3),
    }
}

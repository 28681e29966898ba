//! Plays a schedule, and shows in which world it ends: `eve-play FILE`.
//!
//! Status 0, and a line for each node on standard output; 1 if the file is no schedule or memory ran
//! out, 2 for other words than one, 3 if the file cannot be read or a write failed. What is wrong
//! is said on standard error. If this is a terminal, a long play says there once a second how many
//! events have happened.
#![tactic(auto)]

mod dial;
mod given;

use crate::dial::Dial;
use crate::given::file_of;
use app::{REFUSED, STREAM_FAILED, play_text};
use command_line::{WordsFault, words_of};
use std::process::ExitCode;
use std::{fs, io};

const USAGE: u8 = 2;

fn fail<T: Drop>(told: io::Result<T>, status: u8) -> ExitCode {
    match told {
        Ok(_) => ExitCode::from(status),
        Err(_) => ExitCode::from(STREAM_FAILED),
    }
}

fn play(rt: &HostRuntime, name: &str) -> ExitCode {
    match fs::open(rt, name) {
        Ok(mut file) => ExitCode::from(play_text(
            rt.alloc(),
            name,
            &mut file,
            &mut rt.stdout(),
            &mut rt.stderr(),
            &mut Dial::new(rt),
        )),
        Err(_) => fail(eprintln!(rt; "cannot read {name}"), STREAM_FAILED),
    }
}

fn main(rt: HostRuntime) -> ExitCode {
    let fault = match words_of(&rt) {
        Ok(words) => match file_of(rt.alloc(), words.as_slice()) {
            Ok(name) => return play(&rt, name),
            Err(fault) => fault,
        },
        Err(fault) => fault,
    };
    match fault {
        WordsFault::NoMemory => fail(eprintln!(rt; "refused: 1 NoMemory"), REFUSED),
        WordsFault::Usage => fail(eprintln!(rt; "usage: eve-play FILE"), USAGE),
    }
}

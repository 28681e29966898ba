//! A memcached server on replicas, as a daemon.
//!
//!     eve_cached --listen ADDR:PORT --listen unix:PATH --u U --connections N --idle SECONDS --dialect DIALECT
//!         --max-bytes B --data DIR --data DIR .. --new --sync MODE --status ADDR:PORT
//!
//! It is built on `server` (`serve_beside`), `data_folders` (the folders of `--data`), `daemon` (its words and its log),
//! `status_server` (the status port), `metrics` (what is shown of each folder) and `service_laws`, whose laws it calls at its
//! end.
//!
//! It serves until a signal ends it, and tells on standard error what an operator wants to know. Status 0 for `--help`
//! and `--version`, 1 if memory ran out before it served, 2 for other words, 3 if it cannot listen or cannot start, or
//! if the system no longer lets it wait on its sockets, 4 if the folders of `--data` cannot be used, 5 if a disk failed,
//! 6 if another process uses one.
#![tactic(auto)]

mod data;
mod life;
mod showing;
mod watching;

use crate::data::{Data, begin_data, open_data};
use crate::life::run;
use clap::Error;
use clap::error::ErrorKind;
use command_line::{WordsFault, words_of};
use daemon::{Settings, read_settings};
use server::NoFolder;
use std::process::ExitCode;

/// Memory ran out before it served.
pub const REFUSED: u8 = 1;

/// It cannot listen or start.
pub const CANNOT: u8 = 3;

/// The folders of its data cannot be used.
pub const NO_DATA: u8 = 4;

/// The disk failed.
pub const DISK_FAILED: u8 = 5;

/// Another process uses the folder.
pub const IN_USE: u8 = 6;

/// Prints why the words are not taken, or the help that they ask for.
fn explain(rt: &HostRuntime, error: &Error) -> ExitCode {
    if error.print(rt).is_err() {
        return ExitCode::from(CANNOT);
    }
    match error.kind() {
        ErrorKind::OutOfMemory => ExitCode::from(REFUSED),
        _ => ExitCode::from(if error.use_stderr() { 2 } else { 0 }),
    }
}

/// What the words of the command line say.
fn given(rt: &HostRuntime) -> Result<Settings, ExitCode> {
    match words_of(rt) {
        Ok(words) => match read_settings(rt.alloc(), words.as_slice()) {
            Ok(settings) => Ok(settings),
            Err(error) => Err(explain(rt, &error)),
        },
        Err(WordsFault::NoMemory) => Err(ExitCode::from(REFUSED)),
        Err(WordsFault::Usage) => Err(ExitCode::from(2)),
    }
}

fn main(rt: HostRuntime) -> ExitCode {
    let settings = match given(&rt) {
        Ok(settings) => settings,
        Err(status) => return status,
    };
    let opened = match open_data(&rt, &settings) {
        Ok(opened) => opened,
        Err(status) => return ExitCode::from(status),
    };
    match begin_data(&rt, &settings, opened) {
        Ok(Data::Nowhere { counts }) => {
            ExitCode::from(run(&rt, settings, NoFolder, None, counts))
        }
        Ok(
            Data::In {
                folders,
                counts,
                found,
            },
        ) => ExitCode::from(run(&rt, settings, folders, found, counts)),
        Err(status) => ExitCode::from(status),
    }
}

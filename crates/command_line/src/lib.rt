//! The words of a command line, as the programs take them.
//!
//! It is built on `clap`. The programs use `words_of`, and say by `WordsFault` why they do not take the words.
#![tactic(auto)]

use clap::error::ErrorKind;
use std::alloc::{Alloc, AllocError, Global};
use std::rt::Env;
use std::{env, io};

/// Why the words are not taken.
#[derive(Clone, Copy)]
pub enum WordsFault {
    NoMemory,
    Usage,
}

impl From<AllocError> for WordsFault {
    fn from(_e: AllocError) -> WordsFault {
        WordsFault::NoMemory
    }
}

impl From<io::Error> for WordsFault {
    fn from(e: io::Error) -> WordsFault {
        match e.kind() {
            io::ErrorKind::OutOfMemory => WordsFault::NoMemory,
            _ => WordsFault::Usage,
        }
    }
}

impl From<clap::Error> for WordsFault {
    fn from(e: clap::Error) -> WordsFault {
        match e.kind() {
            ErrorKind::OutOfMemory => WordsFault::NoMemory,
            _ => WordsFault::Usage,
        }
    }
}

/// All words, the program's name first.
pub fn words_of<R: Env + Alloc<A = Global>>(rt: &R) -> Result<Vec<String>, WordsFault> {
    let words: Vec<String> = env::args(rt)?.collect(rt.alloc())?;
    Ok(words)
}

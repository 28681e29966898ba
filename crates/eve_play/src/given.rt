//! The words behind the program's name.

use clap::{Arg, ArgAction, Command};
use command_line::WordsFault;
use std::alloc::Global;

/// The one word FILE.
pub fn file_of<'a>(alloc: Global, words: &'a [String]) -> Result<&'a str, WordsFault> {
    let file = Arg::new(alloc, "FILE")
        .required(true)
        .action(ArgAction::Set);
    let command = Command::new(alloc, "eve_play").arg(file)?;
    let matches = command.try_get_matches_from(words)?;
    matches.get_str("FILE").ok_or(WordsFault::Usage)
}

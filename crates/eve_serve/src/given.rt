//! The words of the command line.

ghost use Rattle.std.specs.Prelude.{◌<◌};

use clap::{Arg, ArgAction, Command};
use command_line::WordsFault;
use std::alloc::Global;

/// On which port it is to listen, and how many nodes of each kind may be lost.
#[derive(Clone, Copy)]
pub struct Words {
    pub port: u16,
    pub u: u8,
    ghost few: { u < 4 },
}

/// The number that the digits spell, below 65,536.
fn number(text: &str) -> Option<u16> {
    if text.is_empty() || !text.as_bytes().iter().all(|byte| byte.is_ascii_digit()) {
        return None;
    }
    text.parse::<u16>().ok()
}

/// The texts of `--port P --u U`.
fn texts<'a>(alloc: Global, words: &'a [String]) -> Result<(&'a str, &'a str), WordsFault> {
    let port = Arg::new(alloc, "port")
        .long("port")
        .required(true)
        .action(ArgAction::Set);
    let u = Arg::new(alloc, "u")
        .long("u")
        .required(true)
        .action(ArgAction::Set);
    let command = Command::new(alloc, "eve_serve").arg(port)?.arg(u)?;
    let matches = command.try_get_matches_from(words)?;
    match (matches.get_str("port"), matches.get_str("u")) {
        (Some(port), Some(u)) => Ok((port, u)),
        _ => Err(WordsFault::Usage),
    }
}

/// What `--port P --u U` say: P from 0 to 65535 and U from 0 to 3, in decimal digits.
pub fn read_words(alloc: Global, words: &[String]) -> Result<Words, WordsFault> {
    let (port, u) = texts(alloc, words)?;
    match (number(port), number(u)) {
        (Some(port), Some(u)) if u < 4 => Ok(Words { port, u: u as u8 }),
        _ => Err(WordsFault::Usage),
    }
}

//! A schedule that is played in memory.

use app::{Untold, play_text};
use std::alloc::Global;

/// How it ended, and what was written.
#[derive(Drop)]
pub struct Ending {
    pub status: u8,
    pub out: Vec<u8>,
    pub err: Vec<u8>,
}

/// The schedule of this text.
pub fn played(alloc: Global, schedule: &[u8]) -> Ending {
    let mut input = schedule;
    let mut out = Vec::new(alloc);
    let mut err = Vec::new(alloc);
    let status = play_text(
        alloc,
        "rows.txt",
        &mut input,
        &mut out,
        &mut err,
        &mut Untold,
    );
    Ending { status, out, err }
}

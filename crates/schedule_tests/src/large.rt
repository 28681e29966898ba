//! Large files: a line of any length, and many lines.

use events::Event;
use schedules::{Schedule, ScheduleFault, ScheduleLine};
use std::alloc::{AllocError, Global};
use std::test::Fail;

/// How many bytes or lines there are.
const MANY: usize = 1_000_000;

fn long_line(alloc: Global) -> Result<Vec<u8>, AllocError> {
    let mut file = Vec::from_slice(alloc, b"u 0\nclients 1\nfeed 1 ")?;
    for _ in 0..MANY {
        file.extend_from_slice(b"\\x00".as_slice())?;
    }
    Ok(file)
}

fn many_lines(alloc: Global) -> Result<Vec<u8>, AllocError> {
    let mut file = Vec::from_slice(alloc, b"u 0\nclients 1\n")?;
    for _ in 0..MANY {
        file.extend_from_slice(b"again 1\n".as_slice())?;
    }
    Ok(file)
}

fn fed_bytes(schedule: &Schedule) -> usize {
    match schedule.lines.as_slice() {
        [ScheduleLine::Happens(Event::Feed { client: _, bytes })] => bytes.len(),
        _ => 0,
    }
}

fn bytes_of_a_long_line(alloc: Global) -> Result<usize, ScheduleFault> {
    let file = long_line(alloc)?;
    let schedule = Schedule::read(alloc, file.as_slice())?;
    Ok(fed_bytes(&schedule))
}

fn lines_of_many(alloc: Global) -> Result<usize, ScheduleFault> {
    let file = many_lines(alloc)?;
    let schedule = Schedule::read(alloc, file.as_slice())?;
    Ok(schedule.lines.len())
}

#[test]
fn a_line_may_be_of_any_length(rt: HostRuntime) -> Result<(), Fail> {
    assert!(rt; bytes_of_a_long_line(rt.alloc())? == MANY);
    Ok(())
}

#[test]
fn there_may_be_any_number_of_lines(rt: HostRuntime) -> Result<(), Fail> {
    assert!(rt; lines_of_many(rt.alloc())? == MANY);
    Ok(())
}

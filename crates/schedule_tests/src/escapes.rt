//! The bytes of a Feed, as they are read and printed.

use crate::seen::{Row, is_refused, says};
use events::Event;
use schedules::{Schedule, ScheduleFault, ScheduleLine, write_printed};
use std::alloc::{AllocError, Global};
use std::test::Fail;

#[test]
fn escapes_stand_for_bytes(rt: HostRuntime) -> Result<(), Fail> {
    let rows: &[Row] = &[
        (b"feed 1 ", "Feed 1;"),
        (b"feed 1  ", "Feed 1 32;"),
        (b"feed 1  ~#\"", "Feed 1 32 126 35 34;"),
        (b"feed 1 \\r\\n", "Feed 1 13 10;"),
        (b"feed 1 \\\\", "Feed 1 92;"),
        (b"feed 1 \\\\r", "Feed 1 92 114;"),
        (b"feed 1 \\x00\\xff", "Feed 1 0 255;"),
        (b"feed 1 \\x09\\x7f\\x80", "Feed 1 9 127 128;"),
        (b"feed 1 \\x0d\\x0a\\x5c", "Feed 1 13 10 92;"),
        (b"feed 1 \\x41b\\x410", "Feed 1 65 98 65 48;"),
        (b"feed 1 \\xa9\\xba", "Feed 1 169 186;"),
    ];
    for (line, words) in rows {
        assert!(rt; says(rt.alloc(), *line, *words)?, "{words}");
    }
    Ok(())
}

#[test]
fn other_escapes_are_refused(rt: HostRuntime) -> Result<(), Fail> {
    let lines: &[&[u8]] = &[
        b"feed 1 \\",
        b"feed 1 a\\",
        b"feed 1 \\x",
        b"feed 1 \\x0",
        b"feed 1 \\x 0",
        b"feed 1 \\x0g",
        b"feed 1 \\x0A",
        b"feed 1 \\xA0",
        b"feed 1 \\X00",
        b"feed 1 \\R",
        b"feed 1 \\t",
        b"feed 1 \\0",
        b"feed 1 \\\x0b",
        b"feed 1 \x1f",
        b"feed 1 \x7f",
        b"feed 1 \xc3\xa9",
        b"feed 1 a\r",
    ];
    for line in lines {
        assert!(rt; is_refused(rt.alloc(), *line)?);
    }
    Ok(())
}

fn printed(alloc: Global, bytes: &[u8]) -> Result<Vec<u8>, AllocError> {
    let mut out = Vec::from_slice(alloc, b"> ")?;
    write_printed(bytes, &mut out)?;
    Ok(out)
}

#[test]
fn bytes_are_printed_by_their_shortest_texts(rt: HostRuntime) -> Result<(), Fail> {
    let rows: &[(&[u8], &[u8])] = &[
        (b"", b"> "),
        (b"STORED\r\n", b"> STORED\\r\\n"),
        (b" ~\\", b">  ~\\\\"),
        (
            b"\x00\x09\x1f\x7f\x80\xff",
            b"> \\x00\\x09\\x1f\\x7f\\x80\\xff",
        ),
        (b"\xab\xcd\xef", b"> \\xab\\xcd\\xef"),
    ];
    for (bytes, text) in rows {
        let found = printed(rt.alloc(), *bytes)?;
        assert!(rt; found.as_slice() == *text);
    }
    Ok(())
}

/// A file in which client 1 is fed these bytes, as they are printed.
fn fed(alloc: Global, bytes: &[u8]) -> Result<Vec<u8>, AllocError> {
    let mut file = Vec::from_slice(alloc, b"u 0\nclients 1\nfeed 1 ")?;
    write_printed(bytes, &mut file)?;
    Ok(file)
}

fn is_fed(schedule: &Schedule, wanted: &[u8]) -> bool {
    match schedule.lines.as_slice() {
        [ScheduleLine::Happens(Event::Feed { client: _, bytes })] => bytes.as_slice() == wanted,
        _ => false,
    }
}

fn comes_back(alloc: Global, bytes: &[u8]) -> Result<bool, ScheduleFault> {
    let file = fed(alloc, bytes)?;
    let schedule = Schedule::read(alloc, file.as_slice())?;
    Ok(is_fed(&schedule, bytes))
}

#[test]
fn each_byte_comes_back(rt: HostRuntime) -> Result<(), Fail> {
    for b in 0..=255u8 {
        assert!(rt; comes_back(rt.alloc(), &[b, b'x', b])?);
    }
    Ok(())
}

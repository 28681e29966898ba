//! Streams that are cut, interrupted, or fail.

use app::{REFUSED, SHOWN, STREAM_FAILED, Untold, play_text};
use std::io;
use std::io::{ErrorKind, Read, Write};
use std::test::Fail;

/// Gives its bytes one by one, is interrupted before each, and fails after so many calls.
#[derive(Drop)]
struct Frail<'a> {
    left: &'a [u8],
    calls: usize,
    interrupted: bool,
}

impl Read for Frail<'_> {
    fn read(&mut self, buf: &mut [u8]) -> io::Result<usize> {
        if self.calls == 0 {
            return Err(io::Error::new(ErrorKind::Other, "frail"));
        }
        self.calls -= 1;
        self.interrupted = !self.interrupted;
        if self.interrupted {
            return Err(io::Error::new(ErrorKind::Interrupted, "again"));
        }
        match self.left {
            [first, rest @ ..] if !buf.is_empty() => {
                buf[0] = *first;
                self.left = rest;
                Ok(1)
            }
            _ => Ok(0),
        }
    }
}

/// Takes its bytes one by one, is interrupted before each, and fails after so many calls.
#[derive(Drop)]
struct Full {
    taken: Vec<u8>,
    calls: usize,
    interrupted: bool,
}

impl Write for Full {
    fn write(&mut self, buf: &[u8]) -> io::Result<usize> {
        if self.calls == 0 {
            return Err(io::Error::new(ErrorKind::Other, "full"));
        }
        self.calls -= 1;
        self.interrupted = !self.interrupted;
        if self.interrupted {
            return Err(io::Error::new(ErrorKind::Interrupted, "again"));
        }
        match buf {
            [first, ..] => {
                self.taken.push(*first)?;
                Ok(1)
            }
            [] => Ok(0),
        }
    }

    fn flush(&mut self) -> io::Result<()> {
        Ok(())
    }
}

const SCHEDULE: &[u8] = b"u 0\nclients 1\nfeed 1 version\\r\\n\n";

const LINES: &[u8] =
    b"client 1 open 15 VERSION eve-1\\r\\n\nexecutor 0 up n 0 epoch 1 chain 0\nverifier 0 up decrees 0 view 0\n";

const NO_SCHEDULE: &[u8] = b"u 0\nclients 1\nversion\n";

const REFUSAL: &[u8] = b"refused: 6 BadSchedule line 3\n";

const UNREAD: &[u8] = b"cannot read rows.txt\n";

#[test]
fn a_read_that_fails(rt: HostRuntime) -> Result<(), Fail> {
    let enough = 2 * SCHEDULE.len() + 2;
    for calls in 0..enough + 1 {
        let mut input = Frail {
            left: SCHEDULE,
            calls,
            interrupted: false,
        };
        let mut out = Vec::new(rt.alloc());
        let mut err = Vec::new(rt.alloc());
        let status = play_text(
            rt.alloc(),
            "rows.txt",
            &mut input,
            &mut out,
            &mut err,
            &mut Untold,
        );
        if calls < enough {
            assert_eq!(rt; status, STREAM_FAILED);
            assert!(rt; out.is_empty());
            assert_eq!(rt; err.as_slice(), UNREAD);
        } else {
            assert_eq!(rt; status, SHOWN);
            assert_eq!(rt; out.as_slice(), LINES);
            assert!(rt; err.is_empty());
        }
    }
    Ok(())
}

#[test]
fn a_write_that_fails(rt: HostRuntime) -> Result<(), Fail> {
    let enough = 2 * LINES.len();
    for calls in 0..enough + 1 {
        let mut input = SCHEDULE;
        let mut out = Full {
            taken: Vec::new(rt.alloc()),
            calls,
            interrupted: false,
        };
        let mut err = Vec::new(rt.alloc());
        let status = play_text(
            rt.alloc(),
            "rows.txt",
            &mut input,
            &mut out,
            &mut err,
            &mut Untold,
        );
        let wanted = if calls < enough { STREAM_FAILED } else { SHOWN };
        assert_eq!(rt; status, wanted);
        assert!(rt; LINES.starts_with(out.taken.as_slice()));
        assert_eq!(rt; out.taken.len(), calls / 2);
        assert!(rt; err.is_empty());
    }
    Ok(())
}

#[test]
fn a_refusal_that_cannot_be_written(rt: HostRuntime) -> Result<(), Fail> {
    let enough = 2 * REFUSAL.len();
    for calls in 0..enough + 1 {
        let mut input = NO_SCHEDULE;
        let mut out = Vec::new(rt.alloc());
        let mut err = Full {
            taken: Vec::new(rt.alloc()),
            calls,
            interrupted: false,
        };
        let status = play_text(
            rt.alloc(),
            "rows.txt",
            &mut input,
            &mut out,
            &mut err,
            &mut Untold,
        );
        let wanted = if calls < enough {
            STREAM_FAILED
        } else {
            REFUSED
        };
        assert_eq!(rt; status, wanted);
        assert!(rt; REFUSAL.starts_with(err.taken.as_slice()));
        assert_eq!(rt; err.taken.len(), calls / 2);
        assert!(rt; out.is_empty());
    }
    Ok(())
}

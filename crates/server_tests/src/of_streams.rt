//! The k-th read and the k-th write fails, for each k.

use std::alloc::Global;
use std::io;
use std::io::{ErrorKind, Read, Write};
use std::test::Fail;
use streams::{Ending, Listener, read_session, write_session};

/// A reader that gives three bytes at a time, and whose reads fail from one on. It counts its reads.
#[derive(Drop)]
struct Failing<'a> {
    rest: &'a [u8],
    before: usize,
    reads: usize,
}

impl Read for Failing<'_> {
    fn read(&mut self, buffer: &mut [u8]) -> io::Result<usize> {
        self.reads = self.reads.saturating_add(1);
        if self.before == 0 {
            return Err(io::Error::from(ErrorKind::ConnectionReset));
        }
        self.before -= 1;
        let most = if buffer.len() < 3 { buffer.len() } else { 3 };
        self.rest.read(&mut buffer[..most])
    }
}

/// A writer that takes two bytes at a time, and whose writes fail from one on. It counts its writes.
#[derive(Drop)]
struct Stuck {
    taken: Vec<u8>,
    before: usize,
    writes: usize,
}

impl Write for Stuck {
    fn write(&mut self, text: &[u8]) -> io::Result<usize> {
        self.writes = self.writes.saturating_add(1);
        if self.before == 0 {
            return Err(io::Error::from(ErrorKind::BrokenPipe));
        }
        self.before -= 1;
        let most = if text.len() < 2 { text.len() } else { 2 };
        self.taken.write(&text[..most])
    }

    fn flush(&mut self) -> io::Result<()> {
        Ok(())
    }
}

/// Keeps what it hears, and how often it heard a hangup.
#[derive(Drop)]
struct Notes {
    heard: Vec<u8>,
    hangups: u8,
    most: usize,
}

impl Listener for Notes {
    ghost hears = { λ s piece more t. Unit {0} };

    ghost leaves = { λ s t. Unit {0} };

    fn hear(&mut self, piece: &[u8]) -> bool {
        self.heard.extend_from_slice(piece).is_ok() && self.heard.len() < self.most
    }

    fn hang_up(&mut self) {
        self.hangups = self.hangups.saturating_add(1);
    }
}

fn new_notes(alloc: Global, most: usize) -> Notes {
    Notes {
        heard: Vec::new(alloc),
        hangups: 0,
        most,
    }
}

#[test]
fn each_read_fails_once(rt: HostRuntime) -> Result<(), Fail> {
    let text = b"0123456789";
    for k in 0..6usize {
        let mut input = Failing {
            rest: text,
            before: k,
            reads: 0,
        };
        let mut notes = new_notes(rt.alloc(), 100);
        let ending = read_session(&mut input, &mut notes);
        let all = if k < 4 { 3 * k } else { 10 };
        assert_eq!(rt; notes.heard.as_slice(), &text[..all], "{k}");
        assert_eq!(rt; notes.hangups, 1, "{k}");
        let expected = if k < 5 { Ending::Failed } else { Ending::AtEnd };
        assert_eq!(rt; ending, expected, "{k}");
        // Four pieces and the end, or a fault: no read comes after it.
        assert_eq!(rt; input.reads, if k < 5 { k + 1 } else { 5 }, "{k}");
    }
    Ok(())
}

#[test]
fn a_listener_that_has_enough_hears_no_more(rt: HostRuntime) -> Result<(), Fail> {
    let mut input = Failing {
        rest: b"0123456789",
        before: 9,
        reads: 0,
    };
    let mut notes = new_notes(rt.alloc(), 5);
    let ending = read_session(&mut input, &mut notes);
    assert_eq!(rt; notes.heard.as_slice(), b"012345".as_slice());
    assert_eq!(rt; notes.hangups, 0);
    assert_eq!(rt; ending, Ending::Enough);
    assert_eq!(rt; input.reads, 2);
    Ok(())
}

#[test]
fn each_write_fails_once(rt: HostRuntime) -> Result<(), Fail> {
    let text = b"0123456789";
    for k in 0..7usize {
        let mut output = Stuck {
            taken: Vec::new(rt.alloc()),
            before: k,
            writes: 0,
        };
        let ended = write_session(&mut output, text);
        let expected = if k < 5 { Err(2 * k) } else { Ok(()) };
        assert_eq!(rt; ended, expected, "{k}");
        let all = if k < 5 { 2 * k } else { 10 };
        assert_eq!(rt; output.taken.as_slice(), &text[..all], "{k}");
        assert_eq!(rt; output.writes, if k < 5 { k + 1 } else { 5 }, "{k}");
    }
    Ok(())
}

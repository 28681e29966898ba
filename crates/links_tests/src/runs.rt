//! Two ends, and connections between them that end at any byte.

use crate::texts::{is_text, text_of};
use base::Text;
use links::{LaneBounds, Message, MessageReader, Receiving, Sending, seal_in_pieces, to_bytes};
use random::Words;
use seals::{Opener, Sealer};
use std::alloc::Global;

/// One way of one connection.
#[derive(Drop)]
struct Way {
    sealer: Sealer,
    opener: Opener,
    reader: MessageReader,
    /// All bytes that were sent.
    sent: Vec<u8>,
    /// How many of them have come.
    came: usize,
}

impl Way {
    fn new(alloc: Global, key: [u8; 32], most: usize) -> Way {
        Way {
            sealer: Sealer::new(key),
            opener: Opener::new(alloc, key),
            reader: MessageReader::new(alloc, most),
            sent: Vec::new(alloc),
            came: 0,
        }
    }

    /// Sends a message.
    fn send(&mut self, alloc: Global, number: u64, text: &Text) -> Option<()> {
        let bytes = to_bytes(alloc, number, text).ok()?;
        seal_in_pieces(alloc, &mut self.sealer, bytes.as_slice(), &mut self.sent).ok()
    }

    /// The next bytes come, at most so many.
    fn come(&mut self, alloc: Global, count: usize, messages: &mut Vec<Message>) -> Option<()> {
        let (_, behind) = self
            .sent
            .as_slice()
            .split_at(self.came.min(self.sent.len()));
        let (front, _) = behind.split_at(count.min(behind.len()));
        let mut pieces = Vec::new(alloc);
        self.opener.feed(alloc, front, &mut pieces).ok()?;
        self.came = self.came.saturating_add(front.len());
        for piece in &pieces {
            self.reader.feed(alloc, piece.as_slice(), messages).ok()?;
        }
        Some(())
    }
}

/// Both ends of a lane, and the newest connection.
#[derive(Drop)]
struct Run {
    sending: Sending,
    receiving: Receiving,
    there: Way,
    back: Way,
    connections: u8,
    pushed: u32,
    received: u32,
    is_right: bool,
}

/// How many bytes the letter after so many others has. Each fiftieth has more than one piece.
fn size_after(count: u32) -> usize {
    if count % 50 == 49 {
        70_000
    } else {
        (count % 41) as usize
    }
}

/// The text of the letter after so many others.
fn letter_after(alloc: Global, count: u32) -> Option<Text> {
    text_of(alloc, (count % 251) as u8, size_after(count))
}

impl Run {
    fn new(alloc: Global) -> Run {
        Run {
            sending: Sending::new(alloc, LaneBounds::BULK),
            receiving: Receiving::new(0),
            there: Way::new(alloc, [0; 32], 0),
            back: Way::new(alloc, [0; 32], 0),
            connections: 0,
            pushed: 0,
            received: 0,
            is_right: true,
        }
    }

    /// The connection ends, and there is a new one, with other keys.
    fn connect(&mut self, alloc: Global) -> Option<()> {
        self.connections = self.connections.wrapping_add(1);
        self.there = Way::new(
            alloc,
            [self.connections; 32],
            LaneBounds::BULK.most_letter_bytes,
        );
        self.back = Way::new(alloc, [self.connections; 32], 0);
        self.sending.connect(1).ok()?;
        self.receiving.connect(1).ok()
    }

    fn push(&mut self, alloc: Global) -> Option<()> {
        let text = letter_after(alloc, self.pushed)?;
        self.sending.push(text).ok()?;
        self.pushed = self.pushed.saturating_add(1);
        Some(())
    }

    fn hand_out(&mut self, alloc: Global) -> Option<()> {
        if let Some((number, text)) = self.sending.hand_out().ok()? {
            self.there.send(alloc, number, &text)?;
        }
        Some(())
    }

    /// A message comes to the receiver.
    fn receive(&mut self, alloc: Global, message: Message) -> Option<()> {
        if let Some(letter) = self.receiving.receive(message).ok()? {
            let text = letter_after(alloc, self.received)?;
            self.is_right = is_text(alloc, &text, letter.text())? && self.is_right;
            self.received = self.received.saturating_add(1);
        }
        Some(())
    }

    /// Bytes come to the receiver, at most so many.
    fn come(&mut self, alloc: Global, count: usize) -> Option<()> {
        let mut messages = Vec::new(alloc);
        self.there.come(alloc, count, &mut messages)?;
        for message in messages {
            self.receive(alloc, message)?;
        }
        Some(())
    }

    /// The receiver acknowledges, if that is due.
    fn acknowledge(&mut self, alloc: Global) -> Option<()> {
        if let Some(number) = self.receiving.acknowledgement() {
            self.back.send(alloc, number, &Text::new(alloc))?;
        }
        Some(())
    }

    /// Bytes come to the sender, at most so many.
    fn hear(&mut self, alloc: Global, count: usize) -> Option<()> {
        let mut messages = Vec::new(alloc);
        self.back.come(alloc, count, &mut messages)?;
        for message in &messages {
            self.sending.acknowledge(message.number()).ok()?;
        }
        Some(())
    }

    /// Something happens, by chance.
    fn step(&mut self, alloc: Global, words: &mut Words) -> Option<()> {
        match words.below(20) {
            0..=5 => self.push(alloc),
            6..=11 => self.hand_out(alloc),
            12..=15 => self.come(alloc, words.below(20_000) as usize),
            16 => self.come(alloc, words.below(30) as usize),
            17 => self.acknowledge(alloc),
            18 => self.hear(alloc, words.below(60) as usize),
            _ => self.connect(alloc),
        }
    }

    /// All that waits is sent, comes and is acknowledged.
    fn settle(&mut self, alloc: Global) -> Option<()> {
        for _ in 0..400 {
            self.hand_out(alloc)?;
            self.come(alloc, usize::MAX)?;
            self.acknowledge(alloc)?;
            self.hear(alloc, usize::MAX)?;
        }
        Some(())
    }
}

/// Steps by chance, and then all that waits comes.
fn go(alloc: Global, run: &mut Run, words: &mut Words, steps: usize) -> Option<()> {
    run.connect(alloc)?;
    for _ in 0..steps {
        run.step(alloc, words)?;
    }
    run.settle(alloc)
}

/// Whether each letter that was pushed has come, once and in order, and none is held. `None`: there was no memory, or one of
/// the ends has refused what the other one sent.
fn comes_through(alloc: Global, seed: u32, steps: usize) -> Option<bool> {
    let mut run = Run::new(alloc);
    let mut words = Words::new(seed);
    go(alloc, &mut run, &mut words, steps)?;
    Some(run.is_right && run.received == run.pushed && run.sending.len() == 0)
}

#[test]
fn letters_come_through_whatever_is_lost(rt: HostRuntime) {
    for seed in 0..20u32 {
        assert!(rt;
            comes_through(rt.alloc(), seed, 500) == Some(true),
            "{seed}"
        );
    }
}

/// `scripts/refusals` has each of its allocations fail in turn.
#[test]
fn a_refused_allocation_changes_no_letter(rt: HostRuntime) {
    assert!(rt; comes_through(rt.alloc(), 3, 40) != Some(false));
}

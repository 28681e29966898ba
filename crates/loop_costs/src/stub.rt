//! A service that keeps items in a map. It answers at once, but 64 commands of a connection in one go at most, and
//! a `get late` only at a tick: so it uses all that an event loop offers.

use crate::store::Store;
use event_loop::Serve;
use loop_messages::{Heard, MOST_UNWRITTEN, Said};
use proto::{Command, Reader, Turn, write_reply};
use std::alloc::{AllocError, Global};
use std::collections::VecDeque;
use std::mem;
use std::rt::Clock;
use std::sync::Wait;
use std::thread::Threads;

/// So many commands of a connection are answered in one go.
const MOST_AT_ONCE: usize = 64;

/// What a connection waits for.
#[derive(Clone, Copy, PartialEq, Eq)]
enum Waits {
    /// Its next bytes.
    Bytes,
    /// The next `work`.
    Work,
    /// That what was said is written.
    Writing,
    /// The next tick.
    Tick,
}

/// A connection.
#[derive(Drop)]
struct Peer {
    key: usize,
    number: u64,
    waits: Waits,
    reader: Reader,
    /// What was read and not answered.
    turns: VecDeque<Turn>,
    /// So many bytes were said and not told of as written.
    unwritten: usize,
}

impl Peer {
    fn new(alloc: Global, key: usize, number: u64) -> Peer {
        Peer {
            key,
            number,
            waits: Waits::Bytes,
            reader: Reader::new(alloc),
            turns: VecDeque::new(alloc),
            unwritten: 0,
        }
    }

    fn read(&mut self, alloc: Global, piece: &[u8]) -> Result<(), AllocError> {
        for turn in self.reader.feed(alloc, piece)? {
            self.turns.push_back(turn)?;
        }
        Ok(())
    }

    /// Answers one turn: whether it closes.
    fn answer(
        &mut self,
        alloc: Global,
        store: &mut Store,
        turn: Turn,
        bytes: &mut Vec<u8>,
    ) -> Result<bool, AllocError> {
        match turn {
            Turn::Ask(command, quiet) => {
                let reply = store.reply(alloc, command)?;
                if !quiet {
                    write_reply(&reply, bytes)?;
                }
                Ok(false)
            }
            Turn::Say(notice) => {
                bytes.extend_from_slice(notice.text())?;
                Ok(false)
            }
            Turn::Close(notice) => {
                bytes.extend_from_slice(notice.text())?;
                Ok(true)
            }
        }
    }

    /// What it waits for before its next command.
    fn next(&self, said: usize, is_tick: bool) -> Waits {
        match self.turns.front() {
            None => Waits::Bytes,
            Some(_) if MOST_UNWRITTEN <= self.unwritten.saturating_add(said) => Waits::Writing,
            Some(turn) if is_late(turn) && !is_tick => Waits::Tick,
            Some(_) => Waits::Work,
        }
    }

    /// Answers what was read, as far as it goes in one go.
    fn go(
        &mut self,
        alloc: Global,
        store: &mut Store,
        mut is_tick: bool,
    ) -> Result<Said, AllocError> {
        let mut bytes = Vec::new(alloc);
        let mut closes = false;
        for _ in 0..MOST_AT_ONCE {
            if closes || self.next(bytes.len(), is_tick) != Waits::Work {
                break;
            }
            is_tick = false;
            if let Some(turn) = self.turns.pop_front() {
                closes = self.answer(alloc, store, turn, &mut bytes)?;
            }
        }
        self.unwritten = self.unwritten.saturating_add(bytes.len());
        self.waits = self.next(0, false);
        Ok(Said {
            key: self.key,
            number: self.number,
            bytes,
            closes,
            waits: self.waits != Waits::Bytes,
        })
    }
}

/// Whether the turn is a `get late`.
fn is_late(turn: &Turn) -> bool {
    match turn {
        Turn::Ask(Command::Get(keys), _) => match keys.as_slice().first() {
            Some(key) => key.as_slice() == b"late".as_slice(),
            None => false,
        },
        _ => false,
    }
}

#[derive(Drop)]
pub struct Stub {
    alloc: Global,
    store: Store,
    peers: Vec<Option<Peer>>,
    said: Vec<Said>,
}

impl Stub {
    pub fn new(alloc: Global) -> Stub {
        Stub {
            alloc,
            store: Store::new(alloc),
            peers: Vec::new(alloc),
            said: Vec::new(alloc),
        }
    }

    /// A connection comes. At a key that is taken none is let in.
    fn come(&mut self, key: usize, number: u64) -> Result<(), AllocError> {
        for _ in self.peers.len()..key.saturating_add(1) {
            self.peers.push(None)?;
        }
        if let Some(place) = self.peers.get_mut(key) {
            if place.is_none() {
                *place = Some(Peer::new(self.alloc, key, number));
            }
        }
        Ok(())
    }

    /// The connection, if it is there.
    fn peer(&mut self, key: usize, number: u64) -> Option<&mut Peer> {
        match self.peers.get_mut(key) {
            Some(Some(peer)) if peer.number == number => Some(peer),
            _ => None,
        }
    }

    fn leave(&mut self, key: usize, number: u64) {
        if self.peer(key, number).is_some() && key < self.peers.len() {
            self.peers[key] = None;
        }
    }

    fn read(&mut self, key: usize, number: u64, piece: &[u8]) -> Result<(), AllocError> {
        let alloc = self.alloc;
        if let Some(peer) = self.peer(key, number) {
            peer.read(alloc, piece)?;
        }
        self.go(key, number, false)
    }

    fn written(&mut self, key: usize, number: u64, count: usize) -> Result<(), AllocError> {
        if let Some(peer) = self.peer(key, number) {
            peer.unwritten = peer.unwritten.saturating_sub(count);
        }
        self.go(key, number, false)
    }

    /// What the connection asked is answered as far as it goes. If it is not there nothing is said.
    fn go(&mut self, key: usize, number: u64, is_tick: bool) -> Result<(), AllocError> {
        self.said.reserve(1)?;
        let alloc = self.alloc;
        let said = match self.peers.get_mut(key) {
            Some(Some(peer)) if peer.number == number => peer.go(alloc, &mut self.store, is_tick)?,
            _ => return Ok(()),
        };
        if said.closes {
            self.leave(key, number);
        }
        self.said.push(said)?;
        Ok(())
    }

    /// Those that wait for this go on.
    fn go_on(&mut self, waits: Waits) {
        for key in 0..self.peers.len() {
            let found = match self.peers.get(key) {
                Some(Some(peer)) if peer.waits == waits => Some(peer.number),
                _ => None,
            };
            if let Some(number) = found {
                let _ = self.go(key, number, waits == Waits::Tick);
            }
        }
    }

    fn is_any(&self, waits: Waits) -> bool {
        for peer in self.peers.iter() {
            if matches!(peer, Some(peer) if peer.waits == waits) {
                return true;
            }
        }
        false
    }
}

impl Serve for Stub {
    fn set_micros(&mut self, _micros: u64) {}

    fn hear(&mut self, heard: Vec<Heard>) {
        for one in heard {
            match one {
                Heard::Came { key, number } => {
                    let _ = self.come(key, number);
                }
                Heard::Bytes { key, number, bytes } => {
                    let _ = self.read(key, number, bytes.as_slice());
                }
                Heard::Written { key, number, count } => {
                    let _ = self.written(key, number, count);
                }
                Heard::Left { key, number } => self.leave(key, number),
            }
        }
    }

    fn work<R: Threads + Wait + Sync, C: Clock>(
        &mut self,
        _rt: &R,
        _clock: &C,
        _seconds: u32,
    ) -> Vec<Said> {
        if self.said.is_empty() {
            self.go_on(Waits::Work);
        }
        let alloc = self.alloc;
        mem::replace(&mut self.said, Vec::new(alloc))
    }

    fn tick(&mut self) {
        self.go_on(Waits::Tick);
    }

    fn has_work(&self) -> bool {
        self.is_any(Waits::Work)
    }

    fn is_waiting(&self) -> bool {
        self.is_any(Waits::Tick)
    }
}

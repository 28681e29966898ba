//! A connection as its client sees it.

use crate::command::{Command, KEYS};
use crate::judge::{Ask, Judge, Pending};
use random::Words;
use std::alloc::{AllocError, Global};
use std::collections::VecDeque;

/// The most commands that a piece makes whole.
const MOST_COMMANDS: u32 = 4;

/// A client of the service.
#[derive(Drop)]
pub struct Peer {
    /// Its index among the clients.
    client: usize,
    /// The number of its connection, or 0 if it has none.
    pub number: u64,
    /// What it asks and has not sent whole, and the bytes that are left of that.
    begun: Option<Ask>,
    rest: Vec<u8>,
    /// What it waits for, in the order in which it asked.
    pending: VecDeque<Pending>,
    /// How much it was given that it has not told to be written.
    pub unwritten: usize,
    /// Whether it was told to wait with more.
    pub waits: bool,
}

/// Puts the bytes of what a client's connection asks.
fn put_ask(
    alloc: Global,
    judge: &Judge,
    client: usize,
    ask: Ask,
    text: &mut Vec<u8>,
) -> Result<(), AllocError> {
    match ask {
        Ask::Count { is_quiet: false } => text.extend_from_slice(b"incr n 1\r\n"),
        Ask::Count { is_quiet: true } => text.extend_from_slice(b"incr n 1 noreply\r\n"),
        Ask::ReadCount => text.extend_from_slice(b"get n\r\n"),
        Ask::Own(command) => command.put(alloc, judge.number(client), text),
        Ask::OwnKeys => put_get_all(alloc, judge.number(client), text),
        Ask::Other { owner, key } => {
            let number = judge.number(owner);
            let line = format!(in alloc; "get {number}.{key}\r\n")?;
            text.extend_from_slice(line.as_bytes())
        }
    }
}

/// Puts a `get` of all keys of a connection.
fn put_get_all(alloc: Global, number: u64, text: &mut Vec<u8>) -> Result<(), AllocError> {
    text.extend_from_slice(b"get")?;
    for key in 0..KEYS {
        let word = format!(in alloc; " {number}.{key}")?;
        text.extend_from_slice(word.as_bytes())?;
    }
    text.extend_from_slice(b"\r\n")
}

impl Peer {
    /// It has no connection.
    pub fn new(alloc: Global, client: usize) -> Peer {
        Peer {
            client,
            number: 0,
            begun: None,
            rest: Vec::new(alloc),
            pending: VecDeque::new(alloc),
            unwritten: 0,
            waits: false,
        }
    }

    /// It has a new connection.
    pub fn come(&mut self, number: u64) {
        self.leave();
        self.number = number;
    }

    /// It has no connection any more.
    pub fn leave(&mut self) {
        self.number = 0;
        self.begun = None;
        self.rest.clear();
        self.pending.clear();
        self.unwritten = 0;
        self.waits = false;
    }

    /// Whether it waits for a reply.
    pub fn is_waiting(&self) -> bool {
        self.number > 0 && !self.pending.is_empty()
    }

    /// Whether it asks for a key of this client, and has no answer.
    pub fn asks_for(&self, client: usize) -> bool {
        let is_begun = matches!(self.begun, Some(Ask::Other { owner, .. }) if owner == client);
        is_begun
            || self.pending.iter().any(
                |it| matches!(it, Pending::Other { owner, .. } if *owner == client),
            )
    }

    /// A command of its own keys, at random.
    fn next_own(&self, judge: &mut Judge, words: &mut Words) -> Command {
        let command = Command::any(words);
        let is_shown = !words.one_in(4);
        match judge.model(self.client) {
            Some(model) => model.fitted(command, is_shown),
            None => command,
        }
    }

    /// What it asks next, at random.
    fn next_ask(&self, judge: &mut Judge, words: &mut Words, clients: u32) -> Ask {
        let owner = words.below(clients) as usize;
        match words.below(10) {
            0 | 1 => Ask::Count {
                is_quiet: words.one_in(5),
            },
            2 => Ask::ReadCount,
            3 => Ask::OwnKeys,
            4 | 5 if judge.number(owner) > 0 => Ask::Other {
                owner,
                key: words.below(KEYS as u32) as usize,
            },
            _ => Ask::Own(self.next_own(judge, words)),
        }
    }

    /// A command was sent whole.
    fn send(&mut self, alloc: Global, judge: &mut Judge, ask: Ask) -> Result<(), AllocError> {
        if let Some(pending) = judge.hear(alloc, self.client, ask)? {
            self.pending.push_back(pending)?;
        }
        Ok(())
    }

    /// The rest of the command that is sent in part.
    fn finish(
        &mut self,
        alloc: Global,
        judge: &mut Judge,
        piece: &mut Vec<u8>,
    ) -> Result<(), AllocError> {
        if let Some(ask) = self.begun.take() {
            piece.extend_from_slice(&self.rest)?;
            self.rest.clear();
            self.send(alloc, judge, ask)?;
        }
        Ok(())
    }

    /// Some of the bytes of a command, of which the others are sent later.
    fn begin(
        &mut self,
        alloc: Global,
        judge: &Judge,
        ask: Ask,
        words: &mut Words,
        piece: &mut Vec<u8>,
    ) -> Result<(), AllocError> {
        put_ask(alloc, judge, self.client, ask, &mut self.rest)?;
        let size = words.below(self.rest.len().min(60) as u32) as usize;
        if let Some(sent) = self.rest.get(..size) {
            piece.extend_from_slice(sent)?;
        }
        self.rest.drain(..size.min(self.rest.len()));
        self.begun = Some(ask);
        Ok(())
    }

    /// Puts the next piece that it sends: what is left of a command, some whole ones, and a part of one more. It is to be
    /// heard at once.
    ///
    /// NoMemory: an allocation failed, and the connection is to be closed.
    pub fn put_piece(
        &mut self,
        alloc: Global,
        judge: &mut Judge,
        words: &mut Words,
        clients: u32,
        piece: &mut Vec<u8>,
    ) -> Result<(), AllocError> {
        self.finish(alloc, judge, piece)?;
        for _ in 0..words.below(MOST_COMMANDS) {
            let ask = self.next_ask(judge, words, clients);
            put_ask(alloc, judge, self.client, ask, piece)?;
            self.send(alloc, judge, ask)?;
        }
        if words.below(2) == 0 {
            let ask = self.next_ask(judge, words, clients);
            self.begin(alloc, judge, ask, words, piece)?;
        }
        Ok(())
    }

    /// Puts a `get` of each key of the connections of so many clients, and one of the counter. It is to be heard at once.
    ///
    /// NoMemory: an allocation failed, and the connection is to be closed.
    pub fn put_check(
        &mut self,
        alloc: Global,
        judge: &mut Judge,
        clients: usize,
        piece: &mut Vec<u8>,
    ) -> Result<(), AllocError> {
        put_ask(alloc, judge, self.client, Ask::ReadCount, piece)?;
        self.send(alloc, judge, Ask::ReadCount)?;
        for at in 0..clients.saturating_mul(KEYS) {
            let owner = at / KEYS;
            if judge.number(owner) > 0 {
                let ask = Ask::Other {
                    owner,
                    key: at % KEYS,
                };
                put_ask(alloc, judge, self.client, ask, piece)?;
                self.send(alloc, judge, ask)?;
            }
        }
        Ok(())
    }

    /// It is given the reply of its first command: what is behind it.
    fn take_reply<'b>(&mut self, judge: &mut Judge, bytes: &'b [u8]) -> Option<&'b [u8]> {
        let pending = self.pending.pop_front()?;
        judge.give(self.client, &pending, bytes)
    }

    /// It is given these bytes: whole replies, each of which has to be right.
    pub fn take(&mut self, judge: &mut Judge, bytes: &[u8]) {
        self.unwritten = self.unwritten.saturating_add(bytes.len());
        let mut rest = bytes;
        for _ in 0..bytes.len() {
            if rest.is_empty() {
                return;
            }
            match self.take_reply(judge, rest) {
                Some(behind) => rest = behind,
                None => {
                    judge.refuse();
                    return;
                }
            }
        }
    }
}

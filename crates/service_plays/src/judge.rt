//! Whether what is given is what one server would give.

use crate::command::Command;
use crate::counter::{Counted, Counter};
use crate::model::Model;
use crate::wanted::{Wanted, first_number};
use std::alloc::{AllocError, Global};
use std::mem;

/// What a client may ask.
#[derive(Clone, Copy)]
pub enum Ask {
    /// One is added to the counter of all clients.
    Count { is_quiet: bool },
    ReadCount,
    /// A command of one of the connection's own keys.
    Own(Command),
    /// All of its own keys, by one `get`.
    OwnKeys,
    /// A `get` of a key of another connection: of the client at this index.
    Other { owner: usize, key: usize },
}

/// A command that was heard whole and is not answered yet.
#[derive(Drop)]
pub enum Pending {
    Count(Counted),
    /// Its reply, and what text the key has after it.
    Own {
        wanted: Wanted,
        key: usize,
        text: usize,
    },
    OwnKeys(Wanted),
    /// It is to be given this text of the key, or a later one.
    Other {
        owner: usize,
        key: usize,
        floor: usize,
    },
}

/// What was heard and given so far.
#[derive(Drop)]
pub struct Judge {
    pub counter: Counter,
    /// The counter when a record was made.
    kept_counter: Counter,
    /// One server's items, of each client's connection.
    models: Vec<Model>,
    pub moment: u32,
    pub commands: u64,
    pub replies: u64,
    /// Whether all was right so far.
    pub is_right: bool,
}

/// The number of a `get` of the counter, and what is behind it.
fn counter_value(bytes: &[u8]) -> Option<(u64, &[u8])> {
    let (size, rest) = first_number(bytes.strip_prefix(b"VALUE n 0 ".as_slice())?)?;
    let text = rest.strip_prefix(b"\r\n".as_slice())?;
    let (number, rest) = first_number(text)?;
    let digits = text.len().saturating_sub(rest.len());
    let rest = rest.strip_prefix(b"\r\nEND\r\n".as_slice())?;
    (digits as u64 == size).then_some((number, rest))
}

/// The number of an `incr`, and what is behind it.
fn counter_line(bytes: &[u8]) -> Option<(u64, &[u8])> {
    let (number, rest) = first_number(bytes)?;
    Some((number, rest.strip_prefix(b"\r\n".as_slice())?))
}

/// A model for each client.
fn models(alloc: Global, count: usize) -> Result<Vec<Model>, AllocError> {
    let mut models = Vec::with_capacity(alloc, count.min(64))?;
    for _ in 0..count.min(64) {
        models.push(Model::new(alloc))?;
    }
    Ok(models)
}

impl Judge {
    /// Of so many clients, none of whom has a connection.
    pub fn new(alloc: Global, clients: usize) -> Result<Judge, AllocError> {
        let models = models(alloc, clients)?;
        Ok(Judge {
            counter: Counter::new(alloc),
            kept_counter: Counter::new(alloc),
            models,
            moment: 1000,
            commands: 0,
            replies: 0,
            is_right: true,
        })
    }

    pub fn model(&mut self, client: usize) -> Option<&mut Model> {
        self.models.get_mut(client)
    }

    /// The number of the client's last connection.
    pub fn number(&self, client: usize) -> u64 {
        self.models.get(client).map_or(0, |model| model.number)
    }

    /// A record is made: what was given up to now stays true if the process ends. `false`: there is no memory to note
    /// that, and the record is not to be used.
    pub fn keep(&mut self, alloc: Global) -> bool {
        let Ok(counter) = self.counter.copied(alloc) else {
            return false;
        };
        self.kept_counter = counter;
        for model in self.models.iter_mut() {
            model.keep();
        }
        true
    }

    /// The process ended, and another one goes on from the record. The record is not to be used again.
    pub fn go_back(&mut self) {
        mem::swap(&mut self.counter, &mut self.kept_counter);
        for model in self.models.iter_mut() {
            model.go_back();
        }
    }

    /// Something is wrong.
    pub fn refuse(&mut self) {
        self.is_right = false;
    }

    /// It is a later moment, and no command is outstanding. It tries thrice, since a growth may be refused on purpose.
    pub fn pass(&mut self, alloc: Global, client: usize, is_here: bool) {
        let moment = u64::from(self.moment);
        let Some(model) = self.models.get_mut(client) else {
            return;
        };
        let is_passed = model.pass(alloc, moment, is_here).is_ok()
            || model.pass(alloc, moment, is_here).is_ok()
            || model.pass(alloc, moment, is_here).is_ok();
        if !is_passed {
            self.is_right = false;
        }
    }

    /// A command of one of the client's keys was heard.
    fn hear_own(
        &mut self,
        alloc: Global,
        client: usize,
        command: &Command,
    ) -> Result<Option<Pending>, AllocError> {
        let moment = u64::from(self.moment);
        let Some(model) = self.models.get_mut(client) else {
            return Ok(None);
        };
        let wanted = model.run(alloc, command, moment)?;
        let text = model.slot(command.key).map_or(0, |slot| slot.latest());
        Ok(
            (!command.is_quiet).then_some(Pending::Own {
                wanted,
                key: command.key,
                text,
            }),
        )
    }

    /// A `get` of all of the client's keys was heard.
    fn hear_own_keys(&self, alloc: Global, client: usize) -> Result<Option<Pending>, AllocError> {
        match self.models.get(client) {
            Some(model) => Ok(Some(Pending::OwnKeys(model.get_all(alloc)?))),
            None => Ok(None),
        }
    }

    /// A command of a client was heard whole: what is to be known of it when it is answered, if it is to be.
    pub fn hear(
        &mut self,
        alloc: Global,
        client: usize,
        ask: Ask,
    ) -> Result<Option<Pending>, AllocError> {
        self.commands = self.commands.saturating_add(1);
        match ask {
            Ask::Count { is_quiet } => {
                let counted = self.counter.hear(true);
                Ok((!is_quiet).then_some(Pending::Count(counted)))
            }
            Ask::ReadCount => Ok(Some(Pending::Count(self.counter.hear(false)))),
            Ask::Own(command) => self.hear_own(alloc, client, &command),
            Ask::OwnKeys => self.hear_own_keys(alloc, client),
            Ask::Other { owner, key } => {
                let floor = self
                    .model(owner)
                    .and_then(|model| model.slot(key))
                    .map_or(0, |slot| slot.floor);
                Ok(Some(Pending::Other { owner, key, floor }))
            }
        }
    }

    /// The command on the counter is given the first of these bytes: the others. `None`: it may not be.
    fn give_count<'b>(&mut self, counted: Counted, bytes: &'b [u8]) -> Option<&'b [u8]> {
        let (number, rest) = if counted.adds {
            counter_line(bytes)?
        } else {
            counter_value(bytes)?
        };
        self.counter.give(counted, number).then_some(rest)
    }

    /// The command on an own key is given the first of these bytes: the others. `None`: it may not be.
    fn give_own<'b>(
        &mut self,
        client: usize,
        wanted: &Wanted,
        key: usize,
        text: usize,
        bytes: &'b [u8],
    ) -> Option<&'b [u8]> {
        let (rest, shown) = wanted.taken(bytes)?;
        let model = self.models.get_mut(client)?;
        model.answer(key, text, shown).then_some(rest)
    }

    /// The `get` of another connection's key is given the first of these bytes: the others. `None`: it may not be.
    fn give_other<'b>(
        &mut self,
        owner: usize,
        key: usize,
        floor: usize,
        bytes: &'b [u8],
    ) -> Option<&'b [u8]> {
        let slot = self.models.get_mut(owner)?.slot(key)?;
        let (text, rest) = slot.seen(floor, bytes)?;
        slot.answer(text);
        Some(rest)
    }

    /// The command of the client is given the first of these bytes: the others. `None`: it may not be.
    pub fn give<'b>(
        &mut self,
        client: usize,
        pending: &Pending,
        bytes: &'b [u8],
    ) -> Option<&'b [u8]> {
        self.replies = self.replies.saturating_add(1);
        match pending {
            Pending::Count(counted) => self.give_count(*counted, bytes),
            Pending::Own { wanted, key, text } => self.give_own(client, wanted, *key, *text, bytes),
            Pending::OwnKeys(wanted) => Some(wanted.taken(bytes)?.0),
            Pending::Other { owner, key, floor } => self.give_other(*owner, *key, *floor, bytes),
        }
    }
}

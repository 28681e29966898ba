//! One server, which runs each committed batch whole and in its order.

use crate::talks::Talk;
use base::Entry;
use batches::Batch;
use item_steps::{Stamp, apply, reply_of, steps_of};
use items::{Item, PlainStore, Store};
use proto::{Command, Key, Reply};
use sessions::Request;
use states::State;
use std::alloc::{AllocError, Global};
use world::World;

/// How many pages a state has.
const PAGES: usize = 256;

/// One server with its clients. No group has requests that touch one key, as long as no command has more
/// than two; so its answers are those of every interleaving.
#[derive(Drop)]
pub struct PlainServer {
    items: PlainStore,
    moment: u32,
    number: u64,
    talks: Vec<Talk>,
}

fn is_same(a: &Item, b: &Item) -> bool {
    a.block.as_slice() == b.block.as_slice()
        && a.flags == b.flags
        && a.due == b.due
        && a.unique == b.unique
}

/// The reply to a command whose steps are made one after the other.
fn reply(
    alloc: Global,
    items: &mut PlainStore,
    command: &Command,
    at: Stamp,
) -> Result<Reply, AllocError> {
    let steps = steps_of(alloc, command)?;
    let mut answers = Vec::new(alloc);
    for step in &steps {
        answers.push(apply(alloc, items, step, at)?)?;
    }
    if answers.len() != steps.len() {
        return Ok(Reply::NotFound);
    }
    reply_of(alloc, command, &answers)
}

impl PlainServer {
    /// Of so many clients, without items.
    pub fn new(alloc: Global, clients: u16) -> Result<PlainServer, AllocError> {
        let mut talks = Vec::new(alloc);
        for _ in 0..clients {
            talks.push(Talk::new(alloc))?;
        }
        Ok(PlainServer {
            items: PlainStore::new(alloc),
            moment: 0,
            number: 0,
            talks,
        })
    }

    /// How many batches it ran.
    pub fn number(&self) -> u64 {
        self.number
    }

    fn talk(&mut self, client: u16) -> Option<&mut Talk> {
        self.talks.get_mut(usize::from(client).wrapping_sub(1))
    }

    /// The bytes come from the client of this number.
    pub fn feed(&mut self, alloc: Global, client: u16, bytes: &[u8]) -> Result<(), AllocError> {
        match self.talk(client) {
            Some(talk) => talk.feed(alloc, bytes),
            None => Ok(()),
        }
    }

    /// Runs a request, if it is the next of its client. False: the client does not ask it.
    fn run_one(&mut self, alloc: Global, request: &Request, at: Stamp) -> Result<bool, AllocError> {
        let Some(talk) = self
            .talks
            .get_mut(usize::from(request.client).wrapping_sub(1))
        else {
            return Ok(false);
        };
        if request.number != talk.ran().wrapping_add(1) {
            return Ok(true);
        }
        let reply = reply(alloc, &mut self.items, &request.command, at)?;
        talk.answer(request, &reply)
    }

    /// Runs the next batch. False: a client does not ask what is in it.
    pub fn run(&mut self, alloc: Global, batch: &Batch) -> Result<bool, AllocError> {
        self.number = batch.n;
        self.moment = self.moment.max(batch.moment);
        self.items.drop_due(self.moment)?;
        let mut stamp = batch.first_stamp();
        for request in batch.requests.as_slice() {
            let at = Stamp {
                moment: self.moment,
                stamp,
            };
            if !self.run_one(alloc, request, at)? {
                return Ok(false);
            }
            stamp = stamp.saturating_add(1);
        }
        Ok(true)
    }

    /// How many of these entries it has too.
    fn count_of(&self, entries: &[Entry<Key, Item>]) -> usize {
        let mut count = 0usize;
        for entry in entries {
            match self.items.get(entry.key()) {
                Some(item) if is_same(item, entry.value()) => count = count.saturating_add(1),
                _ => {}
            }
        }
        count
    }

    /// Whether the state has just its items.
    fn has_items(&self, alloc: Global, state: &State) -> Result<bool, AllocError> {
        let mut count = 0usize;
        for number in 0..PAGES {
            let entries = state.pages().entries(alloc, number)?;
            let shared = self.count_of(entries.as_slice());
            if shared != entries.len() {
                return Ok(false);
            }
            count = count.saturating_add(shared);
        }
        Ok(count == self.items.as_slice().len())
    }

    /// Whether the state keeps just its last replies.
    fn has_replies(&self, alloc: Global, state: &State) -> Result<bool, AllocError> {
        let mut client = 0u16;
        for talk in &self.talks {
            client = client.saturating_add(1);
            if !talk.is_kept(alloc, state.sessions().kept(client))? {
                return Ok(false);
            }
        }
        Ok(true)
    }

    /// Whether it is in this state.
    pub fn is_in(&self, alloc: Global, state: &State) -> Result<bool, AllocError> {
        Ok(
            state.number() == self.number
                && state.moment() == self.moment
                && self.has_items(alloc, state)?
                && self.has_replies(alloc, state)?,
        )
    }

    /// Whether no client was given more than it answered.
    pub fn gave_all(&self, world: &World) -> bool {
        let mut slots = world.clients().iter();
        self.talks.iter().all(|talk| match slots.next() {
            Some(slot) => talk.is_within(slot.given()),
            None => false,
        })
    }

    /// How many turns the clients were given, if these are whole texts that it answered.
    pub fn turns_given(&self, world: &World) -> Option<u64> {
        let mut turns = 0u64;
        let mut slots = world.clients().iter();
        for talk in &self.talks {
            turns = turns.saturating_add(talk.turns_of(slots.next()?.given())?);
        }
        Some(turns)
    }
}

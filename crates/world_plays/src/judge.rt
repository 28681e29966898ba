//! What executors commit and clients are given, judged after each event.

use crate::checks::History;
use crate::plain::PlainServer;
use batches::Batch;
use events::Event;
use rollback::Chain;
use states::State;
use std::alloc::{AllocError, Global};
use token::Token;
use world::World;

/// A batch with the tokens of the states that it was executed over and that it led to.
#[derive(Drop)]
struct Executed {
    before: Token,
    token: Token,
    batch: Batch,
}

/// Compares a world with one server, which runs what executors commit.
#[derive(Drop)]
pub struct Judge {
    history: History,
    server: PlainServer,
    /// The batches that were executed and that the server has not come to.
    ahead: Vec<Executed>,
    is_one: bool,
}

impl Judge {
    /// Of a world with so many clients in which nothing happened yet, with room for so many batches.
    pub fn new(alloc: Global, clients: u16, most: usize) -> Result<Judge, AllocError> {
        Ok(Judge {
            history: History::new(alloc, most)?,
            server: PlainServer::new(alloc, clients)?,
            ahead: Vec::new(alloc),
            is_one: true,
        })
    }

    /// Whether all that was seen is what one server shows.
    pub fn is_one(&self) -> bool {
        self.is_one
    }

    /// Hears of an event that is to happen.
    pub fn hear(&mut self, alloc: Global, event: &Event) -> Result<(), AllocError> {
        match event {
            Event::Feed { client, bytes } => self.server.feed(alloc, *client, bytes),
            _ => Ok(()),
        }
    }

    /// Notes the batches of tentative states.
    fn note(&mut self, chain: &Chain) -> Result<(), AllocError> {
        for member in chain.members() {
            let token = member.token();
            let is_ahead = member.number() > self.server.number();
            if is_ahead && !self.ahead.iter().any(|executed| executed.token == token) {
                let before = member.before().token();
                let batch = member.batch().clone()?;
                self.ahead.push(Executed {
                    before,
                    token,
                    batch,
                })?;
            }
        }
        Ok(())
    }

    /// The places of the batches that lead from the server's state to this one, the last batch first. None:
    /// one of them is not there.
    fn way_to(&self, alloc: Global, state: &State) -> Result<Option<Vec<usize>>, AllocError> {
        let mut way = Vec::new(alloc);
        let mut token = state.token();
        for _ in self.server.number()..state.number() {
            let is_last = |executed: &Executed| executed.token == token;
            let Some(at) = self.ahead.iter().position(is_last) else {
                return Ok(None);
            };
            let Some(executed) = self.ahead.get(at) else {
                return Ok(None);
            };
            token = executed.before;
            way.push(at)?;
        }
        Ok(Some(way))
    }

    /// Runs these batches, the last one first. False: one is not the next of the server, or does not run.
    fn run_all(&mut self, alloc: Global, way: &[usize]) -> Result<bool, AllocError> {
        for at in way.iter().rev() {
            let Some(executed) = self.ahead.get(*at) else {
                return Ok(false);
            };
            let is_next = executed.batch.n == self.server.number().wrapping_add(1);
            if !is_next || !self.server.run(alloc, &executed.batch)? {
                return Ok(false);
            }
        }
        Ok(true)
    }

    /// Runs the batches that led to a committed state: one, or more if an executor was told what stands.
    /// False: they are not there, or lead to another state.
    fn run(&mut self, alloc: Global, state: &State) -> Result<bool, AllocError> {
        let Some(way) = self.way_to(alloc, state)? else {
            return Ok(false);
        };
        Ok(self.run_all(alloc, &way)? && self.server.is_in(alloc, state)?)
    }

    /// The server comes to a committed state, if that is a later one.
    fn follow(&mut self, alloc: Global, state: &State) -> Result<bool, AllocError> {
        if state.number() <= self.server.number() {
            return Ok(true);
        }
        if !self.run(alloc, state)? {
            return Ok(false);
        }
        let number = self.server.number();
        self.ahead.retain(|executed| executed.batch.n > number);
        Ok(true)
    }

    fn follow_all(&mut self, alloc: Global, world: &World) -> Result<bool, AllocError> {
        for slot in world.executors() {
            if let Some(node) = slot.node() {
                let chain = node.state().chain();
                if !self.follow(alloc, chain.committed())? {
                    return Ok(false);
                }
                self.note(chain)?;
            }
        }
        Ok(true)
    }

    /// Looks at the world after an event.
    pub fn look(&mut self, alloc: Global, world: &World) -> Result<(), AllocError> {
        self.is_one = self.is_one
            && self.history.note_all(world)
            && self.follow_all(alloc, world)?
            && self.server.gave_all(world);
        Ok(())
    }

    /// How many turns clients were given, if all that was seen is what one server shows and some executor
    /// still has its last state.
    pub fn turns_given(&self, world: &World) -> Option<u64> {
        if self.is_one && self.history.is_kept(world) {
            self.server.turns_given(world)
        } else {
            None
        }
    }
}

//! The kinds of batches.

use crate::commands::{delete, get, key, set};
use crate::plan::Plan;
use proto::{Command, Fault};
use std::alloc::Global;

/// A kind of batch.
#[derive(Clone, Copy, PartialEq, Eq)]
pub enum Kind {
    /// 64 sets of items that are there.
    Overwrite,
    /// 64 sets of new items.
    Insert,
    /// 64 gets.
    Get,
    /// One set of an item that is there.
    OneSet,
    OneGet,
    /// 64 deletes of items that are there.
    Delete,
    /// 64 sets of new items that are due a second later.
    Expire,
    /// One get, a second after the 64 sets of `Expire`.
    Due,
    /// One set of a value of 100 KiB.
    SetLarge,
    /// 64 gets of that value, by other clients than those of the other kinds.
    GetLarge,
}

/// The data of the value that `SetLarge` sets.
const LARGE: u32 = 102_400;

/// Its number, and the first one of those that are due: no other item has one as high.
const HIGH: u32 = 9_000_000;

/// Parts the items from each other that one batch names.
const STRIDE: u32 = 7919;

impl Kind {
    /// How many commands a batch has.
    fn commands(self) -> u32 {
        match self {
            Kind::OneSet | Kind::OneGet | Kind::Due | Kind::SetLarge => 1,
            _ => 64,
        }
    }

    /// The client that asks first, from 0.
    pub fn first_client(self) -> u16 {
        match self {
            Kind::GetLarge => 64,
            _ => 0,
        }
    }

    /// The number of the item of a command, in a batch of this number.
    fn item(self, plan: &Plan, round: u32, at: u32) -> u32 {
        let place = round.saturating_mul(64).saturating_add(at);
        match self {
            Kind::Insert | Kind::Delete => plan.items.saturating_add(place),
            Kind::Expire => HIGH.saturating_add(at).saturating_add(1),
            Kind::SetLarge | Kind::GetLarge => HIGH,
            _ => place.wrapping_mul(STRIDE) % plan.items.max(1),
        }
    }

    fn command(self, alloc: Global, plan: &Plan, number: u32) -> Result<Command, Fault> {
        let key = key(alloc, plan.keys, number)?;
        match self {
            Kind::Overwrite | Kind::Insert | Kind::OneSet => set(alloc, key, plan.bytes, number, 0),
            Kind::Expire => set(alloc, key, plan.bytes, number, 1),
            Kind::SetLarge => set(alloc, key, LARGE, number, 0),
            Kind::Get | Kind::OneGet | Kind::Due | Kind::GetLarge => get(alloc, key),
            Kind::Delete => Ok(delete(key)),
        }
    }

    /// The commands of a batch, as the run's batch of this number has them.
    pub fn batch(self, alloc: Global, plan: &Plan, round: u32) -> Result<Vec<Command>, Fault> {
        let mut commands = Vec::new(alloc);
        for at in 0..self.commands() {
            let number = self.item(plan, round, at);
            commands.push(self.command(alloc, plan, number)?)?;
        }
        Ok(commands)
    }
}

ghost use Rattle.std.specs.Prelude.{◌≡◌, ◌↔◌, IsTrue, IfOk};
ghost use Rattle.proto.specs.Update.{key_of_update};

use crate::block::Block;
use crate::key::{Key, Keys};
use std::alloc::AllocError;

/// Which storage line it is (protocol.txt, "Storage commands").
#[derive(Clone, Copy, PartialEq, Eq)]
pub enum StoreVerb {
    Set,
    Add,
    Replace,
    Append,
    Prepend,
}

/// A command that changes one key.
#[derive(PartialEq, Drop)]
pub enum Update {
    Store {
        verb: StoreVerb,
        key: Key,
        flags: u32,
        exptime: i32,
        block: Block,
    },
    Cas {
        key: Key,
        flags: u32,
        exptime: i32,
        block: Block,
        unique: u64,
    },
    Delete {
        key: Key,
    },
    Touch {
        key: Key,
        exptime: i32,
    },
    Incr {
        key: Key,
        delta: u64,
    },
    Decr {
        key: Key,
        delta: u64,
    },
}

/// What a client asks. Times (`exptime`) are in seconds (protocol.txt, "Expiration times").
#[derive(Drop)]
pub enum Command {
    Get(Keys),
    /// With the unique of each item.
    Gets(Keys),
    /// Gives the items of the keys another exptime, and shows them.
    Gat(i32, Keys),
    /// The same, with the unique of each item.
    Gats(i32, Keys),
    Update(Update),
}

impl Update {
    /// The one key that it changes.
    pub fn key(&self) -> &Key
        ensures { result.now ≡ key_of_update self.now }
    {
        match self {
            Update::Store { key, .. } => key,
            Update::Cas { key, .. } => key,
            Update::Delete { key } => key,
            Update::Touch { key, .. } => key,
            Update::Incr { key, .. } => key,
            Update::Decr { key, .. } => key,
        }
    }

    /// Whether it is the same as the other one. It takes no memory.
    pub fn is_same(&self, other: &Update) -> bool
        ensures { IsTrue result ↔ (self.now ≡ other.now) }
    {
        self == other
    }
}

impl Clone for Update {
    ghost is_clone = { λ update copy. copy ≡ update };

    fn clone(&self) -> Result<Update, AllocError> {
        Ok(match self {
            Update::Store {
                verb,
                key,
                flags,
                exptime,
                block,
            } => Update::Store {
                verb: *verb,
                key: key.clone()?,
                flags: *flags,
                exptime: *exptime,
                block: block.clone()?,
            },
            Update::Cas {
                key,
                flags,
                exptime,
                block,
                unique,
            } => Update::Cas {
                key: key.clone()?,
                flags: *flags,
                exptime: *exptime,
                block: block.clone()?,
                unique: *unique,
            },
            Update::Delete { key } => Update::Delete { key: key.clone()? },
            Update::Touch { key, exptime } => Update::Touch {
                key: key.clone()?,
                exptime: *exptime,
            },
            Update::Incr { key, delta } => Update::Incr {
                key: key.clone()?,
                delta: *delta,
            },
            Update::Decr { key, delta } => Update::Decr {
                key: key.clone()?,
                delta: *delta,
            },
        })
    }
}

fn copied(keys: &Keys) -> Result<Keys, AllocError>
    ensures { IfOk result (λ copy. copy ≡ keys.now) }
{
    keys.clone()
}

/// Whether the keys are the same, in their order.
fn are_same(keys: &Keys, others: &Keys) -> bool
    ensures { IsTrue result ↔ (keys.now ≡ others.now) }
{
    keys.as_slice() == others.as_slice()
}

impl Command {
    /// Whether it is the same as the other one. It takes no memory.
    pub fn is_same(&self, other: &Command) -> bool
        ensures { IsTrue result ↔ (self.now ≡ other.now) }
    {
        match (self, other) {
            (Command::Get(keys), Command::Get(others)) => are_same(keys, others),
            (Command::Gets(keys), Command::Gets(others)) => are_same(keys, others),
            (Command::Gat(exptime, keys), Command::Gat(other, others)) => {
                exptime == other && are_same(keys, others)
            }
            (Command::Gats(exptime, keys), Command::Gats(other, others)) => {
                exptime == other && are_same(keys, others)
            }
            (Command::Update(update), Command::Update(other)) => update.is_same(other),
            _ => false,
        }
    }
}

impl Clone for Command {
    ghost is_clone = { λ command copy. copy ≡ command };

    fn clone(&self) -> Result<Command, AllocError> {
        Ok(match self {
            Command::Get(keys) => Command::Get(copied(keys)?),
            Command::Gets(keys) => Command::Gets(copied(keys)?),
            Command::Gat(exptime, keys) => Command::Gat(*exptime, copied(keys)?),
            Command::Gats(exptime, keys) => Command::Gats(*exptime, copied(keys)?),
            Command::Update(update) => Command::Update(update.clone()?),
        })
    }
}

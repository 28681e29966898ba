ghost use Rattle.std.specs.Prelude.{◌≡◌, IfOk};

use crate::block::Block;
use crate::key::{Key, MOST_KEYS};
use base::Listed;
use std::alloc::AllocError;

/// One item that a `get` found, and its unique for a `gets`.
pub struct Found {
    pub key: Key,
    pub flags: u32,
    pub block: Block,
    pub unique: Option<u64>,
}

impl Drop for Found {
    fn drop(self) {
        let Found {
            key: _,
            flags: _,
            block: _,
            unique: _,
        } = self;
    }
}

/// What a line of `get` found, in the order of its keys: at most as many items as it has keys.
pub type Values = Listed<Found, 0, MOST_KEYS>;

/// The answer to a command. Its bytes are what `write_reply` adds.
#[derive(Drop)]
pub enum Reply {
    Stored,
    NotStored,
    Exists,
    NotFound,
    Deleted,
    Touched,
    Number(u64),
    Values(Values),
    TooLarge,
    NotNumber,
}

impl Clone for Found {
    ghost is_clone = { λ found copy. copy ≡ found };

    fn clone(&self) -> Result<Found, AllocError> {
        Ok(Found {
            key: self.key.clone()?,
            flags: self.flags,
            block: self.block.clone()?,
            unique: self.unique,
        })
    }
}

fn copied(values: &Values) -> Result<Values, AllocError>
    ensures { IfOk result (λ copy. copy ≡ values.now) }
{
    values.clone()
}

impl Clone for Reply {
    ghost is_clone = { λ reply copy. copy ≡ reply };

    fn clone(&self) -> Result<Reply, AllocError> {
        Ok(match self {
            Reply::Stored => Reply::Stored,
            Reply::NotStored => Reply::NotStored,
            Reply::Exists => Reply::Exists,
            Reply::NotFound => Reply::NotFound,
            Reply::Deleted => Reply::Deleted,
            Reply::Touched => Reply::Touched,
            Reply::Number(number) => Reply::Number(*number),
            Reply::Values(values) => Reply::Values(copied(values)?),
            Reply::TooLarge => Reply::TooLarge,
            Reply::NotNumber => Reply::NotNumber,
        })
    }
}

ghost use Rattle.std.specs.Prelude.{◌≡◌};
ghost use Rattle.items.specs.Due.{due_of};

use proto::Block;
use std::alloc::AllocError;

/// What is kept under a key.
pub struct Item {
    pub block: Block,
    pub flags: u32,
    /// The moment at which it is dropped, if there is one.
    pub due: Option<u64>,
    pub unique: u64,
}

impl Drop for Item {
    fn drop(self) {
        let Item {
            block: _,
            flags: _,
            due: _,
            unique: _,
        } = self;
    }
}

impl Item {
    ghost use Rattle.items.specs.Map.{is_alive};

    /// Whether it is still there at the moment.
    pub fn is_alive(&self, moment: u32) -> bool
        ensures { result ≡ is_alive moment self.now }
    {
        match self.due {
            None => true,
            Some(due) => (moment as u64) < due,
        }
    }
}

/// When an item with this exptime is due.
pub fn due_at(exptime: i32, moment: u32) -> Option<u64>
    ensures { result ≡ due_of exptime moment }
{
    if exptime == 0 {
        return None;
    }
    if exptime < 0 {
        return Some(moment as u64);
    }
    let after = exptime as u64;
    if after <= 2592000 {
        Some(moment as u64 + after)
    } else {
        Some(after)
    }
}

impl Clone for Item {
    ghost is_clone = { λ item copy. copy ≡ item };

    fn clone(&self) -> Result<Item, AllocError> {
        Ok(Item {
            block: self.block.clone()?,
            flags: self.flags,
            due: self.due,
            unique: self.unique,
        })
    }
}

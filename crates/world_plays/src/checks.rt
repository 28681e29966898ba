//! What no server would show.

use rollback::Chain;
use std::alloc::{AllocError, Global};
use token::Token;
use world::World;

/// The tokens of the states that executors committed so far, by number.
#[derive(Drop)]
pub struct History {
    tokens: Vec<Option<Token>>,
}

impl History {
    /// Of no state, with room for those of so many numbers.
    pub fn new(alloc: Global, most: usize) -> Result<History, AllocError> {
        Ok(History {
            tokens: Vec::with_capacity(alloc, most)?,
        })
    }

    /// Notes a committed state. False: another one of this number was committed, or there is no room.
    fn note(&mut self, number: usize, token: Token) -> bool {
        if number > 1_000_000 {
            return false;
        }
        for _ in self.tokens.len()..number + 1 {
            if self.tokens.push(None).is_err() {
                return false;
            }
        }
        match self.tokens.get_mut(number) {
            None => false,
            Some(known) => match known {
                Some(same) => *same == token,
                None => {
                    *known = Some(token);
                    true
                }
            },
        }
    }

    /// Notes what all executors have committed. False: two committed states of one number differ.
    pub fn note_all(&mut self, world: &World) -> bool {
        for slot in world.executors() {
            if let Some(node) = slot.node() {
                let committed = node.state().chain().committed();
                if !self.note(committed.number() as usize, committed.token()) {
                    return false;
                }
            }
        }
        true
    }

    /// Whether some executor still has the last state that was committed, in its chain if not as its own.
    pub fn is_kept(&self, world: &World) -> bool {
        let Some(Some(last)) = self.tokens.last() else {
            return self.tokens.is_empty();
        };
        for slot in world.executors() {
            if let Some(node) = slot.node() {
                if has(node.state().chain(), self.tokens.len() as u64 - 1, *last) {
                    return true;
                }
            }
        }
        false
    }
}

/// Whether the state of this number and token is committed there, or a member.
fn has(chain: &Chain, number: u64, token: Token) -> bool {
    let committed = chain.committed();
    if committed.number() == number && committed.token() == token {
        return true;
    }
    for member in chain.members() {
        if member.number() == number && member.token() == token {
            return true;
        }
    }
    false
}

/// The number at the beginning, with what is behind its line.
fn first_number(bytes: &[u8]) -> Option<(u32, &[u8])> {
    let mut number = 0u32;
    for i in 0..bytes.len() {
        let b = bytes[i];
        if b == b'\r' {
            let (_, rest) = bytes.split_at(i);
            let rest = rest.strip_prefix(b"\r\n".as_slice())?;
            return (i > 0).then_some((number, rest));
        }
        if !b.is_ascii_digit() {
            return None;
        }
        number = number.checked_mul(10)?.checked_add(u32::from(b - 48))?;
    }
    None
}

/// Whether the lines are rising numbers, none of which was seen before. They are then.
fn are_new(bytes: &[u8], seen: &mut Vec<bool>, replies: &mut u64) -> bool {
    let mut rest = bytes;
    let mut last = 0u32;
    for _ in 0..bytes.len() {
        let Some((number, after)) = first_number(rest) else {
            return rest.is_empty();
        };
        match seen.get_mut(number as usize) {
            Some(is_seen) if !*is_seen && last < number => *is_seen = true,
            _ => return false,
        }
        last = number;
        rest = after;
        *replies = replies.saturating_add(1);
    }
    rest.is_empty()
}

/// How many numbers the clients were given, if these are what one counter gives: each once, and rising for
/// each client. The first client set the counter before.
pub fn replies(world: &World, seen: &mut Vec<bool>) -> Option<u64> {
    let mut replies = 0;
    let mut is_first = true;
    for slot in world.clients() {
        let given = slot.given();
        let numbers = if is_first {
            given.strip_prefix(b"STORED\r\n".as_slice())?
        } else {
            given
        };
        is_first = false;
        if !are_new(numbers, seen, &mut replies) {
            return None;
        }
    }
    Some(replies)
}

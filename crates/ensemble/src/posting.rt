//! What nodes send is under way.

ghost use Rattle.std.specs.Prelude.{◌≡◌, ◌<◌, ◌≤◌, ◌-◌, ◌^◌, ◌++◌, map};
ghost use Rattle.slots.specs.Sending.{as_sent};
ghost use Rattle.ensemble.specs.Nodes.{MayGrow};

use crate::refusing::refuse;
use decrees::{Ballot, Letter};
use exec_lines::Body;
use slots::send_ballots;
use std::alloc::Global;
use std::collections::VecDeque;

/// These are under way too. They are lost if there is no memory for them, which is counted.
pub fn post(mail: &mut VecDeque<Letter<Body>>, sent: Vec<Letter<Body>>, refused: &mut u64)
    ensures grows { MayGrow mail.old.items sent.items mail.new.items }
    ensures counted { refused.old ≤ refused.new }
    ensures posted { refused.new ≡ refused.old → refused.old < 2 ^ 64 - 1 → mail.new.items ≡ mail.old.items ++ sent.items }
{
    let mut added = VecDeque::from_vec(sent);
    if mail.append(&mut added).is_err() {
        refuse(refused);
    }
}

/// These ballots are under way too. They are lost if there is no memory for them, which is counted.
pub fn post_ballots(
    alloc: Global,
    mail: &mut VecDeque<Letter<Body>>,
    sent: &[Letter<Ballot>],
    refused: &mut u64,
)
    ensures grows { MayGrow mail.old.items (map as_sent sent.now) mail.new.items }
    ensures counted { refused.old ≤ refused.new }
    ensures posted { refused.new ≡ refused.old → refused.old < 2 ^ 64 - 1 → mail.new.items ≡ mail.old.items ++ map as_sent sent.now }
{
    let mut letters = Vec::new(alloc);
    match send_ballots(sent, &mut letters) {
        Ok(()) => post(mail, letters, refused),
        Err(_) => refuse(refused),
    }
}

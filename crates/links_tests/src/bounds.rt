//! How much a lane holds.

use crate::texts::text_of;
use links::{LaneBounds, LinkFault, Sending};
use std::alloc::Global;

const SMALL: LaneBounds = LaneBounds {
    most_letter_bytes: 4,
    most_bytes: 10,
    most_letters: 3,
};

/// What comes of a letter of so many bytes.
fn push(alloc: Global, sending: &mut Sending, size: usize) -> Option<Result<(), LinkFault>> {
    let text = text_of(alloc, 0, size)?;
    Some(sending.push(text))
}

/// A letter of so many bytes, and what comes of it.
struct Row {
    size: usize,
    result: Result<(), LinkFault>,
}

/// In this order, on a new lane.
const ROWS: [Row; 7] = [
    Row {
        size: 5,
        result: Err(LinkFault::TooLong),
    },
    Row {
        size: 4,
        result: Ok(()),
    },
    Row {
        size: 4,
        result: Ok(()),
    },
    Row {
        size: 3,
        result: Err(LinkFault::Full),
    },
    Row {
        size: 2,
        result: Ok(()),
    },
    Row {
        size: 0,
        result: Err(LinkFault::Full),
    },
    Row {
        size: 5,
        result: Err(LinkFault::TooLong),
    },
];

/// Whether all rows are as they say, one after the other.
fn are_bounded(alloc: Global, sending: &mut Sending) -> Option<bool> {
    for row in &ROWS {
        if push(alloc, sending, row.size)? != row.result {
            return Some(false);
        }
    }
    Some(sending.len() == 3 && sending.lost() == 4)
}

#[test]
fn a_lane_holds_what_its_bounds_say(rt: HostRuntime) {
    let mut sending = Sending::new(rt.alloc(), SMALL);
    assert!(rt; are_bounded(rt.alloc(), &mut sending) == Some(true));
}

/// How many letters are handed out until there is none.
fn count_of_all(sending: &mut Sending) -> Option<usize> {
    let mut count = 0usize;
    for _ in 0..10 {
        if sending.hand_out().ok()?.is_some() {
            count = count.saturating_add(1);
        }
    }
    Some(count)
}

/// Whether a full lane takes a letter again once one is acknowledged.
fn has_room_again(alloc: Global, sending: &mut Sending) -> Option<bool> {
    for _ in 0..3 {
        push(alloc, sending, 3)?.ok()?;
    }
    let is_full = push(alloc, sending, 1)? == Err(LinkFault::Full);
    let not_sent = sending.acknowledge(1) == Err(LinkFault::NotSent);
    let count = count_of_all(sending)?;
    sending.acknowledge(1).ok()?;
    Some(is_full && not_sent && count == 3 && push(alloc, sending, 4)? == Ok(()))
}

#[test]
fn an_acknowledgement_makes_room(rt: HostRuntime) {
    let mut sending = Sending::new(rt.alloc(), SMALL);
    assert!(rt; has_room_again(rt.alloc(), &mut sending) == Some(true));
}

#[test]
fn the_lanes_have_the_bounds_of_their_letters(rt: HostRuntime) {
    assert!(rt;
        LaneBounds::QUICK.most_letter_bytes == 65_536 && LaneBounds::QUICK.most_letters == 65_536
    );
    assert!(rt; LaneBounds::QUICK.most_bytes == 33_554_432);
    assert!(rt; LaneBounds::BULK.most_letter_bytes == 71_303_168);
    assert!(rt; LaneBounds::BULK.most_bytes == 268_435_456);
}

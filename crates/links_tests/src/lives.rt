//! Lives of peers.

use crate::texts::{is_text, text_of};
use links::{LaneBounds, LinkFault, Message, Receiving, Sending};
use std::alloc::Global;

/// The number of the next letter that is handed out, if its one byte is this one.
fn next(alloc: Global, sending: &mut Sending, byte: u8) -> Option<u64> {
    let (number, text) = sending.hand_out().ok()??;
    if is_text(alloc, &text, &[byte])? {
        Some(number)
    } else {
        None
    }
}

/// Three letters of one byte each, of which one is acknowledged in life 4 of the peer.
fn begin(alloc: Global, sending: &mut Sending) -> Option<()> {
    for byte in 0..3u8 {
        sending.push(text_of(alloc, byte, 1)?).ok()?;
    }
    sending.connect(4).ok()?;
    next(alloc, sending, 0)?;
    next(alloc, sending, 1)?;
    sending.acknowledge(1).ok()
}

/// Whether a new connection hands out again what was not acknowledged, and a new life of the peer numbers it from 1.
fn are_sent_again(alloc: Global, sending: &mut Sending) -> Option<bool> {
    begin(alloc, sending)?;
    sending.connect(4).ok()?;
    let again = next(alloc, sending, 1)? == 2 && next(alloc, sending, 2)? == 3;
    let old = sending.connect(3) == Err(LinkFault::OldLife);
    sending.connect(5).ok()?;
    let not_sent = sending.acknowledge(1) == Err(LinkFault::NotSent);
    let anew = next(alloc, sending, 1)? == 1 && next(alloc, sending, 2)? == 2;
    Some(again && old && not_sent && anew && sending.hand_out().ok()?.is_none())
}

#[test]
fn what_was_not_acknowledged_is_sent_again(rt: HostRuntime) {
    let mut sending = Sending::new(rt.alloc(), LaneBounds::QUICK);
    assert!(rt; are_sent_again(rt.alloc(), &mut sending) == Some(true));
}

/// An acknowledgement on a new connection, before the letter was handed out on it, spares it.
fn is_spared(alloc: Global, sending: &mut Sending) -> Option<bool> {
    begin(alloc, sending)?;
    sending.connect(4).ok()?;
    sending.acknowledge(2).ok()?;
    Some(next(alloc, sending, 2)? == 3)
}

#[test]
fn what_has_come_is_not_sent_again(rt: HostRuntime) {
    let mut sending = Sending::new(rt.alloc(), LaneBounds::QUICK);
    assert!(rt; is_spared(rt.alloc(), &mut sending) == Some(true));
}

/// What comes of a letter of this number: whether it is given.
fn come(alloc: Global, receiving: &mut Receiving, number: u64) -> Result<bool, LinkFault> {
    let given = receiving.receive(Message::new(number, Vec::new(alloc)))?;
    Ok(given.is_some())
}

#[test]
fn letters_come_once_and_in_order(rt: HostRuntime) {
    let mut receiving = Receiving::new(0);
    assert!(rt; receiving.connect(2) == Ok(()));
    assert!(rt; receiving.acknowledgement() == Some(0) && receiving.acknowledgement().is_none());
    assert!(rt; come(rt.alloc(), &mut receiving, 1) == Ok(true));
    assert!(rt; come(rt.alloc(), &mut receiving, 3) == Err(LinkFault::Missing));
    assert!(rt; come(rt.alloc(), &mut receiving, 2) == Ok(true));
    assert!(rt; receiving.acknowledgement() == Some(2));
    assert!(rt; come(rt.alloc(), &mut receiving, 1) == Ok(false));
    assert!(rt; receiving.acknowledgement() == Some(2));
}

#[test]
fn a_new_life_begins_at_one(rt: HostRuntime) {
    let mut receiving = Receiving::new(3);
    assert!(rt; receiving.connect(2) == Err(LinkFault::OldLife));
    assert!(rt; receiving.connect(3) == Ok(()) && come(rt.alloc(), &mut receiving, 1) == Ok(true));
    assert!(rt; receiving.connect(3) == Ok(()) && come(rt.alloc(), &mut receiving, 1) == Ok(false));
    assert!(rt; receiving.connect(7) == Ok(()) && receiving.life() == 7);
    assert!(rt; come(rt.alloc(), &mut receiving, 2) == Err(LinkFault::Missing));
    assert!(rt; come(rt.alloc(), &mut receiving, 1) == Ok(true));
    assert!(rt; receiving.connect(3) == Err(LinkFault::OldLife));
}

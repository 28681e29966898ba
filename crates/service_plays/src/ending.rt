//! The process ends, and another one begins.

use crate::judge::Judge;
use crate::peer::Peer;
use crate::play::{PEERS, Stage, stops, take};
use service::Service;
use std::alloc::Global;
use std::mem;

/// What the client that looks what all keys have sends. `None`: there is no memory for it.
fn check_piece(alloc: Global, judge: &mut Judge, peer: &mut Peer) -> Option<Vec<u8>> {
    let mut piece = Vec::new(alloc);
    match peer.put_check(alloc, judge, PEERS, &mut piece) {
        Ok(()) => Some(piece),
        Err(_) => None,
    }
}

impl Stage {
    /// Makes a record. If there is no memory for it the process does not end before the next one.
    pub fn keep(&mut self, alloc: Global) {
        self.record = None;
        if let Ok(record) = self.service.record(alloc) {
            if self.judge.keep(alloc) {
                self.record = Some(record);
            }
        }
    }

    /// The process ends, if a record was made, and another one goes on from that: no connection is here any more, and what
    /// came after the record never was. A record is made again at once.
    pub fn begin_anew(&mut self, alloc: Global) {
        let Some(record) = self.record.take() else {
            return;
        };
        let next = record.next();
        let Ok(service) = Service::reopen(alloc, record, self.plan.dialect) else {
            return;
        };
        self.stops = self.stops.saturating_add(stops(&mut self.service));
        mem::replace(&mut self.service, service).end();
        self.ends = self.ends.saturating_add(1);
        self.last = next.saturating_sub(1);
        for peer in self.peers.iter_mut() {
            peer.leave();
        }
        self.judge.go_back();
        self.keep(alloc);
    }

    /// A client comes that looks what all keys have, if there is memory for it.
    pub fn check(&mut self, alloc: Global) {
        let number = self.last.saturating_add(1);
        if self.service.come(alloc, PEERS, number).is_err() {
            return;
        }
        self.last = number;
        let Some(peer) = self.peers.get_mut(PEERS) else {
            return;
        };
        peer.come(number);
        let Some(piece) = check_piece(alloc, &mut self.judge, peer) else {
            self.service.leave(PEERS, number);
            peer.leave();
            return;
        };
        match self.service.hear(alloc, PEERS, number, piece) {
            Ok(said) => take(&mut self.peers, &mut self.judge, &said),
            Err(_) => peer.leave(),
        }
    }
}

//! One play.

use crate::judge::Judge;
use crate::peer::Peer;
use crate::plan::Plan;
use crate::stopping::CALLS_TO_STOP;
use loop_messages::Said;
use random::Words;
use service::{Config, Service, ServiceRecord};
use std::alloc::Global;
use std::rt::Clock;
use std::sync::Wait;
use std::thread::Threads;

/// How many clients there are, and how many proxies. One more client looks what the keys of all have after an end.
pub const PEERS: usize = 8;

const PROXIES: u16 = 5;

/// A process ends after so many calls, in the mean. Within them it is opened, and answers again, in about every second.
const CALLS_TO_END: u32 = 80;

/// The most ticks until all is answered.
const MOST_TICKS: usize = 20_000;

/// What came of a play.
#[derive(Clone, Copy)]
pub struct Shown {
    /// How many commands were heard whole.
    pub commands: u64,
    /// How many were answered.
    pub replies: u64,
    /// How often a replica stopped.
    pub stops: u64,
    /// How often the process ended.
    pub ends: u64,
    /// The call after which something was wrong.
    pub wrong: Option<u64>,
}

/// A service and its clients.
pub struct Stage {
    pub service: Service,
    pub peers: Vec<Peer>,
    pub judge: Judge,
    pub words: Words,
    pub plan: Plan,
    /// The number of the last connection that came.
    pub last: u64,
    /// The last record, if the process may end.
    pub record: Option<ServiceRecord>,
    /// How often it ended.
    pub ends: u64,
    /// How often a replica was found down in processes that ended.
    pub stops: u64,
}

/// The clients, none of whom has a connection.
fn peers(alloc: Global) -> Option<Vec<Peer>> {
    let mut peers = Vec::with_capacity(alloc, PEERS + 1).ok()?;
    for client in 0..PEERS + 1 {
        peers.push(Peer::new(alloc, client)).ok()?;
    }
    Some(peers)
}

/// What a connection is given goes to its client.
pub fn take(peers: &mut Vec<Peer>, judge: &mut Judge, said: &Said) {
    match peers.get_mut(said.key) {
        Some(peer) if peer.number == said.number => {
            peer.take(judge, said.bytes.as_slice());
            peer.waits = said.waits;
            if said.closes {
                peer.leave();
            }
        }
        _ => {
            if !said.bytes.is_empty() {
                judge.refuse();
            }
        }
    }
}

/// The client at this key has a new connection, if there is memory for it.
fn come(
    alloc: Global,
    service: &mut Service,
    judge: &mut Judge,
    peer: &mut Peer,
    key: usize,
    number: u64,
) {
    let has_keys = judge
        .model(key)
        .is_some_and(|model| model.come(alloc, number).is_ok());
    if has_keys && service.come(alloc, key, number).is_ok() {
        peer.come(number);
    }
}

/// The next piece of the client at this key. `None`: there is no memory for it.
fn next_piece(
    alloc: Global,
    judge: &mut Judge,
    words: &mut Words,
    peer: &mut Peer,
) -> Option<Vec<u8>> {
    let mut piece = Vec::new(alloc);
    match peer.put_piece(alloc, judge, words, PEERS as u32, &mut piece) {
        Ok(()) => Some(piece),
        Err(_) => None,
    }
}

/// The client at this key sends a piece: what it is given at once.
fn ask(
    alloc: Global,
    service: &mut Service,
    judge: &mut Judge,
    words: &mut Words,
    peer: &mut Peer,
    key: usize,
) -> Option<Said> {
    let number = peer.number;
    let Some(piece) = next_piece(alloc, judge, words, peer) else {
        service.leave(key, number);
        peer.leave();
        return None;
    };
    match service.hear(alloc, key, number, piece) {
        Ok(said) => Some(said),
        Err(_) => {
            peer.leave();
            None
        }
    }
}

/// So much of what the client at this key was given is written.
fn write(service: &mut Service, peer: &mut Peer, key: usize, count: usize) {
    let count = count.min(peer.unwritten);
    peer.unwritten -= count;
    if !service.written(key, peer.number, count) {
        peer.leave();
    }
}

impl Stage {
    /// A service over new replicas.
    fn open(alloc: Global, plan: Plan) -> Option<Stage> {
        let config = Config::new(plan.u, PROXIES).ok()?;
        let peers = peers(alloc)?;
        let judge = Judge::new(alloc, PEERS).ok()?;
        let service = Service::open(alloc, &config, plan.dialect).ok()?;
        Some(Stage {
            service,
            peers,
            judge,
            words: Words::new(plan.seed),
            plan,
            last: 0,
            record: None,
            ends: 0,
            stops: 0,
        })
    }

    /// The replicas work, and the clients are given what is answered. At times a record is made then.
    pub fn work<R: Threads + Wait + Sync + Clock>(&mut self, threads: &R, alloc: Global) {
        for said in self
            .service
            .work(threads, threads, alloc, self.judge.moment)
        {
            take(&mut self.peers, &mut self.judge, &said);
        }
        if self.plan.has_ends && self.words.one_in(4) {
            self.keep(alloc);
        }
    }

    /// A connection of its own sets the counter to 0: whether there is memory for that.
    fn ask_to_set(&mut self, alloc: Global) -> bool {
        self.last = 1;
        match Vec::from_slice(alloc, b"set n 0 0 1\r\n0\r\n") {
            Ok(text) => {
                self.service.come(alloc, PEERS, 1).is_ok()
                    && self.service.hear(alloc, PEERS, 1, text).is_ok()
            }
            Err(_) => false,
        }
    }

    /// The replicas work: whether the counter is set then.
    fn is_set<R: Threads + Wait + Sync + Clock>(&mut self, threads: &R, alloc: Global) -> bool {
        self.service
            .work(threads, threads, alloc, self.judge.moment)
            .iter()
            .any(|said| said.key == PEERS && said.bytes.as_slice() == b"STORED\r\n".as_slice())
    }

    /// The counter begins at 0. False: there is no memory for that, or it takes too many ticks.
    fn set_up<R: Threads + Wait + Sync + Clock>(&mut self, threads: &R, alloc: Global) -> bool {
        if !self.ask_to_set(alloc) {
            return false;
        }
        for _ in 0..MOST_TICKS {
            if self.is_set(threads, alloc) {
                self.service.leave(PEERS, 1);
                return true;
            }
            self.service.tick(alloc);
        }
        false
    }

    /// A client does something: it comes, leaves, asks, or tells that bytes are written.
    pub fn act(&mut self, alloc: Global) {
        let key = self.words.below(PEERS as u32) as usize;
        let Stage {
            service,
            peers,
            judge,
            words,
            last,
            ..
        } = self;
        let is_asked_for = peers.iter().any(|peer| peer.asks_for(key));
        let Some(peer) = peers.get_mut(key) else {
            return;
        };
        if peer.number == 0 {
            // Nobody waits for what the keys of its last connection have.
            if !is_asked_for {
                *last = last.saturating_add(1);
                come(alloc, service, judge, peer, key, *last);
            }
        } else if words.one_in(40) {
            service.leave(key, peer.number);
            peer.leave();
        } else if words.one_in(3) {
            write(service, peer, key, words.below(64) as usize);
        } else if (!peer.waits || words.one_in(8)) && judge.counter.has_room() {
            if let Some(said) = ask(alloc, service, judge, words, peer, key) {
                take(peers, judge, &said);
            }
        }
    }

    /// One call at random, or an end of the process. Replicas may stop before it.
    fn call<R: Threads + Wait + Sync + Clock>(&mut self, threads: &R, alloc: Global) {
        if self.plan.has_stops && self.words.one_in(CALLS_TO_STOP) {
            self.stop(threads, alloc);
        }
        if self.plan.has_ends && self.words.one_in(CALLS_TO_END) {
            self.begin_anew(alloc);
            self.check(alloc);
            return;
        }
        match self.words.below(16) {
            0 => self.service.tick(alloc),
            1 | 2 | 3 | 4 => self.work(threads, alloc),
            5 if self.words.one_in(8) => self.pass(threads, alloc),
            _ => self.act(alloc),
        }
    }

    /// Ends the service.
    fn end(self) {
        let Stage {
            service,
            peers,
            judge,
            words,
            plan: _,
            last: _,
            record,
            ends: _,
            stops: _,
        } = self;
        service.end();
        drop(record);
        drop(peers);
        drop(judge);
        drop(words);
    }

    /// Whether a command is outstanding, if only one of a connection that has left, or a replica is down.
    fn is_waiting(&self) -> bool {
        self.service.is_waiting() || self.peers.iter().any(|peer| peer.is_waiting())
    }

    /// All that clients were given is written.
    fn write_all(&mut self) {
        for key in 0..PEERS + 1 {
            if let Some(peer) = self.peers.get_mut(key) {
                let count = peer.unwritten;
                write(&mut self.service, peer, key, count);
            }
        }
    }

    /// All is answered, and each replica is up, unless that takes too many ticks.
    fn settle<R: Threads + Wait + Sync + Clock>(&mut self, threads: &R, alloc: Global) {
        for _ in 0..MOST_TICKS {
            if !self.is_waiting() {
                return;
            }
            self.write_all();
            self.service.tick(alloc);
            self.work(threads, alloc);
        }
        self.judge.refuse();
    }

    /// Some seconds pass. No command is outstanding then, so that it is known at which moment each is carried out.
    fn pass<R: Threads + Wait + Sync + Clock>(&mut self, threads: &R, alloc: Global) {
        self.settle(threads, alloc);
        let seconds = self.words.below(40);
        self.judge.moment = self.judge.moment.saturating_add(seconds);
        for key in 0..PEERS {
            let is_here = self.peers.get(key).is_some_and(|peer| peer.number > 0);
            self.judge.pass(alloc, key, is_here);
        }
        // A record from before knows nothing of what is gone since then.
        self.record = None;
    }

    /// The process ends once more, and all is answered. It ends again while a request is outstanding, and comes to rest in a
    /// process that no connection asks anything.
    fn end_twice<R: Threads + Wait + Sync + Clock>(&mut self, threads: &R, alloc: Global) {
        self.keep(alloc);
        self.begin_anew(alloc);
        self.check(alloc);
        self.settle(threads, alloc);
        self.begin_anew(alloc);
        self.check(alloc);
        self.work(threads, alloc);
        self.keep(alloc);
        self.begin_anew(alloc);
        self.settle(threads, alloc);
    }
}

/// How often a replica was found down.
pub fn stops(service: &mut Service) -> u64 {
    let replicas = service.figures().replicas;
    let mut stops = 0u64;
    for node in replicas.executors.iter().chain(replicas.verifiers.iter()) {
        stops = stops.saturating_add(node.stops);
    }
    stops
}

/// All calls, and what came of them.
fn drive<R: Threads + Wait + Sync + Clock>(
    threads: &R,
    alloc: Global,
    stage: &mut Stage,
    plan: Plan,
) -> Shown {
    let mut wrong = None;
    for call in 0..plan.calls {
        if wrong.is_none() {
            stage.call(threads, alloc);
            if !stage.judge.is_right {
                wrong = Some(call);
            }
        }
    }
    if wrong.is_none() {
        stage.settle(threads, alloc);
        if plan.has_ends {
            stage.end_twice(threads, alloc);
        }
        if !stage.judge.is_right {
            wrong = Some(plan.calls);
        }
    }
    Shown {
        commands: stage.judge.commands,
        replies: stage.judge.replies,
        stops: stage.stops.saturating_add(stops(&mut stage.service)),
        ends: stage.ends,
        wrong,
    }
}

/// A play. `None`: there is no such service, or no memory for it.
pub fn play<R: Threads + Wait + Sync + Clock>(
    threads: &R,
    alloc: Global,
    plan: Plan,
) -> Option<Shown> {
    let mut stage = Stage::open(alloc, plan)?;
    let shown = if stage.set_up(threads, alloc) {
        Some(drive(threads, alloc, &mut stage, plan))
    } else {
        None
    };
    stage.end();
    shown
}

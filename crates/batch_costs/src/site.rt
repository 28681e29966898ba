//! One executor's state, and the batches that it executes.

use crate::clock::{Laps, Times};
use base::Text;
use batches::{Batch, Gather};
use decrees::Decree;
use executor::{Committed, Tentative, execute};
use proto::{Command, Fault};
use round::NoGate;
use sessions::Request;
use std::alloc::{AllocError, Global};
use std::sync::Wait;
use std::thread::Threads;
use workers::Workers;

/// How many clients ask.
const CLIENTS: usize = 128;

/// The last committed state, and the number of the last request of each client.
#[derive(Drop)]
pub struct Site<'a, R> {
    host: &'a HostRuntime,
    threads: &'a R,
    committed: Committed,
    numbers: [u64; CLIENTS],
    pub moment: u32,
    workers: Workers,
}

/// How large a record is.
#[derive(Clone, Copy)]
pub struct Size {
    pub pieces: usize,
    pub bytes: usize,
}

fn commit(tentative: Tentative) -> Option<Committed> {
    let own = Decree::Commit {
        n: tentative.number(),
        token: tentative.token(),
    };
    match tentative.commit(&own) {
        Ok(committed) => Some(committed),
        Err(back) => {
            drop(back.undo());
            None
        }
    }
}

impl<'a, R: Threads + Wait + Sync> Site<'a, R> {
    pub fn new(host: &'a HostRuntime, threads: &'a R, workers: u32) -> Result<Site<'a, R>, Fault> {
        let Some(workers) = Workers::new(workers as usize) else {
            return Err(Fault::Unfit);
        };
        Ok(Site {
            host,
            threads,
            committed: Committed::first(host.alloc())?,
            numbers: [0; CLIENTS],
            moment: 1000,
            workers,
        })
    }

    fn alloc(&self) -> Global {
        self.host.alloc()
    }

    /// How many batches led to the state.
    pub fn number(&self) -> u64 {
        self.committed.as_base().number()
    }

    /// The next request of a client.
    fn request(&mut self, client: u16, command: Command) -> Request {
        let at = usize::from(client) % CLIENTS;
        let number = self.numbers[at].saturating_add(1);
        self.numbers[at] = number;
        Request {
            client: (at as u16).saturating_add(1),
            number,
            command,
        }
    }

    /// The batch of these commands, each of another client. The first one is asked by this client.
    fn cut(&mut self, commands: Vec<Command>, first: u16) -> Result<Batch, Fault> {
        let alloc = self.alloc();
        let mut gather = Gather::new(alloc);
        let mut client = first;
        for command in commands {
            gather.add(self.request(client, command))?;
            client = client.saturating_add(1);
        }
        let base = self.committed.as_base();
        match base.cut(alloc, &mut gather, 1, self.moment)? {
            Some(batch) => Ok(batch),
            None => Err(Fault::NotOpen),
        }
    }

    fn run(&self, batch: Batch) -> Result<Tentative, Fault> {
        let base = self.committed.as_base();
        if batch.n != base.number().saturating_add(1) {
            return Err(Fault::Unfit);
        }
        Ok(execute(
            self.threads,
            self.alloc(),
            base,
            batch,
            false,
            self.workers,
            &NoGate,
        )?)
    }

    /// The text of the record of the state.
    fn record(&self) -> Result<Text, AllocError> {
        let mut text = Text::new(self.alloc());
        self.committed.put(&mut text)?;
        Ok(text)
    }

    /// The size of the record of the state.
    pub fn size(&self) -> Result<Size, AllocError> {
        let record = self.record()?;
        Ok(Size {
            pieces: record.parts().0.len(),
            bytes: record.len(),
        })
    }

    /// Executes the batch of these commands, takes what a keeper would be handed of it, which shares the
    /// states, and commits. The time of each part is added.
    pub fn execute(
        &mut self,
        commands: Vec<Command>,
        first: u16,
        times: &mut Times,
    ) -> Result<(), Fault> {
        let mut laps = Laps::start(self.host);
        let batch = self.cut(commands, first)?;
        laps.end_part(0);
        let tentative = self.run(batch)?;
        laps.end_part(1);
        self.end(tentative, &mut laps)?;
        times.add(laps.times)?;
        Ok(())
    }

    /// Takes what is saved of the state, and commits it.
    fn end(&mut self, tentative: Tentative, laps: &mut Laps) -> Result<(), Fault> {
        let saved = tentative.saved();
        laps.end_part(3);
        let ended = self.go_on(tentative);
        laps.end_part(2);
        drop(saved?);
        ended
    }

    /// Commits the state.
    fn go_on(&mut self, tentative: Tentative) -> Result<(), Fault> {
        match commit(tentative) {
            Some(committed) => {
                self.committed = committed;
                Ok(())
            }
            None => Err(Fault::NotOpen),
        }
    }
}

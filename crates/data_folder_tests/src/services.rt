//! Services that are asked commands, and what is saved of them.

use crate::commands::{
    AFTER_A_STOP, AFTER_MANY, BEFORE_A_STOP, BESIDE_MANY, Command, FEW_ITEMS, LARGE_ITEMS,
    SMALL_ITEMS,
};
use crate::contents::Content;
use data_folder::StoredRecord;
use loop_messages::Said;
use service::{Config, Dialect, Fault, Replica, Service, ServiceRecord};
use std::alloc::{AllocError, Global};
use std::rt::Clock;
use std::sync::Wait;
use std::thread::Threads;

/// So many proxies ask the replicas.
const PROXIES: u16 = 4;

/// How often a service is given a tick until it answers, at most.
const MOST_TICKS: usize = 2000;

/// What is saved of a service at some moment, and what items it has then.
pub struct Moment {
    pub stored: StoredRecord,
    pub content: Content,
}

impl Drop for Moment {
    fn drop(self) {
        let Moment {
            stored: _,
            content: _,
        } = self;
    }
}

/// What is done with a service.
#[derive(Clone, Copy)]
enum Step<'a> {
    /// What it has is noted.
    Note,
    /// Its one connection comes.
    Come,
    /// The connection asks each command, and what the service has is noted after each. It has so many other items.
    Ask(&'a [Command], u64),
    /// So many items are stored, which are due at moment 110.
    Fill(u64),
    /// The executor of this number stops.
    Stop(u8),
}

/// Adds the line, and the block if there is one.
fn put_command(command: &Command, piece: &mut Vec<u8>) -> Result<(), AllocError> {
    let (_, line, (byte, count), _) = *command;
    piece.extend_from_slice(line)?;
    piece.extend_from_slice(b"\r\n")?;
    if count > 0 {
        let end = piece.len().saturating_add(count);
        piece.resize(end, byte)?;
        piece.extend_from_slice(b"\r\n")?;
    }
    Ok(())
}

/// What the connection says to ask this command.
fn piece_of(alloc: Global, command: &Command) -> Result<Vec<u8>, AllocError> {
    let mut piece = Vec::new(alloc);
    put_command(command, &mut piece)?;
    Ok(piece)
}

/// What a connection was given is written: else it is not asked for more.
fn write(service: &mut Service, said: &Said) {
    let _ = service.written(said.key, said.number, said.bytes.len());
}

fn write_all(service: &mut Service, given: &[Said]) {
    for said in given {
        write(service, said);
    }
}

/// The connection of this number says this.
fn hear(alloc: Global, service: &mut Service, number: u64, piece: Vec<u8>) -> Result<(), Fault> {
    let said = service.hear(alloc, 0, number, piece)?;
    write(service, &said);
    Ok(())
}

/// The replicas work.
fn work<R: Threads + Wait + Sync + Clock>(
    rt: &R,
    alloc: Global,
    service: &mut Service,
    moment: u32,
) {
    let given = service.work(rt, rt, alloc, moment);
    write_all(service, &given);
}

/// The one connection of a service asks this, and the replicas work.
fn ask<R: Threads + Wait + Sync + Clock>(
    rt: &R,
    alloc: Global,
    service: &mut Service,
    moment: u32,
    piece: Vec<u8>,
) -> Result<(), Fault> {
    hear(alloc, service, 1, piece)?;
    work(rt, alloc, service, moment);
    Ok(())
}

/// What is saved of the service now.
fn moment_of(alloc: Global, service: &Service, content: Content) -> Result<Moment, Fault> {
    let record = service.record(alloc)?;
    match StoredRecord::of(alloc, &record) {
        Ok(stored) => Ok(Moment { stored, content }),
        Err(_) => Err(Fault::NoMemory),
    }
}

/// Notes what the service has now.
fn note(
    alloc: Global,
    service: &Service,
    content: Content,
    moments: &mut Vec<Moment>,
) -> Result<(), Fault> {
    let moment = moment_of(alloc, service, content)?;
    moments.push(moment)?;
    Ok(())
}

/// The connection asks this, and what the service has is noted.
fn ask_one<R: Threads + Wait + Sync + Clock>(
    rt: &R,
    alloc: Global,
    service: &mut Service,
    command: &Command,
    others: u64,
    moments: &mut Vec<Moment>,
) -> Result<(), Fault> {
    let (moment, _, _, first) = *command;
    let piece = piece_of(alloc, command)?;
    ask(rt, alloc, service, moment, piece)?;
    let content = Content {
        first: *first,
        others,
    };
    note(alloc, service, content, moments)
}

fn ask_each<R: Threads + Wait + Sync + Clock>(
    rt: &R,
    alloc: Global,
    service: &mut Service,
    commands: &[Command],
    others: u64,
    moments: &mut Vec<Moment>,
) -> Result<(), Fault> {
    for command in commands {
        ask_one(rt, alloc, service, command, others, moments)?;
    }
    Ok(())
}

/// An item of one byte under this number, which is due at moment 110.
fn item_piece(alloc: Global, number: u64) -> Result<Vec<u8>, AllocError> {
    let text = format!(in alloc; "set item{number} 0 10 1\r\n1\r\n")?;
    Vec::from_slice(alloc, text.as_bytes())
}

/// Stores so many items.
fn fill<R: Threads + Wait + Sync + Clock>(
    rt: &R,
    alloc: Global,
    service: &mut Service,
    count: u64,
) -> Result<(), Fault> {
    for number in 0..count {
        let piece = item_piece(alloc, number)?;
        ask(rt, alloc, service, 100, piece)?;
    }
    Ok(())
}

fn go<R: Threads + Wait + Sync + Clock>(
    rt: &R,
    alloc: Global,
    service: &mut Service,
    step: Step<'_>,
    moments: &mut Vec<Moment>,
) -> Result<(), Fault> {
    match step {
        Step::Note => note(alloc, service, Content::NONE, moments),
        Step::Come => service.come(alloc, 0, 1),
        Step::Ask(commands, others) => ask_each(rt, alloc, service, commands, others, moments),
        Step::Fill(count) => fill(rt, alloc, service, count),
        Step::Stop(executor) => {
            service.stop(Replica::Executor(executor));
            Ok(())
        }
    }
}

fn go_through<R: Threads + Wait + Sync + Clock>(
    rt: &R,
    alloc: Global,
    service: &mut Service,
    steps: &[Step<'_>],
    moments: &mut Vec<Moment>,
) -> Result<(), Fault> {
    for step in steps {
        go(rt, alloc, service, *step, moments)?;
    }
    Ok(())
}

/// A service of `2u + 1` executors.
fn service_of(alloc: Global, u: u8) -> Result<Service, Fault> {
    let config = Config::new(u, PROXIES)?;
    Service::open(alloc, &config, Dialect::Profile)
}

/// Opens a service of `2u + 1` executors, and goes through these steps.
fn play<R: Threads + Wait + Sync + Clock>(
    rt: &R,
    alloc: Global,
    u: u8,
    steps: &[Step<'_>],
    moments: &mut Vec<Moment>,
) -> Result<(), Fault> {
    let mut service = service_of(alloc, u)?;
    let played = go_through(rt, alloc, &mut service, steps, moments);
    service.end();
    played
}

/// What a service of `2u + 1` executors has when it is noted.
fn moments_of<R: Threads + Wait + Sync + Clock>(
    rt: &R,
    alloc: Global,
    u: u8,
    steps: &[Step<'_>],
) -> Result<Vec<Moment>, Fault> {
    let mut moments = Vec::new(alloc);
    play(rt, alloc, u, steps, &mut moments)?;
    Ok(moments)
}

/// The first so many commands.
fn first_of(commands: &[Command], count: usize) -> &[Command] {
    &commands[..count.min(commands.len())]
}

/// What a service of `2u + 1` executors has after each of the first so many commands of `SMALL_ITEMS`.
pub fn small_moments<R: Threads + Wait + Sync + Clock>(
    rt: &R,
    alloc: Global,
    u: u8,
    count: usize,
) -> Result<Vec<Moment>, Fault> {
    let steps = [Step::Come, Step::Ask(first_of(SMALL_ITEMS, count), 0)];
    moments_of(rt, alloc, u, &steps)
}

/// What a service of one executor has after each of `LARGE_ITEMS`.
pub fn large_moments<R: Threads + Wait + Sync + Clock>(
    rt: &R,
    alloc: Global,
) -> Result<Vec<Moment>, Fault> {
    moments_of(rt, alloc, 0, &[Step::Come, Step::Ask(LARGE_ITEMS, 0)])
}

/// What a service of one executor has that was asked nothing, when its connection has come, and after each of `FEW_ITEMS`.
pub fn few_moments<R: Threads + Wait + Sync + Clock>(
    rt: &R,
    alloc: Global,
) -> Result<Vec<Moment>, Fault> {
    let steps = [Step::Note, Step::Come, Step::Note, Step::Ask(FEW_ITEMS, 0)];
    moments_of(rt, alloc, 0, &steps)
}

/// What a service of three executors has after each command, one of which is down from the second on.
pub fn moments_behind<R: Threads + Wait + Sync + Clock>(
    rt: &R,
    alloc: Global,
) -> Result<Vec<Moment>, Fault> {
    let steps = [
        Step::Come,
        Step::Ask(BEFORE_A_STOP, 0),
        Step::Stop(2),
        Step::Ask(AFTER_A_STOP, 0),
    ];
    moments_of(rt, alloc, 1, &steps)
}

/// What a service of one executor has with so many items, and when they are gone.
pub fn moments_shrinking<R: Threads + Wait + Sync + Clock>(
    rt: &R,
    alloc: Global,
    count: u64,
) -> Result<Vec<Moment>, Fault> {
    let steps = [
        Step::Come,
        Step::Fill(count),
        Step::Ask(BESIDE_MANY, count),
        Step::Ask(AFTER_MANY, 0),
    ];
    moments_of(rt, alloc, 0, &steps)
}

/// Adds what was given.
fn add_all(given: &[Said], answer: &mut Vec<u8>) -> Result<(), AllocError> {
    for said in given {
        answer.extend_from_slice(said.bytes.as_slice())?;
    }
    Ok(())
}

/// A tick, and the work after it, at moment 200: what is given is added.
fn tick<R: Threads + Wait + Sync + Clock>(
    rt: &R,
    alloc: Global,
    service: &mut Service,
    answer: &mut Vec<u8>,
) -> Result<(), AllocError> {
    service.tick(alloc);
    let given = service.work(rt, rt, alloc, 200);
    add_all(&given, answer)
}

/// Ticks come until something was given.
fn tick_until_given<R: Threads + Wait + Sync + Clock>(
    rt: &R,
    alloc: Global,
    service: &mut Service,
    answer: &mut Vec<u8>,
) -> Result<(), AllocError> {
    for _ in 0..MOST_TICKS {
        if !answer.is_empty() {
            return Ok(());
        }
        tick(rt, alloc, service, answer)?;
    }
    Ok(())
}

/// A connection of this number comes and says these bytes: what it is given is added.
fn ask_for<R: Threads + Wait + Sync + Clock>(
    rt: &R,
    alloc: Global,
    service: &mut Service,
    number: u64,
    bytes: &[u8],
    answer: &mut Vec<u8>,
) -> Result<(), Fault> {
    service.come(alloc, 0, number)?;
    let piece = Vec::from_slice(alloc, bytes)?;
    hear(alloc, service, number, piece)?;
    tick_until_given(rt, alloc, service, answer)?;
    Ok(())
}

/// What a service that goes on from this record answers to these bytes is added. It is nothing if it does not answer.
pub fn add_answer<R: Threads + Wait + Sync + Clock>(
    rt: &R,
    alloc: Global,
    kept: ServiceRecord,
    bytes: &[u8],
    answer: &mut Vec<u8>,
) -> Result<(), Fault> {
    let number = kept.next();
    let mut service = Service::reopen(alloc, kept, Dialect::Profile)?;
    let asked = ask_for(rt, alloc, &mut service, number, bytes, answer);
    service.end();
    asked
}

//! What is read of a text, in words.

use events::{Event, Replica};
use schedules::{Schedule, ScheduleFault, ScheduleLine};
use std::alloc::{AllocError, Global};

/// A text, and what is read of it.
pub type Row<'a> = (&'a [u8], &'a str);

fn add_replica(words: &mut String, replica: Replica) -> Result<(), AllocError> {
    match replica {
        Replica::Executor(id) => write!(words, " executor {id}"),
        Replica::Verifier(id) => write!(words, " verifier {id}"),
    }
}

fn add_feed(words: &mut String, client: u16, bytes: &[u8]) -> Result<(), AllocError> {
    write!(words, " Feed {client}")?;
    for byte in bytes {
        write!(words, " {byte}")?;
    }
    Ok(())
}

/// Adds the event in words.
pub fn add_event(words: &mut String, event: &Event) -> Result<(), AllocError> {
    match event {
        Event::Feed { client, bytes } => add_feed(words, *client, bytes.as_slice()),
        Event::Again { client } => write!(words, " Again {client}"),
        Event::Hangup { client } => write!(words, " Hangup {client}"),
        Event::Deliver { letter } => write!(words, " Deliver {letter}"),
        Event::Cut { executor, moment } => write!(words, " Cut {executor} at {moment}"),
        Event::Step { executor, place } => write!(words, " Step {executor} of {place}"),
        Event::Finish { executor } => write!(words, " Finish {executor}"),
        Event::Suspect { verifier } => write!(words, " Suspect {verifier}"),
        Event::Trim { verifier, place } => write!(words, " Trim {verifier} to {place}"),
        Event::Crash(replica) => {
            words.push_str(" Crash")?;
            add_replica(words, *replica)
        }
        Event::Restart(replica) => {
            words.push_str(" Restart")?;
            add_replica(words, *replica)
        }
        Event::Lost(replica) => {
            words.push_str(" Lost")?;
            add_replica(words, *replica)
        }
        Event::FailSave(replica) => {
            words.push_str(" FailSave")?;
            add_replica(words, *replica)
        }
    }
}

fn add_line(words: &mut String, line: &ScheduleLine) -> Result<(), AllocError> {
    match line {
        ScheduleLine::Happens(event) => add_event(words, event)?,
        ScheduleLine::Settle { most } => write!(words, " Settle {most}")?,
        ScheduleLine::Random { seed, count } => write!(words, " Random {count} from {seed}")?,
    }
    words.push_str(";")
}

fn add_schedule(words: &mut String, schedule: &Schedule) -> Result<(), AllocError> {
    let u = schedule.config.u();
    let clients = schedule.config.clients();
    write!(words, "u {u}, {clients} clients;")?;
    for line in schedule.lines.as_slice() {
        add_line(words, line)?;
    }
    Ok(())
}

fn add_fault(words: &mut String, fault: ScheduleFault) -> Result<(), AllocError> {
    write!(words, "{fault}")
}

/// What is read of the bytes of a file, or the text of the fault.
pub fn read(alloc: Global, bytes: &[u8]) -> Result<String, AllocError> {
    let mut words = String::new(alloc);
    match Schedule::read(alloc, bytes) {
        Ok(schedule) => add_schedule(&mut words, &schedule)?,
        Err(fault) => add_fault(&mut words, fault)?,
    }
    Ok(words)
}

/// What is read of one line, as the third of a file.
pub fn read_third(alloc: Global, line: &[u8]) -> Result<String, AllocError> {
    let mut bytes = Vec::from_slice(alloc, b"u 0\nclients 1\n")?;
    bytes.extend_from_slice(line)?;
    read(alloc, bytes.as_slice())
}

/// Whether this is read of such a line: `words` stands for what comes after the size of the world.
pub fn says(alloc: Global, line: &[u8], words: &str) -> Result<bool, AllocError> {
    let mut wanted = String::from_str(alloc, "u 0, 1 clients; ")?;
    wanted.push_str(words)?;
    let found = read_third(alloc, line)?;
    Ok(found.as_str() == wanted.as_str())
}

/// Whether such a line is refused, by its number.
pub fn is_refused(alloc: Global, line: &[u8]) -> Result<bool, AllocError> {
    let found = read_third(alloc, line)?;
    Ok(found.as_str() == "6 BadSchedule line 3")
}

//! Storage commands while the items have more bytes than may be stored, and lines that are counted as refused.

use crate::told::plain;
use figures::{Figures, Refusal};
use grammar::{Conditions, Dialect};
use proto::{Command, Fault, Reply, Update};
use session::Session;
use std::alloc::Global;
use std::test::Fail;

const FULL: &[u8] = b"SERVER_ERROR out of memory storing object\r\n";

/// So many commands are answered at most.
const MOST_COMMANDS: usize = 4;

fn full() -> Conditions {
    let mut conditions = plain();
    conditions.is_full = true;
    conditions
}

/// A letter for the command, for rows.
fn letter(command: &Command) -> u8 {
    match command {
        Command::Update(Update::Store { .. }) => b's',
        Command::Update(Update::Cas { .. }) => b'c',
        Command::Update(Update::Delete { .. }) => b'd',
        Command::Update(Update::Touch { .. }) => b't',
        Command::Update(_) => b'n',
        _ => b'g',
    }
}

/// The letters of the commands that these bytes ask, and then what the client is given, if each is answered so.
fn talk(
    alloc: Global,
    dialect: Dialect,
    bytes: &[u8],
    conditions: &mut Conditions,
) -> Result<Vec<u8>, Fault> {
    let mut session = Session::new(alloc, dialect);
    let mut given = session.feed(alloc, bytes, conditions)?;
    let mut all = Vec::new(alloc);
    for _ in 0..MOST_COMMANDS {
        let Some(ready) = session.take() else {
            break;
        };
        all.push(letter(&ready.command))?;
        let text = session.answer(alloc, ready.turn, &Reply::Deleted)?;
        given.extend_from_slice(text.as_slice())?;
    }
    all.extend_from_slice(b"|")?;
    all.extend_from_slice(given.as_slice())?;
    Ok(all)
}

/// Whether these bytes ask and give this while no more may be stored.
fn is_told(alloc: Global, bytes: &[u8], asked: &[u8], given: &[u8]) -> bool {
    match talk(alloc, Dialect::Limited, bytes, &mut full()) {
        Ok(all) => {
            let all = all.as_slice();
            let parted = asked.len().saturating_add(1);
            let is_all = all.len() == parted.saturating_add(given.len());
            is_all && all.starts_with(asked) && all.ends_with(given)
        }
        Err(_) => false,
    }
}

/// Whether they do what they do without a limit.
fn is_as_without(alloc: Global, bytes: &[u8]) -> bool {
    match (
        talk(alloc, Dialect::Limited, bytes, &mut plain()),
        talk(alloc, Dialect::Memcached, bytes, &mut full()),
    ) {
        (Ok(limited), Ok(other)) => limited.as_slice() == other.as_slice(),
        _ => false,
    }
}

#[test]
fn a_set_is_refused_and_removes_its_item(rt: HostRuntime) -> Result<(), Fail> {
    assert!(rt; is_told(rt.alloc(), b"set k 0 0 1\r\nx\r\n", b"d", FULL));
    assert!(rt; is_told(rt.alloc(), b"set k 0 0 1 noreply\r\nx\r\n", b"d", b""));
    Ok(())
}

#[test]
fn other_storage_lines_ask_nothing(rt: HostRuntime) -> Result<(), Fail> {
    assert!(rt; is_told(rt.alloc(), b"add k 0 0 1\r\nx\r\n", b"", FULL));
    assert!(rt; is_told(rt.alloc(), b"append k 0 0 1\r\nx\r\n", b"", FULL));
    assert!(rt; is_told(rt.alloc(), b"cas k 0 0 1 7\r\nx\r\n", b"", FULL));
    assert!(rt; is_told(rt.alloc(), b"replace k 0 0 1 noreply\r\nx\r\n", b"", b""));
    Ok(())
}

#[test]
fn other_lines_are_asked(rt: HostRuntime) -> Result<(), Fail> {
    let deleted = b"DELETED\r\n".as_slice();
    assert!(rt; is_told(rt.alloc(), b"delete k\r\n", b"d", deleted));
    assert!(rt; is_told(rt.alloc(), b"touch k 0\r\n", b"t", deleted));
    assert!(rt; is_told(rt.alloc(), b"incr k 1\r\n", b"n", deleted));
    assert!(rt; is_told(rt.alloc(), b"get k\r\n", b"g", deleted));
    assert!(rt; is_told(rt.alloc(), b"cas k 0 -1 0 7\r\n\r\n", b"c", deleted));
    Ok(())
}

#[test]
fn a_limit_that_is_not_reached_changes_nothing(rt: HostRuntime) -> Result<(), Fail> {
    let lines = b"set k 0 0 1\r\nx\r\nadd k 0 0 1\r\nx\r\nstats items\r\nget k\r\n".as_slice();
    assert!(rt; is_as_without(rt.alloc(), lines));
    Ok(())
}

/// What was counted of these bytes.
fn counted(alloc: Global, dialect: Dialect, bytes: &[u8], mut conditions: Conditions) -> Figures {
    let _ = talk(alloc, dialect, bytes, &mut conditions);
    conditions.figures
}

/// Whether one line was refused for this, and none for another reason.
fn is_counted(figures: &Figures, refusal: Refusal) -> bool {
    let mut refusals = figures::Refusals::NONE;
    refusals.count(refusal);
    figures.refusals == refusals
}

#[test]
fn refused_lines_are_counted(rt: HostRuntime) -> Result<(), Fail> {
    let alloc = rt.alloc();
    let plainly = |bytes| counted(alloc, Dialect::Memcached, bytes, plain());
    assert!(rt; is_counted(&plainly(b"nonsense\r\n"), Refusal::Unknown));
    assert!(rt; is_counted(&plainly(b"set k x 0 1\r\nx\r\n"), Refusal::Format));
    assert!(rt; is_counted(&plainly(b"incr k x\r\n"), Refusal::Number));
    assert!(rt; is_counted(&plainly(b"set k 0 0 1\r\nxxx"), Refusal::Chunk));
    assert!(rt; is_counted(&plainly(b"\x80"), Refusal::Binary));
    assert!(rt; is_counted(&plainly(b"GET / HTTP/1.1\r\n"), Refusal::Http));
    assert!(rt; is_counted(&plainly(b"flush_all\r\n"), Refusal::Forbidden));
    assert!(rt;
        is_counted(
            &counted(alloc, Dialect::Profile, b"nonsense\r\n", plain()),
            Refusal::Unknown
        )
    );
    Ok(())
}

#[test]
fn lines_that_find_no_room_are_counted(rt: HostRuntime) -> Result<(), Fail> {
    let alloc = rt.alloc();
    let set = counted(alloc, Dialect::Limited, b"set k 0 0 1\r\nx\r\n", full());
    assert!(rt; is_counted(&set, Refusal::Full));
    let add = counted(alloc, Dialect::Limited, b"add k 0 0 1\r\nx\r\n", full());
    assert!(rt; is_counted(&add, Refusal::Full));
    Ok(())
}

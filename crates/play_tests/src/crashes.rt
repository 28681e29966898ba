//! A node that stops, and is opened again, after each event of a play. What the client is given is then a beginning of
//! what it is given without; and it is all of that, at the latest when all replicas have come back.

use crate::played::played;
use std::alloc::{AllocError, Global};
use std::test::Fail;

/// A line of a schedule, so many times.
type Lines = (&'static str, usize);

/// One executor and one verifier: a value is set, and got.
const ALONE: [Lines; 7] = [
    ("u 0\nclients 1", 1),
    ("feed 1 set a 0 0 1\\r\\n5\\r\\nget a\\r\\n", 1),
    ("settle 1", 2),
    ("cut 0 1000", 1),
    ("settle 1", 10),
    ("cut 0 1000", 1),
    ("settle 1", 10),
];

/// Three of each: an increment is asked three times again, and then the counter is got.
const OF_THREE: [Lines; 10] = [
    ("u 1\nclients 1", 1),
    (
        "feed 1 set n 0 0 1\\r\\n1\\r\\nincr n 1\\r\\nget n\\r\\n",
        1,
    ),
    ("settle 1", 3),
    ("cut 0 1000", 1),
    ("settle 1", 60),
    ("again 1", 3),
    ("cut 0 1000", 1),
    ("settle 1", 70),
    ("cut 0 1000", 1),
    ("settle 1", 60),
];

/// There is a new leader, the client asks again, and each executor cuts a batch.
const ALL_COME_BACK: &str = "suspect 0\nsuspect 1\nsuspect 2\nsettle 1000\nagain 1\nsettle 1000\n\
    cut 0 1000\ncut 1 1000\ncut 2 1000\nsettle 1000\n";

/// The client, which asks three commands, is given all after fewer rounds.
const MOST_ROUNDS: usize = 5;

/// How many lines there are.
fn count(rows: &[Lines]) -> usize {
    let mut sum = 0usize;
    for (_, times) in rows {
        sum = sum.saturating_add(*times);
    }
    sum
}

/// The schedule, with more lines after so many, and at its end so many rounds in which all come back.
fn with_lines(
    alloc: Global,
    rows: &[Lines],
    at: usize,
    more: &str,
    rounds: usize,
) -> Result<String, AllocError> {
    let mut text = String::new(alloc);
    let mut before = 0usize;
    for (line, times) in rows {
        for _ in 0..*times {
            text.push_str(*line)?;
            text.push('\n')?;
            before = before.saturating_add(1);
            if before == at {
                text.push_str(more)?;
            }
        }
    }
    for _ in 0..rounds {
        text.push_str(ALL_COME_BACK)?;
    }
    Ok(text)
}

/// What the only client was given, as it is printed.
fn given(alloc: Global, schedule: &str) -> Result<String, AllocError> {
    let end = played(alloc, schedule.as_bytes());
    let text = String::from_utf8_lossy(alloc, &end.out)?;
    let mut shown = String::new(alloc);
    if let Some(line) = text.lines().next() {
        if let Some(rest) = line.strip_prefix("client 1 open ") {
            if let Some((_, bytes)) = rest.split_once(' ') {
                shown.push_str(bytes)?;
            }
        }
    }
    Ok(shown)
}

/// Whether the client is given all of `whole` after so many rounds. None: it is given no beginning of it.
fn is_given(
    alloc: Global,
    rows: &[Lines],
    at: usize,
    more: &str,
    rounds: usize,
    whole: &str,
) -> Result<Option<bool>, AllocError> {
    let schedule = with_lines(alloc, rows, at, more, rounds)?;
    let some = given(alloc, schedule.as_str())?;
    let is_all = some.as_str() == whole;
    Ok(whole.starts_with(some.as_str()).then_some(is_all))
}

/// Whether the client is given all of `whole` after some rounds, and a beginning of it before.
fn is_given_all(
    alloc: Global,
    rows: &[Lines],
    at: usize,
    more: &str,
    whole: &str,
) -> Result<bool, AllocError> {
    for rounds in 0..MOST_ROUNDS {
        match is_given(alloc, rows, at, more, rounds, whole)? {
            Some(true) => return Ok(true),
            Some(false) => {}
            None => return Ok(false),
        }
    }
    Ok(false)
}

/// Whether it holds of these nodes, each after each event.
fn holds(alloc: Global, rows: &[Lines], nodes: &[&str], whole: &str) -> Result<bool, AllocError> {
    if is_given(alloc, rows, 0, "", 0, whole)? != Some(true) {
        return Ok(false);
    }
    for node in nodes {
        for at in 1..count(rows) {
            let more = format!(in alloc; "crash {node}\nrestart {node}\n")?;
            if !is_given_all(alloc, rows, at, more.as_str(), whole)? {
                return Ok(false);
            }
        }
    }
    Ok(true)
}

#[test]
fn where_one_is_alone(rt: HostRuntime) -> Result<(), Fail> {
    let nodes = ["e0", "v0"];
    let whole = "STORED\\r\\nVALUE a 0 1\\r\\n5\\r\\nEND\\r\\n";
    assert!(rt; holds(rt.alloc(), &ALONE, &nodes, whole)?);
    Ok(())
}

#[test]
fn where_two_of_three_go_on(rt: HostRuntime) -> Result<(), Fail> {
    let nodes = ["e0", "e1", "e2", "v0", "v1", "v2"];
    let whole = "STORED\\r\\n2\\r\\nVALUE n 0 1\\r\\n2\\r\\nEND\\r\\n";
    assert!(rt; holds(rt.alloc(), &OF_THREE, &nodes, whole)?);
    Ok(())
}

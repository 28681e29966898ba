//! Commands on pages, each as a batch by itself at a moment of its own.

use item_steps::{Answer, Stamp, Step, apply, reply_of, steps_of};
use items::{PlainStore, Store};
use pages::Pages;
use proto::{Command, Reader, Turn, write_reply};
use std::alloc::{AllocError, Global};
use std::test::Fail;

/// What the step gives. If an allocation fails it is made once more: nothing has changed by then.
fn apply_again<S: Store>(
    alloc: Global,
    store: &mut S,
    step: &Step,
    at: Stamp,
) -> Result<Answer, AllocError> {
    match apply(alloc, store, step, at) {
        Ok(answer) => Ok(answer),
        Err(_) => apply(alloc, store, step, at),
    }
}

fn make_steps<S: Store>(
    alloc: Global,
    store: &mut S,
    at: Stamp,
    steps: &[Step],
    answers: &mut Vec<Answer>,
) -> Result<(), AllocError> {
    for step in steps {
        answers.push(apply_again(alloc, store, step, at)?)?;
    }
    Ok(())
}

/// Makes the steps of a command, and adds the text of its reply.
fn run<S: Store>(
    alloc: Global,
    store: &mut S,
    at: Stamp,
    command: &Command,
    out: &mut Vec<u8>,
) -> Result<(), AllocError> {
    let steps = steps_of(alloc, command)?;
    let mut answers = Vec::new(alloc);
    make_steps(alloc, store, at, steps.as_slice(), &mut answers)?;
    if answers.len() != steps.len() {
        return Ok(());
    }
    write_reply(&reply_of(alloc, command, answers.as_slice())?, out)
}

/// Drops what is due; once more if an allocation fails.
fn drop_due_again<S: Store>(store: &mut S, moment: u32) -> Result<(), AllocError> {
    match store.drop_due(moment) {
        Ok(()) => Ok(()),
        Err(_) => store.drop_due(moment),
    }
}

fn run_turns<S: Store>(
    alloc: Global,
    store: &mut S,
    at: Stamp,
    turns: &[Turn],
    out: &mut Vec<u8>,
) -> Result<(), AllocError> {
    drop_due_again(store, at.moment)?;
    for turn in turns {
        if let Turn::Ask(command, _) = turn {
            run(alloc, store, at, command, out)?;
        }
    }
    Ok(())
}

/// A command's lines, and the moment of the batch that it is.
type Asked<'a> = (u32, &'a [u8]);

/// Runs these lines, each as a batch at its moment, the first as batch 1.
fn run_lines<S: Store>(
    alloc: Global,
    store: &mut S,
    lines: &[Asked],
    out: &mut Vec<u8>,
) -> Result<(), AllocError> {
    let mut stamp = 0u64;
    for (moment, line) in lines {
        stamp = stamp.wrapping_add(64);
        let at = Stamp {
            moment: *moment,
            stamp,
        };
        run_turns(
            alloc,
            store,
            at,
            Reader::new(alloc).feed(alloc, *line)?.as_slice(),
            out,
        )?;
    }
    Ok(())
}

/// Whether these lines give this, over the store.
fn give<S: Store>(
    alloc: Global,
    store: &mut S,
    lines: &[Asked],
    expected: &[u8],
) -> Result<bool, AllocError> {
    let mut out = Vec::new(alloc);
    run_lines(alloc, store, lines, &mut out)?;
    Ok(out.as_slice() == expected)
}

/// The same, over pages and over a plain store.
fn give_on_both(alloc: Global, lines: &[Asked], expected: &[u8]) -> Result<bool, AllocError> {
    Ok(
        give(alloc, &mut PlainStore::new(alloc), lines, expected)?
            && give(alloc, &mut Pages::new(alloc)?, lines, expected)?,
    )
}

/// Each command, once so that it does something and once so that it does not. The unique of what line `n`
/// stores is `64 * n`.
const EACH: &[Asked<'static>] = &[
    (1000, b"set a 1 0 1\r\n5\r\n"),
    (1000, b"add a 1 0 1\r\n6\r\n"),
    (1000, b"add b 2 20 1\r\n6\r\n"),
    (1000, b"replace c 1 0 1\r\n7\r\n"),
    (1000, b"replace a 3 0 1\r\n7\r\n"),
    (1000, b"append a 0 0 2\r\n89\r\n"),
    (1000, b"prepend a 0 0 1\r\n6\r\n"),
    (1000, b"append c 0 0 1\r\n6\r\n"),
    (1000, b"incr a 5\r\n"),
    (1000, b"decr a 1\r\n"),
    (1000, b"incr c 1\r\n"),
    (1000, b"gets a b c\r\n"),
    (1000, b"cas a 4 0 1 64\r\nx\r\n"),
    (1000, b"cas a 4 0 1 640\r\nx\r\n"),
    (1000, b"cas c 4 0 1 640\r\nx\r\n"),
    (1000, b"incr a 1\r\n"),
    (1000, b"touch a 10\r\n"),
    (1000, b"touch c 10\r\n"),
    (1005, b"gats 30 b c a\r\n"),
    (1034, b"gat 1 a b\r\n"),
    (1035, b"get a b\r\n"),
    (1036, b"set d 0 0 1\r\n1\r\n"),
    (1036, b"delete d\r\n"),
    (1036, b"delete d\r\n"),
    (1036, b"get a b c d\r\n"),
];

const EACH_GIVES: &[u8] =
    b"STORED\r\nNOT_STORED\r\nSTORED\r\nNOT_STORED\r\nSTORED\r\nSTORED\r\nSTORED\r\nNOT_STORED\r\n6794\r\n6793\r\nNOT_FOUND\r\nVALUE a 3 4 640\r\n6793\r\nVALUE b 2 1 192\r\n6\r\nEND\r\nEXISTS\r\nSTORED\r\nNOT_FOUND\r\nCLIENT_ERROR cannot increment or decrement non-numeric value\r\nTOUCHED\r\nNOT_FOUND\r\nVALUE b 2 1 192\r\n6\r\nVALUE a 4 1 896\r\nx\r\nEND\r\nVALUE a 4 1\r\nx\r\nVALUE b 2 1\r\n6\r\nEND\r\nEND\r\nSTORED\r\nDELETED\r\nNOT_FOUND\r\nEND\r\n";

const NO_NUMBER: &[u8] =
    b"STORED\r\nCLIENT_ERROR cannot increment or decrement non-numeric value\r\n";

const SEEN_TWICE: &[u8] = b"STORED\r\nVALUE c 0 1\r\n5\r\nEND\r\nVALUE c 0 1\r\n5\r\nEND\r\n";

/// A test's name, its lines, and what they give.
type Row = (&'static str, &'static [Asked<'static>], &'static [u8]);

const ROWS: [Row; 8] = [
    (
        "a gat gives its items another due time",
        &[
            (1000, b"set a 3 0 1\r\n5\r\n"),
            (1000, b"gat 10 a b\r\n"),
            (1009, b"gets a\r\n"),
            (1010, b"get a\r\n"),
        ],
        b"STORED\r\nVALUE a 3 1\r\n5\r\nEND\r\nVALUE a 3 1 64\r\n5\r\nEND\r\nEND\r\n",
    ),
    (
        "a gats is done key by key",
        &[
            (1000, b"set a 3 5 1\r\n5\r\n"),
            (1000, b"gats 0 a a\r\n"),
            (9000, b"gats -1 a a\r\n"),
            (9000, b"get a\r\n"),
        ],
        b"STORED\r\nVALUE a 3 1 64\r\n5\r\nVALUE a 3 1 64\r\n5\r\nEND\r\nVALUE a 3 1 64\r\n5\r\nEND\r\nEND\r\n",
    ),
    (
        "a get after a gat sees the item",
        &[
            (1000, b"set c 0 0 1\r\n5\r\n"),
            (1000, b"gat 5 x y c\r\n"),
            (1000, b"get c\r\n"),
        ],
        SEEN_TWICE,
    ),
    (
        "a get before a gat sees the item",
        &[
            (1000, b"set c 0 0 1\r\n5\r\n"),
            (1000, b"get c\r\n"),
            (1000, b"gat 5 x y c\r\n"),
        ],
        SEEN_TWICE,
    ),
    (
        "what is counted up is below 2^64",
        &[
            (1000, b"set n 0 0 20\r\n18446744073709551616\r\n"),
            (1000, b"incr n 1\r\n"),
        ],
        NO_NUMBER,
    ),
    (
        "what is counted down is below 2^64",
        &[
            (1000, b"set n 0 0 20\r\n18446744073709551616\r\n"),
            (1000, b"decr n 1\r\n"),
        ],
        NO_NUMBER,
    ),
    (
        "what 0 is added to is below 2^64",
        &[
            (1000, b"set n 0 0 20\r\n18446744073709551616\r\n"),
            (1000, b"incr n 0\r\n"),
        ],
        NO_NUMBER,
    ),
    ("each command", EACH, EACH_GIVES),
];

fn joined(alloc: Global, front: &[u8], block: &[u8], back: &[u8]) -> Result<Vec<u8>, AllocError> {
    let mut out = Vec::from_slice(alloc, front)?;
    out.extend_from_slice(block)?;
    out.extend_from_slice(back)?;
    Ok(out)
}

/// Whether an item of this block, which is one byte short of the limit, takes one byte more, and then none.
fn is_filled(alloc: Global, block: &[u8]) -> Result<bool, AllocError> {
    let set = joined(alloc, b"set a 0 0 1048575\r\n", block, b"\r\n")?;
    let lines: [Asked; 4] = [
        (1000, set.as_slice()),
        (1000, b"append a 0 0 1\r\ny\r\n"),
        (1000, b"append a 0 0 1\r\nz\r\n"),
        (1000, b"get a\r\n"),
    ];
    let expected = joined(
        alloc,
        b"STORED\r\nSTORED\r\nSERVER_ERROR object too large for cache\r\nVALUE a 0 1048576\r\n",
        block,
        b"y\r\nEND\r\n",
    )?;
    give(alloc, &mut Pages::new(alloc)?, &lines, expected.as_slice())
}

/// Whether what is appended fits the limit of a block.
fn fills_a_block(alloc: Global) -> Result<bool, AllocError> {
    let block = vec![in alloc; b'x'; 1048575]?;
    is_filled(alloc, block.as_slice())
}

#[test]
fn commands_on_pages_and_on_a_plain_store(rt: HostRuntime) -> Result<(), Fail> {
    for (name, lines, expected) in &ROWS {
        assert!(rt; give_on_both(rt.alloc(), *lines, *expected)?, "{name}");
    }
    assert!(rt; fills_a_block(rt.alloc()) == Ok(true), "a full block");
    Ok(())
}

/// `scripts/refusals` has each of its allocations fail in turn.
#[test]
fn a_refused_step_changes_nothing(rt: HostRuntime) -> Result<(), Fail> {
    let gave = give_on_both(rt.alloc(), EACH, EACH_GIVES);
    assert!(rt; gave == Ok(true) || gave.is_err());
    Ok(())
}

//! Votes and their verdicts, and logs of decrees.

use base::Text;
use decrees::{Decree, Log, Standing, Verdict, VoteKey, Votes};
use proto::Fault;
use std::alloc::{AllocError, Global};
use std::test::Fail;
use token::Token;

/// A vote for the token of this byte.
fn add(votes: &mut Votes, epoch: u64, n: u64, executor: u8, byte: u8) -> Result<(), AllocError> {
    let key = VoteKey {
        epoch,
        n,
        executor,
        previous: [0; 32],
    };
    votes.add(key, Token([byte; 32]))
}

/// Adds these tokens for the first number, of the executors from 0 on, and later others of the same.
fn add_votes(votes: &mut Votes, tokens: &[u8]) -> Result<(), AllocError> {
    let mut executor = 0;
    for byte in tokens {
        add(votes, 1, 1, executor, *byte)?;
        add(votes, 1, 1, executor, 99)?;
        executor = executor.wrapping_add(1);
    }
    Ok(())
}

/// The verdict if the executors from 0 on have these tokens for the first number, and at most `u`,
/// up to 3, may fail.
fn verdict(alloc: Global, u: u8, tokens: &[u8]) -> Result<Verdict, AllocError> {
    let mut votes = Votes::new(alloc);
    add_votes(&mut votes, tokens)?;
    Ok(votes.verdict(u.min(3), &Standing::first()))
}

const COMMIT: Verdict = Verdict::Commit(Token([7; 32]));

/// How many may fail, the tokens of executors from 0 on, and the verdict.
const VERDICTS: [(u8, &[u8], Verdict); 9] = [
    (0, &[], Verdict::Wait),
    (0, &[7], COMMIT),
    (1, &[7, 7], COMMIT),
    (1, &[7, 8], Verdict::Wait),
    (1, &[7, 8, 9], Verdict::Hopeless),
    (2, &[7, 7, 8, 8], Verdict::Wait),
    (2, &[7, 7, 8, 8, 9], Verdict::Hopeless),
    (2, &[6, 7, 8, 9], Verdict::Hopeless),
    (3, &[7, 7, 8, 8, 9, 9], Verdict::Hopeless),
];

/// The verdicts after votes of another epoch, of another number, and of one that is no executor of a set of
/// one; and then, if the old ones are dropped, after one that counts.
fn of_others(votes: &mut Votes) -> Result<[Verdict; 2], AllocError> {
    add(votes, 2, 1, 0, 7)?;
    add(votes, 1, 2, 0, 7)?;
    add(votes, 1, 1, 1, 7)?;
    let first = votes.verdict(0, &Standing::first());
    votes.drop_old(&Standing {
        n: 1,
        token: Token([7; 32]),
        epoch: 2,
        start: 1,
    });
    add(votes, 1, 1, 0, 7)?;
    Ok([first, votes.verdict(0, &Standing::first())])
}

const FIRST: Decree = Decree::Commit {
    n: 1,
    token: Token([5; 32]),
};

const SECOND: Decree = Decree::Commit {
    n: 2,
    token: Token([5; 32]),
};

/// Whether a new log learns this decree, or refuses it as one that may not come next.
const LEARNED: [(Decree, Result<(), Fault>); 5] = [
    (SECOND, Err(Fault::BadRecord)),
    (Decree::Rollback, Ok(())),
    (FIRST, Ok(())),
    (FIRST, Err(Fault::BadRecord)),
    (Decree::Rollback, Ok(())),
];

const AFTER: Standing = Standing {
    n: 1,
    token: Token([5; 32]),
    epoch: 3,
    start: 2,
};

/// Whether the decrees are learned or refused, and the log then is of those that were learned.
fn learns(log: &mut Log) -> bool {
    for (decree, result) in &LEARNED {
        if log.learn(*decree) != *result {
            return false;
        }
    }
    let decrees = [log.decree(0), log.decree(2), log.decree(4)];
    decrees == [None, Some(FIRST), None] && log.known() == 3 && log.standing() == AFTER
}

/// 2,500 undone batches and one that is committed.
fn learn_2501(log: &mut Log) -> Result<(), Fault> {
    for _ in 0..2500usize {
        log.learn(Decree::Rollback)?;
    }
    log.learn(Decree::Commit {
        n: 1,
        token: Token([7; 32]),
    })
}

/// The text of the last one: its mark, its number and its token.
const LAST: &[u8] =
    b"\x01\x00\x00\x00\x00\x00\x00\x00\x01\x07\x07\x07\x07\x07\x07\x07\x07\x07\x07\x07\x07\x07\x07\x07\x07\x07\x07\x07\x07\x07\x07\x07\x07\x07\x07\x07\x07\x07\x07\x07\x07";

/// Whether the text is that of 2,500 undone batches, a byte 0 each, and of the last one.
fn is_of_2501(text: &[u8]) -> bool {
    let (undone, last) = text.split_at(text.len().min(2500));
    for byte in undone {
        if *byte != 0 {
            return false;
        }
    }
    undone.len() == 2500 && last == LAST
}

/// Whether the log's text is, which has more than one piece.
fn has_text_of_2501(alloc: Global, log: &mut Log) -> Result<bool, Fault> {
    learn_2501(log)?;
    let mut text = Text::new(alloc);
    log.append_text(&mut text)?;
    Ok(is_of_2501(text.joined(alloc)?.as_slice()))
}

fn counts_no_others(alloc: Global) -> bool {
    let mut votes = Votes::new(alloc);
    of_others(&mut votes) == Ok([Verdict::Wait, COMMIT])
}

fn is_learned(alloc: Global) -> bool {
    let mut log = Log::new(alloc);
    learns(&mut log)
}

fn is_text_of_2501(alloc: Global) -> bool {
    let mut log = Log::new(alloc);
    has_text_of_2501(alloc, &mut log) == Ok(true)
}

#[test]
fn verdicts_and_logs(rt: HostRuntime) -> Result<(), Fail> {
    for (u, tokens, wanted) in &VERDICTS {
        let found = verdict(rt.alloc(), *u, *tokens)?;
        assert!(rt; found == *wanted, "{u} {}", tokens.len());
    }
    assert!(rt; counts_no_others(rt.alloc()), "votes that do not count");
    assert!(rt; is_learned(rt.alloc()), "a log and what it stands for");
    assert!(rt;
        is_text_of_2501(rt.alloc()),
        "a text of more than one piece"
    );
    Ok(())
}

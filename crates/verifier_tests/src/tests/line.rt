//! The words of a line.

use decrees::{Ballot, Decree, Node, Standing};
use std::alloc::{AllocError, Global};
use token::Token;

pub fn words(alloc: Global, text: &str) -> Result<Vec<&str>, AllocError> {
    text.split_whitespace().collect(alloc)
}

fn parsed(word: &str) -> Option<u64> {
    word.parse().ok()
}

/// The node that a word names: `v1`, `e0` or `c9`.
pub fn node(word: &str) -> Option<Node> {
    let number = u8::try_from(parsed(word.get(1..)?)?).ok()?;
    match word.get(..1)? {
        "v" => Some(Node::Verifier(number)),
        "e" => Some(Node::Executor(number)),
        "c" => Some(Node::Client(u16::from(number))),
        _ => None,
    }
}

/// The number of the verifier that a word names.
pub fn verifier(word: &str) -> Option<u8> {
    match node(word)? {
        Node::Verifier(id) => Some(id),
        _ => None,
    }
}

/// The number after this name, which is at this place.
pub fn number(words: &[&str], at: usize, name: &str) -> Option<u64> {
    if *words.get(at)? != name {
        return None;
    }
    parsed(words.get(at.wrapping_add(1))?)
}

/// What a letter says.
#[derive(Clone, Copy)]
enum Form {
    Token,
    Accept,
    AcceptRollback,
    Accepted,
    AcceptedRollback,
    Decided,
    DecidedRollback,
    Ask,
    Change,
    Promise,
    PromiseRollback,
    PromiseNothing,
    Stands,
}

/// The words of each form, in which `#` is a number.
const FORMS: [(Form, &str); 13] = [
    (Form::Token, "token # of batch # epoch # over #"),
    (Form::Accept, "accept view # place # commit # token #"),
    (Form::AcceptRollback, "accept view # place # rollback"),
    (Form::Accepted, "accepted view # place # commit # token #"),
    (Form::AcceptedRollback, "accepted view # place # rollback"),
    (Form::Decided, "decided place # commit # token #"),
    (Form::DecidedRollback, "decided place # rollback"),
    (Form::Ask, "ask place #"),
    (Form::Change, "change view #"),
    (
        Form::Promise,
        "promise view # knows # accepted view # commit # token #",
    ),
    (
        Form::PromiseRollback,
        "promise view # knows # accepted view # rollback",
    ),
    (
        Form::PromiseNothing,
        "promise view # knows # accepted nothing",
    ),
    (
        Form::Stands,
        "stands place # number # token # epoch # first #",
    ),
];

/// The numbers of the words, if they are of this form.
fn numbers(words: &[&str], form: &str) -> Option<[u64; 5]> {
    let mut all = [0u64; 5];
    let mut count = 0usize;
    let mut rest = words.iter();
    for name in form.split(' ') {
        let word = *rest.next()?;
        if name == "#" {
            *all.get_mut(count)? = parsed(word)?;
            count = count.wrapping_add(1);
        } else if word != name {
            return None;
        }
    }
    if rest.next().is_none() {
        Some(all)
    } else {
        None
    }
}

/// The token of 32 bytes that are this number.
fn token(number: u64) -> Option<Token> {
    Some(Token([u8::try_from(number).ok()?; 32]))
}

fn commit(n: u64, of: u64) -> Option<Decree> {
    let token = token(of)?;
    Some(Decree::Commit { n, token })
}

/// The ballot of this form, of these numbers in the order of its words.
fn said(form: Form, [a, b, c, d, e]: [u64; 5]) -> Option<Ballot> {
    Some(match form {
        Form::Token => Ballot::Token {
            epoch: c,
            n: b,
            previous: token(d)?,
            token: token(a)?,
        },
        Form::Accept => Ballot::Accept {
            view: a,
            place: b,
            decree: commit(c, d)?,
        },
        Form::AcceptRollback => Ballot::Accept {
            view: a,
            place: b,
            decree: Decree::Rollback,
        },
        Form::Accepted => Ballot::Accepted {
            view: a,
            place: b,
            decree: commit(c, d)?,
        },
        Form::AcceptedRollback => Ballot::Accepted {
            view: a,
            place: b,
            decree: Decree::Rollback,
        },
        Form::Decided => Ballot::Decided {
            place: a,
            decree: commit(b, c)?,
        },
        Form::DecidedRollback => Ballot::Decided {
            place: a,
            decree: Decree::Rollback,
        },
        Form::Ask => Ballot::Ask { place: a },
        Form::Change => Ballot::Change { view: a },
        Form::Promise => Ballot::Promise {
            view: a,
            known: b,
            accepted: Some((c, commit(d, e)?)),
        },
        Form::PromiseRollback => Ballot::Promise {
            view: a,
            known: b,
            accepted: Some((c, Decree::Rollback)),
        },
        Form::PromiseNothing => Ballot::Promise {
            view: a,
            known: b,
            accepted: None,
        },
        Form::Stands => Ballot::Stands {
            place: a,
            standing: Standing {
                n: b,
                token: token(c)?,
                epoch: d,
                start: e,
            },
        },
    })
}

/// What a letter says.
pub fn ballot(words: &[&str]) -> Option<Ballot> {
    for (form, text) in FORMS {
        if let Some(numbers) = numbers(words, text) {
            return said(form, numbers);
        }
    }
    None
}

fn digit(digit: u8) -> Option<u8> {
    match digit {
        b'0'..=b'9' => Some(digit - b'0'),
        b'A'..=b'F' => Some(digit - b'A' + 10),
        _ => None,
    }
}

/// The byte of two hexadecimal digits.
fn hexadecimal(word: &str) -> Option<u8> {
    match *word.as_bytes() {
        [high, low] => Some(digit(high)?.wrapping_mul(16).wrapping_add(digit(low)?)),
        _ => None,
    }
}

/// Adds the bytes of a word: `07`, or `07x32` for 32 of them.
fn push_bytes(word: &str, all: &mut Vec<u8>) -> Option<()> {
    let (byte, times) = word.split_once('x').unwrap_or((word, "1"));
    let byte = hexadecimal(byte)?;
    for _ in 0..parsed(times)? {
        all.push(byte).ok()?;
    }
    Some(())
}

/// Adds bytes in hexadecimal: `01 56 00x8`.
pub fn push_all(words: &[&str], all: &mut Vec<u8>) -> Option<()> {
    for word in words {
        push_bytes(*word, all)?;
    }
    Some(())
}

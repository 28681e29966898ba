//! Records that are cut at each byte, and those of which each byte is another in turn.

use base::Text;
use decrees::{Ballot, Letter, Node};
use keeper::{Keeper, MemKeeper};
use proto::Fault;
use std::alloc::Global;
use std::test::Fail;
use verifier::{Input, Verifier};

/// A keeper that has these bytes as its record.
pub fn keeper_of(alloc: Global, bytes: &[u8]) -> Result<MemKeeper<Text>, Fault> {
    let mut text = Text::new(alloc);
    text.put(bytes)?;
    let mut keeper = MemKeeper::new();
    if keeper.failures() == 0 {
        keeper.save(text)?;
    }
    Ok(keeper)
}

/// The record that is kept; if there is none, nothing.
pub fn record(alloc: Global, keeper: &MemKeeper<Text>) -> Result<Vec<u8>, Fault> {
    match keeper.load() {
        None => Ok(Vec::new(alloc)),
        Some(text) => Ok(text.joined(alloc)?),
    }
}

/// What `handle` answers. It says nothing of that, so that the proofs of those who call it are short; so for
/// `open`.
pub fn handle(
    alloc: Global,
    verifier: &mut Verifier<MemKeeper<Text>>,
    input: Input,
) -> Result<Vec<Letter<Ballot>>, Fault> {
    verifier.handle(alloc, input)
}

type Opened = (Verifier<MemKeeper<Text>>, Vec<Letter<Ballot>>);

/// The verifier `id` of `2 u + 1`, and its first letters.
pub fn open(
    alloc: Global,
    u: u8,
    id: u8,
    keeper: MemKeeper<Text>,
) -> Result<Opened, (Fault, MemKeeper<Text>)> {
    if 3 < u || 2 * u < id {
        return Err((Fault::BadRecord, keeper));
    }
    Verifier::open(alloc, u, id, keeper)
}

/// A step that saves the record, of which nothing but the view changes.
fn save(alloc: Global, verifier: &mut Verifier<MemKeeper<Text>>) -> Result<(), Fault> {
    let change = Letter {
        from: Node::Verifier(2),
        to: Node::Verifier(1),
        body: Ballot::Change { view: u64::MAX - 1 },
    };
    drop(handle(alloc, verifier, Input::Letter(change))?);
    Ok(())
}

/// The record that the verifier saves.
fn saved(alloc: Global, verifier: Verifier<MemKeeper<Text>>) -> Result<Vec<u8>, Fault> {
    let mut verifier = verifier;
    let step = save(alloc, &mut verifier);
    let saved = record(alloc, &verifier.end());
    step?;
    saved
}

/// Whether it is this one, but for the view.
fn saves(alloc: Global, verifier: Verifier<MemKeeper<Text>>, bytes: &[u8]) -> Result<bool, Fault> {
    let saved = saved(alloc, verifier)?;
    Ok(saved.get(..4) == bytes.get(..4) && saved.get(12..) == bytes.get(12..))
}

/// Whether verifier 1 of three goes on from the bytes as the one whose record they are, or refuses them and they are
/// kept. `None`: neither.
fn is_taken(alloc: Global, bytes: &[u8]) -> Result<Option<bool>, Fault> {
    match open(alloc, 1, 1, keeper_of(alloc, bytes)?) {
        Ok((verifier, _)) => Ok(saves(alloc, verifier, bytes)?.then_some(true)),
        Err((fault, keeper)) => {
            let is_kept = record(alloc, &keeper)?.as_slice() == bytes;
            Ok((is_kept && fault == Fault::BadRecord).then_some(false))
        }
    }
}

/// The first length at which a front of the record is not refused, or the whole is not taken.
fn first_wrong_front(alloc: Global, bytes: &[u8]) -> Result<Option<usize>, Fault> {
    for at in 0..bytes.len() {
        if is_taken(alloc, &bytes[..at])? != Some(false) {
            return Ok(Some(at));
        }
    }
    let is_whole = is_taken(alloc, bytes)? == Some(true);
    Ok(if is_whole { None } else { Some(bytes.len()) })
}

/// Whether the record is taken if one byte of it is another, as `is_taken`.
fn is_changed_taken(
    alloc: Global,
    bytes: &[u8],
    at: usize,
    turned: u8,
) -> Result<Option<bool>, Fault> {
    let mut other = Vec::from_slice(alloc, bytes)?;
    if let Some(byte) = other.get_mut(at) {
        *byte ^= turned;
    }
    is_taken(alloc, &other)
}

/// In how many of four ways another byte at this place makes a record that is taken. `None`: one is neither taken nor
/// refused.
fn count_at(alloc: Global, bytes: &[u8], at: usize) -> Result<Option<usize>, Fault> {
    let mut count = 0usize;
    for turned in [1u8, 2, 128, 255] {
        match is_changed_taken(alloc, bytes, at, turned)? {
            Some(true) => count = count.saturating_add(1),
            Some(false) => {}
            None => return Ok(None),
        }
    }
    Ok(Some(count))
}

/// How many records with one other byte are taken. `None`: one is neither taken nor refused.
fn count_of_changes(alloc: Global, bytes: &[u8]) -> Result<Option<usize>, Fault> {
    let mut count = 0usize;
    for at in 0..bytes.len() {
        match count_at(alloc, bytes, at)? {
            Some(more) => count = count.saturating_add(more),
            None => return Ok(None),
        }
    }
    Ok(Some(count))
}

/// Verifier 1 of three is in view 7, has accepted a Commit of number 2 in view 4, and knows a Rollback and
/// the Commit of number 1.
const KNOWN: &[u8] = &[
    1, 0x56, 1, 1, 0, 0, 0, 0, 0, 0, 0, 7, 1, 0, 0, 0, 0, 0, 0, 0, 4, 1, 0, 0, 0, 0, 0, 0, 0, 2, 9,
    9, 9, 9, 9, 9, 9, 9, 9, 9, 9, 9, 9, 9, 9, 9, 9, 9, 9, 9, 9, 9, 9, 9, 9, 9, 9, 9, 9, 9, 9, 9, 0,
    0, 0, 2, 0, 1, 0, 0, 0, 0, 0, 0, 0, 1, 7, 7, 7, 7, 7, 7, 7, 7, 7, 7, 7, 7, 7, 7, 7, 7, 7, 7, 7,
    7, 7, 7, 7, 7, 7, 7, 7, 7, 7, 7, 7, 7,
];

/// Verifier 1 of three is in view 7 and has accepted a Rollback in view 4. It has forgotten a Rollback, the
/// Commit of number 1 and a Rollback, and knows another Rollback and the Commit of number 2.
const TRIMMED: &[u8] = &[
    2, 0x56, 1, 1, 0, 0, 0, 0, 0, 0, 0, 7, 1, 0, 0, 0, 0, 0, 0, 0, 4, 0, 0, 0, 0, 0, 0, 0, 0, 3, 0,
    0, 0, 0, 0, 0, 0, 1, 7, 7, 7, 7, 7, 7, 7, 7, 7, 7, 7, 7, 7, 7, 7, 7, 7, 7, 7, 7, 7, 7, 7, 7, 7,
    7, 7, 7, 7, 7, 7, 7, 0, 0, 0, 0, 0, 0, 0, 3, 0, 0, 0, 0, 0, 0, 0, 2, 0, 0, 0, 2, 0, 1, 0, 0, 0,
    0, 0, 0, 0, 2, 8, 8, 8, 8, 8, 8, 8, 8, 8, 8, 8, 8, 8, 8, 8, 8, 8, 8, 8, 8, 8, 8, 8, 8, 8, 8, 8,
    8, 8, 8, 8, 8,
];

#[test]
fn a_record_is_taken_and_no_front_of_it(rt: HostRuntime) -> Result<(), Fail> {
    assert_eq!(rt; first_wrong_front(rt.alloc(), KNOWN)?, None);
    assert_eq!(rt; first_wrong_front(rt.alloc(), TRIMMED)?, None);
    Ok(())
}

/// What may be another by docs/records.md, each byte in four ways. Of the first record: the view, the accepted view and
/// the accepted number, of 8 bytes each, and the 32 bytes of two tokens. Of the second, as its numbers follow from each
/// other: both views and two tokens.
#[test]
fn a_changed_record_is_refused_or_is_another(rt: HostRuntime) -> Result<(), Fail> {
    assert_eq!(rt; count_of_changes(rt.alloc(), KNOWN)?, Some(352));
    assert_eq!(rt; count_of_changes(rt.alloc(), TRIMMED)?, Some(320));
    Ok(())
}

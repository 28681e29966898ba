//! Records of states and members, their bytes by hand, cut and changed.

ghost use Rattle.std.specs.Prelude.{◌<◌, length};

use super::old_bytes::{BATCH, Part, bytes_of};
use super::steps::TOKEN_OF_ONE_SET;
use super::*;
use std::test::Fail;

/// The first state: its form, 40 bytes of number and token before, its epoch, 68 bytes of batch, moment
/// and token, no sessions, and 256 pages without items.
const FIRST: &[Part] = &[
    Part::Bytes(&[2]),
    Part::Zeros(40),
    Part::Bytes(&[0, 0, 0, 0, 0, 0, 0, 1]),
    Part::Zeros(68),
    Part::Bytes(&[3, 0, 0, 0, 0]),
    Part::Zeros(1280),
];

/// The head of the state after one `set`, and its sessions: client 1 was answered `STORED`.
const HEAD: &[Part] = &[
    Part::Bytes(&[2, 0, 0, 0, 0, 0, 0, 0, 1]),
    Part::Zeros(32),
    Part::Bytes(&[0, 0, 0, 0, 0, 0, 0, 1]),
    Part::Bytes(&BATCH),
    Part::Bytes(&[0, 0, 3, 232]),
    Part::Bytes(&TOKEN_OF_ONE_SET),
    Part::Bytes(&[3, 0, 0, 0, 1, 0, 1, 0, 0, 0, 0, 0, 0, 0, 1, 0]),
];

/// Page 97 with `a`.
const PAGE: Part = Part::Bytes(&[
    0, 0, 0, 0, 1, 1, b'a', 0, 0, 0, 0, 0, 0, 0, 0, 0, 0, 0, 0, 64, 0, 0, 0, 1, b'5',
]);

/// The pages of that state.
const PAGES: &[Part] = &[Part::Zeros(485), PAGE, Part::Zeros(790)];

/// Whether the record of the state is what was expected, and is read as a state of the same number and
/// token without replies.
fn is_written_so(alloc: Global, committed: &Committed, expected: &[u8]) -> Result<bool, Fault> {
    let mut bytes = Vec::new(alloc);
    committed.write(&mut bytes)?;
    let again = Committed::restore(alloc, expected)?;
    Ok(
        bytes.as_slice() == expected
            && again.replies().is_empty()
            && again.state().number() == committed.state().number()
            && again.state().token() == committed.state().token(),
    )
}

/// Whether the state after these batches is written so.
fn state_is_written_so(
    alloc: Global,
    batches: &[&[u8]],
    record: &[&[Part]],
) -> Result<bool, Fault> {
    let committed = after(alloc, batches)?;
    let expected = bytes_of(alloc, record)?;
    is_written_so(alloc, &committed, expected.as_slice())
}

#[test]
fn the_records_of_the_first_state_and_after_one_set(rt: HostRuntime) -> Result<(), Fail> {
    let first = state_is_written_so(rt.alloc(), &[], &[FIRST]);
    let after_one_set = state_is_written_so(rt.alloc(), &[ONE_SET], &[HEAD, PAGES]);
    assert!(rt; first == Ok(true), "the first state");
    assert!(rt; after_one_set == Ok(true), "after one set");
    Ok(())
}

/// The record of a tentative state, which is undone then.
fn record_of(alloc: Global, tentative: Tentative) -> Result<Vec<u8>, Fault> {
    let mut bytes = Vec::new(alloc);
    let written = tentative.write(&mut bytes);
    drop(tentative.undo());
    written?;
    Ok(bytes)
}

/// The record of the member that a batch makes after these batches.
fn member_after(alloc: Global, before: &[&[u8]], batch: &[u8]) -> Result<Vec<u8>, Fault> {
    let before = after(alloc, before)?;
    record_of(alloc, run(alloc, before.as_base(), batch, false)?)
}

/// Whether the bytes are the record of a member over the base, which then writes them again.
fn is_member(alloc: Global, base: &Base, bytes: &[u8]) -> Result<bool, Fault> {
    match Tentative::restore(alloc, base, bytes) {
        Ok(tentative) => match record_of(alloc, tentative)?.as_slice() == bytes {
            true => Ok(true),
            false => Err(Fault::Unfit),
        },
        Err(Fault::BadRecord) => Ok(false),
        Err(fault) => Err(fault),
    }
}

/// Whether they are one over the state after these batches.
fn is_member_after(alloc: Global, before: &[&[u8]], bytes: &[u8]) -> Result<bool, Fault> {
    let before = after(alloc, before)?;
    is_member(alloc, before.as_base(), bytes)
}

/// The member of one `set` over the first state, with one of these texts of page 0 before the others.
const MEMBER: &[Part] = &[Part::Zeros(96), Part::Bytes(&[1]), PAGE, Part::Zeros(158)];

const BATCH_1: &[Part] = &[Part::Bytes(ONE_SET)];

const SAME: &[Part] = &[Part::Bytes(&[0])];

/// Texts of page 0: as the same, written out, with another mark, and with a byte too many.
const SPELLINGS: [(&[Part], bool); 4] = [
    (SAME, true),
    (&[Part::Bytes(&[1, 0, 0, 0, 0, 0])], false),
    (&[Part::Bytes(&[2])], false),
    (&[Part::Bytes(&[0, 0])], false),
];

#[test]
fn a_page_that_is_the_same_has_one_spelling(rt: HostRuntime) -> Result<(), Fail> {
    for (first_page, is_right) in &SPELLINGS {
        let bytes = bytes_of(rt.alloc(), &[BATCH_1, HEAD, *first_page, MEMBER])?;
        let is_read = is_member_after(rt.alloc(), &[], bytes.as_slice());
        assert!(rt; is_read == Ok(*is_right), "{}", bytes.len());
    }
    Ok(())
}

/// Whether the bytes are no record if they are cut here, and if this one of them is changed.
fn is_sealed_at(alloc: Global, base: &Base, bytes: &[u8], at: usize) -> Result<bool, Fault>
    requires { at < length bytes.now }
{
    let mut changed = Vec::from_slice(alloc, bytes)?;
    changed[at] ^= 2;
    Ok(!is_member(alloc, base, changed.as_slice())? && !is_member(alloc, base, &bytes[..at])?)
}

/// At how many places they are none.
fn sealed(alloc: Global, base: &Base, bytes: &[u8]) -> Result<usize, Fault> {
    let mut sealed = 0usize;
    for at in 0..bytes.len() {
        sealed = sealed.saturating_add(usize::from(is_sealed_at(alloc, base, bytes, at)?));
    }
    Ok(sealed)
}

/// The member of one `set` has the record that is expected, which is none if it is cut or changed.
#[test]
fn a_member_that_is_cut_or_changed_is_refused(rt: HostRuntime) -> Result<(), Fail> {
    let expected = bytes_of(rt.alloc(), &[BATCH_1, HEAD, SAME, MEMBER])?;
    let own = member_after(rt.alloc(), &[], ONE_SET)?;
    let base = Base::first(rt.alloc())?;
    let sealed = sealed(rt.alloc(), &base, own.as_slice());
    assert!(rt; own == expected, "its record");
    assert!(rt; sealed == Ok(expected.len()), "cut or changed");
    Ok(())
}

/// Over its own base, over one with another token, and over one of another number.
const BASES: [(&[&[u8]], bool); 3] = [(&[ONE_SET], true), (&[SET_OF_B], false), (&[], false)];

#[test]
fn a_member_is_refused_over_another_base(rt: HostRuntime) -> Result<(), Fail> {
    let bytes = member_after(rt.alloc(), &[ONE_SET], SET_AT_AN_EARLIER_MOMENT)?;
    for (place, (before, is_right)) in BASES.iter().enumerate() {
        let is_read = is_member_after(rt.alloc(), *before, bytes.as_slice());
        assert!(rt; is_read == Ok(*is_right), "row {place}");
    }
    Ok(())
}

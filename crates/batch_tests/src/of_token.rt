//! Digests, tokens, roots and marks of forms. Expected digests are by other programs.

use proto::Fault;
use sessions::Sessions;
use sha2::{Digest, Sha256};
use std::alloc::{AllocError, Global};
use std::test::Fail;
use token::{
    Digested, Form, HEIGHT, HashedSessions, OLD_HEIGHT, OLD_PAGES, PAGES, Token, page_digest, root,
};
use wire::{Record, Sink, read, write};

/// SHA-256 of `abc`.
const OF_ABC: [u8; 32] = [
    0xba, 0x78, 0x16, 0xbf, 0x8f, 0x01, 0xcf, 0xea, 0x41, 0x41, 0x40, 0xde, 0x5d, 0xae, 0x22, 0x23,
    0xb0, 0x03, 0x61, 0xa3, 0x96, 0x17, 0x7a, 0x9c, 0xb4, 0x10, 0xff, 0x61, 0xf2, 0x00, 0x15, 0xad,
];

/// Over the byte 02, 32 bytes 11, 5 and 3 of eight bytes, 1000 of four bytes, and 32 bytes each of 22, 33
/// and 44.
const OF_A_STATE: [u8; 32] = [
    0x1c, 0xf7, 0x0f, 0x27, 0x3a, 0x43, 0x0c, 0xd2, 0xe8, 0x9f, 0x08, 0xbc, 0xb6, 0x6c, 0x38, 0x69,
    0x6d, 0xa3, 0xc6, 0x69, 0xcb, 0x91, 0x01, 0x1f, 0xce, 0x92, 0xdd, 0x3f, 0x79, 0x84, 0x6a, 0xc1,
];

/// The root over digests of pages, each of its number in all bytes.
const ROOT: [u8; 32] = [
    0x75, 0xe4, 0xdf, 0xed, 0xbd, 0x87, 0xc1, 0x06, 0x29, 0x12, 0xd3, 0x4a, 0x9b, 0xbd, 0xdf, 0x5c,
    0xf3, 0x6c, 0x7a, 0x86, 0x5c, 0x89, 0x81, 0xa1, 0x46, 0x91, 0x02, 0x4a, 0x16, 0x7c, 0x32, 0xf3,
];

/// The same over as many pages as the old form has.
const OLD_ROOT: [u8; 32] = [
    0xfc, 0x5b, 0x56, 0x81, 0x25, 0x71, 0x40, 0x0e, 0xc3, 0x82, 0x7c, 0x10, 0x98, 0x8c, 0xa6, 0xe6,
    0x62, 0xed, 0x96, 0x9b, 0xd9, 0xd5, 0xa5, 0x3a, 0x36, 0xf6, 0x64, 0x0c, 0xac, 0x64, 0x9f, 0xce,
];

/// Over the byte 00 and four bytes 00.
const EMPTY_PAGE: [u8; 32] = [
    0x88, 0x55, 0x50, 0x8a, 0xad, 0xe1, 0x6e, 0xc5, 0x73, 0xd2, 0x1e, 0x6a, 0x48, 0x5d, 0xfd, 0x0a,
    0x76, 0x24, 0x08, 0x5c, 0x1a, 0x14, 0xb5, 0xec, 0xdd, 0x64, 0x85, 0xde, 0x0c, 0x68, 0x39, 0xa4,
];

/// Of no sessions, over the byte 03 and four bytes 00.
const NO_SESSIONS: [u8; 32] = [
    0xa6, 0x65, 0xe6, 0xb1, 0x15, 0xdd, 0x56, 0xfd, 0x3e, 0x0c, 0x89, 0xbe, 0x63, 0x1e, 0x6e, 0xda,
    0x8e, 0x96, 0x66, 0xb8, 0x22, 0xe0, 0xbd, 0x70, 0x26, 0xbf, 0x08, 0x22, 0xc4, 0xbb, 0xc6, 0x8f,
];

/// Of no sessions in a state of the form of trees: the row of `scripts/told_sessions`, over the byte 07 and
/// four bytes 00.
const TOLD: [u8; 32] = [
    0xe1, 0x6a, 0xb6, 0x0a, 0xa1, 0xee, 0xb7, 0x07, 0x4c, 0xa5, 0x90, 0xe8, 0xa9, 0x5b, 0xc4, 0xce,
    0x62, 0x64, 0xaa, 0x74, 0xf4, 0xf7, 0x93, 0x59, 0xe5, 0x80, 0xed, 0xe6, 0x0b, 0x89, 0x2b, 0xbe,
];

fn is_abc() -> bool {
    let mut hasher = Sha256::new();
    match Sink::put(&mut hasher, b"abc".as_slice()) {
        Ok(()) => hasher.finalize() == OF_ABC,
        Err(never) => match never {},
    }
}

/// Whether these bytes are the token's record.
fn is_record(alloc: Global, token: &Token, bytes: &[u8]) -> Result<bool, Fault> {
    let mut out = Vec::new(alloc);
    write(alloc, token, &mut out)?;
    Ok(out.as_slice() == bytes && read::<Token>(alloc, bytes)? == *token)
}

/// Whether this byte alone is the record of this form.
fn is_form(alloc: Global, form: Form, mark: u8) -> Result<bool, Fault> {
    let mut out = Vec::new(alloc);
    write(alloc, &form, &mut out)?;
    Ok(out.as_slice() == [mark].as_slice() && read::<Form>(alloc, &[mark])? == form)
}

/// Digests of so many pages, each of its number in all bytes.
fn numbered<const COUNT: usize>() -> [[u8; 32]; COUNT] {
    let mut pages = [[0u8; 32]; COUNT];
    for i in 0..COUNT {
        pages[i] = [(i % 256) as u8; 32];
    }
    pages
}

/// Whether a state of this form has this digest of the sessions, and a copy of it keeps this text or none.
pub fn is_digested(
    alloc: Global,
    form: Form,
    sessions: &HashedSessions,
    expected: &[u8; 32],
    text: Option<&[u8]>,
) -> Result<bool, AllocError> {
    let digested = Digested::of_sessions(alloc, form, sessions).clone()?;
    let has_text = match (digested.text(), text) {
        (Some(kept), Some(bytes)) => kept.joined(alloc)?.as_slice() == bytes,
        (None, None) => true,
        _ => false,
    };
    Ok(digested.digest() == expected && has_text)
}

/// Whether no sessions have their digests in the states of all forms.
fn are_digested(alloc: Global, sessions: &HashedSessions) -> Result<bool, AllocError> {
    let text = b"\x03\x00\x00\x00\x00".as_slice();
    Ok(
        is_digested(alloc, Form::Current, sessions, &NO_SESSIONS, Some(text))?
            && is_digested(alloc, Form::Old, sessions, &NO_SESSIONS, Some(text))?
            && is_digested(alloc, Form::Tree, sessions, &TOLD, None)?,
    )
}

fn are_digested_anew(alloc: Global) -> Result<bool, AllocError> {
    let sessions = HashedSessions::new(Sessions::new(alloc)?);
    are_digested(alloc, &sessions)
}

fn is_no_form(alloc: Global, mark: u8) -> bool {
    read::<Form>(alloc, &[mark]) == Err(Fault::BadRecord)
}

#[test]
fn digests_and_records(rt: HostRuntime) -> Result<(), Fail> {
    let (parent, items) = (Token([0x11; 32]), [0x22; 32]);
    let token = Token::new(&parent, 5, 3, 1000, &items, &[0x33; 32], &[0x44; 32]);
    assert!(rt; is_abc(), "abc");
    assert!(rt; token == Token(OF_A_STATE), "the token of a state");
    assert!(rt; is_record(rt.alloc(), &token, &OF_A_STATE)?, "its record");
    assert!(rt; root(&numbered::<PAGES>(), HEIGHT) == ROOT, "a root");
    assert!(rt;
        root(&numbered::<OLD_PAGES>(), OLD_HEIGHT) == OLD_ROOT,
        "an old root"
    );
    assert!(rt; page_digest(&[]) == EMPTY_PAGE, "an empty page");
    for (form, mark) in [(Form::Old, 1), (Form::Current, 2), (Form::Tree, 3)] {
        assert!(rt; is_form(rt.alloc(), form, mark)?, "form {mark}");
    }
    assert!(rt;
        is_no_form(rt.alloc(), 0) && is_no_form(rt.alloc(), 4),
        "marks of no form"
    );
    assert!(rt; are_digested_anew(rt.alloc())?, "no sessions");
    Ok(())
}

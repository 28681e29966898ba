//! Digests of what is kept of all clients, in which a long reply is its digest.

ghost use Rattle.std.specs.Prelude.{◌≤◌, OnOk};
ghost use Rattle.proto.specs.declared.block.TheConstants.{MOST_BLOCK_BYTES};
ghost use Rattle.token.specs.Told.{AreDigestsOf};

use crate::of_token::is_digested;
use crate::requests::ask;
use proto::{Block, Found, Key, Reply, Values};
use sessions::{LastReply, Request, Sessions};
use std::alloc::{AllocError, Global};
use std::test::Fail;
use token::{Form, HashedSessions, ReplyDigests, told_digest, told_digest_of};

// What scripts/told_sessions prints, row by row.

const NO_SESSION: [u8; 32] = [
    0xe1, 0x6a, 0xb6, 0x0a, 0xa1, 0xee, 0xb7, 0x07, 0x4c, 0xa5, 0x90, 0xe8, 0xa9, 0x5b, 0xc4, 0xce,
    0x62, 0x64, 0xaa, 0x74, 0xf4, 0xf7, 0x93, 0x59, 0xe5, 0x80, 0xed, 0xe6, 0x0b, 0x89, 0x2b, 0xbe,
];

const EACH_KIND: [u8; 32] = [
    0xf3, 0xa1, 0x02, 0xb4, 0xda, 0x07, 0x0b, 0x46, 0x5f, 0x28, 0x6c, 0x40, 0xb1, 0xf7, 0x3c, 0xb9,
    0xe7, 0x5e, 0x6b, 0xee, 0x43, 0xaa, 0x04, 0x08, 0xd1, 0x39, 0xed, 0xc7, 0x6b, 0x1c, 0x32, 0xd2,
];

const NEAR_THE_LIMIT: [u8; 32] = [
    0x4e, 0x9b, 0xea, 0x3b, 0xe8, 0x37, 0x51, 0xb7, 0x0c, 0xa7, 0xb1, 0x4a, 0x71, 0x8f, 0x7a, 0x49,
    0xe2, 0x77, 0xf8, 0xc6, 0x04, 0xab, 0xf7, 0x95, 0xa2, 0x47, 0xf7, 0x77, 0x82, 0x0b, 0x29, 0xaa,
];

const LONG_AT_9: [u8; 32] = [
    0x16, 0x1a, 0x77, 0xdd, 0x0b, 0x0c, 0x2a, 0xc2, 0x51, 0x98, 0xcd, 0xd6, 0x58, 0x9f, 0x8b, 0x6d,
    0x1c, 0x41, 0xba, 0x6e, 0x5b, 0x00, 0xd4, 0xd8, 0x85, 0xb9, 0x87, 0xbf, 0x40, 0x0d, 0xbc, 0x11,
];

const LONGER_AT_9: [u8; 32] = [
    0x14, 0x88, 0xee, 0x80, 0xde, 0x4b, 0xe0, 0x7a, 0x3a, 0xe3, 0xf9, 0x43, 0x7f, 0xcb, 0xd2, 0xf1,
    0xc1, 0xd9, 0x53, 0x39, 0x50, 0xf6, 0xad, 0x4f, 0xe3, 0xe2, 0x97, 0x29, 0xfa, 0xf9, 0x4e, 0xe9,
];

const SHORT_AT_9: [u8; 32] = [
    0x5d, 0x4b, 0x6e, 0xfb, 0xae, 0xc9, 0x87, 0xce, 0xe8, 0x2b, 0xfd, 0x49, 0xaa, 0x4a, 0x22, 0xbc,
    0x7f, 0xce, 0x3e, 0x65, 0x6a, 0x6a, 0xc8, 0x48, 0x67, 0xfb, 0x75, 0x73, 0x87, 0x03, 0x52, 0xcf,
];

/// A reply that a table can hold.
#[derive(Clone, Copy)]
enum Says {
    Stored,
    NotStored,
    Exists,
    NotFound,
    Deleted,
    Touched,
    Number(u64),
    /// What a gets found: two items of one byte.
    Two,
    /// What a get found: one item of so many bytes. 16 bytes more are the text of the reply.
    One(u16),
    TooLarge,
    NotNumber,
}

/// What a get found under the key `k`: so many bytes `x`.
fn found(alloc: Global, size: usize, unique: Option<u64>) -> Result<Found, AllocError>
    requires { size ≤ MOST_BLOCK_BYTES }
{
    Ok(Found {
        key: Key::from_slice(alloc, &[b'k'])?,
        flags: 7,
        block: Block::new(vec![in alloc; b'x'; size]?)?,
        unique,
    })
}

fn two(alloc: Global) -> Result<Values, AllocError> {
    let first = found(alloc, 1, Some(9))?;
    let second = found(alloc, 1, Some(9))?;
    Ok(Values::new(vec![in alloc; first, second]?))
}

fn one(alloc: Global, size: u16) -> Result<Values, AllocError> {
    Ok(Values::new(vec![in alloc; found(alloc, usize::from(size), None)?]?))
}

fn reply(alloc: Global, says: Says) -> Result<Reply, AllocError> {
    Ok(match says {
        Says::Stored => Reply::Stored,
        Says::NotStored => Reply::NotStored,
        Says::Exists => Reply::Exists,
        Says::NotFound => Reply::NotFound,
        Says::Deleted => Reply::Deleted,
        Says::Touched => Reply::Touched,
        Says::Number(number) => Reply::Number(number),
        Says::Two => Reply::Values(two(alloc)?),
        Says::One(size) => Reply::Values(one(alloc, size)?),
        Says::TooLarge => Reply::TooLarge,
        Says::NotNumber => Reply::NotNumber,
    })
}

/// A reply that is kept: the client, the number of its request, and the reply.
type Kept = (u16, u64, Says);

/// Keeps the reply, and first its digest.
fn keep_both(
    sessions: &mut Sessions,
    digests: &mut ReplyDigests,
    request: &Request,
    reply: Reply,
) -> Result<(), AllocError>
    requires { AreDigestsOf sessions.old digests.old }
    ensures { OnOk result (AreDigestsOf sessions.new digests.new) }
{
    let kept = LastReply {
        number: request.number,
        reply,
    };
    digests.keep(request.client, &kept)?;
    sessions.keep(request, kept.reply)
}

/// Keeps the reply and its digest, if there is one to be kept.
fn keep(
    alloc: Global,
    sessions: &mut Sessions,
    digests: &mut ReplyDigests,
    kept: Option<&Kept>,
) -> Result<(), AllocError>
    requires { AreDigestsOf sessions.old digests.old }
    ensures { OnOk result (AreDigestsOf sessions.new digests.new) }
{
    let Some((client, number, says)) = kept else {
        return Ok(());
    };
    let request = ask(alloc, *client, *number)?;
    keep_both(sessions, digests, &request, reply(alloc, *says)?)
}

/// Keeps these replies, of which there are ten at most. It is no loop, which would need an invariant in a proof
/// of its own.
fn keep_all(
    alloc: Global,
    sessions: &mut Sessions,
    digests: &mut ReplyDigests,
    kept: &[Kept],
) -> Result<(), AllocError>
    requires { AreDigestsOf sessions.old digests.old }
    ensures { OnOk result (AreDigestsOf sessions.new digests.new) }
{
    keep(alloc, sessions, digests, kept.get(0))?;
    keep(alloc, sessions, digests, kept.get(1))?;
    keep(alloc, sessions, digests, kept.get(2))?;
    keep(alloc, sessions, digests, kept.get(3))?;
    keep(alloc, sessions, digests, kept.get(4))?;
    keep(alloc, sessions, digests, kept.get(5))?;
    keep(alloc, sessions, digests, kept.get(6))?;
    keep(alloc, sessions, digests, kept.get(7))?;
    keep(alloc, sessions, digests, kept.get(8))?;
    keep(alloc, sessions, digests, kept.get(9))
}

/// Whether this is the told digest of the sessions, with their digests and without.
fn is_told(sessions: &Sessions, digests: &ReplyDigests, expected: &[u8; 32]) -> bool
    requires { AreDigestsOf sessions.now digests.now }
{
    told_digest(sessions, digests) == *expected && told_digest_of(sessions) == *expected
}

/// The same with digests that are made of the sessions, and in a state of the form of trees, with no text
/// beside it.
fn is_told_anew(
    alloc: Global,
    sessions: &Sessions,
    expected: &[u8; 32],
) -> Result<bool, AllocError> {
    let digests = ReplyDigests::of(alloc, sessions)?;
    let hashed = HashedSessions::new(sessions.clone()?);
    Ok(
        is_told(sessions, &digests, expected)
            && is_digested(alloc, Form::Tree, &hashed, expected, None)?,
    )
}

fn have_digests(digests: &ReplyDigests, clients: &[(u16, bool)]) -> bool {
    for (client, has) in clients {
        if digests.get(*client).is_some() != *has {
            return false;
        }
    }
    true
}

/// A row: what is kept before a copy is taken, and the digest of the copy, then and in the end; what is kept
/// after it, and the digest in the end; and whether clients then have the digest of a long reply.
struct Row {
    name: &'static str,
    first: &'static [Kept],
    copied: &'static [u8; 32],
    then: &'static [Kept],
    told: &'static [u8; 32],
    has: &'static [(u16, bool)],
}

const ROWS: [Row; 5] = [
    Row {
        name: "no session",
        first: &[],
        copied: &NO_SESSION,
        then: &[],
        told: &NO_SESSION,
        has: &[],
    },
    Row {
        name: "a session of each kind",
        first: &[],
        copied: &NO_SESSION,
        then: &[
            (1, 1000, Says::Stored),
            (2, 1001, Says::NotStored),
            (3, 1002, Says::Exists),
            (4, 1003, Says::NotFound),
            (5, 1004, Says::Deleted),
            (10, 1009, Says::NotNumber),
            (9, 1008, Says::TooLarge),
            (8, 1007, Says::Two),
            (7, 1006, Says::Number(u64::MAX)),
            (6, 1005, Says::Touched),
        ],
        told: &EACH_KIND,
        has: &[],
    },
    Row {
        name: "replies near the limit",
        first: &[],
        copied: &NO_SESSION,
        then: &[
            (5, 1, Says::One(49)),
            (4, 1, Says::One(48)),
            (3, 1, Says::One(47)),
        ],
        told: &NEAR_THE_LIMIT,
        has: &[(4, false), (5, true)],
    },
    Row {
        name: "a long reply in place of another",
        first: &[(5, 1, Says::One(49)), (9, 1, Says::One(5000))],
        copied: &LONG_AT_9,
        then: &[(9, 2, Says::One(5001))],
        told: &LONGER_AT_9,
        has: &[],
    },
    Row {
        name: "a short reply in place of a long one",
        first: &[(5, 1, Says::One(49)), (9, 1, Says::One(5000))],
        copied: &LONG_AT_9,
        then: &[(9, 3, Says::Stored)],
        told: &SHORT_AT_9,
        has: &[(9, false)],
    },
];

/// Whether the row holds of these sessions, which are none as yet, and their digests.
fn holds(
    alloc: Global,
    sessions: &mut Sessions,
    digests: &mut ReplyDigests,
    row: &Row,
) -> Result<bool, AllocError>
    requires { AreDigestsOf sessions.old digests.old }
{
    keep_all(alloc, sessions, digests, row.first)?;
    let copied = is_told(sessions, digests, row.copied);
    let copy = sessions.clone()?;
    let copied_digests = digests.clone()?;
    keep_all(alloc, sessions, digests, row.then)?;
    Ok(
        copied
            && is_told(&copy, &copied_digests, row.copied)
            && is_told(sessions, digests, row.told)
            && have_digests(digests, row.has),
    )
}

/// The same of new sessions; and whether their digest in the end is made anew.
fn holds_anew(alloc: Global, row: &Row) -> Result<bool, AllocError> {
    let mut sessions = Sessions::new(alloc)?;
    let mut digests = ReplyDigests::of(alloc, &sessions)?;
    Ok(holds(alloc, &mut sessions, &mut digests, row)? && is_told_anew(alloc, &sessions, row.told)?)
}

fn keep_hashed(alloc: Global, sessions: &mut HashedSessions, kept: Kept) -> Result<(), AllocError> {
    let (client, number, says) = kept;
    let request = ask(alloc, client, number)?;
    sessions.keep(&request, reply(alloc, says)?)
}

/// Keeps the reply, and tells whether the digest is then this, with the digests that are kept and from
/// scratch.
fn is_hashed(
    alloc: Global,
    sessions: &mut HashedSessions,
    kept: Kept,
    expected: &[u8; 32],
) -> Result<bool, AllocError> {
    keep_hashed(alloc, sessions, kept)?;
    Ok(sessions.told_digest() == *expected && told_digest_of(sessions.sessions()) == *expected)
}

/// Whether sessions keep the digests of their replies: of client 5, and then of client 9 as well.
fn are_hashed(alloc: Global, sessions: &mut HashedSessions) -> Result<bool, AllocError> {
    sessions.prepare(alloc, Form::Tree);
    keep_hashed(alloc, sessions, (5, 1, Says::One(49)))?;
    let long = is_hashed(alloc, sessions, (9, 1, Says::One(5000)), &LONG_AT_9)?
        && is_hashed(alloc, sessions, (9, 2, Says::One(5001)), &LONGER_AT_9)?;
    sessions.prepare(alloc, Form::Current);
    sessions.prepare(alloc, Form::Tree);
    Ok(long && is_hashed(alloc, sessions, (9, 3, Says::Stored), &SHORT_AT_9)?)
}

fn are_hashed_anew(alloc: Global) -> Result<bool, AllocError> {
    let mut sessions = HashedSessions::new(Sessions::new(alloc)?);
    are_hashed(alloc, &mut sessions)
}

#[test]
fn rows_of_sessions(rt: HostRuntime) -> Result<(), Fail> {
    for row in &ROWS {
        assert!(rt; holds_anew(rt.alloc(), row)?, "{}", row.name);
    }
    assert!(rt; are_hashed_anew(rt.alloc())?, "sessions keep the digests");
    Ok(())
}

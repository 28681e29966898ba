//! Records of version 1 of members and of chains, their bytes by hand: read, cut and changed, and at the
//! limit of what they may hold.

ghost use Rattle.std.specs.Prelude.{◌<◌, length};

use super::chain::taken_chain;
use super::old_bytes::{AFTER_1, CHAIN, OLD_CHAIN, OLD_MEMBER, OLD_PAGES, Part, TOKEN, bytes_of};
use super::*;
use states::Version;
use std::test::Fail;

/// The token of the member of this version at the front of the bytes, and how many bytes are behind
/// it; nothing if there is no such member.
fn taken(
    alloc: Global,
    version: Version,
    base: &Base,
    bytes: &[u8],
) -> Result<Option<(Token, usize)>, Fault> {
    match Tentative::take(alloc, version, base, bytes) {
        Ok((tentative, rest)) => Ok(Some((undone(tentative), rest.len()))),
        Err(Fault::BadRecord) => Ok(None),
        Err(fault) => Err(fault),
    }
}

/// The head of batch 1 at moment 1000, of one request: client 1's first one.
const ASKS: Part = Part::Bytes(&[
    4, 0, 0, 0, 0, 0, 0, 0, 1, 0, 0, 0, 0, 0, 0, 0, 1, 0, 0, 3, 232, 0, 0, 0, 1, 0, 1, 0, 0, 0, 0,
    0, 0, 0, 1,
]);

const MOMENT: Part = Part::Bytes(&[0, 0, 3, 232]);

/// The digest of a batch 1 of one `gat 10 a`, and the token of the old state after it.
const GAT_BATCH: [u8; 32] = [
    0x73, 0x61, 0xe8, 0xbc, 0xe8, 0xfb, 0x21, 0x3e, 0x1a, 0x31, 0x44, 0xdc, 0xad, 0x08, 0x62, 0xb9,
    0x7c, 0x3f, 0xaa, 0xc1, 0x75, 0xaa, 0xbd, 0x7e, 0xa0, 0x35, 0x83, 0x14, 0x8c, 0x0e, 0xd1, 0x5a,
];

const GAT_TOKEN: [u8; 32] = [
    0x4b, 0x3b, 0x2e, 0x42, 0x9f, 0x47, 0xdc, 0x6d, 0xfb, 0xaf, 0x98, 0x80, 0x25, 0xb1, 0x83, 0xa9,
    0x54, 0x83, 0x1b, 0xfd, 0x45, 0x1f, 0x3e, 0x8a, 0xe2, 0x3c, 0x10, 0x39, 0x8d, 0x6f, 0xb6, 0x8d,
];

/// A member whose batch touches and gets `a`, of which there is none.
const GAT: &[Part] = &[
    ASKS,
    Part::Bytes(&[12, 0, 0, 0, 10, 0, 0, 0, 1, 1, b'a']),
    Part::Bytes(&[0, 0, 0, 0, 0, 0, 0, 1]),
    Part::Zeros(32),
    Part::Bytes(&[0, 0, 0, 0, 0, 0, 0, 1]),
    Part::Bytes(&GAT_BATCH),
    MOMENT,
    Part::Bytes(&GAT_TOKEN),
    Part::Bytes(&[3, 0, 0, 0, 1, 0, 1, 0, 0, 0, 0, 0, 0, 0, 1, 7, 0, 0, 0, 0]),
    Part::Zeros(64),
];

/// A request that replaces `a` by 65,536 bytes, or by one more. There is no `a`, so the client is answered
/// NOT_STORED, and no page differs.
const AT_LIMIT: &[Part] = &[
    ASKS,
    Part::Bytes(&[4, 1, b'a', 0, 0, 0, 0, 0, 0, 0, 0, 0, 1, 0, 0]),
    Part::Xs(65_536),
];

const LONGER: &[Part] = &[
    ASKS,
    Part::Bytes(&[4, 1, b'a', 0, 0, 0, 0, 0, 0, 0, 0, 0, 1, 0, 1]),
    Part::Xs(65_537),
];

/// The digest of the batch with 65,536 bytes, and the token of the old state after it.
const AT_LIMIT_BATCH: [u8; 32] = [
    0xb2, 0x41, 0xc3, 0xf5, 0xce, 0x40, 0xe3, 0xd5, 0x2f, 0x0e, 0xf4, 0x31, 0xe2, 0xbc, 0x43, 0xc1,
    0x2d, 0x1d, 0x04, 0x36, 0x59, 0xfc, 0x9d, 0xfd, 0x34, 0xff, 0x9d, 0x4d, 0x01, 0xe5, 0x78, 0xe7,
];

const AT_LIMIT_TOKEN: [u8; 32] = [
    0xd2, 0x46, 0xf2, 0x4a, 0xd9, 0x53, 0x1b, 0x9e, 0x0c, 0xdf, 0x71, 0xee, 0x24, 0xaa, 0x13, 0xdf,
    0xc7, 0xb4, 0xf1, 0xa1, 0xd2, 0x74, 0xa4, 0x04, 0xed, 0x90, 0x24, 0xb1, 0x41, 0x89, 0x3f, 0x55,
];

/// Those with one byte more.
const LONGER_BATCH: [u8; 32] = [
    0x83, 0x56, 0x4a, 0x86, 0x0b, 0x01, 0xa7, 0x8f, 0x30, 0x52, 0x17, 0x93, 0xfb, 0xba, 0xae, 0x5c,
    0xc0, 0xd8, 0x81, 0x67, 0x56, 0x7f, 0x6c, 0xbd, 0x70, 0x82, 0x8c, 0x95, 0xea, 0xa2, 0xe4, 0xe6,
];

const LONGER_TOKEN: [u8; 32] = [
    0xb5, 0x71, 0x33, 0x97, 0x20, 0x7f, 0xcc, 0xa1, 0xa8, 0xa4, 0x38, 0x73, 0xa7, 0x2b, 0xa5, 0xfa,
    0xeb, 0xaa, 0x23, 0x2b, 0xdf, 0x29, 0x19, 0xdb, 0xf3, 0x07, 0x93, 0xf4, 0xcf, 0x72, 0x4f, 0x4f,
];

/// The token that the state with one byte more has today.
const TOKEN_TODAY: [u8; 32] = [
    0xfa, 0x6d, 0xfe, 0xe5, 0xa9, 0xd7, 0x72, 0x83, 0x53, 0x32, 0x8e, 0x28, 0xdc, 0x9d, 0x2a, 0x84,
    0x51, 0x3c, 0x04, 0xf0, 0xee, 0x7e, 0xaf, 0x76, 0x69, 0x3f, 0x54, 0x5f, 0xcf, 0x12, 0x7e, 0xc8,
];

const NOT_STORED: Part = Part::Bytes(&[3, 0, 0, 0, 1, 0, 1, 0, 0, 0, 0, 0, 0, 0, 1, 1]);

/// The states after such a batch: of version 1, and of version 2 and the form of today.
const AFTER_AT_LIMIT: &[Part] = &[
    Part::Bytes(&[0, 0, 0, 0, 0, 0, 0, 1]),
    Part::Zeros(32),
    Part::Bytes(&[0, 0, 0, 0, 0, 0, 0, 1]),
    Part::Bytes(&AT_LIMIT_BATCH),
    MOMENT,
    Part::Bytes(&AT_LIMIT_TOKEN),
    NOT_STORED,
    Part::Zeros(64),
];

const AFTER_LONGER: &[Part] = &[
    Part::Bytes(&[0, 0, 0, 0, 0, 0, 0, 1]),
    Part::Zeros(32),
    Part::Bytes(&[0, 0, 0, 0, 0, 0, 0, 1]),
    Part::Bytes(&LONGER_BATCH),
    MOMENT,
    Part::Bytes(&LONGER_TOKEN),
    NOT_STORED,
    Part::Zeros(64),
];

const AFTER_LONGER_TODAY: &[Part] = &[
    Part::Bytes(&[2, 0, 0, 0, 0, 0, 0, 0, 1]),
    Part::Zeros(32),
    Part::Bytes(&[0, 0, 0, 0, 0, 0, 0, 1]),
    Part::Bytes(&LONGER_BATCH),
    MOMENT,
    Part::Bytes(&TOKEN_TODAY),
    NOT_STORED,
    Part::Zeros(256),
];

const REST: &[Part] = &[Part::Bytes(b"rest")];

/// Bytes, and with which token a member over the first state is read from them, and how many bytes stand
/// behind it.
struct Row {
    name: &'static str,
    version: Version,
    record: &'static [&'static [Part]],
    taken: Option<(Token, usize)>,
}

const ROWS: [Row; 6] = [
    Row {
        name: "an_old_member_keeps_its_token",
        version: Version::First,
        record: &[OLD_MEMBER, AFTER_1, OLD_PAGES],
        taken: Some((Token(TOKEN), 0)),
    },
    Row {
        name: "an_old_member_keeps_its_token before a rest",
        version: Version::First,
        record: &[OLD_MEMBER, AFTER_1, OLD_PAGES, REST],
        taken: Some((Token(TOKEN), 4)),
    },
    Row {
        name: "a_batch_in_an_old_member_may_touch_and_get",
        version: Version::First,
        record: &[GAT],
        taken: Some((Token(GAT_TOKEN), 0)),
    },
    Row {
        name: "a_batch_in_an_old_member_has_blocks_of_65536_bytes_at_most: 65,536",
        version: Version::First,
        record: &[AT_LIMIT, AFTER_AT_LIMIT],
        taken: Some((Token(AT_LIMIT_TOKEN), 0)),
    },
    Row {
        name: "a_batch_in_an_old_member_has_blocks_of_65536_bytes_at_most: 65,537",
        version: Version::First,
        record: &[LONGER, AFTER_LONGER],
        taken: None,
    },
    Row {
        name: "a_batch_in_an_old_member_has_blocks_of_65536_bytes_at_most: 65,537 today",
        version: Version::Second,
        record: &[LONGER, AFTER_LONGER_TODAY],
        taken: Some((Token(TOKEN_TODAY), 0)),
    },
];

/// What is taken of the row's bytes over the first state.
fn taken_of(alloc: Global, row: &Row) -> Result<Option<(Token, usize)>, Fault> {
    let base = Base::first(alloc)?;
    let bytes = bytes_of(alloc, row.record)?;
    taken(alloc, row.version, &base, bytes.as_slice())
}

#[test]
fn members_are_read_so(rt: HostRuntime) -> Result<(), Fail> {
    for row in &ROWS {
        assert!(rt; taken_of(rt.alloc(), row) == Ok(row.taken), "{}", row.name);
    }
    Ok(())
}

/// Whether there is no old member if the bytes are cut here, and if this one of them is changed.
fn is_sealed_at(alloc: Global, base: &Base, bytes: &[u8], at: usize) -> Result<bool, Fault>
    requires { at < length bytes.now }
{
    let mut changed = Vec::from_slice(alloc, bytes)?;
    changed[at] ^= 2;
    let other = taken(alloc, Version::First, base, changed.as_slice())?;
    let front = taken(alloc, Version::First, base, &bytes[..at])?;
    Ok(other.is_none() && front.is_none())
}

/// At how many places there is none.
fn sealed(alloc: Global, base: &Base, bytes: &[u8]) -> Result<usize, Fault> {
    let mut sealed = 0usize;
    for at in 0..bytes.len() {
        sealed = sealed.saturating_add(usize::from(is_sealed_at(alloc, base, bytes, at)?));
    }
    Ok(sealed)
}

#[test]
fn an_old_member_that_is_cut_or_changed_is_refused(rt: HostRuntime) -> Result<(), Fail> {
    let base = Base::first(rt.alloc())?;
    let bytes = bytes_of(rt.alloc(), &[OLD_MEMBER, AFTER_1, OLD_PAGES])?;
    let sealed = sealed(rt.alloc(), &base, bytes.as_slice());
    assert!(rt; bytes.len() == 272, "its record");
    assert!(rt; sealed == Ok(272), "cut or changed");
    Ok(())
}

/// Whether the chain of this version has this record today, and nothing is left of its own.
fn is_renewed(alloc: Global, version: Version, bytes: &[u8], now: &[u8]) -> Result<bool, Fault> {
    match taken_chain(alloc, version, bytes)? {
        Some((record, left)) => Ok(left == 0 && record.as_slice() == now),
        None => Ok(false),
    }
}

/// Both old members have an item on page 33. Of today's pages only one is another in the second.
#[test]
fn a_chain_of_old_members_becomes_one_of_today(rt: HostRuntime) -> Result<(), Fail> {
    let old = bytes_of(rt.alloc(), &OLD_CHAIN)?;
    let now = bytes_of(rt.alloc(), &CHAIN)?;
    let of_old = is_renewed(rt.alloc(), Version::First, old.as_slice(), now.as_slice());
    let of_now = is_renewed(rt.alloc(), Version::Second, now.as_slice(), now.as_slice());
    assert!(rt; (old.len(), now.len()) == (1017, 2344), "their lengths");
    assert!(rt; of_old == Ok(true), "of old members");
    assert!(rt; of_now == Ok(true), "of today's");
    Ok(())
}

//! A chain of version 1 whose state has 2,000 items, and the batch after it. Tokens are those that
//! `scripts/state_tokens` prints.

use super::forms::{Asked, MOMENT, Row, add_key, next_of};
use super::old_bytes::{Part, add_parts};
use proto::Fault;
use rollback::Chain;
use states::Version;
use std::alloc::{AllocError, Global};
use std::test::Fail;
use token::Form;

const ITEMS: u32 = 2000;

/// Its token, with a root over 64 pages.
const OLD_TOKEN: [u8; 32] = [
    0xbc, 0x13, 0x4c, 0xfb, 0xa6, 0xdc, 0xc9, 0x24, 0xff, 0x78, 0x2c, 0x9c, 0x6c, 0xb0, 0xf6, 0xc0,
    0xb9, 0x82, 0x1c, 0xb6, 0x39, 0x57, 0x1b, 0xec, 0xa5, 0x7c, 0x57, 0x1f, 0xd3, 0x8e, 0x75, 0x6b,
];

/// The page of 64 of the key of this number: the sum of `k` and its digits.
fn old_page_of(number: u32) -> u32 {
    let digits = (number / 1000) + (number / 100 % 10) + (number / 10 % 10) + number % 10;
    (107 + 4 * 48 + digits) % 64
}

fn count_on(page: u32) -> u32 {
    let mut count = 0u32;
    for number in 0..ITEMS {
        if old_page_of(number) == page {
            count = count.wrapping_add(1);
        }
    }
    count
}

fn add_page(bytes: &mut Vec<u8>, page: u32) -> Result<(), AllocError> {
    bytes.push(0)?;
    bytes.extend_from_slice(&count_on(page).to_be_bytes())?;
    for number in 0..ITEMS {
        if old_page_of(number) == page {
            add_key(bytes, number)?;
            bytes.extend_from_slice(&[0, 0, 0, 0, 0, 0, 0, 0, 0, 0, 0, 0, 64, 0, 0, 0, 1, b'5'])?;
        }
    }
    Ok(())
}

/// The head of the state of number 1, and that there are no sessions.
const FRONT: &[Part] = &[
    Part::Bytes(&[0, 0, 0, 0, 0, 0, 0, 1]),
    Part::Zeros(32),
    Part::Bytes(&[0, 0, 0, 0, 0, 0, 0, 1]),
    Part::Bytes(&[9; 32]),
    Part::Bytes(&[0, 0, 3, 232]),
    Part::Bytes(&OLD_TOKEN),
    Part::Bytes(&[3, 0, 0, 0, 0]),
];

/// The chain of that state, without members.
fn add_chain(bytes: &mut Vec<u8>) -> Result<(), AllocError> {
    add_parts(bytes, FRONT)?;
    for page in 0..64u32 {
        add_page(bytes, page)?;
    }
    bytes.push(0)?;
    Ok(())
}

/// The state after one more `set`.
const AFTER: Row = Row {
    moment: MOMENT,
    asked: Asked::Set(ITEMS, 0),
    form: Form::Tree,
    items: 2001,
    token: [
        0xde, 0xf4, 0xa1, 0xaa, 0x13, 0x97, 0xb0, 0x30, 0x02, 0xce, 0x5e, 0x37, 0xed, 0x8e, 0x20,
        0xae, 0x11, 0x20, 0x6c, 0x2b, 0x02, 0x22, 0x88, 0xdc, 0xba, 0xc5, 0xcc, 0x16, 0x7f, 0xec,
        0xd5, 0xe4,
    ],
};

/// The form of the chain's state, how many bytes are behind its record, and whether the batch after it
/// makes what it should.
fn migrated(alloc: Global, bytes: &[u8]) -> Result<(Form, usize, bool), Fault> {
    let (chain, rest) = Chain::take(alloc, Version::First, bytes)?;
    let form = chain.committed().form();
    let next = next_of(alloc, chain.tip(), 1, &AFTER);
    drop(chain.end());
    Ok((form, rest.len(), next?.is_some()))
}

#[test]
fn an_old_state_of_2000_items_is_followed_by_one_of_form_3(rt: HostRuntime) -> Result<(), Fail> {
    let mut bytes = Vec::new(rt.alloc());
    add_chain(&mut bytes)?;
    assert!(rt; migrated(rt.alloc(), bytes.as_slice()) == Ok((Form::Old, 0, true)));
    Ok(())
}

//! States of both forms of today: from 1,024 items to 1,025 and back. Tokens are those that `scripts/state_tokens` prints.

use super::{Base, Committed, committed};
use pages::PAGES;
use proto::Fault;
use states::State;
use std::alloc::{AllocError, Global};
use std::test::Fail;
use token::{Form, Token};

pub const MOMENT: u32 = 1000;

/// How many batches of 64 sets make 1,024 items.
const FULL: u32 = 16;

/// What a client asks.
#[derive(Clone, Copy)]
pub enum Asked {
    /// To set the key of this number, which is due after so many seconds: 0 for never. The clients after
    /// it set the keys after it.
    Set(u32, u8),
    Delete(u32),
    /// To get so many keys, from number 1 on.
    Get(u32),
}

/// `k` and four digits.
pub fn add_key(bytes: &mut Vec<u8>, number: u32) -> Result<(), AllocError> {
    bytes.extend_from_slice(&[
        5,
        b'k',
        b'0' + (number / 1000 % 10) as u8,
        b'0' + (number / 100 % 10) as u8,
        b'0' + (number / 10 % 10) as u8,
        b'0' + (number % 10) as u8,
    ])
}

fn add_keys(bytes: &mut Vec<u8>, count: u32) -> Result<(), AllocError> {
    for number in 0..count {
        add_key(bytes, number.saturating_add(1))?;
    }
    Ok(())
}

/// What the client at this place asks.
fn add_asked(bytes: &mut Vec<u8>, place: u8, asked: &Asked) -> Result<(), AllocError> {
    match asked {
        Asked::Set(first, exptime) => {
            bytes.push(2)?;
            add_key(bytes, first.wrapping_add(u32::from(place)))?;
            bytes.extend_from_slice(&[0, 0, 0, 0, 0, 0, 0, *exptime, 0, 0, 0, 1, b'5'])
        }
        Asked::Delete(number) => {
            bytes.push(8)?;
            add_key(bytes, *number)
        }
        Asked::Get(count) => {
            bytes.push(0)?;
            bytes.extend_from_slice(&count.to_be_bytes())?;
            add_keys(bytes, *count)
        }
    }
}

/// The head of a batch of epoch 1, with so many requests.
fn add_head(bytes: &mut Vec<u8>, n: u64, moment: u32, count: u8) -> Result<(), AllocError> {
    bytes.extend_from_slice(&[4, 0, 0, 0, 0, 0, 0, 0, 1])?;
    bytes.extend_from_slice(&n.to_be_bytes())?;
    bytes.extend_from_slice(&moment.to_be_bytes())?;
    bytes.extend_from_slice(&[0, 0, 0, count])
}

/// The requests of this number of the clients from 1 to 64 at most.
fn add_requests(
    bytes: &mut Vec<u8>,
    number: u64,
    asked: &Asked,
    count: u8,
) -> Result<(), AllocError> {
    for place in 0..count.min(64) {
        bytes.extend_from_slice(&[0, place + 1])?;
        bytes.extend_from_slice(&number.to_be_bytes())?;
        add_asked(bytes, place, asked)?;
    }
    Ok(())
}

/// What a batch makes of the base: the requests of this number of the first clients.
fn after_batch(
    alloc: Global,
    base: &Base,
    number: u64,
    moment: u32,
    asked: &Asked,
    count: u8,
) -> Result<Committed, Fault> {
    let mut bytes = Vec::new(alloc);
    add_head(&mut bytes, base.number().wrapping_add(1), moment, count)?;
    add_requests(&mut bytes, number, asked, count)?;
    committed(alloc, base, bytes.as_slice())
}

/// Executes batches over the first state, in each of which 64 clients set 64 keys: they make 1,024 items.
fn fill(alloc: Global, last: &mut Committed) -> Result<(), Fault> {
    for n in 1..=FULL {
        let asked = Asked::Set(64u32.wrapping_mul(n).wrapping_sub(64), 0);
        *last = after_batch(alloc, last.as_base(), u64::from(n), MOMENT, &asked, 64)?;
    }
    Ok(())
}

fn filled(alloc: Global) -> Result<Committed, Fault> {
    let mut last = Committed::first(alloc)?;
    fill(alloc, &mut last)?;
    Ok(last)
}

fn count_items(state: &State) -> u64 {
    let mut count = 0u64;
    for number in 0..PAGES {
        count = count.saturating_add(state.pages().len(number));
    }
    count
}

/// What one request of client 1 makes of the state before.
pub struct Row {
    pub moment: u32,
    pub asked: Asked,
    pub form: Form,
    pub items: u64,
    pub token: [u8; 32],
}

/// The state that the row's request of this number makes of the base; nothing if it is not that of the
/// row.
pub fn next_of(
    alloc: Global,
    base: &Base,
    number: u64,
    row: &Row,
) -> Result<Option<Committed>, Fault> {
    let next = after_batch(alloc, base, number, row.moment, &row.asked, 1)?;
    let state = next.state();
    if (state.form(), count_items(state), state.token())
        != (row.form, row.items, Token(row.token))
    {
        return Ok(None);
    }
    Ok(Some(next))
}

/// A state of more than 1,024 items is followed by one of form 3, whatever the batch makes of them. What
/// is due when the batch begins does not count.
const ROWS: [Row; 6] = [
    Row {
        moment: MOMENT,
        asked: Asked::Set(1024, 0),
        form: Form::Current,
        items: 1025,
        token: [
            0x04, 0x9f, 0x91, 0xb5, 0x66, 0x59, 0x21, 0xf2, 0x9b, 0x77, 0x68, 0x58, 0x7c, 0x10,
            0xb5, 0xd3, 0xff, 0x70, 0x19, 0xc3, 0xd6, 0xbc, 0xd0, 0x81, 0x44, 0xe9, 0x14, 0x35,
            0x97, 0x2a, 0x88, 0xbd,
        ],
    },
    Row {
        moment: MOMENT,
        asked: Asked::Delete(0),
        form: Form::Tree,
        items: 1024,
        token: [
            0x11, 0x8e, 0x11, 0xd6, 0x2e, 0xaf, 0xcf, 0x95, 0x91, 0xb7, 0xd5, 0x10, 0xbe, 0xd3,
            0xe7, 0xc1, 0x0e, 0xf8, 0xb1, 0xc7, 0x31, 0x48, 0xcd, 0x4f, 0xcf, 0x64, 0xef, 0x54,
            0x67, 0xda, 0x02, 0x17,
        ],
    },
    Row {
        moment: MOMENT,
        asked: Asked::Set(1025, 10),
        form: Form::Current,
        items: 1025,
        token: [
            0xe8, 0x99, 0x35, 0x3a, 0x67, 0x4f, 0xa7, 0x50, 0xec, 0xc4, 0x9c, 0xdb, 0xc3, 0x8f,
            0x38, 0xce, 0x54, 0xd2, 0xe0, 0xa5, 0xde, 0xdf, 0x61, 0x05, 0xd7, 0x0c, 0xb5, 0x32,
            0xc3, 0x6d, 0xc4, 0x3b,
        ],
    },
    Row {
        moment: MOMENT + 10,
        asked: Asked::Get(1),
        form: Form::Current,
        items: 1024,
        token: [
            0xf7, 0xb7, 0xc7, 0x95, 0xf5, 0xe2, 0x93, 0x09, 0xcf, 0x5a, 0x3b, 0xe8, 0x11, 0x6b,
            0xd1, 0x81, 0x33, 0x0d, 0x09, 0xea, 0x01, 0xae, 0x47, 0xd2, 0xf2, 0xc7, 0x9a, 0x93,
            0xaa, 0x6a, 0xf3, 0x05,
        ],
    },
    Row {
        moment: MOMENT + 10,
        asked: Asked::Set(1026, 0),
        form: Form::Current,
        items: 1025,
        token: [
            0x2a, 0x2d, 0xaf, 0xcc, 0xc7, 0xb9, 0x76, 0x57, 0x19, 0xea, 0x32, 0xbe, 0xd0, 0x20,
            0x28, 0x3d, 0x82, 0x6e, 0xb5, 0xb8, 0xa9, 0x00, 0x00, 0x72, 0x70, 0x64, 0x54, 0x07,
            0x5e, 0x50, 0x7e, 0xbd,
        ],
    },
    Row {
        moment: MOMENT + 10,
        asked: Asked::Get(4),
        form: Form::Tree,
        items: 1025,
        token: [
            0x5c, 0x8e, 0xce, 0x1f, 0xbb, 0xc5, 0x63, 0x68, 0xb8, 0xc5, 0x18, 0x9f, 0x15, 0x04,
            0xc8, 0x1b, 0x42, 0x91, 0x55, 0x4e, 0xea, 0xa5, 0x74, 0xcc, 0x90, 0x78, 0x02, 0x7b,
            0x11, 0x02, 0xbf, 0xa1,
        ],
    },
];

/// The token after 16 batches.
const FILLED: [u8; 32] = [
    0x11, 0x30, 0x06, 0x93, 0xb0, 0xfe, 0xe3, 0x98, 0x56, 0x9e, 0x62, 0x2c, 0x2b, 0xa5, 0xfd, 0x74,
    0x35, 0xe7, 0x26, 0xf1, 0x27, 0x08, 0x54, 0xec, 0x32, 0x46, 0x8a, 0xd2, 0x0d, 0xa1, 0xaa, 0xe4,
];

/// Whether the row holds of the request of this number. The state is then the one after it.
fn holds(alloc: Global, last: &mut Committed, number: u64, row: &Row) -> Result<bool, Fault> {
    match next_of(alloc, last.as_base(), number, row)? {
        None => Ok(false),
        Some(next) => {
            *last = next;
            Ok(true)
        }
    }
}

/// How many of the rows hold, one after the other.
fn holding(alloc: Global, last: &mut Committed) -> Result<u64, Fault> {
    let mut place = 0u64;
    for row in &ROWS {
        let number = u64::from(FULL).saturating_add(place).saturating_add(1);
        if !holds(alloc, last, number, row)? {
            return Ok(place);
        }
        place = place.saturating_add(1);
    }
    Ok(place)
}

#[test]
fn the_form_is_that_of_the_items_when_the_batch_begins(rt: HostRuntime) -> Result<(), Fail> {
    let mut state = filled(rt.alloc())?;
    let token = state.state().token();
    let holding = holding(rt.alloc(), &mut state);
    assert!(rt; token == Token(FILLED), "of the filled state");
    assert_eq!(rt; holding, Ok(6));
    Ok(())
}

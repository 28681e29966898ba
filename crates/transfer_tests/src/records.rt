//! Records of needs and parcels, their bytes by hand.

use crate::rows::*;
use pages::{Layout, PAGES};
use proto::Fault;
use states::State;
use std::alloc::{AllocError, Global};
use std::test::Fail;
use transfer::{Need, Parcel};
use wire::{read, write};

/// The bytes of the need of the state: its number, the count of its pages, and their digests.
fn add_need(bytes: &mut Vec<u8>, own: &State) -> Result<(), AllocError> {
    bytes.extend_from_slice(&own.number().to_be_bytes())?;
    bytes.extend_from_slice(&(PAGES as u32).to_be_bytes())?;
    for number in 0..PAGES {
        bytes.extend_from_slice(&own.pages().digest(number))?;
    }
    Ok(())
}

fn need_bytes(alloc: Global, need: &Need) -> Result<Vec<u8>, AllocError> {
    need.is_need();
    let mut bytes = Vec::new(alloc);
    write(alloc, need, &mut bytes)?;
    Ok(bytes)
}

fn has_bytes(alloc: Global, need: &Need, expected: &[u8]) -> Result<bool, Fault> {
    Ok(is_again(alloc, need, expected)? && is_need(alloc, expected)?)
}

fn is_need_written_so(alloc: Global, own: &State, expected: &[u8]) -> Result<bool, Fault> {
    let need = Need::of_state(alloc, own)?;
    has_bytes(alloc, &need, expected)
}

/// Whether the need of a state has its bytes, and what is read of them has them too.
fn is_own_need_written_so(alloc: Global, own: &State) -> Result<bool, Fault> {
    let mut expected = Vec::new(alloc);
    add_need(&mut expected, own)?;
    is_need_written_so(alloc, own, expected.as_slice())
}

fn is_second_need_written_so(alloc: Global) -> Result<bool, Fault> {
    let own = second(alloc, &[(b'a', b'1')])?;
    is_own_need_written_so(alloc, &own)
}

#[test]
fn the_record_of_a_need(rt: HostRuntime) -> Result<(), Fail> {
    assert!(rt; is_second_need_written_so(rt.alloc())?);
    Ok(())
}

fn is_again(alloc: Global, need: &Need, expected: &[u8]) -> Result<bool, Fault> {
    let bytes = need_bytes(alloc, need)?;
    Ok(bytes.as_slice() == expected)
}

/// Whether the bytes are a need's record, which is then written again.
fn is_need(alloc: Global, bytes: &[u8]) -> Result<bool, Fault> {
    match read::<Need>(alloc, bytes) {
        Ok(need) => is_again(alloc, &need, bytes),
        Err(Fault::BadRecord) => Ok(false),
        Err(fault) => Err(fault),
    }
}

/// The fields and sessions of the state of number 3 and this form.
fn add_fields(bytes: &mut Vec<u8>, form: u8) -> Result<(), AllocError> {
    bytes.extend_from_slice(&[form, 0, 0, 0, 0, 0, 0, 0, 3])?;
    bytes.extend_from_slice(&[7; 32])?;
    bytes.extend_from_slice(&[0, 0, 0, 0, 0, 0, 0, 4])?;
    bytes.extend_from_slice(&[9; 32])?;
    bytes.extend_from_slice(&[0, 0, 3, 232])?;
    bytes.extend_from_slice(ONE_SESSION)
}

/// Page 33, with `!`, whose data is `2`.
const PAGE: &[u8] = &[
    33, 0, 0, 0, 0, 1, 1, b'!', 0, 0, 0, 0, 0, 0, 0, 0, 0, 0, 0, 0, 64, 0, 0, 0, 1, b'2',
];

/// Page 34, without items.
const EMPTY: &[u8] = &[34, 0, 0, 0, 0, 0];

/// The same two as pages of trees.
const TREE_PAGE: &[u8] = &[
    33, 6, 0, 0, 0, 1, 1, b'!', 0, 0, 0, 0, 0, 0, 0, 0, 0, 0, 0, 0, 64, 0, 0, 0, 1, b'2',
];

const TREE_EMPTY: &[u8] = &[34, 6, 0, 0, 0, 0];

/// The record of a parcel of that state with both pages.
fn add_parcel(bytes: &mut Vec<u8>, layout: Layout) -> Result<(), AllocError> {
    let (form, page, empty) = match layout {
        Layout::Sorted => (2, PAGE, EMPTY),
        Layout::Tree => (3, TREE_PAGE, TREE_EMPTY),
    };
    add_fields(bytes, form)?;
    bytes.extend_from_slice(&[0, 0, 0, 2])?;
    bytes.extend_from_slice(page)?;
    bytes.extend_from_slice(empty)
}

fn parcel_bytes(alloc: Global, parcel: &Parcel) -> Result<Vec<u8>, AllocError> {
    parcel.is_parcel();
    let mut bytes = Vec::new(alloc);
    write(alloc, parcel, &mut bytes)?;
    Ok(bytes)
}

fn parcel_has_bytes(alloc: Global, parcel: &Parcel, expected: &[u8]) -> Result<bool, Fault> {
    let bytes = parcel_bytes(alloc, parcel)?;
    Ok(bytes.as_slice() == expected)
}

/// Whether the answer has these bytes.
fn is_answer(alloc: Global, own: &State, more: &State, expected: &[u8]) -> Result<bool, Fault> {
    let answer = answered(alloc, own, more)?;
    parcel_has_bytes(alloc, &answer, expected)
}

/// Whether the answer has these bytes, and what is read of them is taken.
fn is_answer_taken(
    alloc: Global,
    own: &State,
    more: &State,
    expected: &[u8],
) -> Result<bool, Fault> {
    Ok(
        is_answer(alloc, own, more, expected)?
            && is_taken(alloc, own, read::<Parcel>(alloc, expected)?, more)?,
    )
}

/// Page 33 has another item, and page 34 none any more: both come along, in the layout of the state that
/// answers.
fn is_written_so(alloc: Global, layout: Layout, own: &State, more: &State) -> Result<bool, Fault> {
    let mut expected = Vec::new(alloc);
    add_parcel(&mut expected, layout)?;
    is_answer_taken(alloc, own, more, expected.as_slice())
}

fn is_third_written_so(alloc: Global, layout: Layout, own: &State) -> Result<bool, Fault> {
    let more = third_in(alloc, layout, &[(b'!', b'2')])?;
    is_written_so(alloc, layout, own, &more)
}

fn is_third_written_for_second(alloc: Global, layout: Layout) -> Result<bool, Fault> {
    let own = second_in(alloc, layout, &[(b'"', b'1')])?;
    is_third_written_so(alloc, layout, &own)
}

#[test]
fn the_record_of_a_parcel_which_is_taken(rt: HostRuntime) -> Result<(), Fail> {
    assert!(rt; is_third_written_for_second(rt.alloc(), Layout::Sorted)?);
    assert!(rt; is_third_written_for_second(rt.alloc(), Layout::Tree)?);
    Ok(())
}

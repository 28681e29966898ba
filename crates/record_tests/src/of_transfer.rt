//! Records of needs and parcels, their bytes by hand.

use crate::rows::{Part, add_parts, holds, is_so};
use proto::Fault;
use std::alloc::{AllocError, Global};
use std::test::Fail;
use transfer::{Need, Parcel};

/// Needs of number 0 that say that they have so many digests, and have them.
const NEEDS: [(&[Part<'static>], bool); 3] = [
    (&[(&[0], 8), (&[0, 0, 1, 0], 1), (&[1], 32 * 256)], true),
    (&[(&[0], 8), (&[0, 0, 0, 255], 1), (&[1], 32 * 255)], false),
    (&[(&[0], 8), (&[0, 0, 1, 1], 1), (&[1], 32 * 257)], false),
];

#[test]
fn a_need_has_a_digest_for_each_page(rt: HostRuntime) -> Result<(), Fail> {
    for (need, has_record) in &NEEDS {
        assert!(rt; is_so::<Need>(rt.alloc(), &[*need], *has_record)?);
    }
    Ok(())
}

/// The fields of a parcel behind its number, and its sessions: client 1 was answered `STORED` to its
/// request 1.
const FIELDS: &[Part<'static>] = &[
    (&[7], 32),
    (&[0, 0, 0, 0, 0, 0, 0, 4], 1),
    (&[9], 32),
    (&[0, 0, 3, 232], 1),
    (&[3, 0, 0, 0, 1, 0, 1, 0, 0, 0, 0, 0, 0, 0, 1, 0], 1),
];

/// A parcel's form, the first and the last byte of its number, and how many pages it says that it has.
type Head = (u8, [u8; 2], u8);

fn add_parcel(bytes: &mut Vec<u8>, head: Head, pages: &[Part]) -> Result<(), AllocError> {
    let (form, number, count) = head;
    bytes.extend_from_slice(&[form, number[0], 0, 0, 0, 0, 0, 0, number[1]])?;
    add_parts(bytes, FIELDS)?;
    bytes.extend_from_slice(&[0, 0, 0, count])?;
    add_parts(bytes, pages)
}

/// Whether a parcel of these pages has a record, or has none.
fn is_parcel(alloc: Global, head: Head, pages: &[Part], has_record: bool) -> Result<bool, Fault> {
    let mut bytes = Vec::new(alloc);
    add_parcel(&mut bytes, head, pages)?;
    holds::<Parcel>(alloc, (bytes.as_slice(), has_record))
}

/// Page 33, with `!`, whose data is `2`.
const PAGE: Part<'static> = (
    &[
        33, 0, 0, 0, 0, 1, 1, b'!', 0, 0, 0, 0, 0, 0, 0, 0, 0, 0, 0, 0, 64, 0, 0, 0, 1, b'2',
    ],
    1,
);

/// Page 34, without items.
const EMPTY: Part<'static> = (&[34, 0, 0, 0, 0, 0], 1);

/// Page 35, with a key of page 33.
const STRAY: Part<'static> = (
    &[
        35, 0, 0, 0, 0, 1, 1, b'!', 0, 0, 0, 0, 0, 0, 0, 0, 0, 0, 0, 0, 64, 0, 0, 0, 1, b'2',
    ],
    1,
);

/// The same three as pages of trees.
const TREE_PAGE: Part<'static> = (
    &[
        33, 6, 0, 0, 0, 1, 1, b'!', 0, 0, 0, 0, 0, 0, 0, 0, 0, 0, 0, 0, 64, 0, 0, 0, 1, b'2',
    ],
    1,
);

const TREE_EMPTY: Part<'static> = (&[34, 6, 0, 0, 0, 0], 1);

const TREE_STRAY: Part<'static> = (
    &[
        35, 6, 0, 0, 0, 1, 1, b'!', 0, 0, 0, 0, 0, 0, 0, 0, 0, 0, 0, 0, 64, 0, 0, 0, 1, b'2',
    ],
    1,
);

#[test]
fn numbers_and_forms_of_parcels(rt: HostRuntime) -> Result<(), Fail> {
    let rows: [(u8, [u8; 2], bool); 10] = [
        (2, [0, 1], true),
        (2, [3, 255], true),
        (2, [0, 0], false),
        (2, [4, 0], false),
        (1, [0, 1], true),
        (1, [0, 0], false),
        (3, [0, 1], true),
        (3, [0, 0], false),
        (0, [0, 1], false),
        (4, [0, 1], false),
    ];
    for (form, number, has_record) in &rows {
        let page = if *form == 3 { TREE_PAGE } else { PAGE };
        assert!(rt; is_parcel(rt.alloc(), (*form, *number, 1), &[page], *has_record)?);
    }
    Ok(())
}

/// Each form with its page, its page without items and its stray page, and two pages of another layout.
const FORMS: [(u8, [Part<'static>; 3], [Part<'static>; 2]); 3] = [
    (1, [PAGE, EMPTY, STRAY], [TREE_PAGE, TREE_EMPTY]),
    (2, [PAGE, EMPTY, STRAY], [TREE_PAGE, TREE_EMPTY]),
    (3, [TREE_PAGE, TREE_EMPTY, TREE_STRAY], [PAGE, EMPTY]),
];

/// Whether each list of a form's pages makes a parcel, or none.
fn are_parcels(alloc: Global, form: u8, own: [Part; 3], others: [Part; 2]) -> Result<bool, Fault> {
    let [page, empty, stray] = own;
    let [other, other_empty] = others;
    Ok(
        is_parcel(alloc, (form, [0, 3], 0), &[], true)?
            && is_parcel(alloc, (form, [0, 3], 2), &[page, empty], true)?
            && is_parcel(alloc, (form, [0, 3], 1), &[page, empty], false)?
            && is_parcel(alloc, (form, [0, 3], 2), &[empty, page], false)?
            && is_parcel(alloc, (form, [0, 3], 2), &[page, page], false)?
            && is_parcel(alloc, (form, [0, 3], 1), &[stray], false)?
            && is_parcel(alloc, (form, [0, 3], 1), &[other], false)?
            && is_parcel(alloc, (form, [0, 3], 1), &[other_empty], false)?
            && is_parcel(alloc, (form, [0, 3], 2), &[page, other_empty], false)?,
    )
}

#[test]
fn pages_of_parcels(rt: HostRuntime) -> Result<(), Fail> {
    for (form, own, others) in &FORMS {
        assert!(rt;
            are_parcels(rt.alloc(), *form, *own, *others)?,
            "form {form}"
        );
    }
    Ok(())
}

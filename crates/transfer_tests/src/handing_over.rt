//! States that are handed over, and parcels that are refused.

use crate::rows::*;
use pages::Layout;
use proto::Fault;
use states::State;
use std::alloc::{AllocError, Global};
use std::test::Fail;
use transfer::Parcel;
use wire::{read, write};

/// What is to hold of a state and one that has more.
#[derive(Clone, Copy)]
enum Row {
    /// What the one answers to the other is taken.
    HandedOver,
    /// And no page comes along.
    WithoutPages,
    /// Without its one page it is refused, and then the whole is taken.
    LacksItsPage,
    /// It is refused if another number is asked for.
    OtherNumber,
    /// Or another token.
    OtherToken,
    /// What answers the need of the first state is taken over these pages.
    MoreThanNeeded,
}

fn is_handed_over(alloc: Global, own: &State, more: &State) -> Result<bool, Fault> {
    is_taken(alloc, own, answered(alloc, own, more)?, more)
}

/// How many bytes the record of a parcel without pages has: 85 of fields, 16 of sessions, and a count.
const WITHOUT_PAGES: usize = 105;

fn bytes_of(alloc: Global, parcel: &Parcel) -> Result<Vec<u8>, AllocError> {
    parcel.is_parcel();
    let mut bytes = Vec::new(alloc);
    write(alloc, parcel, &mut bytes)?;
    Ok(bytes)
}

fn count_bytes(alloc: Global, own: &State, more: &State) -> Result<usize, Fault> {
    let parcel = answered(alloc, own, more)?;
    let bytes = bytes_of(alloc, &parcel)?;
    Ok(bytes.len())
}

fn has_no_pages(alloc: Global, own: &State, more: &State) -> Result<bool, Fault> {
    Ok(count_bytes(alloc, own, more)? == WITHOUT_PAGES && is_handed_over(alloc, own, more)?)
}

/// The parcel of these bytes without its one page.
fn cut(alloc: Global, bytes: Vec<u8>) -> Result<Parcel, Fault> {
    let mut part = bytes;
    part.truncate(WITHOUT_PAGES - 4);
    part.extend_from_slice(&[0; 4])?;
    read::<Parcel>(alloc, part.as_slice())
}

/// The answer without its one page.
fn part(alloc: Global, own: &State, more: &State) -> Result<Parcel, Fault> {
    let parcel = answered(alloc, own, more)?;
    cut(alloc, bytes_of(alloc, &parcel)?)
}

fn is_part_refused(alloc: Global, own: &State, more: &State) -> Result<bool, Fault> {
    let token = more.token();
    is_refused(alloc, own, part(alloc, own, more)?, more.number(), &token)
}

/// Whether the answer is refused if this number is asked for.
fn is_number_refused(alloc: Global, own: &State, more: &State, n: u64) -> Result<bool, Fault> {
    let token = more.token();
    is_refused(alloc, own, answered(alloc, own, more)?, n, &token)
}

/// Whether the answer is refused if the own token is asked for.
fn is_token_refused(alloc: Global, own: &State, more: &State) -> Result<bool, Fault> {
    let token = own.token();
    is_refused(
        alloc,
        own,
        answered(alloc, own, more)?,
        more.number(),
        &token,
    )
}

/// What answers the need of the first state.
fn whole(alloc: Global, more: &State) -> Result<Parcel, Fault> {
    let first = State::first(alloc)?;
    answered(alloc, &first, more)
}

/// A copy of it.
fn copied(alloc: Global, more: &State) -> Result<Parcel, Fault> {
    let parcel = whole(alloc, more)?;
    Ok(parcel.clone()?)
}

fn is_more_taken(alloc: Global, own: &State, more: &State) -> Result<bool, Fault> {
    is_taken(alloc, own, copied(alloc, more)?, more)
}

fn holds(alloc: Global, row: Row, own: &State, more: &State) -> Result<bool, Fault> {
    match row {
        Row::HandedOver => is_handed_over(alloc, own, more),
        Row::WithoutPages => has_no_pages(alloc, own, more),
        Row::LacksItsPage => {
            Ok(is_part_refused(alloc, own, more)? && is_handed_over(alloc, own, more)?)
        }
        Row::OtherNumber => {
            Ok(is_number_refused(alloc, own, more, 2)? && is_number_refused(alloc, own, more, 4)?)
        }
        Row::OtherToken => is_token_refused(alloc, own, more),
        Row::MoreThanNeeded => is_more_taken(alloc, own, more),
    }
}

/// Items: the byte of each key, and its data.
type Items = &'static [(u8, u8)];

/// The layouts of the pages of the state of number 2 and of the one of number 3, the items of each, and what
/// is to hold of the two.
#[derive(Clone, Copy)]
struct Case {
    name: &'static str,
    layouts: (Layout, Layout),
    own: Items,
    more: Items,
    row: Row,
}

const SORTED: (Layout, Layout) = (Layout::Sorted, Layout::Sorted);

const OWN: Items = &[(b'a', b'1'), (b'b', b'2'), (b'c', b'3')];

/// One item is another, one is gone, and one is new.
const MORE: Items = &[(b'a', b'1'), (b'b', b'5'), (b'd', b'4')];

const ONE: Items = &[(b'a', b'1')];

const OTHER: Items = &[(b'a', b'2')];

const TWO: Items = &[(b'a', b'1'), (b'b', b'2')];

const CASES: [Case; 12] = [
    Case {
        name: "an_item_that_is_another_one_that_is_gone_and_a_new_one",
        layouts: SORTED,
        own: OWN,
        more: MORE,
        row: Row::HandedOver,
    },
    Case {
        name: "no_page_comes_along_where_only_the_sessions_differ",
        layouts: SORTED,
        own: ONE,
        more: ONE,
        row: Row::WithoutPages,
    },
    Case {
        name: "a_parcel_that_lacks_a_page_is_refused",
        layouts: SORTED,
        own: ONE,
        more: OTHER,
        row: Row::LacksItsPage,
    },
    Case {
        name: "a_parcel_of_another_number_is_refused",
        layouts: SORTED,
        own: ONE,
        more: OTHER,
        row: Row::OtherNumber,
    },
    Case {
        name: "a_parcel_of_another_token_is_refused",
        layouts: SORTED,
        own: ONE,
        more: OTHER,
        row: Row::OtherToken,
    },
    Case {
        name: "pages_that_are_there_already_are_no_harm",
        layouts: SORTED,
        own: TWO,
        more: TWO,
        row: Row::MoreThanNeeded,
    },
    // Pages in different layouts differ by their digests, and come along if they have items.
    Case {
        name: "to trees",
        layouts: (Layout::Sorted, Layout::Tree),
        own: OWN,
        more: MORE,
        row: Row::LacksItsPage,
    },
    Case {
        name: "to trees from no items",
        layouts: (Layout::Sorted, Layout::Tree),
        own: &[],
        more: MORE,
        row: Row::LacksItsPage,
    },
    Case {
        name: "from trees",
        layouts: (Layout::Tree, Layout::Sorted),
        own: OWN,
        more: MORE,
        row: Row::LacksItsPage,
    },
    Case {
        name: "from trees of no items",
        layouts: (Layout::Tree, Layout::Sorted),
        own: &[],
        more: MORE,
        row: Row::LacksItsPage,
    },
    Case {
        name: "between trees",
        layouts: (Layout::Tree, Layout::Tree),
        own: OWN,
        more: MORE,
        row: Row::LacksItsPage,
    },
    Case {
        name: "between trees from no items",
        layouts: (Layout::Tree, Layout::Tree),
        own: &[],
        more: MORE,
        row: Row::LacksItsPage,
    },
];

fn holds_over(alloc: Global, case: &Case, own: &State) -> Result<bool, Fault> {
    let more = third_in(alloc, case.layouts.1, case.more)?;
    holds(alloc, case.row, own, &more)
}

fn is_so(alloc: Global, case: &Case) -> Result<bool, Fault> {
    let own = second_in(alloc, case.layouts.0, case.own)?;
    holds_over(alloc, case, &own)
}

#[test]
fn states_are_handed_over(rt: HostRuntime) -> Result<(), Fail> {
    for case in CASES {
        assert_eq!(rt; is_so(rt.alloc(), &case), Ok(true), "{}", case.name);
    }
    Ok(())
}

/// Over the first state. Two pages have items.
const OVER_FIRST: Case = Case {
    name: "a_state_is_handed_over_to_the_first_state",
    layouts: SORTED,
    own: &[],
    more: TWO,
    row: Row::HandedOver,
};

fn is_so_over_first(alloc: Global) -> Result<bool, Fault> {
    let first = State::first(alloc)?;
    holds_over(alloc, &OVER_FIRST, &first)
}

#[test]
fn a_state_is_handed_over_to_the_first_state(rt: HostRuntime) -> Result<(), Fail> {
    assert_eq!(rt; is_so_over_first(rt.alloc()), Ok(true));
    Ok(())
}

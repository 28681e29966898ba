//! Which letters are held, and when the primary waits.

use following::{
    ExecutorReport, HeldLetter, MOST_BYTES, MOST_LETTERS, MOST_WAIT, is_over, may_hold, must_wait,
};
use std::test::Fail;

/// In epoch 3, with committed state 7 and one tentative state over it, and decrees up to place 9.
const REPORT: ExecutorReport = ExecutorReport {
    number: 7,
    known: 9,
    standing: 7,
    epoch: 3,
    chain: 1,
    is_running: false,
};

/// The same, but state 9 stands.
const BEHIND: ExecutorReport = ExecutorReport {
    number: 7,
    known: 11,
    standing: 9,
    epoch: 3,
    chain: 0,
    is_running: false,
};

const OVER: [HeldLetter; 6] = [
    HeldLetter::Order {
        epoch: 2,
        number: 20,
    },
    HeldLetter::Order {
        epoch: 3,
        number: 8,
    },
    HeldLetter::Commit {
        place: 9,
        number: 7,
    },
    HeldLetter::Rollback { place: 9 },
    HeldLetter::Parcel { number: 6 },
    HeldLetter::Parcel { number: 20 },
];

const LATER: [HeldLetter; 4] = [
    HeldLetter::Order {
        epoch: 3,
        number: 10,
    },
    HeldLetter::Order {
        epoch: 4,
        number: 9,
    },
    HeldLetter::Commit {
        place: 11,
        number: 9,
    },
    HeldLetter::Rollback { place: 11 },
];

const NEXT: [HeldLetter; 3] = [
    HeldLetter::Order {
        epoch: 3,
        number: 9,
    },
    HeldLetter::Commit {
        place: 10,
        number: 8,
    },
    HeldLetter::Rollback { place: 10 },
];

#[test]
fn what_is_over_is_not_held(rt: HostRuntime) -> Result<(), Fail> {
    for letter in &OVER {
        assert!(rt; is_over(REPORT, *letter) && !may_hold(REPORT, *letter, 0, 0, 0));
    }
    Ok(())
}

#[test]
fn what_comes_later_is_held_while_there_is_room(rt: HostRuntime) -> Result<(), Fail> {
    for letter in &LATER {
        assert!(rt; may_hold(REPORT, *letter, MOST_LETTERS - 1, 0, MOST_BYTES));
        assert!(rt; !may_hold(REPORT, *letter, MOST_LETTERS, 0, 0));
        assert!(rt; !may_hold(REPORT, *letter, 0, 1, MOST_BYTES));
    }
    Ok(())
}

#[test]
fn what_is_next_is_held_in_any_case(rt: HostRuntime) -> Result<(), Fail> {
    for letter in &NEXT {
        assert!(rt; may_hold(REPORT, *letter, MOST_LETTERS, MOST_BYTES, 1));
    }
    Ok(())
}

#[test]
fn one_parcel_is_held_by_who_is_behind(rt: HostRuntime) -> Result<(), Fail> {
    let parcel = HeldLetter::Parcel { number: 9 };
    assert!(rt; may_hold(BEHIND, parcel, 0, MOST_BYTES, MOST_BYTES));
    assert!(rt; !may_hold(BEHIND, parcel, 1, 0, 0));
    assert!(rt; is_over(BEHIND, HeldLetter::Parcel { number: 8 }));
    Ok(())
}

#[test]
fn the_primary_waits_for_who_is_far_behind(rt: HostRuntime) -> Result<(), Fail> {
    assert!(rt; must_wait(165, 0, &[164, 100]));
    assert!(rt; must_wait(165, MOST_WAIT - 1, &[100]));
    assert!(rt; !must_wait(165, MOST_WAIT, &[100]));
    assert!(rt; !must_wait(164, 0, &[163, 100]));
    assert!(rt; !must_wait(64, 0, &[0]));
    Ok(())
}

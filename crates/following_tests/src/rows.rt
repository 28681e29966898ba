//! Each rule by rows: what executor 2 of three reports, what is held, and what is next.

use following::{Action, ExecutorReport, Following, HeldLetter};
use std::test::Fail;

/// An order of epoch 3.
fn order(number: u64) -> HeldLetter {
    HeldLetter::Order { epoch: 3, number }
}

fn commit(place: u64, number: u64) -> HeldLetter {
    HeldLetter::Commit { place, number }
}

fn parcel(number: u64) -> HeldLetter {
    HeldLetter::Parcel { number }
}

/// In epoch 3, with committed state 7, after two Rollbacks and so many Commits that this number stands.
fn with_standing(standing: u64) -> ExecutorReport {
    ExecutorReport {
        number: 7,
        known: standing.saturating_add(2),
        standing,
        epoch: 3,
        chain: 0,
        is_running: false,
    }
}

/// The same with state 7 standing, and so many tentative states over it.
fn with_chain(chain: usize, is_running: bool) -> ExecutorReport {
    let mut report = with_standing(7);
    report.chain = chain;
    report.is_running = is_running;
    report
}

/// What is next if nothing was asked for before.
fn first(report: ExecutorReport, held: &[HeldLetter]) -> Action {
    Following::new(1, 2).next(report, held)
}

#[test]
fn a_parcel_is_handed_in_at_its_number(rt: HostRuntime) -> Result<(), Fail> {
    let report = with_standing(9);
    assert!(rt; first(report, &[order(8), parcel(9)]) == Action::HandInParcel(1));
    assert!(rt; first(report, &[parcel(8), parcel(9)]) == Action::HandInParcel(1));
    assert!(rt; first(report, &[parcel(8)]) == Action::DropParcel(0));
    Ok(())
}

#[test]
fn decrees_lead_to_a_parcel(rt: HostRuntime) -> Result<(), Fail> {
    let report = with_standing(9);
    let rollback = HeldLetter::Rollback { place: 12 };
    assert!(rt; first(report, &[parcel(11), commit(12, 10)]) == Action::HandInDecree(1));
    assert!(rt; first(report, &[parcel(11), rollback]) == Action::HandInDecree(1));
    assert!(rt; first(report, &[parcel(11), commit(13, 11), order(8)]) == Action::Ask(12));
    Ok(())
}

#[test]
fn who_fetches_asks_each_peer_in_turn(rt: HostRuntime) -> Result<(), Fail> {
    let report = with_standing(9);
    let held = [order(8), commit(12, 10)];
    let mut following = Following::new(1, 2);
    assert!(rt; following.next(report, &held) == Action::Need(0));
    assert!(rt; following.next(report, &held) == Action::Wait);
    pass(&mut following, 11);
    assert!(rt; following.next(report, &held) == Action::Need(1));
    Ok(())
}

#[test]
fn a_byte_of_a_parcel_is_waited_for(rt: HostRuntime) -> Result<(), Fail> {
    let report = with_standing(9);
    let mut following = Following::new(1, 2);
    following.hear_parcel();
    pass(&mut following, 10);
    assert!(rt; following.next(report, &[]) == Action::Wait);
    pass(&mut following, 1);
    assert!(rt; following.next(report, &[]) == Action::Need(0));
    Ok(())
}

/// So many ticks.
fn pass(following: &mut Following, ticks: u32) {
    for _ in 0..ticks {
        following.tick();
    }
}

#[test]
fn a_decree_is_handed_in_if_it_fits_the_chain(rt: HostRuntime) -> Result<(), Fail> {
    let held = [order(9), commit(10, 8)];
    assert!(rt; first(with_chain(1, false), &held) == Action::HandInDecree(1));
    assert!(rt; first(with_chain(1, true), &held) == Action::HandInDecree(1));
    assert!(rt; first(with_chain(0, true), &held) == Action::Wait);
    assert!(rt;
        first(with_chain(0, true), &[HeldLetter::Rollback { place: 10 }]) == Action::HandInDecree(0)
    );
    Ok(())
}

#[test]
fn an_order_is_handed_in_over_the_tip(rt: HostRuntime) -> Result<(), Fail> {
    assert!(rt; first(with_chain(0, false), &[commit(10, 8), order(8)]) == Action::HandInOrder(1));
    assert!(rt; first(with_chain(3, false), &[order(8), order(11)]) == Action::HandInOrder(1));
    assert!(rt; first(with_chain(4, false), &[order(12)]) == Action::Wait);
    assert!(rt; first(with_chain(3, true), &[order(11)]) == Action::Wait);
    Ok(())
}

#[test]
fn other_orders_wait(rt: HostRuntime) -> Result<(), Fail> {
    let other = HeldLetter::Order {
        epoch: 4,
        number: 8,
    };
    assert!(rt; first(with_chain(0, false), &[order(9), order(7), other]) == Action::Wait);
    assert!(rt; first(with_chain(0, false), &[]) == Action::Wait);
    Ok(())
}

/// Place 10 is missing. The Ask that leaves is answered by the decrees up to place 25.
#[test]
fn a_missing_decree_is_asked_for(rt: HostRuntime) -> Result<(), Fail> {
    let report = with_chain(0, false);
    let mut following = Following::new(1, 2);
    assert!(rt; following.next(report, &[commit(11, 9)]) == Action::Ask(10));
    assert!(rt; following.next(report, &[commit(11, 9)]) == Action::Wait);
    pass(&mut following, 1);
    assert!(rt; following.next(report, &[commit(11, 9)]) == Action::Wait);
    pass(&mut following, 1);
    assert!(rt; following.next(report, &[commit(11, 9)]) == Action::Ask(10));
    Ok(())
}

#[test]
fn the_next_ask_is_for_the_decrees_after_that(rt: HostRuntime) -> Result<(), Fail> {
    let mut report = with_chain(0, true);
    let mut following = Following::new(1, 2);
    assert!(rt; following.next(report, &[commit(90, 80)]) == Action::Ask(10));
    report.known = 24;
    assert!(rt; following.next(report, &[commit(90, 80)]) == Action::Wait);
    report.known = 25;
    assert!(rt; following.next(report, &[commit(90, 80)]) == Action::Ask(26));
    Ok(())
}

/// No order leads to the decree: after more than two ticks it is handed in.
#[test]
fn a_decree_waits_for_its_order(rt: HostRuntime) -> Result<(), Fail> {
    let report = with_chain(0, false);
    let held = [commit(10, 8)];
    let mut following = Following::new(1, 2);
    assert!(rt; following.next(report, &held) == Action::Wait);
    pass(&mut following, 2);
    assert!(rt; following.next(report, &held) == Action::Wait);
    pass(&mut following, 1);
    assert!(rt; following.next(report, &held) == Action::HandInDecree(0));
    Ok(())
}

/// While a batch runs, the time does not count.
#[test]
fn a_decree_waits_for_what_runs(rt: HostRuntime) -> Result<(), Fail> {
    let held = [commit(10, 8)];
    let mut following = Following::new(1, 2);
    assert!(rt; following.next(with_chain(0, true), &held) == Action::Wait);
    pass(&mut following, 9);
    assert!(rt; following.next(with_chain(0, true), &held) == Action::Wait);
    assert!(rt; following.next(with_chain(0, false), &held) == Action::Wait);
    pass(&mut following, 3);
    assert!(rt; following.next(with_chain(0, false), &held) == Action::HandInDecree(0));
    Ok(())
}

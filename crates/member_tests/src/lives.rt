//! Members whose process ends, and that go on from what was recorded.

use crate::letters::{ADD, SET, shows};
use crate::site::Done;
use ensemble::Config;
use member::{Member, MemberRecord};
use proto::Fault;
use std::alloc::Global;
use std::test::Fail;

/// The second member ends when it has executed a batch. Another process of it goes on, and asks for its client.
#[test]
fn a_member_goes_on_from_its_record(rt: HostRuntime) -> Result<(), Fail> {
    let row = [
        Done::Ask(1, SET),
        Done::Pass,
        Done::Record(1),
        Done::Reopen(1),
        Done::Ask(3, ADD),
        Done::Pass,
    ];
    let answers = [(1, 1, 0), (3, 1, 6)];
    assert!(rt; shows(&rt, rt.alloc(), &row, &answers) == Ok(true));
    Ok(())
}

/// The member that leads ends. No other one leads until one suspects it.
#[test]
fn another_one_leads_when_the_leader_ends(rt: HostRuntime) -> Result<(), Fail> {
    let row = [
        Done::Ask(1, SET),
        Done::Pass,
        Done::Record(0),
        Done::Reopen(0),
        Done::Suspect(1),
        Done::Pass,
        Done::Ask(3, ADD),
        Done::Pass,
        Done::Ask(1, ADD),
        Done::Pass,
    ];
    let answers = [(1, 1, 0), (3, 1, 6), (1, 2, 7)];
    assert!(rt; shows(&rt, rt.alloc(), &row, &answers) == Ok(true));
    Ok(())
}

/// What the third member did after it was recorded is gone, and nothing of it left. The others answered meanwhile, and it
/// learns of that.
#[test]
fn a_member_goes_on_from_an_old_record(rt: HostRuntime) -> Result<(), Fail> {
    let row = [
        Done::Ask(1, SET),
        Done::Pass,
        Done::Record(2),
        Done::Ask(3, ADD),
        Done::Lose(2),
        Done::Reopen(2),
        Done::Pass,
        Done::Ask(5, ADD),
        Done::Pass,
    ];
    let answers = [(1, 1, 0), (3, 1, 6), (5, 1, 7)];
    assert!(rt; shows(&rt, rt.alloc(), &row, &answers) == Ok(true));
    Ok(())
}

/// A request was recorded, and no letter of it left. The next process asks it again, under its number, and it is executed
/// once.
#[test]
fn what_was_asked_is_asked_by_the_next_process(rt: HostRuntime) -> Result<(), Fail> {
    let row = [
        Done::Ask(1, SET),
        Done::Pass,
        Done::Ask(3, ADD),
        Done::Record(1),
        Done::Reopen(1),
        Done::Again(3),
        Done::Pass,
        Done::Ask(3, ADD),
        Done::Pass,
    ];
    let answers = [(1, 1, 0), (3, 1, 6), (3, 2, 7)];
    assert!(rt; shows(&rt, rt.alloc(), &row, &answers) == Ok(true));
    Ok(())
}

/// What is kept of the first member of a site of three that was just opened.
fn recorded(alloc: Global) -> Result<MemberRecord, Fault> {
    let member = Member::open(alloc, &Config::new(1, 6)?, 0)?;
    let kept = member.record(alloc);
    member.end();
    kept
}

/// Whether this member of a site of this size may not begin with that.
fn is_refused(alloc: Global, u: u8, clients: u16, id: u8) -> Result<bool, Fault> {
    let config = Config::new(u, clients)?;
    match Member::reopen(alloc, &config, id, recorded(alloc)?) {
        Ok(member) => {
            member.end();
            Ok(false)
        }
        Err(fault) => Ok(fault == Fault::Unfit),
    }
}

#[test]
fn a_record_is_of_one_member_of_a_site_of_one_size(rt: HostRuntime) -> Result<(), Fail> {
    assert!(rt; is_refused(rt.alloc(), 1, 6, 0) == Ok(false));
    assert!(rt; is_refused(rt.alloc(), 1, 6, 1) == Ok(true));
    assert!(rt; is_refused(rt.alloc(), 1, 9, 0) == Ok(true));
    assert!(rt; is_refused(rt.alloc(), 2, 6, 0) == Ok(true));
    assert!(rt; is_refused(rt.alloc(), 0, 6, 0) == Ok(true));
    Ok(())
}

/// Whether the record of the first member, in the form of that of a process, is that of this member.
fn is_form_of(alloc: Global, id: u8) -> Result<bool, Fault> {
    let process = recorded(alloc)?.process(alloc)?;
    match MemberRecord::of_process(alloc, id, &process) {
        Ok(kept) => Ok(kept.id() == id),
        Err(Fault::Unfit) => Ok(false),
        Err(fault) => Err(fault),
    }
}

#[test]
fn the_record_of_a_process_is_that_of_one_member(rt: HostRuntime) -> Result<(), Fail> {
    assert!(rt; is_form_of(rt.alloc(), 0) == Ok(true));
    assert!(rt; is_form_of(rt.alloc(), 1) == Ok(false));
    assert!(rt; is_form_of(rt.alloc(), 2) == Ok(false));
    assert!(rt; is_form_of(rt.alloc(), 3) == Ok(false));
    Ok(())
}

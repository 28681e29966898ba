//! What a client is given if one of three executors and one of three verifiers fails.

use crate::stage::{Done, gives};
use events::Replica;
use std::test::Fail;

const INCREMENTS: &[u8] = b"set n 0 0 1\r\n1\r\nincr n 1\r\n";

#[test]
fn two_of_three_go_on(rt: HostRuntime) -> Result<(), Fail> {
    let row = [
        Done::Lost(Replica::Executor(2)),
        Done::Lost(Replica::Verifier(1)),
        Done::Feed(INCREMENTS),
        Done::Settle,
        Done::Cut(0),
        Done::Settle,
        Done::Restart(Replica::Executor(2)),
        Done::Cut(0),
        Done::Settle,
    ];
    assert!(rt; gives(rt.alloc(), 1, &row, b"STORED\r\n2\r\n")?);
    Ok(())
}

#[test]
fn one_of_three_does_not(rt: HostRuntime) -> Result<(), Fail> {
    let row = [
        Done::Crash(Replica::Executor(1)),
        Done::Crash(Replica::Executor(2)),
        Done::Feed(INCREMENTS),
        Done::Settle,
        Done::Cut(0),
        Done::Settle,
    ];
    assert!(rt; gives(rt.alloc(), 1, &row, b"")?);
    Ok(())
}

/// No verifier leads after all were opened again. The one that is told to leads a new view, and begins
/// a new epoch, whose primary is the next executor.
#[test]
fn all_go_on_from_their_records(rt: HostRuntime) -> Result<(), Fail> {
    let row = [
        Done::Feed(INCREMENTS),
        Done::Settle,
        Done::Cut(0),
        Done::Settle,
        Done::Crash(Replica::Executor(0)),
        Done::Crash(Replica::Executor(1)),
        Done::Crash(Replica::Executor(2)),
        Done::Crash(Replica::Verifier(0)),
        Done::Crash(Replica::Verifier(1)),
        Done::Crash(Replica::Verifier(2)),
        Done::Restart(Replica::Executor(0)),
        Done::Restart(Replica::Executor(1)),
        Done::Restart(Replica::Executor(2)),
        Done::Restart(Replica::Verifier(0)),
        Done::Restart(Replica::Verifier(1)),
        Done::Restart(Replica::Verifier(2)),
        Done::Suspect(1),
        Done::Settle,
        Done::Again,
        Done::Settle,
        Done::Cut(1),
        Done::Settle,
    ];
    assert!(rt; gives(rt.alloc(), 1, &row, b"STORED\r\n2\r\n")?);
    Ok(())
}

#[test]
fn a_save_that_fails_is_a_crash(rt: HostRuntime) -> Result<(), Fail> {
    let row = [
        Done::FailSave(Replica::Executor(1)),
        Done::FailSave(Replica::Verifier(2)),
        Done::Feed(INCREMENTS),
        Done::Settle,
        Done::Cut(0),
        Done::Settle,
        Done::Lost(Replica::Executor(1)),
        Done::Cut(0),
        Done::Settle,
    ];
    assert!(rt; gives(rt.alloc(), 1, &row, b"STORED\r\n2\r\n")?);
    Ok(())
}

#[test]
fn another_verifier_leads_where_the_first_is_lost(rt: HostRuntime) -> Result<(), Fail> {
    let row = [
        Done::Feed(INCREMENTS),
        Done::Lost(Replica::Verifier(0)),
        Done::Settle,
        Done::Cut(0),
        Done::Settle,
        Done::Suspect(1),
        Done::Settle,
        Done::Cut(0),
        Done::Settle,
    ];
    assert!(rt; gives(rt.alloc(), 1, &row, b"STORED\r\n2\r\n")?);
    Ok(())
}

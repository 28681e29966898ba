//! Each kind of line.

use crate::seen::{Row, says};
use std::test::Fail;

#[test]
fn each_line_says_its_event(rt: HostRuntime) -> Result<(), Fail> {
    let rows: &[Row] = &[
        (b"feed 1 get a", "Feed 1 103 101 116 32 97;"),
        (b"again 1", "Again 1;"),
        (b"hangup 2", "Hangup 2;"),
        (b"deliver 17", "Deliver 17;"),
        (b"cut 0 1000", "Cut 0 at 1000;"),
        (b"step 2 63", "Step 2 of 63;"),
        (b"finish 1", "Finish 1;"),
        (b"suspect 2", "Suspect 2;"),
        (b"settle 100", "Settle 100;"),
        (b"random 7 20000", "Random 20000 from 7;"),
    ];
    for (line, words) in rows {
        assert!(rt; says(rt.alloc(), *line, *words)?, "{words}");
    }
    Ok(())
}

#[test]
fn a_replica_is_an_executor_or_a_verifier(rt: HostRuntime) -> Result<(), Fail> {
    let rows: &[Row] = &[
        (b"crash e0", "Crash executor 0;"),
        (b"crash v0", "Crash verifier 0;"),
        (b"restart e6", "Restart executor 6;"),
        (b"restart v1", "Restart verifier 1;"),
        (b"lose e2", "Lost executor 2;"),
        (b"lose v6", "Lost verifier 6;"),
        (b"failsave e1", "FailSave executor 1;"),
        (b"failsave v2", "FailSave verifier 2;"),
    ];
    for (line, words) in rows {
        assert!(rt; says(rt.alloc(), *line, *words)?, "{words}");
    }
    Ok(())
}

#[test]
fn lines_are_read_in_their_order(rt: HostRuntime) -> Result<(), Fail> {
    let lines = b"cut 0 1000\nsettle 100\ncut 0 1000\ncrash e0\nrestart e0";
    let words = "Cut 0 at 1000; Settle 100; Cut 0 at 1000; Crash executor 0; Restart executor 0;";
    assert!(rt; says(rt.alloc(), lines, words)?);
    Ok(())
}

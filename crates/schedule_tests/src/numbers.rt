//! Numbers at their limits.

use crate::seen::{Row, is_refused, read, says};
use std::test::Fail;

#[test]
fn numbers_at_their_limits_are_read(rt: HostRuntime) -> Result<(), Fail> {
    let rows: &[Row] = &[
        (b"deliver 0", "Deliver 0;"),
        (
            b"deliver 18446744073709551615",
            "Deliver 18446744073709551615;",
        ),
        (
            b"deliver 00018446744073709551615",
            "Deliver 18446744073709551615;",
        ),
        (b"cut 0 0", "Cut 0 at 0;"),
        (b"cut 0 4294967295", "Cut 0 at 4294967295;"),
        (b"step 0 0", "Step 0 of 0;"),
        (b"step 0 63", "Step 0 of 63;"),
        (b"settle 0", "Settle 0;"),
        (b"settle 1000000", "Settle 1000000;"),
        (
            b"random 18446744073709551615 1000000",
            "Random 1000000 from 18446744073709551615;",
        ),
        (b"random 0 0", "Random 0 from 0;"),
        (b"again 007", "Again 7;"),
    ];
    for (line, words) in rows {
        assert!(rt; says(rt.alloc(), *line, *words)?, "{words}");
    }
    Ok(())
}

#[test]
fn numbers_above_their_limits_are_refused(rt: HostRuntime) -> Result<(), Fail> {
    let lines: &[&[u8]] = &[
        b"deliver 18446744073709551616",
        b"deliver 99999999999999999999999999999999999999999",
        b"again 18446744073709551616",
        b"crash e18446744073709551616",
        b"cut 0 4294967296",
        b"step 0 64",
        b"settle 1000001",
        b"random 1 1000001",
        b"random 18446744073709551616 1",
    ];
    for line in lines {
        assert!(rt; is_refused(rt.alloc(), *line)?);
    }
    Ok(())
}

/// No world has a client 65535 or a replica 255, nor one of a greater number.
#[test]
fn a_node_of_a_great_number_is_one_that_is_not_there(rt: HostRuntime) -> Result<(), Fail> {
    let rows: &[Row] = &[
        (b"again 0", "Again 0;"),
        (b"again 65534", "Again 65534;"),
        (b"again 65535", "Again 65535;"),
        (b"again 65536", "Again 65535;"),
        (b"hangup 18446744073709551615", "Hangup 65535;"),
        (b"feed 65537 a", "Feed 65535 97;"),
        (b"finish 254", "Finish 254;"),
        (b"finish 255", "Finish 255;"),
        (b"finish 256", "Finish 255;"),
        (b"suspect 18446744073709551615", "Suspect 255;"),
        (b"cut 256 1", "Cut 255 at 1;"),
        (b"step 65536 1", "Step 255 of 1;"),
        (b"crash e256", "Crash executor 255;"),
        (b"restart v512", "Restart verifier 255;"),
    ];
    for (line, words) in rows {
        assert!(rt; says(rt.alloc(), *line, *words)?, "{words}");
    }
    Ok(())
}

#[test]
fn the_size_of_a_world_has_limits(rt: HostRuntime) -> Result<(), Fail> {
    let rows: &[Row] = &[
        (b"u 0\nclients 1\n", "u 0, 1 clients;"),
        (b"u 3\nclients 64\n", "u 3, 64 clients;"),
        (b"u 03\nclients 064\n", "u 3, 64 clients;"),
        (b"u 4\nclients 1\n", "6 BadSchedule line 1"),
        (b"u 256\nclients 1\n", "6 BadSchedule line 1"),
        (b"u 0\nclients 0\n", "6 BadSchedule line 2"),
        (b"u 0\nclients 65\n", "6 BadSchedule line 2"),
        (b"u 0\nclients 65537\n", "6 BadSchedule line 2"),
    ];
    for (text, words) in rows {
        let found = read(rt.alloc(), *text)?;
        assert!(rt; found.as_str() == *words, "{words}");
    }
    Ok(())
}

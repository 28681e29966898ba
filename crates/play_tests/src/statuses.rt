//! How a play ends, and what it prints then.

use crate::played::played;
use app::{REFUSED, SHOWN};
use std::test::Fail;

#[test]
fn of_files_that_are_schedules(rt: HostRuntime) -> Result<(), Fail> {
    let nothing: &[u8] =
        b"client 1 open 0\nexecutor 0 up n 0 epoch 1 chain 0\nverifier 0 up decrees 0 view 0\n";
    let rows: [(&[u8], &[u8]); 4] = [
        (b"u 0\nclients 1\n", nothing),
        (b"\n# no end of the last line\nu 0\n\nclients 1", nothing),
        (
            b"u 0\nclients 2\nlose e0\nlose v0\nhangup 2\n",
            b"client 1 open 0\nclient 2 closed 0\nexecutor 0 lost\nverifier 0 lost\n",
        ),
        (
            b"u 0\nclients 1\ncrash e0\ncrash v0\nfeed 1 version\\r\\n\\\\\\x00\\xff\\r\\n\n",
            b"client 1 open 22 VERSION eve-1\\r\\nERROR\\r\\n\nexecutor 0 down\nverifier 0 down\n",
        ),
    ];
    for (schedule, wanted) in rows {
        let end = played(rt.alloc(), schedule);
        assert_eq!(rt; end.status, SHOWN);
        assert_eq!(rt; end.out.as_slice(), wanted);
        assert!(rt; end.err.is_empty());
    }
    Ok(())
}

#[test]
fn of_files_that_are_none(rt: HostRuntime) -> Result<(), Fail> {
    let rows: [(&[u8], &[u8]); 9] = [
        (b"", b"refused: 6 BadSchedule line 1\n"),
        (b"u 0\n\n# b\n", b"refused: 6 BadSchedule line 4\n"),
        (b"u 4\nclients 1\n", b"refused: 6 BadSchedule line 1\n"),
        (b"clients 1\nu 0\n", b"refused: 6 BadSchedule line 1\n"),
        (b"u 0\nclients 65\n", b"refused: 6 BadSchedule line 2\n"),
        (
            b"u 0\nfinish 0\nclients 1\n",
            b"refused: 6 BadSchedule line 2\n",
        ),
        (
            b"u 0\nclients 1\nagain  1\n",
            b"refused: 6 BadSchedule line 3\n",
        ),
        (
            b"u 0\nclients 1\nsettle 1000001\n",
            b"refused: 6 BadSchedule line 3\n",
        ),
        (
            b"u 0\nclients 1\nsettle 1000000\nfeed 1 \x5c\n",
            b"refused: 6 BadSchedule line 4\n",
        ),
    ];
    for (schedule, wanted) in rows {
        let end = played(rt.alloc(), schedule);
        assert_eq!(rt; end.status, REFUSED);
        assert_eq!(rt; end.err.as_slice(), wanted);
        assert!(rt; end.out.is_empty());
    }
    Ok(())
}

#[test]
fn one_seed_makes_one_play(rt: HostRuntime) -> Result<(), Fail> {
    let schedule: &[u8] =
        b"u 1\nclients 2\nfeed 1 set n 0 0 1\\r\\n1\\r\\nincr n 1\\r\\n\nrandom 7 2000\nsettle 100\nrandom 8 2000\nsettle 1000\n";
    let one = played(rt.alloc(), schedule);
    let other = played(rt.alloc(), schedule);
    assert_eq!(rt; one.status, SHOWN);
    assert!(rt; one.out.as_slice() == other.out.as_slice());
    Ok(())
}

//! Lines that say nothing.

use crate::seen::is_refused;
use std::test::Fail;

#[test]
fn words_are_parted_by_one_space(rt: HostRuntime) -> Result<(), Fail> {
    let lines: &[&[u8]] = &[
        b"again  1",
        b"again 1 ",
        b" again 1",
        b"again\t1",
        b"again",
        b"again ",
        b"again 1 1",
        b"cut 0  1000",
        b"cut  0 1000",
        b"cut 0 1000 ",
        b"cut 0",
        b"cut 0 ",
        b"cut  ",
        b"step 0 1 2",
        b"random 1",
        b"settle 1 1",
        b"crash e 0",
        b"feed 1",
        b"feed",
        b"feed  a",
        b" ",
    ];
    for line in lines {
        assert!(rt; is_refused(rt.alloc(), *line)?);
    }
    Ok(())
}

#[test]
fn numbers_are_digits_alone(rt: HostRuntime) -> Result<(), Fail> {
    let lines: &[&[u8]] = &[
        b"again +1",
        b"again -1",
        b"again 0x1",
        b"again one",
        b"again 1a",
        b"deliver 1.0",
        b"crash e",
        b"crash v-1",
        b"feed x a",
    ];
    for line in lines {
        assert!(rt; is_refused(rt.alloc(), *line)?);
    }
    Ok(())
}

#[test]
fn other_words_are_refused(rt: HostRuntime) -> Result<(), Fail> {
    let lines: &[&[u8]] = &[
        b"frob 1",
        b"Again 1",
        b"agai 1",
        b"againn 1",
        b"lost e0",
        b"crash 0",
        b"crash c0",
        b"crash E0",
        b"finish e0",
        b"cut e0 1000",
        b"u 0",
        b"clients 1",
        b"again 1\r",
        b"settle 5 # and a comment",
        b"\0",
    ];
    for line in lines {
        assert!(rt; is_refused(rt.alloc(), *line)?);
    }
    Ok(())
}

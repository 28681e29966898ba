//! A schedule says which letters a verifier is given, and which it answers.

use std::test::Fail;

mod line;
mod play;
mod records;
mod refusals;
mod schedules;

#[test]
fn each_schedule_is_played(rt: HostRuntime) -> Result<(), Fail> {
    for (name, text) in schedules::ALL {
        assert_eq!(rt; play::first_wrong(rt.alloc(), text), None, "{name}");
    }
    Ok(())
}

/// Texts that are not as the verifier does, each with the first line that is wrong.
const WRONG: [(&str, usize); 6] = [
    ("u 0\nv0 opens\n  v0 > e0: ask place 1\n", 3),
    ("u 0\nv0 opens\nv0 suspects\n  v0 > v0: change view 2\n", 4),
    ("u 0\nv0 opens\nv0 suspects\nv0 opens\n", 4),
    ("u 0\nv0 opens\nv0 suspects\n", 3),
    ("u 0\nv0 opens\nv0 is up in view 1 knows 0\n", 3),
    ("u 0\nv0 opens\nv0 has 01 56\n", 3),
];

#[test]
fn a_wrong_line_is_found(rt: HostRuntime) -> Result<(), Fail> {
    for (text, line) in WRONG {
        assert_eq!(rt; play::first_wrong(rt.alloc(), text), Some(line), "{text}");
    }
    Ok(())
}

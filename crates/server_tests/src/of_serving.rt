//! What the service decides.

use housekeeping::{Patience, Seen, Urge};
use std::test::Fail;

/// How far a server has come, after so many rests and steps.
fn seen(rests: u32, steps: u64) -> Seen {
    Seen { rests, steps }
}

#[test]
fn who_waits_asks_again_at_the_next_rest_and_then_suspects(rt: HostRuntime) -> Result<(), Fail> {
    let mut patience = Patience::new(seen(7, 100));
    assert_eq!(rt; patience.tick(1, seen(7, 100)), Urge::Wait);
    assert_eq!(rt; patience.tick(1, seen(7, 123)), Urge::Wait);
    assert_eq!(rt; patience.tick(1, seen(8, 123)), Urge::Again);
    patience.ask_again(seen(8, 123));
    assert_eq!(rt; patience.tick(1, seen(8, 123)), Urge::Wait);
    assert_eq!(rt; patience.tick(1, seen(9, 123)), Urge::Suspect);
    patience.ask_again(seen(9, 123));
    assert_eq!(rt;
        patience.tick(1, seen(10, 123)),
        Urge::Wait,
        "a pause of one tick"
    );
    assert_eq!(rt; patience.tick(1, seen(10, 123)), Urge::Suspect);
    Ok(())
}

#[test]
fn who_is_left_behind_asks_again_and_does_not_suspect(rt: HostRuntime) -> Result<(), Fail> {
    let mut patience = Patience::new(seen(7, 100));
    assert_eq!(rt; patience.tick(1, seen(7, 124)), Urge::Again);
    patience.ask_again(seen(7, 124));
    assert_eq!(rt; patience.tick(1, seen(7, 147)), Urge::Wait);
    assert_eq!(rt; patience.tick(1, seen(7, 148)), Urge::Again);
    Ok(())
}

/// The ticks until the next suspicion, if nothing is ever under way.
fn ticks_to_suspicion(patience: &mut Patience) -> usize {
    for tick in 1..100usize {
        if patience.tick(0, seen(1, 0)) == Urge::Suspect {
            return tick;
        }
    }
    0
}

#[test]
fn the_pause_between_suspicions_doubles(rt: HostRuntime) -> Result<(), Fail> {
    let mut patience = Patience::new(seen(0, 0));
    patience.ask_again(seen(0, 0));
    for ticks in [1, 2, 3, 5, 9, 17, 17usize] {
        assert_eq!(rt; ticks_to_suspicion(&mut patience), ticks);
    }
    Ok(())
}

//! What a member of three observes, and at which ticks it suspects the leader. Ticks are counted from 1.

use std::alloc::{AllocError, Global};
use std::test::Fail;
use suspicion::{LEAST_PATIENCE, Observed, Suspicion};

/// What is observed for so many ticks. If decrees are obeyed, each tick brings one more.
#[derive(Clone, Copy)]
struct Part {
    ticks: u32,
    seen: Observed,
    obeys: bool,
}

struct Played {
    suspicion: Suspicion,
    tick: u32,
    found: Vec<u32>,
}

impl Drop for Played {
    fn drop(self) {
        let Played {
            suspicion: _,
            tick: _,
            found: _,
        } = self;
    }
}

/// The next in turn observes for so many ticks that something waits while this place is known.
fn waits(ticks: u32, known: u64) -> Part {
    waits_as(ticks, known, 1)
}

fn waits_as(ticks: u32, known: u64, rank: u8) -> Part {
    let seen = Observed {
        peers: 1,
        is_waiting: true,
        leader_away: None,
        known,
        rank,
    };
    Part {
        ticks,
        seen,
        obeys: false,
    }
}

/// The same for one tick, while the leader's member is away for so many.
fn misses(away: u32, rank: u8) -> Part {
    let mut part = waits_as(1, 0, rank);
    part.seen.leader_away = Some(away);
    part
}

/// Nothing waits for so many ticks.
fn rests(ticks: u32) -> Part {
    let mut part = waits(ticks, 0);
    part.seen.is_waiting = false;
    part
}

/// Decrees are obeyed for so many ticks, from behind this one on, while something waits.
fn obeys(ticks: u32, known: u64) -> Part {
    let mut part = waits(ticks, known);
    part.obeys = true;
    part
}

fn pass(played: &mut Played, part: Part) -> Result<(), AllocError> {
    let mut seen = part.seen;
    for _ in 0..part.ticks {
        if part.obeys {
            seen.known = seen.known.saturating_add(1);
        }
        played.tick = played.tick.saturating_add(1);
        if played.suspicion.tick(1, seen) {
            played.found.push(played.tick)?;
        }
    }
    Ok(())
}

fn play(alloc: Global, parts: &[Part]) -> Result<Played, AllocError> {
    let mut played = Played {
        suspicion: Suspicion::new(0),
        tick: 0,
        found: Vec::new(alloc),
    };
    for part in parts {
        pass(&mut played, *part)?;
    }
    Ok(played)
}

/// Whether it suspects the leader at just these ticks.
fn suspects(alloc: Global, parts: &[Part], ticks: &[u32]) -> Result<bool, AllocError> {
    let played = play(alloc, parts)?;
    Ok(played.found.as_slice() == ticks)
}

/// Nothing waits at the first tick, as far as is known. The patience is 5 ticks and 3 for the turn, then 10, 20, .. and
/// 160, and the 3.
#[test]
fn it_suspects_less_and_less_often(rt: HostRuntime) -> Result<(), Fail> {
    let alloc = rt.alloc();
    assert!(rt;
        suspects(
            alloc,
            &[waits(700, 0)],
            &[10, 24, 48, 92, 176, 340, 504, 668]
        ) == Ok(true)
    );
    assert!(rt; suspects(alloc, &[waits_as(30, 0, 2)], &[13, 30]) == Ok(true));
    Ok(())
}

/// The wait of 30 ticks before the decree counts four times.
#[test]
fn it_learns_how_long_a_decree_takes(rt: HostRuntime) -> Result<(), Fail> {
    let parts = [waits(30, 0), waits(200, 1)];
    assert!(rt; suspects(rt.alloc(), &parts, &[10, 24, 155]) == Ok(true));
    Ok(())
}

/// The patience after these parts.
fn patience_after(alloc: Global, parts: &[Part]) -> Result<u64, AllocError> {
    Ok(play(alloc, parts)?.suspicion.patience())
}

/// The wait of 30 ticks before the first decree is of the first period, which counts until the second one is over.
#[test]
fn it_forgets_how_long_a_decree_took(rt: HostRuntime) -> Result<(), Fail> {
    let last = patience_after(rt.alloc(), &[waits(30, 0), obeys(570, 0)])?;
    assert!(rt; last == 120);
    let next = patience_after(rt.alloc(), &[waits(30, 0), obeys(571, 0)])?;
    assert!(rt; next == LEAST_PATIENCE);
    Ok(())
}

/// The leader's member is away for more than two ticks for each turn. The second suspicion waits for the patience.
#[test]
fn it_misses_the_leader(rt: HostRuntime) -> Result<(), Fail> {
    let alloc = rt.alloc();
    let first = [misses(1, 1), misses(2, 1), misses(3, 1), misses(4, 1)];
    assert!(rt; suspects(alloc, &first, &[3]) == Ok(true));
    let second = [misses(3, 2), misses(4, 2), misses(5, 2), misses(6, 2)];
    assert!(rt; suspects(alloc, &second, &[3]) == Ok(true));
    Ok(())
}

#[test]
fn it_misses_the_leader_again(rt: HostRuntime) -> Result<(), Fail> {
    let mut part = misses(9, 1);
    part.ticks = 20;
    assert!(rt; suspects(rt.alloc(), &[part], &[1, 12]) == Ok(true));
    Ok(())
}

/// Nobody is suspected by a member that hears nobody, or where nothing waits for long.
#[test]
fn it_suspects_nobody(rt: HostRuntime) -> Result<(), Fail> {
    let alloc = rt.alloc();
    let mut alone = misses(100, 1);
    alone.ticks = 1000;
    alone.seen.peers = 0;
    assert!(rt; suspects(alloc, &[alone], &[]) == Ok(true));
    let parts = [waits(9, 0), rests(1), waits(9, 0), rests(100), waits(9, 0)];
    assert!(rt; suspects(alloc, &parts, &[]) == Ok(true));
    Ok(())
}

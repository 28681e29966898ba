//! What a history keeps.

use figures::Figures;
use status::{History, MOST_SAMPLES};
use std::alloc::Global;
use std::test::Fail;

/// The history of a server whose figures were looked at in each of these seconds.
fn history(alloc: Global, seconds: usize) -> History {
    let mut history = History::new(alloc);
    for second in 0..seconds {
        let mut figures = Figures::NONE;
        figures.uptime_seconds = second as u64;
        // A look that finds no memory leaves no sample.
        let _ = history.keep(&figures);
    }
    history
}

/// How many samples there are after so many seconds, and the seconds of the first and the last.
fn kept(alloc: Global, seconds: usize) -> Option<(usize, u64, u64)> {
    let history = history(alloc, seconds);
    let samples = history.samples();
    let first = samples.first()?;
    let last = samples.last()?;
    Some((samples.len(), first.uptime_seconds, last.uptime_seconds))
}

/// So many seconds, and what is kept after them, by what it shows.
const KEPT: [(&str, usize, Option<(usize, u64, u64)>); 7] = [
    ("a_sample_each_five_seconds", 0, None),
    ("a_sample_each_five_seconds", 1, Some((1, 0, 0))),
    ("a_sample_each_five_seconds", 5, Some((1, 0, 0))),
    ("a_sample_each_five_seconds", 6, Some((2, 0, 5))),
    ("the_last_ten_minutes", 600, Some((MOST_SAMPLES, 0, 595))),
    ("the_last_ten_minutes", 601, Some((MOST_SAMPLES, 5, 600))),
    (
        "the_last_ten_minutes",
        3600,
        Some((MOST_SAMPLES, 3000, 3595)),
    ),
];

#[test]
fn samples_are_kept_so(rt: HostRuntime) -> Result<(), Fail> {
    for (name, seconds, wanted) in &KEPT {
        assert!(rt; kept(rt.alloc(), *seconds) == *wanted, "{name}: {seconds}");
    }
    Ok(())
}

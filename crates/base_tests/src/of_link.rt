//! Links: what is put comes out once, in its order. `MOST_ITEMS` items wait for nobody, and one more waits.

use link::{Link, MOST_ITEMS};
use std::alloc::Global;
use std::sync::atomic::{AtomicBool, Ordering};
use std::sync::{Arc, Wait};
use std::test::Fail;
use std::thread;
use std::thread::Threads;
use std::time::{Clock, Duration};

/// Puts the numbers from 0 on, as many as a link holds: whether each went in.
fn fill<R: Wait>(rt: &R, link: &mut Link<u64>) -> bool {
    for item in 0..MOST_ITEMS as u64 {
        if link.put(rt, item).is_err() {
            return false;
        }
    }
    MOST_ITEMS == 4096
}

/// Takes 4,096 items: whether they are the numbers from this one on.
fn are_taken<R: Wait>(rt: &R, link: &mut Link<u64>, first: u64) -> bool {
    for place in 0..4096u64 {
        if link.take(rt) != Some(first.wrapping_add(place)) {
            return false;
        }
    }
    true
}

/// Whether one more comes back from a full link at once, until an item is taken.
fn comes_back<R: Wait>(rt: &R, link: &mut Link<u64>) -> bool {
    fill(rt, link)
        && link.try_put(rt, 4096) == Err(4096)
        && link.take(rt) == Some(0)
        && link.try_put(rt, 4096) == Ok(())
        && link.try_put(rt, 4097) == Err(4097)
}

#[test]
fn a_link_holds_4096_items(rt: HostRuntime) -> Result<(), Fail> {
    let mut link: Link<u64> = Link::new(rt.alloc())?;
    let is_put = link.another()?.put(&rt, 7).is_ok();
    assert!(rt; link.take(&rt) == Some(7) && is_put, "one put and one take");
    assert!(rt;
        fill(&rt, &mut link) && are_taken(&rt, &mut link, 0),
        "4096"
    );
    assert!(rt; comes_back(&rt, &mut link), "one more comes back at once");
    Ok(())
}

/// Waits a while, says so, and takes an item: whether it is number 0.
fn take_late<R: Wait + Clock>(rt: &R, mut link: Link<u64>, has_waited: Arc<AtomicBool>) -> bool {
    thread::sleep(rt, Duration::from_millis(100));
    has_waited.store(true, Ordering::SeqCst);
    link.take(rt) == Some(0)
}

/// Puts one more into a full link, whose other end takes late: whether the put waited for that.
fn waits<R: Threads + Wait + Clock + Clone + Send + Drop + 'static>(
    rt: &R,
    alloc: Global,
    link: &mut Link<u64>,
    other: Link<u64>,
) -> bool {
    let Ok(has_waited) = Arc::new(alloc, AtomicBool::new(false)) else {
        return false;
    };
    let Ok(seen) = Arc::try_clone(&has_waited) else {
        return false;
    };
    let Ok(runtime) = rt.clone() else {
        return false;
    };
    let Ok(taker) = thread::spawn(rt, move || take_late(&runtime, other, seen)) else {
        return false;
    };
    let was_put = link.put(rt, 4096).is_ok();
    let waited = has_waited.load(Ordering::SeqCst);
    taker.join(rt) && was_put && waited
}

#[test]
fn one_more_waits_for_a_take(rt: HostRuntime) -> Result<(), Fail> {
    let mut link: Link<u64> = Link::new(rt.alloc())?;
    let other = link.another()?;
    let is_full = fill(&rt, &mut link);
    let waited = waits(&rt, rt.alloc(), &mut link, other);
    assert!(rt; is_full && waited && are_taken(&rt, &mut link, 1));
    Ok(())
}

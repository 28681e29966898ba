//! Two writers of one group through `ExecNode::run`, each inside its page's lock until the other was
//! seen inside.

use crate::refused_runs::row;
use round::Gate;
use std::rt::Clock;
use std::sync::atomic::AtomicU64;
use std::sync::atomic::Ordering::SeqCst;
use std::test::Fail;
use std::thread;
use std::time::Duration;

/// Each step waits inside until another one came too, for ten seconds at most.
#[derive(Drop)]
struct Meets<'a, R: Clock> {
    rt: &'a R,
    came: AtomicU64,
    met: AtomicU64,
}

impl<R: Clock> Gate for Meets<'_, R> {
    fn inside(&self, _page: usize, _place: u32) {
        self.came.fetch_add(1, SeqCst);
        for _ in 0..100000u32 {
            if self.came.load(SeqCst) > 1 {
                self.met.fetch_add(1, SeqCst);
                return;
            }
            thread::sleep(self.rt, Duration::from_micros(100));
        }
    }

    fn outside(&self, _page: usize, _place: u32) {}
}

/// The batch sets `C` and `E`, which are on pages 67 and 69.
#[test]
fn two_writers_of_one_group_are_inside_at_once(rt: HostRuntime) -> Result<(), Fail> {
    let gate = Meets {
        rt: &rt,
        came: AtomicU64::new(0),
        met: AtomicU64::new(0),
    };
    let row = row(&rt, rt.alloc(), &gate);
    assert!(rt; (row, gate.met.load(SeqCst)) == (Ok(()), 2));
    Ok(())
}

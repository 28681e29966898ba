//! Gates that look at the steps of a round.

use round::Gate;
use std::rt::Clock;
use std::sync::atomic::AtomicU64;
use std::sync::atomic::Ordering::SeqCst;
use std::sync::{Mutex, Wait};
use std::thread;
use std::time::Duration;

/// Notes the places in the order in which their steps were inside.
#[derive(Drop)]
pub struct Order<'a, R: Wait> {
    pub rt: &'a R,
    pub places: Mutex<Vec<u32>>,
}

impl<R: Wait> Gate for Order<'_, R> {
    fn inside(&self, _page: usize, place: u32) {
        let _ = self.places.lock(self.rt).push(place);
    }

    fn outside(&self, _page: usize, _place: u32) {}
}

/// Where each step waits for another one, and how long.
#[derive(Clone, Copy)]
pub enum Waits {
    /// Inside its page's lock, for ten seconds at most.
    Inside,
    /// After its page's lock was given back, for ten seconds at most.
    Outside,
    /// Inside its page's lock, for a fifth of a second at most. It leaves then.
    InsideShortly,
}

/// Counts the steps that met another one while they waited.
#[derive(Drop)]
pub struct Meeting<'a, R: Clock> {
    rt: &'a R,
    waits: Waits,
    came: AtomicU64,
    met: AtomicU64,
}

impl<'a, R: Clock> Meeting<'a, R> {
    pub fn new(rt: &'a R, waits: Waits) -> Meeting<'a, R> {
        Meeting {
            rt,
            waits,
            came: AtomicU64::new(0),
            met: AtomicU64::new(0),
        }
    }

    /// How many steps saw another one.
    pub fn met(&self) -> u64 {
        self.met.load(SeqCst)
    }

    /// Waits for another one, for so many times 100 microseconds at most.
    fn wait(&self, times: u32) {
        self.came.fetch_add(1, SeqCst);
        for _ in 0..times {
            if self.came.load(SeqCst) > 1 {
                self.met.fetch_add(1, SeqCst);
                return;
            }
            thread::sleep(self.rt, Duration::from_micros(100));
        }
    }
}

impl<R: Clock> Gate for Meeting<'_, R> {
    fn inside(&self, _page: usize, _place: u32) {
        match self.waits {
            Waits::Inside => self.wait(100_000),
            Waits::Outside => {}
            Waits::InsideShortly => {
                self.wait(2000);
                self.came.fetch_sub(1, SeqCst);
            }
        }
    }

    fn outside(&self, _page: usize, _place: u32) {
        match self.waits {
            Waits::Outside => self.wait(100_000),
            _ => {}
        }
    }
}

/// Counts what it sees, and what of it is wrong: that a step is on another page than that of its
/// place, or outside before it was inside.
///
/// The requests at the places 0 to 15 are on the pages from 48 on, that at place 16 on page 97.
pub struct Counts {
    inside: AtomicU64,
    outside: AtomicU64,
    wrong: AtomicU64,
}

impl Drop for Counts {
    fn drop(self) {
        let Counts {
            inside: _,
            outside: _,
            wrong: _,
        } = self;
    }
}

/// Whether the request at the place is on the page.
fn is_on(page: usize, place: u32) -> bool {
    match place {
        0..=15 => page == 48 + place as usize,
        16 => page == 97,
        _ => false,
    }
}

impl Counts {
    pub fn new() -> Counts {
        Counts {
            inside: AtomicU64::new(0),
            outside: AtomicU64::new(0),
            wrong: AtomicU64::new(0),
        }
    }

    /// How many steps were inside, how many outside, and how much was wrong.
    pub fn counts(&self) -> (u64, u64, u64) {
        (
            self.inside.load(SeqCst),
            self.outside.load(SeqCst),
            self.wrong.load(SeqCst),
        )
    }
}

impl Gate for Counts {
    fn inside(&self, page: usize, place: u32) {
        self.inside.fetch_add(1, SeqCst);
        self.wrong.fetch_add(u64::from(!is_on(page, place)), SeqCst);
    }

    fn outside(&self, page: usize, place: u32) {
        let earlier = self.outside.fetch_add(1, SeqCst);
        let is_right = is_on(page, place) && earlier < self.inside.load(SeqCst);
        self.wrong.fetch_add(u64::from(!is_right), SeqCst);
    }
}

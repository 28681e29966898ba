//! The thread of the event loop.

ghost use Rattle.std.specs.Prelude.{ℕ, ◌≡◌, ◌⊎◌, ◌<◌, ◌+◌, ◌-◌, ◌^◌, []};
ghost use Rattle.std.specs.declared.alloc.Global.{Global};
ghost use Rattle.std.specs.declared.vec.Vec.{Vec};
ghost use Rattle.link.specs.Lines.{IsPutIn};
ghost use Rattle.loop_messages.specs.declared.message.Heard as message;
ghost use Rattle.event_loop.specs.declared.message.ToService.TheVariants.{Heard};

use crate::counts::Shared;
use crate::event_loop::{EventLoop, Ready};
use crate::message::{FromService, ToService};
use crate::moments::Moments;
use crate::service::Serve;
use crate::service_thread::MOST_TAKEN;
use link::Link;
use std::io;
use std::rt::Clock;
use std::sync::{Mutex, Wait};
use std::thread::Threads;
use std::time::{Duration, Instant};

/// How long a tick is, in milliseconds.
const TICK: u64 = 100;

/// If no more than so much happened in a pass and the service is idle, the event loop's thread answers
/// itself: to wake the other thread takes longer.
const MOST_IN_PLACE: usize = 2;

/// The event loop's ends of the links to the service.
pub struct LoopEnds {
    to_service: Link<ToService>,
    from_service: Link<FromService>,
    moments: Moments,
    /// So many messages are not done with. No more are put while they are `MOST_TAKEN`, so the links never fill up.
    unanswered: usize,
    /// Whether the service wants ticks.
    is_waiting: bool,
    /// Other threads see the counts of the last pass.
    is_shown: bool,
}

impl Drop for LoopEnds {
    fn drop(self) {
        let LoopEnds {
            to_service: _,
            from_service: _,
            moments: _,
            unanswered: _,
            is_waiting: _,
            is_shown: _,
        } = self;
    }
}

impl LoopEnds {
    /// No message is under way.
    pub fn new(
        to_service: Link<ToService>,
        from_service: Link<FromService>,
        moments: Moments,
    ) -> LoopEnds {
        LoopEnds {
            to_service,
            from_service,
            moments,
            unanswered: 0,
            is_waiting: false,
            is_shown: true,
        }
    }

    /// Whether one more message may be put.
    fn has_room(&self) -> bool {
        self.unanswered < MOST_TAKEN
    }

    /// Puts the message. It is lost only if the service's thread is gone.
    fn put<R: Wait>(&mut self, rt: &R, message: ToService)
        ensures put { IsPutIn self.old.to_service message self.new.to_service ⊎ (self.new.to_service ≡ self.old.to_service) }
        ensures counted { self.old.unanswered < 2 ^ 64 - 1 → self.new.unanswered ≡ self.old.unanswered + 1 }
    {
        self.unanswered = self.unanswered.saturating_add(1);
        let _ = self.to_service.put(rt, message);
    }

    /// Puts all that was heard.
    fn hand_on<R: Wait + Clock>(&mut self, rt: &R, event_loop: &mut EventLoop)
        ensures put { (heard : Vec message.Heard Global) × (moment : ℕ) × (heard.items ≡ event_loop.old.heard.items) × (IsPutIn self.old.to_service (Heard heard moment) self.new.to_service ⊎ (self.new.to_service ≡ self.old.to_service)) }
        ensures none { event_loop.new.heard.items ≡ [] }
    {
        let heard = event_loop.take_heard();
        let micros = self.moments.micros(rt);
        self.put(rt, ToService::Heard { heard, micros });
    }

    /// Hands on all that the service has said.
    fn take_all<R: Wait>(&mut self, rt: &R, event_loop: &mut EventLoop) {
        for _ in rt.forever() {
            let Some(message) = self.from_service.try_take(rt) else {
                return;
            };
            self.unanswered = self.unanswered.saturating_sub(message.answered);
            self.is_waiting = message.is_waiting;
            event_loop.give(message.said);
        }
    }
}

/// The clock of the ticks.
#[derive(Clone, Copy)]
struct Ticks {
    /// When the last tick was.
    last: Option<Instant>,
}

impl Ticks {
    /// Whether a tick is due now. It is counted as made.
    fn is_due<R: Clock>(&mut self, rt: &R) -> bool {
        let Ok(now) = Instant::now(rt) else {
            return false;
        };
        let is_due = match self.last {
            Some(last) => Duration::from_millis(TICK) <= now.saturating_duration_since(last),
            None => true,
        };
        if is_due {
            self.last = Some(now);
        }
        is_due
    }
}

/// How long to wait for sockets, or none if there is no limit.
fn limit(event_loop: &EventLoop, ends: &LoopEnds) -> Option<Duration> {
    if event_loop.has_more(ends.has_room()) {
        Some(Duration::from_millis(0))
    } else if ends.is_waiting || event_loop.is_stuck() || !ends.is_shown {
        Some(Duration::from_millis(TICK))
    } else {
        None
    }
}

/// Tells of a tick whom it concerns, if it is due.
fn tick<R: Wait + Clock>(
    rt: &R,
    event_loop: &mut EventLoop,
    ends: &mut LoopEnds,
    ticks: &mut Ticks,
) {
    if (ends.is_waiting || event_loop.is_stuck()) && ticks.is_due(rt) {
        event_loop.tick();
        if ends.is_waiting && ends.has_room() {
            ends.put(rt, ToService::Tick);
        }
    }
}

/// Visits the sockets, and counts the times of what was answered in full by that.
fn visit<R: Clock>(rt: &R, event_loop: &mut EventLoop, moments: Moments, reads: bool) {
    event_loop.visit(moments.micros(rt), reads);
    if event_loop.has_answered() {
        event_loop.count_times(moments.micros(rt));
    }
}

/// Lets the service answer here what happened, if that is little and the service is idle. Whether it did.
fn answer_in_place<R: Threads + Wait + Sync + Clock, S: Serve>(
    rt: &R,
    service: &Mutex<S>,
    event_loop: &mut EventLoop,
    ends: &mut LoopEnds,
) -> bool {
    if ends.unanswered != 0 || MOST_IN_PLACE < event_loop.heard_count() {
        return false;
    }
    let Some(mut guard) = service.try_lock() else {
        return false;
    };
    // What the service said before goes first.
    ends.take_all(rt, event_loop);
    let service = &mut *guard;
    service.set_micros(ends.moments.micros(rt));
    service.hear(event_loop.take_heard());
    let said = service.work(rt, rt, ends.moments.seconds(rt));
    service.set_micros(ends.moments.micros(rt));
    ends.is_waiting = service.is_waiting();
    let has_work = service.has_work();
    drop(guard);
    event_loop.give(said);
    visit(rt, event_loop, ends.moments, false);
    if has_work {
        ends.hand_on(rt, event_loop);
    }
    true
}

/// One pass: waits, visits each socket that is ready, and has answered what happened.
fn pass<R: Threads + Wait + Sync + Clock, S: Serve>(
    rt: &R,
    service: &Mutex<S>,
    event_loop: &mut EventLoop,
    ready: &mut Ready,
    ends: &mut LoopEnds,
) -> io::Result<()> {
    event_loop.wait(ready, limit(event_loop, ends))?;
    if event_loop.closes_idle() {
        event_loop.end_idle(ends.moments.micros(rt));
    }
    ends.take_all(rt, event_loop);
    let reads = ends.has_room();
    // Sockets that are over make room for those that wait to be accepted.
    visit(rt, event_loop, ends.moments, reads);
    if reads {
        event_loop.accept(ends.moments.micros(rt));
    }
    if reads && 0 < event_loop.heard_count() && !answer_in_place(rt, service, event_loop, ends) {
        ends.hand_on(rt, event_loop);
    }
    Ok(())
}

/// What the event loop's thread has.
#[derive(Drop)]
pub struct LoopSide {
    pub event_loop: EventLoop,
    pub ready: Ready,
    pub ends: LoopEnds,
}

/// The loop of the event loop's thread, until it is to stop or the system refuses to wait on the
/// sockets. Then the service is stopped.
pub fn run_loop<R: Threads + Wait + Sync + Clock, S: Serve>(
    rt: &R,
    service: &Mutex<S>,
    side: &mut LoopSide,
    shared: &Shared,
) {
    let LoopSide {
        event_loop,
        ready,
        ends,
    } = side;
    let mut ticks = Ticks { last: None };
    for _ in rt.forever() {
        if shared.is_stopping() || pass(rt, service, event_loop, ready, ends).is_err() {
            break;
        }
        ends.is_shown = event_loop.publish(shared);
        tick(rt, event_loop, ends, &mut ticks);
    }
    shared.end();
    ends.put(rt, ToService::Stop);
}

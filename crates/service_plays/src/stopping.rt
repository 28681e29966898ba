//! Replicas stop, until ticks open them again.

use crate::play::Stage;
use service::Replica;
use std::alloc::Global;
use std::rt::Clock;
use std::sync::Wait;
use std::thread::Threads;

/// Replicas stop after so many calls, in the mean. The pause before one is opened again doubles each time.
pub const CALLS_TO_STOP: u32 = 60;

/// So often clients act and replicas work while too few are up.
const CALLS_WITHOUT_ANSWER: usize = 6;

/// The executor of this number, or the verifier.
fn replica_of(is_executor: bool, id: u32) -> Replica {
    let id = u8::try_from(id).unwrap_or(0);
    if is_executor {
        Replica::Executor(id)
    } else {
        Replica::Verifier(id)
    }
}

impl Stage {
    /// How many executors there are, and as many verifiers.
    fn members(&self) -> u32 {
        2 * u32::from(self.plan.u) + 1
    }

    /// A replica stops. It is waited for then.
    fn stop_one(&mut self) {
        let is_executor = self.words.one_in(2);
        let members = self.members();
        let id = self.words.below(members);
        self.service.stop(replica_of(is_executor, id));
        if !self.service.is_waiting() {
            self.judge.refuse();
        }
    }

    /// More than `u` executors stop, or more than `u` verifiers.
    fn stop_many(&mut self) {
        let is_executor = self.words.one_in(2);
        let members = self.members();
        let first = self.words.below(members);
        let few = u32::from(self.plan.u) + 1;
        let more = self.words.below(few);
        let count = few.saturating_add(more).min(members);
        for index in 0..count {
            let id = first.saturating_add(index) % members;
            self.service.stop(replica_of(is_executor, id));
        }
    }

    /// Too few replicas are up, and nothing is under way: no client is answered, whatever it asks. It may be if the service
    /// was refused a growth of memory meanwhile.
    fn wait_without_answer<R: Threads + Wait + Sync + Clock>(
        &mut self,
        threads: &R,
        alloc: Global,
        refused: u64,
    ) {
        for _ in 0..CALLS_WITHOUT_ANSWER {
            self.act(alloc);
            let replies = self.judge.replies;
            self.work(threads, alloc);
            if self.judge.replies != replies && self.service.refused() == refused {
                self.judge.refuse();
            }
        }
    }

    /// A replica stops, or too many.
    pub fn stop<R: Threads + Wait + Sync + Clock>(&mut self, threads: &R, alloc: Global) {
        if !self.words.one_in(4) {
            self.stop_one();
            return;
        }
        let refused = self.service.refused();
        self.stop_many();
        self.work(threads, alloc);
        self.wait_without_answer(threads, alloc, refused);
    }
}

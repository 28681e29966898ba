//! Work that is run whole, on threads.

ghost use Rattle.std.specs.Prelude.{◌≡◌, ◌<◌, None, Some, IfOk, IfSome, IsOk, IsTrue, MatchOption, length, true};
ghost use Rattle.executor.specs.GroupRun.{IsUntouched};
ghost use Rattle.executor.specs.Work.{IsWork};
ghost use Rattle.rollback.specs.declared.chain.TheConstants.{MOST_MEMBERS};
ghost use Rattle.exec_lines.specs.State.{is_tip};
ghost use Rattle.exec_lines.specs.Job.{job_of, RunsJob};

use crate::outcome::Outcome;
use crate::state::State;
use batches::Batch;
use executor::{Base, Work};
use round::Gate;
use std::alloc::{AllocError, Global};
use std::mem;
use std::sync::Wait;
use std::thread::Threads;
use workers::Workers;

/// A batch that was begun, and of which no step was made: its base, and whether it runs in batch
/// order.
#[derive(Clone, Copy)]
pub struct Job<'a> {
    pub base: &'a Base,
    pub batch: &'a Batch,
    pub ordered: bool,
}

impl State {
    ghost use Rattle.exec_lines.specs.State.{executor_left};
    /// The work, if no step of it was made. It takes no memory.
    pub fn job(&self) -> Option<Job>
        ensures { MatchOption result (job_of self.now.work ≡ None)
            (λ job. job_of self.now.work ≡ Some (record { base = job.base.now.state; batch = job.batch.now; ordered = job.ordered })) }
    {
        match &self.work {
            Some(work) if work.is_untouched() => Some(Job {
                base: work.base(),
                batch: work.batch(),
                ordered: work.is_ordered(),
            }),
            _ => None,
        }
    }

    /// What is always true of its work, if there is any. The call does nothing.
    pub fn works(&self)
        ensures { IfSome self.now.work IsWork }
    {
        if let Some(work) = &self.work {
            work.always();
        }
    }

    /// Runs the work over the tip to its end, on at most so many threads, and completes with what it
    /// makes.
    fn run_work<R: Threads + Wait + Sync, G: Gate + Sync>(
        &mut self,
        rt: &R,
        alloc: Global,
        u: u8,
        id: u8,
        work: Work,
        workers: Workers,
        gate: &G,
    ) -> Result<Outcome, AllocError>
        requires few { u < 4 }
        requires room { length self.old.chain.members < MOST_MEMBERS }
        requires over { IsTrue (is_tip self.old.chain work.base) }
        requires untouched { IsUntouched work.progress }
        ensures { IfOk result (λ outcome. RunsJob u id self.old (Some (record { base = work.base; batch = work.batch; ordered = work.ordered }))
            (executor_left self.new outcome)) }
    {
        let tentative = work.run_on_threads(rt, alloc, workers, gate)?;
        let outcome = self.complete(u, id, Vec::new(alloc), tentative)?;
        Ok(outcome)
    }

    /// Runs the job, if there is one, on at most so many threads at once, and completes with what it
    /// makes: that is what some steps and ends of groups make of it. Without a job nothing changes. The
    /// gate sees each step.
    pub fn run<R: Threads + Wait + Sync, G: Gate + Sync>(
        &mut self,
        rt: &R,
        alloc: Global,
        u: u8,
        id: u8,
        workers: Workers,
        gate: &G,
    ) -> Result<Outcome, AllocError>
        requires { u < 4 }
        ensures ran { IfOk result (λ outcome. RunsJob u id self.old (job_of self.old.work) (executor_left self.new outcome)) }
        ensures none { job_of self.old.work ≡ None → IsOk result }
    {
        match mem::replace(&mut self.work, None) {
            Some(work) if work.is_untouched() => {
                let outcome = self.run_work(rt, alloc, u, id, work, workers, gate)?;
                Ok(outcome)
            }
            other => {
                self.work = other;
                Ok(Outcome::nothing(alloc))
            }
        }
    }
}

//! Jobs of executors.

ghost use Rattle.std.specs.Prelude.{◌<◌};
ghost use Rattle.ensemble.specs.Nodes.{AllRan};

use crate::nodes::Nodes;
use hosts::ExecutorHost;
use std::alloc::Global;
use std::sync::Wait;
use std::thread;
use std::thread::Threads;
use workers::Workers;

/// To start a thread for a batch of fewer requests costs more than it spares.
const LEAST_REQUESTS: usize = 16;

/// How many threads make the digests of a batch at once, if one executor runs alone.
const MOST_DIGESTERS: usize = 4;

/// How many threads work on one executor's batch. An executor that is alone has them for digests; several
/// share the processors.
fn workers_of(u: u8) -> Workers {
    let one = Workers::new(1);
    let workers = if u == 0 {
        one.and_then(|one| one.with_digests(MOST_DIGESTERS))
    } else {
        one
    };
    let Some(workers) = workers else {
        // 1 and 4 are between 1 and 16.
        unreachable!()
    };
    workers
}

/// Whether the host has a job whose batch is worth a thread.
fn is_worth(host: &ExecutorHost) -> bool {
    match host.job_len() {
        Some(len) => LEAST_REQUESTS <= len,
        None => false,
    }
}

/// Each executor that has a job runs it, so many at once.
fn run_each<R: Threads + Wait + Sync>(
    rt: &R,
    alloc: Global,
    executors: &mut [ExecutorHost],
    workers: Workers,
    threads: usize,
)
    requires { 0 < threads }
    ensures { AllRan executors.old executors.new }
{
    thread::for_each_mut(
        rt,
        executors,
        threads,
        &|_, host| { host.run(rt, alloc, workers) },
    );
}

impl Nodes {
    ghost use Rattle.std.specs.Prelude.{◌≡◌, ◌≤◌};
    ghost use Rattle.std.specs.List.{list_any};
    ghost use Rattle.hosts.specs.Orders.{has_due};
    ghost use Rattle.ensemble.specs.Nodes.{RunsAll};
    ghost use Rattle.ensemble.specs.Shown.{has_job};

    /// Whether an executor has a job.
    pub fn has_jobs(&self) -> bool
        ensures { result ≡ list_any has_job self.now.executors }
    {
        self.executors.iter().any(|host| host.job_len().is_some())
    }

    /// Whether a host holds an order that its executor could obey now.
    pub fn has_due(&self) -> bool
        ensures { result ≡ list_any has_due self.now.executors }
    {
        self.executors.iter().any(|host| host.has_due())
    }

    /// How many threads are worth starting for the jobs that there are.
    fn threads(&self) -> usize
        ensures { 1 ≤ result }
    {
        let large = self.executors.iter().filter(|host| is_worth(host)).count();
        large.max(1)
    }

    /// Each executor that has a job runs it; each has a thread of its own if that is worth it. What they send
    /// is collected by `collect`.
    pub fn run_jobs<R: Threads + Wait + Sync>(&mut self, rt: &R, alloc: Global)
        ensures { RunsAll self.old self.new }
    {
        let threads = self.threads();
        let workers = workers_of(self.u);
        run_each(rt, alloc, self.executors.as_mut_slice(), workers, threads);
    }
}

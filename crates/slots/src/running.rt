//! A job that is run in an executor's slot.

ghost use Rattle.std.specs.Prelude.{◌≡◌, IfSome, IfNone, OnSome, IsTrue};
ghost use Rattle.slots.specs.Slots.{executor_kept};
ghost use Rattle.slots.specs.Runs.{ExecutorRan, ExecutorRuns, RunStops, RunIsSteps};

use crate::executor_slot::KeptExecutor;
use crate::node_slot::NodeSlot;
use crate::slot::Slot;
use crate::slots::crash;
use decrees::Letter;
use exec_lines::Body;
use exec_node::a_run_is_played;
use round::NoGate;
use std::alloc::Global;
use std::sync::Wait;
use std::thread::Threads;
use workers::Workers;

/// Runs the job, if there is one, and gives its letters. None: it stopped.
fn ran<R: Threads + Wait + Sync>(
    node: &mut KeptExecutor,
    rt: &R,
    alloc: Global,
    workers: Workers,
) -> Option<Vec<Letter<Body>>>
    requires { IsTrue node.old.up }
    ensures ran { IfSome result (λ letters. ExecutorRan node.old node.new letters.items) }
    ensures up { OnSome result (IsTrue node.new.up) }
    ensures stops { IfNone result (RunStops node.old (executor_kept node.new)) }
{
    // Both are for the proof alone: if the run stops, some of its work was left (`RunStops`).
    node.state().works();
    let _next = node.state().next_work();
    match node.run(rt, alloc, workers, &NoGate) {
        Ok(letters) => Some(letters),
        Err(_) => None,
    }
}

impl NodeSlot<KeptExecutor> {
    /// Runs its job, if it is up and has one, on at most so many threads at once; the result is what it
    /// sends. If that meets an error it stops, and is down with its record; then nothing is sent.
    #[tactic(auto, using(crate::proofs::RunLemmas::executor_runs, crate::proofs::RunLemmas::run_stops))]
    pub fn run<R: Threads + Wait + Sync>(
        &mut self,
        rt: &R,
        alloc: Global,
        workers: Workers,
    ) -> Vec<Letter<Body>>
        ensures { ExecutorRuns self.old self.new result.items }
    {
        match &mut self.slot {
            Slot::Up(node) => match ran(node, rt, alloc, workers) {
                Some(letters) => letters,
                None => {
                    crash(&mut self.slot);
                    Vec::new(alloc)
                }
            },
            Slot::Down(_) => Vec::new(alloc),
            Slot::Gone(_) => Vec::new(alloc),
        }
    }
}

/// What a run of a job leaves is what some steps and ends of groups leave, so it is what some events of a
/// world lead to. The function does nothing: what it says is its contract.
pub fn a_run_is_steps()
    ensures { RunIsSteps }
{
    a_run_is_played();
}

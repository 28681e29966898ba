//! What is kept of an ensemble when its process ends, and the ensemble of a process that begins with it.

ghost use Rattle.std.specs.Prelude.{◌≡◌, map, IfOk};
ghost use Rattle.ensemble.specs.Kept.{kept_of_host, kept_of_verifier};

use crate::ensemble::Ensemble;
use crate::nodes::Nodes;
use crate::process_record::ProcessRecord;
use crate::progress::Progress;
use crate::times::Stopwatch;
use base::Text;
use exec_lines::ExecutorRecord;
use ghost_log::GhostLog;
use hosts::ExecutorHost;
use keeper::MemKeeper;
use proto::Fault;
use proxies::Proxy;
use slots::VerifierSlot;
use std::alloc::{AllocError, Global};

/// These proxies once more.
fn copied(alloc: Global, proxies: &[Proxy]) -> Result<Vec<Proxy>, AllocError>
    ensures { IfOk result (λ copies. copies.items ≡ proxies.now) }
{
    let mut copies = Vec::with_capacity(alloc, proxies.len())?;
    for proxy in proxies {
        copies.push(proxy.copy()?)?;
    }
    Ok(copies)
}

/// What is kept of each of these executors.
fn kept_executors(
    alloc: Global,
    executors: &[ExecutorHost],
) -> Result<Vec<MemKeeper<ExecutorRecord>>, AllocError>
    ensures { IfOk result (λ kept. kept.items ≡ map kept_of_host executors.now) }
{
    let mut kept = Vec::with_capacity(alloc, executors.len())?;
    for host in executors {
        kept.push(host.kept()?)?;
    }
    Ok(kept)
}

/// What is kept of each of these verifiers.
fn kept_verifiers(
    alloc: Global,
    verifiers: &[VerifierSlot],
) -> Result<Vec<MemKeeper<Text>>, AllocError>
    ensures { IfOk result (λ kept. kept.items ≡ map kept_of_verifier verifiers.now) }
{
    let mut kept = Vec::with_capacity(alloc, verifiers.len())?;
    for slot in verifiers {
        kept.push(slot.kept()?)?;
    }
    Ok(kept)
}

impl Nodes {
    ghost use Rattle.std.specs.Prelude.{◌≡◌, Some, IfOk};
    ghost use Rattle.std.specs.List.{list_any};
    ghost use Rattle.slots.specs.Status.{is_gone};
    ghost use Rattle.ensemble.specs.Kept.{process_of};

    /// Whether an executor is lost for good.
    fn has_lost_executor(&self) -> bool
        ensures { result ≡ list_any (λ h. is_gone (Some h.slot)) self.now.executors }
    {
        self.executors.iter().any(|host| host.is_lost())
    }

    /// Whether a verifier is lost for good.
    fn has_lost_verifier(&self) -> bool
        ensures { result ≡ list_any (λ v. is_gone (Some v)) self.now.verifiers }
    {
        self.verifiers.iter().any(|slot| slot.is_lost())
    }

    /// What is kept if the process ends now.
    fn record(&self, alloc: Global) -> Result<ProcessRecord, AllocError>
        ensures { IfOk result (λ process. process ≡ process_of self.now) }
    {
        let proxies = copied(alloc, self.proxies.as_slice())?;
        let executors = kept_executors(alloc, self.executors.as_slice())?;
        let verifiers = kept_verifiers(alloc, self.verifiers.as_slice())?;
        Ok(ProcessRecord::of(self.u, proxies, executors, verifiers))
    }
}

impl Ensemble {
    ghost use Rattle.std.specs.Prelude.{◌≡◌, ◌⊎◌, IfOk, IfErr};
    ghost use Rattle.ensemble.specs.Calls.{AllCollected};
    ghost use Rattle.ensemble.specs.Kept.{process_of, NoneIsLost};
    ghost use Rattle.ensemble.specs.Process.{reopened_ensemble};

    /// What is kept of the process at this moment: what the keeper of each replica has, and what each proxy asked last.
    /// It shares the replicas' records. A process that begins with it (`reopen`) goes on from this moment, as if all
    /// replicas had crashed.
    ///
    /// Stopped: a replica is lost for good, which is the work of no call of an ensemble; NoMemory: an allocation failed.
    pub fn record(&self, alloc: Global) -> Result<ProcessRecord, Fault>
        ensures record { IfOk result (λ process. process ≡ process_of self.now.nodes) }
        ensures none { IfOk result (λ _. NoneIsLost self.now.nodes) }
        ensures only { IfErr result (λ fault. (fault ≡ Fault.NoMemory) ⊎ (fault ≡ Fault.Stopped)) }
    {
        if self.nodes.has_lost_executor() || self.nodes.has_lost_verifier() {
            return Err(Fault::Stopped);
        }
        Ok(self.nodes.record(alloc)?)
    }

    /// The ensemble of a process that begins with this: all replicas are down, each with what was kept of it, no letter
    /// is under way, and the proxies have outstanding what they had. `restart` opens a replica. No verifier leads then,
    /// so nothing is answered until one is told to (`suspect`). `again` sends what a proxy has outstanding.
    ///
    /// NoMemory, the only error: there is no memory for it.
    pub fn reopen(alloc: Global, found: ProcessRecord) -> Result<Ensemble, Fault>
        ensures reopened { IfOk result (λ ensemble. ensemble ≡ reopened_ensemble found) }
        ensures waits { IfOk result (λ ensemble. AllCollected ensemble.nodes) }
        ensures only { IfErr result (λ fault. fault ≡ Fault.NoMemory) }
    {
        let progress = Progress::new(alloc, 2 * found.u + 1)?;
        let log = GhostLog::new().and(&found, &true);
        let nodes = found.begun(alloc)?;
        Ok(Ensemble {
            nodes,
            progress,
            stopwatch: Stopwatch::NEW,
            asked: GhostLog::new(),
            answered: GhostLog::new(),
            order: GhostLog::new(),
            found: log,
            refused: 0,
        })
    }
}

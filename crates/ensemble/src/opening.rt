//! The ensemble before the first request.

ghost use Rattle.std.specs.Prelude.{◌≡◌, ◌<◌, ◌≤◌, ◌*◌, ◌+◌, IfOk, [], None};
ghost use Rattle.slots.specs.declared.slot.Slot.TheVariants.{Up};
ghost use Rattle.worlds.specs.First.{first_verifier, all_up};
ghost use Rattle.ensemble.specs.First.{first_proxies_of, first_hosts, first_host, first_nodes};

use crate::ensemble::Ensemble;
use crate::nodes::{Nodes, end_executors};
use crate::progress::Progress;
use crate::times::Stopwatch;
use events::Config;
use ghost_log::GhostLog;
use hosts::ExecutorHost;
use proto::Fault;
use proxies::Proxy;
use slots::VerifierSlot;
use std::alloc::{AllocError, Global};
use std::collections::VecDeque;

/// So many proxies that have asked nothing.
pub fn first_proxies(alloc: Global, count: u16) -> Result<Vec<Proxy>, AllocError>
    ensures { IfOk result (λ proxies. proxies.items ≡ first_proxies_of count) }
{
    let mut proxies = Vec::new(alloc);
    for i in 0..count {
        proxies.push(Proxy::new(i + 1))?;
    }
    Ok(proxies)
}

/// A verifier that is opened for the first time. It sends nothing.
fn opened_verifier(alloc: Global, u: u8, id: u8) -> Result<VerifierSlot, AllocError>
    requires few { u < 4 }
    requires member { id ≤ 2 * u }
    ensures { IfOk result (λ slot. slot ≡ Up (first_verifier u id)) }
{
    let mut slot = VerifierSlot::unopened();
    slot.restart(alloc, u, id);
    if slot.node().is_some() {
        Ok(slot)
    } else {
        Err(AllocError)
    }
}

/// The verifiers below this number alike.
fn opened_verifiers(alloc: Global, u: u8, count: u8) -> Result<Vec<VerifierSlot>, AllocError>
    requires few { u < 4 }
    requires members { count ≤ 2 * u + 1 }
    ensures { IfOk result (λ slots. slots.items ≡ all_up (first_verifier u) count) }
{
    let mut slots = Vec::new(alloc);
    for id in 0..count {
        slots.push(opened_verifier(alloc, u, id)?)?;
    }
    Ok(slots)
}

/// An executor that is opened for the first time. It sends nothing.
fn opened_executor(alloc: Global, u: u8, id: u8) -> Result<ExecutorHost, AllocError>
    requires few { u < 4 }
    requires member { id ≤ 2 * u }
    ensures { IfOk result (λ host. host ≡ first_host u id) }
{
    let mut host = ExecutorHost::unopened(alloc);
    host.open(alloc, u, id);
    if host.is_up() {
        return Ok(host);
    }
    host.end();
    Err(AllocError)
}

/// The executors below this number alike. Room is taken first, since they cannot be dropped.
fn opened_executors(alloc: Global, u: u8, count: u8) -> Result<Vec<ExecutorHost>, AllocError>
    requires few { u < 4 }
    requires members { count ≤ 2 * u + 1 }
    ensures { IfOk result (λ hosts. hosts.items ≡ first_hosts u count) }
{
    let mut hosts = Vec::with_capacity(alloc, usize::from(count))?;
    for id in 0..count {
        match opened_executor(alloc, u, id) {
            Ok(host) => hosts.push_reserved(host),
            Err(error) => {
                end_executors(hosts);
                return Err(error);
            }
        }
    }
    Ok(hosts)
}

/// All nodes, with no letter under way.
fn opened_nodes(alloc: Global, config: &Config) -> Result<Nodes, AllocError>
    ensures { IfOk result (λ nodes. nodes ≡ first_nodes config.now) }
{
    let u = config.u();
    let proxies = first_proxies(alloc, config.clients())?;
    let verifiers = opened_verifiers(alloc, u, 2 * u + 1)?;
    let executors = opened_executors(alloc, u, 2 * u + 1)?;
    Ok(Nodes {
        u,
        proxies,
        executors,
        verifiers,
        mail: VecDeque::new(alloc),
    })
}

impl Ensemble {
    ghost use Rattle.std.specs.Prelude.{◌≡◌, ◌⊎◌, None, IfOk, IfErr, []};
    ghost use Rattle.ensemble.specs.First.{first_nodes, AreAllUp};
    ghost use Rattle.ensemble.specs.Calls.{AllCollected};

    /// All replicas are opened, each with a keeper in memory that has no record, and there are as many proxies
    /// as the config has clients. NoMemory, the only error: there is no memory for it, and all that was opened
    /// is ended.
    pub fn open(alloc: Global, config: &Config) -> Result<Ensemble, Fault>
        ensures nodes { IfOk result (λ ensemble. ensemble.nodes ≡ first_nodes config.now) }
        ensures up { IfOk result (λ ensemble. AreAllUp config.now.u config.now.clients ensemble.nodes) }
        ensures waits { IfOk result (λ ensemble. AllCollected ensemble.nodes) }
        ensures asked { IfOk result (λ ensemble. ensemble.asked ≡ []) }
        ensures answered { IfOk result (λ ensemble. ensemble.answered ≡ []) }
        ensures order { IfOk result (λ ensemble. ensemble.order ≡ []) }
        ensures refused { IfOk result (λ ensemble. ensemble.refused ≡ 0) }
        ensures found { IfOk result (λ ensemble. ensemble.found ≡ None) }
        ensures only { IfErr result (λ fault. fault ≡ Fault.NoMemory) }
    {
        let progress = Progress::new(alloc, 2 * config.u() + 1)?;
        let nodes = opened_nodes(alloc, config)?;
        Ok(Ensemble {
            nodes,
            progress,
            stopwatch: Stopwatch::NEW,
            asked: GhostLog::new(),
            answered: GhostLog::new(),
            order: GhostLog::new(),
            found: GhostLog::new(),
            refused: 0,
        })
    }
}

//! What is kept of a process.

ghost use Rattle.std.specs.Prelude.{◌≡◌, ◌<◌, map, IfOk};
ghost use Rattle.ensemble.specs.Kept.{down_host, down_verifier};

use crate::nodes::Nodes;
use base::Text;
use exec_lines::ExecutorRecord;
use hosts::ExecutorHost;
use keeper::MemKeeper;
use proxies::Proxy;
use slots::VerifierSlot;
use std::alloc::{AllocError, Global};
use std::collections::VecDeque;
use std::marker::Model;

/// What is kept of the replicas and the proxies of a process, at one moment: what the keeper of each replica has, and what
/// each proxy asked last. Another process goes on from it.
pub struct ProcessRecord {
    pub(crate) u: u8,
    pub(crate) proxies: Vec<Proxy>,
    pub(crate) executors: Vec<MemKeeper<ExecutorRecord>>,
    pub(crate) verifiers: Vec<MemKeeper<Text>>,
}

impl Drop for ProcessRecord {
    fn drop(self) {
        let ProcessRecord {
            u: _,
            proxies: _,
            executors: _,
            verifiers: _,
        } = self;
    }
}

impl Model for ProcessRecord {
    ghost use Rattle.std.specs.Prelude.{◌<◌};
    ghost use Rattle.proxies.specs.contracts.proxy.Proxy as proxy;
    ghost use Rattle.ensemble.specs.Kept.{ProcessView, process_code};
    ghost use Rattle.ensemble.specs.Nodes.{AreNumbered};

    ghost Value = { ProcessView };

    ghost coded = { process_code proxy.the_row.coded };

    ghost view = { λ p. record { u = p.u; proxies = p.proxies.items; executors = p.executors.items; verifiers = p.verifiers.items } };

    ghost invariant = { λ p. (p.u < 4) × AreNumbered p.proxies.items };
}

/// The hosts of executors that are down, with these keepers. Room is taken first, since they cannot be dropped.
fn down_hosts(
    alloc: Global,
    keepers: Vec<MemKeeper<ExecutorRecord>>,
) -> Result<Vec<ExecutorHost>, AllocError>
    ensures { IfOk result (λ hosts. hosts.items ≡ map down_host keepers.items) }
{
    let mut hosts = Vec::with_capacity(alloc, keepers.len())?;
    for keeper in keepers {
        hosts.push_reserved(ExecutorHost::down(alloc, keeper));
    }
    Ok(hosts)
}

/// The slots of verifiers that are down, with these keepers.
fn down_verifiers(
    alloc: Global,
    keepers: Vec<MemKeeper<Text>>,
) -> Result<Vec<VerifierSlot>, AllocError>
    ensures { IfOk result (λ slots. slots.items ≡ map down_verifier keepers.items) }
{
    let mut slots = Vec::with_capacity(alloc, keepers.len())?;
    for keeper in keepers {
        slots.push(VerifierSlot::down(keeper))?;
    }
    Ok(slots)
}

impl ProcessRecord {
    ghost use Rattle.std.specs.Prelude.{◌≡◌, ◌<◌, IfOk, length};
    ghost use Rattle.ensemble.specs.Kept.{begun_with};
    ghost use Rattle.ensemble.specs.Nodes.{AreNumbered};

    /// The record of a process of `2u + 1` executors and as many verifiers, which these keepers are of, by the numbers of
    /// their replicas, and of these proxies, which are numbered from 1.
    pub fn of(
        u: u8,
        proxies: Vec<Proxy>,
        executors: Vec<MemKeeper<ExecutorRecord>>,
        verifiers: Vec<MemKeeper<Text>>,
    ) -> ProcessRecord
        requires few { u < 4 }
        requires numbered { AreNumbered proxies.items }
        ensures { result ≡ record { u = u; proxies = proxies.items; executors = executors.items; verifiers = verifiers.items } }
    {
        ProcessRecord {
            u,
            proxies,
            executors,
            verifiers,
        }
    }

    /// How many of `2u + 1` may fail.
    pub fn u(&self) -> u8
        ensures u { result ≡ self.now.u }
        ensures few { result < 4 }
    {
        self.u
    }

    /// The proxies, by their numbers.
    pub fn proxies(&self) -> &[Proxy]
        ensures proxies { result.now ≡ self.now.proxies }
        ensures numbered { AreNumbered self.now.proxies }
    {
        self.proxies.as_slice()
    }

    /// What the keeper of each executor has, by their numbers.
    pub fn executors(&self) -> &[MemKeeper<ExecutorRecord>]
        ensures { result.now ≡ self.now.executors }
    {
        self.executors.as_slice()
    }

    /// What the keeper of each verifier has, by their numbers.
    pub fn verifiers(&self) -> &[MemKeeper<Text>]
        ensures { result.now ≡ self.now.verifiers }
    {
        self.verifiers.as_slice()
    }

    /// The nodes of a process that begins with it.
    pub(crate) fn begun(self, alloc: Global) -> Result<Nodes, AllocError>
        ensures { IfOk result (λ nodes. nodes ≡ begun_with self) }
    {
        let ProcessRecord {
            u,
            proxies,
            executors,
            verifiers,
        } = self;
        let verifiers = down_verifiers(alloc, verifiers)?;
        let executors = down_hosts(alloc, executors)?;
        Ok(Nodes {
            u,
            proxies,
            executors,
            verifiers,
            mail: VecDeque::new(alloc),
        })
    }

    /// How many proxies it is of.
    pub fn proxy_count(&self) -> usize
        ensures { result ≡ length self.now.proxies }
    {
        self.proxies.len()
    }
}

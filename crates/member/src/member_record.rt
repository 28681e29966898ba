//! What is kept of a member.

ghost use Rattle.std.specs.Prelude.{◌≡◌, slice_set};
ghost use Rattle.ensemble.specs.Kept.{down_host, down_verifier};

use crate::opening::{unopened_executors, unopened_verifiers};
use base::Text;
use ensemble::{Config, Nodes};
use exec_lines::ExecutorRecord;
use hosts::ExecutorHost;
use keeper::MemKeeper;
use proxies::Proxy;
use slots::VerifierSlot;
use std::alloc::{AllocError, Global};
use std::collections::VecDeque;
use std::marker::Model;
use std::mem;

/// What is kept of a member when its process ends, of one moment: what the keepers of its executor and its verifier have,
/// and what each proxy asked last. Another process of the member goes on from it.
pub struct MemberRecord {
    pub(crate) id: u8,
    pub(crate) u: u8,
    pub(crate) executor: MemKeeper<ExecutorRecord>,
    pub(crate) verifier: MemKeeper<Text>,
    pub(crate) proxies: Vec<Proxy>,
}

impl Drop for MemberRecord {
    fn drop(self) {
        let MemberRecord {
            id: _,
            u: _,
            executor: _,
            verifier: _,
            proxies: _,
        } = self;
    }
}

impl Model for MemberRecord {
    ghost use Rattle.std.specs.Prelude.{◌<◌};
    ghost use Rattle.proxies.specs.contracts.proxy.Proxy as proxy;
    ghost use Rattle.ensemble.specs.Nodes.{AreNumbered};
    ghost use Rattle.site_laws.specs.Lives.{MemberKept, member_kept_code};

    ghost Value = { MemberKept };

    ghost coded = { member_kept_code proxy.the_row.coded };

    ghost view = { λ r. record { id = r.id; u = r.u; executor = r.executor; verifier = r.verifier; proxies = r.proxies.items } };

    ghost invariant = { λ r. (r.u < 4) × AreNumbered r.proxies.items };
}

/// The executor of this number, if there is one, is now one that is down, with this keeper.
#[tactic(auto, using(crate::proofs::Places::set_none))]
fn put_executor(
    alloc: Global,
    executors: &mut Vec<ExecutorHost>,
    id: u8,
    keeper: MemKeeper<ExecutorRecord>,
)
    ensures { executors.new.items ≡ slice_set executors.old.items id (down_host keeper) }
{
    if let Some(host) = executors.get_mut(usize::from(id)) {
        mem::replace(host, ExecutorHost::down(alloc, keeper)).end();
    }
}

/// The verifier of this number, if there is one, is now one that is down, with this keeper.
#[tactic(auto, using(crate::proofs::Places::set_none))]
fn put_verifier(verifiers: &mut Vec<VerifierSlot>, id: u8, keeper: MemKeeper<Text>)
    ensures { verifiers.new.items ≡ slice_set verifiers.old.items id (down_verifier keeper) }
{
    if let Some(slot) = verifiers.get_mut(usize::from(id)) {
        *slot = VerifierSlot::down(keeper);
    }
}

impl MemberRecord {
    ghost use Rattle.std.specs.Prelude.{◌≡◌, ◌<◌, IfOk};
    ghost use Rattle.ensemble.specs.Nodes.{AreNumbered};
    ghost use Rattle.site_laws.specs.Lives.{nodes_with};

    /// The record of member `id` of a site of `2u + 1` members, which these keepers are of, and of the proxies of all
    /// members, which are numbered from 1.
    pub fn of(
        id: u8,
        u: u8,
        executor: MemKeeper<ExecutorRecord>,
        verifier: MemKeeper<Text>,
        proxies: Vec<Proxy>,
    ) -> MemberRecord
        requires few { u < 4 }
        requires numbered { AreNumbered proxies.items }
        ensures { result ≡ record { id = id; u = u; executor = executor; verifier = verifier; proxies = proxies.items } }
    {
        MemberRecord {
            id,
            u,
            executor,
            verifier,
            proxies,
        }
    }

    /// The number of the member.
    pub fn id(&self) -> u8
        ensures { result ≡ self.now.id }
    {
        self.id
    }

    /// How many of the `2u + 1` members may fail.
    pub fn u(&self) -> u8
        ensures u { result ≡ self.now.u }
        ensures few { result < 4 }
    {
        self.u
    }

    /// What the keeper of the executor has.
    pub fn executor(&self) -> &MemKeeper<ExecutorRecord>
        ensures { result.now ≡ self.now.executor }
    {
        &self.executor
    }

    /// What the keeper of the verifier has.
    pub fn verifier(&self) -> &MemKeeper<Text>
        ensures { result.now ≡ self.now.verifier }
    {
        &self.verifier
    }

    /// The proxies of all members, by their numbers. Those of other members have asked nothing.
    pub fn proxies(&self) -> &[Proxy]
        ensures proxies { result.now ≡ self.now.proxies }
        ensures numbered { AreNumbered self.now.proxies }
    {
        self.proxies.as_slice()
    }

    /// The nodes with which a process of member `id` begins that found this.
    pub(crate) fn begun(self, alloc: Global, config: &Config, id: u8) -> Result<Nodes, AllocError>
        ensures { IfOk result (λ nodes. nodes ≡ nodes_with config.now id self) }
    {
        let MemberRecord {
            id: _,
            u: _,
            executor,
            verifier,
            proxies,
        } = self;
        let u = config.u();
        let mut verifiers = unopened_verifiers(alloc, 2 * u + 1)?;
        let mut executors = unopened_executors(alloc, 2 * u + 1)?;
        put_verifier(&mut verifiers, id, verifier);
        put_executor(alloc, &mut executors, id, executor);
        Ok(Nodes {
            u,
            proxies,
            executors,
            verifiers,
            mail: VecDeque::new(alloc),
        })
    }
}

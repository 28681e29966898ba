//! What is kept of a member when its process ends, and the member of a process that begins with it.

ghost use Rattle.std.specs.Prelude.{◌≡◌, ◌⊎◌, [], Some, IfOk, IfErr, IsTrue};
ghost use Rattle.site_laws.specs.Lives.{KeepsExecutor, KeepsVerifier, IsKeptOf, nodes_with};
ghost use Rattle.member.specs.Member.{HasPlace};
ghost use Rattle.member.specs.Recording.{MayBegin};

use crate::found_log::FoundLog;
use crate::member::Member;
use crate::member_record::MemberRecord;
use crate::opening::has_place;
use crate::shown_log::ShownLog;
use base::Text;
use ensemble::{Config, Nodes};
use exec_lines::ExecutorRecord;
use hosts::ExecutorHost;
use keeper::MemKeeper;
use proto::Fault;
use proxies::Proxy;
use slots::VerifierSlot;
use std::alloc::{AllocError, Global};
use std::collections::VecDeque;

/// These proxies once more.
pub(crate) fn copied(alloc: Global, proxies: &[Proxy]) -> Result<Vec<Proxy>, AllocError>
    ensures { IfOk result (λ copies. copies.items ≡ proxies.now) }
{
    let mut copies = Vec::with_capacity(alloc, proxies.len())?;
    for proxy in proxies {
        copies.push(proxy.copy()?)?;
    }
    Ok(copies)
}

/// What is kept of the executor of this number. Stopped: it is not there, or lost for good.
fn kept_executor(executors: &[ExecutorHost], id: u8) -> Result<MemKeeper<ExecutorRecord>, Fault>
    ensures kept { IfOk result (λ keeper. KeepsExecutor executors.now id keeper) }
    ensures only { IfErr result (λ fault. (fault ≡ Fault.NoMemory) ⊎ (fault ≡ Fault.Stopped)) }
{
    let Some(host) = executors.get(usize::from(id)) else {
        return Err(Fault::Stopped);
    };
    if host.is_lost() {
        return Err(Fault::Stopped);
    }
    Ok(host.kept()?)
}

/// What is kept of the verifier of this number. Stopped: it is not there, or lost for good.
fn kept_verifier(verifiers: &[VerifierSlot], id: u8) -> Result<MemKeeper<Text>, Fault>
    ensures kept { IfOk result (λ keeper. KeepsVerifier verifiers.now id keeper) }
    ensures only { IfErr result (λ fault. (fault ≡ Fault.NoMemory) ⊎ (fault ≡ Fault.Stopped)) }
{
    let Some(slot) = verifiers.get(usize::from(id)) else {
        return Err(Fault::Stopped);
    };
    if slot.is_lost() {
        return Err(Fault::Stopped);
    }
    Ok(slot.kept()?)
}

/// What is kept of member `id` if its process ends now. Stopped: one of its replicas is not there, or lost for good.
fn kept_of(alloc: Global, nodes: &Nodes, id: u8) -> Result<MemberRecord, Fault>
    ensures kept { IfOk result (λ kept. IsKeptOf id nodes.now kept) }
    ensures only { IfErr result (λ fault. (fault ≡ Fault.NoMemory) ⊎ (fault ≡ Fault.Stopped)) }
{
    let executor = kept_executor(nodes.executors.as_slice(), id)?;
    let verifier = kept_verifier(nodes.verifiers.as_slice(), id)?;
    let proxies = copied(alloc, nodes.proxies.as_slice())?;
    Ok(MemberRecord::of(id, nodes.u, executor, verifier, proxies))
}

/// Whether a process of member `id` may begin with this.
fn may_begin(config: &Config, id: u8, found: &MemberRecord) -> bool
    ensures yes { IsTrue result → MayBegin config.now id found.now }
    ensures no { MayBegin config.now id found.now → IsTrue result }
{
    has_place(config, id)
        && found.id == id
        && found.u == config.u()
        && found.proxies.len() == usize::from(config.clients())
}

/// The member whose process began with this, before its replicas are opened.
fn reopened(
    alloc: Global,
    config: &Config,
    id: u8,
    found: MemberRecord,
) -> Result<Member, AllocError>
    requires { HasPlace config.now id }
    ensures { IfOk result (λ member. member ≡ record { id = id; config = config.now; found = Some found; nodes = nodes_with config.now id found; leaving = []; shown = []; refused = 0 }) }
{
    let log = FoundLog::of(&found);
    let nodes = found.begun(alloc, config, id)?;
    Ok(Member {
        id,
        config: *config,
        found: log,
        nodes,
        leaving: VecDeque::new(alloc),
        log: ShownLog::new(),
        refused: 0,
    })
}

impl Member {
    ghost use Rattle.std.specs.Prelude.{◌≡◌, ◌↔◌, ◌⊎◌, [], Some, Err, IfOk, IfErr};
    ghost use Rattle.site_laws.specs.Lives.{IsKeptOf};
    ghost use Rattle.member.specs.Member.{whose};
    ghost use Rattle.member.specs.Recording.{MayBegin};
    ghost use Rattle.member.specs.Tending.{AreBothUp};

    /// What is kept of it at this moment: what the keepers of its executor and its verifier have, and what each proxy asked
    /// last. It shares the records. If its process ends, another one that begins with this (`reopen`) goes on from this
    /// moment, as if both replicas had crashed, and what was done after it was not done. So the letters that `prepare` hands
    /// out and the answers that `work` gives may leave the process only when a record of that moment, or of a later one, was
    /// saved.
    ///
    /// Stopped: one of its replicas is lost for good, which is the work of no call of a member; NoMemory: an allocation
    /// failed.
    pub fn record(&self, alloc: Global) -> Result<MemberRecord, Fault>
        ensures kept { IfOk result (λ kept. IsKeptOf self.now.id self.now.nodes kept) }
        ensures only { IfErr result (λ fault. (fault ≡ Fault.NoMemory) ⊎ (fault ≡ Fault.Stopped)) }
    {
        kept_of(alloc, &self.nodes, self.id)
    }

    /// The member of this number of a site, whose process begins with what was kept of another one. Its executor and its
    /// verifier are opened, each with its record. One for which there is no memory is down, which is counted (`refused`), and
    /// `restart` opens it. No letter of another process is under way, and the proxies have outstanding what they had: `again`
    /// asks it once more.
    ///
    /// Unfit: the site has no member of this number, or there are fewer proxies than members, or the record is of another
    /// member, or of a site of another size; NoMemory: an allocation failed.
    pub fn reopen(
        alloc: Global,
        config: &Config,
        id: u8,
        found: MemberRecord,
    ) -> Result<Member, Fault>
        ensures whose { IfOk result (λ member. whose member ≡ (id, config.now, Some found)) }
        ensures shown { IfOk result (λ member. member.shown ≡ []) }
        ensures leaving { IfOk result (λ member. member.leaving ≡ []) }
        ensures proxies { IfOk result (λ member. member.nodes.proxies ≡ found.proxies) }
        ensures up { IfOk result (λ member. member.refused ≡ 0 → AreBothUp member) }
        ensures unfit { result ≡ Err Fault.Unfit ↔ (MayBegin config.now id found → ⊥) }
        ensures only { IfErr result (λ fault. (fault ≡ Fault.Unfit) ⊎ (fault ≡ Fault.NoMemory)) }
    {
        if !may_begin(config, id, &found) {
            return Err(Fault::Unfit);
        }
        let mut member = reopened(alloc, config, id, found)?;
        member.begin(alloc);
        Ok(member)
    }
}

//! A member before the first letter.

ghost use Rattle.std.specs.Prelude.{◌≡◌, ◌↔◌, [], None, IfOk, IfErr, Err, replicate, IsTrue};
ghost use Rattle.slots.specs.declared.slot.Slot.TheVariants.{Down};
ghost use Rattle.slots.specs.Slots.{nothing_kept};
ghost use Rattle.site_laws.specs.Site.{unopened_nodes as not_opened};
ghost use Rattle.member.specs.Member.{HasPlace};

use crate::found_log::FoundLog;
use crate::member::Member;
use crate::shown_log::ShownLog;
use ensemble::{Config, Nodes, Replica, first_proxies};
use hosts::ExecutorHost;
use proto::Fault;
use slots::VerifierSlot;
use std::alloc::{AllocError, Global};
use std::collections::VecDeque;

/// So many executors that were never opened. Room is taken first, since they cannot be dropped.
pub(crate) fn unopened_executors(alloc: Global, count: u8) -> Result<Vec<ExecutorHost>, AllocError>
    ensures { IfOk result (λ hosts. hosts.items ≡ replicate count (record { slot = Down nothing_kept; held = []; sent = [] })) }
{
    let mut hosts = Vec::with_capacity(alloc, usize::from(count))?;
    while hosts.len() < usize::from(count) {
        hosts.push_reserved(ExecutorHost::unopened(alloc));
    }
    Ok(hosts)
}

/// So many verifiers that were never opened.
pub(crate) fn unopened_verifiers(alloc: Global, count: u8) -> Result<Vec<VerifierSlot>, AllocError>
    ensures { IfOk result (λ slots. slots.items ≡ replicate count (Down nothing_kept)) }
{
    let mut slots = Vec::with_capacity(alloc, usize::from(count))?;
    while slots.len() < usize::from(count) {
        slots.push_reserved(VerifierSlot::unopened());
    }
    Ok(slots)
}

/// All nodes of a site, of which none was opened.
fn unopened_nodes(alloc: Global, config: &Config) -> Result<Nodes, AllocError>
    ensures { IfOk result (λ nodes. nodes ≡ not_opened config.now) }
{
    let u = config.u();
    let proxies = first_proxies(alloc, config.clients())?;
    let verifiers = unopened_verifiers(alloc, 2 * u + 1)?;
    let executors = unopened_executors(alloc, 2 * u + 1)?;
    Ok(Nodes {
        u,
        proxies,
        executors,
        verifiers,
        mail: VecDeque::new(alloc),
    })
}

/// Whether the site has a member of this number, and a proxy for each member.
pub(crate) fn has_place(config: &Config, id: u8) -> bool
    ensures yes { IsTrue result → HasPlace config.now id }
    ensures no { HasPlace config.now id → IsTrue result }
{
    let members = 2 * config.u() + 1;
    id < members && 0 < config.clients() / u16::from(members)
}

/// The member of a site of which nothing was opened.
fn unopened(alloc: Global, config: &Config, id: u8) -> Result<Member, AllocError>
    requires { HasPlace config.now id }
    ensures { IfOk result (λ member. member ≡ record { id = id; config = config.now; found = None; nodes = not_opened config.now; leaving = []; shown = []; refused = 0 }) }
{
    let nodes = unopened_nodes(alloc, config)?;
    Ok(Member {
        id,
        config: *config,
        found: FoundLog::none(),
        nodes,
        leaving: VecDeque::new(alloc),
        log: ShownLog::new(),
        refused: 0,
    })
}

impl Member {
    ghost use Rattle.std.specs.Prelude.{◌≡◌, ◌↔◌, ◌⊎◌, ◌<◌, ◌≤◌, ◌-◌, ◌^◌, [], true, None, IfOk, IfErr, Err};
    ghost use Rattle.ensemble.specs.Shown.{is_up_at};
    ghost use Rattle.member.specs.Member.{whose, HasPlace};
    ghost use Rattle.member.specs.Tending.{AreBothUp};

    /// If the replica is down, that is counted.
    fn count_down(&mut self, replica: Replica)
        ensures same { self.new ≡ record self.old { refused = self.new.refused } }
        ensures counted { self.old.refused ≤ self.new.refused }
        ensures up { self.new.refused ≡ self.old.refused → self.old.refused < 2 ^ 64 - 1 → is_up_at self.old.nodes replica ≡ true }
    {
        if !self.is_up(replica) {
            self.refuse();
        }
    }

    /// Opens its executor and its verifier. Each of them that is down then is counted.
    pub(crate) fn begin(&mut self, alloc: Global)
        ensures whose { whose self.new ≡ whose self.old }
        ensures shown { self.new.shown ≡ self.old.shown }
        ensures leaving { self.new.leaving ≡ self.old.leaving }
        ensures proxies { self.new.nodes.proxies ≡ self.old.nodes.proxies }
        ensures up { self.new.refused ≡ self.old.refused → self.old.refused < 2 ^ 64 - 1 → AreBothUp self.new }
    {
        self.open_executor(alloc);
        self.open_verifier(alloc);
        self.count_down(Replica::Executor(self.id));
        self.count_down(Replica::Verifier(self.id));
    }

    /// The member of this number of a site, which has nothing on record. Its executor and its verifier are opened. One for
    /// which there is no memory is down, which is counted (`refused`), and `restart` opens it.
    ///
    /// Unfit: the site has no member of this number, or there are fewer proxies than members; NoMemory: an allocation failed.
    pub fn open(alloc: Global, config: &Config, id: u8) -> Result<Member, Fault>
        ensures whose { IfOk result (λ member. whose member ≡ (id, config.now, None)) }
        ensures shown { IfOk result (λ member. member.shown ≡ []) }
        ensures leaving { IfOk result (λ member. member.leaving ≡ []) }
        ensures up { IfOk result (λ member. member.refused ≡ 0 → AreBothUp member) }
        ensures unfit { result ≡ Err Fault.Unfit ↔ (HasPlace config.now id → ⊥) }
        ensures only { IfErr result (λ fault. (fault ≡ Fault.Unfit) ⊎ (fault ≡ Fault.NoMemory)) }
    {
        if !has_place(config, id) {
            return Err(Fault::Unfit);
        }
        let mut member = unopened(alloc, config, id)?;
        member.begin(alloc);
        Ok(member)
    }
}

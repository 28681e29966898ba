//! A member, and which nodes are its own.

ghost use Rattle.std.specs.Prelude.{◌≡◌, ◌≤◌, ◌<◌, ◌-◌, ◌^◌};

use crate::found_log::FoundLog;
use crate::shown_log::ShownLog;
use decrees::{Letter, Node};
use ensemble::{Config, Nodes, Replica};
use exec_lines::Body;
use std::collections::VecDeque;
use std::marker::Model;

/// One of the `2u + 1` members of a site. It cannot be dropped, since executors cannot: `end` ends it. Members, executors
/// and verifiers are numbered from 0, and those of a member have its number. Proxies are numbered from 1, and each member
/// has as many as the others: those of member m are numbered from `m * proxies() + 1` on.
pub struct Member {
    pub(crate) id: u8,
    pub(crate) config: Config,
    pub(crate) found: FoundLog,
    /// All nodes of the site. Those of other members were never opened, and are not touched.
    pub(crate) nodes: Nodes,
    /// Letters to other members, until they leave.
    pub(crate) leaving: VecDeque<Letter<Body>>,
    pub(crate) log: ShownLog,
    /// How often something was refused.
    pub(crate) refused: u64,
}

impl Model for Member {
    ghost use Rattle.std.specs.Prelude.{◌<◌};
    ghost use Rattle.decrees.specs.contracts.node.Letter as of_letter;
    ghost use Rattle.exec_lines.specs.contracts.body.Body as of_body;
    ghost use Rattle.events.specs.contracts.config.Config as of_config;
    ghost use Rattle.ensemble.specs.contracts.nodes.Nodes as of_nodes;
    ghost use Rattle.member.specs.contracts.shown_log.ShownLog as of_log;
    ghost use Rattle.member.specs.contracts.found_log.FoundLog as of_found;
    ghost use Rattle.member.specs.Member.{MemberView, HasDone, with_leaving, block_of, member_code};

    ghost Value = { MemberView };

    ghost coded = { member_code of_config.the_row.coded of_found.the_row.coded of_nodes.the_row.coded (of_letter.the_row of_body.the_row).coded of_log.the_row.coded };

    ghost view = { λ m. record { id = m.id; config = m.config; found = m.found; nodes = m.nodes; leaving = m.leaving.items; shown = m.log; refused = m.refused } };

    ghost invariant = { λ m. HasDone m.id m.config m.found (with_leaving m.leaving.items m.nodes) m.log × (0 < block_of m.config) };
}

/// Counts that something was refused, up to 2^64 - 1.
pub fn refuse(refused: &mut u64)
    ensures counted { refused.old ≤ refused.new }
    ensures more { refused.old < 2 ^ 64 - 1 → refused.old < refused.new }
{
    *refused = refused.saturating_add(1);
}

impl Member {
    ghost use Rattle.std.specs.Prelude.{◌≡◌, ◌<◌, ◌≤◌, ◌-◌, ◌^◌, IsTrue};
    ghost use Rattle.ensemble.specs.Shown.{is_up_at, is_free_at};
    ghost use Rattle.site_laws.specs.Site.{IsNodeOf};
    ghost use Rattle.member.specs.Member.{IsSiteMember, MayAsk, home_of, block_of};

    /// What always holds of it: what it did led its nodes where they are, and that is what it shows. The call does nothing.
    pub fn shows(&self)
        ensures { IsSiteMember self.now }
    {
        let _ = &self.refused;
    }

    /// Its number among the members of its site.
    pub fn id(&self) -> u8
        ensures { result ≡ self.now.id }
    {
        self.id
    }

    /// How many proxies it has, as each other member.
    pub fn proxies(&self) -> u16
        ensures proxies { result ≡ block_of self.now.config }
        ensures some_proxies { 0 < result }
    {
        self.config.clients() / u16::from(2 * self.config.u() + 1)
    }

    /// The member of the proxy of this number.
    fn home(&self, proxy: u16) -> u16
        ensures { result ≡ home_of self.now.config proxy }
    {
        proxy.saturating_sub(1) / self.proxies()
    }

    /// Whether the proxy of this number is its own.
    pub(crate) fn is_home(&self, proxy: u16) -> bool
        ensures yes { IsTrue result → home_of self.now.config proxy ≡ self.now.id }
        ensures no { home_of self.now.config proxy ≡ self.now.id → IsTrue result }
    {
        self.home(proxy) == u16::from(self.id)
    }

    /// Whether the node is its own.
    pub(crate) fn is_here(&self, node: Node) -> bool
        ensures yes { IsTrue result → IsNodeOf (home_of self.now.config) self.now.id node }
        ensures no { IsNodeOf (home_of self.now.config) self.now.id node → IsTrue result }
    {
        match node {
            Node::Client(proxy) => self.is_home(proxy),
            Node::Executor(id) => id == self.id,
            Node::Verifier(id) => id == self.id,
        }
    }

    /// Whether the proxy of this number is its own, and has nothing outstanding, so that it may ask.
    pub fn is_free(&self, proxy: u16) -> bool
        ensures free { IsTrue result → MayAsk self.now proxy }
        ensures exact { home_of self.now.config proxy ≡ self.now.id → result ≡ is_free_at self.now.nodes.proxies proxy }
    {
        self.is_home(proxy) && self.nodes.is_free(proxy)
    }

    /// Whether the replica is there and up. Those of other members never are.
    pub fn is_up(&self, replica: Replica) -> bool
        ensures { result ≡ is_up_at self.now.nodes replica }
    {
        match replica {
            Replica::Executor(id) => self.nodes.is_executor_up(id),
            Replica::Verifier(id) => match self.nodes.verifiers.get(usize::from(id)) {
                Some(slot) => slot.node().is_some(),
                None => false,
            },
        }
    }

    /// The number of its executor's committed state, if the executor is up. It is a figure.
    pub fn number(&self) -> Option<u64> {
        self.nodes.executors.get(usize::from(self.id))?.number()
    }

    /// How often something was not done for want of memory, or since a bound was reached: letters were lost, a replica that
    /// was to be opened is down, or `work` left something to be done. It stays at 2^64 - 1.
    pub fn refused(&self) -> u64
        ensures { result ≡ self.now.refused }
    {
        self.refused
    }

    /// One thing more was refused.
    pub(crate) fn refuse(&mut self)
        ensures same { self.new ≡ record self.old { refused = self.new.refused } }
        ensures counted { self.old.refused ≤ self.new.refused }
        ensures more { self.old.refused < 2 ^ 64 - 1 → self.old.refused < self.new.refused }
    {
        refuse(&mut self.refused);
    }

    /// Ends its nodes, and with them its process: `record` says what is kept of it then.
    pub fn end(self) {
        let Member {
            id: _,
            config: _,
            found,
            nodes,
            leaving,
            log,
            refused: _,
        } = self;
        nodes.end();
        drop(found);
        drop(leaving);
        drop(log);
    }
}

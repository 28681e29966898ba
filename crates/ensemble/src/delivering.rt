//! Letters that come.

ghost use Rattle.std.specs.Prelude.{◌≡◌, ◌≤◌, None};
ghost use Rattle.verifier.specs.declared.input.Input.TheVariants as verifier_input;
ghost use Rattle.hosts.specs.Host.{HostTakes};
ghost use Rattle.ensemble.specs.Nodes.{AtHost, AtVerifier, VerifierGets, ProxyGets};

use crate::answer::Answer;
use crate::nodes::Nodes;
use crate::posting::{post, post_ballots};
use crate::refusing::refuse;
use decrees::{Ballot, Letter, Node};
use exec_lines::Body;
use hosts::ExecutorHost;
use proto::Reply;
use proxies::Proxy;
use slots::VerifierSlot;
use std::alloc::Global;
use verifier::Input;

/// The host of this number gets the letter, if it is there: what its executor sends. An order that cannot be held is
/// lost, which is counted.
fn to_executor(
    alloc: Global,
    executors: &mut Vec<ExecutorHost>,
    id: u8,
    letter: Letter<Body>,
    refused: &mut u64,
) -> Vec<Letter<Body>>
    ensures takes { AtHost (λ h left sent. HostTakes h letter left sent) id executors.old.items executors.new.items result.items }
    ensures counted { refused.old ≤ refused.new }
{
    match executors.get_mut(usize::from(id)) {
        Some(host) => {
            let (is_taken, sent) = host.take(alloc, letter);
            if !is_taken {
                refuse(refused);
            }
            sent
        }
        None => Vec::new(alloc),
    }
}

/// The verifier of this number gets the letter, if it is there: what it sends.
fn to_verifier(
    alloc: Global,
    verifiers: &mut Vec<VerifierSlot>,
    id: u8,
    letter: Letter<Ballot>,
) -> Vec<Letter<Ballot>>
    ensures { AtVerifier (VerifierGets (verifier_input.Letter letter)) id verifiers.old.items verifiers.new.items result.items }
{
    match verifiers.get_mut(usize::from(id)) {
        Some(slot) => slot.settle(alloc, Input::Letter(letter)),
        None => Vec::new(alloc),
    }
}

/// The proxy of this number gets the reply: the answer, if the request is outstanding.
fn to_proxy(proxies: &mut Vec<Proxy>, client: u16, number: u64, reply: Reply) -> Option<Answer>
    ensures { ProxyGets proxies.old.items client number reply proxies.new.items result }
{
    if client == 0 {
        return None;
    }
    let asking = proxies.get_mut(usize::from(client - 1))?;
    if !asking.answer(number) {
        return None;
    }
    Some(Answer {
        proxy: client,
        number,
        reply,
    })
}

impl Nodes {
    ghost use Rattle.std.specs.Prelude.{◌≡◌, ◌≤◌, None};
    ghost use Rattle.verifier.specs.declared.input.Input.TheVariants as verifier_input;
    ghost use Rattle.hosts.specs.Host.{HostTakes};
    ghost use Rattle.ensemble.specs.Nodes.{HostMoves, VerifierMoves, VerifierGets, VerifiersReached, ProxyReached, NodesReached, Delivers};

    /// The executor of this number gets the letter.
    fn reach_executor(&mut self, alloc: Global, id: u8, letter: Letter<Body>, refused: &mut u64)
        ensures moves { HostMoves (λ h left sent. HostTakes h letter left sent) id self.old self.new }
        ensures counted { refused.old ≤ refused.new }
    {
        let sent = to_executor(alloc, &mut self.executors, id, letter, refused);
        post(&mut self.mail, sent, refused);
    }

    /// The verifier of this number gets the ballot.
    fn reach_ballot(&mut self, alloc: Global, id: u8, letter: Letter<Ballot>, refused: &mut u64)
        ensures moves { VerifierMoves (VerifierGets (verifier_input.Letter letter)) id self.old self.new }
        ensures counted { refused.old ≤ refused.new }
    {
        let sent = to_verifier(alloc, &mut self.verifiers, id, letter);
        post_ballots(alloc, &mut self.mail, sent.as_slice(), refused);
    }

    /// The verifier of this number gets the letter, if it is a ballot.
    fn reach_verifier(&mut self, alloc: Global, id: u8, letter: Letter<Body>, refused: &mut u64)
        ensures reached { VerifiersReached self.old letter id letter.body self.new }
        ensures counted { refused.old ≤ refused.new }
    {
        let Letter { from, to, body } = letter;
        match body {
            Body::Ballot(body) => self.reach_ballot(alloc, id, Letter { from, to, body }, refused),
            _ => (),
        }
    }

    /// The proxy of this number gets what the letter says, if it is a reply.
    fn reach_proxy(&mut self, client: u16, body: Body) -> Option<Answer>
        ensures { ProxyReached self.old client body self.new result }
    {
        match body {
            Body::Reply { number, reply } => to_proxy(&mut self.proxies, client, number, reply),
            _ => None,
        }
    }

    /// The letter comes to the node that it names: what it answers.
    fn reach(&mut self, alloc: Global, letter: Letter<Body>, refused: &mut u64) -> Option<Answer>
        ensures reached { NodesReached self.old letter letter.to self.new result }
        ensures counted { refused.old ≤ refused.new }
    {
        match letter.to {
            Node::Client(client) => self.reach_proxy(client, letter.body),
            Node::Executor(id) => {
                self.reach_executor(alloc, id, letter, refused);
                None
            }
            Node::Verifier(id) => {
                self.reach_verifier(alloc, id, letter, refused);
                None
            }
        }
    }

    /// The first letter that is under way comes: what it answers. What is lost by it is counted.
    pub fn deliver(&mut self, alloc: Global, refused: &mut u64) -> Option<Answer>
        ensures delivers { Delivers self.old self.new result }
        ensures counted { refused.old ≤ refused.new }
    {
        let letter = self.mail.pop_front()?;
        self.reach(alloc, letter, refused)
    }
}

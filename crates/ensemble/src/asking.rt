//! What proxies ask.

ghost use Rattle.std.specs.Prelude.{◌≡◌, IfOk, OnErr, IsTrue};
ghost use Rattle.ensemble.specs.Nodes.{IsFree, IsAskedBy};

use crate::nodes::Nodes;
use crate::posting::post;
use crate::refusing::refuse;
use client::{ask_all, ask_one};
use proto::{Command, Fault};
use proxies::Proxy;
use sessions::Request;
use std::alloc::{AllocError, Global};

/// The proxy of this number asks the command: the request.
fn ask_at(
    proxies: &mut Vec<Proxy>,
    number: u16,
    command: Command,
    quiet: bool,
) -> Result<Request, Fault>
    requires { IsFree proxies.old.items number }
    ensures ok { IfOk result (λ r. IsAskedBy proxies.old.items number command quiet proxies.new.items r) }
    ensures err { OnErr result (proxies.new.items ≡ proxies.old.items) }
{
    if number == 0 {
        return Err(Fault::Stopped);
    }
    match proxies.get_mut(usize::from(number - 1)) {
        Some(proxy) => proxy.ask(command, quiet),
        None => Err(Fault::Stopped),
    }
}

impl Nodes {
    ghost use Rattle.std.specs.Prelude.{◌≡◌, ◌<◌, ◌≤◌, ◌+◌, ◌-◌, ◌*◌, ◌^◌, ◌++◌, ◌∷◌, [], IfOk, OnErr, IsTrue};
    ghost use Rattle.decrees.specs.declared.node.Node.TheVariants.{Executor};
    ghost use Rattle.exec_lines.specs.declared.body.Body.TheVariants.{Want};
    ghost use Rattle.client.specs.Talk.{client_letter, wants};
    ghost use Rattle.ensemble.specs.Nodes.{IsFree, IsAskedBy, IsPosted, AsksAgain};
    ghost use Rattle.ensemble.specs.Shown.{is_free_at, outstanding_at};
    ghost use Rattle.ensemble.specs.Served.{letters_asked, letters_again};

    /// Whether the proxy of this number is there and has nothing outstanding.
    pub fn is_free(&self, number: u16) -> bool
        ensures free { IsTrue result → IsFree self.now.proxies number }
        ensures exact { result ≡ is_free_at self.now.proxies number }
    {
        if number == 0 {
            return false;
        }
        match self.proxies.get(usize::from(number - 1)) {
            Some(proxy) => proxy.is_free(),
            None => false,
        }
    }

    /// The proxy of this number asks the command: the request, which is to be sent. After an error nothing has
    /// changed. Stopped: it has no number left; NoMemory: an allocation failed.
    pub fn ask(&mut self, number: u16, command: Command, quiet: bool) -> Result<Request, Fault>
        requires { IsFree self.old.proxies number }
        ensures ok { IfOk result (λ r. IsAskedBy self.old.proxies number command quiet self.new.proxies r) }
        ensures numbered { IfOk result (λ r. r.client ≡ number) }
        ensures others { self.new ≡ record self.old { proxies = self.new.proxies } }
        ensures err { OnErr result (self.new ≡ self.old) }
    {
        ask_at(&mut self.proxies, number, command, quiet)
    }

    /// The request of this client is under way to this executor, or lost if there is no memory for that, which is
    /// counted.
    fn send_to(&mut self, alloc: Global, client: u16, to: u8, request: Request, refused: &mut u64)
        requires { to < 2 * self.old.u + 1 }
        ensures posted { IsPosted self.old client request self.new }
        ensures counted { refused.old ≤ refused.new }
        ensures sent { refused.new ≡ refused.old → refused.old < 2 ^ 64 - 1 → self.new.mail ≡ self.old.mail ++ client_letter client (Executor to) (Want request) ∷ [] }
    {
        match ask_one(alloc, client, to, request) {
            Ok(letters) => post(&mut self.mail, letters, refused),
            Err(_) => refuse(refused),
        }
    }

    /// The request of this client is under way to the executor that leads, or to all if that is down. It is lost if
    /// there is no memory for that, which is counted. If another one comes to lead, the client asks again, and all
    /// get it.
    pub fn send(&mut self, alloc: Global, client: u16, request: Request, refused: &mut u64)
        ensures posted { IsPosted self.old client request self.new }
        ensures counted { refused.old ≤ refused.new }
        ensures sent { refused.new ≡ refused.old → refused.old < 2 ^ 64 - 1 → self.new.mail ≡ self.old.mail ++ letters_asked self.old client request }
    {
        let leader = self.leader();
        if self.is_executor_up(leader) {
            self.send_to(alloc, client, leader, request, refused);
        } else {
            self.send_to_all(alloc, client, request, refused);
        }
    }

    /// The request of this client is under way to all executors, or lost if there is no memory for that, which is
    /// counted.
    fn send_to_all(&mut self, alloc: Global, client: u16, request: Request, refused: &mut u64)
        ensures posted { IsPosted self.old client request self.new }
        ensures counted { refused.old ≤ refused.new }
        ensures sent { refused.new ≡ refused.old → refused.old < 2 ^ 64 - 1 → self.new.mail ≡ self.old.mail ++ wants self.old.u client request }
    {
        match ask_all(alloc, self.u, client, &request) {
            Ok(letters) => post(&mut self.mail, letters, refused),
            Err(_) => refuse(refused),
        }
    }

    /// What the proxy of this number has outstanding. The only error is a failed allocation.
    fn outstanding(&self, number: u16) -> Result<Option<Request>, AllocError>
        ensures { IfOk result (λ request. request ≡ outstanding_at self.now.proxies number) }
    {
        if number == 0 {
            return Ok(None);
        }
        let place = usize::from(number - 1);
        match self.proxies.get(place) {
            Some(proxy) => proxy.again(),
            None => Ok(None),
        }
    }

    /// What the proxy of this number has outstanding is sent to all executors once more, if it has something
    /// outstanding. It is lost if there is no memory for that, which is counted.
    pub fn again(&mut self, alloc: Global, number: u16, refused: &mut u64)
        ensures again { AsksAgain self.old number self.new }
        ensures counted { refused.old ≤ refused.new }
        ensures sent { refused.new ≡ refused.old → refused.old < 2 ^ 64 - 1 → self.new.mail ≡ self.old.mail ++ letters_again self.old number }
    {
        match self.outstanding(number) {
            Ok(Some(request)) => self.send_to_all(alloc, number, request, refused),
            Ok(None) => (),
            Err(_) => refuse(refused),
        }
    }
}

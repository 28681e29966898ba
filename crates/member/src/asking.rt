//! What its proxies ask.

use crate::member::Member;
use proto::{Command, Fault};
use std::alloc::Global;

impl Member {
    ghost use Rattle.std.specs.Prelude.{◌≡◌, ◌<◌, ◌≤◌, ◌-◌, ◌^◌, ◌++◌, IfOk, OnErr};
    ghost use Rattle.memcached_spec.specs.Asked.{HasText};
    ghost use Rattle.ensemble.specs.Served.{IsUnderWay, letters_again};
    ghost use Rattle.member.specs.Member.{whose, home_of, MayAsk};
    ghost use Rattle.member.specs.Asking.{IsAskShown};

    /// The proxy of this number, which is its own and free, asks the command: the number of the request. `quiet`: the reply
    /// is left out of what the connection is given. The reply comes from `work`. The letters of the request to other members
    /// leave with the next `prepare`. If there is no memory for its letters they are lost, which is counted (`refused`).
    ///
    /// After an error nothing has changed. Stopped: the proxy has no number left; NoMemory: an allocation failed.
    pub fn ask(
        &mut self,
        alloc: Global,
        proxy: u16,
        command: Command,
        quiet: bool,
    ) -> Result<u64, Fault>
        requires free { MayAsk self.old proxy }
        requires text { HasText command quiet }
        ensures ok { IfOk result (λ number. IsAskShown self.old.shown proxy number command quiet self.new.shown) }
        ensures err { OnErr result (self.new ≡ self.old) }
        ensures sent { IfOk result (λ number. self.new.refused ≡ self.old.refused → self.old.refused < 2 ^ 64 - 1 → IsUnderWay self.old.nodes self.new.nodes proxy number command) }
        ensures leaving { self.new.leaving ≡ self.old.leaving }
        ensures counted { self.old.refused ≤ self.new.refused }
        ensures whose { whose self.new ≡ whose self.old }
    {
        let request = self.nodes.ask(proxy, command, quiet)?;
        let request = self.log.asked(request, quiet);
        let number = request.number;
        self.nodes.send(alloc, proxy, request, &mut self.refused);
        Ok(number)
    }

    /// What the proxy of this number has outstanding is sent to all executors once more, if it is its own and has something
    /// outstanding. If there is no memory for that it is lost, which is counted (`refused`).
    pub fn again(&mut self, alloc: Global, proxy: u16)
        ensures sent { home_of self.old.config proxy ≡ self.old.id → self.new.refused ≡ self.old.refused → self.old.refused < 2 ^ 64 - 1 → self.new.nodes.mail ≡ self.old.nodes.mail ++ letters_again self.old.nodes proxy }
        ensures shown { self.new.shown ≡ self.old.shown }
        ensures leaving { self.new.leaving ≡ self.old.leaving }
        ensures counted { self.old.refused ≤ self.new.refused }
        ensures whose { whose self.new ≡ whose self.old }
    {
        if self.is_home(proxy) {
            self.nodes.again(alloc, proxy, &mut self.refused);
        }
    }
}

//! What a verifier does with each letter: a function for each line, with the definition of that line
//! as its contract.

ghost use Rattle.std.specs.Prelude.{◌≡◌, ◌<◌, ◌≤◌, ◌^◌, ◌⊎◌, ◌+◌, ◌-◌, ◌++◌, take, drop, IfOk, IfErr, IsTrue, IsOk, true, false, not, nat_le};
ghost use Rattle.decrees.specs.Votes.{is_open};
ghost use Rattle.verifier.specs.State.{stands, known, next_place, says, decided_from, to_others as all_others, to_executors as all_executors};
ghost use Rattle.decrees.specs.declared.ballot.Ballot.TheVariants.{Stands, Decided};
ghost use Rattle.decrees.specs.Standing.{may_follow};
ghost use Rattle.verifier.specs.Lines.{learn, try_to_propose, on_token, on_change, on_promise, on_accept, on_accepted, on_decided, on_ask, on_trim, verifier_on_stands, restarted, asked_if_behind, told_of, may_trim, is_ahead, is_fitting, is_awaited, is_acceptable, is_news};

use crate::letters::{decided, one, to_others, to_others_and_executors, to_verifiers};
use crate::outcome::{Outcome, nothing};
use crate::state::State;
use crate::tally::Tallied;
use decrees::{Ballot, Decree, Letter, Node, Start, VoteKey};
use proto::Fault;
use std::alloc::{AllocError, Global};
use token::Token;
use view_change::Promise;

impl State {
    ghost use Rattle.verifier.specs.State.{verifier_left};
    /// A letter of one decree or question, and nothing to save.
    fn says(&self, alloc: Global, id: u8, to: Node, body: Ballot) -> Result<Outcome, AllocError>
        ensures { IfOk result (λ outcome. verifier_left self.now outcome ≡ says id self.now to body) }
    {
        let letters = one(alloc, id, to, body)?;
        Ok(Outcome {
            saves: false,
            letters,
        })
    }

    /// Whether the vote is of the standing epoch or a later one, for a number above the standing
    /// one.
    fn is_open(&self, key: &VoteKey) -> bool
        ensures { result ≡ is_open (stands self.now) key.now }
    {
        let standing = self.log.standing();
        standing.epoch <= key.epoch && standing.n < key.n
    }

    /// An executor's token.
    pub fn on_token(
        &mut self,
        alloc: Global,
        u: u8,
        id: u8,
        key: VoteKey,
        token: Token,
    ) -> Result<Outcome, AllocError>
        requires { u < 4 }
        ensures done { IfOk result (λ outcome. verifier_left self.new outcome ≡ on_token u id self.old key.executor key.epoch key.n (record { 0 = key.previous }) token) }
        ensures fits_none { IsTrue (not (is_open (stands self.old) key)) → IsOk result }
    {
        if !self.is_open(&key) {
            return Ok(nothing(alloc));
        }
        self.votes.add(key, token)?;
        self.try_to_propose(alloc, u, id, false, Vec::new(alloc))
    }

    /// Another leads a higher view.
    pub fn on_change(
        &mut self,
        alloc: Global,
        id: u8,
        from: u8,
        view: u64,
    ) -> Result<Outcome, AllocError>
        ensures done { IfOk result (λ outcome. verifier_left self.new outcome ≡ on_change id self.old from view) }
        ensures fits_none { view < self.old.view → IsOk result }
    {
        if view < self.view {
            return Ok(nothing(alloc));
        }
        let body = Ballot::Promise {
            view,
            known: self.log.known(),
            accepted: self.accepted,
        };
        let letters = one(alloc, id, Node::Verifier(from), body)?;
        let saves = self.view < view;
        self.enter(view);
        Ok(Outcome { saves, letters })
    }

    fn asked_if_behind(
        &self,
        alloc: Global,
        id: u8,
        from: u8,
        known: u64,
    ) -> Result<Vec<Letter<Ballot>>, AllocError>
        ensures { IfOk result (λ letters. letters.items ≡ asked_if_behind id self.now from known) }
    {
        if known <= self.log.known() {
            return Ok(Vec::new(alloc));
        }
        let place = self.next_place();
        one(alloc, id, Node::Verifier(from), Ballot::Ask { place })
    }

    /// A promise to this leader.
    pub fn on_promise(
        &mut self,
        alloc: Global,
        u: u8,
        id: u8,
        view: u64,
        promise: Promise,
    ) -> Result<Outcome, AllocError>
        requires { u < 4 }
        ensures done { IfOk result (λ outcome. verifier_left self.new outcome ≡ on_promise u id self.old promise.from view promise.known promise.accepted) }
        ensures fits_none { IsTrue (not (is_awaited self.old promise.from view)) → IsOk result }
    {
        if !self.leads || view != self.view || self.promises.has(promise.from) {
            return Ok(nothing(alloc));
        }
        self.promises.add(promise)?;
        let letters = self.asked_if_behind(alloc, id, promise.from, promise.known)?;
        self.try_to_propose(alloc, u, id, false, letters)
    }

    /// Whether the log begins at this place or later.
    fn is_forgotten(&self, place: u64) -> bool
        ensures { result ≡ nat_le place self.now.start.place }
    {
        place <= self.log.start().place
    }

    /// A letter of what stands after all that it knows.
    fn start_told(&self, alloc: Global, id: u8, to: Node) -> Result<Outcome, AllocError>
        ensures { IfOk result (λ outcome. verifier_left self.now outcome ≡ says id self.now to (Stands (known self.now) (stands self.now))) }
    {
        let place = self.log.known();
        let standing = self.log.standing();
        self.says(alloc, id, to, Ballot::Stands { place, standing })
    }

    /// What is known of an earlier place.
    fn told(&self, alloc: Global, id: u8, to: Node, place: u64) -> Result<Outcome, AllocError>
        ensures saves { IfOk result (λ outcome. outcome.saves ≡ false) }
        ensures letters { IfOk result (λ outcome. outcome.letters.items ≡ told_of id self.now to place) }
    {
        if self.is_forgotten(place) {
            return self.start_told(alloc, id, to);
        }
        match self.log.decree(place) {
            Some(decree) => self.says(alloc, id, to, Ballot::Decided { place, decree }),
            None => Ok(nothing(alloc)),
        }
    }

    /// A leader proposes.
    pub fn on_accept(
        &mut self,
        alloc: Global,
        u: u8,
        id: u8,
        from: u8,
        view: u64,
        place: u64,
        decree: Decree,
    ) -> Result<Outcome, AllocError>
        requires { u < 4 }
        ensures done { IfOk result (λ outcome. verifier_left self.new outcome ≡ on_accept u id self.old from view place decree) }
        ensures fits_none { IsTrue (not (is_acceptable self.old view place decree)) → IsOk result }
    {
        let next = self.next_place();
        if place == 0 || view < self.view {
            return Ok(nothing(alloc));
        }
        if next < place {
            return self.says(alloc, id, Node::Verifier(from), Ballot::Ask { place: next });
        }
        if place < next {
            return self.told(alloc, id, Node::Verifier(from), place);
        }
        if !self.log.may_follow(&decree) {
            return Ok(nothing(alloc));
        }
        let letters = to_verifiers(
            alloc,
            u,
            id,
            Ballot::Accepted {
                view,
                place,
                decree,
            },
        )?;
        self.enter(view);
        self.accepted = Some((view, decree));
        Ok(Outcome {
            saves: true,
            letters,
        })
    }

    fn is_fitting(&self, place: u64, decree: &Decree) -> bool
        ensures { result ≡ is_fitting self.now place decree.now }
    {
        place == self.next_place() && self.log.may_follow(decree)
    }

    /// So many have accepted the decree that it is learned, and sent to all. Stopped: the place after it
    /// would have no number.
    fn decide(
        &mut self,
        alloc: Global,
        u: u8,
        id: u8,
        place: u64,
        decree: Decree,
    ) -> Result<Outcome, Fault>
        requires few { u < 4 }
        requires next { IsTrue (may_follow (stands self.old) decree) }
        ensures done { IfOk result (λ outcome. verifier_left self.new outcome ≡ try_to_propose u id (learn self.old decree) true (all_others u id (Decided place decree) ++ all_executors u id (Decided place decree))) }
        ensures err { IfErr result (λ fault. (fault ≡ Fault.NoMemory) ⊎ ((fault ≡ Fault.Stopped) × (2 ^ 64 ≤ next_place (learn self.old decree)))) }
    {
        self.learn(decree)?;
        let letters = to_others_and_executors(alloc, u, id, Ballot::Decided { place, decree })?;
        Ok(self.try_to_propose(alloc, u, id, true, letters)?)
    }

    /// A verifier has accepted a decree. Stopped: it is learned, and the place after it would have no
    /// number.
    pub fn on_accepted(
        &mut self,
        alloc: Global,
        u: u8,
        id: u8,
        place: u64,
        accepted: Tallied,
    ) -> Result<Outcome, Fault>
        requires { u < 4 }
        ensures done { IfOk result (λ outcome. verifier_left self.new outcome ≡ on_accepted u id self.old accepted.from accepted.view place accepted.decree) }
        ensures fits_none { IsTrue (not (is_fitting self.old place accepted.decree)) → IsOk result }
        ensures err { IfErr result (λ fault. (fault ≡ Fault.NoMemory) ⊎ ((fault ≡ Fault.Stopped) × (2 ^ 64 ≤ next_place (on_accepted u id self.old accepted.from accepted.view place accepted.decree).state))) }
    {
        let decree = accepted.decree;
        if !self.is_fitting(place, &decree) {
            return Ok(nothing(alloc));
        }
        self.tally.add(accepted)?;
        if !self.tally.is_accepted(u, accepted.view, &decree) {
            return Ok(nothing(alloc));
        }
        self.decide(alloc, u, id, place, decree)
    }

    /// A decree is decided. Stopped: it is learned, and the place after it would have no number.
    pub fn on_decided(
        &mut self,
        alloc: Global,
        u: u8,
        id: u8,
        from: u8,
        place: u64,
        decree: Decree,
    ) -> Result<Outcome, Fault>
        requires { u < 4 }
        ensures done { IfOk result (λ outcome. verifier_left self.new outcome ≡ on_decided u id self.old from place decree) }
        ensures fits_none { IsTrue (not (is_news self.old place decree)) → IsOk result }
        ensures err { IfErr result (λ fault. (fault ≡ Fault.NoMemory) ⊎ ((fault ≡ Fault.Stopped) × (2 ^ 64 ≤ next_place (on_decided u id self.old from place decree).state))) }
    {
        let next = self.next_place();
        if self.is_fitting(place, &decree) {
            self.learn(decree)?;
            return Ok(self.try_to_propose(alloc, u, id, true, Vec::new(alloc))?);
        }
        if next < place {
            return Ok(self.says(alloc, id, Node::Verifier(from), Ballot::Ask { place: next })?);
        }
        Ok(nothing(alloc))
    }

    /// The decrees that it has from a place on, at most 16. None of them is forgotten.
    fn told_decided(
        &self,
        alloc: Global,
        id: u8,
        to: Node,
        place: u64,
    ) -> Result<Vec<Letter<Ballot>>, AllocError>
        requires { self.now.start.place < place }
        ensures { IfOk result (λ letters. letters.items ≡ decided_from id to place (take 16 (drop (place - (self.now.start.place + 1)) self.now.log))) }
    {
        let known = self.log.known();
        if known < place {
            return Ok(Vec::new(alloc));
        }
        let decrees = self.log.as_slice();
        let first = (place - (self.log.start().place + 1)) as usize;
        let end = (first + 16).min(decrees.len());
        decided(alloc, id, to, place, &decrees[first..end])
    }

    /// A node asks for what is decided from a place on.
    pub fn on_ask(
        &self,
        alloc: Global,
        id: u8,
        from: Node,
        place: u64,
    ) -> Result<Outcome, AllocError>
        ensures done { IfOk result (λ outcome. verifier_left self.now outcome ≡ on_ask id self.now from place) }
        ensures fits_none { place ≡ 0 → IsOk result }
    {
        if place == 0 {
            return Ok(nothing(alloc));
        }
        if self.is_forgotten(place) {
            return self.start_told(alloc, id, from);
        }
        let letters = self.told_decided(alloc, id, from, place)?;
        Ok(Outcome {
            saves: false,
            letters,
        })
    }

    /// The decrees up to a place may be forgotten.
    pub fn on_trim(&mut self, alloc: Global, place: u64) -> Result<Outcome, AllocError>
        ensures done { IfOk result (λ outcome. verifier_left self.new outcome ≡ on_trim self.old place) }
        ensures fits_none { IsTrue (not (may_trim self.old place)) → IsOk result }
    {
        if self.is_forgotten(place) || self.known() < place {
            return Ok(nothing(alloc));
        }
        self.log.trim(place)?;
        Ok(Outcome {
            saves: true,
            letters: Vec::new(alloc),
        })
    }

    /// A verifier tells what stands at a place. Stopped: the log would begin there, and the place after
    /// it would have no number.
    pub fn on_stands(
        &mut self,
        alloc: Global,
        u: u8,
        id: u8,
        start: Start,
    ) -> Result<Outcome, Fault>
        requires { u < 4 }
        ensures done { IfOk result (λ outcome. verifier_left self.new outcome ≡ verifier_on_stands u id self.old start.place start.standing) }
        ensures fits_none { IsTrue (not (is_ahead self.old start.place start.standing)) → IsOk result }
        ensures err { IfErr result (λ fault. (fault ≡ Fault.NoMemory) ⊎ ((fault ≡ Fault.Stopped) × (2 ^ 64 ≤ next_place (verifier_on_stands u id self.old start.place start.standing).state))) }
    {
        if !self.is_ahead(&start) {
            return Ok(nothing(alloc));
        }
        if start.place == u64::MAX {
            return Err(Fault::Stopped);
        }
        self.go_to(start);
        Ok(self.try_to_propose(alloc, u, id, true, Vec::new(alloc))?)
    }

    fn is_ahead(&self, start: &Start) -> bool
        ensures { result ≡ is_ahead self.now start.now.place start.now.standing }
    {
        self.known() < start.place && start.could_stand()
    }

    /// It goes on from its record.
    pub fn restarted(&self, alloc: Global, u: u8, id: u8) -> Result<Vec<Letter<Ballot>>, AllocError>
        requires { u < 4 }
        ensures { IfOk result (λ letters. letters.items ≡ (restarted u id self.now).letters) }
    {
        let place = self.next_place();
        to_others(alloc, u, id, Ballot::Ask { place })
    }
}

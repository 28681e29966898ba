//! The replicas at work.

ghost use Rattle.std.specs.Prelude.{◌≡◌};

use crate::answer::Answer;
use crate::ensemble::Ensemble;
use crate::noted::Noted;
use crate::refusing::refuse;
use slots::a_run_is_steps;
use std::alloc::Global;
use std::rt::Clock;
use std::sync::Wait;
use std::thread::Threads;

/// The most letters that are delivered before anything else is done.
const MOST_LETTERS: u32 = 1 << 20;

/// The most rounds of one call of `work`. A batch takes some five of them.
const MOST_ROUNDS: u32 = 4096;

impl Ensemble {
    ghost use Rattle.std.specs.Prelude.{◌≡◌, ◌<◌, ◌≤◌, ◌+◌, ◌-◌, ◌*◌, ◌^◌, ◌++◌, ◌∷◌, [], true, false, map};
    ghost use Rattle.ensemble.specs.Shown.{has_job, has_letters, is_quiet};
    ghost use Rattle.std.specs.List.{list_any};
    ghost use Rattle.hosts.specs.Host.{HostCollects};
    ghost use Rattle.hosts.specs.Due.{HostTakesDue};
    ghost use Rattle.ensemble.specs.Nodes.{HostMoves, VerifierMoves, RunsAll, size_of};
    ghost use Rattle.ensemble.specs.Trimming.{VerifierTrimsDue, AreTrimmedBelow};
    ghost use Rattle.ensemble.specs.Calls.{HostPosts, RefusedNothing, sent_below, CollectedBelow, HaveRun, AllCollected};
    ghost use Rattle.ensemble.specs.Served.{NoBatchAt, NoBatchBelow, IsAtRest};
    ghost use Rattle.ensemble.specs.Moments.{IsNow};
    ghost use Rattle.ensemble.specs.Ensemble.{KeepsLogs, answer_entry, answer_log, order_entry, order_log, moment_entry, Answers};

    /// The first letter that is under way comes: what it answers.
    fn deliver(&mut self, alloc: Global) -> Option<Answer>
        ensures asked { self.new.asked ≡ self.old.asked }
        ensures found { self.new.found ≡ self.old.found }
        ensures answered { self.new.answered ≡ self.old.answered ++ answer_log result }
        ensures order { self.new.order ≡ self.old.order ++ order_log result }
        ensures counted { self.old.refused ≤ self.new.refused }
        ensures size { size_of self.new.nodes ≡ size_of self.old.nodes }
        ensures waits { AllCollected self.old.nodes → AllCollected self.new.nodes }
    {
        let answer = self.nodes.deliver(alloc, &mut self.refused)?;
        self.answered = self
            .answered
            .and(&(answer.proxy, answer.number), &answer.reply);
        self.order = self
            .order
            .and(&(answer.proxy, answer.number), &Noted::Answered);
        Some(answer)
    }

    /// The first letter comes; what it answers comes behind these. False: no letter is under way, or it is a decree and
    /// none is wanted, or there is no memory for an answer, and nothing was done.
    fn deliver_to(&mut self, alloc: Global, decrees: bool, answers: &mut Vec<Answer>) -> bool
        ensures asked { self.new.asked ≡ self.old.asked }
        ensures found { self.new.found ≡ self.old.found }
        ensures answered { Answers self.old.answered self.old.order answers.old.items self.new.answered self.new.order answers.new.items }
        ensures counted { self.old.refused ≤ self.new.refused }
        ensures size { size_of self.new.nodes ≡ size_of self.old.nodes }
        ensures waits { AllCollected self.old.nodes → AllCollected self.new.nodes }
    {
        if !decrees && self.nodes.is_decree_next() {
            return false;
        }
        if !self.nodes.has_letters() || answers.reserve(1).is_err() {
            return false;
        }
        if let Some(answer) = self.deliver(alloc) {
            answers.push_reserved(answer);
        }
        true
    }

    /// All letters come, and those that they lead to, or if no `decrees` are wanted all before the first of these. What
    /// they answer comes behind these answers. It ends early if there is no memory for an answer; then the letters stay
    /// under way.
    fn deliver_all(&mut self, alloc: Global, decrees: bool, answers: &mut Vec<Answer>)
        ensures asked { self.new.asked ≡ self.old.asked }
        ensures found { self.new.found ≡ self.old.found }
        ensures answered { Answers self.old.answered self.old.order answers.old.items self.new.answered self.new.order answers.new.items }
        ensures counted { self.old.refused ≤ self.new.refused }
        ensures size { size_of self.new.nodes ≡ size_of self.old.nodes }
        ensures waits { AllCollected self.old.nodes → AllCollected self.new.nodes }
    {
        for _ in 0..MOST_LETTERS {
            if !self.deliver_to(alloc, decrees, answers) {
                return;
            }
        }
    }

    /// All letters come. How long that takes up to the first decree, and from then on, is counted.
    fn deliver_timed<C: Clock>(&mut self, clock: &C, alloc: Global, answers: &mut Vec<Answer>)
        ensures asked { self.new.asked ≡ self.old.asked }
        ensures found { self.new.found ≡ self.old.found }
        ensures answered { Answers self.old.answered self.old.order answers.old.items self.new.answered self.new.order answers.new.items }
        ensures counted { self.old.refused ≤ self.new.refused }
        ensures size { size_of self.new.nodes ≡ size_of self.old.nodes }
        ensures waits { AllCollected self.old.nodes → AllCollected self.new.nodes }
    {
        self.deliver_all(alloc, false, answers);
        self.stopwatch.decide(clock);
        self.deliver_all(alloc, true, answers);
        self.stopwatch.settle(clock);
    }

    /// The executor of this number gets the order that its host holds, if its turn has come: whether it has.
    fn take_held(&mut self, alloc: Global, id: u8) -> bool
        ensures logs { KeepsLogs self.old self.new }
        ensures counted { self.old.refused ≤ self.new.refused }
        ensures size { size_of self.new.nodes ≡ size_of self.old.nodes }
        ensures waits { AllCollected self.old.nodes → AllCollected self.new.nodes }
        ensures due { HostMoves HostTakesDue id self.old.nodes self.new.nodes }
    {
        self.nodes.take_held(alloc, id, &mut self.refused)
    }

    /// Each executor gets the order whose turn has come: whether there was one.
    fn take_orders(&mut self, alloc: Global) -> bool
        ensures logs { KeepsLogs self.old self.new }
        ensures counted { self.old.refused ≤ self.new.refused }
        ensures size { size_of self.new.nodes ≡ size_of self.old.nodes }
        ensures waits { AllCollected self.old.nodes → AllCollected self.new.nodes }
    {
        let mut has_taken = false;
        for id in 0..self.members() {
            if self.take_held(alloc, id) {
                has_taken = true;
            }
        }
        has_taken
    }

    /// Each executor that has a job runs it.
    fn run<R: Threads + Wait + Sync>(&mut self, rt: &R, alloc: Global)
        ensures logs { KeepsLogs self.old self.new }
        ensures counted { self.old.refused ≤ self.new.refused }
        ensures size { size_of self.new.nodes ≡ size_of self.old.nodes }
        ensures ran { RunsAll self.old.nodes self.new.nodes }
        ensures uncounted { self.new.refused ≡ self.old.refused }
    {
        a_run_is_steps();
        self.nodes.run_jobs(rt, alloc);
    }

    /// What the executor of this number sent when it ran its job is under way.
    fn collect(&mut self, alloc: Global, id: u8)
        ensures logs { KeepsLogs self.old self.new }
        ensures counted { self.old.refused ≤ self.new.refused }
        ensures size { size_of self.new.nodes ≡ size_of self.old.nodes }
        ensures collected { HostMoves HostCollects id self.old.nodes self.new.nodes }
        ensures posted { RefusedNothing self.old.refused self.new.refused → HostPosts HostCollects id self.old.nodes self.new.nodes }
    {
        self.nodes.collect(alloc, id, &mut self.refused);
    }

    /// What each executor sent when it ran its job is under way.
    fn collect_all(&mut self, alloc: Global)
        ensures logs { KeepsLogs self.old self.new }
        ensures counted { self.old.refused ≤ self.new.refused }
        ensures size { size_of self.new.nodes ≡ size_of self.old.nodes }
        ensures collected { CollectedBelow (2 * self.old.nodes.u + 1) self.old.nodes self.new.nodes }
        ensures posted { RefusedNothing self.old.refused self.new.refused → self.new.nodes.mail ≡ self.old.nodes.mail ++ sent_below (2 * self.old.nodes.u + 1) self.old.nodes.executors }
    {
        for id in 0..self.members() {
            self.collect(alloc, id);
        }
    }

    /// Each executor that has a job runs it. How long that takes is counted.
    fn run_timed<R: Threads + Wait + Sync, C: Clock>(&mut self, rt: &R, clock: &C, alloc: Global)
        ensures logs { KeepsLogs self.old self.new }
        ensures counted { self.old.refused ≤ self.new.refused }
        ensures size { size_of self.new.nodes ≡ size_of self.old.nodes }
        ensures ran { RunsAll self.old.nodes self.new.nodes }
        ensures uncounted { self.new.refused ≡ self.old.refused }
    {
        self.stopwatch.begin(clock);
        self.run(rt, alloc);
        self.stopwatch.run(clock);
    }

    /// All jobs are run, and what that sends is under way: whether there was a job.
    fn run_jobs<R: Threads + Wait + Sync, C: Clock>(
        &mut self,
        rt: &R,
        clock: &C,
        alloc: Global,
    ) -> bool
        ensures logs { KeepsLogs self.old self.new }
        ensures counted { self.old.refused ≤ self.new.refused }
        ensures size { size_of self.new.nodes ≡ size_of self.old.nodes }
        ensures waits { AllCollected self.old.nodes → AllCollected self.new.nodes }
        ensures none { result ≡ false → (self.new.nodes ≡ self.old.nodes) × (list_any has_job self.old.nodes.executors ≡ false) }
        ensures ran { result ≡ true → HaveRun self.old.refused self.new.refused self.old.nodes self.new.nodes }
    {
        if !self.nodes.has_jobs() {
            return false;
        }
        self.run_timed(rt, clock, alloc);
        self.collect_all(alloc);
        true
    }

    /// The executor of this number is to cut a batch: whether that led to anything.
    fn cut_at(&mut self, alloc: Global, id: u8, moment: u32) -> bool
        requires { IsNow self.old.order moment }
        ensures logs { KeepsLogs self.old self.new }
        ensures counted { self.old.refused ≤ self.new.refused }
        ensures size { size_of self.new.nodes ≡ size_of self.old.nodes }
        ensures waits { AllCollected self.old.nodes → AllCollected self.new.nodes }
        ensures nothing { result ≡ false → NoBatchAt id self.old.nodes self.new.nodes }
        ensures same_u { self.new.nodes.u ≡ self.old.nodes.u }
    {
        self.nodes.cut(alloc, id, moment, &mut self.refused)
    }

    /// Each executor is to cut a batch of what waits; one that does not lead does nothing. The result is
    /// whether that led to anything.
    fn cut(&mut self, alloc: Global, moment: u32) -> bool
        requires { IsNow self.old.order moment }
        ensures logs { KeepsLogs self.old self.new }
        ensures counted { self.old.refused ≤ self.new.refused }
        ensures size { size_of self.new.nodes ≡ size_of self.old.nodes }
        ensures waits { AllCollected self.old.nodes → AllCollected self.new.nodes }
        ensures nothing { result ≡ false → NoBatchBelow (2 * self.new.nodes.u + 1) self.new.nodes }
    {
        let mut has_cut = false;
        for id in 0..self.members() {
            if self.cut_at(alloc, id, moment) {
                has_cut = true;
                self.progress.cuts = self.progress.cuts.wrapping_add(1);
            }
        }
        has_cut
    }

    /// The verifier of this number forgets old decrees, if its log is long.
    fn trim_at(&mut self, alloc: Global, id: u8)
        ensures logs { KeepsLogs self.old self.new }
        ensures counted { self.old.refused ≤ self.new.refused }
        ensures size { size_of self.new.nodes ≡ size_of self.old.nodes }
        ensures waits { AllCollected self.old.nodes → AllCollected self.new.nodes }
        ensures due { VerifierMoves VerifierTrimsDue id self.old.nodes self.new.nodes }
    {
        self.nodes.trim(alloc, id, &mut self.refused);
    }

    /// Each verifier whose log is long forgets old decrees. `work` does so too.
    pub fn trim(&mut self, alloc: Global)
        ensures logs { KeepsLogs self.old self.new }
        ensures counted { self.old.refused ≤ self.new.refused }
        ensures size { size_of self.new.nodes ≡ size_of self.old.nodes }
        ensures waits { AllCollected self.old.nodes → AllCollected self.new.nodes }
        ensures told { AreTrimmedBelow (2 * self.old.nodes.u + 1) self.old.nodes self.new.nodes }
    {
        for id in 0..self.members() {
            self.trim_at(alloc, id);
        }
    }

    /// How many executors there are, and as many verifiers.
    fn members(&self) -> u8
        ensures { result ≡ 2 * self.now.nodes.u + 1 }
    {
        self.nodes.members()
    }

    /// All letters come, and then the next thing is done that can be: whether there was any. If there is no memory for
    /// an answer nothing is done, and letters stay under way.
    fn go_on<R: Threads + Wait + Sync, C: Clock>(
        &mut self,
        rt: &R,
        clock: &C,
        alloc: Global,
        moment: u32,
        answers: &mut Vec<Answer>,
    ) -> bool
        requires { IsNow self.old.order moment }
        ensures asked { self.new.asked ≡ self.old.asked }
        ensures found { self.new.found ≡ self.old.found }
        ensures answered { Answers self.old.answered self.old.order answers.old.items self.new.answered self.new.order answers.new.items }
        ensures counted { self.old.refused ≤ self.new.refused }
        ensures size { size_of self.new.nodes ≡ size_of self.old.nodes }
        ensures waits { AllCollected self.old.nodes → AllCollected self.new.nodes }
        ensures nothing { result ≡ false → has_letters self.new.nodes ≡ false → NoBatchBelow (2 * self.new.nodes.u + 1) self.new.nodes }
    {
        self.deliver_timed(clock, alloc, answers);
        if self.nodes.has_letters() {
            return false;
        }
        if self.take_orders(alloc) {
            return true;
        }
        if self.run_jobs(rt, clock, alloc) {
            return true;
        }
        self.cut(alloc, moment)
    }

    /// It goes on until nothing more can be done, or there is no memory for an answer: whether one of these came about.
    /// False: it ended after a great many rounds.
    fn go_on_to_the_end<R: Threads + Wait + Sync, C: Clock>(
        &mut self,
        rt: &R,
        clock: &C,
        alloc: Global,
        moment: u32,
        answers: &mut Vec<Answer>,
    ) -> bool
        requires { IsNow self.old.order moment }
        ensures asked { self.new.asked ≡ self.old.asked }
        ensures found { self.new.found ≡ self.old.found }
        ensures answered { Answers self.old.answered self.old.order answers.old.items self.new.answered self.new.order answers.new.items }
        ensures counted { self.old.refused ≤ self.new.refused }
        ensures size { size_of self.new.nodes ≡ size_of self.old.nodes }
        ensures waits { AllCollected self.old.nodes → AllCollected self.new.nodes }
        ensures nothing { result ≡ true → has_letters self.new.nodes ≡ false → NoBatchBelow (2 * self.new.nodes.u + 1) self.new.nodes }
    {
        for _ in 0..MOST_ROUNDS {
            if !self.go_on(rt, clock, alloc, moment, answers) {
                return true;
            }
        }
        false
    }

    /// From now on a batch that is cut is of this moment, in seconds.
    fn note(&mut self, moment: u32)
        ensures order { self.new.order ≡ self.old.order ++ moment_entry moment ∷ [] }
        ensures others { self.new ≡ record self.old { order = self.new.order } }
    {
        self.order = self.order.and(&(0, u64::from(moment)), &Noted::Moment);
    }

    /// The replicas work until nothing more can be done: the answers. A batch that is cut is of this moment,
    /// in seconds. It ends early if there is no memory for an answer, or after a great many rounds; then that is
    /// counted (`refused`), and the next call goes on. What is lost on the way for want of memory is counted, too. No
    /// executor has run a job of which nothing was collected, if none had before.
    pub fn work<R: Threads + Wait + Sync, C: Clock>(
        &mut self,
        rt: &R,
        clock: &C,
        alloc: Global,
        moment: u32,
    ) -> Vec<Answer>
        ensures asked { self.new.asked ≡ self.old.asked }
        ensures found { self.new.found ≡ self.old.found }
        ensures answered { self.new.answered ≡ self.old.answered ++ map answer_entry result.items }
        ensures order { self.new.order ≡ (self.old.order ++ moment_entry moment ∷ []) ++ map order_entry result.items }
        ensures counted { self.old.refused ≤ self.new.refused }
        ensures size { size_of self.new.nodes ≡ size_of self.old.nodes }
        ensures waits { AllCollected self.old.nodes → AllCollected self.new.nodes }
        ensures rest { self.new.refused ≡ self.old.refused → self.old.refused < 2 ^ 64 - 1 → IsAtRest self.new.nodes }
    {
        let mut answers = Vec::new(alloc);
        self.note(moment);
        self.trim(alloc);
        let is_done = self.go_on_to_the_end(rt, clock, alloc, moment, &mut answers);
        self.look(is_done);
        answers
    }

    /// Notes how far the executors have come, and whether more can be done. It is counted if it can.
    fn look(&mut self, is_done: bool)
        ensures same { self.new ≡ record self.old { refused = self.new.refused } }
        ensures counted { self.old.refused ≤ self.new.refused }
        ensures done { self.new.refused ≡ self.old.refused → self.old.refused < 2 ^ 64 - 1 → is_done ≡ true }
        ensures quiet { self.new.refused ≡ self.old.refused → self.old.refused < 2 ^ 64 - 1 → is_quiet self.old.nodes ≡ true }
    {
        self.progress.look_at(self.nodes.executors.as_slice());
        if is_done && self.nodes.is_quiet() {
            self.progress.rest();
        } else {
            self.progress.is_at_rest = false;
            refuse(&mut self.refused);
        }
    }
}

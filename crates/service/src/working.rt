//! What was asked is carried out.

ghost use Rattle.std.specs.Prelude.{List, Option, true, ◌≡◌, ◌<◌, ◌≤◌, ◌-◌, ◌^◌, IfSome, IfNone};
ghost use Rattle.std.specs.Vec.{vec_len, vec_capacity};
ghost use Rattle.std.specs.VecDeque.{deque_len, deque_capacity};
ghost use Rattle.ensemble.specs.Nodes.{IsFree};
ghost use Rattle.service.specs.declared.assignment.Outstanding.{Outstanding as OutstandingView};
ghost use Rattle.service.specs.Service.{AnswersTo, assigned};
ghost use Rattle.service.specs.Steps.{Settles};
ghost use Rattle.service.specs.Owed.{AllWait, IsFreeIn, RepliesAt, EndsWaitAt, Remembers};
ghost use Rattle.service.specs.Told.{MayTell, TellsIn, UnlessRefused};

use crate::asking::{Asking, ask};
use crate::assignment::{Assignment, Outstanding};
use crate::hearing::enqueue;
use crate::note::{Note, Waiting};
use crate::pool::Pool;
use crate::service::Service;
use connections::Connections;
use ensemble::{Answer, Ensemble};
use ghost_log::GhostLog;
use housekeeping::Patience;
use loop_messages::Said;
use proto::Reply;
use std::alloc::Global;
use std::collections::VecDeque;
use std::rt::Clock;
use std::sync::Wait;
use std::thread::Threads;

/// The most passes of one call. A connection that asks many commands at once is given the replies so far.
const MOST_PASSES: usize = 4;

/// Makes room for all that a pass with so many proxies gives: one for each that cannot ask, and one for each that is
/// answered. And for those that join the queue in it.
fn has_room(said: &mut Vec<Said>, queue: &mut VecDeque<Waiting>, proxies: usize) -> bool
    ensures said { said.new.items ≡ said.old.items }
    ensures queue { queue.new.items ≡ queue.old.items }
{
    said.reserve(proxies.saturating_mul(2)).is_ok() && queue.reserve(proxies).is_ok()
}

/// One thing more was left undone for want of memory. The count stays at 2^64 - 1.
fn refuse(refused: &mut u64)
    ensures counted { refused.old ≤ refused.new }
    ensures more { refused.old < 2 ^ 64 - 1 → refused.old < refused.new }
{
    *refused = refused.saturating_add(1);
}

/// Makes room for one that is given, and for one that joins the queue.
fn has_room_for_one(said: &mut Vec<Said>, queue: &mut VecDeque<Waiting>) -> bool
    ensures said { said.new.items ≡ said.old.items }
    ensures queue { queue.new.items ≡ queue.old.items }
    ensures room_said { result ≡ true → vec_len said.new < vec_capacity said.new }
    ensures room_queue { result ≡ true → deque_len queue.new < deque_capacity queue.new }
{
    said.reserve(1).is_ok() && queue.reserve(1).is_ok()
}

/// The number of the first proxy that waits for nothing and has nothing outstanding. One that had asked when the process
/// before this one ended has something outstanding, and nobody waits for it.
fn askable_proxy(pool: &Pool, ensemble: &Ensemble) -> Option<u16>
    ensures pool { IfSome result (λ proxy. IsFreeIn pool.now proxy) }
    ensures free { IfSome result (λ proxy. IsFree ensemble.now.nodes.proxies proxy) }
{
    for at in 0..pool.count() {
        if let Some(proxy) = pool.free_at(at) {
            if ensemble.is_free(proxy) {
                return Some(proxy);
            }
        }
    }
    None
}

/// The number of a proxy that waits for nothing and has nothing outstanding, if there is one. If all that wait for nothing
/// have something outstanding nothing can be asked, and that is counted.
fn free_proxy(pool: &Pool, ensemble: &Ensemble, refused: &mut u64) -> Option<u16>
    ensures pool { IfSome result (λ proxy. IsFreeIn pool.now proxy) }
    ensures free { IfSome result (λ proxy. IsFree ensemble.now.nodes.proxies proxy) }
    ensures none { IfNone result (UnlessRefused refused.old refused.new (AllWait pool.now)) }
    ensures counted { refused.old ≤ refused.new }
{
    let _ = pool.free()?;
    if let Some(proxy) = askable_proxy(pool, ensemble) {
        return Some(proxy);
    }
    refuse(refused);
    None
}

/// The connection that asked takes the reply, if it is here. There is room for what it is given.
fn give_reply(
    alloc: Global,
    connections: &mut Connections,
    outstanding: &Outstanding,
    reply: Reply,
    said: &mut Vec<Said>,
)
    requires { vec_len said.old < vec_capacity said.old }
    ensures answers { AnswersTo outstanding.now.assignment reply connections.old connections.new said.old.items said.new.items }
    ensures table { RepliesAt (record { key = outstanding.now.key; number = outstanding.now.assignment.connection }) outstanding.now.assignment.turn connections.old.table connections.new.table }
    ensures told { MayTell (record { key = outstanding.now.key; number = outstanding.now.assignment.connection }) connections.old.table connections.new.table said.old.items said.new.items }
{
    let at = outstanding.connection_id();
    if let Some(given) = connections.answer(alloc, at, outstanding.assignment.turn, reply) {
        said.push_reserved(given);
    }
}

/// The connection that asked takes the reply, if it is here, and joins the queue with its next command. If there is no
/// memory for what it is given, or for it in the queue, it leaves.
fn answer_to(
    alloc: Global,
    connections: &mut Connections,
    queue: &mut VecDeque<Waiting>,
    outstanding: &Outstanding,
    reply: Reply,
    said: &mut Vec<Said>,
    since: u64,
    refused: &mut u64,
)
    ensures answers { AnswersTo outstanding.now.assignment reply connections.old connections.new said.old.items said.new.items }
    ensures counted { refused.old ≤ refused.new }
    ensures tells { TellsIn connections.old.table refused.old said.old.items connections.new.table refused.new said.new.items }
    ensures remembers { (pool pool_now : List (Option OutstandingView)) → EndsWaitAt pool outstanding.now pool_now → Remembers queue.old.items pool connections.old.table → Remembers queue.new.items pool_now connections.new.table }
{
    let at = outstanding.connection_id();
    if !has_room_for_one(said, queue) {
        connections.leave(at);
        refuse(refused);
        return;
    }
    give_reply(alloc, connections, outstanding, reply, said);
    enqueue(connections, queue, at, since);
}

/// Keeps what came of it that a command was to be asked, of a connection that is at this key.
#[tactic(auto, using(crate::proofs::KeepLemmas::assigned_more))]
fn settle(
    pool: &mut Pool,
    assignments: &mut GhostLog<Assignment, u16>,
    said: &mut Vec<Said>,
    patience: Patience,
    note: Note,
    key: usize,
    asking: Asking,
)
    requires { vec_len said.old < vec_capacity said.old }
    ensures { Settles key asking pool.old pool.new (assigned assignments.old.items) (assigned assignments.new.items) said.old.items said.new.items }
{
    match asking {
        Asking::Nothing => {}
        Asking::Asked(assignment) => {
            *assignments = assignments.and(&assignment, &assignment.proxy);
            pool.wait_for(Outstanding {
                key,
                assignment,
                patience,
                note,
            });
        }
        Asking::Failed(given) => {
            said.push_reserved(given);
        }
    }
}

impl Service {
    ghost use Rattle.std.specs.Prelude.{◌≡◌, ◌<◌, ◌≤◌, ◌++◌, ◌∷◌, [], true, false, length, map, Contains};
    ghost use Rattle.connections.specs.History.{moment_as};
    ghost use Rattle.ensemble.specs.Nodes.{size_of};
    ghost use Rattle.ensemble.specs.Ensemble.{answer_entry, order_entry};
    ghost use Rattle.service.specs.Service.{Gives, AreLogged, RestsUnlessRefused, IsPassedNow, IsSameProcess, given_entry, passed_entry};
    ghost use Rattle.service.specs.Told.{AreTold, LeaversAreTold, TellsMore, UnlessRefused, AsksAll, HasMoreAnswers, AsksWhatWaits};

    /// The first of the queue asks its command, if a proxy is free: whether there were both.
    fn assign(&mut self, alloc: Global, said: &mut Vec<Said>) -> bool
        ensures given { Gives self.old.connections said.old.items self.new.connections said.new.items }
        ensures tells { TellsMore self.old said.old.items self.new said.new.items }
        ensures stops { result ≡ false → UnlessRefused self.old.replicas.refused self.new.replicas.refused (AsksAll self.new) }
        ensures goes_on { result ≡ true → length self.new.queue < length self.old.queue }
        ensures answered { self.new.answered ≡ self.old.answered }
        ensures heard { self.new.connections.heard ≡ self.old.connections.heard }
        ensures process { IsSameProcess self.old self.new }
        ensures counted { self.old.replicas.refused ≤ self.new.replicas.refused }
        ensures size { size_of self.new.replicas.ensemble.nodes ≡ size_of self.old.replicas.ensemble.nodes }
    {
        if said.reserve(1).is_err() {
            refuse(&mut self.refused);
            return false;
        }
        let Some(proxy) = free_proxy(&self.pool, &self.ensemble, &mut self.refused) else {
            return false;
        };
        let Some(waiting) = self.queue.pop_front() else {
            return false;
        };
        let seen = self.ensemble.seen();
        let mut note = Note::new(self.counting.since(waiting.since));
        let asking = ask(
            alloc,
            &mut self.connections,
            &mut self.ensemble,
            waiting.at,
            proxy,
            &mut note,
        );
        settle(
            &mut self.pool,
            &mut self.assignments,
            said,
            Patience::new(seen),
            note,
            waiting.at.key,
            asking,
        );
        self.connections.always();
        true
    }

    /// All that wait ask, as far as proxies are free.
    fn assign_all(&mut self, alloc: Global, said: &mut Vec<Said>)
        ensures given { Gives self.old.connections said.old.items self.new.connections said.new.items }
        ensures tells { TellsMore self.old said.old.items self.new said.new.items }
        ensures asks { UnlessRefused self.old.replicas.refused self.new.replicas.refused (AsksAll self.new) }
        ensures answered { self.new.answered ≡ self.old.answered }
        ensures heard { self.new.connections.heard ≡ self.old.connections.heard }
        ensures process { IsSameProcess self.old self.new }
        ensures counted { self.old.replicas.refused ≤ self.new.replicas.refused }
        ensures size { size_of self.new.replicas.ensemble.nodes ≡ size_of self.old.replicas.ensemble.nodes }
    {
        while self.assign(alloc, said) {}
    }

    /// The reply goes to the connection that asked, if it is here.
    fn answer(&mut self, alloc: Global, answer: Answer, said: &mut Vec<Said>)
        requires logged { Contains self.old.answered (answer_entry answer) }
        requires ordered { Contains self.old.order (order_entry answer) }
        ensures given { Gives self.old.connections said.old.items self.new.connections said.new.items }
        ensures tells { TellsMore self.old said.old.items self.new said.new.items }
        ensures heard { self.new.connections.heard ≡ self.old.connections.heard }
        ensures process { IsSameProcess self.old self.new }
        ensures answered { self.new.answered ≡ self.old.answered }
        ensures order { self.new.order ≡ self.old.order }
        ensures counted { self.old.replicas.refused ≤ self.new.replicas.refused }
        ensures ensemble { self.new.replicas.ensemble ≡ self.old.replicas.ensemble }
    {
        let Answer {
            proxy,
            number,
            reply,
        } = answer;
        let Some(outstanding) = self.pool.answered(proxy, number) else {
            return;
        };
        self.counting.answer(outstanding.note, &reply);
        answer_to(
            alloc,
            &mut self.connections,
            &mut self.queue,
            &outstanding,
            reply,
            said,
            self.counting.micros(),
            &mut self.refused,
        );
        self.connections.always();
    }

    /// All replies go to the connections that asked.
    fn answer_all(&mut self, alloc: Global, mut answers: Vec<Answer>, said: &mut Vec<Said>)
        requires { AreLogged answers.items self.old.answered self.old.order }
        ensures given { Gives self.old.connections said.old.items self.new.connections said.new.items }
        ensures tells { TellsMore self.old said.old.items self.new said.new.items }
        ensures none { answers.items ≡ [] → (self.new.queue ≡ self.old.queue) × (self.new.waiting ≡ self.old.waiting) }
        ensures answered { self.new.answered ≡ self.old.answered }
        ensures heard { self.new.connections.heard ≡ self.old.connections.heard }
        ensures process { IsSameProcess self.old self.new }
        ensures counted { self.old.replicas.refused ≤ self.new.replicas.refused }
        ensures ensemble { self.new.replicas.ensemble ≡ self.old.replicas.ensemble }
    {
        // In which order makes no difference: each is for another proxy, and so for another connection.
        while let Some(answer) = answers.pop() {
            self.answer(alloc, answer, said);
        }
    }

    /// The replicas work: what they answer.
    fn execute<R: Threads + Wait + Sync, C: Clock>(
        &mut self,
        rt: &R,
        clock: &C,
        alloc: Global,
        moment: u32,
    ) -> Vec<Answer>
        requires { IsPassedNow self.old.connections.passed moment }
        ensures logged { AreLogged result.items self.new.answered self.new.order }
        ensures answered { self.new.answered ≡ self.old.answered ++ map answer_entry result.items }
        ensures process { IsSameProcess self.old self.new }
        ensures connections { self.new.connections ≡ self.old.connections }
        ensures same { (self.new.queue ≡ self.old.queue) × (self.new.waiting ≡ self.old.waiting) }
        ensures counted { self.old.replicas.refused ≤ self.new.replicas.refused }
        ensures size { size_of self.new.replicas.ensemble.nodes ≡ size_of self.old.replicas.ensemble.nodes }
        ensures rest { RestsUnlessRefused self.old.replicas self.new.replicas }
    {
        self.ensemble.work(rt, clock, alloc, moment)
    }

    /// Counts how long the parts of the batches took that were carried out since this was last called.
    fn count_times(&mut self)
        ensures { self.new ≡ self.old }
    {
        if let Some(times) = self.ensemble.take_times() {
            self.counting.work(times);
        }
    }

    /// Asks the replicas what waits, and gives what they answer: whether more may be asked at once.
    fn pass<R: Threads + Wait + Sync, C: Clock>(
        &mut self,
        rt: &R,
        clock: &C,
        alloc: Global,
        moment: u32,
        said: &mut Vec<Said>,
    ) -> bool
        requires { IsPassedNow self.old.connections.passed moment }
        ensures given { Gives self.old.connections said.old.items self.new.connections said.new.items }
        ensures tells { TellsMore self.old said.old.items self.new said.new.items }
        ensures stops { result ≡ false → UnlessRefused self.old.replicas.refused self.new.replicas.refused (AsksAll self.new) }
        ensures goes_on { HasMoreAnswers 0 self.old self.new × (result ≡ true → HasMoreAnswers 1 self.old self.new) }
        ensures heard { self.new.connections.heard ≡ self.old.connections.heard }
        ensures process { IsSameProcess self.old self.new }
        ensures counted { self.old.replicas.refused ≤ self.new.replicas.refused }
        ensures size { size_of self.new.replicas.ensemble.nodes ≡ size_of self.old.replicas.ensemble.nodes }
        ensures rest { RestsUnlessRefused self.old.replicas self.new.replicas }
    {
        if !has_room(said, &mut self.queue, self.pool.count()) {
            refuse(&mut self.refused);
            return false;
        }
        self.assign_all(alloc, said);
        let answers = self.execute(rt, clock, alloc, moment);
        let goes_on = !answers.is_empty();
        self.answer_all(alloc, answers, said);
        goes_on && !self.queue.is_empty()
    }

    /// Passes, as long as replies come and commands wait, but not too many.
    fn passes<R: Threads + Wait + Sync, C: Clock>(
        &mut self,
        rt: &R,
        clock: &C,
        alloc: Global,
        moment: u32,
        said: &mut Vec<Said>,
    )
        requires { IsPassedNow self.old.connections.passed moment }
        ensures given { Gives self.old.connections said.old.items self.new.connections said.new.items }
        ensures tells { TellsMore self.old said.old.items self.new said.new.items }
        ensures asks { UnlessRefused self.old.replicas.refused self.new.replicas.refused (AsksWhatWaits self.old self.new) }
        ensures heard { self.new.connections.heard ≡ self.old.connections.heard }
        ensures process { IsSameProcess self.old self.new }
        ensures counted { self.old.replicas.refused ≤ self.new.replicas.refused }
        ensures size { size_of self.new.replicas.ensemble.nodes ≡ size_of self.old.replicas.ensemble.nodes }
        ensures rest { RestsUnlessRefused self.old.replicas self.new.replicas }
    {
        for _ in 0..MOST_PASSES {
            if !self.pass(rt, clock, alloc, moment, said) {
                return;
            }
        }
    }

    /// From now on it is this moment, in seconds.
    fn note(&mut self, alloc: Global, moment: u32)
        ensures passed { self.new.connections.passed ≡ self.old.connections.passed ++ moment_as moment ∷ [] }
        ensures heard { self.new.connections.heard ≡ self.old.connections.heard }
        ensures process { IsSameProcess self.old self.new }
        ensures given { self.new.connections.given ≡ self.old.connections.given }
        ensures table { self.new.connections.table ≡ self.old.connections.table }
        ensures answered { self.new.answered ≡ self.old.answered }
        ensures replicas { self.new.replicas ≡ self.old.replicas }
    {
        self.connections.note(alloc, moment);
        self.connections.always();
    }

    /// Asks what waits, carries it out, and gives what was answered, at this moment in seconds. A reply may be
    /// followed by the next command of its connection, which is asked in the same call, up to 4 of them; `is_ready`
    /// tells whether more could be asked at once. A connection stays at its key unless it is told to close, and what it
    /// is told last says whether a command of it is outstanding.
    ///
    /// If memory is wanted a connection is closed, or what waits waits on, and that is counted (`refused`). If nothing
    /// was counted the replicas are at rest then: they can do nothing more at once. And no command waits while a proxy
    /// is free, unless 4 replies or more came back in the call.
    pub fn work<R: Threads + Wait + Sync, C: Clock>(
        &mut self,
        rt: &R,
        clock: &C,
        alloc: Global,
        moment: u32,
    ) -> Vec<Said>
        ensures given { self.new.connections.given ≡ self.old.connections.given ++ map given_entry result.items }
        ensures passed { self.new.connections.passed ≡ (self.old.connections.passed ++ moment_as moment ∷ []) ++ map passed_entry result.items }
        ensures told { AreTold self.old.connections.table self.new.connections.table result.items }
        ensures leavers { UnlessRefused self.old.replicas.refused self.new.replicas.refused (LeaversAreTold self.old.connections.table self.new.connections.table result.items) }
        ensures asks { UnlessRefused self.old.replicas.refused self.new.replicas.refused (AsksWhatWaits self.old self.new) }
        ensures heard { self.new.connections.heard ≡ self.old.connections.heard }
        ensures process { IsSameProcess self.old self.new }
        ensures counted { self.old.replicas.refused ≤ self.new.replicas.refused }
        ensures size { size_of self.new.replicas.ensemble.nodes ≡ size_of self.old.replicas.ensemble.nodes }
        ensures rest { RestsUnlessRefused self.old.replicas self.new.replicas }
    {
        let mut said = Vec::new(alloc);
        self.note(alloc, moment);
        self.passes(rt, clock, alloc, moment, &mut said);
        self.count_times();
        said
    }
}

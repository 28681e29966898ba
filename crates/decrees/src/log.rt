ghost use Rattle.std.specs.Prelude.{◌≡◌, ◌<◌, ◌≤◌, ◌^◌, ◌+◌, ◌↔◌, ◌⊎◌, [], ◌∷◌, ◌++◌, length, take, IsTrue, IsSome, None, OnOk, OnErr, IfOk, IfErr, IfSome, Err, not, vec_len};
ghost use Rattle.decrees.specs.Record.{decrees_text};
ghost use Rattle.decrees.specs.Standing.{may_follow as next, is_log_from};
ghost use Rattle.decrees.specs.Start.{first_start, stands_from, decree_after, could_stand};
ghost use Rattle.decrees.specs.Log.{known_in, standing_in, trimmed_to, IsStandingOf};

use crate::decree::Decree;
use crate::log_text::LogText;
use crate::standing::Standing;
use crate::start::Start;
use base::Text;
use proto::Fault;
use std::alloc::{AllocError, Global};
use std::marker::Model;

const LIMIT: usize = u32::MAX as usize;

/// So many decrees are known at most, those that are forgotten too: the place after them has a number.
const MOST_KNOWN: u64 = u64::MAX - 1;

/// The decrees that are known, without a gap, after a start: those up to there are forgotten, and
/// what they stood for is kept. It has at most `2^32 - 1` of them, and the place after the last one
/// is below `2^64`.
///
/// It keeps their text too, in pieces that a record of them shares.
pub struct Log {
    start: Start,
    decrees: Vec<Decree>,
    text: LogText,
    standing: Standing,
}

impl Drop for Log {
    fn drop(self) {
        let Log {
            start: _,
            decrees: _,
            text: _,
            standing: _,
        } = self;
    }
}

impl Model for Log {
    ghost use Rattle.std.specs.Prelude.{◌≡◌};
    ghost use Rattle.decrees.specs.Record.{decrees_text};
    ghost use Rattle.decrees.specs.Log.{LogView, IsKept};

    ghost Value = { LogView };

    ghost view = { λ log. record { start = log.start; decrees = log.decrees.items } };

    ghost invariant = { λ log. IsKept log.start log.decrees.items log.standing × (log.text ≡ decrees_text log.decrees.items) };
}

/// What stands after these decrees; none if one of them is a Commit of another number than the one
/// after what stands before it.
fn standing_of(start: &Start, decrees: &[Decree]) -> Option<Standing>
    requires begins { IsTrue (could_stand start.now.place start.now.standing) }
    requires placed { start.now.place + length decrees.now + 1 < 2 ^ 64 }
    ensures stands { IfSome result (IsStandingOf start.now decrees.now) }
    ensures valid { IsSome result → IsTrue (is_log_from start.now.standing decrees.now) }
    ensures none { result ≡ None → IsTrue (not (is_log_from start.now.standing decrees.now)) }
{
    let mut standing = start.standing;
    for decree in decrees {
        if !standing.may_follow(decree) {
            return None;
        }
        standing = standing.after(decree);
    }
    Some(standing)
}

/// These decrees in a vector of their own.
fn copied(alloc: Global, decrees: &[Decree]) -> Result<Vec<Decree>, AllocError>
    ensures { IfOk result (λ all. all.items ≡ decrees.now) }
{
    let mut all = Vec::new(alloc);
    all.extend_from_slice(decrees)?;
    Ok(all)
}

impl Log {
    /// Knows no decree yet.
    pub fn new(alloc: Global) -> Log
        ensures { result ≡ record { start = first_start; decrees = [] } }
    {
        Log {
            start: Start::first(),
            decrees: Vec::new(alloc),
            text: LogText::new(alloc),
            standing: Standing::first(),
        }
    }

    /// The log of these decrees after this start, which could stand there. BadRecord: one of them is a
    /// Commit of another number than the one after what stands before it. NoMemory: an allocation for
    /// the text failed.
    pub fn restored(start: Start, decrees: Vec<Decree>) -> Result<Log, Fault>
        requires begins { IsTrue (could_stand start.place start.standing) }
        requires few { vec_len decrees < 2 ^ 32 }
        requires placed { start.place + vec_len decrees + 1 < 2 ^ 64 }
        ensures ok { IfOk result (λ log. log ≡ record { start = start; decrees = decrees.items }) }
        ensures valid { OnOk result (IsTrue (is_log_from start.standing decrees.items)) }
        ensures only { IfErr result (λ fault. (fault ≡ Fault.BadRecord) ⊎ (fault ≡ Fault.NoMemory)) }
        ensures bad { result ≡ Err Fault.BadRecord → IsTrue (not (is_log_from start.standing decrees.items)) }
    {
        let Some(standing) = standing_of(&start, &decrees) else {
            return Err(Fault::BadRecord);
        };
        let text = LogText::of(*decrees.allocator(), &decrees)?;
        Ok(Log {
            start,
            decrees,
            text,
            standing,
        })
    }

    /// Where it begins.
    pub fn start(&self) -> Start
        ensures { result ≡ self.now.start }
    {
        self.start
    }

    /// How many decrees are known, those that are forgotten too.
    pub fn known(&self) -> u64
        ensures known { result ≡ known_in self.now }
        ensures few { known_in self.now + 1 < 2 ^ 64 }
    {
        self.start.place + self.decrees.len() as u64
    }

    /// What the decrees stand for. It is kept, and not computed again.
    pub fn standing(&self) -> Standing
        ensures standing { result ≡ standing_in self.now }
        ensures few { result.n + 1 < 2 ^ 64 }
    {
        self.standing
    }

    /// The decrees after the start, in order.
    pub fn as_slice(&self) -> &[Decree]
        ensures decrees { result.now ≡ self.now.decrees }
        ensures few { length self.now.decrees < 2 ^ 32 }
    {
        self.decrees.as_slice()
    }

    /// Appends the texts of the decrees after the start in order, as records have them. The text shares
    /// the pieces of the log, and only the tail is copied. If an allocation fails a part may be
    /// there.
    pub fn append_text(&self, text: &mut Text) -> Result<(), AllocError>
        ensures { OnOk result (text.new ≡ text.old ++ decrees_text self.now.decrees) }
    {
        self.text.append_to(text)
    }

    /// The decree of a place, counted from 1; none if it is forgotten, or not known yet.
    pub fn decree(&self, place: u64) -> Option<Decree>
        ensures { result ≡ decree_after self.now.start.place self.now.decrees place }
    {
        let known = self.known();
        if place <= self.start.place || known < place {
            return None;
        }
        Some(self.decrees[(place - (self.start.place + 1)) as usize])
    }

    /// Whether the decree may come next: a Commit has to be of the number after the standing one.
    pub fn may_follow(&self, decree: &Decree) -> bool
        ensures { result ≡ next (standing_in self.now) decree.now }
    {
        self.standing.may_follow(decree)
    }

    /// One decree more. A Commit of another number than the one after the standing one is
    /// BadRecord. If the place after it would have no number it is Stopped. Above `2^32 - 1`
    /// decrees after the start it is NoMemory, as when an allocation fails.
    pub fn learn(&mut self, decree: Decree) -> Result<(), Fault>
        ensures ok { OnOk result (self.new ≡ record { start = self.old.start; decrees = self.old.decrees ++ decree ∷ [] }) }
        ensures bad { (result ≡ Err Fault.BadRecord) ↔ IsTrue (not (next (standing_in self.old) decree)) }
        ensures stopped { result ≡ Err Fault.Stopped → 2 ^ 64 ≤ known_in self.old + 2 }
        ensures only { IfErr result (λ fault. (fault ≡ Fault.BadRecord) ⊎ (fault ≡ Fault.NoMemory) ⊎ (fault ≡ Fault.Stopped)) }
        ensures err { OnErr result (self.new ≡ self.old) }
    {
        if !self.standing.may_follow(&decree) {
            return Err(Fault::BadRecord);
        }
        if self.known() == MOST_KNOWN {
            return Err(Fault::Stopped);
        }
        if self.decrees.len() == LIMIT {
            return Err(Fault::NoMemory);
        }
        self.decrees.reserve(1)?;
        let count = self.decrees.len();
        self.text.push(*self.decrees.allocator(), count, &decree)?;
        self.decrees.push_reserved(decree);
        self.standing = self.standing.after(&decree);
        Ok(())
    }

    /// What stands after so many of its decrees.
    fn standing_at(&self, count: usize) -> Standing
        requires { count ≤ length self.now.decrees }
        ensures { result ≡ stands_from self.now.start.standing (take count self.now.decrees) }
    {
        match standing_of(&self.start, &self.decrees[..count]) {
            Some(standing) => standing,
            None => unreachable!(),
        }
    }

    /// Forgets the decrees up to this place, and keeps what they stand for. Their room is given back.
    /// If an allocation fails nothing changes.
    pub fn trim(&mut self, place: u64) -> Result<(), AllocError>
        requires after { self.old.start.place ≤ place }
        requires known { place ≤ known_in self.old }
        ensures ok { OnOk result (self.new ≡ trimmed_to self.old place) }
        ensures err { OnErr result (self.new ≡ self.old) }
    {
        let count = (place - self.start.place) as usize;
        let alloc = *self.decrees.allocator();
        let decrees = copied(alloc, &self.decrees[count..])?;
        let text = LogText::of(alloc, &decrees)?;
        let standing = self.standing_at(count);
        self.start = Start { place, standing };
        self.decrees = decrees;
        self.text = text;
        Ok(())
    }

    /// The log begins here from now on, with no decree.
    pub fn begin_at(&mut self, start: Start)
        requires begins { IsTrue (could_stand start.place start.standing) }
        requires placed { start.place + 1 < 2 ^ 64 }
        ensures { self.new ≡ record { start = start; decrees = [] } }
    {
        let alloc = *self.decrees.allocator();
        self.start = start;
        self.decrees = Vec::new(alloc);
        self.text = LogText::new(alloc);
        self.standing = start.standing;
    }
}

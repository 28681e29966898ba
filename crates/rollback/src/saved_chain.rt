//! What is saved of a chain.

ghost use Rattle.std.specs.Prelude.{◌≡◌, ◌≤◌, ◌++◌, flat_map, map, length, IfOk, IfSome, OnOk};
ghost use Rattle.std.specs.Int.{w8};
ghost use Rattle.wire.specs.Number.{num};
ghost use Rattle.wire.specs.Record.{Puts, Reads};
ghost use Rattle.states.specs.StateRecord.{state_text};
ghost use Rattle.executor.specs.MemberRecord.{member_text};
ghost use Rattle.rollback.specs.Chain.{IsRecorded, chain_text, alone_text};
ghost use Rattle.rollback.specs.declared.chain.TheConstants.{MOST_MEMBERS};

use crate::chain::{Chain, MOST_MEMBERS};
use executor::{Committed, SavedMember, Tentative};
use proto::Fault;
use states::{State, Version};
use std::alloc::{AllocError, Global};
use std::marker::Model;
use wire::{Record, Sink};

/// What a record needs of a chain. It shares all of it with the chain, and can be dropped.
///
/// Contracts see the text that it stands for.
pub struct SavedChain {
    committed: State,
    members: Vec<SavedMember>,
}

impl Drop for SavedChain {
    fn drop(self) {
        let SavedChain {
            committed: _,
            members: _,
        } = self;
    }
}

impl Model for SavedChain {
    ghost use Rattle.std.specs.Prelude.{List, ℕ, ◌++◌, ◌≤◌, length, flat_map};
    ghost use Rattle.std.specs.Int.{w8};
    ghost use Rattle.wire.specs.Number.{num};
    ghost use Rattle.states.specs.StateRecord.{state_text};
    ghost use Rattle.rollback.specs.declared.chain.TheConstants.{MOST_MEMBERS};

    ghost Value = { List ℕ };

    ghost view = { λ c. state_text c.committed ++ (num w8 (length c.members.items) ++ flat_map (λ text. text) c.members.items) };

    ghost invariant = { λ c. length c.members.items ≤ MOST_MEMBERS };
}

/// What is saved of each member.
fn saved_members(alloc: Global, members: &[Tentative]) -> Result<Vec<SavedMember>, AllocError>
    ensures { IfOk result (λ saved. saved.items ≡ map member_text members.now) }
{
    let mut saved = Vec::with_capacity(alloc, members.len())?;
    for member in members {
        saved.push(member.saved()?)?;
    }
    Ok(saved)
}

/// Writes each member over the state before it.
fn put_members<S: Sink<Refusal = AllocError>>(
    alloc: Global,
    members: &[SavedMember],
    sink: &mut S,
) -> Result<(), AllocError>
    ensures { OnOk result (Puts S.holds (flat_map (λ text. text) members.now) sink.old sink.new) }
{
    for member in members {
        member.put(alloc, sink)?;
    }
    Ok(())
}

/// Writes the committed state, how many members there are, and each of them over the state before it.
fn put_chain<S: Sink<Refusal = AllocError>>(
    alloc: Global,
    committed: &State,
    members: &[SavedMember],
    sink: &mut S,
) -> Result<(), AllocError>
    requires { length members.now ≤ MOST_MEMBERS }
    ensures { OnOk result (Puts S.holds (state_text committed.now ++ (num w8 (length members.now) ++ flat_map (λ text. text) members.now)) sink.old sink.new) }
{
    committed.put(sink)?;
    (members.len() as u8).put(sink)?;
    put_members(alloc, members, sink)
}

/// The text of each member over the state before it.
fn texts_of(alloc: Global, members: &[SavedMember]) -> Result<Vec<u8>, AllocError>
    ensures { IfOk result (λ texts. texts.items ≡ flat_map (λ text. text) members.now) }
{
    let mut texts = Vec::new(alloc);
    put_members(alloc, members, &mut texts)?;
    Ok(texts)
}

impl Chain {
    /// What is saved of it: the committed state, and each member over the state before it. No text is
    /// written, and no page copied.
    #[tactic(auto, using(crate::proofs::SavedLemmas::saved_few, crate::proofs::SavedLemmas::saved_is))]
    pub fn saved(&self, alloc: Global) -> Result<SavedChain, AllocError>
        ensures { IfOk result (λ saved. saved ≡ chain_text self.now) }
    {
        prove!(self.len() <= MOST_MEMBERS);
        let committed = self.committed().share()?;
        let members = saved_members(alloc, self.members())?;
        Ok(SavedChain { committed, members })
    }
}

impl SavedChain {
    /// What is saved of a chain of this committed state alone.
    pub fn of_state(alloc: Global, committed: State) -> SavedChain
        ensures { result ≡ alone_text committed }
    {
        SavedChain {
            committed,
            members: Vec::new(alloc),
        }
    }

    /// The committed state, if no member is over it.
    pub fn alone(&self) -> Option<&State>
        ensures { IfSome result (λ committed. self.now ≡ alone_text committed.now) }
    {
        if self.members.is_empty() {
            Some(&self.committed)
        } else {
            None
        }
    }

    /// The chain that its text stands for, as `Chain::take` reads it. The committed state is shared, so nothing of it is
    /// read or computed; the members are read from their texts.
    ///
    /// `BadRecord`: a member is not over just the state before it. `NoMemory` is the only other error.
    pub fn chain(&self, alloc: Global) -> Result<Chain, Fault>
        ensures { Reads IsRecorded chain_text self.now result }
    {
        let text = texts_of(alloc, self.members.as_slice())?;
        self.committed.is_state();
        let committed = Committed::of_state(alloc, self.committed.share()?);
        let count = self.members.len() as u8;
        let (chain, rest) = Chain::filled(
            alloc,
            Version::Second,
            committed,
            count,
            text.as_slice(),
        )?;
        if rest.is_empty() {
            Ok(chain)
        } else {
            chain.end();
            Err(Fault::BadRecord)
        }
    }

    /// Writes its text: the committed state, how many members there are, and each of them over the
    /// state before it. A sink that takes shared pieces gets the texts that are kept; so a record in a
    /// text of pieces copies little. The only error is a failed allocation.
    pub fn put<S: Sink<Refusal = AllocError>>(
        &self,
        alloc: Global,
        sink: &mut S,
    ) -> Result<(), AllocError>
        ensures { OnOk result (Puts S.holds self.now sink.old sink.new) }
    {
        put_chain(alloc, &self.committed, self.members.as_slice(), sink)
    }
}

//! What is saved of a tentative state, as a member of a chain.

ghost use Rattle.std.specs.Prelude.{◌≡◌, ◌++◌, OnOk, IfOk};
ghost use Rattle.wire.specs.Batch.{batch_text};
ghost use Rattle.wire.specs.Record.{Puts};
ghost use Rattle.pages.specs.Others.{AreSameBeside};
ghost use Rattle.states.specs.StateRecord.{after_text};
ghost use Rattle.executor.specs.MemberRecord.{member_text};

use crate::base_state::Base;
use crate::tentative::Tentative;
use batches::Batch;
use pages::PageSet;
use states::State;
use std::alloc::{AllocError, Global};
use std::marker::Model;
use wire::{Record, Sink};

/// What the record of a chain needs of one member. It shares all of it with the tentative state, shows no
/// reply, and can be dropped.
///
/// Contracts see the text that it stands for.
pub struct SavedMember {
    before: Base,
    batch: Batch,
    after: Base,
    may_differ: PageSet,
}

impl Drop for SavedMember {
    fn drop(self) {
        let SavedMember {
            before: _,
            batch: _,
            after: _,
            may_differ: _,
        } = self;
    }
}

impl Model for SavedMember {
    ghost use Rattle.std.specs.Prelude.{List, ℕ, ◌++◌};
    ghost use Rattle.wire.specs.Batch.{batch_text};
    ghost use Rattle.pages.specs.Others.{AreSameBeside};
    ghost use Rattle.states.specs.StateRecord.{after_text};

    ghost Value = { List ℕ };

    ghost view = { λ m. batch_text m.batch ++ after_text m.before.state.items m.after.state };

    ghost invariant = { λ m. AreSameBeside m.may_differ m.before.state.items m.after.state.items };
}

/// Writes a member over the state before it: the batch, and the state that it led to. All pages that are
/// not in the set are the same before and after. A sink that takes shared pieces gets the texts that are
/// kept, of the sessions and of pages. The only error is a failed allocation.
pub fn put_member<S: Sink<Refusal = AllocError>>(
    alloc: Global,
    before: &State,
    batch: &Batch,
    after: &State,
    may_differ: &PageSet,
    sink: &mut S,
) -> Result<(), AllocError>
    requires { AreSameBeside may_differ.now before.now.items after.now.items }
    ensures { OnOk result (Puts S.holds (batch_text batch.now ++ after_text before.now.items after.now) sink.old sink.new) }
{
    let changed = after.changed_after(alloc, before, may_differ)?;
    batch.put(sink)?;
    after.put_after(&changed, sink)
}

impl Tentative {
    /// What is saved of it as a member of a chain. No text is written, and no page copied.
    pub fn saved(&self) -> Result<SavedMember, AllocError>
        ensures { IfOk result (λ saved. saved ≡ member_text self.now) }
    {
        Ok(SavedMember {
            before: self.before.share()?,
            batch: self.batch.clone()?,
            after: self.after.share()?,
            may_differ: self.may_differ,
        })
    }
}

impl SavedMember {
    /// Writes its text, as `Tentative::put` does.
    pub fn put<S: Sink<Refusal = AllocError>>(
        &self,
        alloc: Global,
        sink: &mut S,
    ) -> Result<(), AllocError>
        ensures { OnOk result (Puts S.holds self.now sink.old sink.new) }
    {
        put_member(
            alloc,
            &self.before.state,
            &self.batch,
            &self.after.state,
            &self.may_differ,
            sink,
        )
    }
}

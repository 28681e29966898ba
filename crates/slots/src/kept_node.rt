//! What a slot needs of its replica.

ghost use Rattle.std.specs.Prelude.{◌≡◌, ◌<◌, ◌≤◌, ◌*◌, ℕ, Bool, List, [], IfSome, IfNone, OnSome, IfOk, IsTrue};
ghost use Rattle.keeper.specs.Kept.{Kept};
ghost use Rattle.decrees.specs.declared.node.Letter as letter;
ghost use Rattle.slots.specs.Slot as of_world;
ghost use Rattle.slots.specs.declared.slot.Slot.TheVariants.{Up, Down, Gone};

use crate::slot::Slot;
use decrees::Letter;
use keeper::{MemKeeper, ToText};
use std::alloc::{AllocError, Global};

/// A replica over a keeper in memory, which it gives back when it is ended.
pub trait KeptNode {
    /// What its keeper keeps.
    type Record: ToText;

    /// What it is given.
    type Input;

    /// What its letters say.
    type Body;

    /// What its keeper has.
    ghost kept: { Self → Kept };

    /// Whether it was not stopped.
    ghost up: { Self → Bool };

    /// The same replica, with its next save set to fail.
    ghost told: { Self → Self };

    /// What becomes of its slot when it is given an input, and what is sent.
    ghost settles: { of_world.Slot Self → Self.Input → of_world.Slot Self → List (letter.Letter Self.Body) → Type 0 };

    /// What becomes of its slot when it is opened, by `u` and its number, and what is sent.
    ghost reopens: { ℕ → ℕ → of_world.Slot Self → of_world.Slot Self → List (letter.Letter Self.Body) → Type 0 };

    /// Ends it.
    fn into_keeper(self) -> MemKeeper<Self::Record>
        ensures { result ≡ kept self };

    /// A keeper that has the same as its own. The record is shared.
    fn share_kept(&self) -> Result<MemKeeper<Self::Record>, AllocError>
        ensures { IfOk result (λ keeper. keeper ≡ kept self.now) };

    /// Its next save will fail.
    fn fail_next(&mut self)
        ensures marked { self.new ≡ told self.old }
        ensures same { up self.new ≡ up self.old };

    /// Does the step of the input, and gives its letters. None: it stopped.
    fn step(&mut self, alloc: Global, input: Self::Input) -> Option<Vec<Letter<Self::Body>>>
        requires { IsTrue (up self.old) }
        ensures done { IfSome result (λ letters. settles (Up self.old) input (Up self.new) letters.items) }
        ensures still_up { OnSome result (IsTrue (up self.new)) }
        ensures stopped { IfNone result (settles (Up self.old) input (Down (kept self.new)) []) };

    /// Lets go of an input that no replica takes.
    fn spend(input: Self::Input);

    /// Opens it as number `id` of `2u + 1` with what its keeper has, and gives what it sends. None: that was
    /// refused, and the keeper has what is kept then.
    fn reopen(
        alloc: Global,
        u: u8,
        id: u8,
        keeper: &mut MemKeeper<Self::Record>,
    ) -> Option<(Self, Vec<Letter<Self::Body>>)>
        requires few { u < 4 }
        requires member { id ≤ 2 * u }
        ensures opened { IfSome result (λ opened. reopens u id (Down keeper.old) (Up opened.0) opened.1.items) }
        ensures is_up { IfSome result (λ opened. IsTrue (up opened.0)) }
        ensures refused { IfNone result (reopens u id (Down keeper.old) (Down keeper.new) []) };

    /// One that is down takes no input.
    ghost down_ignores: { (keeper : Kept) (input : Self.Input) → settles (Down keeper) input (Down keeper) [] };

    /// Nor does one that is lost.
    ghost gone_ignores: { (keeper : Kept) (input : Self.Input) → settles (Gone keeper) input (Gone keeper) [] };

    /// One that is up is not opened.
    ghost up_stays: { (u id : ℕ) (node : Self) → reopens u id (Up node) (Up node) [] };

    /// Nor is one that is lost.
    ghost gone_stays: { (u id : ℕ) (keeper : Kept) → reopens u id (Gone keeper) (Gone keeper) [] };
}

/// The slot of a replica over a keeper in memory.
pub type KeptSlot<N> = Slot<N, MemKeeper<<N as KeptNode>::Record>>;

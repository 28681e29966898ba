//! The slot of a replica, with a word of each thing that may become of it.

ghost use Rattle.std.specs.Prelude.{◌≡◌, ◌<◌, ◌≤◌, ◌*◌};

use crate::kept_node::{KeptNode, KeptSlot};
use crate::slot::Slot;
use crate::slots::{crash, end, lost, put, taken};
use decrees::Letter;
use keeper::MemKeeper;
use std::alloc::Global;
use std::marker::Model;

/// The slot of a replica: one that is up was never stopped. The slot of one that cannot be dropped cannot be
/// dropped either: `end` ends it.
pub struct NodeSlot<N: KeptNode> {
    pub(crate) slot: KeptSlot<N>,
}

impl<N: KeptNode + Drop> Drop for NodeSlot<N> {
    fn drop(self) {
        let NodeSlot { slot: _ } = self;
    }
}

impl<N: KeptNode> Model for NodeSlot<N> {
    ghost use Rattle.slots.specs.Slot as of_world;
    ghost use Rattle.slots.specs.UpSlots.{IsUpAt};

    ghost Value = { of_world.Slot N };

    ghost view = { λ p. p.slot };

    ghost invariant = { λ p. IsUpAt N.up p.slot };
}

impl<N: KeptNode> NodeSlot<N> {
    ghost use Rattle.std.specs.Prelude.{◌≡◌, ◌<◌, ◌≤◌, ◌*◌};
    ghost use Rattle.slots.specs.declared.slot.Slot.TheVariants.{Down};
    ghost use Rattle.slots.specs.Slots.{crashed_slot, lost_slot, told_slot, nothing_kept};

    /// One that was never opened: it is down, and nothing is kept.
    pub fn unopened() -> NodeSlot<N>
        ensures { result ≡ Down nothing_kept }
    {
        NodeSlot::down(MemKeeper::new())
    }

    /// One that is down, with this keeper.
    pub fn down(keeper: MemKeeper<N::Record>) -> NodeSlot<N>
        ensures { result ≡ Down keeper }
    {
        NodeSlot {
            slot: Slot::Down(keeper),
        }
    }

    /// Gives it the input, if it is up; the result is what it sends. If its step meets an error it
    /// stops, and is down with its record; then nothing is sent.
    pub fn settle(&mut self, alloc: Global, input: N::Input) -> Vec<Letter<N::Body>>
        ensures { N.settles self.old input self.new result.items }
    {
        match &mut self.slot {
            Slot::Up(node) => match node.step(alloc, input) {
                Some(letters) => letters,
                None => {
                    crash(&mut self.slot);
                    Vec::new(alloc)
                }
            },
            Slot::Down(_) => {
                N::spend(input);
                Vec::new(alloc)
            }
            Slot::Gone(_) => {
                N::spend(input);
                Vec::new(alloc)
            }
        }
    }

    /// Opens it as number `id` of `2u + 1`, if it is down; the result is what it sends. If that is
    /// refused it stays down.
    pub fn restart(&mut self, alloc: Global, u: u8, id: u8) -> Vec<Letter<N::Body>>
        requires few { u < 4 }
        requires member { id ≤ 2 * u }
        ensures { N.reopens u id self.old self.new result.items }
    {
        match &mut self.slot {
            Slot::Down(keeper) => match N::reopen(alloc, u, id, keeper) {
                Some((node, letters)) => {
                    put(&mut self.slot, Slot::Up(node));
                    letters
                }
                None => Vec::new(alloc),
            },
            Slot::Up(_) => Vec::new(alloc),
            Slot::Gone(_) => Vec::new(alloc),
        }
    }

    /// It stops, if it is up.
    pub fn crash(&mut self)
        ensures { self.new ≡ crashed_slot N.kept self.old }
    {
        crash(&mut self.slot);
    }

    /// It is lost for good, up or down.
    pub fn lose(&mut self)
        ensures { self.new ≡ lost_slot N.kept self.old }
    {
        let slot = lost(taken(&mut self.slot));
        put(&mut self.slot, slot);
    }

    /// Its next save will fail, if it is up.
    pub fn fail_next(&mut self)
        ensures { self.new ≡ told_slot N.told self.old }
    {
        if let Slot::Up(node) = &mut self.slot {
            node.fail_next();
        }
    }

    /// Ends it.
    pub fn end(self) {
        let NodeSlot { slot } = self;
        end(slot);
    }
}

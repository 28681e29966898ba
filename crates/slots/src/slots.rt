//! What becomes of a slot, whatever replica it is for.

ghost use Rattle.std.specs.Prelude.{◌≡◌};
ghost use Rattle.slots.specs.Slots.{crashed_slot, lost_slot};
ghost use Rattle.slots.specs.UpSlots.{IsUpAt};

use crate::kept_node::{KeptNode, KeptSlot};
use crate::slot::Slot;
use keeper::{MemKeeper, ToText};
use std::mem;

/// Ends what is there.
pub fn end<N: KeptNode>(slot: KeptSlot<N>) {
    match slot {
        Slot::Up(node) => drop(node.into_keeper()),
        Slot::Down(keeper) => drop(keeper),
        Slot::Gone(keeper) => drop(keeper),
    }
}

/// What is there. The slot is left empty, which is down with nothing kept.
pub fn taken<N, R: ToText>(slot: &mut Slot<N, MemKeeper<R>>) -> Slot<N, MemKeeper<R>>
    ensures { result ≡ slot.old }
{
    mem::replace(slot, Slot::Down(MemKeeper::new()))
}

/// Puts this there, and ends what was there.
pub fn put<N: KeptNode>(slot: &mut KeptSlot<N>, next: KeptSlot<N>)
    ensures { slot.new ≡ next }
{
    end(mem::replace(slot, next));
}

fn crashed<N: KeptNode>(slot: KeptSlot<N>) -> KeptSlot<N>
    ensures crashed { result ≡ crashed_slot N.kept slot }
    ensures up { IsUpAt N.up result }
{
    match slot {
        Slot::Up(node) => Slot::Down(node.into_keeper()),
        Slot::Down(keeper) => Slot::Down(keeper),
        Slot::Gone(keeper) => Slot::Gone(keeper),
    }
}

/// What is there once the replica is lost for good.
pub fn lost<N: KeptNode>(slot: KeptSlot<N>) -> KeptSlot<N>
    ensures lost { result ≡ lost_slot N.kept slot }
    ensures up { IsUpAt N.up result }
{
    match slot {
        Slot::Up(node) => Slot::Gone(node.into_keeper()),
        Slot::Down(keeper) => Slot::Gone(keeper),
        Slot::Gone(keeper) => Slot::Gone(keeper),
    }
}

/// A replica that is up stops; its keeper stays.
pub fn crash<N: KeptNode>(slot: &mut KeptSlot<N>)
    ensures crashed { slot.new ≡ crashed_slot N.kept slot.old }
    ensures up { IsUpAt N.up slot.new }
{
    let old = taken(slot);
    put(slot, crashed(old));
}

//! A replica stops, is opened, is lost, or will fail its next save.

use crate::sending::send;
use crate::world::World;
use events::Replica;
use slots::send_ballots;
use std::alloc::{AllocError, Global};

impl World {
    ghost use Rattle.std.specs.Prelude.{◌≡◌, OnOk, slice_get};
    ghost use Rattle.events.specs.declared.event.Event.TheVariants.{Crash, Restart, Lost, FailSave};
    ghost use Rattle.slots.specs.Slots.{executor_kept, executor_told, verifier_kept, verifier_told, crashed_slot, lost_slot, told_slot};
    ghost use Rattle.worlds.specs.World.{WorldNext, ExecutorAtOpened, VerifierAtOpened, executor_changed, verifier_changed};

    fn crash_executor(&mut self, id: u8)
        ensures { self.new ≡ executor_changed self.old id (crashed_slot executor_kept) }
    {
        if let Some(slot) = self.executors.get_mut(usize::from(id)) {
            slot.crash();
        }
    }

    fn crash_verifier(&mut self, id: u8)
        ensures { self.new ≡ verifier_changed self.old id (crashed_slot verifier_kept) }
    {
        if let Some(slot) = self.verifiers.get_mut(usize::from(id)) {
            slot.crash();
        }
    }

    pub(crate) fn crash(&mut self, replica: Replica)
        ensures { WorldNext self.old (Crash replica) self.new }
    {
        match replica {
            Replica::Executor(id) => self.crash_executor(id),
            Replica::Verifier(id) => self.crash_verifier(id),
        }
    }

    fn lose_executor(&mut self, id: u8)
        ensures { self.new ≡ executor_changed self.old id (lost_slot executor_kept) }
    {
        if let Some(slot) = self.executors.get_mut(usize::from(id)) {
            slot.lose();
        }
    }

    fn lose_verifier(&mut self, id: u8)
        ensures { self.new ≡ verifier_changed self.old id (lost_slot verifier_kept) }
    {
        if let Some(slot) = self.verifiers.get_mut(usize::from(id)) {
            slot.lose();
        }
    }

    pub(crate) fn lose(&mut self, replica: Replica)
        ensures { WorldNext self.old (Lost replica) self.new }
    {
        match replica {
            Replica::Executor(id) => self.lose_executor(id),
            Replica::Verifier(id) => self.lose_verifier(id),
        }
    }

    fn fail_executor(&mut self, id: u8)
        ensures { self.new ≡ executor_changed self.old id (told_slot executor_told) }
    {
        if let Some(slot) = self.executors.get_mut(usize::from(id)) {
            slot.fail_next();
        }
    }

    fn fail_verifier(&mut self, id: u8)
        ensures { self.new ≡ verifier_changed self.old id (told_slot verifier_told) }
    {
        if let Some(slot) = self.verifiers.get_mut(usize::from(id)) {
            slot.fail_next();
        }
    }

    pub(crate) fn fail_save(&mut self, replica: Replica)
        ensures { WorldNext self.old (FailSave replica) self.new }
    {
        match replica {
            Replica::Executor(id) => self.fail_executor(id),
            Replica::Verifier(id) => self.fail_verifier(id),
        }
    }

    fn restart_executor(&mut self, alloc: Global, id: u8) -> Result<(), AllocError>
        ensures { OnOk result (ExecutorAtOpened self.old id (slice_get self.old.executors id) self.new) }
    {
        let u = self.u;
        let Some(slot) = self.executors.get_mut(usize::from(id)) else {
            return Ok(());
        };
        let sent = slot.restart(alloc, u, id);
        send(sent, &mut self.letters)
    }

    fn restart_verifier(&mut self, alloc: Global, id: u8) -> Result<(), AllocError>
        ensures { OnOk result (VerifierAtOpened self.old id (slice_get self.old.verifiers id) self.new) }
    {
        let u = self.u;
        let Some(slot) = self.verifiers.get_mut(usize::from(id)) else {
            return Ok(());
        };
        let sent = slot.restart(alloc, u, id);
        send_ballots(&sent, &mut self.letters)
    }

    pub(crate) fn restart(&mut self, alloc: Global, replica: Replica) -> Result<(), AllocError>
        ensures { OnOk result (WorldNext self.old (Restart replica) self.new) }
    {
        match replica {
            Replica::Executor(id) => self.restart_executor(alloc, id),
            Replica::Verifier(id) => self.restart_verifier(alloc, id),
        }
    }
}

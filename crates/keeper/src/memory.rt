ghost use Rattle.std.specs.Prelude.{◌≡◌, ◌<◌, ◌+◌, ◌^◌, ◌-◌, None, Some, true, false, OnOk, OnErr, Err, IfOk, IsOk, IsTrue, not};
ghost use Rattle.std.specs.Option.{option_map};

use crate::keeper::Keeper;
use crate::to_text::ToText;
use proto::Fault;
use std::alloc::AllocError;
use std::marker::Model;

/// Keeps its record in memory: the very value that it was given, for which it takes no memory. For
/// tests of what a node does when a save fails, it can be set to fail the next one.
pub struct MemKeeper<R: ToText> {
    saved: Option<R>,
    failures: u64,
    fails_next: bool,
}

impl<R: ToText + Drop> Drop for MemKeeper<R> {
    fn drop(self) {
        let MemKeeper {
            saved: _,
            failures: _,
            fails_next: _,
        } = self;
    }
}

impl<R: ToText> Model for MemKeeper<R> {
    ghost use Rattle.std.specs.Option.{option_map};
    ghost use Rattle.keeper.specs.Kept.{Kept};

    ghost Value = { Kept };

    ghost view = { λ k. record { saved = option_map R.text k.saved; failures = k.failures; fails_next = k.fails_next } };
}

impl<R: ToText> MemKeeper<R> {
    /// A keeper with no record yet.
    pub fn new() -> MemKeeper<R>
        ensures { result ≡ record { saved = None; failures = 0; fails_next = false } }
    {
        MemKeeper::of(None, 0)
    }

    /// A keeper that has this record, if one was saved, and of which so many saves have failed.
    pub fn of(saved: Option<R>, failures: u64) -> MemKeeper<R>
        ensures { result ≡ record { saved = option_map R.text saved; failures = failures; fails_next = false } }
    {
        MemKeeper {
            saved,
            failures,
            fails_next: false,
        }
    }

    /// A keeper that has the same. The record is shared.
    pub fn share(&self) -> Result<MemKeeper<R>, AllocError>
        ensures { IfOk result (λ keeper. keeper ≡ self.now) }
    {
        let value = match &self.saved {
            Some(value) => Some(value.share()?),
            None => None,
        };
        let mut keeper = MemKeeper::of(value, self.failures);
        keeper.fails_next = self.fails_next;
        Ok(keeper)
    }

    /// Whether the next save is set to fail.
    pub fn is_set_to_fail(&self) -> bool
        ensures { result ≡ self.now.fails_next }
    {
        self.fails_next
    }

    /// The next save will fail. To say it twice is to say it once.
    pub fn fail_next(&mut self)
        ensures { self.new ≡ record self.old { fails_next = true } }
    {
        self.fails_next = true;
    }
}

impl<R: ToText> Keeper<R> for MemKeeper<R> {
    ghost saved = { λ k. k.saved };

    ghost failed = { λ k. k.failures };

    ghost told = { λ k. k.fails_next };

    /// Stopped: it was set to fail this save. It fails no other one.
    fn save(&mut self, value: R) -> Result<(), Fault>
        requires countable { self.old.failures < 2 ^ 64 - 1 }
        ensures ok { OnOk result (self.new ≡ record self.old { saved = Some (R.text value) }) }
        ensures told { IsTrue self.old.fails_next → result ≡ Err Fault.Stopped }
        ensures not_told { IsTrue (not self.old.fails_next) → IsOk result }
        ensures err { OnErr result (self.new ≡ record self.old { failures = self.old.failures + 1; fails_next = false }) }
    {
        if self.fails_next {
            self.fails_next = false;
            self.failures += 1;
            return Err(Fault::Stopped);
        }
        self.saved = Some(value);
        Ok(())
    }

    fn load(&self) -> Option<&R> {
        self.saved.as_ref()
    }

    fn failures(&self) -> u64 {
        self.failures
    }
}

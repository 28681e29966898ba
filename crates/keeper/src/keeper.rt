ghost use Rattle.std.specs.Prelude.{◌≡◌, ◌<◌, ◌≤◌, ◌⊎◌, ◌^◌, ◌-◌, List, ℕ, Bool, false, Option, Some, OnOk, OnErr, IfErr, IsTrue, IsErr};
ghost use Rattle.std.specs.Option.{option_map};
ghost use Rattle.keeper.specs.Kept.{TriesToSave};

use crate::to_text::ToText;
use proto::Fault;

/// Keeps the record of one node: the value that was saved last.
///
/// Contracts see the bytes that the value stands for. They need not be written: a keeper in memory keeps the
/// value, and one on a disk asks it for its text.
pub trait Keeper<R: ToText> {
    /// The bytes of the record that is kept, if one was saved.
    ghost saved: { Self → Option (List ℕ) };

    /// How many saves have failed.
    ghost failed: { Self → ℕ };

    /// Whether the next save is set to fail. One that is not may fail, too.
    ghost told: { Self → Bool };

    /// Keeps this value in place of the old record.
    ///
    /// After an error the old record is there as before, the failure was counted, and the save after it
    /// is not set to fail. So the caller sees to it that the count is not at its limit.
    fn save(&mut self, value: R) -> Result<(), Fault>
        requires countable { failed self.old < 2 ^ 64 - 1 }
        ensures tries { TriesToSave saved failed told (R.text value) self.old self.new result }
        ensures failure { OnErr result (failed self.old < failed self.new) };

    /// The record, whole.
    fn load(&self) -> Option<&R>
        ensures { option_map (λ kept. R.text kept.now) result ≡ saved self.now };

    /// How many saves have failed.
    fn failures(&self) -> u64
        ensures { result ≡ failed self.now };
}

/// Saves the value as the record. Stopped: the save failed, or its failure could not be counted, and
/// then nothing was tried. After it the old record is there as before. There is no other error.
/// Whether the next save is set to fail stays as it is, unless a save failed, which spends it.
pub fn save_record<R: ToText, K: Keeper<R>>(value: R, keeper: &mut K) -> Result<(), Fault>
    ensures tries { TriesToSave K.saved K.failed K.told (R.text value) keeper.old keeper.new result }
    ensures stopped { OnErr result ((K.failed keeper.old < K.failed keeper.new) ⊎ (K.failed keeper.old ≡ 2 ^ 64 - 1)) }
    ensures only { IfErr result (λ fault. fault ≡ Fault.Stopped) }
{
    if keeper.failures() == u64::MAX {
        return Err(Fault::Stopped);
    }
    match keeper.save(value) {
        Ok(()) => Ok(()),
        Err(_) => Err(Fault::Stopped),
    }
}

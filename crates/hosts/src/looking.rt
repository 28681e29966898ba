//! What a host shows of its executor.

ghost use Rattle.std.specs.Prelude.{◌≡◌, IfOk, Some};
ghost use Rattle.slots.specs.Status.{kept_at, is_gone};
ghost use Rattle.slots.specs.Slots.{executor_kept};
ghost use Rattle.hosts.specs.Shown.{job_len_of, steps_of, epoch_of};

use crate::executor_host::ExecutorHost;
use exec_lines::ExecutorRecord;
use keeper::MemKeeper;
use pages::PAGES;
use std::alloc::AllocError;

impl ExecutorHost {
    /// How many requests the batch has that the executor is to run, if it is up and has a job.
    pub fn job_len(&self) -> Option<usize>
        ensures { result ≡ job_len_of self.now.slot }
    {
        let job = self.slot.node()?.job()?;
        Some(job.batch.requests.len())
    }

    /// How far the executor has come, if it is up: the number of its committed state and its epoch, added.
    /// It grows with each decree that it obeys.
    pub fn steps(&self) -> Option<u64>
        ensures { result ≡ steps_of self.now.slot }
    {
        let report = self.slot.node()?.state().report();
        Some(report.number.saturating_add(report.epoch))
    }

    /// The epoch that the executor is in, if it is up.
    pub fn epoch(&self) -> Option<u64>
        ensures { result ≡ epoch_of self.now.slot }
    {
        let report = self.slot.node()?.state().report();
        Some(report.epoch)
    }

    /// A keeper that has what is kept of the executor, whether it is up, down or lost. The record is shared.
    pub fn kept(&self) -> Result<MemKeeper<ExecutorRecord>, AllocError>
        ensures { IfOk result (λ keeper. keeper ≡ kept_at executor_kept self.now.slot) }
    {
        self.slot.kept()
    }

    /// Whether the executor is lost for good.
    pub fn is_lost(&self) -> bool
        ensures { result ≡ is_gone (Some self.now.slot) }
    {
        self.slot.is_lost()
    }

    /// The number of the executor's committed state, if it is up.
    pub fn number(&self) -> Option<u64> {
        let report = self.slot.node()?.state().report();
        Some(report.number)
    }

    /// How many items the executor's committed state has, if it is up.
    pub fn items(&self) -> Option<u64> {
        let pages = self.slot.node()?.state().chain().committed().pages();
        let mut items = 0u64;
        for number in 0..PAGES {
            items = items.saturating_add(pages.len(number));
        }
        Some(items)
    }

    /// How many bytes the keys and the data have of all items of the executor's committed state, if it is up.
    pub fn item_bytes(&self) -> Option<u64> {
        let pages = self.slot.node()?.state().chain().committed().pages();
        let mut bytes = 0u64;
        for number in 0..PAGES {
            bytes = bytes.saturating_add(pages.bytes(number));
        }
        Some(bytes)
    }
}

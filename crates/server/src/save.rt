//! Where the record of a service is saved.

use service::{SaveFault, ServiceRecord};
use std::alloc::Global;
use std::thread::Threads;

/// How many folders have a copy of what is saved.
#[derive(Clone, Copy, Debug, PartialEq, Eq)]
pub struct SaveFolders {
    /// All folders.
    pub all: u64,
    /// Those whose copy is of the last save.
    pub current: u64,
    /// The first of the others, from 0, and why it is not.
    pub behind: Option<(usize, SaveFault)>,
}

/// Where the record of a service is saved, such that another process goes on from it when this one has ended.
pub trait Save {
    ghost use denote.Param.Send.{IsSync};
    ghost use Rattle.std.specs.Prelude.{◌≡◌, ◌⊎◌, ℕ, List, Option, IsTrue, false};
    ghost use Rattle.service.specs.Record.{RecordView};
    ghost use Rattle.server.specs.Durable.{IsFoundOf};

    /// A process that goes on from this one may find this, if this one ends now: a text, or none. It is what may be
    /// found after a crash at any moment, also during the save before.
    ghost may_find: { Self → Option (List ℕ) → Type 0 };

    /// This text is one of this record.
    ghost is_text: { RecordView → List ℕ → Type 0 };

    /// Whether it saves anything. If not, no process goes on from this one.
    fn keeps(&self) -> bool
        ensures nothing { result ≡ false → (found : Option (List ℕ)) → may_find self.now found → ⊥ };

    /// Saves the record in place of the last one: whether it is saved. If not, what may be found is what might be
    /// found before, or this record. `fault` tells why. It may save in several threads.
    fn save<R: Threads + Sync>(&mut self, rt: &R, alloc: Global, kept: &ServiceRecord) -> bool
        requires { IsSync R.row }
        ensures saved { IsTrue result → (found : Option (List ℕ)) → may_find self.new found → IsFoundOf is_text kept.now found }
        ensures crash { (found : Option (List ℕ)) → may_find self.new found → may_find self.old found ⊎ IsFoundOf is_text kept.now found };

    /// Saves the record as `save` does, on another thread while this thread does the work. If no thread can be made it saves
    /// before the work or after it.
    fn save_beside<R: Threads + Sync, F: FnMut()>(
        &mut self,
        rt: &R,
        alloc: Global,
        kept: &mut ServiceRecord,
        work: &mut F,
    ) -> bool
        requires sync { IsSync R.row }
        requires pre { F.pre work.old }
        ensures worked { F.step work.old tt work.new }
        ensures saved { IsTrue result → (found : Option (List ℕ)) → may_find self.new found → IsFoundOf is_text kept.old found }
        ensures crash { (found : Option (List ℕ)) → may_find self.new found → may_find self.old found ⊎ IsFoundOf is_text kept.old found };

    /// Why the last save failed. None: it did not, or nothing was saved yet. Once it is `Disk` it stays so, and no save
    /// succeeds.
    fn fault(&self) -> Option<SaveFault>;

    /// In how many folders it is saved. A figure: no clause says what it gives.
    fn folders(&self) -> SaveFolders;
}

/// Saves nothing: no process goes on from this one.
#[derive(Clone, Copy)]
pub struct NoFolder;

impl Save for NoFolder {
    ghost use Rattle.std.specs.Prelude.{ℕ, List, Option};
    ghost use Rattle.service.specs.Record.{RecordView};

    ghost may_find = { λ _ _. ⊥ };

    ghost is_text = { λ _ _. ⊥ };

    fn keeps(&self) -> bool {
        false
    }

    fn save<R: Threads + Sync>(&mut self, _rt: &R, _alloc: Global, _kept: &ServiceRecord) -> bool {
        true
    }

    fn save_beside<R: Threads + Sync, F: FnMut()>(
        &mut self,
        _rt: &R,
        _alloc: Global,
        _kept: &mut ServiceRecord,
        work: &mut F,
    ) -> bool {
        work();
        true
    }

    fn fault(&self) -> Option<SaveFault> {
        None
    }

    fn folders(&self) -> SaveFolders {
        SaveFolders {
            all: 0,
            current: 0,
            behind: None,
        }
    }
}

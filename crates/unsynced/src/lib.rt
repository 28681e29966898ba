//! A disk whose syncs may be turned off.
//!
//! It is built on `sqlite_disk`. A database over such a disk keeps what its contracts say also without syncs, under another
//! kind of crash: the process ends, and the machine goes on. Such a crash leaves what was written, so nothing has to be
//! synced. The layer above uses that `OptionalSync` meets `Disk`: what is proved over every disk holds of it.
#![tactic(auto)]

ghost use Rattle.std.specs.Prelude.{◌≡◌};

use sqlite_disk::{Disk, Tally};
use std::io;

/// A disk that is synced; or one as it is seen by processes that end while the machine goes on, where what was written
/// stays.
pub struct OptionalSync<D: Disk> {
    inner: D,
    syncs: bool,
}

impl<D: Disk + Drop> Drop for OptionalSync<D> {
    fn drop(self) {
        let OptionalSync { inner: _, syncs: _ } = self;
    }
}

impl<D: Disk> OptionalSync<D> {
    /// This disk, with its syncs or without.
    pub fn new(inner: D, syncs: bool) -> OptionalSync<D>
        ensures inner { result.inner ≡ inner }
        ensures syncs { result.syncs ≡ syncs }
    {
        OptionalSync { inner, syncs }
    }
}

impl<D: Disk> Disk for OptionalSync<D> {
    ghost use Rattle.std.specs.Prelude.{◌≡◌, refl, false, cond};
    ghost use Rattle.unsynced.specs.MayLeave.{MayLeave, seen_stays};

    ghost seen = { λ f. D.Disk.seen f.inner };

    ghost may_leave = { λ f c. MayLeave f.syncs (D.Disk.may_leave f.inner) (D.Disk.seen f.inner) c };

    ghost is_usable = { λ f. D.Disk.is_usable f.inner };

    ghost faults = { λ f. D.Disk.faults f.inner };

    ghost tally_of = { λ f. D.Disk.tally_of f.inner };

    ghost is_rotten = { λ f. D.Disk.is_rotten f.inner };

    ghost key_of = { λ f. D.Disk.key_of f.inner };

    ghost is_clean = { λ f. D.Disk.is_clean f.inner };

    ghost is_fair = { λ f. D.Disk.is_fair f.inner };

    ghost is_mixing = { λ f. cond f.syncs (D.Disk.is_mixing f.inner) false };

    ghost fair_if_clean = { λ f. D.Disk.fair_if_clean f.inner };

    ghost seen_may_stay = { λ f. seen_stays f.syncs (D.Disk.may_leave f.inner) (D.Disk.seen f.inner) (D.Disk.seen_may_stay f.inner) };

    fn mixes(&self) -> bool {
        self.syncs && self.inner.mixes()
    }

    fn key(&self) -> u64 {
        self.inner.key()
    }

    fn tally(&self) -> Tally {
        self.inner.tally()
    }

    fn may_be_used(&self) -> bool {
        self.inner.may_be_used()
    }

    #[tactic(auto, using(crate::proofs::LeavesLemmas::leaves_no_more))]
    fn len(&mut self) -> io::Result<usize> {
        self.inner.len()
    }

    #[tactic(auto, using(crate::proofs::LeavesLemmas::leaves_no_more))]
    fn read_at(&mut self, at: usize, buf: &mut [u8]) -> io::Result<()> {
        self.inner.read_at(at, buf)
    }

    #[tactic(auto, using(crate::proofs::LeavesLemmas::leaves_no_more))]
    fn read_checked(&mut self, key: u64, want: u64, at: usize, buf: &mut [u8]) -> io::Result<()> {
        self.inner.read_checked(key, want, at, buf)
    }

    #[tactic(auto, using(crate::proofs::LeavesLemmas::leaves_after))]
    fn write_at(&mut self, at: usize, bytes: &[u8]) -> io::Result<()> {
        self.inner.write_at(at, bytes)
    }

    #[tactic(auto, using(crate::proofs::LeavesLemmas::leaves_after))]
    fn set_len(&mut self, len: usize) -> io::Result<()> {
        self.inner.set_len(len)
    }

    /// Without syncs it does nothing: what was written stays when the process ends.
    #[tactic(auto, using(crate::proofs::LeavesLemmas::leaves_only))]
    fn sync(&mut self) -> io::Result<()> {
        if self.syncs {
            self.inner.sync()
        } else {
            Ok(())
        }
    }
}

//! The record of a member, in the form of that of a process.

ghost use Rattle.std.specs.Prelude.{◌≡◌, ◌<◌, ◌↔◌, None, Some, replicate, slice_set, IfOk, IfSome, IsTrue};
ghost use Rattle.keeper.specs.Kept.{Kept};
ghost use Rattle.slots.specs.Slots.{nothing_kept};
ghost use Rattle.ensemble.specs.Nodes.{AreNumbered};
ghost use Rattle.member.specs.ProcessForm.{kept_alone, HasNoOther};

use crate::member_record::MemberRecord;
use crate::recording::copied;
use base::Text;
use ensemble::ProcessRecord;
use exec_lines::ExecutorRecord;
use keeper::{Keeper, MemKeeper, ToText};
use proto::Fault;
use proxies::Proxy;
use std::alloc::{AllocError, Global};

/// So many keepers of which none was kept anything.
fn new_keepers<R: ToText>(alloc: Global, count: u8) -> Result<Vec<MemKeeper<R>>, AllocError>
    ensures { IfOk result (λ keepers. keepers.items ≡ replicate count nothing_kept) }
{
    let mut keepers = Vec::with_capacity(alloc, usize::from(count))?;
    while keepers.len() < usize::from(count) {
        keepers.push_reserved(MemKeeper::new());
    }
    Ok(keepers)
}

/// The keeper of this number, if there is one, is now this.
#[tactic(auto, using(crate::proofs::Places::set_none))]
fn put_keeper<R: ToText>(keepers: &mut Vec<MemKeeper<R>>, id: u8, own: MemKeeper<R>)
    ensures { keepers.new.items ≡ slice_set keepers.old.items id own }
{
    if let Some(keeper) = keepers.get_mut(usize::from(id)) {
        *keeper = own;
    }
}

/// The keepers of so many replicas, of which that of this number has this, and the others nothing. The record is shared.
fn alone<R: ToText>(
    alloc: Global,
    count: u8,
    id: u8,
    own: &MemKeeper<R>,
) -> Result<Vec<MemKeeper<R>>, AllocError>
    ensures { IfOk result (λ keepers. keepers.items ≡ kept_alone count id own.now) }
{
    let own = own.share()?;
    let mut keepers = new_keepers(alloc, count)?;
    put_keeper(&mut keepers, id, own);
    Ok(keepers)
}

/// Whether nothing was ever kept here, and no save has failed or is set to.
fn is_new<R: ToText>(keeper: &MemKeeper<R>) -> bool
    ensures { IsTrue result ↔ (keeper.now ≡ nothing_kept) }
{
    keeper.load().is_none() && keeper.failures() == 0 && !keeper.is_set_to_fail()
}

/// Whether nothing was kept of any of these but of that of this number.
fn has_no_other<R: ToText>(keepers: &[MemKeeper<R>], id: u8) -> bool
    ensures { IsTrue result ↔ HasNoOther id keepers.now }
{
    for place in 0..keepers.len() {
        if place != usize::from(id) && !is_new(&keepers[place]) {
            return false;
        }
    }
    true
}

/// The keeper of this number, if there are so many, and nothing was kept of any other one.
#[tactic(auto, using(crate::proofs::Forms::is_alone, crate::proofs::Forms::alone_has_no_other, crate::proofs::Forms::alone_are_so_many))]
fn lone<R: ToText>(keepers: &[MemKeeper<R>], count: u8, id: u8) -> Option<&MemKeeper<R>>
    ensures alone { IfSome result (λ own. kept_alone count id own.now ≡ keepers.now) }
    ensures place { IfSome result (λ _. id < count) }
    ensures none { result ≡ None → id < count → (kept : Kept) → kept_alone count id kept ≡ keepers.now → ⊥ }
{
    let place = usize::from(id);
    if keepers.len() != usize::from(count) || keepers.len() <= place {
        return None;
    }
    if !has_no_other(keepers, id) {
        return None;
    }
    Some(&keepers[place])
}

/// The record of these parts. The keepers' records are shared.
fn record_of(
    alloc: Global,
    id: u8,
    u: u8,
    executor: &MemKeeper<ExecutorRecord>,
    verifier: &MemKeeper<Text>,
    proxies: &[Proxy],
) -> Result<MemberRecord, AllocError>
    requires few { u < 4 }
    requires numbered { AreNumbered proxies.now }
    ensures { IfOk result (λ kept. kept ≡ record { id = id; u = u; executor = executor.now; verifier = verifier.now; proxies = proxies.now }) }
{
    let executor = executor.share()?;
    let verifier = verifier.share()?;
    let proxies = copied(alloc, proxies)?;
    Ok(MemberRecord::of(id, u, executor, verifier, proxies))
}

impl MemberRecord {
    ghost use Rattle.std.specs.Prelude.{◌≡◌, ◌⊎◌, Err, IfOk, IfErr};
    ghost use Rattle.site_laws.specs.Lives.{MemberKept};
    ghost use Rattle.member.specs.ProcessForm.{process_form, IsFormOf};

    /// The record in the form of that of a process that has the replicas of all members: nothing was kept of those of the
    /// others. So it is stored as that of a process is (`process_parts`, `data_folder`), and `of_process` makes it again. It
    /// shares the records. The only error is a failed allocation.
    pub fn process(&self, alloc: Global) -> Result<ProcessRecord, AllocError>
        ensures { IfOk result (λ process. process ≡ process_form self.now) }
    {
        let u = self.u();
        let executors = alone(alloc, 2 * u + 1, self.id, &self.executor)?;
        let verifiers = alone(alloc, 2 * u + 1, self.id, &self.verifier)?;
        let proxies = copied(alloc, self.proxies())?;
        Ok(ProcessRecord::of(u, proxies, executors, verifiers))
    }

    /// The record of member `id`, of which this is the form. It shares the records.
    ///
    /// Unfit: it is that of no member of this number, as when it is of another member, of which something was kept, or of a
    /// process that has several replicas. NoMemory: an allocation failed.
    pub fn of_process(alloc: Global, id: u8, process: &ProcessRecord) -> Result<MemberRecord, Fault>
        ensures is { IfOk result (λ kept. IsFormOf id process.now kept) }
        ensures unfit { result ≡ Err Fault.Unfit → (kept : MemberKept) → IsFormOf id process.now kept → ⊥ }
        ensures only { IfErr result (λ fault. (fault ≡ Fault.Unfit) ⊎ (fault ≡ Fault.NoMemory)) }
    {
        let u = process.u();
        let Some(executor) = lone(process.executors(), 2 * u + 1, id) else {
            return Err(Fault::Unfit);
        };
        let Some(verifier) = lone(process.verifiers(), 2 * u + 1, id) else {
            return Err(Fault::Unfit);
        };
        Ok(record_of(alloc, id, u, executor, verifier, process.proxies())?)
    }
}

//! What a file has of the process that wrote it.

ghost use Rattle.std.specs.Prelude.{◌≡◌, ◌≤◌, None, IsTrue, IfOk, IsSomeAnd};
ghost use Rattle.sqlite_trees.specs.View.{IsClean, doubt};
ghost use Rattle.row_store.specs.Saved.{IsSame};
ghost use Rattle.data_folder.specs.Found.{StampFits, HasCopy, IsCopyOf};
ghost use Rattle.states.specs.State.{initial_state};
ghost use Rattle.shelf.specs.InMemory.{items_in};
ghost use Rattle.data_folder.specs.Text.{service_text};
ghost use Rattle.data_folder.specs.Items.{AreRowsOf, AreStatesTold, IsTextWith, IsStateFound};
ghost use Rattle.process_text.specs.Text.{IsProcessText};

use crate::fault::DataFault;
use crate::service_text::take_text;
use crate::stored_items::{state_with, with_items};
use folders::SaveStamp;
use process_parts::record_of;
use process_text::ProcessText;
use proto::Fault;
use service::ServiceRecord;
use shelf::{SavedProcess, Shelf};
use sqlite_trees::store::Store;
use states::State;
use std::alloc::Global;
use wire::read;

/// What a file has of a service.
pub struct FoundCopy {
    /// When it was saved.
    pub stamp: SaveStamp,
    /// Which site's data it is. It is 0 if there is one folder.
    pub site: u64,
    pub service: ServiceRecord,
}

impl Drop for FoundCopy {
    fn drop(self) {
        let FoundCopy {
            stamp: _,
            site: _,
            service: _,
        } = self;
    }
}

impl FoundCopy {
    /// The record.
    pub fn into_service(self) -> ServiceRecord
        ensures { result ≡ self.service }
    {
        let FoundCopy {
            stamp: _,
            site: _,
            service,
        } = self;
        service
    }
}

/// What is asked of a file.
#[derive(Clone, Copy, Debug)]
pub struct Wanted {
    /// No data is in it yet. Else some may be.
    pub is_new: bool,
    /// The data is of a service of `2u + 1` nodes of each kind.
    pub u: u8,
    /// So many folders have copies of it.
    pub folders: u32,
}

/// The state whose items a file has, and what it has of a service.
#[derive(Drop)]
pub struct FoundProcess {
    pub state: State,
    pub copy: Option<FoundCopy>,
}

/// The process of a row, and the number of the next connection.
fn process_in(
    alloc: Global,
    saved: &SavedProcess,
    wanted: Wanted,
) -> Result<(ProcessText, u64), DataFault>
    ensures process { IfOk result (λ read. IsProcessText read.0) }
    ensures is { IfOk result (λ read. saved.now.text ≡ service_text read.0 read.1) }
{
    if saved.folders != wanted.folders {
        return Err(DataFault::OtherFolders(saved.folders));
    }
    let (text, next) = take_text(alloc, saved.text.as_slice())?;
    if text.u != wanted.u {
        return Err(DataFault::OtherU(text.u));
    }
    Ok((text, next))
}

/// The site of a row: none is written if there is one folder.
fn site_in(alloc: Global, saved: &SavedProcess) -> Result<u64, Fault> {
    if saved.folders == 1 && saved.site.as_slice().is_empty() {
        Ok(0)
    } else {
        read::<u64>(alloc, saved.site.as_slice())
    }
}

/// The state of a process, whose items the file has, and its record.
fn record_in<S: Store>(
    alloc: Global,
    shelf: &mut Shelf<S>,
    text: &ProcessText,
    next: u64,
) -> Result<(State, ServiceRecord), DataFault>
    requires { IsProcessText text.now }
    ensures is { IfOk result (λ read. IsTextWith read.1 (service_text text.now next) read.0) }
    ensures items { IfOk result (λ read. IsClean (S.view shelf.new.rows.store) → IsTrue (S.view shelf.new.rows.store).is_open → AreStatesTold initial_state read.0
        → AreRowsOf (items_in (S.view shelf.new.rows.store).committed shelf.new.waiting) read.0.items) }
    ensures same { IsClean (S.view shelf.new.rows.store) → IsSame (S.view shelf.old.rows.store) (S.view shelf.new.rows.store) }
    ensures clean { doubt (S.view shelf.old.rows.store).is_clean ≤ doubt (S.view shelf.new.rows.store).is_clean }
{
    let items = shelf.items(alloc)?;
    let state = state_with(alloc, text, &items)?;
    let state = with_items(alloc, items, state)?;
    let replicas = record_of(alloc, text, &state)?;
    Ok((state, ServiceRecord::of(replicas, next)))
}

/// What a file without a process has: no items.
fn nothing<S: Store>(alloc: Global, shelf: &mut Shelf<S>) -> Result<FoundProcess, DataFault>
    ensures copy { IfOk result (λ found. found.copy ≡ None) }
    ensures state { IfOk result (λ found. IsStateFound found.copy found.state) }
    ensures items { IfOk result (λ found. IsClean (S.view shelf.new.rows.store) → IsTrue (S.view shelf.new.rows.store).is_open → AreStatesTold initial_state found.state
        → AreRowsOf (items_in (S.view shelf.new.rows.store).committed shelf.new.waiting) found.state.items) }
    ensures same { IsClean (S.view shelf.new.rows.store) → IsSame (S.view shelf.old.rows.store) (S.view shelf.new.rows.store) }
    ensures clean { doubt (S.view shelf.old.rows.store).is_clean ≤ doubt (S.view shelf.new.rows.store).is_clean }
{
    let items = shelf.items(alloc)?;
    let state = with_items(alloc, items, State::first(alloc)?)?;
    Ok(FoundProcess { state, copy: None })
}

/// The same stamp, whose numbers have 64 bits.
fn known(stamp: SaveStamp) -> SaveStamp
    ensures is { result ≡ stamp }
    ensures fits { StampFits stamp }
{
    stamp
}

/// What a file has of the process that wrote it.
fn found_of<S: Store>(
    alloc: Global,
    shelf: &mut Shelf<S>,
    saved: &SavedProcess,
    wanted: Wanted,
) -> Result<FoundProcess, DataFault>
    ensures is { IfOk result (λ found. IsSomeAnd found.copy (λ copy. IsCopyOf saved.now copy)) }
    ensures state { IfOk result (λ found. IsStateFound found.copy found.state) }
    ensures items { IfOk result (λ found. IsClean (S.view shelf.new.rows.store) → IsTrue (S.view shelf.new.rows.store).is_open → AreStatesTold initial_state found.state
        → AreRowsOf (items_in (S.view shelf.new.rows.store).committed shelf.new.waiting) found.state.items) }
    ensures same { IsClean (S.view shelf.new.rows.store) → IsSame (S.view shelf.old.rows.store) (S.view shelf.new.rows.store) }
    ensures clean { doubt (S.view shelf.old.rows.store).is_clean ≤ doubt (S.view shelf.new.rows.store).is_clean }
{
    let (text, next) = process_in(alloc, saved, wanted)?;
    let site = site_in(alloc, saved)?;
    let (state, service) = record_in(alloc, shelf, &text, next)?;
    Ok(FoundProcess {
        state,
        copy: Some(FoundCopy {
            stamp: known(saved.stamp),
            site,
            service,
        }),
    })
}

/// What a file has. One with data is refused if a new one is wanted.
pub fn found_in<S: Store>(
    alloc: Global,
    shelf: &mut Shelf<S>,
    wanted: Wanted,
) -> Result<FoundProcess, DataFault>
    ensures copy { IfOk result (λ found. IsClean (S.view shelf.new.rows.store) → IsTrue (S.view shelf.new.rows.store).is_open → HasCopy (S.view shelf.new.rows.store).committed found.copy) }
    ensures state { IfOk result (λ found. IsStateFound found.copy found.state) }
    ensures items { IfOk result (λ found. IsClean (S.view shelf.new.rows.store) → IsTrue (S.view shelf.new.rows.store).is_open → AreStatesTold initial_state found.state
        → AreRowsOf (items_in (S.view shelf.new.rows.store).committed shelf.new.waiting) found.state.items) }
{
    match shelf.process(alloc)? {
        None => nothing(alloc, shelf),
        Some(_) if wanted.is_new => Err(DataFault::HasData),
        Some(saved) => found_of(alloc, shelf, &saved, wanted),
    }
}

//! The folders of a start, opened.

ghost use Rattle.std.specs.Prelude.{◌≡◌, ◌+◌, IfOk, OnOk, length};

use crate::fault::FoldersFault;
use crate::opened::Opened;
use data_folder::{DataFault, FILES, HostFolder, Wanted};
use std::fs;
use std::hash::{BuildHasher, RandomState};

/// How folders are opened.
#[derive(Clone, Copy, Debug)]
pub struct FoldersOptions {
    /// No data is in them yet. Else some is.
    pub is_new: bool,
    /// The data is of a service of `2u + 1` nodes of each kind.
    pub u: u8,
    /// Each save is synced. Else what was saved stays if the process ends, and not if the machine does.
    pub syncs: bool,
}

/// Why a folder was not used as it was: the folder's number, from 0.
#[derive(Clone, Copy, Debug, PartialEq, Eq)]
pub struct FolderTrouble {
    pub folder: usize,
    /// Why it could not be read; if it has no data and no file could be made in it either, why not.
    pub fault: DataFault,
    /// It is made anew: a damaged file was set aside, and the first save writes all. Else it is not used in this start.
    pub is_renewed: bool,
}

/// So many damaged files of one folder are set aside at most.
const MOST_SET_ASIDE: u32 = 99;

/// How many folders there are, of which a caller names a few.
fn count_of(folders: &[String]) -> u32 {
    u32::try_from(folders.len()).unwrap_or(u32::MAX)
}

/// Whether the others may serve while one folder has this fault.
fn may_be_lost(fault: DataFault) -> bool {
    match fault {
        DataFault::NoData
        | DataFault::Damaged
        | DataFault::CannotOpen
        | DataFault::Full
        | DataFault::Disk => true,
        _ => false,
    }
}

/// Whether a new file may replace what has this fault.
fn may_be_renewed(fault: DataFault) -> bool {
    match fault {
        DataFault::NoData | DataFault::Damaged => true,
        _ => false,
    }
}

/// Gives a file another name, if it is there.
fn rename_file(rt: &HostRuntime, folder: &str, name: &str, number: u32) -> Result<(), DataFault> {
    let from = format!(in rt.alloc(); "{folder}/{name}")?;
    let to = format!(in rt.alloc(); "{folder}/{name}.old-{number}")?;
    if fs::exists(rt, from.as_str())? {
        fs::rename(rt, from.as_str(), to.as_str())?;
    }
    Ok(())
}

/// The first number under which no file of a folder was set aside.
fn free_number(rt: &HostRuntime, folder: &str) -> Result<u32, DataFault> {
    for number in 1..=MOST_SET_ASIDE {
        let path = format!(in rt.alloc(); "{folder}/{}.old-{number}", FILES[0])?;
        if !fs::exists(rt, path.as_str())? {
            return Ok(number);
        }
    }
    Err(DataFault::CannotOpen)
}

/// Gives the files of a folder other names, such that they are kept and new ones may be made.
fn set_aside(rt: &HostRuntime, folder: &str) -> Result<(), DataFault> {
    let number = free_number(rt, folder)?;
    for name in FILES {
        rename_file(rt, folder, name, number)?;
    }
    Ok(())
}

/// Opens one more folder. If it cannot be opened and the others may serve all the same, it is noted.
fn open_one(
    rt: &HostRuntime,
    folder: &str,
    wanted: Wanted,
    syncs: bool,
    opened: &mut Opened<HostFolder>,
    troubles: &mut Vec<FolderTrouble>,
) -> Result<(), FoldersFault>
    ensures { OnOk result (length opened.new.finds.items ≡ length opened.old.finds.items + 1) }
{
    let at = opened.slots.len();
    match HostFolder::open(rt, folder, wanted, syncs) {
        Ok((copy, found)) => Ok(opened.push(Some(copy), found)?),
        Err(fault) if 1 < wanted.folders && !wanted.is_new && may_be_lost(fault) => {
            troubles.push(FolderTrouble {
                folder: at,
                fault,
                is_renewed: false,
            })?;
            Ok(opened.push(None, None)?)
        }
        Err(fault) => Err(FoldersFault::At(at, fault)),
    }
}

/// Makes a new file in the folder of this slot, which is not open. What was there is set aside.
fn renew_one(
    rt: &HostRuntime,
    folder: &str,
    wanted: Wanted,
    syncs: bool,
    opened: &mut Opened<HostFolder>,
    at: usize,
) -> Result<(), DataFault>
    ensures { opened.new.finds ≡ opened.old.finds }
{
    set_aside(rt, folder)?;
    match HostFolder::open(rt, folder, wanted, syncs) {
        Ok((copy, found)) => opened.renew_with(at, copy, found),
        Err(fault) => Err(fault),
    }
}

/// Notes that a new file was made, or why not where there was none.
fn note_renewal(trouble: &mut FolderTrouble, made: Result<(), DataFault>) {
    match made {
        Ok(()) => trouble.is_renewed = true,
        Err(fault) if trouble.fault == DataFault::NoData => trouble.fault = fault,
        Err(_) => {}
    }
}

/// Makes new files where none can be read, which are saved first of all. A folder in which that fails is not used.
fn renew_each(
    rt: &HostRuntime,
    folders: &[String],
    options: FoldersOptions,
    opened: &mut Opened<HostFolder>,
    troubles: &mut [FolderTrouble],
)
    ensures { opened.new.finds ≡ opened.old.finds }
{
    let wanted = Wanted {
        is_new: true,
        u: options.u,
        folders: count_of(folders),
    };
    for trouble in troubles {
        let Some(folder) = folders.get(trouble.folder) else {
            continue;
        };
        if may_be_renewed(trouble.fault) {
            let made = renew_one(
                rt,
                folder.as_str(),
                wanted,
                options.syncs,
                opened,
                trouble.folder,
            );
            note_renewal(trouble, made);
        }
    }
}

/// Makes them, if copies were read in more than half of the folders.
fn renew_lost(
    rt: &HostRuntime,
    folders: &[String],
    options: FoldersOptions,
    opened: &mut Opened<HostFolder>,
    troubles: &mut [FolderTrouble],
)
    ensures { opened.new.finds ≡ opened.old.finds }
{
    if opened.readable() <= folders.len() / 2 {
        return;
    }
    renew_each(rt, folders, options, opened, troubles);
}

/// Opens each folder.
fn open_each(
    rt: &HostRuntime,
    folders: &[String],
    options: FoldersOptions,
    opened: &mut Opened<HostFolder>,
    troubles: &mut Vec<FolderTrouble>,
) -> Result<(), FoldersFault>
    ensures { OnOk result (length opened.new.finds.items ≡ length opened.old.finds.items + length folders.now) }
{
    let wanted = Wanted {
        is_new: options.is_new,
        u: options.u,
        folders: count_of(folders),
    };
    for folder in folders {
        open_one(rt, folder.as_str(), wanted, options.syncs, opened, troubles)?;
    }
    Ok(())
}

/// A number for the data of a new site. It is 0 if there is one folder, whose file has none.
fn new_site(rt: &HostRuntime, folders: usize) -> Result<u64, FoldersFault> {
    if folders == 1 {
        return Ok(0);
    }
    match RandomState::new(rt) {
        Ok(state) => Ok(state.hash_one(&0u8).max(1)),
        Err(_) => Err(FoldersFault::NoMemory),
    }
}

/// Opens the folders, which have to be there, for this process alone. Each has a copy of one site's data. Folders that
/// cannot be read are noted, and the others serve as long as they are more than half of all. Then a damaged file is set
/// aside, and one is made where none is. Each folder counts, also one that cannot be read.
///
/// `At` if a folder is in use, or has what is no copy of this data: another `u`, another number of folders, a later version;
/// if there is one folder, any fault of it. With `is_new` each folder has to be without data.
pub fn open_folders(
    rt: &HostRuntime,
    folders: &[String],
    options: FoldersOptions,
    troubles: &mut Vec<FolderTrouble>,
) -> Result<Opened<HostFolder>, FoldersFault>
    ensures { IfOk result (λ opened. length opened.finds.items ≡ length folders.now) }
{
    let mut opened = Opened::new(rt.alloc(), new_site(rt, folders.len())?);
    match open_each(rt, folders, options, &mut opened, troubles) {
        Ok(()) => {
            renew_lost(rt, folders, options, &mut opened, troubles.as_mut_slice());
            Ok(opened)
        }
        Err(fault) => Err(fault),
    }
}

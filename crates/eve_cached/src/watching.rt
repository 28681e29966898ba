//! What the daemon tells while it serves.

use crate::showing::Shown;
use daemon::{
    Report, SaveLine, SaveWatch, Settings, Stamped, Totals, open_files, process_id, resident_pages,
    seconds, tell, tell_behind, tell_current, tell_few_files, tell_saved_again, tell_unsaved,
};
use data_folder::FILES;
use data_folders::{FolderCount, FolderCounts};
use figures::{Figures, Limits, Process};
use metrics::{FolderFigures, Folders, MOST_FOLDERS};
use server::{Save, SaveFault, Watcher};
use std::rt::{Clock, Files};
use std::sync::Wait;
use std::time::{Duration, Instant};
use std::{fs, thread};

/// The bytes of a page of memory.
const PAGE_BYTES: u64 = 4096;

/// The resident memory of this process in bytes, or 0 if the system does not tell.
fn resident_bytes<R: Files + AllocGlobal>(rt: &R) -> u64 {
    let Ok(text) = fs::read_to_string(rt, "/proc/self/statm") else {
        return 0;
    };
    resident_pages(text.as_str())
        .unwrap_or(0)
        .saturating_mul(PAGE_BYTES)
}

/// The bytes of a file in a folder, or 0 if the system does not tell.
fn file_bytes<R: Files + AllocGlobal>(rt: &R, folder: &str, name: &str) -> u64 {
    let Ok(path) = format!(in rt.alloc(); "{folder}/{name}") else {
        return 0;
    };
    match fs::metadata(rt, path.as_str()) {
        Ok(found) => found.len(),
        Err(_) => 0,
    }
}

/// The bytes of the files in a folder of data.
fn folder_bytes<R: Files + AllocGlobal>(rt: &R, folder: &str) -> u64 {
    let mut sum: u64 = 0;
    for name in FILES {
        sum = sum.saturating_add(file_bytes(rt, folder, name));
    }
    sum
}

/// What is known of a folder now, in this second since 1970, after what was known of it before.
fn folder_now<R: Files + AllocGlobal>(
    rt: &R,
    path: &str,
    counted: FolderCount,
    before: FolderFigures,
    second: u64,
) -> FolderFigures {
    FolderFigures {
        is_current: counted.is_current,
        made: counted.made,
        failed: counted.failed,
        saved_at: if before.made < counted.made {
            second
        } else {
            before.saved_at
        },
        bytes: folder_bytes(rt, path),
    }
}

/// What is counted of the folder with this number.
fn counted(counts: &FolderCounts, at: usize) -> FolderCount {
    counts.count(at).unwrap_or(FolderCount::NONE)
}

/// What is known of each of these folders now, after what was known before.
fn folders_now<R: Clock + Files + AllocGlobal>(
    rt: &R,
    paths: &[String],
    counts: &FolderCounts,
    before: &Folders,
) -> Folders {
    let second = seconds(rt);
    let mut now = Folders::NONE;
    for at in 0..MOST_FOLDERS {
        if let Some(path) = paths.get(at) {
            let was = before.each[at];
            now.each[at] = folder_now(rt, path.as_str(), counted(counts, at), was, second);
        }
    }
    now.count = u8::try_from(paths.len()).unwrap_or(u8::MAX);
    now
}

/// The bytes of the files in all folders.
fn bytes_in(folders: &Folders) -> u64 {
    let mut sum: u64 = 0;
    for folder in folders.there() {
        sum = sum.saturating_add(folder.bytes);
    }
    sum
}

/// Why a folder that the start did not open lacks each save.
const NOT_USED: &str = "it could not be used at the start, and is not used before the next one";

/// So many files are open beside those of connections, at most: some twenty of the process, and 32 connections of the
/// status port.
const OTHER_FILES: u64 = 60;

/// The number of this process, or 0 if the system does not tell.
fn own_id<R: Files + AllocGlobal>(rt: &R) -> u64 {
    let Ok(text) = fs::read_to_string(rt, "/proc/self/stat") else {
        return 0;
    };
    process_id(text.as_str()).unwrap_or(0)
}

/// How many connections can be served at once: as many as the settings say, or fewer if fewer files may be open than these
/// may take. Then the log tells. The other files stay for the status port and the folders of the data.
pub fn connections_of<R: Files + Clock + Eprint + AllocGlobal>(rt: &R, settings: &Settings) -> u16 {
    let asked = settings.connections;
    let Ok(text) = fs::read_to_string(rt, "/proc/self/limits") else {
        return asked;
    };
    let needed = u64::from(asked).saturating_add(OTHER_FILES);
    match open_files(text.as_str()) {
        Some(files) if files < needed => {
            let served = files.saturating_sub(OTHER_FILES).max(1);
            tell_few_files(&Stamped(rt), files, needed, served);
            u16::try_from(served).unwrap_or(asked)
        }
        _ => asked,
    }
}

/// What is seen of a server.
#[derive(Clone, Copy)]
pub struct Look {
    pub figures: Figures,
    pub folders: Folders,
    /// The first folder that does not have the last save, from 0, and why.
    behind: Option<(usize, SaveFault)>,
}

/// What this process knows of itself.
#[derive(Clone, Copy)]
pub struct Known<'a> {
    /// When it began, by a clock that only goes on.
    start: Option<Instant>,
    process: Process,
    limits: Limits,
    /// The folders of its data. None if it has none.
    folders: &'a [String],
    /// What is counted of each of them.
    counts: &'a FolderCounts,
    /// Whether it goes on from what was saved.
    is_found: bool,
}

impl<'a> Known<'a> {
    /// The process begins to serve with these settings, so many connections at once.
    pub fn begin<R: Clock + Files + AllocGlobal>(
        rt: &R,
        settings: &'a Settings,
        connections: u16,
        counts: &'a FolderCounts,
        is_found: bool,
    ) -> Known<'a> {
        Known {
            start: Instant::now(rt).ok(),
            process: Process {
                id: own_id(rt),
                started: seconds(rt),
            },
            limits: Limits {
                connections: u64::from(connections),
                idle_seconds: u64::from(settings.idle),
                item_bytes: settings.max_bytes,
            },
            folders: match &settings.data {
                Some(data) => data.paths.as_slice(),
                None => &[],
            },
            counts,
            is_found,
        }
    }

    /// Whether it goes on from what was saved.
    pub fn has_found(&self) -> bool {
        self.is_found
    }

    /// Tells that the folder with this number does not have the last save, and why.
    fn tell_lacking<R: Clock + Eprint>(&self, rt: &R, at: usize, fault: SaveFault) {
        let Some(path) = self.folders.get(at) else {
            return;
        };
        if counted(self.counts, at).is_open {
            tell_behind(&Stamped(rt), path.as_str(), &fault);
        } else {
            tell_behind(&Stamped(rt), path.as_str(), &NOT_USED);
        }
    }

    /// The seconds since the start, or 0 if the clock cannot be read.
    fn uptime<R: Clock>(&self, rt: &R) -> u64 {
        match (self.start, Instant::now(rt)) {
            (Some(start), Ok(now)) => now.saturating_duration_since(start).as_secs(),
            _ => 0,
        }
    }

    /// What the server has counted, and what this process knows of itself and of its folders, after what was known of
    /// these before.
    pub fn look<R: Wait + Clock + Files + AllocGlobal, S: Save>(
        &self,
        rt: &R,
        watcher: &Watcher<'_, S>,
        before: &Folders,
    ) -> Look {
        let mut figures = watcher.figures(rt);
        let behind = watcher.save_folders(rt).behind;
        let folders = folders_now(rt, self.folders, self.counts, before);
        figures.uptime_seconds = self.uptime(rt);
        figures.process = self.process;
        figures.limits = self.limits;
        figures.memory.resident_bytes = resident_bytes(rt);
        figures.saves.bytes = bytes_in(&folders);
        Look {
            figures,
            folders,
            behind,
        }
    }
}

/// Tells if the last save failed, and if saves succeed again. Whether no later one can succeed.
fn tells_of_saves<R: Wait + Clock + Eprint, S: Save>(
    rt: &R,
    watcher: &Watcher<'_, S>,
    saves: &mut SaveWatch,
) -> bool {
    let fault = watcher.save_fault(rt);
    match (saves.look(fault.is_some(), seconds(rt)), fault) {
        (SaveLine::Fails, Some(fault)) => tell_unsaved(&Stamped(rt), &fault),
        (SaveLine::Again(seconds), _) => tell_saved_again(&Stamped(rt), seconds),
        _ => {}
    }
    fault == Some(SaveFault::Disk)
}

/// Tells if another folder lacks the last save than was told before, which is changed, and if each has it again.
fn tells_of_folders<R: Clock + Eprint>(
    rt: &R,
    behind: Option<(usize, SaveFault)>,
    known: &Known<'_>,
    told: &mut Option<usize>,
) {
    let at = behind.map(|(at, _)| at);
    if at == *told {
        return;
    }
    *told = at;
    match behind {
        Some((at, fault)) => known.tell_lacking(rt, at, fault),
        None => tell_current(&Stamped(rt)),
    }
}

/// Looks once a second what the server has counted, shows it and tells what is due, until the server ends by itself or
/// nothing can be saved any more.
pub fn watch<R: Wait + Clock + Files + Eprint + AllocGlobal, S: Save>(
    rt: &R,
    watcher: &Watcher<'_, S>,
    shown: &Shown,
    known: Known<'_>,
) {
    let first = known.look(rt, watcher, &Folders::NONE);
    watcher.see(rt, &first.figures);
    let mut report = Report::new(Totals::of(&first.figures));
    let mut folders = first.folders;
    let mut saves = SaveWatch::NONE;
    let mut told = None;
    for _ in rt.forever() {
        thread::sleep(rt, Duration::from_secs(1));
        if watcher.has_ended() || tells_of_saves(rt, watcher, &mut saves) {
            return;
        }
        let look = known.look(rt, watcher, &folders);
        folders = look.folders;
        if 1 < known.folders.len() && 0 < look.figures.saves.made {
            tells_of_folders(rt, look.behind, &known, &mut told);
        }
        watcher.see(rt, &look.figures);
        shown.renew(rt, look.figures, look.folders);
        let due = report.due(Totals::of(&look.figures), seconds(rt));
        tell(&Stamped(rt), due, &look.figures);
    }
}

//! Figures that are not all zero.

use figures::{Asked, Figures, Histogram, Kind, NodeFigures, Refusal, Saves};
use metrics::{FolderFigures, Folders};
use proto::Reply;
use status::{History, Seen};
use std::alloc::Global;

/// Three executors of which two are down, some commands, some times, a save that failed.
pub fn some_figures() -> Figures {
    let mut figures = Figures::NONE;
    figures.uptime_seconds = 7;
    figures.process.started = 1_764_403_200;
    figures.limits.connections = 1024;
    figures.saves = Saves {
        made: 100,
        failed: 3,
        waiting: 5,
        failing: 1,
        bytes: 73_728,
        folders: 3,
        current_folders: 2,
        times: Histogram::NONE,
    };
    figures.saves.times.observe(700);
    figures.connections.open = 3;
    figures.connections.idle = 4;
    figures.refusals.count(Refusal::Number);
    figures.connections.accepted = 12;
    figures.replicas.members = 3;
    figures.replicas.executors[0] = NodeFigures {
        is_up: true,
        stops: 2,
    };
    let set = Asked {
        kind: Kind::Set,
        keys: 0,
    };
    figures.answer(set, &Reply::Stored);
    figures.answer(set, &Reply::Stored);
    figures.reply_times.observe(50);
    figures.reply_times.observe(51);
    figures.batch_times.observe(1_234_567);
    figures.batch_parts.wait.observe(1);
    figures.batch_parts.execute.observe(20);
    figures.batch_parts.agree.observe(300);
    figures.batch_parts.commit.observe(4_000);
    figures
}

/// Three folders: two have the last save, the third one has none.
pub fn some_folders() -> Folders {
    let mut folders = Folders::NONE;
    folders.count = 3;
    for at in 0..2usize {
        folders.each[at] = FolderFigures {
            is_current: true,
            made: 100,
            failed: at as u64,
            saved_at: 1_764_403_300,
            bytes: 36_864,
        };
    }
    folders.each[2].failed = 103;
    folders
}

/// These figures, and a history that has nothing but a sample of them.
pub fn seen_with(alloc: Global, figures: Figures) -> Seen {
    let mut history = History::new(alloc);
    // Without memory there is no sample.
    let _ = history.keep(&figures);
    Seen {
        figures,
        folders: some_folders(),
        history,
    }
}

//! What a reader is told of its server, and what it counts there.

use crate::turn::leaves_out;
use dialect::{Notice, Report, Show, Turn};
use figures::{Figures, Refusal, plus};
use proto::{Command, Update};

/// What a reader is told of its server when bytes come. It counts there which lines it refuses; no count decides
/// anything.
pub struct Conditions {
    /// Whether the items have more bytes than may be stored. It decides in a dialect with a limit alone.
    pub is_full: bool,
    /// How many bytes of keys and blocks were asked to be stored since the start, in a dialect with a limit.
    pub asked_bytes: u64,
    pub figures: Figures,
}

/// Nothing was counted.
const NO_FIGURES: Figures = Figures::NONE;

impl Conditions {
    /// Nothing was counted or asked, and there is room.
    pub const NONE: Conditions = Conditions {
        is_full: false,
        asked_bytes: 0,
        figures: NO_FIGURES,
    };
}

impl Drop for Conditions {
    fn drop(self) {
        let Conditions {
            is_full: _,
            asked_bytes: _,
            figures: _,
        } = self;
    }
}

/// Why an answer to `stats` is a refusal, if it is one.
fn refusal_of_report(report: Report) -> Option<Refusal> {
    match report {
        Report::DetailUsage => Some(Refusal::Format),
        Report::DumpRefused | Report::MetadumpRefused => Some(Refusal::Forbidden),
        _ => None,
    }
}

/// Why a line of memcached's dialect is refused that is answered so, if it is.
fn refusal_of(notice: Notice) -> Option<Refusal> {
    match notice {
        Notice::UnknownName => Some(Refusal::Unknown),
        Notice::BadFormat
        | Notice::BadDelete
        | Notice::UnknownFlag
        | Notice::DuplicateFlag
        | Notice::BadFlag
        | Notice::BadToken
        | Notice::BadDeltaValue
        | Notice::BadModeLength
        | Notice::BadSetMode
        | Notice::BadCountMode
        | Notice::OpaqueTooLong => Some(Refusal::Format),
        Notice::BadExptime | Notice::BadDelta => Some(Refusal::Number),
        Notice::TooLarge => Some(Refusal::Large),
        Notice::BadChunk => Some(Refusal::Chunk),
        Notice::LineTooLong => Some(Refusal::Long),
        Notice::FlushRefused | Notice::ShutdownRefused => Some(Refusal::Forbidden),
        Notice::OutOfMemory => Some(Refusal::Full),
        Notice::Stats(report) => refusal_of_report(report),
        Notice::Http => Some(Refusal::Http),
        Notice::Binary => Some(Refusal::Binary),
        _ => None,
    }
}

/// Why a line of the profile is refused that is answered so, if it is.
fn refusal_of_profile(notice: proto::Notice) -> Option<Refusal> {
    match notice {
        proto::Notice::UnknownName => Some(Refusal::Unknown),
        proto::Notice::BadFormat => Some(Refusal::Format),
        proto::Notice::BadDelta => Some(Refusal::Number),
        proto::Notice::TooLarge => Some(Refusal::Large),
        proto::Notice::LineTooLong => Some(Refusal::Long),
        proto::Notice::BadChunk => Some(Refusal::Chunk),
        _ => None,
    }
}

/// Counts the line that gave this turn, if it was refused.
fn count_refused(turn: &Turn, figures: &mut Figures) {
    let refusal = match turn {
        Turn::Ask(_, Show::Instead(notice)) => refusal_of(*notice),
        Turn::Ask(_, _) => None,
        Turn::Say(notice) => refusal_of(*notice),
        Turn::Close(notice) => refusal_of(*notice),
    };
    if let Some(refusal) = refusal {
        figures.refusals.count(refusal);
    }
}

/// Counts the lines that gave these turns, as far as they were refused.
pub fn count_all_refused(turns: &[Turn], figures: &mut Figures) {
    for turn in turns {
        count_refused(turn, figures);
    }
}

/// Whether the turn asks to store something and shows nothing. A server that is full refuses it without a word.
fn is_stored_quietly(turn: &Turn) -> bool {
    match turn {
        Turn::Ask(Command::Update(Update::Store { .. }), show) => leaves_out(show),
        Turn::Ask(Command::Update(Update::Cas { block, .. }), show) => {
            !block.is_empty() && leaves_out(show)
        }
        _ => false,
    }
}

/// Counts the lines that gave these turns, as far as they are refused without a word, if the server is full.
pub fn count_refused_quietly(is_full: bool, turns: &[Turn], figures: &mut Figures) {
    for turn in turns {
        if is_full && is_stored_quietly(turn) {
            figures.refusals.count(Refusal::Full);
        }
    }
}

/// How many bytes of a key and a block the turn asks to be stored.
fn bytes_of(turn: &Turn) -> u64 {
    match turn {
        Turn::Ask(Command::Update(Update::Store { key, block, .. }), _) => {
            (key.as_slice().len() as u64).saturating_add(block.len() as u64)
        }
        Turn::Ask(Command::Update(Update::Cas { key, block, .. }), _) => {
            (key.as_slice().len() as u64).saturating_add(block.len() as u64)
        }
        _ => 0,
    }
}

/// How many bytes all of these turns ask to be stored.
pub fn bytes_in(turns: &[Turn]) -> u64 {
    let mut bytes = 0;
    for turn in turns {
        bytes = plus(bytes, bytes_of(turn));
    }
    bytes
}

/// Counts the line of the profile that gave this turn, if it was refused.
pub fn count_refused_of_profile(turn: &proto::Turn, figures: &mut Figures) {
    let refusal = match turn {
        proto::Turn::Ask(_, _) => None,
        proto::Turn::Say(notice) => refusal_of_profile(*notice),
        proto::Turn::Close(notice) => refusal_of_profile(*notice),
    };
    if let Some(refusal) = refusal {
        figures.refusals.count(refusal);
    }
}

//! What comes next on a client's stream, in either grammar.

ghost use Rattle.std.specs.Prelude.{◌≡◌, IfOk};
ghost use Rattle.grammar.specs.Turns.{said_text, is_left_out, profile_turn, report_with, said_with, turn_with};

use crate::stats::{StatsText, settings_text, stats_text};
use dialect::{Report, Show};
use figures::Figures;
use proto::Command;
use std::alloc::{AllocError, Global};

/// A text that the reader answers by itself.
#[derive(Drop)]
pub enum Notice {
    Profile(proto::Notice),
    Memcached(dialect::Notice),
    /// What `stats` gives.
    Stats(StatsText),
}

/// What comes next on a client's stream. A line with its block gives no, one or more of them.
#[derive(Drop)]
pub enum Turn {
    /// A command, and what is shown of its reply.
    Ask(Command, Show),
    /// The text is given.
    Say(Notice),
    /// The text is given, and nothing more is read.
    Close(Notice),
}

impl Notice {
    /// The bytes that are given.
    pub fn text(&self) -> &[u8]
        ensures { result.now ≡ said_text self.now }
    {
        match self {
            Notice::Profile(notice) => notice.text(),
            Notice::Memcached(notice) => notice.text(),
            Notice::Stats(text) => text.as_slice(),
        }
    }
}

/// Whether the reply is left out of what the client is given.
pub fn leaves_out(show: &Show) -> bool
    ensures { result ≡ is_left_out show.now }
{
    match show {
        Show::Quiet => true,
        Show::Whole => false,
        Show::Items => false,
        Show::Instead(_) => false,
        Show::Meta(_) => false,
    }
}

/// A turn of the profile.
pub fn of_profile(turn: proto::Turn) -> Turn
    ensures { result ≡ profile_turn turn }
{
    match turn {
        proto::Turn::Ask(command, true) => Turn::Ask(command, Show::Quiet),
        proto::Turn::Ask(command, false) => Turn::Ask(command, Show::Whole),
        proto::Turn::Say(notice) => Turn::Say(Notice::Profile(notice)),
        proto::Turn::Close(notice) => Turn::Close(Notice::Profile(notice)),
    }
}

/// What is said for an answer to `stats`: of the figures, and of the settings, their text.
fn report_of(alloc: Global, report: Report, figures: &Figures) -> Result<Notice, AllocError>
    ensures { IfOk result (λ said. said ≡ report_with figures.now report) }
{
    match report {
        Report::Figures => Ok(Notice::Stats(stats_text(alloc, figures)?)),
        Report::Settings => Ok(Notice::Stats(settings_text(alloc, figures)?)),
        other => Ok(Notice::Memcached(dialect::Notice::Stats(other))),
    }
}

/// What is said for a notice of memcached's dialect.
fn said_of(alloc: Global, notice: dialect::Notice, figures: &Figures) -> Result<Notice, AllocError>
    ensures { IfOk result (λ said. said ≡ said_with figures.now notice) }
{
    match notice {
        dialect::Notice::Stats(report) => report_of(alloc, report, figures),
        other => Ok(Notice::Memcached(other)),
    }
}

/// A turn of memcached's dialect. What `stats` gives is that of these figures.
pub fn of_memcached(
    alloc: Global,
    turn: dialect::Turn,
    figures: &Figures,
) -> Result<Turn, AllocError>
    ensures { IfOk result (λ now. now ≡ turn_with figures.now turn) }
{
    match turn {
        dialect::Turn::Ask(command, show) => Ok(Turn::Ask(command, show)),
        dialect::Turn::Say(notice) => Ok(Turn::Say(said_of(alloc, notice, figures)?)),
        dialect::Turn::Close(notice) => Ok(Turn::Close(Notice::Memcached(notice))),
    }
}

//! What a member shows to others, in order.

use crate::shown_entry::ShownEntry;
use decrees::Letter;
use ensemble::Answer;
use exec_lines::Body;
use ghost_log::GhostLog;
use sessions::Request;
use std::marker::Model;

/// What a member has shown, which only proofs read: it takes no memory.
pub struct ShownLog {
    entries: GhostLog<ShownEntry, bool>,
}

impl Drop for ShownLog {
    fn drop(self) {
        let ShownLog { entries: _ } = self;
    }
}

impl Model for ShownLog {
    ghost use Rattle.std.specs.Prelude.{List};
    ghost use Rattle.site_laws.specs.Site.{Shown};
    ghost use Rattle.std.specs.Coded.{coded_list};
    ghost use Rattle.member.specs.contracts.shown_entry.ShownEntry as entry;
    ghost use Rattle.member.specs.ShownLog.{shown_in, shown_code};

    ghost Value = { List Shown };

    ghost coded = { coded_list (shown_code entry.the_row.coded) };

    ghost view = { λ h. shown_in h.entries.items };
}

impl ShownLog {
    ghost use Rattle.std.specs.Prelude.{◌≡◌, ◌++◌, ◌∷◌, []};
    ghost use Rattle.site_laws.specs.Site as site;

    /// Nothing was shown.
    pub fn new() -> ShownLog
        ensures { result ≡ [] }
    {
        ShownLog {
            entries: GhostLog::new(),
        }
    }

    /// The letter came in; it is given back.
    pub fn came_in(&mut self, letter: Letter<Body>) -> Letter<Body>
        ensures same { result ≡ letter }
        ensures shown { self.new ≡ self.old ++ site.CameIn letter ∷ [] }
    {
        let entry = ShownEntry::CameIn(letter);
        self.entries = self.entries.and(&entry, &true);
        // It was made just now, so that there is but one case.
        match entry {
            ShownEntry::CameIn(letter) => letter,
            ShownEntry::WentOut(_letter) => unreachable!(),
            ShownEntry::Asks(_request, _) => unreachable!(),
            ShownEntry::Answers(_answer) => unreachable!(),
            ShownEntry::Notes(_) => unreachable!(),
        }
    }

    /// The letter went out; it is given back.
    pub fn went_out(&mut self, letter: Letter<Body>) -> Letter<Body>
        ensures same { result ≡ letter }
        ensures shown { self.new ≡ self.old ++ site.WentOut letter ∷ [] }
    {
        let entry = ShownEntry::WentOut(letter);
        self.entries = self.entries.and(&entry, &true);
        // It was made just now, so that there is but one case.
        match entry {
            ShownEntry::WentOut(letter) => letter,
            ShownEntry::CameIn(_letter) => unreachable!(),
            ShownEntry::Asks(_request, _) => unreachable!(),
            ShownEntry::Answers(_answer) => unreachable!(),
            ShownEntry::Notes(_) => unreachable!(),
        }
    }

    /// The request was asked; it is given back. `quiet`: its reply is left out of what the connection is given.
    pub fn asked(&mut self, request: Request, quiet: bool) -> Request
        ensures same { result ≡ request }
        ensures shown { self.new ≡ self.old ++ site.Asks request quiet ∷ [] }
    {
        let entry = ShownEntry::Asks(request, quiet);
        self.entries = self.entries.and(&entry, &true);
        // It was made just now, so that there is but one case.
        match entry {
            ShownEntry::Asks(request, _) => request,
            ShownEntry::CameIn(_letter) => unreachable!(),
            ShownEntry::WentOut(_letter) => unreachable!(),
            ShownEntry::Answers(_answer) => unreachable!(),
            ShownEntry::Notes(_) => unreachable!(),
        }
    }

    /// The answer was given; it is given back.
    pub fn answered(&mut self, answer: Answer) -> Answer
        ensures same { result ≡ answer }
        ensures shown { self.new ≡ self.old ++ site.Answers answer ∷ [] }
    {
        let entry = ShownEntry::Answers(answer);
        self.entries = self.entries.and(&entry, &true);
        // It was made just now, so that there is but one case.
        match entry {
            ShownEntry::Answers(answer) => answer,
            ShownEntry::CameIn(_letter) => unreachable!(),
            ShownEntry::WentOut(_letter) => unreachable!(),
            ShownEntry::Asks(_request, _) => unreachable!(),
            ShownEntry::Notes(_) => unreachable!(),
        }
    }

    /// The executor was to cut a batch at this moment, in seconds.
    pub fn noted(&mut self, moment: u32)
        ensures { self.new ≡ self.old ++ site.Notes moment ∷ [] }
    {
        self.entries = self.entries.and(&ShownEntry::Notes(moment), &true);
    }
}

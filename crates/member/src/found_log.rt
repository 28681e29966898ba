//! What a process of a member began with.

ghost use Rattle.std.specs.Prelude.{◌≡◌};

use crate::member_record::MemberRecord;
use ghost_log::GhostLog;
use std::marker::Model;

/// What a process of a member began with, if it began with what was kept of another one. Only proofs read it: it takes no
/// memory.
pub struct FoundLog {
    entries: GhostLog<MemberRecord, bool>,
}

impl Drop for FoundLog {
    fn drop(self) {
        let FoundLog { entries: _ } = self;
    }
}

impl Model for FoundLog {
    ghost use Rattle.std.specs.Prelude.{Option};
    ghost use Rattle.std.specs.Coded.{coded_option};
    ghost use Rattle.site_laws.specs.Lives.{MemberKept};
    ghost use Rattle.member.specs.contracts.member_record.MemberRecord as of_record;
    ghost use Rattle.member.specs.Recording.{record_found};

    ghost Value = { Option MemberKept };

    ghost coded = { coded_option of_record.the_row.coded };

    ghost view = { λ f. record_found f.entries.items };
}

impl FoundLog {
    ghost use Rattle.std.specs.Prelude.{◌≡◌, None, Some};

    /// It found nothing.
    pub fn none() -> FoundLog
        ensures { result ≡ None }
    {
        FoundLog {
            entries: GhostLog::new(),
        }
    }

    /// It found this.
    pub fn of(found: &MemberRecord) -> FoundLog
        ensures { result ≡ Some found.now }
    {
        FoundLog {
            entries: GhostLog::new().and(found, &true),
        }
    }
}

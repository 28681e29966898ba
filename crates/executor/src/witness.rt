//! Misuses of what is not committed yet do not compile: this file would not, if they did.
//!
//! A `State` shows its sessions, and so the replies that they keep. So nothing lends the state of a
//! `Base`, a `Work`, a `Tentative` or a `SavedMember`; a `Tentative` lends its states as bases.
//!
//! Each of these breaks it: `Drop` on `Tentative`; `Debug` on `Base`, `Work`, `Tentative` or
//! `SavedMember`; on one of these four a function of its own with the name `reply`, `replies`, `state`,
//! `sessions` or `after`, whatever it takes and gives.

use crate::base_state::Base;
use crate::saved_member::SavedMember;
use crate::tentative::Tentative;
use crate::work::Work;
use std::fmt::Debug;

/// A tentative state has to be committed or undone: if it could be dropped, these two would overlap.
trait HasToBeSpent {}

impl HasToBeSpent for Tentative {}

impl<T: Drop> HasToBeSpent for T {}

/// What is printed shows no reply: if one of the four could be printed, it would overlap with the last.
trait IsNotPrinted {}

impl IsNotPrinted for Base {}

impl IsNotPrinted for Work {}

impl IsNotPrinted for Tentative {}

impl IsNotPrinted for SavedMember {}

impl<T: Debug> IsNotPrinted for T {}

#[derive(Drop)]
struct NotShown;

/// Nothing shows a reply, nor what would lend one: a function of the type's own would be taken in the
/// place of one of these.
trait HidesReplies {
    fn reply(&self) -> NotShown {
        NotShown
    }

    fn replies(&self) -> NotShown {
        NotShown
    }

    fn state(&self) -> NotShown {
        NotShown
    }

    fn sessions(&self) -> NotShown {
        NotShown
    }

    fn after(&self) -> NotShown {
        NotShown
    }
}

impl HidesReplies for Base {}

impl HidesReplies for Work {}

impl HidesReplies for Tentative {}

impl HidesReplies for SavedMember {}

fn base_shows_none(base: &Base) {
    let _: NotShown = Base::reply(base);
    let _: NotShown = Base::replies(base);
    let _: NotShown = Base::state(base);
    let _: NotShown = Base::sessions(base);
    let _: NotShown = Base::after(base);
}

fn work_shows_none(work: &Work) {
    let _: NotShown = Work::reply(work);
    let _: NotShown = Work::replies(work);
    let _: NotShown = Work::state(work);
    let _: NotShown = Work::sessions(work);
    let _: NotShown = Work::after(work);
}

fn tentative_shows_none(tentative: &Tentative) {
    let _: NotShown = Tentative::reply(tentative);
    let _: NotShown = Tentative::replies(tentative);
    let _: NotShown = Tentative::state(tentative);
    let _: NotShown = Tentative::sessions(tentative);
    let _: NotShown = Tentative::after(tentative);
}

fn saved_member_shows_none(saved: &SavedMember) {
    let _: NotShown = SavedMember::reply(saved);
    let _: NotShown = SavedMember::replies(saved);
    let _: NotShown = SavedMember::state(saved);
    let _: NotShown = SavedMember::sessions(saved);
    let _: NotShown = SavedMember::after(saved);
}

//! The laws of members.

ghost use Rattle.member.specs.Laws.{MembersAreOneEnsemble, MembersOfLivesAreOneEnsemble};
ghost use Rattle.member.specs.ProcessForm.{FormIsOfOneMember};

use site_laws::{a_life_leads_to_the_next, a_site_is_an_ensemble};
use std::alloc::Global;

/// Whatever the members of a site did, each by itself: in any order of what they show in which each letter went out before
/// it came in, they are parts of one ensemble, in which just that was asked and answered, and in this order. The call does
/// nothing; texts of requests are kept in the memory of `alloc`.
///
/// No code calls it: it is for readers.
pub fn members_are_a_site(alloc: Global)
    ensures { MembersAreOneEnsemble }
{
    a_site_is_an_ensemble(alloc);
    a_life_leads_to_the_next();
}

/// The same of members whose processes end, and begin again with what was kept: of a process that ended counts what it had
/// shown when that was kept which the next one found. So a letter may come in only if it had gone out by then. The call does
/// nothing; texts of requests are kept in the memory of `alloc`.
///
/// No code calls it: it is for readers.
pub fn members_of_lives_are_a_site(alloc: Global)
    ensures { MembersOfLivesAreOneEnsemble }
{
    a_site_is_an_ensemble(alloc);
    a_life_leads_to_the_next();
}

/// The record of a process is in the form of that of one member of a number, if it is in that of any: so `of_process` makes of
/// what `process` made the record that was there. The call does nothing.
///
/// No code calls it: it is for readers.
pub fn a_process_form_is_of_one_member()
    ensures { FormIsOfOneMember }
{}

//! The laws of members whose processes end.

ghost use Rattle.site_laws.specs.Lives.{LifeLeadsToNext, SiteOfLivesIsEnsemble, SiteOfLivesIsShown};

use slots::a_run_is_steps;
use std::alloc::Global;

/// What a process did up to a save, and then its end, led its member to just where another process begins that finds what
/// was saved. So its own replicas crashed, and no other replica of the site did anything. The call does nothing.
pub fn a_life_leads_to_the_next()
    ensures { LifeLeadsToNext }
{}

/// A process of a member may end at any moment, and another one goes on from a save: of the first one counts what it did up
/// to that save. In any order of what counts of all members, if each letter left before it came, they are parts of one
/// ensemble. So no letter may come that left after the save that was found. The call does nothing; texts of requests are
/// kept in the memory of `alloc`.
///
/// No code calls it: it is for readers.
pub fn a_site_of_lives_is_an_ensemble(alloc: Global)
    ensures ensemble { SiteOfLivesIsEnsemble }
    ensures shown { SiteOfLivesIsShown }
{
    let _ = alloc;
    a_run_is_steps();
}

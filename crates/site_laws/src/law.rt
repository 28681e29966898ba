//! The law.

ghost use Rattle.site_laws.specs.Site.{SiteIsEnsemble, SiteIsShown};

use slots::a_run_is_steps;
use std::alloc::Global;

/// Whatever the members of a site did, each by itself: in any order of all that, if each letter left before it came,
/// they are parts of one ensemble. Of what they did, an order of what they show is enough: letters, requests, answers
/// and moments. The call does nothing; texts of requests are kept in the memory of `alloc`.
pub fn a_site_is_an_ensemble(alloc: Global)
    ensures ensemble { SiteIsEnsemble }
    ensures shown { SiteIsShown }
{
    let _ = alloc;
    a_run_is_steps();
}

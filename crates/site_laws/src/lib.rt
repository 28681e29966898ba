//! Several machines that each hold an executor, a verifier and client proxies are one ensemble: laws of a site.
//!
//! It is built on `ensemble`. A member says of itself which *deeds* led its nodes where they are: letters that came and
//! left, requests, answers, cuts, crashes. The layer above uses one contract, that of `a_site_is_an_ensemble`: in any
//! order of the deeds of all members in which each letter left before it came, the members are parts of one ensemble,
//! and what was asked and answered in it is what they asked and answered. So all that is proved of an ensemble holds of
//! a site.
//!
//! `a_site_of_lives_is_an_ensemble` says the same of members whose processes end, and go on from what they saved: of a
//! process that ended counts what it did up to the save that the next one found. No program uses it yet.
#![tactic(auto)]

mod law;
mod lives;

pub use law::a_site_is_an_ensemble;
pub use lives::{a_life_leads_to_the_next, a_site_of_lives_is_an_ensemble};

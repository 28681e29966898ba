//! What has left a service was said by the moment at which another process finds it: laws of a service that saves.
//!
//! It is built on `server`, whose `DurableService::work` says of one call what leaves and what may be found. The laws carry
//! that from call to call: `a_start_is_behind` says how a process begins, `work_is_behind` what a call of `work` keeps, and
//! `hearing_is_behind` what a call keeps that saves nothing and hands out nothing. So at every moment, whatever another
//! process may find is of a moment of this process by which all that has left it was said. No code runs here.
#![tactic(auto)]

mod laws;

pub use laws::{a_start_is_behind, hearing_is_behind, work_is_behind};

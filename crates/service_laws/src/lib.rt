//! What a service has shown so far is what one memcached server shows.
//!
//! It is built on `service`, whose invariant ties what connections were given to what client proxies were answered,
//! on `ensemble`, whose invariant is a world that events lead to, and on `worlds` and `one_server_laws`, whose laws say what
//! such a world decides and keeps, and that it has one run. The programs call `service_is_linearizable`, whose clause
//! holds that of `serves`, and `replicas_agree_and_keep`. Of processes one after the other `service_goes_on` says that
//! their connections have one linearizable history. No program calls it.
#![tactic(auto)]

mod law;
mod orders;
mod processes;
mod replicas;

pub use law::serves;
pub use orders::service_is_linearizable;
pub use processes::{processes_are_linearizable, service_goes_on};
pub use replicas::replicas_agree_and_keep;

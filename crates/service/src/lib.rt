//! Connections over client proxies: which command is asked by which proxy, and which reply goes where.
//!
//!     let config = Config::new(1, 64)?;                               // three executors and verifiers, 64 proxies
//!     let mut service = Service::open(alloc, &config, Dialect::Memcached)?;
//!     service.come(alloc, key, number)?;                              // a connection
//!     let at_once = service.hear(alloc, key, number, bytes)?;         // what it is given before its command is answered
//!     let said = service.work(rt, clock, alloc, seconds);             // what connections are given: the replies
//!     service.tick(alloc);                                            // each 100 ms while `is_waiting`
//!     service.stop(Replica::Executor(0));                             // a node stops, until a tick opens it again
//!     let record = service.record(alloc)?;                            // what is kept, after any of these calls
//!     let mut service = Service::reopen(alloc, record, dialect)?;     // another process goes on from it
//!
//! It is built on `connections` (what each connection asks and is given) and `ensemble` (the replicas, and the
//! proxies that ask them), and on `housekeeping` for the patience of a proxy. The layer above uses `Service`, which the
//! event loop drives: connections come, are heard and leave; `work` asks what waits, and gives what was answered.
#![tactic(auto)]

mod asking;
mod assignment;
mod counting;
mod hearing;
mod incidents;
mod limit;
mod nodes;
mod note;
mod pause;
mod pool;
mod process_laws;
mod reopening;
mod replicas;
mod save_fault;
mod service;
mod service_record;
mod stopping;
mod ticking;
mod working;

pub use assignment::Assignment;
pub use connections::{Dialect, MOST_SLOTS};
pub use ensemble::{Config, Replica};
pub use figures::Figures;
pub use incidents::Incidents;
pub use limit::Limit;
pub use process_laws::{
    a_reopened_service_follows, a_service_follows_others, a_service_is_a_process,
    services_follow_each_other,
};
pub use proto::Fault;
pub use save_fault::SaveFault;
pub use service::Service;
pub use service_record::ServiceRecord;

//! All replicas of a server, the proxies that ask them, and the letters that are under way, as one value.
//!
//!     let mut ensemble = Ensemble::open(alloc, &Config::new(1, 64)?)?;    // three executors and verifiers, 64 proxies
//!     let number = ensemble.ask(alloc, 1, command, quiet)?;               // proxy 1, which is free, asks
//!     let answers = ensemble.work(rt, clock, alloc, seconds);             // until the replicas can do nothing more
//!     ensemble.again(alloc, 1);                                           // no reply came: it asks all executors
//!     ensemble.stop(Replica::Executor(0));                                // a node stops, and keeps its record
//!     ensemble.restart(alloc, Replica::Executor(0));                      // a node that stopped is opened again
//!     let record = ensemble.record(alloc)?;                               // what is kept of it when its process ends
//!     let ensemble = Ensemble::reopen(alloc, record)?;                    // another process goes on from there
//!
//! It is built on `hosts` and `worlds`, which hold the replicas, and on `proxies`, which ask. The layer above uses
//! `Ensemble`: `ask` hands in a command, and `work` has the replicas work until nothing more can be done, and
//! gives the replies. Whatever is called, what is there then is what events lead a world to (`shows`). `refused`
//! counts what was not done for want of memory or because a bound was reached: a call that did not raise it did
//! all that it is for, and after such a `work` the replicas are at rest. There is no socket here, and no clock
//! but for figures, and no thread but those that run the jobs of several executors at once.
#![tactic(auto)]

mod answer;
mod asking;
mod delivering;
mod ensemble;
mod jobs;
mod nodes;
mod noted;
mod opening;
mod posting;
mod process_laws;
mod process_record;
mod progress;
mod recording;
mod refusing;
mod showing;
mod stopping;
mod tending;
mod times;
mod working;

pub use answer::Answer;
pub use ensemble::Ensemble;
pub use events::{Config, Replica};
pub use housekeeping::Seen;
pub use nodes::Nodes;
pub use noted::Noted;
pub use opening::first_proxies;
pub use process_laws::{
    a_process_comes_back, a_reopened_ensemble_follows, an_ensemble_goes_on_after_a_process,
    processes_follow_each_other,
};
pub use process_record::ProcessRecord;
pub use times::Times;

//! A memcached server on replicas: the service behind the event loop.
//!
//! It is built on `service`, which answers, and on `event_loop`, which accepts, reads and writes. The layer above uses
//! `serve` or, for a server that is watched, `serve_beside`. What is handed in and out between the two is said by the
//! clauses of `Answering`. The event loop drives `DurableService`, which hands out what the service says once a record of that
//! moment, or of a later one, is saved (`Save`): one save for all that is said until nothing more is to be done, or, if
//! that is much, on another thread while the service goes on. `NoFolder` saves nothing.
#![tactic(auto)]

mod answering;
mod durable;
mod fault;
mod leading;
mod life;
mod save;
mod watcher;

pub use fault::ServeFault;
pub use life::{Listener, MOST_CONNECTIONS, Options, serve, serve_beside};
pub use save::{NoFolder, Save, SaveFolders};
pub use service::{Incidents, SaveFault, Service, ServiceRecord};
pub use watcher::Watcher;

//! The event loop: one thread that accepts, reads and writes for all connections, beside a service that answers.
//!
//!     impl Serve for Answers { .. }       // what answers the connections: `hear`, `work`, `tick`
//!     let admission = Admission { most: 1024, refusal: b"SERVER_ERROR too many open connections\r\n", idle_seconds: 0, first_number: 0 };
//!     let (answers, served) = serve(rt, alloc, listeners, admission, answers, |watch| {
//!         ..                              // on this thread, while clients are served; `watch.counts` has the counts
//!     });                                 // returns when the closure does, with no thread left
//!
//! All that was read in a pass of the loop goes to the service as one message, and all that it says comes back as one. If
//! little happened and the service is idle, the event loop's own thread answers. A connection is read only when its last
//! bytes are done with and all that was said to it is written, so one that never reads holds up nobody.
//!
//! It is built on `mio` (sockets that do not block), `loop_messages` (what it and the service tell each other), `link`
//! (a queue between their threads), `figures` (what is counted), `slab` and `ghost_log` (what passed, for contracts alone).
//! The layer above implements `Serve` and calls `serve`.
//!
//! `Socket` and `Sockets` are generic in their stream, so their contracts say which bytes move. What is said of a
//! socket is what its reads gave, in order, under its number (`Socket::visit`, `IsSocket`). What is written is a
//! beginning of what was said (`Buffered`). A socket that is gone was said to be, unless the service closed it. What is
//! said joins the socket of its key and number and no other (`Sockets::give_all`). A socket that is here is to be
//! visited, or nothing is to be done for it until an event comes or the service says something (`IsSockets`). What the
//! system does with a socket no contract says, nor what the loops of the two threads do while they wait.
#![tactic(auto)]

mod buffered;
mod counts;
mod event_loop;
mod idle;
mod input;
mod leavers;
mod listeners;
mod loop_thread;
mod message;
mod moments;
mod output;
mod refused;
mod service;
mod service_thread;
mod serving;
mod socket;
mod sockets;
mod stream;
mod visits;

pub use counts::{Counts, Watch};
pub use event_loop::Admission;
pub use service::Serve;
pub use serving::{Refused, read_out, serve};
pub use stream::Listener;

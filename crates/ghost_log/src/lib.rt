//! A log that the proof alone knows: all that passed, in order. A program keeps nothing of it.
//!
//! It is `http_server`'s `Log`, by the name of what we use it for. A contract can speak of the past only if a value has it.
//! So `connections`, `ensemble`, `service`, `event_loop` and `member` have such logs of what came, what was asked, what was
//! answered and what was given. `new` is an empty one, and `and` one with one more entry; neither takes memory or time.
#![tactic(auto)]

pub use http_server::Log as GhostLog;

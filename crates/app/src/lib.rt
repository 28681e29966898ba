//! What the programs do.
//!
//! It is built on `schedules` and `makers`, which say what a schedule is, on `world`, in which its events
//! happen, and on `streams`, by which a text is written. `eve_play` uses `play_text`: what it writes is a line for each node of the world to which just
//! the events lead that the schedule makes, so each law of worlds holds of what is shown.
#![tactic(auto)]

mod fault;
mod input;
mod making;
mod past;
mod play;
mod printing;
mod progress;

pub use play::{REFUSED, SHOWN, STREAM_FAILED, play_text};
pub use progress::{Progress, Untold};

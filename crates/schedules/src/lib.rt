//! Schedules: the text that says which events happen in a world, line by line.
//!
//! It is built on `events`, whose events the lines name, on `proto` (numbers) and on `memchr` (where
//! lines and words end). The layer above uses `Schedule::read`: it gives the one schedule that the
//! bytes of a file spell, or the number of the first line that is not allowed at its place; and
//! `write_printed`, which prints bytes as they are in such a file.
#![tactic(auto)]

mod escape;
mod fault;
mod keyword;
mod laws;
mod line;
mod number;
mod parts;
mod printing;
mod schedule;

pub use fault::ScheduleFault;
pub use laws::{
    a_bad_line_spells_no_schedule, one_line_is_first_bad, one_schedule_is_spelled,
    what_is_printed_is_read,
};
pub use line::ScheduleLine;
pub use number::{MOST_EVENTS, MOST_PLACES};
pub use printing::write_printed;
pub use schedule::{MOST_CLIENTS, Schedule};

//! A round: the steps of one group of requests on the pages, by several callers at once.
//!
//! Each page lies under a lock, and each step draws a ticket inside the lock of its key's page. The
//! tickets give one order of all steps, in which the callers' steps and the pages' histories are as
//! they were made. So what comes out is the result of that order, whatever the schedule.
//!
//! It is built on `pages` and `item_steps`, and on `atomic_table` for the word of the tickets. The layer
//! above opens a round, has its steps made by as many threads as it likes, and uses `Round::close`: an Ok
//! gives pages and answers that some interleaving of the group's steps leads to. No thread is started
//! here: see `workers`.
#![tactic(auto)]

mod close;
mod gate;
mod locked;
mod open;
mod room;
mod round;
mod rule;
mod running;
mod seat;
mod word;

pub use gate::{Gate, NoGate};
pub use open::{MOST_CALLERS, MOST_STEPS, MOST_TASKS, group_fits};
pub use room::Room;
pub use round::Round;
pub use rule::Knowledge;
pub use running::Ran;
pub use seat::Seat;
pub use word::TicketWord;

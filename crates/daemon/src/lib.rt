//! The words of a daemon's command line, and the lines of its log.
//!
//! It is built on `clap` for the words, on `log` for the lines, on `jiff` for their times, on `figures` for what they are
//! about and on `grammar` for the dialects. The program `eve_cached` uses `read_settings`, and `Report`, which says which
//! lines are due: at most one of a kind a second, and the numbers of a kind's lines add up to what has happened. A line
//! that is logged while something goes on, such as saves that fail, is logged at most once a minute.
#![tactic(auto)]

mod laws;
mod lines;
mod minutely;
mod report;
mod save_watch;
mod settings;
mod stamped;
mod system;
mod told;

pub use laws::lines_add_up;
pub use lines::{
    NO_TARGET, tell, tell_begun, tell_behind, tell_current, tell_few_files, tell_listening,
    tell_saved_again, tell_start, tell_status, tell_trouble, tell_unsaved,
};
pub use report::{Due, Report, Totals};
pub use save_watch::{SaveLine, SaveWatch};
pub use settings::{DataSettings, Listen, MOST_CONNECTIONS, Settings, read_settings};
pub use stamped::{Stamped, seconds};
pub use system::{open_files, process_id, resident_pages};
pub use told::Told;

//! The command `play`: a script, played on a queue.
//!
//! [`play`] reads the script of its streams line by line, and answers each line before it looks at the next. Its
//! contract says how that ends.
#![tactic(auto)]

mod check_command;
mod files;
mod on_book;
mod pending;
mod play_command;
mod player;
mod resume_command;
mod save_command;
mod saving_statuses;
mod statuses;

pub use check_command::pqcheck;
pub use on_book::{PlayedBook, play_on};
pub use play_command::{SCRIPT_LIMIT, ScriptEnd, play};
pub use player::LineFault;
pub use resume_command::resume;
pub use save_command::save;
pub use statuses::status_of;

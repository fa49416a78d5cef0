//! What the lines of a script ask for and are answered, and how rows are written.

#![tactic(auto)]

pub mod answers;
pub mod commands;
pub mod lists;
pub mod reading;
pub mod rows;
pub mod tally;
pub mod words;
pub mod workspace;

pub use answers::{Answer, Fault};
pub use commands::{CardCall, Choice, Command, FileCall, Opening, Patch, Tones};
pub use lists::{rows_read, rows_shown};
pub use reading::read_command;
pub use rows::Rows;
pub use tally::{Summary, Tally};
pub use workspace::Workspace;

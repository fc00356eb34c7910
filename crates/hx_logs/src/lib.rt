//! Logs, read line by line: what each entry tells.
#![tactic(auto)]

mod entries;
mod forms;
mod indented;
mod laws;
mod numbers;
mod reading;
mod verbs;
mod words;

pub use laws::{printed_logs_are_read_again, read_logs_are_printed_again};
pub use reading::{EntryWords, read_entry, read_log, sort_of};

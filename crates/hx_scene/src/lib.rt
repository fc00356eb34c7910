//! The parts of a world in which a script is done: the board, controllers, participants, open jobs
//! and fetched messages, and what one of them does at a time.
#![tactic(auto)]

mod bag;
mod jobs;
mod messages;
mod numbered;
mod printing;
mod runs;
mod scene;
mod steps;
mod telling;
mod turns;

use hx_board::RoomFault;
pub use scene::{Parts, Scene};
pub use telling::{Summary, print_counts};

/// What an operation without an answer comes to: it is done, or the history has no room for it, or
/// memory is wanted.
pub type Deed = Result<(), RoomFault>;

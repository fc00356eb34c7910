//! The board: a cluster with the history of what happened in it, and how much that weighs.
#![tactic(auto)]

mod board;
mod dispatches;
mod equality;
mod faults;
pub mod laws;
mod messages;
mod opening;
mod passes;
mod posts;
mod ranges;
mod readers;
mod steps;

pub use board::Board;
pub use faults::{
    BeginFault, BoardFault, DispatchRefusal, HistoryFull, PostRefusal, ReadRefusal, RoomFault,
};

//! The world in which a script is done, line by line.
#![tactic(auto)]

mod asked;
mod lines;
mod passes;
mod reports;
mod rows;
mod settles;
mod summaries;
mod views;
mod work;
mod world;

pub use hx_agree::agree;
pub use settles::Settle;
pub use summaries::summary_of;
pub use world::World;

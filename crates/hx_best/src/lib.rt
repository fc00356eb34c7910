//! Where the replicas of each part are to go: the goals of a pass.
#![tactic(auto)]

mod aims;
mod listed;
mod lookups;
mod marks;
mod moving;
mod numbers;
mod orders;
mod places;
mod still;
mod tables;
mod visits;

pub use aims::{all_targets, targets, targets_on};
pub use lookups::Index;
pub use moving::{moving_targets, moving_targets_of};

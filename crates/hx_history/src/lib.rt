//! All that happened to a cluster, in order. What few words tell of an event is kept in columns.
#![tactic(auto)]

mod briefs;
mod counted;
mod entries;
mod kinds;
mod told;
mod walk;

pub use counted::Counted;
pub use entries::{Entries, History};
pub use told::Told;
pub use walk::Walk;

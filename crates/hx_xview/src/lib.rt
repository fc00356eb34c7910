//! The external view, as the rows that a controller posts: who holds a part, and which instances
//! hold it in a state.
#![tactic(auto)]

mod laws;
mod parts;
mod routes;
mod views;

pub use laws::{routes_are_holders, routes_follow_what_is_shown};
pub use routes::Routing;
pub use views::ExternalView;

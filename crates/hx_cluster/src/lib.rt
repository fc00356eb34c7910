//! The plain state of a cluster, the steps that change it, and what is said of it.
#![tactic(auto)]

mod admin;
mod description;
mod edits;
mod ends;
mod entries;
mod happenings;
mod numbers;
mod opening;
mod planning;
mod posted;
mod ranges;
mod readers;
mod record;
mod refusals;
mod state;
mod steps;

pub use description::{Failure, Resource, Rule, Scope, Spec};
pub use ends::has_end;
pub use entries::Entries;
pub use happenings::{
    AckFault, Admin, Begun, Did, Dispatched, Event, Mail, Outcome, Placed, Proposal, Seen,
    StepFault, TakeFault, WriteRefusal,
};
pub use hx_ids::Live;
pub use numbers::is_same_part;
pub use planning::{
    Candidate, Entry, Finding, Full, Held, Ideals, Plan, Report, Selection, Target, Throttled, View,
};
pub use posted::PostedRows;
pub use readers::{message_on, state_on};
pub use refusals::{MOST_RESOURCES, is_flag_of};
pub use state::{Cluster, Message, Row};
pub use steps::add_flag;

//! Participants: what a session's replicas are, the messages that move them, and the handlers that
//! run.
#![tactic(auto)]

use hx_ids::{MsgId, SessionId, StateId};

mod indexed;
mod jobs;
mod participants;
mod queue;
mod slots;

pub use jobs::{Done, Job, Ran};
pub use participants::Participant;
pub use slots::Work;

/// Why a message is not accepted.
#[derive(Clone, Copy, Debug, PartialEq, Eq)]
pub enum DeliverFault {
    /// The message is of another session than the participant's.
    OtherSession { mine: Option<SessionId> },
    /// A message of that part is accepted or out.
    Running { id: MsgId },
    /// A message of that part with this or a higher number was accepted before.
    Repeat { last: MsgId },
    /// The replica is at another state than the message's `from`.
    WrongFrom { has: StateId },
}

//! Every text that the program prints.
#![tactic(auto)]

mod lines;
mod log;
mod names;
mod notes;
mod outcomes;
mod roll;

use hx_cluster::StepFault;
use hx_ids::{ControllerId, Epoch, MsgId, SessionId, StateId};
pub use lines::{Rest, Token, print_line, print_long_line, print_word, print_words};
pub use log::{print_event, print_step};
pub use names::{
    instance_name, mode_name, model_name, name_at, name_of_resource, outcome_name, resource_name,
    state_name, word_name,
};
pub use notes::print_note;
pub use outcomes::{
    print_accept, print_failed, print_full, print_history_full, print_moved, print_route,
    print_seen, print_sent, print_settle, print_settled, print_summary, print_waiting,
};
pub use roll::{Roll, instance_in, rolls_follow_clusters, session_in};

/// The next step of a controller's turn.
#[derive(Clone, Copy)]
pub enum Word {
    Begin,
    Live,
    Mail,
    States,
    Ideals,
    Send,
    Post,
}

/// Why a script line, or a part of one, was not done.
#[derive(Clone, Copy)]
pub enum Note {
    Step(StepFault),
    /// No resource has the name.
    NoResource,
    NotLeader { led_by: Option<ControllerId> },
    /// Nobody leads.
    NoLeader,
    /// The turn is at another step, which is named.
    OutOfTurn(Word),
    /// Another epoch stands.
    Fenced { now: Epoch },
    /// The message was never fetched.
    NoMessage,
    OtherSession { mine: Option<SessionId> },
    Running { id: MsgId },
    Repeat { last: MsgId },
    WrongFrom { has: StateId },
    /// No job of the message is at that point.
    NoJob,
    SessionEnded,
}

//! The state of a cluster in plain lists.
use crate::description::{Resource, Rule};
use crate::happenings::Seen;
use hx_ids::{ControllerId, Epoch, Live, MsgId, PartId, PassNo, SessionId, StateId};
use hx_lists::Seq;
use hx_model::Model;

/// The state of a session's replica of a part.
#[derive(Clone, Copy, PartialEq, Eq)]
pub struct Row {
    pub session: SessionId,
    pub part: PartId,
    pub state: StateId,
}

/// A transition that a session is asked to make. It is pending until it is acknowledged.
#[derive(Clone, Copy, Debug, PartialEq, Eq)]
pub struct Message {
    pub id: MsgId,
    pub session: SessionId,
    pub part: PartId,
    /// The epoch in which it was sent.
    pub epoch: Epoch,
    pub from: StateId,
    pub to: StateId,
    /// The initial state of the part's model.
    pub initial: StateId,
    /// The session began the transition.
    pub taken: bool,
    /// The outcome came to the row.
    pub written: bool,
}

/// A cluster. Rows and reset flags stand by session, then part; messages by number; live sessions
/// by last beat.
pub struct Cluster {
    /// For each instance, whether it is drained.
    pub instances: Seq<bool>,
    /// The resources by number, dropped ones too.
    pub resources: Seq<Resource>,
    pub live: Seq<Live>,
    pub rows: Seq<Row>,
    pub mail: Seq<Message>,
    /// The replicas in ERROR that are asked to leave it.
    pub resets: Seq<(SessionId, PartId)>,
    pub leader: Option<ControllerId>,
    pub epoch: Epoch,
    /// For each controller, whether it is down, and the number of its pass.
    pub controllers: Seq<(bool, PassNo)>,
    /// The ticks so far.
    pub clock: u64,
    /// The script's line taken last.
    pub line: Option<u32>,
    /// How many changes there were that a plan may depend on.
    pub change: u64,
    /// The rows of the last post.
    pub posted: Seq<Seen>,
    pub next_session: u64,
    pub next_msg: u64,
    // What the steps need of the description. No step changes it.
    pub timeout: u64,
    pub models: Seq<Model>,
    pub rules: Seq<Rule>,
    /// How many states have names.
    pub states: u32,
    /// How many resource names there are.
    pub resource_names: u32,
}

// A derived drop is written out, field by field, wherever one is dropped; this is a call.
impl Drop for Cluster {
    fn drop(self) {
        let Cluster {
            instances: _,
            resources: _,
            live: _,
            rows: _,
            mail: _,
            resets: _,
            leader: _,
            epoch: _,
            controllers: _,
            clock: _,
            line: _,
            change: _,
            posted: _,
            next_session: _,
            next_msg: _,
            timeout: _,
            models: _,
            rules: _,
            states: _,
            resource_names: _,
        } = self;
    }
}

//! What a controller saw, and what it makes of it.
ghost use Rattle.std.specs.Prelude.{◌≡◌};

use crate::description::Resource;
use crate::entries::Entries;
use crate::happenings::Proposal;
use crate::state::{Message, Row};
use hx_ids::{InstanceId, MsgId, PartId, SessionId, StateId};
use hx_lists::Seq;

/// What is wanted: the resources, the drained instances and the reset flags.
pub struct Ideals {
    pub resources: Seq<Resource>,
    /// For each instance, whether it is drained.
    pub drained: Seq<bool>,
    pub resets: Seq<(SessionId, PartId)>,
}

// A derived drop is written out, field by field, wherever one is dropped; this is a call.
impl Drop for Ideals {
    fn drop(self) {
        let Ideals {
            resources: _,
            drained: _,
            resets: _,
        } = self;
    }
}

impl Ideals {
    /// The resources, the drained instances and the reset flags.
    pub fn into_parts(self) -> (Seq<Resource>, Seq<bool>, Seq<(SessionId, PartId)>)
        ensures { result ≡ (self.resources, self.drained, self.resets) }
    {
        let Ideals {
            resources,
            drained,
            resets,
        } = self;
        (resources, drained, resets)
    }
}

/// What the reads of one pass showed. They may stem from different moments.
pub struct View {
    pub live: Seq<(SessionId, InstanceId)>,
    pub mail: Seq<Message>,
    pub rows: Seq<Row>,
    pub ideals: Ideals,
}

// A derived drop is written out, field by field, wherever one is dropped; this is a call.
impl Drop for View {
    fn drop(self) {
        let View {
            live: _,
            mail: _,
            rows: _,
            ideals: _,
        } = self;
    }
}

/// A replica, or a wanted place without one, and the state where it is to go.
#[derive(Clone, Copy, PartialEq, Eq)]
pub struct Target {
    pub session: SessionId,
    pub instance: InstanceId,
    pub part: PartId,
    /// None where there is no row.
    pub state: Option<StateId>,
    pub goal: StateId,
    /// Its place in the preference list; the list's length where it isn't there; 0 for maps and
    /// dropped resources.
    pub place: u32,
}

/// The next transition of a replica that isn't at its goal.
#[derive(Clone, Copy, PartialEq, Eq)]
pub struct Candidate {
    pub session: SessionId,
    pub instance: InstanceId,
    pub part: PartId,
    pub from: StateId,
    pub to: StateId,
    pub place: u32,
}

/// A candidate for a state that has as many replicas as it may have.
#[derive(Drop)]
pub struct Full {
    pub candidate: Candidate,
    pub count: u32,
    pub bound: u32,
    /// The sessions that have the state among their ends, or were accepted for it before.
    pub holders: Seq<SessionId>,
}

/// A candidate that a throttle holds back: the first such rule, its load and its limit.
#[derive(Clone, Copy)]
pub struct Held {
    pub candidate: Candidate,
    pub rule: u32,
    pub load: u32,
    pub limit: u32,
}

/// The candidates that the bounds allow, and those that they don't.
#[derive(Drop)]
pub struct Selection {
    pub accepted: Seq<Candidate>,
    pub full: Seq<Full>,
}

/// The candidates that the throttles allow too, and those that they don't.
#[derive(Drop)]
pub struct Throttled {
    pub sent: Seq<Candidate>,
    pub held: Seq<Held>,
}

/// Why a replica is where it is.
#[derive(Drop)]
pub enum Finding {
    /// It is in ERROR, and nobody asked for a reset.
    Failed,
    /// A message of it was shown.
    Pending(MsgId),
    AtBest,
    Sent,
    Held(Held),
    Full(Full),
}

/// What a pass found of one target.
#[derive(Drop)]
pub struct Entry {
    pub target: Target,
    pub finding: Finding,
}

/// One entry for each target, in their order.
#[derive(Drop)]
pub struct Report {
    pub entries: Entries,
}

/// What a pass proposes, and its report.
#[derive(Drop)]
pub struct Plan {
    pub proposals: Seq<Proposal>,
    pub report: Report,
}

//! The calls that change or read a cluster, with their answers.
use crate::posted::PostedRows;
use crate::state::Message;
use hx_ideal::{Ideal, IdealFault};
use hx_ids::{
    ControllerId, Epoch, InstanceId, ModelId, MsgId, PartId, PassNo, ResourceId, SessionId, StateId,
};
use hx_lists::Seq;

/// A step that an operator, a session or a controller asks for.
#[derive(Clone)]
pub enum Admin {
    Join {
        instance: InstanceId,
    },
    End {
        instance: InstanceId,
    },
    Beat {
        instance: InstanceId,
    },
    Tick {
        n: u64,
    },
    Drain {
        instance: InstanceId,
    },
    Undrain {
        instance: InstanceId,
    },
    Add {
        name: u32,
        model: ModelId,
        ideal: Ideal,
    },
    Drop {
        resource: ResourceId,
    },
    SetList {
        part: PartId,
        list: Seq<InstanceId>,
    },
    SetMap {
        part: PartId,
        map: Seq<(InstanceId, StateId)>,
    },
    Reset {
        instance: InstanceId,
        part: PartId,
    },
    Lead {
        controller: ControllerId,
    },
    Stop {
        controller: ControllerId,
    },
    Start {
        controller: ControllerId,
    },
}

// A derived drop is written out, field by field, wherever one is dropped; this is a call.
impl Drop for Admin {
    #[inline(always)]
    fn drop(self) {
        match self {
            Admin::Join { instance: _ }
            | Admin::End { instance: _ }
            | Admin::Beat { instance: _ }
            | Admin::Tick { n: _ }
            | Admin::Drain { instance: _ }
            | Admin::Undrain { instance: _ }
            | Admin::Add {
                name: _,
                model: _,
                ideal: _,
            }
            | Admin::Drop { resource: _ }
            | Admin::SetList { part: _, list: _ }
            | Admin::SetMap { part: _, map: _ }
            | Admin::Reset {
                instance: _,
                part: _,
            }
            | Admin::Lead { controller: _ }
            | Admin::Stop { controller: _ }
            | Admin::Start { controller: _ } => {}
        }
    }
}

/// What a step answers.
#[derive(Clone, Debug, PartialEq)]
pub enum Did {
    Joined(SessionId),
    /// The sessions that a tick ended, in order of last beat.
    Ended(Seq<SessionId>),
    Added(ResourceId),
    Leads(Epoch),
    Done,
}

// A derived drop is written out, field by field, wherever one is dropped; this is a call.
impl Drop for Did {
    #[inline(always)]
    fn drop(self) {
        match self {
            Did::Joined(_) | Did::Ended(_) | Did::Added(_) | Did::Leads(_) | Did::Done => {}
        }
    }
}

/// Why a step is refused.
#[derive(Clone, Copy, Debug, PartialEq, Eq)]
pub enum StepFault {
    AlreadyLive {
        session: SessionId,
    },
    NotLive,
    ClockEnd,
    AlreadySo,
    NameInUse {
        resource: ResourceId,
    },
    TooMany,
    AlreadyDropped,
    ResourceDropped,
    WrongMode,
    NoPart {
        parts: u32,
    },
    Ideal(IdealFault),
    NotError {
        state: Option<StateId>,
    },
    AlreadyAsked,
    LedBy {
        controller: ControllerId,
        epoch: Epoch,
    },
    ControllerDown,
    OutOfMemory,
}

/// A transition that a controller wants a session to make.
#[derive(Clone, Copy, Debug, PartialEq, Eq)]
pub struct Proposal {
    pub session: SessionId,
    pub part: PartId,
    pub from: StateId,
    pub to: StateId,
}

/// What became of a proposal.
#[derive(Clone, Copy, Debug, PartialEq, Eq)]
pub enum Placed {
    Ended,
    ResourceDropped,
    Busy { id: MsgId },
    WrongFrom { has: Option<StateId> },
    Illegal,
    OverBound { count: u32, bound: u32 },
    OverThrottle { rule: u32, load: u32, limit: u32 },
    Sent(MsgId),
}

/// What `begin` answers.
#[derive(Clone, Copy, Debug, PartialEq, Eq)]
pub struct Begun {
    pub epoch: Epoch,
    pub pass: PassNo,
    pub change: u64,
}

/// What a dispatch answers. The change number is the one before any proposal was placed.
#[derive(Debug, PartialEq, Drop)]
pub struct Dispatched {
    pub change: u64,
    pub placed: Seq<Placed>,
}

/// What a fetch shows: the instance's session and its pending messages by number.
#[derive(Debug, PartialEq, Drop)]
pub struct Mail {
    pub session: Option<SessionId>,
    pub messages: Seq<Message>,
}

/// How a handler's run ended.
#[derive(Clone, Copy, Debug, PartialEq, Eq)]
pub enum Outcome {
    Ok,
    Failed,
}

/// Why a message isn't taken.
#[derive(Clone, Copy, Debug, PartialEq, Eq)]
pub enum TakeFault {
    /// The session isn't live.
    SessionEnded,
    NoMessage,
    AlreadyTaken,
}

/// Why an outcome isn't written.
#[derive(Clone, Copy, Debug, PartialEq, Eq)]
pub enum WriteRefusal {
    /// The session isn't live.
    SessionEnded,
    NoMessage,
    NotTaken,
    AlreadyWritten,
}

/// Why a message isn't acknowledged.
#[derive(Clone, Copy, Debug, PartialEq, Eq)]
pub enum AckFault {
    /// The session isn't live.
    SessionEnded,
    NoMessage,
    NotWritten,
}

/// A row of the external view.
#[derive(Clone, Copy, Debug, PartialEq, Eq)]
pub struct Seen {
    pub instance: InstanceId,
    pub part: PartId,
    pub state: StateId,
}

/// A call that was answered Ok. What a read or a fetch showed follows from the events before it.
pub enum Event {
    Admin(Admin, Did),
    Line(u32),
    Begin(ControllerId, Begun),
    Live(ControllerId, PassNo),
    Mail(ControllerId, PassNo, SessionId),
    States(ControllerId, PassNo, SessionId),
    Ideals(ControllerId, PassNo),
    Dispatch {
        c: ControllerId,
        epoch: Epoch,
        pass: PassNo,
        proposals: Seq<Proposal>,
        answer: Dispatched,
    },
    Post {
        c: ControllerId,
        epoch: Epoch,
        rows: PostedRows,
    },
    Fetch {
        instance: InstanceId,
        session: Option<SessionId>,
        count: u32,
    },
    Take(SessionId, MsgId),
    Write(SessionId, MsgId, Outcome),
    Ack(SessionId, MsgId),
}

// A derived drop is written out, field by field, wherever one is dropped; this is a call.
impl Drop for Event {
    #[inline(always)]
    fn drop(self) {
        match self {
            Event::Admin(_, _)
            | Event::Line(_)
            | Event::Begin(_, _)
            | Event::Live(_, _)
            | Event::Mail(_, _, _)
            | Event::States(_, _, _)
            | Event::Ideals(_, _)
            | Event::Dispatch {
                c: _,
                epoch: _,
                pass: _,
                proposals: _,
                answer: _,
            }
            | Event::Post {
                c: _,
                epoch: _,
                rows: _,
            }
            | Event::Fetch {
                instance: _,
                session: _,
                count: _,
            }
            | Event::Take(_, _)
            | Event::Write(_, _, _)
            | Event::Ack(_, _) => {}
        }
    }
}

//! What the lines of a log tell.
use hx_cluster::{Outcome, Placed};
use hx_ids::{
    ControllerId, Epoch, InstanceId, ModelId, MsgId, PassNo, ResourceId, SessionId, StateId,
};
use hx_lists::Seq;

/// A part as a log writes it: the resource's name and number, and the partition. The name is its
/// place among the resource names, and None where it isn't among them.
#[derive(Clone, Copy)]
pub struct LogPart {
    pub name: Option<u32>,
    pub resource: ResourceId,
    pub index: u32,
}

/// A proposal and what became of it.
#[derive(Clone, Copy)]
pub struct LogMove {
    pub session: SessionId,
    pub part: LogPart,
    pub from: StateId,
    pub to: StateId,
    pub answer: Placed,
}

/// What an entry of a log tells. Change numbers and a post's rows are not in the text.
#[derive(Drop)]
pub enum LogEntry {
    Line(u32),
    Join(InstanceId, SessionId),
    End(InstanceId, SessionId),
    Beat(InstanceId, SessionId),
    Tick {
        n: u64,
        ended: Seq<(InstanceId, SessionId)>,
    },
    Drain(InstanceId),
    Undrain(InstanceId),
    /// A mode is 0, 1 or 2 for FULL_AUTO, SEMI_AUTO and CUSTOMIZED.
    Add {
        name: u32,
        resource: ResourceId,
        model: ModelId,
        replicas: u32,
        parts: u32,
        mode: u8,
    },
    Drop {
        name: Option<u32>,
        resource: ResourceId,
    },
    List {
        part: LogPart,
        list: Seq<InstanceId>,
    },
    Map {
        part: LogPart,
        map: Seq<(InstanceId, StateId)>,
    },
    Reset {
        instance: InstanceId,
        session: SessionId,
        part: LogPart,
    },
    Lead(ControllerId, Epoch),
    Stop(ControllerId),
    Start(ControllerId),
    Begin {
        c: ControllerId,
        epoch: Epoch,
        pass: PassNo,
    },
    Live(ControllerId, PassNo),
    Mail(ControllerId, PassNo, SessionId),
    States(ControllerId, PassNo, SessionId),
    Ideals(ControllerId, PassNo),
    Dispatch {
        c: ControllerId,
        epoch: Epoch,
        pass: PassNo,
        moves: Seq<LogMove>,
    },
    Post {
        c: ControllerId,
        epoch: Epoch,
        rows: u32,
    },
    Fetch {
        instance: InstanceId,
        session: Option<SessionId>,
        count: u32,
    },
    Take(SessionId, MsgId),
    Write(SessionId, MsgId, Outcome),
    Ack(SessionId, MsgId),
}

/// A line of a log, with the indented lines that belong to it: what it tells, and None where it is
/// no line of a log.
pub struct LogLine {
    pub line: u32,
    pub entry: Option<LogEntry>,
}

// A derived drop is written out, field by field, wherever one is dropped; this is a call.
impl Drop for LogLine {
    fn drop(self) {
        let LogLine { line: _, entry: _ } = self;
    }
}

/// The first word of a line of a log.
#[derive(Clone, Copy)]
pub enum LogVerb {
    Line,
    Join,
    End,
    Beat,
    Tick,
    Drain,
    Undrain,
    Add,
    Drop,
    List,
    Map,
    Reset,
    Lead,
    Stop,
    Start,
    Begin,
    Live,
    Mail,
    States,
    Ideals,
    Send,
    Post,
    Fetch,
    Take,
    Write,
    Ack,
}

/// What a line of a log is: passed over, of the entry before it, or an entry's own.
#[derive(Clone, Copy)]
pub enum Sort {
    PassedOver,
    Indented,
    Head,
}

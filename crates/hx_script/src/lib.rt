//! Scripts: what their lines ask for.
#![tactic(auto)]

mod apart;
mod faults;
mod forms;
mod history;
mod log;
mod modes;
mod parsing;
mod printing;
mod verbs;
mod words;

pub use apart::Apart;
pub use faults::{ScriptFault, ScriptKind, ScriptRefusal};
pub use forms::{
    controller_alone, five_words, instance_alone, instance_words, pair_words, three_words,
    two_words,
};
pub use history::{Printer, logs_grow_by_entries, print_history};
use hx_ids::{ControllerId, InstanceId, ModelId, MsgId, StateId};
pub use hx_print::{Note, Word};
pub use log::{LogEntry, LogLine, LogMove, LogPart, LogVerb, Sort};
pub use modes::{mode_number, mode_numbered};
pub use parsing::parse;
pub use printing::{print_line, printed_lines_are_read_again};
pub use verbs::{Verb, same_word};
pub use words::{
    controller_word, instance_word, mode_word, model_word, number_word, numbered_by, place_after,
    small_number_word, state_word,
};

/// Which of a turn's reads.
#[derive(Clone, Copy)]
pub enum ReadKind {
    Live,
    Mail,
    States,
    Ideals,
}

/// What a script line asks for. A resource is given by the place of its name among the resource
/// names, a mode as 0, 1 or 2 for FULL_AUTO, SEMI_AUTO and CUSTOMIZED.
#[derive(Drop)]
pub enum What {
    Join(InstanceId),
    Beat(InstanceId),
    Drain(InstanceId),
    Undrain(InstanceId),
    Tick(u64),
    Expire(InstanceId),
    Die(InstanceId),
    Add {
        name: u32,
        model: ModelId,
        replicas: u32,
        parts: u32,
        mode: u8,
    },
    Drop(u32),
    List {
        name: u32,
        part: u32,
        list: Apart<InstanceId>,
    },
    Map {
        name: u32,
        part: u32,
        map: Apart<(InstanceId, StateId)>,
    },
    Reset {
        instance: InstanceId,
        name: u32,
        part: u32,
    },
    Lead(ControllerId),
    Stop(ControllerId),
    Start(ControllerId),
    Begin(ControllerId),
    Read(ControllerId, ReadKind),
    Send(ControllerId),
    Post(ControllerId),
    Pass(ControllerId),
    Fetch(InstanceId),
    Deliver(InstanceId, MsgId),
    Take(InstanceId, MsgId),
    Write(InstanceId, MsgId),
    Ack(InstanceId, MsgId),
    Work(InstanceId),
    Settle,
    View,
    Route {
        name: u32,
        part: u32,
        state: StateId,
    },
    Summary,
}

/// A script line. Comments and empty lines count in the numbers, which begin at 1.
#[derive(Drop)]
pub struct Line {
    pub number: u32,
    pub what: What,
}

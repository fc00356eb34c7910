//! What stands on a board. No reader takes memory, but those that answer a list of their own or add
//! to one.
ghost use Rattle.std.specs.Prelude.{◌≡◌, ◌++◌, option_copied, IfOk, OnOk, OnErr};
ghost use Rattle.hx_cluster.specs.Ends.{state_of, message_of, resource_at, shown_of};
ghost use Rattle.hx_cluster.specs.Reads.{live_shown, states_shown};
ghost use Rattle.hx_cluster.specs.Steps.{opening, session_of, is_drained, newest, refusal_of};
ghost use Rattle.hx_cluster.specs.Safe.{SafeAlong};
ghost use Rattle.hx_cluster.specs.Runs.{IsOneRunEach};
ghost use Rattle.hx_board.specs.Board.{weight_at, HasHistory};

use crate::board::Board;
use hx_cluster::{Admin, Message, Resource, Row, Seen, StepFault};
use hx_history::History;
use hx_ids::{ControllerId, InstanceId, PartId, ResourceId, SessionId, StateId};
use hx_lists::Seq;
use std::alloc::AllocError;

impl Board {
    /// The live session of an instance.
    pub fn session_of(&self, instance: InstanceId) -> Option<SessionId>
        ensures { result ≡ session_of self.now.cluster instance }
    {
        self.records.session_of(instance)
    }

    /// The live sessions in order of last beat, with their instances.
    pub fn roster(&self) -> Result<Vec<(SessionId, InstanceId)>, AllocError>
        ensures { IfOk result (λ shown. shown.items ≡ shown_of self.now.cluster.live) }
    {
        self.records.roster(*self.lines.allocator())
    }

    /// The live sessions with their instances, by instance.
    pub fn shown(&self) -> Result<Vec<(SessionId, InstanceId)>, AllocError>
        ensures { IfOk result (λ shown. shown.items ≡ live_shown self.now.cluster) }
    {
        self.records.read_live()
    }

    /// Whether an instance is drained.
    pub fn drained(&self, instance: InstanceId) -> bool
        ensures { result ≡ is_drained self.now.cluster.instances instance }
    {
        self.records.drained(instance)
    }

    /// The state of a session's replica, if it has one.
    pub fn row(&self, session: SessionId, part: PartId) -> Option<StateId>
        ensures { result ≡ state_of self.now.cluster.rows session part }
    {
        self.records.row(session, part)
    }

    /// Adds a session's rows, by part, to some.
    pub fn push_rows_of(&self, session: SessionId, rows: &mut Seq<Row>) -> Result<(), AllocError>
        ensures ok { OnOk result (rows.new ≡ rows.old ++ states_shown self.now.cluster session) }
        ensures err { OnErr result (rows.new ≡ rows.old) }
    {
        self.records.read_states_into(session, rows)
    }

    /// The pending message of a session's part.
    pub fn message(&self, session: SessionId, part: PartId) -> Option<&Message>
        ensures { option_copied result ≡ message_of self.now.cluster.mail session part }
    {
        self.records.message(session, part)
    }

    /// A resource, dropped or not.
    pub fn resource(&self, resource: ResourceId) -> Option<&Resource>
        ensures { option_copied result ≡ resource_at self.now.cluster.resources resource }
    {
        self.records.resource(resource)
    }

    /// The resources by number, dropped or not.
    pub fn resources(&self) -> &[Resource]
        ensures { result.now ≡ self.now.cluster.resources }
    {
        self.records.resources()
    }

    /// The newest resource of a name, by the name's place among the resource names.
    pub fn newest(&self, name: u32) -> Option<ResourceId>
        ensures { result ≡ newest self.now.cluster name }
    {
        self.records.newest(name)
    }

    /// Who leads.
    pub fn leader(&self) -> Option<ControllerId>
        ensures { result ≡ self.now.cluster.leader }
    {
        self.records.leader()
    }

    /// The rows of the last post.
    pub fn posted(&self) -> &[Seen]
        ensures { result.now ≡ self.now.cluster.posted }
    {
        self.records.posted()
    }

    /// Why a step is refused, but for want of memory or of room.
    pub fn refuses(&self, step: &Admin) -> Option<StepFault>
        ensures { result ≡ refusal_of self.now.cluster step.now }
    {
        self.records.refuses(step)
    }

    /// What has happened, with the facts of every board: it is legal, the cluster is what it makes
    /// of the opening, the lines that it took are the first ones, and with the charges it weighs no
    /// more than the limit. Each cluster along it is safe, and each message in it runs once.
    pub fn history(&self) -> &History
        ensures value { result.now.entries.items ≡ self.now.history }
        ensures history { HasHistory self.now }
        ensures safe { SafeAlong (opening self.now.spec) self.now.history }
        ensures runs { IsOneRunEach (opening self.now.spec) self.now.history }
    {
        &self.history
    }

    /// What the history weighs, with the charges.
    pub fn weight(&self) -> u64
        ensures { result ≡ weight_at self.now }
    {
        self.weight
    }

    /// The sum of the charges.
    pub fn charged(&self) -> u64
        ensures { result ≡ self.now.charges }
    {
        self.charges
    }
}

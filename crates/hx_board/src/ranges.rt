//! The conditions of calls, as tests: who calls behind a lock knows nothing else of a board. None
//! takes memory.
ghost use Rattle.std.specs.Prelude.{◌≡◌};
ghost use Rattle.std.specs.List.{list_all};
ghost use Rattle.hx_cluster.specs.Steps.{has_instance, has_controller, is_in_range};
ghost use Rattle.hx_cluster.specs.Events.{is_proposable, is_postable};

use crate::board::Board;
use hx_cluster::{Admin, Proposal, Seen};
use hx_ids::{ControllerId, InstanceId};

impl Board {
    /// Whether there is an instance.
    pub fn has_instance(&self, instance: InstanceId) -> bool
        ensures { result ≡ has_instance self.now.cluster instance }
    {
        self.records.has_instance(instance)
    }

    /// Whether there is a controller.
    pub fn has_controller(&self, controller: ControllerId) -> bool
        ensures { result ≡ has_controller self.now.cluster controller }
    {
        self.records.has_controller(controller)
    }

    /// Whether the ids of a step are in range, and an added resource has only empty lists or maps.
    pub fn is_in_range(&self, step: &Admin) -> bool
        ensures { result ≡ is_in_range self.now.cluster step.now }
    {
        self.records.is_in_range(step)
    }

    /// Whether the part of each proposal exists and its states have names.
    pub fn are_proposable(&self, proposals: &[Proposal]) -> bool
        ensures { result ≡ list_all (is_proposable self.now.cluster) proposals.now }
    {
        let records = &self.records;
        proposals.iter().all(|q| records.is_proposable(q))
    }

    /// Whether the instance and the part of each row exist and its state has a name.
    pub fn are_postable(&self, rows: &[Seen]) -> bool
        ensures { result ≡ list_all (is_postable self.now.cluster) rows.now }
    {
        let records = &self.records;
        rows.iter().all(|r| records.is_postable(r))
    }
}

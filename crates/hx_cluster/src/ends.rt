//! The ends of replicas, which transitions a throttle counts, and what the model of a part says.
//! Nothing here takes memory.
ghost use Rattle.std.specs.Prelude.{◌≡◌, ◌==◌, ◌||◌, option_copied, unwrap_or};
ghost use Rattle.hx_model.specs.Model.{is_legal};
ghost use Rattle.hx_cluster.specs.Ends.{message_at, row_at, row_of, message_of};
ghost use Rattle.hx_cluster.specs.Ends.{has_end as has_end_of, matches, model_of, no_model};
ghost use Rattle.hx_cluster.specs.Ends.{replicas_of, parts_of};
ghost use Rattle.hx_cluster.specs.Lookups.{model_in};
ghost use Rattle.hx_cluster.specs.Messages.{initial_of};

use crate::description::Rule;
use crate::readers::{message_on, state_on};
use crate::state::{Cluster, Message, Row};
use hx_ids::{PartId, ResourceId, SessionId, StateId};
use hx_model::{DROPPED, ERROR, Model};

impl Message {
    /// Whether it leads from or to a state.
    pub fn has_end(&self, state: StateId) -> bool
        ensures { result ≡ ((self.now.from.0 == state.0) || (self.now.to.0 == state.0)) }
    {
        self.from == state || self.to == state
    }
}

/// Whether a state is an end of a session's replica.
pub fn has_end(
    rows: &[Row],
    mail: &[Message],
    part: PartId,
    state: StateId,
    session: SessionId,
) -> bool
    ensures { result ≡ has_end_of rows.now mail.now part state session }
{
    state_on(rows, session, part) == Some(state) || has_message_end(mail, part, state, session)
}

fn has_message_end(mail: &[Message], part: PartId, state: StateId, session: SessionId) -> bool
    ensures { result ≡ message_at state (message_of mail.now session part) }
{
    match message_on(mail, session, part) {
        Some(message) => message.has_end(state),
        None => false,
    }
}

impl Rule {
    /// Whether it counts a transition.
    pub fn matches(&self, from: StateId, to: StateId) -> bool
        ensures { result ≡ matches self.now from to }
    {
        match self.transition {
            Some(transition) => transition.0 == from && transition.1 == to,
            None => true,
        }
    }
}

impl Cluster {
    /// A resource's model.
    #[tactic(auto, using(crate::proofs::Shown::model_in_or))]
    pub fn model_of(&self, resource: ResourceId) -> Option<&Model>
        ensures found { option_copied result
            ≡ model_in self.now.models self.now.resources resource }
        ensures parts { unwrap_or (option_copied result) no_model
            ≡ model_of self.now.models self.now.resources resource }
    {
        match self.resource(resource) {
            Some(resource) => self.models.as_slice().get(resource.model.0 as usize),
            None => None,
        }
    }

    /// How many replicas each part of a resource has.
    pub fn replicas_of(&self, resource: ResourceId) -> u32
        ensures { result ≡ replicas_of self.now.resources resource }
    {
        match self.resource(resource) {
            Some(resource) => resource.ideal.replicas(),
            None => 0,
        }
    }

    /// How many parts a resource has.
    pub fn parts_of(&self, resource: ResourceId) -> u32
        ensures { result ≡ parts_of self.now.resources resource }
    {
        match self.resource(resource) {
            Some(resource) => resource.ideal.parts(),
            None => 0,
        }
    }

    /// The initial state of a part's model.
    pub fn initial_of(&self, part: PartId) -> StateId
        ensures { result ≡ initial_of self.now part }
    {
        match self.model_of(part.resource) {
            Some(model) => model.initial(),
            None => DROPPED,
        }
    }

    /// Whether a part's model has a transition, or it leads from ERROR to the initial state.
    pub fn is_legal(&self, part: PartId, from: StateId, to: StateId) -> bool
        ensures { result
            ≡ is_legal (model_of self.now.models self.now.resources part.resource) from to }
    {
        match self.model_of(part.resource) {
            Some(model) => model.legal(from, to),
            None => from == ERROR && to == DROPPED,
        }
    }
}

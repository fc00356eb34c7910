//! What a description says of a cluster.
ghost use Rattle.std.specs.Prelude.{◌≡◌};
ghost use Rattle.hx_cluster.specs.Steps.{new_resource};

use hx_ideal::Ideal;
use hx_ids::{InstanceId, ModelId, Names, PartId, StateId};
use hx_lists::Seq;
use hx_model::Model;
use std::alloc::AllocError;

/// A resource. Its number is its place among the resources, and stays its own when it is dropped.
pub struct Resource {
    /// The place of its name among the resource names.
    pub name: u32,
    pub model: ModelId,
    pub ideal: Ideal,
    pub dropped: bool,
}

// A derived drop is written out, field by field, wherever one is dropped; this is a call.
impl Drop for Resource {
    fn drop(self) {
        let Resource {
            name: _,
            model: _,
            ideal: _,
            dropped: _,
        } = self;
    }
}

impl Resource {
    /// A resource as it is added.
    pub fn new(name: u32, model: ModelId, ideal: Ideal) -> Resource
        ensures { result ≡ new_resource name model ideal }
    {
        Resource {
            name,
            model,
            ideal,
            dropped: false,
        }
    }
}

impl Clone for Resource {
    ghost is_clone = { λ resource copy. copy ≡ resource };

    fn clone(&self) -> Result<Resource, AllocError> {
        Ok(Resource {
            name: self.name,
            model: self.model,
            ideal: self.ideal.clone()?,
            dropped: self.dropped,
        })
    }
}

/// Over what a throttle counts the messages in flight.
#[derive(Clone, Copy, PartialEq, Eq)]
pub enum Scope {
    Cluster,
    Instance,
    Resource,
}

/// A throttle: at most `limit` messages in flight under each key of its scope.
#[derive(Clone, Copy, PartialEq, Eq)]
pub struct Rule {
    pub scope: Scope,
    /// The one transition that it counts, in every model; or all of them.
    pub transition: Option<(StateId, StateId)>,
    pub limit: u32,
}

/// A failure to come. With `make` it is that making of a handler of the part on the instance, else
/// that run of each such handler; both are counted from 1.
#[derive(Clone, Copy, PartialEq, Eq)]
pub struct Failure {
    pub instance: InstanceId,
    pub part: PartId,
    pub make: bool,
    pub number: u32,
}

/// A cluster's description. The three built-in models stand first.
pub struct Spec {
    pub instances: Names,
    pub states: Names,
    pub resource_names: Names,
    pub model_names: Names,
    pub models: Seq<Model>,
    pub controllers: u8,
    /// After how many ticks without a beat a session ends.
    pub timeout: u64,
    pub rules: Seq<Rule>,
    pub resources: Seq<Resource>,
    pub failures: Seq<Failure>,
}

// A derived drop is written out, field by field, wherever one is dropped; this is a call.
impl Drop for Spec {
    fn drop(self) {
        let Spec {
            instances: _,
            states: _,
            resource_names: _,
            model_names: _,
            models: _,
            controllers: _,
            timeout: _,
            rules: _,
            resources: _,
            failures: _,
        } = self;
    }
}

//! The cluster at its opening.
ghost use Rattle.std.specs.Prelude.{◌≡◌, IfOk};
ghost use Rattle.hx_cluster.specs.Steps.{opening};

use crate::description::Spec;
use crate::state::Cluster;
use hx_ids::{Epoch, PassNo};
use hx_lists::Seq;
use std::alloc::{AllocError, Global};

impl Cluster {
    /// The opening: nobody is live, nobody leads, and nothing is posted.
    pub fn at_opening(alloc: Global, spec: &Spec) -> Result<Cluster, AllocError>
        ensures { IfOk result (λ cluster. cluster ≡ opening spec.now) }
    {
        let drained = Vec::from_elem(alloc, false, spec.instances.len() as usize)?;
        let controllers = Vec::from_elem(alloc, (false, PassNo(0)), spec.controllers as usize)?;
        let resources = spec.resources.clone()?;
        let models = spec.models.clone()?;
        let rules = spec.rules.clone()?;
        Ok(Cluster {
            instances: Seq::from_vec(drained),
            resources,
            live: Seq::new(alloc),
            rows: Seq::new(alloc),
            mail: Seq::new(alloc),
            resets: Seq::new(alloc),
            leader: None,
            epoch: Epoch(1),
            controllers: Seq::from_vec(controllers),
            clock: 0,
            line: None,
            change: 0,
            posted: Seq::new(alloc),
            next_session: 1,
            next_msg: 1,
            timeout: spec.timeout,
            models,
            rules,
            states: spec.states.len(),
            resource_names: spec.resource_names.len(),
        })
    }
}

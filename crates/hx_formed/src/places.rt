//! Where a pass over what is of a session is: at a part of a resource.
ghost use Rattle.std.specs.Prelude.{◌≡◌, ◌||◌, ◌==◌, ◌<◌, true, false, MatchOption};
ghost use Rattle.hx_cluster.specs.Ends.{model_at};
ghost use Rattle.hx_formed.specs.Reads.{first_part, part_after};
ghost use Rattle.hx_formed.specs.Places.{may_be, from_of, other_than, IsAt, is_next};
ghost use Rattle.hx_formed.specs.Places.{has_part, place_behind};

use crate::has_state;
use hx_cluster::Resource;
use hx_ids::{ModelId, PartId, ResourceId, StateId};
use hx_model::{ERROR, Model};

/// A resource, and the part of it from which on the next one may be; how many it has, and their
/// model; and the state of the last one, and another one that was found good.
#[derive(Clone, Copy)]
pub struct Place {
    pub resource: ResourceId,
    pub next: u32,
    pub parts: u32,
    pub model: ModelId,
    pub last: StateId,
    pub other: StateId,
}

impl Place {
    /// Where a resource's parts begin. One that isn't there has none.
    fn of(models: &[Model], resources: &[Resource], resource: ResourceId) -> Place
        ensures from { from_of result ≡ record { resource = resource; index = 0 } }
        ensures at { IsAt models.now resources.now result }
    {
        match resources.get(resource.0 as usize) {
            Some(found) => Place {
                resource,
                next: 0,
                parts: found.ideal.parts(),
                model: found.model,
                last: ERROR,
                other: ERROR,
            },
            None => Place {
                resource,
                next: 0,
                parts: 0,
                model: ModelId(0),
                last: ERROR,
                other: ERROR,
            },
        }
    }

    /// The first place of all.
    pub fn first(models: &[Model], resources: &[Resource]) -> Place
        ensures from { from_of result ≡ first_part }
        ensures at { IsAt models.now resources.now result }
    {
        Place::of(models, resources, ResourceId(0))
    }

    /// Whether replicas may be in a state: it is one of those found good, or is looked up.
    pub fn may_be(self, models: &[Model], state: StateId) -> bool
        ensures { result
            ≡ ((state.0 == self.last.0)
            || (state.0 == self.other.0)
            || may_be (model_at models.now self.model) state) }
    {
        state == self.last
            || state == self.other
            || state == ERROR
            || has_state(models, self.model, state)
    }

    /// The good state that isn't this one.
    fn other_than(self, state: StateId) -> StateId
        ensures { result ≡ other_than self state }
    {
        if state == self.last {
            self.other
        } else {
            self.last
        }
    }

    /// The place behind one of the resource's parts.
    fn behind(self, models: &[Model], index: u32, state: StateId) -> Option<Place>
        ensures { MatchOption result (has_part models.now self index state ≡ false) (λ at.
            (has_part models.now self index state ≡ true)
            × (at ≡ place_behind self index state)) }
    {
        if index < self.next || self.parts <= index || !self.may_be(models, state) {
            return None;
        }
        Some(Place {
            resource: self.resource,
            next: index + 1,
            parts: self.parts,
            model: self.model,
            last: state,
            other: self.other_than(state),
        })
    }

    /// The place behind a part that may be next, with a state of one of its replicas.
    #[tactic(auto, using(crate::proofs::Placed::next_in, crate::proofs::Placed::next_later, crate::proofs::Placed::none_before, crate::proofs::Placed::behind_at))]
    pub fn next(
        self,
        models: &[Model],
        resources: &[Resource],
        part: PartId,
        state: StateId,
    ) -> Option<Place>
        requires { IsAt models.now resources.now self }
        ensures { MatchOption result
            (is_next models.now resources.now (from_of self) part state ≡ false)
            (λ at. (is_next models.now resources.now (from_of self) part state ≡ true)
            × (from_of at ≡ part_after part)
            × (0 < at.parts)
            × IsAt models.now resources.now at) }
    {
        if part.resource == self.resource {
            return self.behind(models, part.index, state);
        }
        if part.resource.0 < self.resource.0 {
            return None;
        }
        Place::of(models, resources, part.resource).behind(models, part.index, state)
    }
}

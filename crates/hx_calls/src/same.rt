//! Values that are compared whole, by what contracts see of them. Nothing here takes memory.
ghost use Rattle.std.specs.Prelude.{◌≡◌, ◌↔◌, IsTrue, length};
ghost use Rattle.std.specs.List.{list_all};
ghost use Rattle.hx_model.specs.Model.{states_of, bound_of};
ghost use Rattle.hx_calls.specs.Bounds.{is_same_bound};

use hx_cluster::{Failure, Resource, Row, Rule, Spec};
use hx_ideal::{Ideal, Mode};
use hx_ids::{InstanceId, Names, PartId, SessionId, StateId};
use hx_lists::Seq;
use hx_model::{Bound, Model};

/// A value that is compared whole, by what contracts see of it.
pub trait Same {
    fn same(&self, other: &Self) -> bool
        ensures { IsTrue result ↔ (self.now ≡ other.now) };
}

/// Whether two lists of one length have the same items in the same order.
fn same_each<T: Same>(items: &[T], others: &[T]) -> bool
    requires { length items.now ≡ length others.now }
    ensures { IsTrue result ↔ (items.now ≡ others.now) }
{
    for (place, item) in items.iter().enumerate() {
        if !item.same(&others[place]) {
            return false;
        }
    }
    true
}

/// Whether two lists have the same items in the same order. Four are compared at a time, without a
/// look at the outcome of each.
pub fn all_same<T: Same>(items: &[T], others: &[T]) -> bool
    ensures { IsTrue result ↔ (items.now ≡ others.now) }
{
    if items.len() != others.len() {
        return false;
    }
    let mut items = items;
    let mut others = others;
    while let ([a, b, c, d, rest @ ..], [e, f, g, h, last @ ..]) = (items, others) {
        let front = a.same(e) & b.same(f);
        let next = c.same(g) & d.same(h);
        if !(front & next) {
            return false;
        }
        items = rest;
        others = last;
    }
    same_each(items, others)
}

impl Same for u32 {
    fn same(&self, other: &u32) -> bool {
        *self == *other
    }
}

impl Same for bool {
    fn same(&self, other: &bool) -> bool {
        *self == *other
    }
}

impl Same for SessionId {
    fn same(&self, other: &SessionId) -> bool {
        *self == *other
    }
}

impl Same for PartId {
    fn same(&self, other: &PartId) -> bool {
        *self == *other
    }
}

impl Same for InstanceId {
    fn same(&self, other: &InstanceId) -> bool {
        *self == *other
    }
}

impl Same for StateId {
    fn same(&self, other: &StateId) -> bool {
        *self == *other
    }
}

impl Same for Row {
    fn same(&self, other: &Row) -> bool {
        *self == *other
    }
}

impl<A: Same, B: Same> Same for (A, B) {
    fn same(&self, other: &(A, B)) -> bool {
        self.0.same(&other.0) && self.1.same(&other.1)
    }
}

impl<T: Same + Drop> Same for Seq<T> {
    fn same(&self, other: &Seq<T>) -> bool {
        all_same(self.as_slice(), other.as_slice())
    }
}

impl Same for Rule {
    fn same(&self, other: &Rule) -> bool {
        *self == *other
    }
}

impl Same for Failure {
    fn same(&self, other: &Failure) -> bool {
        *self == *other
    }
}

impl Same for Names {
    fn same(&self, other: &Names) -> bool {
        let count = self.len();
        if other.len() != count {
            return false;
        }
        for place in 0..count {
            if self.name(place) != other.name(place) {
                return false;
            }
        }
        true
    }
}

fn same_bound(bound: Bound, other: Bound) -> bool
    ensures { result ≡ is_same_bound bound other }
{
    bound == other
}

/// Whether the states of a model have the same bounds in another one.
fn same_bounds(model: &Model, other: &Model) -> bool
    ensures { result
        ≡ list_all (λ s. is_same_bound (bound_of model.now s) (bound_of other.now s))
        (states_of model.now) }
{
    model
        .states()
        .iter()
        .all(|s| same_bound(model.bound(*s), other.bound(*s)))
}

fn same_states(model: &Model, other: &Model) -> bool
    ensures { IsTrue result ↔ (model.now.states ≡ other.now.states) }
{
    if !all_same(model.states(), other.states()) {
        return false;
    }
    same_bounds(model, other)
}

impl Same for Model {
    fn same(&self, other: &Model) -> bool {
        self.initial() == other.initial()
            && same_states(self, other)
            && all_same(self.transitions(), other.transitions())
    }
}

impl Same for Mode {
    fn same(&self, other: &Mode) -> bool {
        match (self, other) {
            (Mode::Full, Mode::Full) => true,
            (Mode::Semi(lists), Mode::Semi(others)) => lists.same(others),
            (Mode::Custom(maps), Mode::Custom(others)) => maps.same(others),
            _ => false,
        }
    }
}

impl Same for Ideal {
    fn same(&self, other: &Ideal) -> bool {
        self.replicas() == other.replicas()
            && self.parts() == other.parts()
            && self.mode().same(other.mode())
    }
}

impl Same for Resource {
    fn same(&self, other: &Resource) -> bool {
        self.name == other.name
            && self.model == other.model
            && self.ideal.same(&other.ideal)
            && self.dropped == other.dropped
    }
}

/// Whether two descriptions have the same names.
fn same_names(spec: &Spec, other: &Spec) -> bool
    ensures { IsTrue result
        ↔ ((spec.now.instances ≡ other.now.instances)
        × (spec.now.states ≡ other.now.states)
        × (spec.now.resource_names ≡ other.now.resource_names)
        × (spec.now.model_names ≡ other.now.model_names)) }
{
    spec.instances.same(&other.instances)
        && spec.states.same(&other.states)
        && spec.resource_names.same(&other.resource_names)
        && spec.model_names.same(&other.model_names)
}

impl Same for Spec {
    fn same(&self, other: &Spec) -> bool {
        self.controllers == other.controllers
            && self.timeout == other.timeout
            && same_names(self, other)
            && self.models.same(&other.models)
            && self.rules.same(&other.rules)
            && self.resources.same(&other.resources)
            && self.failures.same(&other.failures)
    }
}

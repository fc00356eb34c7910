//! Maps from instances to states.
ghost use Rattle.std.specs.Prelude.{◌≡◌, [], ◌∷◌, ◌++◌};
ghost use Rattle.serde_json.specs.View.{view};
ghost use Rattle.hx_forms.specs.Reading.{Reads, at_ok};
ghost use Rattle.hx_desc.specs.ResourceForm as Spec;

use crate::each_part::in_order;
use crate::lists::instance;
use hx_forms::{DescKind, DescRefusal, Form, ItemForm, Object, array, fault, place_after, text};
use hx_ids::{InstanceId, Names, StateId};
use hx_lists::Seq;
use hx_model::Model;
use serde_json::Value;
use std::alloc::Global;

/// Whether a map has an instance.
fn is_placed(entries: &[(InstanceId, StateId)], instance: InstanceId) -> bool
    ensures { result ≡ Spec.is_placed entries.now instance }
{
    entries.iter().any(|e| e.0 == instance)
}

/// An instance that a map doesn't have so far.
#[derive(Clone, Copy)]
struct NextInstance<'a> {
    instances: &'a Names,
    entries: &'a [(InstanceId, StateId)],
}

impl Form for NextInstance<'_> {
    type Output = InstanceId;

    ghost found = { λ form d.
        Spec.next_instance_in form.instances.now (Spec.is_placed form.entries.now) d };

    fn read(self, alloc: Global, value: &Value) -> Result<InstanceId, DescRefusal> {
        let instance = instance(alloc, self.instances, value)?;
        if is_placed(self.entries, instance) {
            return Err(fault(alloc, DescKind::TwiceInList));
        }
        Ok(instance)
    }
}

/// A state of a model by its name, over the names of all states.
fn state_of(names: &Names, model: &Model, name: &str) -> Option<StateId>
    ensures { result ≡ Spec.state_of names.now model.now name.now }
{
    let place = place_after(names, name);
    let mut states = model.states().iter().copied();
    states.find(|state| state.0 as u32 == place)
}

/// A state of a model.
#[derive(Clone, Copy)]
struct StateInModel<'a> {
    names: &'a Names,
    model: &'a Model,
}

impl Form for StateInModel<'_> {
    type Output = StateId;

    ghost found = { λ form d. Spec.state_in form.names.now form.model.now d };

    fn read(self, alloc: Global, value: &Value) -> Result<StateId, DescRefusal> {
        let name = text(alloc, value)?;
        match state_of(self.names, self.model, name) {
            Some(state) => Ok(state),
            None => Err(fault(alloc, DescKind::UnknownState)),
        }
    }
}

/// A map, or an entry of one: over the instances, the names of all states, and the model.
#[derive(Clone, Copy)]
pub(crate) struct MapForm<'a> {
    pub(crate) instances: &'a Names,
    pub(crate) names: &'a Names,
    pub(crate) model: &'a Model,
}

/// One entry of a map that has these so far.
fn entry(
    alloc: Global,
    map: MapForm,
    entries: &[(InstanceId, StateId)],
    value: &Value,
) -> Result<(InstanceId, StateId), DescRefusal>
    ensures { let over = map.entry in
        Reads (at_ok (λ entry. entries.now ++ entry ∷ []) result)
        (Spec.entry_in over.instances.now over.names.now over.model.now entries.now
        (view value.now)) }
{
    let instances = map.instances;
    let object = Object::read(alloc, &["instance", "state"], value)?;
    let instance = object.required("instance", NextInstance { instances, entries })?;
    let state = StateInModel {
        names: map.names,
        model: map.model,
    };
    let state = object.required("state", state)?;
    Ok((instance, state))
}

/// An entry of a map: a state on an instance.
#[derive(Clone, Copy)]
struct EntryForm<'a> {
    map: MapForm<'a>,
}

impl ItemForm for EntryForm<'_> {
    type Items = Seq<(InstanceId, StateId)>;

    ghost found = { λ form entries d. let map = form.map in
        Spec.entry_in map.instances.now map.names.now map.model.now entries d };

    fn read_next(
        &self,
        alloc: Global,
        mut entries: Seq<(InstanceId, StateId)>,
        value: &Value,
    ) -> Result<Seq<(InstanceId, StateId)>, DescRefusal> {
        let entry = entry(alloc, self.map, entries.as_slice(), value)?;
        entries.push(entry)?;
        Ok(entries)
    }
}

impl ItemForm for MapForm<'_> {
    type Items = Seq<Seq<(InstanceId, StateId)>>;

    ghost found = { λ form maps d.
        Spec.map_in form.instances.now form.names.now form.model.now maps d };

    fn read_next(
        &self,
        alloc: Global,
        mut maps: Seq<Seq<(InstanceId, StateId)>>,
        value: &Value,
    ) -> Result<Seq<Seq<(InstanceId, StateId)>>, DescRefusal> {
        let values = array(alloc, value)?;
        let form = EntryForm { map: *self };
        maps.push(in_order(alloc, &form, values)?)?;
        Ok(maps)
    }
}

//! The ideal state of a resource: its mode, with its lists or maps.
ghost use Rattle.std.specs.Prelude.{◌≡◌, None, length, codes};
ghost use Rattle.serde_json.specs.View.{view};
ghost use Rattle.hx_model.specs.Model.{states_of};
ghost use Rattle.hx_ideal.specs.Faults.{fault_of};
ghost use Rattle.hx_forms.specs.Members.{members_of};
ghost use Rattle.hx_forms.specs.Reading.{Reads};
ghost use Rattle.hx_desc.specs.ResourceForm as Spec;

use crate::each_part::{each_part, nowhere};
use crate::limits::{PARTITIONS, REPLICAS};
use crate::lists::ListForm;
use crate::maps::MapForm;
use hx_forms::{DescKind, DescRefusal, Form, Object, fault, text};
use hx_ideal::{Ideal, Mode, ModeKind};
use hx_ids::{InstanceId, StateId};
use hx_lists::Seq;
use serde_json::Value;
use std::alloc::Global;

/// The kind of a mode, by its name.
#[derive(Clone, Copy)]
struct KindForm;

impl Form for KindForm {
    type Output = ModeKind;

    ghost found = { λ _ d. Spec.kind_in d };

    fn read(self, alloc: Global, value: &Value) -> Result<ModeKind, DescRefusal> {
        let name = text(alloc, value)?;
        match ModeKind::from_name(name) {
            Some(kind) => Ok(kind),
            None => Err(fault(alloc, DescKind::BadMode)),
        }
    }
}

/// A preference list for each partition.
#[derive(Clone, Copy)]
struct ListsForm<'a> {
    list: ListForm<'a>,
    parts: u32,
}

impl Form for ListsForm<'_> {
    type Output = Seq<Seq<InstanceId>>;

    ghost found = { λ form d.
        Spec.each_part_in form.parts (Spec.list_in form.list.instances.now) d };

    fn read(self, alloc: Global, value: &Value) -> Result<Seq<Seq<InstanceId>>, DescRefusal> {
        each_part(alloc, self.parts, &self.list, value)
    }
}

/// No lists.
#[derive(Clone, Copy)]
struct NoLists;

impl Form for NoLists {
    type Output = Seq<Seq<InstanceId>>;

    ghost found = { λ _ d. Spec.nowhere_in d };

    fn read(self, alloc: Global, value: &Value) -> Result<Seq<Seq<InstanceId>>, DescRefusal> {
        nowhere(alloc, value)
    }
}

/// The lists of a resource, where its mode has some, and else none.
fn lists(
    alloc: Global,
    object: &Object,
    kind: ModeKind,
    form: ListsForm,
) -> Result<Seq<Seq<InstanceId>>, DescRefusal>
    ensures { Reads result
        (Spec.lists_in form.entry.list.instances.now kind form.entry.parts
        (members_of object.now)) }
{
    match kind {
        ModeKind::SemiAuto => object.required("lists", form),
        ModeKind::FullAuto | ModeKind::Customized => {
            object.optional("lists", Seq::new(alloc), NoLists)
        }
    }
}

/// A map for each partition.
#[derive(Clone, Copy)]
struct MapsForm<'a> {
    map: MapForm<'a>,
    parts: u32,
}

impl Form for MapsForm<'_> {
    type Output = Seq<Seq<(InstanceId, StateId)>>;

    ghost found = { λ form d.
        let map_in = Spec.map_in form.map.instances.now form.map.names.now form.map.model.now in
        Spec.each_part_in form.parts map_in d };

    fn read(
        self,
        alloc: Global,
        value: &Value,
    ) -> Result<Seq<Seq<(InstanceId, StateId)>>, DescRefusal> {
        each_part(alloc, self.parts, &self.map, value)
    }
}

/// No maps.
#[derive(Clone, Copy)]
struct NoMaps;

impl Form for NoMaps {
    type Output = Seq<Seq<(InstanceId, StateId)>>;

    ghost found = { λ _ d. Spec.nowhere_in d };

    fn read(
        self,
        alloc: Global,
        value: &Value,
    ) -> Result<Seq<Seq<(InstanceId, StateId)>>, DescRefusal> {
        nowhere(alloc, value)
    }
}

/// The maps of a resource, where its mode has some, and else none.
fn maps(
    alloc: Global,
    object: &Object,
    kind: ModeKind,
    form: MapsForm,
) -> Result<Seq<Seq<(InstanceId, StateId)>>, DescRefusal>
    ensures { let map = form.entry.map in
        Reads result (Spec.maps_in map.instances.now map.names.now map.model.now kind
        form.entry.parts (members_of object.now)) }
{
    match kind {
        ModeKind::Customized => object.required("maps", form),
        ModeKind::FullAuto | ModeKind::SemiAuto => {
            object.optional("maps", Seq::new(alloc), NoMaps)
        }
    }
}

/// A mode with its lists or maps.
fn mode_of(
    kind: ModeKind,
    lists: Seq<Seq<InstanceId>>,
    maps: Seq<Seq<(InstanceId, StateId)>>,
) -> Mode
    ensures { result ≡ Spec.mode_of kind lists maps }
{
    match kind {
        ModeKind::FullAuto => Mode::Full,
        ModeKind::SemiAuto => Mode::Semi(lists),
        ModeKind::Customized => Mode::Custom(maps),
    }
}

/// The ideal state of what has no fault.
fn faultless(replicas: u32, parts: u32, mode: Mode, over: MapForm) -> Ideal
    requires { fault_of replicas parts mode
        (length over.instances.now) (states_of over.model.now) ≡ None }
    ensures { result ≡ record { replicas = replicas; parts = parts; mode = mode } }
{
    let instances = over.instances.len();
    Ideal::check(replicas, parts, mode, instances, over.model.states()).unwrap()
}

/// The ideal state of a resource, over what its maps may name. What is read of it has no fault.
pub(crate) fn ideal(alloc: Global, object: &Object, over: MapForm) -> Result<Ideal, DescRefusal>
    ensures { let map = over.entry in
        Reads result (Spec.ideal_in map.instances.now map.names.now map.model.now
        (members_of object.now)) }
{
    let replicas = object.required("replicas", REPLICAS)?;
    let parts = object.required("partitions", PARTITIONS)?;
    let kind = object.required("mode", KindForm)?;
    let list = ListForm {
        instances: over.instances,
    };
    let lists = lists(alloc, object, kind, ListsForm { list, parts })?;
    let maps = maps(alloc, object, kind, MapsForm { map: over, parts })?;
    Ok(faultless(replicas, parts, mode_of(kind, lists, maps), over))
}

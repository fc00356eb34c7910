//! Failures to come.
ghost use Rattle.std.specs.Prelude.{◌≡◌, List, [], ◌∷◌, ◌++◌, codes};
ghost use Rattle.serde_json.specs.View.{view};
ghost use Rattle.hx_cluster.specs.declared.description.Failure.{Failure};
ghost use Rattle.hx_forms.specs.Found.{optional};
ghost use Rattle.hx_forms.specs.Members.{members_of};
ghost use Rattle.hx_forms.specs.Reading.{Reads, at_ok};
ghost use Rattle.hx_desc.specs.FailureForm as Spec;

use crate::limits::{MOST_FAILURES, TURNS};
use crate::resources::{InstanceForm, parts_of};
use crate::tables::ResourceTable;
use hx_cluster::Failure;
use hx_forms::{
    DescKind, DescRefusal, Form, ItemForm, Object, array_up_to, fault, place, read_all, whole,
};
use hx_ids::{Names, PartId, ResourceId};
use hx_lists::Seq;
use serde_json::Value;
use std::alloc::Global;

/// A resource by its name.
#[derive(Clone, Copy)]
struct ResourceIdForm<'a> {
    names: &'a Names,
}

impl Form for ResourceIdForm<'_> {
    type Output = ResourceId;

    ghost found = { λ form d. Spec.resource_id_in form.names.now d };

    fn read(self, alloc: Global, value: &Value) -> Result<ResourceId, DescRefusal> {
        let place = place(alloc, DescKind::UnknownResource, self.names, value)?;
        Ok(ResourceId(place))
    }
}

/// One of so many partitions.
#[derive(Clone, Copy)]
struct PartForm {
    parts: u32,
}

impl Form for PartForm {
    type Output = u32;

    ghost found = { λ form d. Spec.part_in form.parts d };

    fn read(self, alloc: Global, value: &Value) -> Result<u32, DescRefusal> {
        let index = whole(alloc, value)?;
        if index >= self.parts as u64 {
            return Err(fault(alloc, DescKind::NoPart));
        }
        Ok(index as u32)
    }
}

/// Which run or which making, counted from 1.
#[derive(Clone, Copy)]
struct TurnForm;

impl Form for TurnForm {
    type Output = Option<u32>;

    ghost found = { λ _ d. Spec.turn_in d };

    fn read(self, alloc: Global, value: &Value) -> Result<Option<u32>, DescRefusal> {
        Ok(Some(TURNS.read(alloc, value)?))
    }
}

/// Of a run or of a making: whether it is a making, and which.
fn turn_of(alloc: Global, run: Option<u32>, make: Option<u32>) -> Result<(bool, u32), DescRefusal>
    ensures { Reads result (Spec.turn_of run make) }
{
    match (run, make) {
        (Some(n), None) => Ok((false, n)),
        (None, Some(n)) => Ok((true, n)),
        (None, None) | (Some(_), Some(_)) => Err(fault(alloc, DescKind::RunOrMake)),
    }
}

/// The part of a failure.
fn failed_part(object: &Object, table: &ResourceTable) -> Result<PartId, DescRefusal>
    ensures { Reads result (Spec.failed_part table.now (members_of object.now)) }
{
    let names = &table.names;
    let resource = object.required("resource", ResourceIdForm { names })?;
    let parts = parts_of(table.resources.as_slice(), resource);
    let index = object.required("part", PartForm { parts })?;
    Ok(PartId { resource, index })
}

/// Which of its runs or makings fails.
fn failed_turn(alloc: Global, object: &Object) -> Result<(bool, u32), DescRefusal>
    ensures { Reads result (Spec.failed_turn (members_of object.now)) }
{
    let run = object.optional("run", None, TurnForm)?;
    let make = object.optional("make", None, TurnForm)?;
    turn_of(alloc, run, make)
}

/// The members of a failure.
const FAILURE_KEYS: [&str; 5] = ["instance", "resource", "part", "run", "make"];

/// One failure, over the instances and the resources. It goes behind any others.
fn failure(
    alloc: Global,
    instances: &Names,
    table: &ResourceTable,
    value: &Value,
) -> Result<Failure, DescRefusal>
    ensures { (before : List Failure) → Reads (at_ok (λ failure. before ++ failure ∷ []) result)
        (Spec.failure_in instances.now table.now before (view value.now)) }
{
    let object = Object::read(alloc, &FAILURE_KEYS, value)?;
    let instance = object.required("instance", InstanceForm { instances })?;
    let part = failed_part(&object, table)?;
    let turn = failed_turn(alloc, &object)?;
    Ok(Failure {
        instance,
        part,
        make: turn.0,
        number: turn.1,
    })
}

/// A failure, or all of them, over the instances and the resources.
#[derive(Clone, Copy)]
struct FailureForm<'a> {
    instances: &'a Names,
    table: &'a ResourceTable,
}

impl ItemForm for FailureForm<'_> {
    type Items = Seq<Failure>;

    ghost found = { λ form failures d.
        Spec.failure_in form.instances.now form.table.now failures d };

    fn read_next(
        &self,
        alloc: Global,
        mut failures: Seq<Failure>,
        value: &Value,
    ) -> Result<Seq<Failure>, DescRefusal> {
        let failure = failure(alloc, self.instances, self.table, value)?;
        failures.push(failure)?;
        Ok(failures)
    }
}

impl Form for FailureForm<'_> {
    type Output = Seq<Failure>;

    ghost found = { λ form d. Spec.failures_in form.instances.now form.table.now d };

    fn read(self, alloc: Global, value: &Value) -> Result<Seq<Failure>, DescRefusal> {
        let values = array_up_to(alloc, MOST_FAILURES, value)?;
        read_all(alloc, &self, Seq::new(alloc), values)
    }
}

/// The failures of a description, over its instances and resources.
pub(crate) fn failures(
    alloc: Global,
    object: &Object,
    instances: &Names,
    table: &ResourceTable,
) -> Result<Seq<Failure>, DescRefusal>
    ensures { Reads result
        (optional (codes "failures") [] (Spec.failures_in instances.now table.now)
        (members_of object.now)) }
{
    object.optional(
        "failures",
        Seq::new(alloc),
        FailureForm { instances, table },
    )
}

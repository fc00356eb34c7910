//! Resources.
ghost use Rattle.std.specs.Prelude.{◌≡◌, ◌+◌, ◌-◌, ◌^◌, ◌<◌, ◌≤◌, [], length, codes, IfOk, false};
ghost use Rattle.std.specs.List.{list_any};
ghost use Rattle.std.specs.Str.{bytes_eq};
ghost use Rattle.serde_json.specs.View.{view};
ghost use Rattle.hx_ids.specs.declared.ModelId.{ModelId};
ghost use Rattle.hx_ideal.specs.IdealState.{IdealState};
ghost use Rattle.hx_cluster.specs.Ends;
ghost use Rattle.hx_forms.specs.Found.{optional};
ghost use Rattle.hx_forms.specs.Members.{members_of};
ghost use Rattle.hx_forms.specs.Reading.{Reads, at_ok};
ghost use Rattle.hx_forms.specs.Tables.{AreFew};
ghost use Rattle.hx_desc.specs.declared.tables.ResourceTable.{ResourceTable};
ghost use Rattle.hx_desc.specs.ResourceForm as Spec;
ghost use Rattle.hx_desc.specs.Steps.{placement_in};

use crate::ideals::ideal;
use crate::limits::MOST_RESOURCES;
use crate::lists::instance;
use crate::maps::MapForm;
use crate::tables::ResourceTable;
use hx_cluster::Resource;
use hx_forms::{
    DescKind, DescRefusal, Form, ItemForm, ModelTable, Name, NewName, Object, array_up_to, place,
    read_all,
};
use hx_ideal::Ideal;
use hx_ids::{InstanceId, ModelId, Names, ResourceId};
use hx_lists::Seq;
use serde_json::Value;
use std::alloc::{AllocError, Global};

/// An instance by its name.
#[derive(Clone, Copy)]
pub(crate) struct InstanceForm<'a> {
    pub(crate) instances: &'a Names,
}

impl Form for InstanceForm<'_> {
    type Output = InstanceId;

    ghost found = { λ form d. Spec.instance_in form.instances.now d };

    fn read(self, alloc: Global, value: &Value) -> Result<InstanceId, DescRefusal> {
        instance(alloc, self.instances, value)
    }
}

/// A table without resources.
fn no_resources(alloc: Global) -> ResourceTable
    ensures { result ≡ record { names = []; resources = [] } }
{
    ResourceTable {
        names: Names::new(alloc),
        resources: Seq::new(alloc),
    }
}

/// How many partitions a resource has.
pub(crate) fn parts_of(resources: &[Resource], resource: ResourceId) -> u32
    ensures { result ≡ Ends.parts_of resources.now resource }
{
    match resources.get(resource.0 as usize) {
        Some(resource) => resource.ideal.parts(),
        None => 0,
    }
}

/// A model by its name.
#[derive(Clone, Copy)]
struct ModelIdForm<'a> {
    names: &'a Names,
    ghost few: { length names.now ≤ 256 },
}

impl Form for ModelIdForm<'_> {
    type Output = ModelId;

    ghost found = { λ form d. Spec.model_id_in form.names.now d };

    ghost known = { λ form id. id.0 < length form.names.now };

    fn read(self, alloc: Global, value: &Value) -> Result<ModelId, DescRefusal> {
        let place = place(alloc, DescKind::UnknownModel, self.names, value)?;
        Ok(ModelId(place as u8))
    }
}

/// The members of a resource.
const RESOURCE_KEYS: [&str; 7] = [
    "name",
    "model",
    "replicas",
    "partitions",
    "mode",
    "lists",
    "maps",
];

/// A table with one more resource, which has a new name.
fn with_resource(
    table: ResourceTable,
    name: &str,
    model: ModelId,
    ideal: Ideal,
) -> Result<ResourceTable, AllocError>
    requires few { length table.names < 2 ^ 32 - 1 }
    requires new { list_any (bytes_eq name.now) table.names ≡ false }
    ensures { IfOk result (λ after. after ≡ Spec.with_resource table name.now model ideal) }
{
    let ResourceTable {
        mut names,
        mut resources,
    } = table;
    resources.push(Resource::new(names.len(), model, ideal))?;
    names.intern(name)?;
    Ok(ResourceTable { names, resources })
}

/// A resource, or all of them, over the instances and the models.
#[derive(Clone, Copy)]
struct ResourceForm<'a> {
    instances: &'a Names,
    models: &'a ModelTable,
    ghost few: { AreFew models.now },
}

impl ResourceForm<'_> {
    /// The model of a resource, and its ideal state over that, for whatever whole is made of them.
    fn read_ideal(&self, alloc: Global, object: &Object) -> Result<(ModelId, Ideal), DescRefusal>
        ensures { (whole : ModelId → IdealState → ResourceTable) → Reads
            (at_ok (λ both. whole both.0 both.1) result)
            (placement_in self.now.instances.now self.now.models.now whole
            (members_of object.now)) }
    {
        let model = ModelIdForm {
            names: &self.models.names,
        };
        let model = object.required("model", model)?;
        let over = MapForm {
            instances: self.instances,
            names: &self.models.states,
            model: &self.models.models.as_slice()[model.0 as usize],
        };
        let ideal = ideal(alloc, object, over)?;
        Ok((model, ideal))
    }

    /// What one resource says: its name, which none in the table has, its model and its ideal
    /// state.
    fn read_one(
        &self,
        alloc: Global,
        table: &ResourceTable,
        value: &Value,
    ) -> Result<(Name, ModelId, Ideal), DescRefusal>
        ensures read { Reads (at_ok (λ one. Spec.with_resource table.now one.0 one.1 one.2) result)
            (Spec.resource_in self.now.instances.now self.now.models.now table.now
            (view value.now)) }
        ensures new { IfOk result (λ one. list_any (bytes_eq one.0) table.now.names ≡ false) }
    {
        let names = &table.names;
        let object = Object::read(alloc, &RESOURCE_KEYS, value)?;
        let name = object.required("name", NewName { names })?;
        let both = self.read_ideal(alloc, &object)?;
        let (model, ideal) = both;
        Ok((name, model, ideal))
    }
}

impl ItemForm for ResourceForm<'_> {
    type Items = ResourceTable;

    ghost found = { λ form table d. Spec.resource_in form.instances.now form.models.now table d };

    ghost kept = { λ _ more table. length table.names + more ≤ 256 };

    fn read_next(
        &self,
        alloc: Global,
        table: ResourceTable,
        value: &Value,
    ) -> Result<ResourceTable, DescRefusal> {
        let one = self.read_one(alloc, &table, value)?;
        let (name, model, ideal) = one;
        let after = with_resource(table, name.as_str(), model, ideal)?;
        Ok(after)
    }
}

impl Form for ResourceForm<'_> {
    type Output = ResourceTable;

    ghost found = { λ form d. Spec.resources_in form.instances.now form.models.now d };

    fn read(self, alloc: Global, value: &Value) -> Result<ResourceTable, DescRefusal> {
        let values = array_up_to(alloc, MOST_RESOURCES, value)?;
        read_all(alloc, &self, no_resources(alloc), values)
    }
}

/// The resources of a description, over its instances and models.
pub(crate) fn resources(
    alloc: Global,
    object: &Object,
    instances: &Names,
    models: &ModelTable,
) -> Result<ResourceTable, DescRefusal>
    requires { AreFew models.now }
    ensures { Reads result
        (optional (codes "resources") (record { names = []; resources = [] })
        (Spec.resources_in instances.now models.now) (members_of object.now)) }
{
    object.optional(
        "resources",
        no_resources(alloc),
        ResourceForm { instances, models },
    )
}

//! Whole descriptions.
ghost use Rattle.std.specs.Prelude.{◌≡◌, ◌-◌, ◌^◌, IfOk, List, Ok, codes};
ghost use Rattle.serde_json.specs.View.{view};
ghost use Rattle.hx_cluster.specs.declared.description.Failure.{Failure};
ghost use Rattle.hx_cluster.specs.declared.description.Rule.{Rule};
ghost use Rattle.hx_cluster.specs.declared.description.Spec.{Spec};
ghost use Rattle.hx_cluster.specs.Valid.{IsValid};
ghost use Rattle.hx_forms.specs.declared.faults.DescKind.TheVariants.{BadJson};
ghost use Rattle.hx_forms.specs.Found.{there_or, object_in, required, optional, number_in};
ghost use Rattle.hx_forms.specs.Members.{members_of};
ghost use Rattle.hx_forms.specs.Reading.{Reads, at_ok};
ghost use Rattle.hx_forms.specs.Tables.{AreFew};
ghost use Rattle.hx_desc.specs.declared.tables.ResourceTable.{ResourceTable};
ghost use Rattle.hx_desc.specs.Description as Desc;
ghost use Rattle.hx_desc.specs.Steps.{over_in};

use crate::demo::demo;
use crate::failures::failures;
use crate::instances::InstancesForm;
use crate::limits::{CONTROLLERS, DEFAULT_CONTROLLERS, DEFAULT_TIMEOUT, TIMEOUT, VERSION};
use crate::resources::resources;
use crate::rules::rules;
use crate::tables::ResourceTable;
use hx_cluster::{Failure, Rule, Spec};
use hx_forms::{DescKind, DescRefusal, ModelTable, Object, fault, read_models};
use hx_ids::Names;
use hx_lists::Seq;
use hx_text::cut;
use serde_json::Value;
use std::alloc::Global;

/// The members of a description.
const KEYS: [&str; 8] = [
    "version",
    "controllers",
    "timeout",
    "instances",
    "models",
    "throttles",
    "resources",
    "failures",
];

/// The rules, the resources and the failures of a description, over its instances and models, for
/// whatever whole is made of them.
fn read_over(
    alloc: Global,
    object: &Object,
    instances: &Names,
    models: &ModelTable,
) -> Result<(Seq<Rule>, ResourceTable, Seq<Failure>), DescRefusal>
    requires { AreFew models.now }
    ensures { (whole : List Rule → ResourceTable → List Failure → Spec) → Reads
        (at_ok (λ over. whole over.0 over.1 over.2) result)
        (over_in instances.now models.now whole (members_of object.now)) }
{
    let rules = rules(alloc, object, &models.states)?;
    let table = resources(alloc, object, instances, models)?;
    let failures = failures(alloc, object, instances, &table)?;
    Ok((rules, table, failures))
}

/// What a JSON value describes whose members are read up to the timeout.
fn describe_rest(
    alloc: Global,
    value: &Value,
    object: &Object,
    controllers: u8,
    timeout: u64,
) -> Result<Spec, DescRefusal>
    requires object { object_in Desc.keys (view value.now) ≡ Ok (members_of object.now) }
    requires version { required (codes "version") (number_in 1 1) (members_of object.now) ≡ Ok 1 }
    requires controllers { optional (codes "controllers") 1 (number_in 1 16)
        (members_of object.now) ≡ Ok controllers }
    requires timeout { optional (codes "timeout") 30 (number_in 1 (2 ^ 64 - 1))
        (members_of object.now) ≡ Ok timeout }
    ensures { Reads result (Desc.described (view value.now)) }
{
    let instances = object.required("instances", InstancesForm)?;
    let models = read_models(alloc, object)?;
    let over = read_over(alloc, object, &instances, &models)?;
    let (rules, table, failures) = over;
    Ok(Spec {
        instances,
        states: models.states,
        resource_names: table.names,
        model_names: models.names,
        models: models.models,
        controllers,
        timeout,
        rules,
        resources: table.resources,
        failures,
    })
}

/// What a JSON value describes.
fn describe(alloc: Global, value: &Value) -> Result<Spec, DescRefusal>
    ensures { Reads result (Desc.described (view value.now)) }
{
    let object = Object::read(alloc, &KEYS, value)?;
    object.required("version", VERSION)?;
    let controllers = object.optional("controllers", DEFAULT_CONTROLLERS, CONTROLLERS)?;
    let timeout = object.optional("timeout", DEFAULT_TIMEOUT, TIMEOUT)?;
    describe_rest(alloc, value, &object, controllers as u8, timeout)
}

/// The JSON value of some bytes.
fn json(alloc: Global, bytes: &[u8]) -> Result<Value, DescRefusal>
    ensures { Reads (at_ok view result) (there_or BadJson (Desc.json_of bytes.now)) }
{
    match Value::from_slice(alloc, bytes) {
        Ok(value) => Ok(value),
        Err(error) => {
            if error.is_memory() {
                Err(DescRefusal::OutOfMemory)
            } else {
                Err(fault(alloc, DescKind::BadJson))
            }
        }
    }
}

/// What bytes of JSON describe.
fn read_json(alloc: Global, bytes: &[u8]) -> Result<Spec, DescRefusal>
    ensures { Reads result (Desc.described_if (Desc.json_of bytes.now)) }
{
    let value = json(alloc, bytes)?;
    describe(alloc, &value)
}

/// Whether a description is the line that stands for the demo.
pub fn is_demo(bytes: &[u8]) -> bool
    ensures { result ≡ Desc.is_demo bytes.now }
{
    bytes == b"builtin demo\n".as_slice() || bytes == b"builtin demo\r\n".as_slice()
}

/// What a description without its separator says.
#[tactic(auto, using(crate::proofs::Whole::refused_in_description))]
fn spec_of(alloc: Global, bytes: &[u8]) -> Result<Spec, DescRefusal>
    ensures { Reads result (Desc.spec_of bytes.now) }
{
    if is_demo(bytes) {
        return Ok(demo(alloc)?);
    }
    match read_json(alloc, bytes) {
        Ok(spec) => Ok(spec),
        Err(refusal) => Err(refusal.in_description(alloc)),
    }
}

/// Reads the description of an input, which stands before the first line `---`: the demo's one line,
/// or JSON. What is read is valid.
///
/// A fault is the first one, with its path from `$`.
#[tactic(auto, using(crate::proofs::Whole::refused_in_description))]
pub fn read(alloc: Global, bytes: &[u8]) -> Result<Spec, DescRefusal>
    ensures read { Reads result (Desc.input_spec bytes.now) }
    ensures valid { IfOk result IsValid }
{
    match cut(bytes) {
        Some(input) => spec_of(alloc, input.description),
        None => Err(fault(alloc, DescKind::NoSeparator).in_description(alloc)),
    }
}

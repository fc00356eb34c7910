//! The demo, which one line stands for.
ghost use Rattle.std.specs.Prelude.{◌≡◌, [], ◌∷◌, IfOk};
ghost use Rattle.hx_ideal.specs.declared.Mode.TheVariants.{Semi};
ghost use Rattle.hx_desc.specs.Demo.{demo, instances_of};

use hx_cluster::{Resource, Spec};
use hx_forms::built_in;
use hx_ideal::{Ideal, Mode};
use hx_ids::{InstanceId, ModelId, Names};
use hx_lists::Seq;
use std::alloc::{AllocError, Global};

/// A list of three instances.
fn list(alloc: Global, first: u32, second: u32, third: u32) -> Result<Seq<InstanceId>, AllocError>
    ensures { IfOk result (λ list. list ≡ instances_of (first ∷ second ∷ third ∷ [])) }
{
    let mut list = Seq::new(alloc);
    list.push(InstanceId(first))?;
    list.push(InstanceId(second))?;
    list.push(InstanceId(third))?;
    Ok(list)
}

/// Two partitions of two replicas, on three instances.
fn ideal(alloc: Global) -> Result<Ideal, AllocError>
    ensures { IfOk result (λ ideal. ideal ≡ record {
      replicas = 2;
      parts = 2;
      mode = Semi (instances_of (0 ∷ 1 ∷ 2 ∷ []) ∷ instances_of (1 ∷ 2 ∷ 0 ∷ []) ∷ []);
    }) }
{
    let mut lists = Seq::new(alloc);
    lists.push(list(alloc, 0, 1, 2)?)?;
    lists.push(list(alloc, 1, 2, 0)?)?;
    Ok(Ideal::check(2, 2, Mode::Semi(lists), 3, &[]).unwrap())
}

/// Names of three instances.
fn instances(alloc: Global) -> Result<Names, AllocError>
    ensures { IfOk result (λ names. names ≡ demo.instances) }
{
    let mut names = Names::new(alloc);
    names.intern("n1")?;
    names.intern("n2")?;
    names.intern("n3")?;
    Ok(names)
}

/// The name of its resource.
fn resource_names(alloc: Global) -> Result<Names, AllocError>
    ensures { IfOk result (λ names. names ≡ demo.resource_names) }
{
    let mut names = Names::new(alloc);
    names.intern("db")?;
    Ok(names)
}

/// Its resource.
fn resources(alloc: Global) -> Result<Seq<Resource>, AllocError>
    ensures { IfOk result (λ resources. resources ≡ demo.resources) }
{
    let mut resources = Seq::new(alloc);
    resources.push(Resource::new(0, ModelId(1), ideal(alloc)?))?;
    Ok(resources)
}

/// The description of the demo.
pub(crate) fn demo(alloc: Global) -> Result<Spec, AllocError>
    ensures { IfOk result (λ spec. spec ≡ demo) }
{
    let instances = instances(alloc)?;
    let resource_names = resource_names(alloc)?;
    let resources = resources(alloc)?;
    let models = built_in(alloc)?;
    Ok(Spec {
        instances,
        states: models.states,
        resource_names,
        model_names: models.names,
        models: models.models,
        controllers: 2,
        timeout: 30,
        rules: Seq::new(alloc),
        resources,
        failures: Seq::new(alloc),
    })
}

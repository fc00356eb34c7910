//! The step that a script line asks for.

ghost use Rattle.std.specs.Prelude.{◌≡◌, ◌≤◌, true, option_map, IfOk};
ghost use Rattle.hx_cluster.specs.Steps.{newest};
ghost use Rattle.hx_script.specs.Asked.{part_at, step_asked};
ghost use Rattle.hx_script.specs.NewIdeals.{bare_mode, bare_ideal};
ghost use Rattle.hx_script.specs.Modes.{mode_numbered};
ghost use Rattle.hx_script.specs.Ranges.{is_in_range};
ghost use Rattle.hx_sim.specs.Asking.{nameless_step};

use crate::World;
use hx_cluster::Admin;
use hx_handler::Factory;
use hx_ideal::{Ideal, Mode, ModeKind};
use hx_ids::{InstanceId, PartId, ResourceId, StateId};
use hx_lists::Seq;
use hx_script::{What, mode_numbered};
use std::alloc::{AllocError, Global};

/// A mode with empty lists or maps.
fn bare_mode(alloc: Global, mode: u8, parts: u32) -> Result<Mode, AllocError>
    ensures { IfOk result (λ m. m ≡ bare_mode (mode_numbered mode) parts) }
{
    let kind = mode_numbered(mode).unwrap_or(ModeKind::Customized);
    Mode::bare(alloc, kind, parts)
}

/// What is wanted of a resource that a line adds.
fn bare_ideal(alloc: Global, replicas: u32, parts: u32, mode: u8) -> Result<Ideal, AllocError>
    requires replicas { (1 ≤ replicas) × (replicas ≤ 64) }
    requires parts { (1 ≤ parts) × (parts ≤ 1024) }
    ensures { IfOk result (λ ideal. ideal ≡ bare_ideal replicas parts mode) }
{
    let mode = bare_mode(alloc, mode, parts)?;
    match Ideal::check(replicas, parts, mode, 0, &[]) {
        Ok(ideal) => Ok(ideal),
        Err(_) => unreachable!(),
    }
}

fn part_at(index: u32, resource: ResourceId) -> PartId
    ensures { result ≡ part_at index resource }
{
    PartId { resource, index }
}

/// The step of a line that names no resource.
fn nameless_step(what: &What) -> Option<Admin>
    ensures { result ≡ nameless_step what.now }
{
    match *what {
        What::Join(instance) => Some(Admin::Join { instance }),
        What::Beat(instance) => Some(Admin::Beat { instance }),
        What::Drain(instance) => Some(Admin::Drain { instance }),
        What::Undrain(instance) => Some(Admin::Undrain { instance }),
        What::Tick(n) => Some(Admin::Tick { n }),
        What::Expire(instance) => Some(Admin::End { instance }),
        What::Die(instance) => Some(Admin::End { instance }),
        What::Lead(controller) => Some(Admin::Lead { controller }),
        What::Stop(controller) => Some(Admin::Stop { controller }),
        What::Start(controller) => Some(Admin::Start { controller }),
        _ => None,
    }
}

/// The step that lists instances of a part, if its resource is there.
fn list_step(
    alloc: Global,
    resource: Option<ResourceId>,
    part: u32,
    list: &[InstanceId],
) -> Result<Option<Admin>, AllocError>
    ensures { IfOk result (λ step. step
        ≡ option_map (λ r. Admin.SetList (part_at part r) list.now) resource) }
{
    let Some(resource) = resource else {
        return Ok(None);
    };
    let list = Seq::from_slice(alloc, list)?;
    Ok(Some(Admin::SetList {
        part: part_at(part, resource),
        list,
    }))
}

/// The step that maps instances of a part to states, if its resource is there.
fn map_step(
    alloc: Global,
    resource: Option<ResourceId>,
    part: u32,
    map: &[(InstanceId, StateId)],
) -> Result<Option<Admin>, AllocError>
    ensures { IfOk result (λ step. step
        ≡ option_map (λ r. Admin.SetMap (part_at part r) map.now) resource) }
{
    let Some(resource) = resource else {
        return Ok(None);
    };
    let map = Seq::from_slice(alloc, map)?;
    Ok(Some(Admin::SetMap {
        part: part_at(part, resource),
        map,
    }))
}

/// The step that drops a resource, if it is there.
fn drop_step(resource: Option<ResourceId>) -> Option<Admin>
    ensures { result ≡ option_map (λ r. Admin.Drop r) resource }
{
    match resource {
        Some(resource) => Some(Admin::Drop { resource }),
        None => None,
    }
}

/// The step that resets a part on an instance, if its resource is there.
fn reset_step(resource: Option<ResourceId>, instance: InstanceId, part: u32) -> Option<Admin>
    ensures { result ≡ option_map (λ r. Admin.Reset instance (part_at part r)) resource }
{
    match resource {
        Some(resource) => Some(Admin::Reset {
            instance,
            part: part_at(part, resource),
        }),
        None => None,
    }
}

impl<F: Factory> World<F> {
    /// The last resource of a name.
    fn newest(&self, name: u32) -> Option<ResourceId>
        ensures { result ≡ newest self.now.board.cluster name }
    {
        self.scene.board().newest(name)
    }

    /// The step that a line asks for, unless it names no resource.
    pub(crate) fn step_asked(&self, what: &What) -> Result<Option<Admin>, AllocError>
        requires { is_in_range self.now.spec what.now ≡ true }
        ensures { IfOk result (λ step. step ≡ step_asked self.now.board.cluster what.now) }
    {
        let alloc = self.scene.alloc();
        match what {
            &What::Add {
                name,
                model,
                replicas,
                parts,
                mode,
            } => {
                let ideal = bare_ideal(alloc, replicas, parts, mode)?;
                Ok(Some(Admin::Add { name, model, ideal }))
            }
            &What::Drop(name) => Ok(drop_step(self.newest(name))),
            What::List { name, part, list } => {
                list_step(alloc, self.newest(*name), *part, list.as_slice())
            }
            What::Map { name, part, map } => {
                map_step(alloc, self.newest(*name), *part, map.as_slice())
            }
            &What::Reset {
                instance,
                name,
                part,
            } => Ok(reset_step(self.newest(name), instance, part)),
            _ => Ok(nameless_step(what)),
        }
    }
}

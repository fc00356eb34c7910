//! A small cluster, and what stands in it.
use hx_cluster::{Cluster, Resource, Row, Rule, Scope, Seen, Spec};
use hx_ideal::{Ideal, Mode};
use hx_ids::{
    ControllerId, InstanceId, Live, ModelId, Names, PartId, PassNo, ResourceId, SessionId, StateId,
};
use hx_lists::Seq;
use hx_model::{Bound, DROPPED, Model, ModelParts};
use std::alloc::{AllocError, Global};
use std::fmt::Debug;
use std::process::Abort;
use std::test::Fail;

pub const N1: InstanceId = InstanceId(0);

pub const N2: InstanceId = InstanceId(1);

pub const N3: InstanceId = InstanceId(2);

pub const C1: ControllerId = ControllerId(0);

pub const C2: ControllerId = ControllerId(1);

pub const S1: SessionId = SessionId(1);

pub const ONLINE: StateId = StateId(2);

const OFFLINE: StateId = StateId(3);

pub const FIRST: ResourceId = ResourceId(0);

pub const SECOND: ResourceId = ResourceId(1);

/// What is found is what is wanted. Inline, an `assert_eq!` takes longer to prove.
pub fn expect<T: PartialEq + Debug>(rt: &impl Abort, found: &T, wanted: &T) {
    assert_eq!(rt; found, wanted);
}

pub fn part(resource: ResourceId, index: u32) -> PartId {
    PartId { resource, index }
}

/// The first instance's replica of a part is online.
pub fn seen(part: PartId) -> Seen {
    Seen {
        instance: N1,
        part,
        state: ONLINE,
    }
}

/// A model whose initial state is OFFLINE.
fn model(
    alloc: Global,
    states: &[(StateId, Bound)],
    moves: &[(StateId, StateId)],
) -> Result<Model, Fail> {
    let made = Model::check(ModelParts {
        states: Seq::from_slice(alloc, states)?,
        initial: OFFLINE,
        transitions: Seq::from_slice(alloc, moves)?,
    });
    Ok(made.ok().ok_or("a fault")?)
}

/// Two replicas of each of some partitions.
pub fn ideal(mode: Mode, parts: u32) -> Result<Ideal, Fail> {
    let made = Ideal::check(2, parts, mode, 3, &[]);
    Ok(made.ok().ok_or("a fault")?)
}

/// One empty list.
fn semi(alloc: Global) -> Result<Mode, AllocError> {
    let mut lists = Seq::new(alloc);
    lists.push(Seq::new(alloc))?;
    Ok(Mode::Semi(lists))
}

/// One empty map.
pub fn custom(alloc: Global) -> Result<Mode, AllocError> {
    let mut maps = Seq::new(alloc);
    maps.push(Seq::new(alloc))?;
    Ok(Mode::Custom(maps))
}

/// No instance, no controller, no resource. Sessions end after 30 ticks.
fn nothing(alloc: Global) -> Spec {
    Spec {
        instances: Names::new(alloc),
        states: Names::new(alloc),
        resource_names: Names::new(alloc),
        model_names: Names::new(alloc),
        models: Seq::new(alloc),
        controllers: 0,
        timeout: 30,
        rules: Seq::new(alloc),
        resources: Seq::new(alloc),
        failures: Seq::new(alloc),
    }
}

fn add_model(cluster: &mut Cluster, alloc: Global) -> Result<(), Fail> {
    let states = [(ONLINE, Bound::Replicas), (OFFLINE, Bound::Free)];
    let moves = [(OFFLINE, ONLINE), (ONLINE, OFFLINE), (OFFLINE, DROPPED)];
    cluster.models.push(model(alloc, &states, &moves)?)?;
    Ok(())
}

pub fn add_resource(cluster: &mut Cluster, name: u32, ideal: Ideal) -> Result<(), AllocError> {
    cluster
        .resources
        .push(Resource::new(name, ModelId(0), ideal))
}

/// At most two messages are in flight to an instance.
fn add_rule(cluster: &mut Cluster) -> Result<(), AllocError> {
    cluster.rules.push(Rule {
        scope: Scope::Instance,
        transition: None,
        limit: 2,
    })
}

/// Three instances and two controllers.
fn add_ids(cluster: &mut Cluster, alloc: Global) -> Result<(), AllocError> {
    cluster.instances = Seq::from_slice(alloc, &[false; 3])?;
    cluster.controllers = Seq::from_slice(alloc, &[(false, PassNo(0)); 2])?;
    Ok(())
}

/// The first resource has a list for its one partition, and the controller places the three of the
/// second.
fn fill(cluster: &mut Cluster, alloc: Global) -> Result<(), Fail> {
    add_ids(cluster, alloc)?;
    add_model(cluster, alloc)?;
    add_resource(cluster, 0, ideal(semi(alloc)?, 1)?)?;
    add_resource(cluster, 1, ideal(Mode::Full, 3)?)?;
    add_rule(cluster)?;
    Ok(())
}

/// Three instances, two controllers and two resources.
pub fn opening(alloc: Global) -> Result<Cluster, Fail> {
    let mut cluster = Cluster::at_opening(alloc, &nothing(alloc))?;
    cluster.states = 4;
    cluster.resource_names = 3;
    fill(&mut cluster, alloc)?;
    Ok(cluster)
}

/// A live session.
pub fn live(session: SessionId, instance: InstanceId) -> Live {
    Live {
        session,
        instance,
        beat: 0,
    }
}

/// A session's replica.
pub fn row(session: SessionId, part: PartId, state: StateId) -> Row {
    Row {
        session,
        part,
        state,
    }
}

/// The second instance is drained.
pub fn drain_second(cluster: &mut Cluster) {
    if let Some(drained) = cluster.instances.get_mut(1) {
        *drained = true;
    }
}

/// The second controller is down.
pub fn stop_second(cluster: &mut Cluster) {
    if let Some(controller) = cluster.controllers.get_mut(1) {
        *controller = (true, PassNo(0));
    }
}

pub fn drop_resource(cluster: &mut Cluster, resource: ResourceId) {
    if let Some(resource) = cluster.resources.get_mut(resource.0 as usize) {
        resource.dropped = true;
    }
}

//! What refuses each step, and what each step answers.
use crate::tests::fixtures::{
    C1, C2, FIRST, N1, N2, ONLINE, S1, SECOND, add_resource, custom, drain_second, drop_resource,
    expect, ideal, live, opening, part, row, stop_second,
};
use hx_cluster::{Admin, Cluster, Did, StepFault};
use hx_ideal::{Ideal, IdealFault, Mode};
use hx_ids::{Epoch, InstanceId, ModelId, PartId, ResourceId, StateId};
use hx_lists::Seq;
use hx_model::ERROR;
use std::alloc::{AllocError, Global};
use std::process::Abort;
use std::test::Fail;

fn add(name: u32, ideal: Ideal) -> Admin {
    Admin::Add {
        name,
        model: ModelId(0),
        ideal,
    }
}

fn set_list(alloc: Global, part: PartId, list: &[InstanceId]) -> Result<Admin, AllocError> {
    let list = Seq::from_slice(alloc, list)?;
    Ok(Admin::SetList { part, list })
}

fn set_map(
    alloc: Global,
    part: PartId,
    map: &[(InstanceId, StateId)],
) -> Result<Admin, AllocError> {
    let map = Seq::from_slice(alloc, map)?;
    Ok(Admin::SetMap { part, map })
}

fn reset(instance: InstanceId, part: PartId) -> Admin {
    Admin::Reset { instance, part }
}

/// Why a step is refused. A cluster without room counts as want of memory.
fn refusal(cluster: &Cluster, step: &Admin) -> Option<StepFault> {
    if cluster.has_room() {
        cluster.refuses(step)
    } else {
        Some(StepFault::OutOfMemory)
    }
}

fn expect_fault(rt: &impl Abort, cluster: &Cluster, step: &Admin, fault: StepFault) {
    expect(rt, &refusal(cluster, step), &Some(fault));
}

/// Each step is refused for its fault.
fn expect_faults(rt: &impl Abort, cluster: &Cluster, table: &[(Admin, StepFault)]) {
    for (step, fault) in table {
        expect_fault(rt, cluster, step, *fault);
    }
}

/// Instance 1 is live with a replica in ERROR and one that is online, instance 2 is drained,
/// controller 1 leads and 2 is down, and the second resource is dropped.
fn make_busy(cluster: &mut Cluster) -> Result<(), AllocError> {
    cluster.live.push(live(S1, N1))?;
    cluster.rows.push(row(S1, part(FIRST, 0), ERROR))?;
    cluster.rows.push(row(S1, part(SECOND, 0), ONLINE))?;
    cluster.resets.push((S1, part(FIRST, 0)))?;
    drain_second(cluster);
    stop_second(cluster);
    drop_resource(cluster, SECOND);
    Ok(())
}

fn busy(alloc: Global) -> Result<Cluster, Fail> {
    let mut cluster = opening(alloc)?;
    cluster.clock = 1;
    cluster.leader = Some(C1);
    make_busy(&mut cluster)?;
    Ok(cluster)
}

#[test]
fn steps_of_sessions_and_controllers_are_refused(rt: HostRuntime) -> Result<(), Fail> {
    let cluster = busy(rt.alloc())?;
    let live = StepFault::AlreadyLive { session: S1 };
    let led = StepFault::LedBy {
        controller: C1,
        epoch: Epoch(1),
    };
    let table = [
        (Admin::Join { instance: N1 }, live),
        (Admin::End { instance: N2 }, StepFault::NotLive),
        (Admin::Beat { instance: N2 }, StepFault::NotLive),
        (Admin::Tick { n: u64::MAX }, StepFault::ClockEnd),
        (Admin::Drain { instance: N2 }, StepFault::AlreadySo),
        (Admin::Undrain { instance: N1 }, StepFault::AlreadySo),
        (Admin::Lead { controller: C2 }, led),
        (Admin::Stop { controller: C2 }, StepFault::AlreadySo),
        (Admin::Start { controller: C1 }, StepFault::AlreadySo),
    ];
    expect_faults(&rt, &cluster, &table);
    Ok(())
}

#[test]
fn names_in_use_are_refused(rt: HostRuntime) -> Result<(), Fail> {
    let first = add(0, ideal(Mode::Full, 1)?);
    let second = add(1, ideal(Mode::Full, 1)?);
    let cluster = busy(rt.alloc())?;
    let table = [
        (first, StepFault::NameInUse { resource: FIRST }),
        (second, StepFault::NameInUse { resource: SECOND }),
        (Admin::Drop { resource: SECOND }, StepFault::AlreadyDropped),
    ];
    expect_faults(&rt, &cluster, &table);
    Ok(())
}

/// Why a list of a part is refused.
fn list_refusal(
    alloc: Global,
    cluster: &Cluster,
    part: PartId,
    list: &[InstanceId],
) -> Result<Option<StepFault>, AllocError> {
    let step = set_list(alloc, part, list)?;
    Ok(refusal(cluster, &step))
}

#[test]
fn lists_are_refused(rt: HostRuntime) -> Result<(), Fail> {
    let cluster = busy(rt.alloc())?;
    let gone = list_refusal(rt.alloc(), &cluster, part(SECOND, 0), &[]);
    expect(&rt, &gone, &Ok(Some(StepFault::ResourceDropped)));
    let nowhere = list_refusal(rt.alloc(), &cluster, part(FIRST, 9), &[]);
    expect(&rt, &nowhere, &Ok(Some(StepFault::NoPart { parts: 1 })));
    let given = list_refusal(rt.alloc(), &cluster, part(FIRST, 0), &[N1, N1]);
    let twice = IdealFault::TwiceInList { part: 0, place: 1 };
    expect(&rt, &given, &Ok(Some(StepFault::Ideal(twice))));
    Ok(())
}

#[test]
fn a_map_is_refused_where_there_are_lists(rt: HostRuntime) -> Result<(), Fail> {
    let map = set_map(rt.alloc(), part(FIRST, 0), &[])?;
    let cluster = busy(rt.alloc())?;
    expect_fault(&rt, &cluster, &map, StepFault::WrongMode);
    Ok(())
}

#[test]
fn resets_are_refused(rt: HostRuntime) -> Result<(), Fail> {
    let cluster = busy(rt.alloc())?;
    let online = StepFault::NotError {
        state: Some(ONLINE),
    };
    let table = [
        (reset(N2, part(FIRST, 0)), StepFault::NotLive),
        (reset(N1, part(FIRST, 9)), StepFault::NoPart { parts: 1 }),
        (reset(N1, part(SECOND, 0)), online),
        (reset(N1, part(FIRST, 0)), StepFault::AlreadyAsked),
    ];
    expect_faults(&rt, &cluster, &table);
    Ok(())
}

/// Adds as many resources as there may be.
fn fill_up(cluster: &mut Cluster) -> Result<(), Fail> {
    for _number in 2..256 {
        add_resource(cluster, 1, ideal(Mode::Full, 1)?)?;
    }
    Ok(())
}

#[test]
fn a_cluster_has_at_most_256_resources(rt: HostRuntime) -> Result<(), Fail> {
    let step = add(2, ideal(Mode::Full, 1)?);
    let mut cluster = busy(rt.alloc())?;
    fill_up(&mut cluster)?;
    expect_fault(&rt, &cluster, &step, StepFault::TooMany);
    cluster.leader = None;
    let down = Admin::Lead { controller: C2 };
    expect_fault(&rt, &cluster, &down, StepFault::ControllerDown);
    Ok(())
}

/// What a step answers. One that may not be made counts as want of memory.
fn answer(cluster: &mut Cluster, step: &Admin) -> Result<Did, StepFault> {
    if cluster.is_in_range(step) && cluster.has_room() {
        cluster.admin(step)
    } else {
        Err(StepFault::OutOfMemory)
    }
}

fn expect_made(rt: &impl Abort, cluster: &mut Cluster, step: Admin) {
    assert!(rt; answer(cluster, &step).is_ok());
}

#[test]
fn steps_of_sessions_and_controllers_are_made(rt: HostRuntime) -> Result<(), Fail> {
    let mut cluster = opening(rt.alloc())?;
    expect_made(&rt, &mut cluster, Admin::Join { instance: N1 });
    expect_made(&rt, &mut cluster, Admin::Beat { instance: N1 });
    expect_made(&rt, &mut cluster, Admin::Drain { instance: N1 });
    expect_made(&rt, &mut cluster, Admin::Undrain { instance: N1 });
    expect_made(&rt, &mut cluster, Admin::End { instance: N1 });
    expect_made(&rt, &mut cluster, Admin::Lead { controller: C1 });
    expect_made(&rt, &mut cluster, Admin::Stop { controller: C1 });
    expect_made(&rt, &mut cluster, Admin::Start { controller: C1 });
    expect(&rt, &cluster.epoch, &Epoch(2));
    Ok(())
}

#[test]
fn a_list_is_set(rt: HostRuntime) -> Result<(), Fail> {
    let list = set_list(rt.alloc(), part(FIRST, 0), &[N2, N1])?;
    let mut cluster = opening(rt.alloc())?;
    expect_made(&rt, &mut cluster, list);
    Ok(())
}

#[test]
fn a_resource_is_added_and_its_map_is_set(rt: HostRuntime) -> Result<(), Fail> {
    let third = add(2, ideal(custom(rt.alloc())?, 1)?);
    let map = set_map(rt.alloc(), part(ResourceId(2), 0), &[(N1, ONLINE)])?;
    let mut cluster = opening(rt.alloc())?;
    expect_made(&rt, &mut cluster, Admin::Drop { resource: SECOND });
    expect_made(&rt, &mut cluster, third);
    expect_made(&rt, &mut cluster, map);
    Ok(())
}

#[test]
fn a_reset_is_asked_for(rt: HostRuntime) -> Result<(), Fail> {
    let mut cluster = opening(rt.alloc())?;
    cluster.live.push(live(S1, N1))?;
    cluster.rows.push(row(S1, part(FIRST, 0), ERROR))?;
    expect_made(&rt, &mut cluster, reset(N1, part(FIRST, 0)));
    Ok(())
}

#[test]
fn a_step_and_its_answer_are_cloned(rt: HostRuntime) -> Result<(), Fail> {
    let step = set_list(rt.alloc(), part(FIRST, 0), &[N2, N1])?;
    step.clone()?;
    Did::Ended(Seq::from_slice(rt.alloc(), &[S1])?).clone()?;
    Ok(())
}

/// Of two sessions that began together the first beats, and a tick ends the other one.
fn join_and_tick(rt: &impl Abort, cluster: &mut Cluster) {
    expect_made(rt, cluster, Admin::Join { instance: N1 });
    expect_made(rt, cluster, Admin::Join { instance: N2 });
    expect_made(rt, cluster, Admin::Tick { n: 29 });
    expect_made(rt, cluster, Admin::Beat { instance: N1 });
    expect_made(rt, cluster, Admin::Tick { n: 1 });
    expect(rt, &cluster.session_of(N2), &None);
}

#[test]
fn a_tick_ends_sessions_by_their_last_beat(rt: HostRuntime) -> Result<(), Fail> {
    let mut cluster = opening(rt.alloc())?;
    join_and_tick(&rt, &mut cluster);
    let ended = Did::Ended(Seq::from_slice(rt.alloc(), &[S1])?);
    expect(
        &rt,
        &answer(&mut cluster, &Admin::Tick { n: 29 }),
        &Ok(ended),
    );
    Ok(())
}

ghost use Rattle.std.specs.Prelude.{◌≡◌, IfOk, IsSome};
ghost use Rattle.hx_ideal.specs.IdealState.{lists_of, maps_of};

use crate::tests::fixtures::{N1, N2, N3, expect};
use hx_ideal::{Ideal, IdealFault, Mode};
use hx_ids::{InstanceId, StateId};
use hx_lists::Seq;
use std::alloc::{AllocError, Global};
use std::test::Fail;

const ONLINE: StateId = StateId(5);

const OFFLINE: StateId = StateId(4);

const OTHER: StateId = StateId(9);

fn semi(alloc: Global, lists: &[&[InstanceId]]) -> Result<Mode, AllocError>
    ensures { IfOk result (λ mode. IsSome (lists_of mode)) }
{
    let mut all = Seq::new(alloc);
    for list in lists {
        all.push(Seq::from_vec(Vec::from_slice(alloc, list)?))?;
    }
    Ok(Mode::Semi(all))
}

fn custom(alloc: Global, maps: &[&[(InstanceId, StateId)]]) -> Result<Mode, AllocError>
    ensures { IfOk result (λ mode. IsSome (maps_of mode)) }
{
    let mut all = Seq::new(alloc);
    for map in maps {
        all.push(Seq::from_vec(Vec::from_slice(alloc, map)?))?;
    }
    Ok(Mode::Custom(all))
}

#[test]
fn numbers_of_replicas_and_partitions_are_tested(rt: HostRuntime) -> Result<(), Fail> {
    let counted = IdealFault::PartCount {
        has: 1,
        wants: 1024,
    };
    for (replicas, parts, fault) in [
        (1, 1, None),
        (0, 0, Some(IdealFault::ZeroReplicas)),
        (65, 0, Some(IdealFault::TooManyReplicas)),
        (64, 0, Some(IdealFault::ZeroParts)),
        (64, 1025, Some(IdealFault::TooManyParts)),
        (64, 1024, Some(counted)),
    ] {
        let mode = semi(rt.alloc(), &[&[N1]])?;
        let made = Ideal::check(replicas, parts, mode, 3, &[ONLINE]);
        expect(&rt, &made.err(), &fault);
    }
    Ok(())
}

#[test]
fn entries_of_lists_are_tested(rt: HostRuntime) -> Result<(), Fail> {
    let table: [(&[InstanceId], IdealFault); 3] = [
        (&[N1, N3], IdealFault::UnknownInstance { part: 1, place: 1 }),
        (&[N1, N2, N1], IdealFault::TwiceInList { part: 1, place: 2 }),
        (&[N2, N2, N3], IdealFault::TwiceInList { part: 1, place: 1 }),
    ];
    for (list, fault) in table {
        let mode = semi(rt.alloc(), &[&[N1, N2], list])?;
        let made = Ideal::check(1, 2, mode, 2, &[ONLINE]);
        expect(&rt, &made.err(), &Some(fault));
    }
    Ok(())
}

#[test]
fn entries_of_maps_are_tested(rt: HostRuntime) -> Result<(), Fail> {
    let unknown_instance = IdealFault::UnknownInstance { part: 0, place: 0 };
    let unknown_state = IdealFault::UnknownState { part: 0, place: 1 };
    let twice = IdealFault::TwiceInList { part: 0, place: 1 };
    let table: [(&[(InstanceId, StateId)], IdealFault); 3] = [
        (&[(N3, OTHER)], unknown_instance),
        (&[(N1, ONLINE), (N1, OTHER)], unknown_state),
        (&[(N1, ONLINE), (N1, OFFLINE)], twice),
    ];
    for (map, fault) in table {
        let mode = custom(rt.alloc(), &[map])?;
        let made = Ideal::check(1, 1, mode, 2, &[ONLINE, OFFLINE]);
        expect(&rt, &made.err(), &Some(fault));
    }
    Ok(())
}

/// Two partitions in a mode.
fn two_parts(mode: Mode) -> Result<Ideal, IdealFault>
    ensures { IfOk result (λ ideal. (ideal.mode ≡ mode) × (ideal.parts ≡ 2)) }
{
    Ideal::check(1, 2, mode, 3, &[ONLINE])
}

#[test]
fn one_list_is_replaced(rt: HostRuntime) -> Result<(), Fail> {
    let mode = semi(rt.alloc(), &[&[N1], &[N2]])?;
    let mut ideal = two_parts(mode).ok().ok_or("a fault")?;
    let list = Vec::from_slice(rt.alloc(), &[N3, N1])?;
    expect(&rt, &ideal.set_list(1, list, 3), &Ok(()));
    Ok(())
}

#[test]
fn one_map_is_replaced(rt: HostRuntime) -> Result<(), Fail> {
    let mode = custom(rt.alloc(), &[&[], &[(N2, ONLINE)]])?;
    let mut ideal = two_parts(mode).ok().ok_or("a fault")?;
    let map = Vec::from_slice(rt.alloc(), &[(N3, ONLINE)])?;
    expect(&rt, &ideal.set_map(0, map, 3, &[ONLINE]), &Ok(()));
    Ok(())
}

//! Rows that a controller posts: who holds a part, and where a state of it is found.
ghost use Rattle.std.specs.Prelude.{◌≡◌};

use crate::tests::fixtures::expect;
use hx_cluster::Seen;
use hx_ids::{InstanceId, PartId, ResourceId, StateId};
use hx_xview::{ExternalView, Routing};
use std::alloc::{AllocError, Global};
use std::process::Abort;
use std::test::Fail;

const MASTER: StateId = StateId(2);

const SLAVE: StateId = StateId(3);

fn part(resource: u32, index: u32) -> PartId
    ensures { result ≡ record { resource = record { 0 = resource }; index = index } }
{
    PartId {
        resource: ResourceId(resource),
        index,
    }
}

fn seen(part: PartId, instance: u32, state: StateId) -> Seen
    ensures { result ≡ record { instance = record { 0 = instance }; part = part; state = state } }
{
    Seen {
        instance: InstanceId(instance),
        part,
        state,
    }
}

/// Each part has these holders.
fn expect_holders(
    rt: &impl Abort,
    view: &ExternalView,
    table: &[(PartId, &[(InstanceId, StateId)])],
) -> Result<(), AllocError> {
    for (part, wanted) in table {
        expect(rt, &view.holders(*part)?.as_slice(), wanted);
    }
    Ok(())
}

#[test]
fn holders_of_a_part_are_shown(rt: HostRuntime) -> Result<(), Fail> {
    let rows = [
        seen(part(0, 0), 0, MASTER),
        seen(part(0, 0), 2, SLAVE),
        seen(part(0, 7), 1, SLAVE),
    ];
    let view = ExternalView::new(Vec::from_array(rt.alloc(), rows)?);
    let table: [(PartId, &[(InstanceId, StateId)]); 3] = [
        (
            part(0, 0),
            &[(InstanceId(0), MASTER), (InstanceId(2), SLAVE)],
        ),
        (part(0, 7), &[(InstanceId(1), SLAVE)]),
        (part(1, 0), &[]),
    ];
    expect_holders(&rt, &view, &table)?;
    expect(&rt, &view.rows().len(), &3);
    Ok(())
}

/// Each part is found in a state on these instances.
fn expect_found(
    rt: &impl Abort,
    routing: &Routing,
    table: &[(PartId, StateId, &[InstanceId])],
) -> Result<(), AllocError> {
    for (part, state, wanted) in table {
        expect(rt, &routing.find(*part, *state)?.as_slice(), wanted);
    }
    Ok(())
}

/// A routing to which rows were applied, and then others, which are not in order of part.
fn applied(alloc: Global) -> Result<Routing, AllocError> {
    let mut routing = Routing::new(alloc);
    routing.apply(&[seen(part(0, 0), 0, MASTER)])?;
    routing.apply(&[
        seen(part(1, 0), 3, SLAVE),
        seen(part(0, 5), 4, SLAVE),
        seen(part(0, 5), 0, SLAVE),
        seen(part(0, 5), 1, MASTER),
    ])?;
    Ok(routing)
}

#[test]
fn a_routing_finds_in_the_rows_applied_last(rt: HostRuntime) -> Result<(), Fail> {
    let routing = applied(rt.alloc())?;
    let table: [(PartId, StateId, &[InstanceId]); 5] = [
        (part(0, 0), MASTER, &[]),
        (part(0, 5), SLAVE, &[InstanceId(4), InstanceId(0)]),
        (part(0, 5), MASTER, &[InstanceId(1)]),
        (part(1, 0), SLAVE, &[InstanceId(3)]),
        (part(1, 0), MASTER, &[]),
    ];
    expect_found(&rt, &routing, &table)?;
    Ok(())
}

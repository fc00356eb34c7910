ghost use Rattle.std.specs.Prelude.{◌≡◌, true, [], IfOk};
ghost use Rattle.hx_formed.specs.Wanted.{are_good_ideals};

use hx_cluster::{Ideals, Row, View};
use hx_formed::is_well_formed_beside;
use hx_ids::{InstanceId, PartId, ResourceId, SessionId};
use hx_lists::Seq;
use hx_model::ERROR;
use std::alloc::{AllocError, Global};
use std::test::Fail;

/// A session of the only instance, where there are no resources.
fn shown(alloc: Global) -> Result<View, AllocError>
    ensures { IfOk result (λ view. are_good_ideals [] 1 view.ideals ≡ true) }
{
    Ok(View {
        live: Seq::from_slice(alloc, &[(SessionId(1), InstanceId(0))])?,
        mail: Seq::new(alloc),
        rows: Seq::new(alloc),
        ideals: Ideals {
            resources: Seq::new(alloc),
            drained: Seq::from_slice(alloc, &[false])?,
            resets: Seq::new(alloc),
        },
    })
}

#[test]
fn rows_are_of_parts_that_there_are(rt: HostRuntime) -> Result<(), Fail> {
    let mut view = shown(rt.alloc())?;
    assert!(rt; is_well_formed_beside(rt.alloc(), &[], 1, &view)?);
    view.rows.push(Row {
        session: SessionId(1),
        part: PartId {
            resource: ResourceId(0),
            index: 0,
        },
        state: ERROR,
    })?;
    assert!(rt; !is_well_formed_beside(rt.alloc(), &[], 1, &view)?);
    Ok(())
}

use crate::tests::fixtures::expect;
use hx_counts::Counts;
use hx_ids::{PartId, ResourceId, StateId};
use std::test::Fail;

#[test]
fn ends_and_loads_are_counted(rt: HostRuntime) -> Result<(), Fail> {
    let mut counts = Counts::new(rt.alloc());
    let part = PartId {
        resource: ResourceId(1),
        index: 3,
    };
    counts.raise_end(part, StateId(2))?;
    counts.raise_load(1, 7)?;
    expect(&rt, &counts.count(part, StateId(2)), &1);
    expect(&rt, &counts.load(1, 7), &1);
    counts.lower_end(part, StateId(2));
    counts.lower_load(1, 7);
    Ok(())
}

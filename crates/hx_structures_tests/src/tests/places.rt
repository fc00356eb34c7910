use crate::tests::fixtures::expect;
use hx_place::round_robin;
use std::test::Fail;

#[test]
fn parts_take_instances_in_turn(rt: HostRuntime) -> Result<(), Fail> {
    let rows: [(u32, u32, u32, &str); 6] = [
        (3, 3, 2, "[[0, 1], [2, 0], [1, 2]]"),
        (5, 4, 3, "[[0, 1, 2], [3, 4, 0], [1, 2, 3], [4, 0, 1]]"),
        (2, 2, 3, "[[0, 1], [0, 1]]"),
        (4, 2, 0, "[[], []]"),
        (0, 2, 3, "[[], []]"),
        (4, 0, 2, "[]"),
    ];
    for (instances, parts, replicas, want) in rows {
        let lists = round_robin(rt.alloc(), instances, parts, replicas)?;
        let shown = format!(in rt.alloc(); "{lists:?}")?;
        expect(&rt, &shown.as_str(), &want);
    }
    Ok(())
}

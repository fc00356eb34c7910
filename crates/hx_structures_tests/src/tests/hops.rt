ghost use Rattle.std.specs.Prelude.{◌≡◌};

use crate::tests::fixtures::expect;
use crate::tests::models::{OFFLINE, P, Q, SWAP, SWAP_MOVES, checked};
use hx_hops::Hops;
use hx_model::{DROPPED, ERROR, Model};
use std::process::Abort;
use std::test::Fail;

fn expect_ways(rt: &impl Abort, model: &Model, hops: &Hops)
    requires { hops.now ≡ model.now }
{
    for (from, goal, dist, hop) in [
        (OFFLINE, P, 2, Some(Q)),
        (P, DROPPED, 3, Some(Q)),
        (ERROR, P, 3, Some(OFFLINE)),
        (P, P, 0, None),
    ] {
        assert!(rt; from == ERROR || model.has_state(from));
        assert!(rt; goal == DROPPED || model.has_state(goal));
        expect(rt, &hops.dist(from, goal), &dist);
        expect(rt, &hops.hop(from, goal), &hop);
    }
}

#[test]
fn ways_through_a_model_are_the_shortest(rt: HostRuntime) -> Result<(), Fail> {
    let made = checked(rt.alloc(), &SWAP, &SWAP_MOVES)?;
    let model = made.ok().ok_or("a fault")?;
    let hops = Hops::build(rt.alloc(), &model)?;
    expect_ways(&rt, &model, &hops);
    Ok(())
}

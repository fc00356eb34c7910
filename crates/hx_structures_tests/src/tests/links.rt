ghost use Rattle.std.specs.Prelude.{◌≡◌, []};

use crate::tests::fixtures::expect;
use hx_links::Pool;
use std::process::Abort;
use std::test::Fail;

/// Of two nodes the first becomes the last, and the other one leaves.
fn move_and_unlink(rt: &impl Abort, pool: &mut Pool<u32>) -> Result<(), Fail>
    requires { pool.old.lists ≡ [] }
{
    let list = pool.new_list()?;
    let one = pool.push_back(list, 1)?;
    let two = pool.push_back(list, 2)?;
    assert!(rt; pool.holds(one));
    pool.move_back(one);
    expect(rt, &pool.front(list), &Some(two));
    assert!(rt; pool.holds(two));
    expect(rt, &pool.next(two), &Some(one));
    expect(rt, &pool.unlink(two), &2);
    Ok(())
}

#[test]
fn a_node_leaves_and_another_comes_last(rt: HostRuntime) -> Result<(), Fail> {
    let mut pool = Pool::new(rt.alloc());
    move_and_unlink(&rt, &mut pool)
}

// A value that may not be dropped.
struct Receipt(u32);

#[test]
fn a_value_that_may_not_be_dropped_comes_back(rt: HostRuntime) {
    let mut pool = Pool::new(rt.alloc());
    let list = pool.new_list().expect(&rt, "a list");
    pool.reserve(1).expect(&rt, "room for a node");
    let node = pool.push_reserved(list, Receipt(7));
    assert!(rt; pool.holds(node));
    let Receipt(number) = pool.unlink(node);
    expect(&rt, &number, &7);
    pool.destroy_empty();
}

//! Each other call comes where there is memory.
use crate::tests::fixtures::{C1, SECOND, add_resource, expect, ideal, opening, part, seen};
use hx_calls::{
    Same, all_same, begin, forget_shown, no_ideals, nothing_shown, publish, read_ideals_over,
    reread_ideals,
};
use hx_cluster::{Cluster, Dispatched, Ideals, Placed};
use hx_ideal::Mode;
use hx_ids::PassNo;
use hx_lists::Seq;
use std::alloc::{AllocError, Global};
use std::process::Abort;
use std::test::Fail;

/// The ideals of a view that was forgotten.
fn forgotten(rt: &impl Abort, alloc: Global, cluster: &Cluster) -> Result<Ideals, AllocError> {
    let mut view = nothing_shown(alloc);
    view.ideals = read_ideals_over(cluster, no_ideals(alloc))?;
    let mut spare = no_ideals(alloc);
    assert!(rt; forget_shown(&mut view, &mut spare));
    assert!(rt; view.ideals.drained.is_empty());
    expect(rt, &spare.drained.len(), &3);
    Ok(spare)
}

fn expect_ideals(rt: &impl Abort, cluster: &Cluster, spare: Ideals) -> Result<(), AllocError> {
    let shown = read_ideals_over(cluster, spare)?;
    assert!(rt; shown.drained.same(&cluster.instances));
    assert!(rt; all_same(shown.resources.as_slice(), cluster.resources.as_slice()));
    Ok(())
}

fn add_third(cluster: &mut Cluster) -> Result<(), Fail> {
    let ideal = ideal(Mode::Full, 1)?;
    add_resource(cluster, 2, ideal)?;
    Ok(())
}

#[test]
fn ideals_are_read_over_earlier_ones(rt: HostRuntime) -> Result<(), Fail> {
    let mut cluster = opening(rt.alloc())?;
    let spare = forgotten(&rt, rt.alloc(), &cluster)?;
    add_third(&mut cluster)?;
    expect_ideals(&rt, &cluster, spare)?;
    Ok(())
}

fn expect_other_ideals(
    rt: &impl Abort,
    cluster: &mut Cluster,
    kept: &mut Ideals,
) -> Result<(), Fail> {
    assert!(rt; reread_ideals(cluster, kept)?);
    add_third(cluster)?;
    assert!(rt; !reread_ideals(cluster, kept)?);
    Ok(())
}

#[test]
fn ideals_are_the_same_until_one_is_added(rt: HostRuntime) -> Result<(), Fail> {
    let mut cluster = opening(rt.alloc())?;
    let mut kept = forgotten(&rt, rt.alloc(), &cluster)?;
    expect_other_ideals(&rt, &mut cluster, &mut kept)?;
    expect_ideals(&rt, &cluster, kept)?;
    Ok(())
}

#[test]
fn a_pass_begins_and_rows_are_posted(rt: HostRuntime) -> Result<(), Fail> {
    let mut cluster = opening(rt.alloc())?;
    assert!(rt; cluster.has_room());
    expect(&rt, &begin(&mut cluster, C1).pass, &PassNo(1));
    publish(&mut cluster, &[seen(part(SECOND, 0))])?;
    Ok(())
}

#[test]
fn an_answer_is_copied_into_room_for_it(rt: HostRuntime) -> Result<(), Fail> {
    let answer = Dispatched {
        change: 0,
        placed: Seq::from_slice(rt.alloc(), &[Placed::Ended])?,
    };
    let room = Vec::with_capacity(rt.alloc(), 1)?;
    expect(&rt, &answer.copied_into(room), &answer);
    Ok(())
}

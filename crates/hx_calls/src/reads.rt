//! What a controller is shown of the ideals, and copies of it.
ghost use Rattle.std.specs.Prelude.{◌≡◌, ◌+◌, ◌<◌, ◌≤◌, [], ◌∷◌, ◌++◌, length, take};
ghost use Rattle.std.specs.Prelude.{◌↔◌, IfOk, IsTrue, OnOk};
ghost use Rattle.hx_cluster.specs.Reads.{ideals_shown};

use crate::same::{Same, all_same};
use crate::shown::no_ideals;
use hx_cluster::{Cluster, Ideals, Resource};
use hx_ids::{PartId, SessionId};
use hx_lists::Seq;
use std::alloc::AllocError;
use std::mem;

/// The resources, the drained instances and the reset flags. What `kept` has in the same place is
/// kept, and takes no memory; the rest is copied.
pub fn read_ideals_over(cluster: &Cluster, kept: Ideals) -> Result<Ideals, AllocError>
    ensures { IfOk result (λ ideals. ideals ≡ ideals_shown cluster.now) }
{
    lists_over(
        cluster.resources.as_slice(),
        cluster.instances.as_slice(),
        cluster.resets.as_slice(),
        kept,
    )
}

/// Whether ideals are those of a cluster.
fn are_of(ideals: &Ideals, cluster: &Cluster) -> bool
    ensures { IsTrue result ↔ (ideals.now ≡ ideals_shown cluster.now) }
{
    ideals.resources.same(&cluster.resources)
        && ideals.drained.same(&cluster.instances)
        && ideals.resets.same(&cluster.resets)
}

/// Reads the resources, the drained instances and the reset flags over `kept`, and tells whether they
/// are as they were in it. What it has in the same place stays, and takes no memory; the rest is
/// copied.
pub fn reread_ideals(cluster: &Cluster, kept: &mut Ideals) -> Result<bool, AllocError>
    ensures same { IfOk result (λ same. IsTrue same ↔ (kept.old ≡ ideals_shown cluster.now)) }
    ensures shown { OnOk result (kept.new ≡ ideals_shown cluster.now) }
{
    if are_of(kept, cluster) {
        return Ok(true);
    }
    let none = no_ideals(kept.resources.allocator());
    let before = mem::replace(kept, none);
    *kept = read_ideals_over(cluster, before)?;
    Ok(false)
}

/// A copy of ideals. What `kept` has in the same place is kept, and takes no memory; the rest is
/// copied.
pub fn ideals_over(ideals: &Ideals, kept: Ideals) -> Result<Ideals, AllocError>
    ensures { IfOk result (λ over. over ≡ ideals.now) }
{
    lists_over(
        ideals.resources.as_slice(),
        ideals.drained.as_slice(),
        ideals.resets.as_slice(),
        kept,
    )
}

/// Ideals of these lists, each over the kept one.
fn lists_over(
    resources: &[Resource],
    drained: &[bool],
    resets: &[(SessionId, PartId)],
    kept: Ideals,
) -> Result<Ideals, AllocError>
    ensures { IfOk result (λ ideals.
        ideals
        ≡ record { resources = resources.now; drained = drained.now; resets = resets.now }) }
{
    let (kept_resources, kept_drained, kept_resets) = kept.into_parts();
    Ok(Ideals {
        resources: resources_over(resources, kept_resources)?,
        drained: copied_over(drained, kept_drained)?,
        resets: copied_over(resets, kept_resets)?,
    })
}

/// A list of these items: the kept one where it is the same, else a copy.
fn copied_over<T: Same + Copy>(items: &[T], kept: Seq<T>) -> Result<Seq<T>, AllocError>
    ensures { IfOk result (λ list. list ≡ items.now) }
{
    if all_same(items, kept.as_slice()) {
        return Ok(kept);
    }
    Seq::from_slice(kept.allocator(), items)
}

/// A list of these resources: each is the kept one in its place where that is the same, else a copy.
fn resources_over(
    resources: &[Resource],
    mut kept: Seq<Resource>,
) -> Result<Seq<Resource>, AllocError>
    ensures { IfOk result (λ list. list ≡ resources.now) }
{
    kept.reserve(resources.len().saturating_sub(kept.len()))?;
    for (place, resource) in resources.iter().enumerate() {
        put_over(&mut kept, place, resource)?;
    }
    kept.truncate(resources.len());
    Ok(kept)
}

/// Puts a copy of a resource in a place, or behind all, unless the same stands there.
fn put_over(kept: &mut Seq<Resource>, place: usize, resource: &Resource) -> Result<(), AllocError>
    requires { place ≤ length kept.old }
    ensures front { OnOk result
        (take (place + 1) kept.new ≡ take place kept.old ++ resource.now ∷ []) }
    ensures long { OnOk result (place < length kept.new) }
{
    match kept.get(place) {
        None => kept.push(resource.clone()?)?,
        Some(there) if there.same(resource) => {}
        Some(_) => kept.set(place, resource.clone()?),
    }
    Ok(())
}

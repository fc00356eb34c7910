//! The placement of a resource's parts on instances that take turns.
#![tactic(auto)]

ghost use Rattle.std.specs.Prelude.{◌≡◌, IfOk, map};
ghost use Rattle.hx_place.specs.RoundRobin as lists;

use std::alloc::{AllocError, Global};

/// The instances of a part, by their places among all.
fn list_of(alloc: Global, instances: u32, replicas: u32, part: u32) -> Result<Vec<u32>, AllocError>
    ensures { IfOk result (λ places.
        places.items ≡ lists.round_robin_list instances replicas part) }
{
    let k = replicas.min(instances);
    let start = u64::from(part) * u64::from(k);
    let mut places = Vec::with_capacity(alloc, k as usize)?;
    for j in 0..k {
        places.push(((start + u64::from(j)) % u64::from(instances)) as u32)?;
    }
    Ok(places)
}

/// For each part the instances that hold it, by their places among `instances` of them: as many as
/// there are replicas, or all, each part from where the one before it ended.
pub fn round_robin(
    alloc: Global,
    instances: u32,
    parts: u32,
    replicas: u32,
) -> Result<Vec<Vec<u32>>, AllocError>
    ensures { IfOk result (λ all.
        map (λ list. list.items) all.items ≡ lists.round_robin instances parts replicas) }
{
    let mut all = Vec::with_capacity(alloc, parts as usize)?;
    for part in 0..parts {
        all.push(list_of(alloc, instances, replicas, part)?)?;
    }
    Ok(all)
}

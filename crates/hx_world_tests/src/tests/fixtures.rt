//! The names of what stands in the worked descriptions.
ghost use Rattle.std.specs.Prelude.{IfSome};
ghost use Rattle.hx_cluster.specs.Valid.{IsValid};

use hx_cluster::Spec;
use hx_desc::read;
use hx_ids::{InstanceId, PartId, ResourceId, SessionId, StateId};
use std::alloc::Global;
use std::fmt::Debug;
use std::process::Abort;

pub const N1: InstanceId = InstanceId(0);

pub const N2: InstanceId = InstanceId(1);

pub const N3: InstanceId = InstanceId(2);

pub const S1: SessionId = SessionId(1);

pub const S2: SessionId = SessionId(2);

pub const S3: SessionId = SessionId(3);

pub const MASTER: StateId = StateId(2);

pub const SLAVE: StateId = StateId(3);

pub const OFFLINE: StateId = StateId(4);

pub const ONLINE: StateId = StateId(5);

pub const DB: ResourceId = ResourceId(0);

pub const DB0: PartId = PartId {
    resource: DB,
    index: 0,
};

/// What is found is what is wanted. Inline, an `assert_eq!` takes longer to prove.
pub fn expect<T: PartialEq + Debug>(rt: &impl Abort, found: &T, wanted: &T) {
    assert_eq!(rt; found, wanted);
}

pub fn part(resource: ResourceId, index: u32) -> PartId {
    PartId { resource, index }
}

/// A partition of `db`.
pub fn db(index: u32) -> PartId {
    part(DB, index)
}

/// A description, where the text is of one and memory is left.
fn spec_of(alloc: Global, text: &str) -> Option<Spec>
    ensures { IfSome result IsValid }
{
    read(alloc, text.as_bytes()).ok()
}

pub fn described(rt: &impl Abort, alloc: Global, text: &str) -> Spec
    ensures { IsValid result }
{
    let Some(spec) = spec_of(alloc, text) else {
        panic!(rt; "no description");
    };
    spec
}

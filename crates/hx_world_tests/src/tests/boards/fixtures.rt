//! A small board, and the names of what stands in it alone.
ghost use Rattle.std.specs.Prelude.{◌≡◌, true, nat_lt};
ghost use Rattle.hx_safe.specs.Ordered.{rises};
ghost use Rattle.hx_cluster.specs.Valid.{IsValid};

use crate::tests::fixtures::described;
use hx_board::Board;
use hx_cluster::Spec;
use hx_ids::{ControllerId, Epoch, MsgId, PassNo, ResourceId, SessionId};
use std::alloc::Global;
use std::process::Abort;

pub const C1: ControllerId = ControllerId(0);

pub const C2: ControllerId = ControllerId(1);

pub const S9: SessionId = SessionId(9);

pub const M1: MsgId = MsgId(1);

pub const M2: MsgId = MsgId(2);

pub const M9: MsgId = MsgId(9);

pub const E1: Epoch = Epoch(1);

pub const P1: PassNo = PassNo(1);

/// Its three partitions are placed by the controller.
pub const WEB: ResourceId = ResourceId(1);

/// Its one partition has a map.
pub const OLD: ResourceId = ResourceId(2);

/// Three instances, two controllers, three resources, and at most two messages to an instance. The
/// one partition of `db` has a list.
pub const SMALL: &str = r#"{"version":1,"controllers":2,"timeout":30,
"instances":["n1","n2","n3"],"throttles":[{"scope":"instance","limit":2}],"resources":[
{"name":"db","model":"MasterSlave","replicas":3,"partitions":1,"mode":"SEMI_AUTO",
"lists":[["n1","n2","n3"]]},
{"name":"web","model":"OnlineOffline","replicas":1,"partitions":3,"mode":"FULL_AUTO"},
{"name":"old","model":"OnlineOffline","replicas":1,"partitions":1,"mode":"CUSTOMIZED",
"maps":[[]]}]}
---
"#;

/// A board of a description, for a script with these lines.
pub fn opened(rt: &impl Abort, spec: &Spec, lines: Vec<u32>, limit: u32) -> Board
    requires valid { IsValid spec.now }
    requires lines { rises nat_lt lines.items ≡ true }
{
    let alloc = *lines.allocator();
    let Ok(board) = Board::new(alloc, spec, lines, u64::from(limit)) else {
        panic!(rt; "no memory");
    };
    board
}

fn copied(rt: &impl Abort, alloc: Global, lines: &[u32]) -> Vec<u32>
    ensures { result.items ≡ lines.now }
{
    let Ok(numbers) = Vec::from_slice(alloc, lines) else {
        panic!(rt; "no memory");
    };
    numbers
}

/// The numbers of a script's lines, of which there are at most two.
fn numbers(rt: &impl Abort, alloc: Global, lines: u32) -> Vec<u32>
    ensures { rises nat_lt result.items ≡ true }
{
    match lines {
        0 => copied(rt, alloc, &[]),
        1 => copied(rt, alloc, &[2]),
        _ => copied(rt, alloc, &[2, 5]),
    }
}

/// A board for a script of so many lines.
pub fn small(rt: &impl Abort, alloc: Global, lines: u32, limit: u32) -> Board {
    let spec = described(rt, alloc, SMALL);
    opened(rt, &spec, numbers(rt, alloc, lines), limit)
}

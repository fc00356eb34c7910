//! How a controller begins a pass, and what it posts.
ghost use Rattle.std.specs.Prelude.{◌≡◌, ℕ, ◌<◌, OnOk, OnErr};
ghost use Rattle.hx_cluster.specs.Reads.{pass_of};
ghost use Rattle.hx_cluster.specs.Events.{begun_of, next};
ghost use Rattle.hx_cluster.specs.Messages.{next_pass};
ghost use Rattle.hx_cluster.specs.Room.{half, HasRoom};

use hx_cluster::{Begun, Cluster, Event, Seen};
use hx_ids::{ControllerId, PassNo};
use hx_lists::Seq;
use std::alloc::AllocError;

/// Raises a controller's pass number by one.
pub fn raise_pass(cluster: &mut Cluster, controller: ControllerId)
    requires { (pass_of cluster.old controller).0 < half }
    ensures { cluster.new ≡ next_pass cluster.old controller }
{
    let place = controller.0 as usize;
    if let Some(entry) = cluster.controllers.get(place).copied() {
        cluster.set_controller(controller, (entry.0, PassNo(entry.1.0 + 1)));
    }
}

/// Begins a pass of a controller. It takes no memory.
#[tactic(auto, using(hx_cluster::proofs::Rooms::pass_has_room))]
pub fn begin(cluster: &mut Cluster, controller: ControllerId) -> Begun
    requires { HasRoom cluster.old }
    ensures begun { result ≡ begun_of cluster.old controller }
    ensures after { cluster.new ≡ next cluster.old (Event.Begin controller result) }
{
    let begun = Begun {
        epoch: cluster.epoch,
        pass: PassNo(cluster.pass_of(controller).0 + 1),
        change: cluster.change,
    };
    raise_pass(cluster, controller);
    begun
}

/// Puts rows in place of a list, in its room where that is enough. Where memory is refused the list
/// stays.
fn write_over(posted: &mut Vec<Seen>, rows: &[Seen]) -> Result<(), AllocError>
    ensures ok { OnOk result (posted.new.items ≡ rows.now) }
    ensures err { OnErr result (posted.new.items ≡ posted.old.items) }
{
    posted.reserve(rows.len().saturating_sub(posted.len()))?;
    posted.clear();
    posted.extend_from_slice(rows)
}

/// Posts rows in place of those that stand.
pub fn publish(cluster: &mut Cluster, rows: &[Seen]) -> Result<(), AllocError>
    ensures ok { OnOk result (cluster.new ≡ record cluster.old { posted = rows.now }) }
    ensures err { OnErr result (cluster.new ≡ cluster.old) }
{
    let mut posted = cluster.posted.take_all();
    let written = write_over(&mut posted, rows);
    cluster.posted = Seq::from_vec(posted);
    written
}

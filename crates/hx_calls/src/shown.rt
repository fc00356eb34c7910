//! What a turn was shown: nothing before its first read.
ghost use Rattle.std.specs.Prelude.{◌≡◌, false, IsTrue};
ghost use Rattle.hx_cluster.specs.Reads.{nothing_shown};

use hx_cluster::{Ideals, View};
use hx_lists::Seq;
use std::alloc::Global;
use std::mem;

/// No resources, no drained instances and no reset flags. It takes no memory.
pub fn no_ideals(alloc: Global) -> Ideals
    ensures { result ≡ nothing_shown.ideals }
{
    Ideals {
        resources: Seq::new(alloc),
        drained: Seq::new(alloc),
        resets: Seq::new(alloc),
    }
}

/// What a turn was shown before its first read. It takes no memory.
pub fn nothing_shown(alloc: Global) -> View
    ensures { result ≡ nothing_shown }
{
    View {
        live: Seq::new(alloc),
        mail: Seq::new(alloc),
        rows: Seq::new(alloc),
        ideals: no_ideals(alloc),
    }
}

/// Forgets what a turn was shown, and keeps the room of its messages and rows for the next. The
/// ideals that it read, if it did, become the spare ones, over which another turn may read; it tells
/// whether they did. It takes no memory.
pub fn forget_shown(view: &mut View, spare: &mut Ideals) -> bool
    ensures view { view.new ≡ nothing_shown }
    ensures spared { IsTrue result → spare.new ≡ view.old.ideals }
    ensures kept { result ≡ false → spare.new ≡ spare.old }
{
    let alloc = view.live.allocator();
    view.live = Seq::new(alloc);
    view.mail.truncate(0);
    view.rows.truncate(0);
    let ideals = mem::replace(&mut view.ideals, no_ideals(alloc));
    if ideals.drained.is_empty() {
        return false;
    }
    *spare = ideals;
    true
}

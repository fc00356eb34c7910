//! Room for what a history records: it is taken before the cluster changes.
ghost use Rattle.std.specs.Prelude.{◌≡◌, ◌≤◌, [], length, vec_capacity};

use crate::happenings::{Dispatched, Placed};
use hx_lists::Seq;

impl Dispatched {
    /// The same answer again, in room that was taken before the dispatch. It takes no memory.
    pub fn copied_into(&self, mut room: Vec<Placed>) -> Dispatched
        requires empty { room.items ≡ [] }
        requires room { length self.now.placed ≤ vec_capacity room }
        ensures { result ≡ self.now }
    {
        room.extend_from_slice(self.placed.as_slice()).unwrap();
        Dispatched {
            change: self.change,
            placed: Seq::from_vec(room),
        }
    }
}

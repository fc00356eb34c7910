//! Whether a board was made with some values. Nothing here takes memory.
ghost use Rattle.std.specs.Prelude.{◌≡◌, ◌↔◌, IsTrue};

use crate::board::Board;
use hx_calls::{Same, all_same};
use hx_cluster::Spec;

impl Board {
    /// Whether this is the board's description. It takes no memory.
    pub fn of_spec(&self, spec: &Spec) -> bool
        ensures { IsTrue result ↔ (self.now.spec ≡ spec.now) }
    {
        self.spec.same(spec)
    }

    /// Whether the board was made with this description, these numbers of lines and this limit. It
    /// takes no memory.
    pub fn same(&self, spec: &Spec, lines: &[u32], limit: u64) -> bool
        ensures { IsTrue result
            ↔ ((self.now.spec ≡ spec.now)
            × (self.now.lines ≡ lines.now)
            × (self.now.limit ≡ limit)) }
    {
        self.limit == limit && all_same(self.lines.as_slice(), lines) && self.of_spec(spec)
    }
}

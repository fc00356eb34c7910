//! The rows of a post, as a history keeps them.
ghost use Rattle.std.specs.Prelude.{◌≡◌, ◌↔◌, [], length, IsTrue};

use crate::Seen;
use hx_lists::Seq;
use std::marker::Model;
use std::snapshot::Snapshot;

/// The rows of a post. Contracts see them; nothing that runs reads more of them than how many there
/// are, so that number alone takes memory.
#[derive(Drop)]
pub struct PostedRows {
    count: usize,
    rows: Snapshot<Seq<Seen>>,
}

impl Model for PostedRows {
    ghost use Rattle.std.specs.Prelude.{◌≡◌, List, length};
    ghost use Rattle.hx_cluster.specs.declared.happenings.Seen.{Seen};

    ghost Value = { List Seen };

    ghost view = { λ a. a.rows.value };

    ghost invariant = { λ a. a.count ≡ length a.rows.value };
}

impl PostedRows {
    /// These rows. It takes no memory.
    pub fn of(rows: &Seq<Seen>) -> PostedRows
        ensures { result ≡ rows.now }
    {
        PostedRows {
            count: rows.len(),
            rows: Snapshot::of(rows),
        }
    }

    /// How many there are. It takes no memory.
    pub fn len(&self) -> usize
        ensures { result ≡ length self.now }
    {
        self.count
    }

    /// Whether there are none. It takes no memory.
    pub fn is_empty(&self) -> bool
        ensures { IsTrue result ↔ (self.now ≡ []) }
    {
        self.count == 0
    }
}

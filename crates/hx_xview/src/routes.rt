//! Which instances hold a part in a state, by the view that was applied last.
ghost use Rattle.std.specs.Prelude.{◌≡◌, [], IfOk, OnOk, OnErr, true};
ghost use Rattle.hx_xview.specs.Views.{is_view, routed, Shows};

use crate::parts::rows_of_part;
use hx_cluster::Seen;
use hx_ids::{InstanceId, PartId, StateId};
use std::alloc::{AllocError, Global};
use std::marker::Model;

/// The rows that were applied last, kept by part. Contracts see them as a list in that order.
#[derive(Drop)]
pub struct Routing {
    rows: Vec<Seen>,
}

impl Model for Routing {
    ghost use Rattle.std.specs.Prelude.{List};
    ghost use Rattle.hx_cluster.specs.declared.happenings.Seen.{Seen};
    ghost use Rattle.hx_xview.specs.Parts.{IsByPart};

    ghost Value = { List Seen };

    ghost view = { λ a. a.rows.items };

    ghost invariant = { λ a. IsByPart a.rows.items };
}

impl Routing {
    /// A routing that nothing was applied to yet.
    pub fn new(alloc: Global) -> Routing
        ensures { result ≡ [] }
    {
        Routing {
            rows: Vec::new(alloc),
        }
    }

    /// Puts other rows in the place of all that were applied before. For want of memory those
    /// stand.
    pub fn apply(&mut self, rows: &[Seen]) -> Result<(), AllocError>
        ensures shown { OnOk result (Shows self.new rows.now) }
        ensures view { OnOk result (is_view rows.now ≡ true → self.new ≡ rows.now) }
        ensures err { OnErr result (self.new ≡ self.old) }
    {
        let mut applied = Vec::from_slice(*self.rows.allocator(), rows)?;
        applied.sort_by_key(|row| row.part)?;
        self.rows = applied;
        Ok(())
    }

    /// The instances that hold a part in a state, in the order in which they were applied.
    pub fn find(&self, part: PartId, state: StateId) -> Result<Vec<InstanceId>, AllocError>
        ensures { IfOk result (λ instances. instances.items ≡ routed self.now part state) }
    {
        rows_of_part(self.rows.as_slice(), part)
            .iter()
            .copied()
            .filter(|row| row.state == state)
            .map(|row| row.instance)
            .collect(*self.rows.allocator())
    }
}

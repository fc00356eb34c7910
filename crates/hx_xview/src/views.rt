//! The external view.
ghost use Rattle.std.specs.Prelude.{◌≡◌, IfOk, true};
ghost use Rattle.hx_xview.specs.Views.{is_view, holders_of};

use crate::parts::rows_of_part;
use hx_cluster::Seen;
use hx_ids::{InstanceId, PartId, StateId};
use std::alloc::AllocError;
use std::marker::Model;

/// Which instance holds which part in which state. Contracts see it as its rows, by part, then
/// instance.
#[derive(Drop)]
pub struct ExternalView {
    rows: Vec<Seen>,
}

impl Model for ExternalView {
    ghost use Rattle.std.specs.Prelude.{◌≡◌, true, List};
    ghost use Rattle.hx_cluster.specs.declared.happenings.Seen.{Seen};
    ghost use Rattle.hx_xview.specs.Views.{is_view};

    ghost Value = { List Seen };

    ghost view = { λ a. a.rows.items };

    ghost invariant = { λ a. is_view a.rows.items ≡ true };
}

impl ExternalView {
    /// The view of rows that stand by part, then instance, one at most for each.
    pub fn new(rows: Vec<Seen>) -> ExternalView
        requires { is_view rows.items ≡ true }
        ensures { result ≡ rows.items }
    {
        ExternalView { rows }
    }

    /// The rows, by part, then instance.
    pub fn rows(&self) -> &[Seen]
        ensures rows { result.now ≡ self.now }
        ensures order { is_view self.now ≡ true }
    {
        self.rows.as_slice()
    }

    /// The instances that hold a part, each with its state.
    pub fn holders(&self, part: PartId) -> Result<Vec<(InstanceId, StateId)>, AllocError>
        ensures { IfOk result (λ holders. holders.items ≡ holders_of self.now part) }
    {
        rows_of_part(self.rows.as_slice(), part)
            .iter()
            .map(|row| (row.instance, row.state))
            .collect(*self.rows.allocator())
    }
}

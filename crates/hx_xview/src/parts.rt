//! Rows in order of part, and those of one part among them.
ghost use Rattle.std.specs.Prelude.{◌≡◌};
ghost use Rattle.hx_xview.specs.Views.{rows_of};
ghost use Rattle.hx_xview.specs.Parts.{IsByPart};

use hx_cluster::Seen;
use hx_ids::PartId;

/// The rows of a part, found by halving.
pub fn rows_of_part(rows: &[Seen], part: PartId) -> &[Seen]
    requires { IsByPart rows.now }
    ensures { result.now ≡ rows_of part rows.now }
{
    let start = rows.partition_point(|row| row.part < part);
    let behind = &rows[start..];
    let len = behind.partition_point(|row| row.part <= part);
    &behind[..len]
}

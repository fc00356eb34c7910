//! Parts as numbers, by which they are compared in fewer steps than by resource and index. Nothing
//! here takes memory.
ghost use Rattle.std.specs.Prelude.{◌≡◌, ◌+◌, ◌*◌, ◌^◌, IsTrue};

use hx_ids::PartId;

/// A part as one number.
fn part_number(part: PartId) -> u64
    ensures { result ≡ part.resource.0 + part.index * 2 ^ 32 }
{
    part.resource.0 as u64 + part.index as u64 * 0x1_0000_0000
}

/// Whether two parts are the same.
#[tactic(auto, using(crate::proofs::PartNumbers::same_part))]
pub fn is_same_part(part: PartId, other: PartId) -> bool
    ensures { IsTrue result → part ≡ other }
{
    part_number(part) == part_number(other)
}

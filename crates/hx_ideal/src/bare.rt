//! Modes whose lists or maps are empty.
ghost use Rattle.std.specs.Prelude.{◌≡◌, [], replicate, IfOk};
ghost use Rattle.hx_ideal.specs.ModeKinds.{bare_of};

use crate::{Mode, ModeKind};
use hx_lists::Seq;
use std::alloc::{AllocError, Global};

/// So many empty lists.
fn empty_lists<T: Drop>(alloc: Global, count: u32) -> Result<Seq<Seq<T>>, AllocError>
    ensures { IfOk result (λ lists. lists ≡ replicate count []) }
{
    let mut lists = Vec::with_capacity(alloc, count as usize)?;
    for _made in 0..count {
        lists.push_reserved(Seq::new(alloc));
    }
    Ok(Seq::from_vec(lists))
}

impl Mode {
    /// A mode of a kind, with an empty list or map for each of so many partitions.
    pub fn bare(alloc: Global, kind: ModeKind, parts: u32) -> Result<Mode, AllocError>
        ensures { IfOk result (λ mode. mode ≡ bare_of kind parts) }
    {
        Ok(match kind {
            ModeKind::FullAuto => Mode::Full,
            ModeKind::SemiAuto => Mode::Semi(empty_lists(alloc, parts)?),
            ModeKind::Customized => Mode::Custom(empty_lists(alloc, parts)?),
        })
    }
}

//! Whether a part may be marked, by the last byte of its index.
ghost use Rattle.std.specs.Prelude.{◌≡◌, ◌%◌, ◌==◌, ℕ, false, slice_index_or};

/// Whether a part with an index may be marked.
#[inline(always)]
pub fn has_hint(hints: &[bool; 256], index: u32) -> bool
    ensures { result ≡ slice_index_or hints.now (index % 256) false }
{
    hints[(index % 256) as usize]
}

/// Notes that a part with an index may be marked.
pub fn set_hint(hints: &mut [bool; 256], index: u32)
    ensures { (j : ℕ) → slice_index_or hints.new j false ≡ false
        → ((j == index % 256) ≡ false) × (slice_index_or hints.old j false ≡ false) }
{
    hints[(index % 256) as usize] = true;
}

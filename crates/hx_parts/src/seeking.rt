//! Marked cells, found one after another.
ghost use Rattle.std.specs.Prelude.{◌≡◌, ◌+◌, ◌<◌, ◌≤◌, ℕ, false, true, IsTrue, length, slice_index_or};

/// Whether neither a place nor one of the seven behind it is marked.
fn are_eight_free(cells: &[bool], place: usize) -> bool
    requires { place + 8 ≤ length cells.now }
    ensures { IsTrue result
        → (k : ℕ) → place ≤ k → k < place + 8 → slice_index_or cells.now k false ≡ false }
{
    let front = cells[place] | cells[place + 1] | cells[place + 2] | cells[place + 3];
    let rest = cells[place + 4] | cells[place + 5] | cells[place + 6] | cells[place + 7];
    !(front | rest)
}

/// The first marked place from one on; behind the last one where there is none. Eight are gone over
/// at a time, since most aren't marked.
pub fn next_marked(cells: &[bool], from: usize) -> usize
    ensures behind { from ≤ result }
    ensures skipped { (k : ℕ) → from ≤ k → k < result → slice_index_or cells.now k false ≡ false }
    ensures found { result < length cells.now → slice_index_or cells.now result false ≡ true }
{
    let mut place = from;
    while place < cells.len() && cells.len() - place >= 8 && are_eight_free(cells, place) {
        place += 8;
    }
    while place < cells.len() && !cells[place] {
        place += 1;
    }
    place
}

//! The items of marked parts.
ghost use Rattle.std.specs.Prelude.{◌≡◌, ◌+◌, ◌<◌, ◌≤◌, Bool, List, filter, length, take};
ghost use Rattle.std.specs.Prelude.{IsTrue, OnOk};
ghost use Rattle.hx_parts.specs.Marks.{AreHints, is_marked};

use crate::OfPart;
use crate::hints::has_hint;
use crate::marks::Marks;
use hx_lists::Seq;
use std::alloc::AllocError;

/// Whether the part of the item in a place isn't marked, by its index alone.
fn is_unmarked_at<T: OfPart>(items: &[T], place: usize, hints: &[bool; 256]) -> bool
    requires { place < length items.now }
    ensures { IsTrue result → (marks : List (List Bool)) → AreHints marks hints.now
        → filter (λ x. is_marked marks (T.part_of x)) (take (place + 1) items.now)
        ≡ filter (λ x. is_marked marks (T.part_of x)) (take place items.now) }
{
    !has_hint(hints, items[place].part().index)
}

/// The place behind the items, from one on, that are of parts with no hint that they are marked.
/// Four are gone over at a time, since most are.
fn behind_unmarked<T: OfPart>(items: &[T], from: usize, marks: &Marks) -> usize
    requires { from ≤ length items.now }
    ensures above { from ≤ result }
    ensures fits { result ≤ length items.now }
    ensures none { filter (λ x. is_marked marks.now (T.part_of x)) (take result items.now)
        ≡ filter (λ x. is_marked marks.now (T.part_of x)) (take from items.now) }
{
    let hints = marks.hints();
    let mut place = from;
    while items.len() - place >= 4
        && is_unmarked_at(items, place, hints)
        && is_unmarked_at(items, place + 1, hints)
        && is_unmarked_at(items, place + 2, hints)
        && is_unmarked_at(items, place + 3, hints)
    {
        place += 4;
    }
    while place < items.len() && is_unmarked_at(items, place, hints) {
        place += 1;
    }
    place
}

/// Puts the items of marked parts in the place of what a list has, whose memory serves again.
pub fn keep_marked<T: OfPart>(
    list: &mut Seq<T>,
    items: &[T],
    marks: &Marks,
) -> Result<(), AllocError>
    ensures { OnOk result (list.new ≡ filter (λ x. is_marked marks.now (T.part_of x)) items.now) }
{
    list.truncate(0);
    let mut place = 0;
    while place < items.len() {
        let item = items[place];
        if marks.has(item.part()) {
            list.push(item)?;
        }
        place = behind_unmarked(items, place + 1, marks);
    }
    Ok(())
}

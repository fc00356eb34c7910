//! The parts of which two lists have other items.
ghost use Rattle.std.specs.Prelude.{◌≡◌, ◌+◌, ◌<◌, ◌≤◌, [], false, take, length, IsTrue};
ghost use Rattle.hx_ids.specs.declared.PartId.{PartId};
ghost use Rattle.hx_parts.specs.Parts.{items_at};
ghost use Rattle.hx_parts.specs.Marks.{is_marked};

use crate::OfPart;
use crate::marks::Marks;
use hx_cluster::{Message, Row, is_same_part};
use hx_ids::SessionId;

/// What a list has of sessions one after another. Where an item stands among those of its session
/// is what `comes_before` says; only speed depends on it.
pub trait Listed: OfPart {
    fn session(&self) -> SessionId;

    fn same(&self, other: &Self) -> bool
        ensures { IsTrue result → self.now ≡ other.now };

    fn comes_before(&self, other: &Self) -> bool;
}

/// Whether an item is gone over before another one, where those of a session were gone over last.
fn is_first<T: Listed>(item: &T, other: &T, last: SessionId) -> bool {
    if item.session() == other.session() {
        item.comes_before(other)
    } else {
        item.session() == last
    }
}

/// Adds the part of each item to a set. It says no where the set has no room for one of these.
fn mark_all<T: Listed>(marks: &mut Marks, items: &[T]) -> bool
    ensures { IsTrue result → (p : PartId) → is_marked marks.new p ≡ false
        → (is_marked marks.old p ≡ false) × (items_at T.part_of p items.now ≡ []) }
{
    for item in items {
        if !marks.mark(item.part()) {
            return false;
        }
    }
    true
}

/// Whether two lists have the same item in a place.
fn is_same_at<T: Listed>(old: &[T], new: &[T], place: usize) -> bool
    requires old { place < length old.now }
    requires new { place < length new.now }
    ensures { IsTrue result → take place old.now ≡ take place new.now
        → take (place + 1) old.now ≡ take (place + 1) new.now }
{
    old[place].same(&new[place])
}

/// How many items at the front of two lists are the same. Four are gone over at a time, since most
/// are.
fn same_front<T: Listed>(old: &[T], new: &[T]) -> usize
    ensures old { result ≤ length old.now }
    ensures new { result ≤ length new.now }
    ensures same { take result old.now ≡ take result new.now }
{
    let most = old.len().min(new.len());
    let mut from = 0;
    while most - from >= 4
        && is_same_at(old, new, from)
        && is_same_at(old, new, from + 1)
        && is_same_at(old, new, from + 2)
        && is_same_at(old, new, from + 3)
    {
        from += 4;
    }
    for place in from..most {
        if !is_same_at(old, new, place) {
            return place;
        }
    }
    most
}

/// Adds to a set the parts of which two lists have other items, and perhaps others. It says no
/// where the set has no room for one of these; what is in the set then doesn't matter. It takes no
/// memory.
pub fn mark_changes<T: Listed>(marks: &mut Marks, old: &[T], new: &[T]) -> bool
    ensures { IsTrue result → (p : PartId) → is_marked marks.new p ≡ false
        → (is_marked marks.old p ≡ false)
        × (items_at T.part_of p old.now ≡ items_at T.part_of p new.now) }
{
    let mut last = SessionId(0);
    let mut old = old;
    let mut new = new;
    while let ([item, olds @ ..], [other, news @ ..]) = (old, new) {
        let same = same_front(old, new);
        if same > 0 {
            last = old[same - 1].session();
            old = &old[same..];
            new = &new[same..];
        } else if is_first(item, other, last) {
            last = item.session();
            if !marks.mark(item.part()) {
                return false;
            }
            old = olds;
        } else {
            last = other.session();
            if !marks.mark(other.part()) {
                return false;
            }
            new = news;
        }
    }
    mark_all(marks, old) && mark_all(marks, new)
}

impl Listed for Row {
    fn session(&self) -> SessionId {
        self.session
    }

    fn same(&self, other: &Row) -> bool {
        self.session == other.session
            && is_same_part(self.part, other.part)
            && self.state == other.state
    }

    fn comes_before(&self, other: &Row) -> bool {
        self.part < other.part
    }
}

impl Listed for Message {
    fn session(&self) -> SessionId {
        self.session
    }

    fn same(&self, other: &Message) -> bool {
        *self == *other
    }

    fn comes_before(&self, other: &Message) -> bool {
        self.id < other.id
    }
}

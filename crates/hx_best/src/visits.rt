//! The shown sessions that are gone over for a part.
ghost use Rattle.std.specs.Prelude.{◌≡◌, ℕ, ◌<◌, ◌≤◌, ◌==◌, [], true, false, length, nat_lt, OnOk};
ghost use Rattle.std.specs.List.Sorted.{IsPartitionPoint};
ghost use Rattle.hx_best.specs.Visits.{Adds, rises};

use crate::marks::Mark;
use std::alloc::{AllocError, Global};
use std::marker::Model;

/// A shown session, by its number in order of instance, and the mark of its instance, if the part is
/// wanted there.
#[derive(Clone, Copy, PartialEq, Eq)]
pub struct Visit {
    pub number: usize,
    pub mark: Option<Mark>,
}

/// Visits in order of number, one of each at most. Contracts see them as a list.
#[derive(Drop)]
pub struct Visits {
    visits: Vec<Visit>,
}

impl Model for Visits {
    ghost use Rattle.std.specs.Prelude.{◌≡◌, List, true};
    ghost use Rattle.hx_best.specs.declared.visits.Visit.{Visit};
    ghost use Rattle.hx_best.specs.Visits.{rises};

    ghost Value = { List Visit };

    ghost view = { λ x. x.visits.items };

    ghost invariant = { λ x. rises 0 x.visits.items ≡ true };
}

impl Visits {
    /// No visits.
    pub fn new(alloc: Global) -> Visits
        ensures { result ≡ [] }
    {
        Visits {
            visits: Vec::new(alloc),
        }
    }

    /// Leaves no visits.
    pub fn clear(&mut self)
        ensures { self.new ≡ [] }
    {
        self.visits.clear();
    }

    /// The visits.
    pub fn as_slice(&self) -> &[Visit]
        ensures same { result.now ≡ self.now }
        ensures rising { rises 0 self.now ≡ true }
    {
        self.visits.as_slice()
    }

    /// Adds a visit. Where its session is visited already, the mark stays that it has.
    #[inline(always)]
    pub fn add(&mut self, visit: Visit) -> Result<(), AllocError>
        ensures { (n : ℕ) → visit.number < n
            → OnOk result (Adds n (λ k. k == visit.number) visit.mark self.old self.new) }
    {
        let place = place_of(self.visits.as_slice(), visit.number);
        if place == self.visits.len() {
            self.visits.push(visit)?;
        } else if self.visits[place].number == visit.number {
            let mark = self.visits[place].mark.or(visit.mark);
            self.visits[place] = Visit { mark, ..visit };
        } else {
            self.visits.insert(place, visit)?;
        }
        Ok(())
    }
}

/// How many visits have lower numbers. It is mostly all of them.
fn place_of(visits: &[Visit], number: usize) -> usize
    requires { rises 0 visits.now ≡ true }
    ensures within { result ≤ length visits.now }
    ensures point { IsPartitionPoint (λ v. nat_lt v.number number ≡ true)
        (λ v. nat_lt v.number number ≡ false) visits.now result }
{
    match visits.last() {
        Some(last) if last.number >= number => visits.partition_point(|v| v.number < number),
        _ => visits.len(),
    }
}

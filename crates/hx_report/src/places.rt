//! Where what is said of a session's part stands in a list.
ghost use Rattle.std.specs.Prelude.{◌≡◌, IfOk, find, option_copied};
ghost use Rattle.hx_report.specs.Places.{ArePlaces, is_for};

use hx_cluster::{Candidate, Full, Held};
use hx_ids::{PartId, SessionId};
use std::alloc::{AllocError, Global};
use std::collections::BTreeMap;

/// What is said of a candidate.
pub trait OfCandidate {
    ghost use Rattle.hx_cluster.specs.declared.planning.Candidate.{Candidate};

    ghost candidate_of: { Self → Candidate };

    /// The candidate.
    fn candidate(&self) -> Candidate
        ensures { result ≡ candidate_of self.now };
}

impl OfCandidate for Candidate {
    ghost candidate_of = { λ candidate. candidate };

    fn candidate(&self) -> Candidate {
        *self
    }
}

impl OfCandidate for Held {
    ghost candidate_of = { λ held. held.candidate };

    fn candidate(&self) -> Candidate {
        self.candidate
    }
}

impl OfCandidate for Full {
    ghost candidate_of = { λ full. full.candidate };

    fn candidate(&self) -> Candidate {
        self.candidate
    }
}

/// For each session's part the place of the first item that is said of it.
pub fn first_places<T: OfCandidate>(
    alloc: Global,
    items: &[T],
) -> Result<BTreeMap<(SessionId, PartId), usize>, AllocError>
    ensures { IfOk result (ArePlaces T.candidate_of items.now) }
{
    let mut places = BTreeMap::new(alloc);
    for (place, item) in items.iter().enumerate() {
        let candidate = item.candidate();
        let replica = (candidate.session, candidate.part);
        if !places.contains_key(&replica) {
            places.insert(replica, place)?;
        }
    }
    Ok(places)
}

/// The first item that is said of a session's part.
pub fn first_of<'a, T: OfCandidate>(
    items: &'a [T],
    places: &BTreeMap<(SessionId, PartId), usize>,
    session: SessionId,
    part: PartId,
) -> Option<&'a T>
    ensures { ArePlaces T.candidate_of items.now places.now
        → option_copied result
        ≡ find (λ x. is_for session part (T.candidate_of x)) items.now }
{
    match places.get(&(session, part)).copied() {
        Some(place) => items.get(place),
        None => None,
    }
}

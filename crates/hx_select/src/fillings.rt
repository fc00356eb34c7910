//! How many sessions take room in each state of a part, and which were accepted for it.
ghost use Rattle.std.specs.Prelude.{◌≡◌, ◌^◌, ◌-◌, ◌<◌, true, [], ◌∷◌, ◌++◌, List, filter, is_some};
ghost use Rattle.std.specs.Prelude.{IfOk, OnOk, None, Some, if◌then◌else◌};
ghost use Rattle.hx_lists.specs.Choices.{with_chosen};
ghost use Rattle.hx_model.specs.declared.ModelParts.{ModelParts};
ghost use Rattle.hx_cluster.specs.declared.planning.View.{View};
ghost use Rattle.hx_cluster.specs.declared.planning.Candidate.{Candidate};
ghost use Rattle.hx_select.specs.Fillings.{AreFillings, limit_in, filling_in};
ghost use Rattle.hx_select.specs.Selection.{has_room, full, holds, shown_sessions};

use hx_cluster::{Candidate, Full};
use hx_ids::{PartId, SessionId, StateId};
use hx_lists::Seq;
use hx_parts::ViewIndex;
use std::alloc::{AllocError, Global};
use std::collections::{BTreeMap, BTreeSet};

/// What takes room in the limited states of parts.
pub struct Fillings {
    alloc: Global,
    /// How many have the state among their ends or were accepted for it, once it was asked for.
    counts: BTreeMap<(PartId, StateId), u32>,
    /// Who was accepted for it.
    taken: BTreeSet<(PartId, StateId, SessionId)>,
}

// A derived drop is written out, field by field, wherever one is dropped; this is a call.
impl Drop for Fillings {
    fn drop(self) {
        let Fillings {
            alloc: _,
            counts: _,
            taken: _,
        } = self;
    }
}

impl Fillings {
    /// Nobody was accepted.
    pub fn new(alloc: Global) -> Fillings
        ensures { (models : List ModelParts) (view : View)
            → AreFillings models view [] result.counts result.taken }
    {
        Fillings {
            alloc,
            counts: BTreeMap::new(alloc),
            taken: BTreeSet::new(alloc),
        }
    }

    /// How many take room in a limited state. The view is asked once for each.
    fn count(&mut self, index: &ViewIndex, part: PartId, state: StateId) -> Result<u32, AllocError>
        ensures count { (models : List ModelParts) (accepted : List Candidate)
            → AreFillings models index.now accepted self.old.counts self.old.taken
            → is_some (limit_in models index.now part state) ≡ true
            → IfOk result (λ n. n ≡ filling_in index.now accepted part state) }
        ensures kept { (models : List ModelParts) (accepted : List Candidate)
            → AreFillings models index.now accepted self.old.counts self.old.taken
            → OnOk result (AreFillings models index.now accepted self.new.counts self.new.taken) }
    {
        match self.counts.get(&(part, state)).copied() {
            Some(count) => Ok(count),
            None => {
                let count = index.count_of(part, state);
                self.counts.insert((part, state), count)?;
                Ok(count)
            }
        }
    }

    /// Accepts a candidate for a state in which so many take room.
    fn accept(&mut self, candidate: &Candidate, count: u32) -> Result<(), AllocError>
        requires { count < 2 ^ 32 - 1 }
        ensures { (models : List ModelParts) (view : View) (accepted : List Candidate)
            → AreFillings models view accepted self.old.counts self.old.taken
            → count ≡ filling_in view accepted candidate.now.part candidate.now.to
            → OnOk result (AreFillings models view (accepted ++ candidate.now ∷ [])
            self.new.counts self.new.taken) }
    {
        let Candidate {
            session,
            part,
            to,
            ..
        } = *candidate;
        self.counts.insert((part, to), count + 1)?;
        self.taken.insert((part, to, session))?;
        Ok(())
    }

    /// Whether a session takes room in a candidate's state.
    fn holds(&self, index: &ViewIndex, candidate: &Candidate, session: SessionId) -> bool
        ensures { (models : List ModelParts) (accepted : List Candidate)
            → AreFillings models index.now accepted self.now.counts self.now.taken
            → is_some (limit_in models index.now candidate.now.part candidate.now.to) ≡ true
            → result ≡ holds index.now accepted candidate.now session }
    {
        let Candidate { part, to, .. } = *candidate;
        index.has_end(part, to, session) || self.taken.contains(&(part, to, session))
    }

    /// The sessions that take room in a candidate's state.
    fn holders(
        &self,
        index: &ViewIndex,
        candidate: &Candidate,
    ) -> Result<Seq<SessionId>, AllocError>
        ensures { (models : List ModelParts) (accepted : List Candidate)
            → AreFillings models index.now accepted self.now.counts self.now.taken
            → is_some (limit_in models index.now candidate.now.part candidate.now.to) ≡ true
            → IfOk result (λ holders. holders
            ≡ filter (holds index.now accepted candidate.now) (shown_sessions index.now)) }
    {
        let mut holders = Seq::new(self.alloc);
        for entry in index.view().live.as_slice() {
            if self.holds(index, candidate, entry.0) {
                holders.push(entry.0)?;
            }
        }
        Ok(holders)
    }

    /// Accepts a candidate where its state has room below its limit, and else says who takes it.
    pub fn judge(
        &mut self,
        index: &ViewIndex,
        candidate: &Candidate,
        limit: Option<u32>,
    ) -> Result<Option<Full>, AllocError>
        ensures answer { (models : List ModelParts) (accepted : List Candidate)
            → AreFillings models index.now accepted self.old.counts self.old.taken
            → limit ≡ limit_in models index.now candidate.now.part candidate.now.to
            → IfOk result (λ answer. answer
            ≡ (if has_room models index.now accepted candidate.now then None
            else Some (full models index.now accepted candidate.now))) }
        ensures kept { (models : List ModelParts) (accepted : List Candidate)
            → AreFillings models index.now accepted self.old.counts self.old.taken
            → limit ≡ limit_in models index.now candidate.now.part candidate.now.to
            → OnOk result (AreFillings models index.now
            (with_chosen (has_room models index.now) accepted candidate.now)
            self.new.counts self.new.taken) }
    {
        let Some(bound) = limit else {
            return Ok(None);
        };
        let count = self.count(index, candidate.part, candidate.to)?;
        if count < bound {
            self.accept(candidate, count)?;
            return Ok(None);
        }
        Ok(Some(Full {
            candidate: *candidate,
            count,
            bound,
            holders: self.holders(index, candidate)?,
        }))
    }
}

//! What is known of a view.
ghost use Rattle.std.specs.Prelude.{◌≡◌, ℕ, List, [], true, false, length};
ghost use Rattle.std.specs.Prelude.{IfOk, IsTrue, MatchOption};
ghost use Rattle.std.specs.List.{list_any};
ghost use Rattle.hx_ids.specs.declared.PartId.{PartId};
ghost use Rattle.hx_model.specs.declared.ModelParts.{ModelParts};
ghost use Rattle.hx_cluster.specs.declared.planning.View.{View};
ghost use Rattle.hx_cluster.specs.Ends.{part_eq};
ghost use Rattle.hx_cluster.specs.Views.{is_well_formed};
ghost use Rattle.hx_formed.specs.Wanted.{are_good_ideals};
ghost use Rattle.hx_pass.specs.Plans.{all_candidates};
ghost use Rattle.hx_pass.specs.Turns.{posted_of};
ghost use Rattle.hx_gen.specs.Modelled.{has_models};
ghost use Rattle.hx_parts.specs.Parts.{IsByPart};
ghost use Rattle.hx_parts.specs.Marks.{are_rising, is_marked, IsSpliced};
ghost use Rattle.hx_pass.specs.Local.{IsAlike, ShowSame, DifferWithin};
ghost use Rattle.hx_pass.specs.Local.{accepted_in, narrowed as narrowed_of};
ghost use Rattle.hx_pass.specs.Known.{IsKnown, IsKnownOf, IsKnownAs};

use crate::choices::Choice;
use crate::kept::Kept;
use crate::narrow::found_among;
use crate::{choose, posted as posted_rows};
use hx_calls::Same;
use hx_cluster::{Candidate, Seen, Spec, View};
use hx_formed::{is_well_formed, is_well_formed_beside};
use hx_hops::Hops;
use hx_ids::PartId;
use hx_lists::Seq;
use hx_model::Model;
use hx_parts::{Marks, splice};
use std::alloc::{AllocError, Global};
use std::marker;

/// A description, with the hops of its models.
#[derive(Drop)]
pub(crate) struct Described<'a> {
    pub spec: &'a Spec,
    pub hops: &'a [Hops],
    ghost hops_are: { hops.now ≡ spec.now.models },
}

/// What a pass finds of a view: the accepted candidates, those that may be left, and the rows to
/// post.
struct Lists {
    accepted: Seq<Candidate>,
    waiting: Vec<Candidate>,
    posted: Vec<Seen>,
}

// A derived drop is written out, field by field, wherever one is dropped; this is a call.
impl Drop for Lists {
    fn drop(self) {
        let Lists {
            accepted: _,
            waiting: _,
            posted: _,
        } = self;
    }
}

/// A view that is well formed with the models and the number of instances of a description, and
/// what a pass finds of it. Contracts see the first three.
pub(crate) struct Known {
    models: Seq<Model>,
    instances: usize,
    view: Kept,
    lists: Lists,
}

// This is a call, too.
impl Drop for Known {
    fn drop(self) {
        let Known {
            models: _,
            instances: _,
            view: _,
            lists: _,
        } = self;
    }
}

impl marker::Model for Known {
    ghost use Rattle.hx_pass.specs.Known.{Knowing, IsKnown};

    ghost Value = { Knowing };

    ghost view = { λ a. record { models = a.models; instances = a.instances; view = a.view } };

    ghost invariant = { λ a.
        IsKnown a.models a.instances a.view
        a.lists.accepted a.lists.waiting.items a.lists.posted.items };
}

/// Candidates in order of part, where those of some parts give way to new ones. It costs nothing
/// where there are none.
fn splice_few(
    alloc: Global,
    old: &[Candidate],
    parts: &[PartId],
    new: &[Candidate],
) -> Result<Vec<Candidate>, AllocError>
    requires old { IsByPart (λ c. c.part) old.now }
    requires new { IsByPart (λ c. c.part) new.now }
    requires rising { are_rising parts.now ≡ true }
    ensures { IfOk result (λ out.
        IsSpliced (λ c. c.part) (λ p. list_any (part_eq p) parts.now) old.now new.now out.items) }
{
    if old.is_empty() && new.is_empty() {
        return Ok(Vec::new(alloc));
    }
    splice(alloc, old, parts, new)
}

impl Lists {
    /// The lists of a view, if it is well formed with a description.
    fn of(alloc: Global, described: &Described, view: &View) -> Result<Option<Lists>, AllocError>
        ensures { IfOk result (λ lists. MatchOption lists
            (is_well_formed described.now.spec.now.models (length described.now.spec.now.instances)
            view.now ≡ false) (λ l.
            IsKnown described.now.spec.now.models (length described.now.spec.now.instances)
            view.now l.accepted l.waiting.items l.posted.items)) }
    {
        let Described { spec, hops } = *described;
        let models = spec.models.as_slice();
        let instances = spec.instances.len() as usize;
        if !is_well_formed(alloc, models, instances, view)? {
            return Ok(None);
        }
        let posted = posted_rows(alloc, view)?;
        let Choice { accepted, waiting } = choose(alloc, models, hops, view)?;
        Ok(Some(Lists {
            accepted,
            waiting,
            posted,
        }))
    }

    /// The lists of a view that differs in the marked parts alone from the one that these are of, if
    /// it is well formed. It is lent narrowed to these parts.
    #[inline(always)]
    fn again(
        &self,
        alloc: Global,
        models: &[Model],
        instances: usize,
        hops: &[Hops],
        narrow: &View,
        marks: &Marks,
    ) -> Result<Option<Lists>, AllocError>
        requires hops { hops.now ≡ models.now }
        requires ideals { are_good_ideals models.now instances narrow.now.ideals ≡ true }
        requires accepted { IsByPart (λ c. c.part) self.now.accepted }
        requires waiting { IsByPart (λ c. c.part) self.now.waiting.items }
        requires posted { IsByPart (λ s. s.part) self.now.posted.items }
        ensures { IfOk result (λ lists. (v w : View)
            → IsKnown models.now instances v
            self.now.accepted self.now.waiting.items self.now.posted.items
            → DifferWithin (is_marked marks.now) v w
            → narrow.now ≡ narrowed_of (is_marked marks.now) w
            → MatchOption lists (is_well_formed models.now instances w ≡ false) (λ l.
            IsKnown models.now instances w l.accepted l.waiting.items l.posted.items)) }
    {
        if !is_well_formed_beside(alloc, models, instances, narrow)? {
            return Ok(None);
        }
        let new = found_among(alloc, models, hops, narrow, marks)?;
        let parts = new.parts.as_slice();
        let (found, left) = (
            new.choice.accepted.as_slice(),
            new.choice.waiting.as_slice(),
        );
        let accepted = splice_few(alloc, self.accepted.as_slice(), parts, found)?;
        let waiting = splice_few(alloc, self.waiting.as_slice(), parts, left)?;
        let posted = splice(alloc, self.posted.as_slice(), parts, new.posted.as_slice())?;
        Ok(Some(Lists {
            accepted: Seq::from_vec(accepted),
            waiting,
            posted,
        }))
    }
}

impl Known {
    /// The accepted candidates.
    pub fn accepted(&self) -> &[Candidate]
        ensures { result.now ≡ accepted_in self.now.models self.now.view }
    {
        self.lists.accepted.as_slice()
    }

    /// Whether it is known to have no candidates, with the models of a description.
    pub fn is_still(&self, spec: &Spec) -> bool
        ensures { IsTrue result → all_candidates spec.now.models self.now.view ≡ [] }
    {
        self.lists.accepted.is_empty()
            && self.lists.waiting.is_empty()
            && self.models.same(&spec.models)
    }

    /// The rows to post.
    pub fn posted(&self) -> &[Seen]
        ensures { result.now ≡ posted_of self.now.view }
    {
        self.lists.posted.as_slice()
    }

    /// What there is to know of a view, if it is well formed with a description. What was kept of an
    /// earlier one may be any: its memory serves again.
    pub fn of(
        alloc: Global,
        described: &Described,
        view: &View,
        kept: Kept,
    ) -> Result<Option<Known>, AllocError>
        ensures { IfOk result (λ known. IsKnownOf described.now.spec.now view.now known) }
    {
        let Some(lists) = Lists::of(alloc, described, view)? else {
            return Ok(None);
        };
        let spec = described.spec;
        let models = spec.models.clone()?;
        let kept = kept.over(view)?;
        Ok(Some(Known {
            models,
            instances: spec.instances.len() as usize,
            view: kept,
            lists,
        }))
    }

    /// The view, where the rest is given up.
    pub fn into_kept(self) -> Kept
        ensures { result ≡ self.view }
    {
        let Known {
            models: _,
            instances: _,
            view,
            lists: _,
        } = self;
        view
    }

    /// Whether a description has the same models and as many instances, and a view shows the same
    /// sessions and the same to be wanted. Where it is known to want the same, that isn't looked at.
    pub fn is_for(&self, spec: &Spec, view: &View, wants_same: bool) -> bool
        requires { wants_same ≡ true → self.now.view.ideals ≡ view.now.ideals }
        ensures models { IsTrue result → self.now.models ≡ spec.now.models }
        ensures instances { IsTrue result → self.now.instances ≡ length spec.now.instances }
        ensures alike { IsTrue result → IsAlike self.now.view view.now }
    {
        self.instances == spec.instances.len() as usize
            && self.view.is_like(view, wants_same)
            && self.models.same(&spec.models)
    }

    /// Takes over the messages and rows of the view itself, and leaves it others in their place.
    pub fn hold(&mut self, view: &mut View)
        requires { view.old ≡ self.old.view }
        ensures known { self.new ≡ self.old }
        ensures alike { IsAlike view.new view.old }
    {
        self.view.hold(view);
    }

    /// Marks the parts of which a view shows other rows or messages. It says no where there is no
    /// room for one of these, and where the messages and rows of the last view weren't taken over.
    pub fn mark_changes(&self, view: &View, marks: &mut Marks) -> bool
        ensures { IsTrue result → (p : PartId) → is_marked marks.new p ≡ false
            → (is_marked marks.old p ≡ false) × ShowSame self.now.view view.now p }
    {
        self.view.mark_changes(view, marks)
    }

    /// What there is to know of a view that differs from this one in the marked parts alone, if it
    /// is well formed.
    pub fn again(
        self,
        alloc: Global,
        hops: &[Hops],
        view: &View,
        marks: &Marks,
    ) -> Result<Option<Known>, AllocError>
        requires hops { hops.now ≡ self.models }
        requires differ { DifferWithin (is_marked marks.now) self.view view.now }
        ensures { IfOk result (λ known. IsKnownAs self.models self.instances view.now known) }
    {
        let Known {
            models,
            instances,
            view: last,
            lists,
        } = self;
        let narrow = last.narrowed(view, marks)?;
        let all = models.as_slice();
        let Some(lists) = lists.again(alloc, all, instances, hops, &narrow.view, marks)? else {
            return Ok(None);
        };
        Ok(Some(Known {
            models,
            instances,
            view: narrow.widened(view),
            lists,
        }))
    }
}

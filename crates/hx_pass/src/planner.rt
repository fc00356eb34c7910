//! A planner of views one after another.
ghost use Rattle.std.specs.Prelude.{◌≡◌, true, false, [], None, Some, length};
ghost use Rattle.std.specs.Prelude.{IfOk, OnErr, IfSome, IsTrue, MatchOption};
ghost use Rattle.hx_pass.specs.Plans.{all_candidates};
ghost use Rattle.hx_pass.specs.Turns.{posted_of};
ghost use Rattle.hx_pass.specs.Local.{IsAlike};
ghost use Rattle.hx_pass.specs.Drafted.{IsDraftOf, IsPlanned};
ghost use Rattle.hx_pass.specs.Known.{IsKnownOf};

use crate::draft_of_accepted;
use crate::drafts::Draft;
use crate::kept::Kept;
use crate::known::{Described, Known};
use hx_cluster::{Seen, Spec, View};
use hx_hops::Hops;
use hx_parts::Marks;
use std::alloc::{AllocError, Global};
use std::marker::Model;

/// What was found of the view that was planned last. Contracts see that view, if there is one: the
/// plan of another one depends on it only in what it costs.
#[derive(Drop)]
pub struct Planner {
    known: Option<Known>,
}

impl Model for Planner {
    ghost use Rattle.std.specs.Prelude.{Option, option_map};
    ghost use Rattle.hx_cluster.specs.declared.planning.View.{View};

    ghost Value = { Option View };

    ghost view = { λ a. option_map (λ k. k.view) a.known };
}

/// What there is to know of a view that is well formed, by what is known of the last one where that
/// helps. Where the view is known to want the same as the last one, that isn't looked at.
fn know(
    last: Option<Known>,
    alloc: Global,
    described: &Described,
    view: &View,
    wants_same: bool,
) -> Result<Option<Known>, AllocError>
    requires { wants_same ≡ true → IfSome last (λ last. last.view.ideals ≡ view.now.ideals) }
    ensures { IfOk result (λ known. IsKnownOf described.now.spec.now view.now known) }
{
    let Some(known) = last else {
        return Known::of(alloc, described, view, Kept::nothing(alloc));
    };
    if !known.is_for(described.spec, view, wants_same) {
        return Known::of(alloc, described, view, known.into_kept());
    }
    let mut marks = Marks::none(alloc, view.ideals.resources.as_slice())?;
    if !known.mark_changes(view, &mut marks) {
        return Known::of(alloc, described, view, known.into_kept());
    }
    known.again(alloc, described.hops, view, &marks)
}

impl Planner {
    /// Nothing was planned. It takes no memory.
    pub fn new() -> Planner
        ensures { result ≡ None }
    {
        Planner { known: None }
    }

    /// The draft of a view, if it is well formed with the description.
    fn draft_by(
        &mut self,
        alloc: Global,
        described: &Described,
        view: &View,
        wants_same: bool,
    ) -> Result<Option<Draft>, AllocError>
        requires { wants_same ≡ true → IfSome self.old (λ last. last.ideals ≡ view.now.ideals) }
        ensures made { IfOk result (IsDraftOf described.now.spec.now view.now) }
        ensures planned { IfOk result (λ draft. IsPlanned view.now draft self.new) }
        ensures refused { OnErr result (self.new ≡ None) }
    {
        let last = self.known.take();
        let Some(known) = know(last, alloc, described, view, wants_same)? else {
            return Ok(None);
        };
        let draft = draft_of_accepted(alloc, described.spec, view, known.accepted())?;
        self.known = Some(known);
        Ok(Some(draft))
    }

    /// The draft of a view, if it is well formed with the description. `hops` are those of the
    /// description's models. It costs a look at each row of the view, and a plan of the parts that
    /// have other rows or messages than in the view before; a whole plan where that view showed
    /// other sessions, or something else to be wanted, or wasn't held.
    pub fn draft(
        &mut self,
        alloc: Global,
        spec: &Spec,
        hops: &[Hops],
        view: &View,
    ) -> Result<Option<Draft>, AllocError>
        requires { hops.now ≡ spec.now.models }
        ensures made { IfOk result (IsDraftOf spec.now view.now) }
        ensures planned { IfOk result (λ draft. IsPlanned view.now draft self.new) }
        ensures refused { OnErr result (self.new ≡ None) }
    {
        let described = Described { spec, hops };
        self.draft_by(alloc, &described, view, false)
    }

    /// The same of a view that is known to want the same as the one that was planned last: what is
    /// wanted isn't looked at.
    pub fn draft_again(
        &mut self,
        alloc: Global,
        spec: &Spec,
        hops: &[Hops],
        view: &View,
    ) -> Result<Option<Draft>, AllocError>
        requires hops { hops.now ≡ spec.now.models }
        requires same { IfSome self.old (λ last. last.ideals ≡ view.now.ideals) }
        ensures made { IfOk result (IsDraftOf spec.now view.now) }
        ensures planned { IfOk result (λ draft. IsPlanned view.now draft self.new) }
        ensures refused { OnErr result (self.new ≡ None) }
    {
        let described = Described { spec, hops };
        self.draft_by(alloc, &described, view, true)
    }

    /// Takes over the messages and rows of the view that was planned last, and leaves it others in
    /// their place: a plan by what changed goes over them. It takes no memory.
    pub fn hold(&mut self, view: &mut View)
        requires { self.old ≡ Some view.old }
        ensures planned { self.new ≡ self.old }
        ensures alike { IsAlike view.new view.old }
    {
        if let Some(mut last) = self.known.take() {
            last.hold(view);
            self.known = Some(last);
        }
    }

    /// Whether the view that was planned last is known to have no candidates, with the models of a
    /// description. It takes no memory.
    pub fn is_still(&self, spec: &Spec) -> bool
        ensures { IsTrue result → IfSome self.now (λ view.
            all_candidates spec.now.models view ≡ []) }
    {
        match &self.known {
            Some(known) => known.is_still(spec),
            None => false,
        }
    }

    /// The rows to post of the view that was planned last, and none if there is no such view.
    pub fn posted(&self) -> &[Seen]
        ensures { MatchOption self.now (result.now ≡ []) (λ view. result.now ≡ posted_of view) }
    {
        match &self.known {
            Some(known) => known.posted(),
            None => &[],
        }
    }
}

//! What a turn makes of what it was shown: the plan, its dispatch, and the post.
ghost use Rattle.std.specs.Prelude.{◌≡◌, ◌+◌, ◌<◌, ◌^◌, [], None, Some, true, false, length};
ghost use Rattle.std.specs.Prelude.{IfOk, OnErr, IfSome, MatchOption};
ghost use Rattle.hx_lists.specs.Lists.{count};
ghost use Rattle.hx_lists.specs.Answers.{RefusedBy};
ghost use Rattle.hx_cluster.specs.Steps.{has_controller};
ghost use Rattle.hx_cluster.specs.declared.happenings.Event.TheVariants as events;
ghost use Rattle.hx_cluster.specs.Events.{dispatched_of};
ghost use Rattle.hx_gen.specs.Modelled.{has_models};
ghost use Rattle.hx_pass.specs.Plans.{plan as plan_of};
ghost use Rattle.hx_cluster.specs.Views.{is_well_formed};
ghost use Rattle.hx_pass.specs.Drafts.{draft as drafted_of, finished, reported};
ghost use Rattle.hx_board.specs.Board.{happened};
ghost use Rattle.hx_control.specs.Steps.{is_sent, outcome_of, step_of, planned_step};
ghost use Rattle.hx_control.specs.OfBoard.{IsPlanOf};
ghost use Rattle.hx_control.specs.Turning.{left_of, with_plan};
ghost use Rattle.hx_control.specs.Drafted.{IsToSend, IsDispatched};
ghost use Rattle.hx_control.specs.Made.{Tries, step_fault};

use crate::controller::{Next, Planned};
use crate::views::{is_of_board, keep_of_board};
use crate::{ControlFault, Controller, PassOutcome};
use hx_board::Board;
use hx_cluster::{Dispatched, Entries, Placed, Plan, Proposal, Report, Spec, View};
use hx_hops::Hops;
use hx_lists::Seq;
use hx_pass::{Draft, Planner};
use std::alloc::AllocError;

fn is_sent(placed: &Placed) -> bool
    ensures { result ≡ is_sent placed.now }
{
    matches!(placed, Placed::Sent(_))
}

fn sent(answer: &Dispatched) -> u32
    requires { length answer.now.placed < 2 ^ 32 }
    ensures { result ≡ count is_sent answer.now.placed }
{
    answer
        .placed
        .iter()
        .filter(|placed| is_sent(placed))
        .count() as u32
}

/// The draft of what was shown. What is wanted isn't looked at where that is known to be as in the
/// view that was planned last.
fn draft_of(
    planner: &mut Planner,
    planned: Planned,
    spec: &Spec,
    hops: &[Hops],
    view: &View,
) -> Result<Option<Draft>, AllocError>
    requires hops { hops.now ≡ spec.now.models }
    requires same { planned ≡ Planned.Shown
        → IfSome planner.old (λ last. last.ideals ≡ view.now.ideals) }
    ensures made { IfOk result (λ draft.
        let formed = is_well_formed spec.now.models (length spec.now.instances) view.now in
        MatchOption draft (formed ≡ false) (λ d.
        (formed ≡ true) × (d ≡ drafted_of spec.now.models spec.now.rules view.now))) }
    ensures planned { IfOk result (λ draft.
        MatchOption draft (planner.new ≡ None) (λ _. planner.new ≡ Some view.now)) }
    ensures refused { OnErr result (planner.new ≡ None) }
{
    let alloc = view.live.allocator();
    match planned {
        Planned::Shown => planner.draft_again(alloc, spec, hops, view),
        _ => planner.draft(alloc, spec, hops, view),
    }
}

impl Controller {
    /// How a dispatch ended.
    fn outcome(&self, plan: Plan, answer: &Dispatched) -> PassOutcome
        requires placed { length answer.now.placed < 2 ^ 32 }
        requires mail { length self.now.turn.view.mail < 2 ^ 32 }
        ensures { result ≡ outcome_of self.now.turn plan answer.now }
    {
        if !plan.proposals.is_empty() {
            PassOutcome::Sent(sent(answer))
        } else if !self.view.mail.is_empty() {
            PassOutcome::Waiting {
                pending: self.view.mail.len() as u32,
            }
        } else if self.begun.change == answer.change {
            PassOutcome::Settled(plan.report)
        } else {
            PassOutcome::Moved {
                from: self.begun.change,
                to: answer.change,
            }
        }
    }

    /// Drafts the plan of what was shown.
    pub(crate) fn make_plan(
        &mut self,
        spec: &Spec,
        hops: &[Hops],
        board: &Board,
    ) -> Result<Option<PassOutcome>, ControlFault>
        requires board { board.now.spec ≡ spec.now }
        requires hops { hops.now ≡ spec.now.models }
        requires next { self.old.turn.left ≡ left_of Next.Send self.old.turn.view.live }
        requires none { self.old.plan ≡ None }
        ensures { Tries (step_of spec.now board.now.cluster self.old) board.now board.now self.old
            self.new result }
    {
        // What holds of every board: it has the instances of its description.
        board.history();
        let alloc = self.view.live.allocator();
        let Some(draft) = draft_of(&mut self.planner, self.planned, spec, hops, &self.view)? else {
            return Err(ControlFault::OtherBoard);
        };
        self.planned = Planned::Shown;
        if !keep_of_board(alloc, spec, board, &self.view, &mut self.formed)? {
            return Err(ControlFault::OtherBoard);
        }
        self.draft = Some(draft);
        Ok(None)
    }

    /// The report of a draft, if its dispatch can tell it.
    fn report_to_send(
        &self,
        spec: &Spec,
        hops: &[Hops],
        draft: &Draft,
        proposals: &Seq<Proposal>,
    ) -> Result<Report, AllocError>
        requires hops { hops.now ≡ spec.now.models }
        requires models { has_models spec.now.models self.now.turn.view ≡ true }
        requires planned { finished self.now.turn.view draft.now
            ≡ plan_of spec.now.models spec.now.rules self.now.turn.view }
        requires kept { self.now.plan ≡ Some (finished self.now.turn.view draft.now) }
        ensures { IfOk result (λ report. proposals.now ≡ [] → self.now.turn.view.mail ≡ []
            → report ≡ reported self.now.turn.view draft.now) }
    {
        let alloc = self.view.live.allocator();
        if !proposals.is_empty() || !self.view.mail.is_empty() {
            let entries = Entries::new(alloc);
            return Ok(Report { entries });
        }
        if self.planner.is_still(spec) {
            return draft.report_without(alloc, spec, &self.view);
        }
        draft.report(alloc, spec, hops, &self.view)
    }

    /// The plan of a draft, but for the report where its dispatch can't tell it.
    fn plan_to_send(&self, spec: &Spec, hops: &[Hops], draft: &Draft) -> Result<Plan, AllocError>
        requires hops { hops.now ≡ spec.now.models }
        requires models { has_models spec.now.models self.now.turn.view ≡ true }
        requires planned { finished self.now.turn.view draft.now
            ≡ plan_of spec.now.models spec.now.rules self.now.turn.view }
        requires kept { self.now.plan ≡ Some (finished self.now.turn.view draft.now) }
        ensures { IfOk result (IsToSend self.now.turn.view draft.now) }
    {
        let proposals = draft.proposals(self.view.live.allocator())?;
        let report = self.report_to_send(spec, hops, draft, &proposals)?;
        Ok(Plan { proposals, report })
    }

    /// Dispatches what a plan proposes. More than 4,294,967,295 proposals or messages are want of
    /// memory.
    fn dispatch(
        &self,
        spec: &Spec,
        plan: &Plan,
        board: &mut Board,
    ) -> Result<Dispatched, ControlFault>
        requires controller { has_controller board.old.cluster self.now.id ≡ true }
        requires board { board.old.spec ≡ spec.now }
        requires planned { plan.now.proposals
            ≡ (plan_of spec.now.models spec.now.rules self.now.turn.view).proposals }
        requires next { self.now.turn.left ≡ left_of Next.Send self.now.turn.view.live }
        ensures refused { RefusedBy ControlFault.OutOfMemory
            (step_fault board.old
            (step_of spec.now board.old.cluster (with_plan self.now plan.now)))
            result }
        ensures answer { IfOk result (λ answer.
            (answer ≡ dispatched_of board.old.cluster self.now.id plan.now.proposals)
            × (board.new
            ≡ happened board.old
            (events.Dispatch self.now.id self.now.turn.begun.epoch
            self.now.turn.begun.pass plan.now.proposals answer))) }
        ensures few { IfOk result (λ answer.
            (length answer.placed < 2 ^ 32) × (length self.now.turn.view.mail < 2 ^ 32)) }
        ensures err { OnErr result (board.new ≡ board.old) }
    {
        let most = u32::MAX as usize;
        if plan.proposals.len() > most || self.view.mail.len() > most {
            return Err(ControlFault::OutOfMemory);
        }
        let alloc = self.view.live.allocator();
        if !is_of_board(alloc, spec, board, &self.view, &self.formed)? {
            return Err(ControlFault::OtherBoard);
        }
        let proposals = plan.proposals.as_slice();
        let (epoch, pass) = (self.begun.epoch, self.begun.pass);
        Ok(board.dispatch(self.id, epoch, pass, proposals)?)
    }

    /// Dispatches a drafted plan, and tells how that ended.
    fn dispatch_draft(
        &self,
        spec: &Spec,
        hops: &[Hops],
        draft: &Draft,
        board: &mut Board,
    ) -> Result<PassOutcome, ControlFault>
        requires controller { has_controller board.old.cluster self.now.id ≡ true }
        requires board { board.old.spec ≡ spec.now }
        requires planned { finished self.now.turn.view draft.now
            ≡ plan_of spec.now.models spec.now.rules self.now.turn.view }
        requires kept { self.now.plan ≡ Some (finished self.now.turn.view draft.now) }
        requires hops { hops.now ≡ spec.now.models }
        requires next { self.now.turn.left ≡ left_of Next.Send self.now.turn.view.live }
        ensures refused { RefusedBy ControlFault.OutOfMemory
            (step_fault board.old
            (step_of spec.now board.old.cluster
            (with_plan self.now (finished self.now.turn.view draft.now))))
            result }
        ensures answer { IfOk result
            (IsDispatched board.old board.new self.now (finished self.now.turn.view draft.now)) }
        ensures err { OnErr result (board.new ≡ board.old) }
    {
        let alloc = self.view.live.allocator();
        if !is_of_board(alloc, spec, board, &self.view, &self.formed)? {
            return Err(ControlFault::OtherBoard);
        }
        let plan = self.plan_to_send(spec, hops, draft)?;
        let answer = self.dispatch(spec, &plan, board)?;
        Ok(self.outcome(plan, &answer))
    }

    /// Drafts the plan, or dispatches it where it was drafted, and goes on to the post.
    pub(crate) fn send(
        &mut self,
        spec: &Spec,
        hops: &[Hops],
        board: &mut Board,
    ) -> Result<Option<PassOutcome>, ControlFault>
        requires controller { has_controller board.old.cluster self.old.id ≡ true }
        requires board { board.old.spec ≡ spec.now }
        requires hops { hops.now ≡ spec.now.models }
        requires planned { IsPlanOf spec.now self.old.turn self.old.plan }
        requires next { self.old.turn.left ≡ left_of Next.Send self.old.turn.view.live }
        ensures { Tries (step_of spec.now board.old.cluster self.old) board.old board.new self.old
            self.new result }
    {
        let Some(draft) = &self.draft else {
            return self.make_plan(spec, hops, board);
        };
        let outcome = self.dispatch_draft(spec, hops, draft, board)?;
        self.next = Next::Post;
        self.draft = None;
        Ok(Some(outcome))
    }

    /// Posts the rows that were shown, and ends the turn.
    #[tactic(auto, using(crate::proofs::Sending::rows_fit))]
    pub(crate) fn post(
        &mut self,
        spec: &Spec,
        board: &mut Board,
    ) -> Result<Option<PassOutcome>, ControlFault>
        requires controller { has_controller board.old.cluster self.old.id ≡ true }
        requires board { board.old.spec ≡ spec.now }
        requires next { self.old.turn.left ≡ left_of Next.Post self.old.turn.view.live }
        ensures { Tries (step_of spec.now board.old.cluster self.old) board.old board.new self.old
            self.new result }
    {
        let alloc = self.view.live.allocator();
        if !is_of_board(alloc, spec, board, &self.view, &self.formed)? {
            return Err(ControlFault::OtherBoard);
        }
        board.publish(self.id, self.begun.epoch, self.planner.posted())?;
        self.restart();
        Ok(None)
    }
}

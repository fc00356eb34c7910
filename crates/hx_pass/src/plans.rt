//! A plan, made by one stage after the other.
ghost use Rattle.std.specs.Prelude.{◌≡◌, true, false, [], List, IfOk, IsTrue, map};
ghost use Rattle.hx_cluster.specs.declared.description.Rule.{Rule as OfRules};
ghost use Rattle.hx_best.specs.Lookups.{has_errors};
ghost use Rattle.hx_best.specs.Targets.{all_targets};
ghost use Rattle.hx_gen.specs.Modelled.{has_models};
ghost use Rattle.hx_parts.specs.Parts.{IsByPart};
ghost use Rattle.hx_throttle.specs.Throttle.{throttled};
ghost use Rattle.hx_report.specs.Findings.{report};
ghost use Rattle.hx_pass.specs.Plans.{all_candidates, plan, plan_over, proposal};

use hx_best::{Index, all_targets, moving_targets};
use hx_cluster::{
    Candidate, Entries, Plan, Proposal, Report, Row, Rule, Selection, Throttled, View,
};
use hx_gen::candidates;
use hx_hops::Hops;
use hx_lists::Seq;
use hx_model::{ERROR, Model};
use hx_report::{Fates, report_on};
use hx_select::select_on;
use hx_throttle::throttle_on;
use std::alloc::{AllocError, Global};

/// The plan of a view by its index. `hops` are those of the models.
pub fn plan_on(
    alloc: Global,
    models: &[Model],
    rules: &[Rule],
    hops: &[Hops],
    index: &Index<'_>,
) -> Result<Plan, AllocError>
    requires hops { hops.now ≡ models.now }
    requires models { has_models models.now index.now ≡ true }
    ensures { IfOk result (λ made. made ≡ plan models.now rules.now index.now) }
{
    let candidates = candidates_on(alloc, models, hops, index)?;
    plan_of(alloc, models, rules, index, candidates.as_slice())
}

/// The plan of a view that has no candidates. It costs no more than a look at each row, and no
/// memory, where each replica is at its best.
pub fn plan_without(
    alloc: Global,
    models: &[Model],
    rules: &[Rule],
    view: &View,
) -> Result<Plan, AllocError>
    requires { all_candidates models.now view.now ≡ [] }
    ensures { IfOk result (λ made. made ≡ plan models.now rules.now view.now) }
{
    if is_calm(view) {
        return Ok(plan_of_none(alloc, models, view));
    }
    let index = Index::of(alloc, view)?;
    plan_of(alloc, models, rules, &index, &[])
}

/// All candidates in order, found of the targets that move.
pub fn candidates_on(
    alloc: Global,
    models: &[Model],
    hops: &[Hops],
    index: &Index<'_>,
) -> Result<Vec<Candidate>, AllocError>
    requires hops { hops.now ≡ models.now }
    requires models { has_models models.now index.now ≡ true }
    ensures found { IfOk result (λ found.
        found.items ≡ all_candidates models.now index.now) }
    ensures by_part { IfOk result (λ found. IsByPart (λ c. c.part) found.items) }
{
    let targets = moving_targets(alloc, models, index)?;
    candidates(alloc, models, hops, index.view(), targets.as_slice())
}

fn has_errors(rows: &[Row]) -> bool
    ensures { result ≡ has_errors rows.now }
{
    rows.iter().any(|row| row.state == ERROR)
}

/// Whether no message is shown, and no replica in ERROR.
fn is_calm(view: &View) -> bool
    ensures mail { IsTrue result → view.now.mail ≡ [] }
    ensures errors { IsTrue result → has_errors view.now.rows ≡ false }
{
    view.mail.is_empty() && !has_errors(view.rows.as_slice())
}

/// The plan where no message is shown, no replica in ERROR, and there is no candidate: it sends
/// nothing, and each replica is at its best.
#[tactic(auto, using(crate::proofs::Calm::all_at_best))]
fn plan_of_none(alloc: Global, models: &[Model], view: &View) -> Plan
    requires mail { view.now.mail ≡ [] }
    requires errors { has_errors view.now.rows ≡ false }
    requires none { all_candidates models.now view.now ≡ [] }
    ensures { (rules : List OfRules) → result ≡ plan models.now rules view.now }
{
    let shown = (models, view);
    Plan {
        proposals: Seq::new(alloc),
        report: Report {
            entries: Entries::at_best(alloc, &shown),
        },
    }
}

/// What is found of each target, by what was selected and throttled.
fn report_of(
    alloc: Global,
    models: &[Model],
    index: &Index<'_>,
    selection: &Selection,
    throttled: &Throttled,
) -> Result<Report, AllocError>
    ensures { IfOk result (λ all. all
        ≡ report (all_targets models.now index.now) index.now selection.now throttled.now) }
{
    let targets = all_targets(alloc, models, index)?;
    let fates = Fates::new(alloc, selection, throttled)?;
    report_on(alloc, targets.as_slice(), index.shown(), &fates)
}

/// The plan of what was selected and throttled.
fn plan_over(
    alloc: Global,
    models: &[Model],
    index: &Index<'_>,
    selection: &Selection,
    throttled: &Throttled,
) -> Result<Plan, AllocError>
    ensures { IfOk result (λ made. made
        ≡ plan_over models.now index.now selection.now throttled.now) }
{
    Ok(Plan {
        proposals: proposals_of(alloc, throttled.sent.as_slice())?,
        report: report_of(alloc, models, index, selection, throttled)?,
    })
}

/// The plan of what was selected.
fn plan_of_selected(
    alloc: Global,
    models: &[Model],
    rules: &[Rule],
    index: &Index<'_>,
    selection: &Selection,
) -> Result<Plan, AllocError>
    ensures { IfOk result (λ made. made
        ≡ plan_over models.now index.now selection.now
        (throttled rules.now index.now selection.now.accepted)) }
{
    let throttled = throttle_on(alloc, rules, index.view(), selection.accepted.as_slice())?;
    plan_over(alloc, models, index, selection, &throttled)
}

/// The plan of the candidates.
fn plan_of(
    alloc: Global,
    models: &[Model],
    rules: &[Rule],
    index: &Index<'_>,
    candidates: &[Candidate],
) -> Result<Plan, AllocError>
    requires { candidates.now ≡ all_candidates models.now index.now }
    ensures { IfOk result (λ made. made ≡ plan models.now rules.now index.now) }
{
    let selection = select_on(alloc, models, index.shown(), candidates)?;
    plan_of_selected(alloc, models, rules, index, &selection)
}

/// What is proposed of the sent candidates.
pub fn proposals_of(alloc: Global, sent: &[Candidate]) -> Result<Seq<Proposal>, AllocError>
    ensures { IfOk result (λ proposals. proposals ≡ map proposal sent.now) }
{
    let mut proposals = Seq::new(alloc);
    proposals.reserve(sent.len())?;
    for candidate in sent {
        proposals.push(Proposal {
            session: candidate.session,
            part: candidate.part,
            from: candidate.from,
            to: candidate.to,
        })?;
    }
    Ok(proposals)
}

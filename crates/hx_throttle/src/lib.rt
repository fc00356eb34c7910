//! The candidates that the throttles allow.
#![tactic(auto)]

mod loads;
mod shown;
mod table;

ghost use Rattle.std.specs.Prelude.{◌≡◌, ◌++◌, [], List, Bool, option_map, IfOk, OnOk};
ghost use Rattle.std.specs.List.{items_where_true};
ghost use Rattle.std.specs.Option.{option_to_list};
ghost use Rattle.hx_cluster.specs.declared.description.Rule.{Rule};
ghost use Rattle.hx_cluster.specs.declared.planning.View.{View};
ghost use Rattle.hx_cluster.specs.declared.planning.Candidate.{Candidate};
ghost use Rattle.hx_lists.specs.Choices.{with_chosen};
ghost use Rattle.hx_throttle.specs.Loads.{AreLoads, held_as, transition_of};
ghost use Rattle.hx_throttle.specs.Throttle.{loading, is_sent, held_by, sent_of, throttled, IsSending};

use crate::loads::{Holding, count, first_holding, held_back, shown_loads};
use crate::table::Loads;
use hx_cluster::{Candidate, Proposal, Rule, Spec, Throttled, View};
use hx_lists::Seq;
pub use shown::Shown;
use std::alloc::{AllocError, Global};

/// For so many candidates room is made at once. Of many accepted ones few may be sent.
const FEW: usize = 64;

/// The accepted candidates that the throttles of a description allow, and those that they hold
/// back, in their order.
pub fn throttle(
    alloc: Global,
    spec: &Spec,
    view: &View,
    accepted: &[Candidate],
) -> Result<Throttled, AllocError>
    ensures { IfOk result (λ all. all ≡ throttled spec.now.rules view.now accepted.now) }
{
    throttle_on(alloc, spec.rules.as_slice(), view, accepted)
}

/// The same by the rules of a description.
pub fn throttle_on(
    alloc: Global,
    rules: &[Rule],
    view: &View,
    accepted: &[Candidate],
) -> Result<Throttled, AllocError>
    ensures { IfOk result (λ all. all ≡ throttled rules.now view.now accepted.now) }
{
    let shown = Shown::new(alloc, view.live.as_slice())?;
    let mut loads = shown_loads(alloc, rules, &shown, view.mail.as_slice())?;
    throttled_beside(alloc, &shown, &mut loads, rules, accepted)
}

/// The same beside the loads of the messages that are shown.
fn throttled_beside(
    alloc: Global,
    shown: &Shown,
    loads: &mut Loads,
    rules: &[Rule],
    accepted: &[Candidate],
) -> Result<Throttled, AllocError>
    ensures chosen { (view : View) → shown.now ≡ view.live → AreLoads rules.now (loading view []) loads.old
        → IfOk result (λ all. all ≡ throttled rules.now view accepted.now) }
    ensures counted { (view : View) → shown.now ≡ view.live → AreLoads rules.now (loading view []) loads.old
        → IfOk result (λ all. AreLoads rules.now (loading view all.sent) loads.new) }
{
    let mut all = Throttled {
        sent: Seq::new(alloc),
        held: Seq::new(alloc),
    };
    for candidate in accepted {
        send_or_hold(shown, loads, rules, candidate, &mut all)?;
    }
    Ok(all)
}

/// Sends a candidate, or lists it with the first rule that holds it back.
#[inline(always)]
fn send_or_hold(
    shown: &Shown,
    loads: &mut Loads,
    rules: &[Rule],
    candidate: &Candidate,
    all: &mut Throttled,
) -> Result<(), AllocError>
    ensures chosen { OnOk result ((view : View) → shown.now ≡ view.live
        → AreLoads rules.now (loading view all.old.sent) loads.old
        → all.new.sent ≡ with_chosen (is_sent rules.now view) all.old.sent candidate.now) }
    ensures holding { OnOk result ((view : View) → shown.now ≡ view.live
        → AreLoads rules.now (loading view all.old.sent) loads.old
        → all.new.held ≡ all.old.held ++ option_to_list (held_by rules.now 0 view all.old.sent candidate.now)) }
    ensures counted { OnOk result ((view : View) → shown.now ≡ view.live
        → AreLoads rules.now (loading view all.old.sent) loads.old
        → AreLoads rules.now (loading view all.new.sent) loads.new) }
{
    if let Some(holding) = send_if_allowed(shown, loads, rules, candidate, &mut all.sent)? {
        all.held.push(held_back(candidate, holding)?)?;
    }
    Ok(())
}

/// The accepted candidates that the throttles allow, with no list of those that they hold back.
pub fn sent_on(
    alloc: Global,
    rules: &[Rule],
    view: &View,
    accepted: &[Candidate],
) -> Result<Seq<Candidate>, AllocError>
    ensures { IfOk result (λ sent. sent ≡ sent_of rules.now view.now accepted.now) }
{
    if rules.is_empty() {
        return Seq::from_slice(alloc, accepted);
    }
    let shown = Shown::new(alloc, view.live.as_slice())?;
    let mut loads = shown_loads(alloc, rules, &shown, view.mail.as_slice())?;
    sent_beside(alloc, &shown, &mut loads, rules, accepted)
}

/// The same beside the loads of the messages that are shown.
#[inline(always)]
fn sent_beside(
    alloc: Global,
    shown: &Shown,
    loads: &mut Loads,
    rules: &[Rule],
    accepted: &[Candidate],
) -> Result<Seq<Candidate>, AllocError>
    ensures chosen { (view : View) → shown.now ≡ view.live → AreLoads rules.now (loading view []) loads.old
        → IfOk result (λ sent. sent ≡ sent_of rules.now view accepted.now) }
    ensures counted { (view : View) → shown.now ≡ view.live → AreLoads rules.now (loading view []) loads.old
        → IfOk result (λ sent. AreLoads rules.now (loading view sent) loads.new) }
{
    let mut sent = Seq::new(alloc);
    sent.reserve(accepted.len().min(FEW))?;
    for candidate in accepted {
        send_if_allowed(shown, loads, rules, candidate, &mut sent)?;
    }
    Ok(sent)
}

/// Sends a candidate if no rule holds it back; else the first rule that does.
#[inline(always)]
fn send_if_allowed(
    shown: &Shown,
    loads: &mut Loads,
    rules: &[Rule],
    candidate: &Candidate,
    sent: &mut Seq<Candidate>,
) -> Result<Option<Holding>, AllocError>
    ensures chosen { OnOk result ((view : View) → shown.now ≡ view.live
        → AreLoads rules.now (loading view sent.old) loads.old
        → sent.new ≡ with_chosen (is_sent rules.now view) sent.old candidate.now) }
    ensures counted { OnOk result ((view : View) → shown.now ≡ view.live
        → AreLoads rules.now (loading view sent.old) loads.old
        → AreLoads rules.now (loading view sent.new) loads.new) }
    ensures holding { IfOk result (λ holding. (view : View) → shown.now ≡ view.live
        → AreLoads rules.now (loading view sent.old) loads.old
        → option_map (held_as candidate.now) holding ≡ held_by rules.now 0 view sent.old candidate.now) }
{
    let keyed = shown.keyed(&transition(candidate));
    let holding = first_holding(loads, rules, keyed);
    if holding.is_some() {
        return Ok(holding);
    }
    count(loads, rules, keyed)?;
    sent.push(*candidate)?;
    Ok(holding)
}

fn transition(candidate: &Candidate) -> Proposal
    ensures { result ≡ transition_of candidate.now }
{
    Proposal {
        session: candidate.session,
        part: candidate.part,
        from: candidate.from,
        to: candidate.to,
    }
}

/// The throttles name exactly one list of candidates, the sent ones.
pub fn throttles_name_one_list()
    ensures some { (rules : List Rule) (view : View) (accepted : List Candidate) → (marks : List Bool) × IsSending rules view accepted marks × (items_where_true marks accepted ≡ sent_of rules view accepted) }
    ensures one { (rules : List Rule) (view : View) (accepted : List Candidate) (a b : List Bool) → IsSending rules view accepted a → IsSending rules view accepted b → a ≡ b }
{}

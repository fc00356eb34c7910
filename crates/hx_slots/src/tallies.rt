//! How many replicas of a part have a limited state among their ends, and how many messages each
//! rule counts, kept up as messages and rows come and go.
ghost use Rattle.std.specs.Prelude.{◌≡◌, not, OnOk, OnErr};
ghost use Rattle.hx_slots.specs.Tallies.{is_limited as is_limited_of, stands_at as stands_at_of};
ghost use Rattle.hx_slots.specs.Tallies.{key_on as key_on_of, IsRaised, IsLowered, IsRowLowered};
ghost use Rattle.hx_slots.specs.Tallies.{is_free, IsUnchanged};
ghost use Rattle.hx_slots.specs.Moves.{IsEndRaised, IsEndLowered, AreEndsRaised, AreEndsLowered};
ghost use Rattle.hx_slots.specs.Moves.{IsRuleRaised, IsRuleLowered, AreLoadsRaised};
ghost use Rattle.hx_slots.specs.Moves.{AreLoadsLowered};

use hx_cluster::{Cluster, Message, Rule, Scope};
use hx_counts::Counts;
use hx_ids::{InstanceId, PartId, StateId};
use hx_model::Bound;
use std::alloc::AllocError;

/// Counts what a message to a session of an instance adds, where its replica has a state, or
/// none. The lists of live sessions, rows and messages of the cluster aren't looked at.
pub fn raise(
    cluster: &Cluster,
    counts: &mut Counts,
    instance: InstanceId,
    has: Option<StateId>,
    message: &Message,
) -> Result<(), AllocError>
    ensures ok { OnOk result (
        IsRaised cluster.now instance has message.now counts.old counts.new) }
    ensures err { OnErr result (IsUnchanged counts.old counts.new) }
{
    raise_ends(cluster, counts, has, message)?;
    if let Err(failed) = raise_loads(cluster, counts, instance, message) {
        lower_ends(cluster, counts, has, message);
        return Err(failed);
    }
    Ok(())
}

/// Counts no longer what a message added. It takes no memory.
pub fn lower(
    cluster: &Cluster,
    counts: &mut Counts,
    instance: InstanceId,
    has: Option<StateId>,
    message: &Message,
)
    ensures { IsLowered cluster.now instance has message.now counts.old counts.new }
{
    lower_ends(cluster, counts, has, message);
    lower_loads(cluster, counts, instance, message, cluster.rules.len());
}

/// Counts no longer the state of a replica that has no message pending. It takes no memory.
pub fn lower_row(cluster: &Cluster, counts: &mut Counts, part: PartId, state: StateId)
    ensures { IsRowLowered cluster.now part state counts.old counts.new }
{
    lower_end(cluster, counts, part, None, state);
}

// Whether a state has a limit.
fn is_bounded(bound: Bound) -> bool
    ensures { result ≡ not (is_free bound) }
{
    match bound {
        Bound::Free => false,
        _ => true,
    }
}

// Whether a state of a part has a limit.
fn is_limited(cluster: &Cluster, part: PartId, state: StateId) -> bool
    ensures { result ≡ is_limited_of cluster.now.models cluster.now.resources part state }
{
    match cluster.model_of(part.resource) {
        Some(model) => is_bounded(model.bound(state)),
        None => false,
    }
}

// Whether a replica stands in a state.
fn stands_at(has: Option<StateId>, state: StateId) -> bool
    ensures { result ≡ stands_at_of state has }
{
    match has {
        Some(stood) => stood.0 == state.0,
        None => false,
    }
}

// Counts an end of a replica, unless it stands there.
#[inline(always)]
fn raise_end(
    cluster: &Cluster,
    counts: &mut Counts,
    part: PartId,
    has: Option<StateId>,
    state: StateId,
) -> Result<(), AllocError>
    ensures ok { OnOk result (
        IsEndRaised cluster.now part has state counts.old counts.new) }
    ensures err { OnErr result (IsUnchanged counts.old counts.new) }
{
    if stands_at(has, state) || !is_limited(cluster, part, state) {
        return Ok(());
    }
    counts.raise_end(part, state)
}

// Counts it no longer.
#[inline(always)]
fn lower_end(
    cluster: &Cluster,
    counts: &mut Counts,
    part: PartId,
    has: Option<StateId>,
    state: StateId,
)
    ensures { IsEndLowered cluster.now part has state counts.old counts.new }
{
    if stands_at(has, state) || !is_limited(cluster, part, state) {
        return;
    }
    counts.lower_end(part, state);
}

// Counts the ends of a message beside the state that its replica has.
fn raise_ends(
    cluster: &Cluster,
    counts: &mut Counts,
    has: Option<StateId>,
    message: &Message,
) -> Result<(), AllocError>
    ensures ok { OnOk result (AreEndsRaised cluster.now has message.now counts.old counts.new) }
    ensures err { OnErr result (IsUnchanged counts.old counts.new) }
{
    let Message { part, from, to, .. } = *message;
    raise_end(cluster, counts, part, has, from)?;
    if from.0 == to.0 {
        return Ok(());
    }
    if let Err(failed) = raise_end(cluster, counts, part, has, to) {
        lower_end(cluster, counts, part, has, from);
        return Err(failed);
    }
    Ok(())
}

// Counts them no longer.
fn lower_ends(cluster: &Cluster, counts: &mut Counts, has: Option<StateId>, message: &Message)
    ensures { AreEndsLowered cluster.now has message.now counts.old counts.new }
{
    let Message { part, from, to, .. } = *message;
    lower_end(cluster, counts, part, has, from);
    if from.0 != to.0 {
        lower_end(cluster, counts, part, has, to);
    }
}

// The key under which a scope counts a message about a part to a session of an instance.
pub fn key_on(scope: Scope, instance: InstanceId, part: PartId) -> u32
    ensures { result ≡ key_on_of scope instance part }
{
    match scope {
        Scope::Cluster => 0,
        Scope::Instance => instance.0,
        Scope::Resource => part.resource.0,
    }
}

// Counts a message under a rule, if that matches.
fn raise_rule(
    rule: &Rule,
    place: usize,
    counts: &mut Counts,
    instance: InstanceId,
    message: &Message,
) -> Result<(), AllocError>
    ensures ok { OnOk result (
        IsRuleRaised rule.now place instance message.now counts.old counts.new) }
    ensures err { OnErr result (IsUnchanged counts.old counts.new) }
{
    if !rule.matches(message.from, message.to) {
        return Ok(());
    }
    counts.raise_load(place, key_on(rule.scope, instance, message.part))
}

// Counts it no longer.
fn lower_rule(
    rule: &Rule,
    place: usize,
    counts: &mut Counts,
    instance: InstanceId,
    message: &Message,
)
    ensures { IsRuleLowered rule.now place instance message.now counts.old counts.new }
{
    if rule.matches(message.from, message.to) {
        counts.lower_load(place, key_on(rule.scope, instance, message.part));
    }
}

// Counts a message under each rule, or under none.
fn raise_loads(
    cluster: &Cluster,
    counts: &mut Counts,
    instance: InstanceId,
    message: &Message,
) -> Result<(), AllocError>
    ensures ok { OnOk result (
        AreLoadsRaised cluster.now instance message.now counts.old counts.new) }
    ensures err { OnErr result (IsUnchanged counts.old counts.new) }
{
    for (place, rule) in cluster.rules.as_slice().iter().enumerate() {
        if let Err(failed) = raise_rule(rule, place, counts, instance, message) {
            lower_loads(cluster, counts, instance, message, place);
            return Err(failed);
        }
    }
    Ok(())
}

// Counts a message no longer under the first so many rules.
fn lower_loads(
    cluster: &Cluster,
    counts: &mut Counts,
    instance: InstanceId,
    message: &Message,
    rules: usize,
)
    ensures { AreLoadsLowered cluster.now instance message.now rules counts.old counts.new }
{
    for (place, rule) in cluster.rules.as_slice().iter().enumerate() {
        if place < rules {
            lower_rule(rule, place, counts, instance, message);
        }
    }
}

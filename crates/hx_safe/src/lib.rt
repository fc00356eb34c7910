//! Laws of every cluster along a legal history: it is safe, its lists stand in order, its ids are
//! in range, and each handler runs once. The contract of each function is a law over the
//! definitions alone.
#![tactic(auto)]

mod runs;

ghost use Rattle.std.specs.Prelude.{◌≡◌, ◌⊎◌, ◌≤◌, ℕ, List, Option, Some};
ghost use Rattle.hx_ids.specs.declared.PartId.{PartId};
ghost use Rattle.hx_ids.specs.declared.StateId.{StateId};
ghost use Rattle.hx_cluster.specs.declared.description.Spec.{Spec};
ghost use Rattle.hx_cluster.specs.declared.happenings.Event.{Event};
ghost use Rattle.hx_cluster.specs.declared.state.Cluster.{Cluster};
ghost use Rattle.hx_cluster.specs.Ends.{count_of, limit_at};
ghost use Rattle.hx_cluster.specs.Steps.{opening};
ghost use Rattle.hx_cluster.specs.Events.{next, replay, IsStep, IsLegal};
ghost use Rattle.hx_cluster.specs.Safe.{IsBoundedBy, IsSafeBy, IsSafe, SafeAlong};
ghost use Rattle.hx_cluster.specs.Valid.{IsValid};
ghost use Rattle.hx_cluster.specs.Ranged.{IsRanged};
ghost use Rattle.hx_safe.specs.Ordered.{IsOrdered};
ghost use Rattle.hx_cluster.specs.Weight.{weight_of_all};
ghost use Rattle.hx_safe.specs.Along.{HoldsAlong};
ghost use Rattle.hx_safe.specs.Weighed.{IsWeighed};

pub use runs::{all_but_dispatches_are_calm, events_lead_on, legal_has_one_run_each};

/// Each cluster along a legal history is safe: before each event, and after the last.
pub fn legal_is_safe()
    ensures { (spec : Spec) → IsValid spec → (h : List Event) → IsLegal (opening spec) h
        → SafeAlong (opening spec) h }
{}

/// So is the cluster that it leads to.
pub fn reached_is_safe()
    ensures { (spec : Spec) → IsValid spec → (h : List Event) → IsLegal (opening spec) h
        → IsSafe (replay (opening spec) h) }
{}

/// Rows and reset flags stand by session, then part, and messages by number, all along a legal
/// history.
pub fn legal_is_ordered()
    ensures { (spec : Spec) → IsValid spec → (h : List Event) → IsLegal (opening spec) h
        → HoldsAlong IsOrdered (opening spec) h }
{}

/// So they do at its end.
pub fn reached_is_ordered()
    ensures { (spec : Spec) → IsValid spec → (h : List Event) → IsLegal (opening spec) h
        → IsOrdered (replay (opening spec) h) }
{}

/// All ids are in range, and each ideal state is without fault, all along a legal history.
pub fn legal_is_ranged()
    ensures { (spec : Spec) → IsValid spec → (h : List Event) → IsLegal (opening spec) h
        → HoldsAlong IsRanged (opening spec) h }
{}

/// So they are at its end.
pub fn reached_is_ranged()
    ensures { (spec : Spec) → IsValid spec → (h : List Event) → IsLegal (opening spec) h
        → IsRanged (replay (opening spec) h) }
{}

/// Its numbers rose no further than its history weighs, and each event that may still come to a live
/// session or a message was paid for.
pub fn reached_is_weighed()
    ensures { (spec : Spec) → IsValid spec → (h : List Event) → IsLegal (opening spec) h
        → IsWeighed (replay (opening spec) h) (weight_of_all h) }
{}

/// Where a state has a limit after an event, no more replicas have it among their ends than before
/// the event, or no more than the limit, whatever number was allowed before.
pub fn counts_rise_to_limits_alone()
    ensures { (allowed : PartId → StateId → Option ℕ) (c : Cluster) (e : Event) → IsSafeBy allowed c
        → IsRanged c → IsStep c e
        → (p : PartId) (t : StateId) (limit : ℕ) → limit_at (next c e) p t ≡ Some limit
        → (count_of (next c e) p t ≤ count_of c p t) ⊎ (count_of (next c e) p t ≤ limit) }
{}

/// And an event keeps all else that makes a cluster safe, whatever number is allowed before it and
/// after it.
pub fn bounded_stays_safe()
    ensures { (allowed after : PartId → StateId → Option ℕ) (c : Cluster) (e : Event)
        → IsSafeBy allowed c
        → IsRanged c → IsStep c e
        → IsBoundedBy after (next c e) → IsSafeBy after (next c e) }
{}

//! What events change, and the runs of handlers along a legal history. The contract of each
//! function is a law over the definitions alone.
ghost use Rattle.std.specs.Prelude.{◌≡◌, false, List};
ghost use Rattle.hx_cluster.specs.declared.happenings.Event.{Event};
ghost use Rattle.hx_cluster.specs.declared.state.Cluster.{Cluster};
ghost use Rattle.hx_cluster.specs.declared.description.Spec.{Spec};
ghost use Rattle.hx_cluster.specs.Steps.{opening};
ghost use Rattle.hx_cluster.specs.Events.{next, IsLegal};
ghost use Rattle.hx_cluster.specs.Valid.{IsValid};
ghost use Rattle.hx_cluster.specs.Runs.{IsOneRunEach};
ghost use Rattle.hx_cluster.specs.Safe.{IsSafe};
ghost use Rattle.hx_safe.specs.Onward.{IsOn};
ghost use Rattle.hx_safe.specs.Calm.{is_dispatch, IsCalm};

/// Each event leads on: resources are added at the end alone, and a session that was there keeps
/// its instance.
pub fn events_lead_on()
    ensures { (c : Cluster) → IsSafe c → (e : Event) → IsOn c (next c e) }
{}

/// Each event but a dispatch brings no message, and moves a replica only to where its message
/// leads.
pub fn all_but_dispatches_are_calm()
    ensures { (c : Cluster) → IsSafe c → (e : Event) → is_dispatch e ≡ false → IsCalm c (next c e) }
{}

/// Along a legal history no message is taken twice, each was sent to the session that takes it, its
/// replica stands at its place from the send to the write, and each run is legal, alone and in
/// order.
pub fn legal_has_one_run_each()
    ensures { (spec : Spec) → IsValid spec → (h : List Event) → IsLegal (opening spec) h
        → IsOneRunEach (opening spec) h }
{}

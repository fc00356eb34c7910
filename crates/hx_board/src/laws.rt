//! Laws of boards. The contract of each function is a law over the definitions alone.
ghost use Rattle.std.specs.Prelude.{◌≡◌, ◌+◌, ◌≤◌, ℕ, List, length, nat_lt};
ghost use Rattle.hx_ids.specs.declared.InstanceId.{InstanceId};
ghost use Rattle.hx_ids.specs.declared.ControllerId.{ControllerId};
ghost use Rattle.hx_ids.specs.declared.StateId.{StateId};
ghost use Rattle.hx_cluster.specs.declared.description.Spec.{Spec};
ghost use Rattle.hx_cluster.specs.declared.happenings.Event.{Event};
ghost use Rattle.hx_cluster.specs.Steps.{opening, has_instance, has_controller};
ghost use Rattle.hx_cluster.specs.Events.{replay, has_state_name, IsStep, IsLegal};
ghost use Rattle.hx_cluster.specs.Weight.{weight_of, weight_of_all, owed_of};
ghost use Rattle.hx_cluster.specs.Valid.{IsValid};
ghost use Rattle.hx_cluster.specs.Safe.{SafeAlong};
ghost use Rattle.hx_cluster.specs.Runs.{IsOneRunEach};
ghost use Rattle.hx_board.specs.Board.{Held, new_board, weight_at, happened, IsInOrder};
ghost use Rattle.hx_board.specs.Board.{HasHistory};

/// Along every legal history no bound and no throttle is passed, and each message runs once.
pub fn legal_histories_are_safe_and_run_once()
    ensures { (spec : Spec) → IsValid spec → (h : List Event) → IsLegal (opening spec) h
        → SafeAlong (opening spec) h × IsOneRunEach (opening spec) h }
{}

/// What holds of each board's history holds at the opening.
pub fn boards_open_with_their_history()
    ensures { (spec : Spec) → IsValid spec → (lines : List ℕ) → (limit : ℕ)
        → HasHistory (new_board spec lines limit) }
{}

/// And it goes on to hold with each event that may happen, that has room, and that takes no line
/// but the next.
pub fn events_keep_the_history()
    ensures { (b : Held) → HasHistory b → (e : Event) → IsStep b.cluster e → IsInOrder b e
        → weight_at b + weight_of e ≤ b.limit → HasHistory (happened b e) }
{}

/// No event changes how many instances, controllers and states there are.
pub fn ranges_are_those_of_the_description()
    ensures instances { (spec : Spec) (h : List Event) (i : InstanceId)
        → has_instance (replay (opening spec) h) i ≡ nat_lt i.0 (length spec.instances) }
    ensures controllers { (spec : Spec) (h : List Event) (k : ControllerId)
        → has_controller (replay (opening spec) h) k ≡ nat_lt k.0 spec.controllers }
    ensures states { (spec : Spec) (h : List Event) (t : StateId)
        → has_state_name (replay (opening spec) h) t ≡ nat_lt t.0 (length spec.states) }
{}

/// A history has no more events than it weighs, those among them that may still come to a message
/// or a session.
pub fn each_event_is_paid_for()
    ensures { (spec : Spec) (h : List Event) → IsLegal (opening spec) h
        → length h + owed_of (replay (opening spec) h) ≤ weight_of_all h }
{}

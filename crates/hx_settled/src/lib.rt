//! What a plan does whose view was read at one moment. The contract of each function is a law over
//! the definitions alone.
#![tactic(auto)]

ghost use Rattle.std.specs.Prelude.{◌≡◌, ◌≤◌, ◌+◌, ◌*◌, ◌==◌, ◌&&◌, ℕ, true, false};
ghost use Rattle.std.specs.Prelude.{List, [], length, Some, nat_le};
ghost use Rattle.std.specs.List.{All, list_all, sum_by};
ghost use Rattle.hx_lists.specs.Lists.{count};
ghost use Rattle.hx_ids.specs.declared.InstanceId.{InstanceId};
ghost use Rattle.hx_ids.specs.declared.SessionId.{SessionId};
ghost use Rattle.hx_ids.specs.declared.PartId.{PartId};
ghost use Rattle.hx_ids.specs.declared.ControllerId.{ControllerId};
ghost use Rattle.hx_ids.specs.declared.MsgId.{MsgId};
ghost use Rattle.hx_model.specs.declared.ModelParts.{ModelParts};
ghost use Rattle.hx_model.specs.Model.{error};
ghost use Rattle.hx_cluster.specs.declared.description.Resource.{Resource};
ghost use Rattle.hx_cluster.specs.declared.state.Cluster.{Cluster};
ghost use Rattle.hx_cluster.specs.declared.planning.View.{View};
ghost use Rattle.hx_cluster.specs.declared.state.Message.{Message};
ghost use Rattle.hx_cluster.specs.declared.happenings.Outcome.{Outcome};
ghost use Rattle.hx_cluster.specs.declared.happenings.Outcome.TheVariants as outcomes;
ghost use Rattle.hx_cluster.specs.declared.description.Spec.{Spec};
ghost use Rattle.hx_cluster.specs.declared.planning.Report.{Report};
ghost use Rattle.hx_cluster.specs.declared.happenings.Event.{Event};
ghost use Rattle.hx_cluster.specs.Valid.{has_no_fault};
ghost use Rattle.hx_cluster.specs.Ends.{part_eq, state_of};
ghost use Rattle.hx_cluster.specs.Messages.{placed_all, message_from, pending_of, after_write};
ghost use Rattle.hx_cluster.specs.Events.{dispatched_of, next, replay, IsLegal};
ghost use Rattle.hx_cluster.specs.Steps.{opening};
ghost use Rattle.hx_cluster.specs.Valid.{IsValid};
ghost use Rattle.hx_cluster.specs.Safe.{IsSafe};
ghost use Rattle.hx_cluster.specs.Ranged.{IsRanged};
ghost use Rattle.hx_cluster.specs.Views.{is_well_formed};
ghost use Rattle.hx_best.specs.Targets.{all_targets};
ghost use Rattle.hx_best.specs.Goals.{is_in_error, goal};
ghost use Rattle.hx_pass.specs.Turns.{turn_of, view_of};
ghost use Rattle.hx_pass.specs.Left.{left_of};
ghost use Rattle.hx_pass.specs.Explained.{view_at, IsExplained};
ghost use Rattle.hx_pass.specs.Plans.{all_candidates, throttled_of, proposal, plan};
ghost use Rattle.hx_lawful.specs.Reading.{is_read};
ghost use Rattle.hx_lawful.specs.Gate.{Shows};
ghost use Rattle.hx_control.specs.declared.PassOutcome.TheVariants as ends;
ghost use Rattle.hx_control.specs.Controllers.{Controller};
ghost use Rattle.hx_control.specs.OfBoard.{OfBoard};
ghost use Rattle.hx_control.specs.Steps.{Calls, is_sent, step_of};
ghost use Rattle.hx_settled.specs.Moments.{AgreesWith};
ghost use Rattle.hx_settled.specs.Hops.{HaveHops};
ghost use Rattle.hx_settled.specs.Nothing.{IsAllFull};
ghost use Rattle.hx_settled.specs.Places.{places_of, left_at, tries_left, is_spendable, spent};
ghost use Rattle.hx_settled.specs.Resets.{LeavesErrorAsked};
ghost use Rattle.hx_settled.specs.Ways.{is_target_for, IsOfItsTarget, IsOnItsWay, HasSameGoals};
ghost use Rattle.hx_settled.specs.Standing.{IsCounted, read_at};

/// What a cluster shows at one moment is well formed.
pub fn views_of_one_moment_are_well_formed()
    ensures { (c : Cluster) → IsSafe c → IsRanged c
        → is_well_formed c.models (length c.instances) (view_at c) ≡ true }
{}

/// It shows the cluster: no message and no replica is missing.
pub fn views_of_one_moment_show_their_cluster()
    ensures { (c : Cluster) → IsSafe c → Shows c (view_at c) }
{}

/// It agrees with it in rows, messages, counts and loads, so that a plan of it finds what the board
/// has.
pub fn views_of_one_moment_agree_with_their_cluster()
    ensures { (c : Cluster) → IsSafe c → AgreesWith c (view_at c) }
{}

/// In a well-formed view each target that isn't at its goal has a next transition. It is legal and
/// one nearer; it leads to DROPPED only where that is the goal, and never to ERROR.
pub fn each_target_has_a_hop()
    ensures { (models : List ModelParts) (instances : ℕ) (view : View)
        → list_all has_no_fault models ≡ true → is_well_formed models instances view ≡ true
        → HaveHops models view }
{}

/// In a well-formed view no replica has two targets.
pub fn each_replica_has_one_target()
    ensures { (models : List ModelParts) (instances : ℕ) (view : View)
        → is_well_formed models instances view ≡ true → (s : SessionId) (p : PartId)
        → count (is_target_for s p) (all_targets models view) ≤ 1 }
{}

/// And each candidate is that of its replica's target, so no replica has two.
pub fn each_candidate_is_of_its_target()
    ensures { (models : List ModelParts) (instances : ℕ) (view : View)
        → is_well_formed models instances view ≡ true
        → All (IsOfItsTarget models view) (all_candidates models view) }
{}

/// Where no message is pending and the plan sends nothing, nothing is accepted either: each
/// candidate is for a state that is full.
pub fn where_nothing_is_sent_all_is_full()
    ensures { (c : Cluster) → IsRanged c → c.mail ≡ []
        → (throttled_of c.models c.rules (view_at c)).sent ≡ [] → IsAllFull c.models (view_at c) }
{}

/// So a settled pass explains each replica: where no message is pending and a plan of the cluster
/// proposes nothing, each replica is at its goal, or in ERROR without a reset, or waits for a state
/// that has as many holders as it may, and the report says which.
pub fn settled_passes_explain_each_replica()
    ensures { (c : Cluster) → IsSafe c → IsRanged c → c.mail ≡ []
        → (plan c.models c.rules (view_at c)).proposals ≡ []
        → IsExplained c (plan c.models c.rules (view_at c)).report }
{}

/// The board sends each proposal of a plan of what it shows at one moment: none is refused, no
/// session has ended, and a dropped resource without a row has no proposal.
pub fn plans_of_one_moment_are_sent_whole()
    ensures { (c : Cluster) → IsSafe c → IsRanged c
        → list_all is_sent (placed_all c (plan c.models c.rules (view_at c)).proposals) ≡ true }
{}

/// So is each in the dispatch of a controller.
pub fn dispatches_of_one_moment_are_sent_whole()
    ensures { (c : Cluster) (k : ControllerId) → IsSafe c → IsRanged c
        → list_all is_sent
        (dispatched_of c k (plan c.models c.rules (view_at c)).proposals).placed ≡ true }
{}

/// Each event raises the change number, or leaves all that reads show as it was.
pub fn events_raise_the_change_number_or_keep_what_is_shown()
    ensures { (c : Cluster) (e : Event) → IsSafe c → IsCounted c (next c e) }
{}

/// So where the change number stood still since a turn's begin, whatever stands between its reads,
/// the turn was shown the cluster as it is at one moment.
pub fn turns_without_a_change_see_one_moment()
    ensures { (spec : Spec) (h : List Event) (k : ControllerId) → IsValid spec
        → IsLegal (opening spec) h → is_read (turn_of spec k h) ≡ true
        → (turn_of spec k h).begun.change ≡ (replay (opening spec) h).change
        → view_of spec k h ≡ read_at (replay (opening spec) h) }
{}

/// And its plan and its report are those of the cluster's view.
pub fn plans_look_up_what_a_moment_has()
    ensures { (c : Cluster) → IsSafe c
        → plan c.models c.rules (read_at c) ≡ plan c.models c.rules (view_at c) }
{}

/// So a turn of the board that settles explains each replica of the board, as it is before the
/// dispatch and as the dispatch leaves it.
pub fn settled_turns_explain_the_board()
    ensures { (spec : Spec) (h : List Event) (x : Controller) (e : Event) (report : Report)
        → IsValid spec → IsLegal (opening spec) h → OfBoard spec h x
        → step_of spec (replay (opening spec) h) x ≡ Calls e (Some (ends.Settled report))
        → IsExplained (replay (opening spec) h) report
        × IsExplained (next (replay (opening spec) h) e) report }
{}

/// A replica leaves ERROR only where somebody asked for a reset.
pub fn candidates_leave_error_by_resets()
    ensures { (models : List ModelParts) (instances : ℕ) (view : View)
        → list_all has_no_fault models ≡ true → is_well_formed models instances view ≡ true
        → All (LeavesErrorAsked view) (all_candidates models view) }
{}

/// Goals depend on the live sessions, on the ideals, and on which replicas are in ERROR, and on
/// nothing else.
pub fn goals_look_at_errors_alone()
    ensures { (models : List ModelParts) (v w : View) → v.live ≡ w.live → v.ideals ≡ w.ideals
        → ((s : SessionId) (p : PartId) → is_in_error v s p ≡ is_in_error w s p)
        → (r : Resource) (p : PartId) (s : SessionId) (i : InstanceId)
        → goal models v r p s i ≡ goal models w r p s i }
{}

/// How many transitions a cluster's replicas are from their goals is the sum over all parts on all
/// live sessions: a replica that isn't there and isn't wanted adds nothing.
pub fn left_is_the_sum_over_all_places()
    ensures { (c : Cluster) → left_of c ≡ sum_by (left_at c) (places_of c) }
{}

/// It is at most the number of live sessions times that of all parts, times one more than a model
/// has states.
pub fn left_is_at_most_one_walk_each()
    ensures { (c : Cluster) (most : ℕ) → IsSafe c → IsRanged c
        → list_all (λ m. nat_le (length m.states) most) c.models ≡ true
        → left_of c ≤ length c.live * sum_by (λ r. r.ideal.parts) c.resources * (most + 1) }
{}

/// How often replicas may still fail or be reset is at most twice the number of live sessions times
/// that of all parts.
pub fn tries_are_at_most_two_each()
    ensures { (c : Cluster)
        → tries_left c ≤ 2 * (length c.live * sum_by (λ r. r.ideal.parts) c.resources) }
{}

/// The write of a transition from another state than ERROR leaves as many tries, and one less where
/// it failed; and the success of a reset that was asked for takes one.
pub fn failures_and_resets_take_a_try()
    ensures { (c : Cluster) (s : SessionId) (id : MsgId) (m : Message) (outcome : Outcome)
        → IsSafe c → IsRanged c → pending_of c s id ≡ Some m → m.written ≡ false
        → is_spendable c m outcome ≡ true
        → tries_left c ≡ tries_left (after_write c s id outcome) + spent m outcome }
{}

/// Each message that a plan of one moment sends is on its way: its target isn't at its goal, and it
/// leads where the target's next transition does.
pub fn sent_messages_are_on_their_way()
    ensures { (c : Cluster) (id : MsgId) → All (λ x. IsOnItsWay c (message_from c id (proposal x)))
        (throttled_of c.models c.rules (view_at c)).sent }
{}

/// It stays so while its replica stands where it stood, and goals are what they were.
pub fn messages_stay_on_their_way()
    ensures { (c d : Cluster) (m : Message) → HasSameGoals c d
        → state_of d.rows m.session m.part ≡ state_of c.rows m.session m.part
        → IsOnItsWay c m → IsOnItsWay d m }
{}

/// The success of another replica's transition, from another state than ERROR, keeps it so.
pub fn success_keeps_others_on_their_way()
    ensures { (c : Cluster) (s : SessionId) (id : MsgId) (m x : Message) → IsSafe c → IsRanged c
        → pending_of c s id ≡ Some m → m.written ≡ false → (m.from.0 == error.0) ≡ false
        → ((x.session.0 == m.session.0) && part_eq x.part m.part) ≡ false
        → IsOnItsWay c x → IsOnItsWay (after_write c s id outcomes.Ok) x }
{}

/// And the success of a message on its way, from another state than ERROR, leaves one transition
/// less.
pub fn success_on_the_way_leaves_one_less()
    ensures { (c : Cluster) (s : SessionId) (id : MsgId) (m : Message) → IsSafe c → IsRanged c
        → pending_of c s id ≡ Some m → m.written ≡ false → (m.from.0 == error.0) ≡ false
        → IsOnItsWay c m → left_of c ≡ left_of (after_write c s id outcomes.Ok) + 1 }
{}

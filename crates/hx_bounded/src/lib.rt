//! Settles end: in no more rounds than are enough, whatever handlers answer. The contract of each
//! function is a law over the definitions alone.
#![tactic(auto)]

ghost use Rattle.std.specs.Prelude.{◌≡◌, ◌≤◌, ◌<◌, ◌+◌, ◌*◌, ℕ, true, List, [], ◌∷◌, Some};
ghost use Rattle.hx_ids.specs.declared.ControllerId.{ControllerId};
ghost use Rattle.hx_ids.specs.declared.SessionId.{SessionId};
ghost use Rattle.hx_ids.specs.declared.MsgId.{MsgId};
ghost use Rattle.hx_cluster.specs.declared.description.Spec.{Spec};
ghost use Rattle.hx_cluster.specs.declared.state.Message.{Message};
ghost use Rattle.hx_cluster.specs.declared.state.Cluster.{Cluster};
ghost use Rattle.hx_cluster.specs.declared.happenings.Outcome.{Outcome};
ghost use Rattle.hx_cluster.specs.declared.happenings.Proposal.{Proposal};
ghost use Rattle.hx_cluster.specs.Messages.{
  pending_of,
  after_take,
  after_write,
  after_ack,
  after_dispatch,
};
ghost use Rattle.hx_cluster.specs.Events.{can_write, can_ack};
ghost use Rattle.hx_cluster.specs.Safe.{IsSafe};
ghost use Rattle.hx_cluster.specs.Ranged.{IsRanged};
ghost use Rattle.hx_cluster.specs.Valid.{IsValid};
ghost use Rattle.hx_pass.specs.Plans.{plan};
ghost use Rattle.hx_pass.specs.Left.{left_of};
ghost use Rattle.hx_pass.specs.Explained.{view_at};
ghost use Rattle.hx_worlds.specs.declared.Voice.TheVariants.{Quiet};
ghost use Rattle.hx_worlds.specs.World.{State};
ghost use Rattle.hx_worlds.specs.Turns.{do_pass};
ghost use Rattle.hx_worlds.specs.Settles.{enough_rounds, work_all, settle};
ghost use Rattle.hx_scripted.specs.OfHistory.{IsOfItsHistory};
ghost use Rattle.hx_agreed.specs.InStep.{IsInStep};
ghost use Rattle.hx_settled.specs.Places.{tries_left};
ghost use Rattle.hx_bounded.specs.Ending.{IfGoesOn, IsEnd};
ghost use Rattle.hx_bounded.specs.Measure.{all_walks, work_left};
ghost use Rattle.hx_bounded.specs.Falling.{is_honest, IsFalling};
ghost use Rattle.hx_bounded.specs.Rounds.{
  IsSound,
  HasNothingToDo,
  IsBetweenRounds,
  IsOver,
  SettlesOrLeavesLess,
};

/// What a settle may still have to do fits into the rounds that are enough for its cluster, with
/// two to spare: the first one, and the one that settles.
pub fn work_fits_into_enough_rounds()
    ensures { (c : Cluster) → IsSafe c → IsRanged c → work_left c + 2 ≤ enough_rounds c }
{}

/// Where nothing is pending, a dispatch of what a plan of one moment proposes begins a round that
/// falls: each message is on its way, and leaves ERROR only by a reset that was asked for.
pub fn dispatches_begin_rounds_that_fall()
    ensures { (c : Cluster) (k : ControllerId) (q : Proposal) (qs : List Proposal) → IsSafe c
        → IsRanged c → c.mail ≡ []
        → (plan c.models c.rules (view_at c)).proposals ≡ q ∷ qs
        → IsFalling (all_walks c) (tries_left c) (left_of c) (after_dispatch c k (q ∷ qs)) }
{}

/// It goes on falling as messages are taken,
pub fn takes_let_rounds_fall()
    ensures { (walks tries left : ℕ) (c : Cluster) (s : SessionId) (id : MsgId)
        → IsFalling walks tries left c → IsFalling walks tries left (after_take c s id) }
{}

/// as they are written, where a transition from ERROR doesn't fail: a failure or a reset takes a
/// try, and any other success leaves one transition less, and the others on their way;
pub fn writes_let_rounds_fall()
    ensures { (walks tries left : ℕ) (c : Cluster) (s : SessionId) (id : MsgId) (m : Message)
        (outcome : Outcome) → IsSafe c → IsRanged c → can_write c s id ≡ true
        → pending_of c s id ≡ Some m → is_honest m outcome ≡ true
        → IsFalling walks tries left c → IsFalling walks tries left (after_write c s id outcome) }
{}

/// and as they are acknowledged.
pub fn acknowledgements_let_rounds_fall()
    ensures { (walks tries left : ℕ) (c : Cluster) (s : SessionId) (id : MsgId)
        → IsSafe c → IsRanged c → can_ack c s id ≡ true
        → IsFalling walks tries left c → IsFalling walks tries left (after_ack c s id) }
{}

/// Once nothing is pending there is less to do than the round began with.
pub fn rounds_that_fell_leave_less()
    ensures { (walks tries left : ℕ) (c : Cluster) → IsSafe c → IsRanged c → c.mail ≡ []
        → IsFalling walks tries left c → work_left c < tries * walks + left }
{}

/// Work on all live instances leaves nothing to do: no message is pending, and of a live session no
/// job is open and no message is accepted, whatever was open before and whatever handlers answer.
pub fn work_leaves_nothing_to_do()
    ensures { (spec : Spec) (x : State) → IsValid spec → IsSound spec x.world
        → IfGoesOn (λ _ y. IsSound spec y.world × HasNothingToDo y.world) (work_all x) }
{}

/// A turn of the leader, or the rest of one, leaves no call of it; and if it settles, its report
/// explains the cluster that it leaves.
pub fn turns_of_the_leader_end()
    ensures { (spec : Spec) (k : ControllerId) (x : State) → IsValid spec → IsSound spec x.world
        → x.world.cluster.leader ≡ Some k → IfGoesOn (IsOver k) (do_pass Quiet k x) }
{}

/// So after the first round each round settles, or its work leaves less to do, and again nothing
/// pending.
pub fn later_rounds_settle_or_leave_less()
    ensures { (spec : Spec) (k : ControllerId) (x : State) → IsValid spec → IsBetweenRounds spec k x
        → IfGoesOn (SettlesOrLeavesLess spec k (work_left x.world.cluster)) (do_pass Quiet k x) }
{}

/// So a settle answers nothing exactly where nobody leads. Else, where the history has room, it
/// settles in no more rounds than are enough for the cluster that it began with, and its report
/// explains the cluster that it leaves.
pub fn settles_end()
    ensures { (spec : Spec) (x : State) → IsValid spec → IsOfItsHistory spec x.world
        → IsInStep x.world
        → IfGoesOn (IsEnd x.world.cluster x.world.cluster.leader) (settle x) }
{}

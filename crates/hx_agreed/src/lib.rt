//! What the lines of a script keep of a world: its parts agree. The contract of each function is a
//! law over the definitions alone.
#![tactic(auto)]

ghost use Rattle.std.specs.Prelude.{◌≡◌, ℕ, true, List, [], is_none};
ghost use Rattle.std.specs.List.{All, list_all};
ghost use Rattle.hx_cluster.specs.declared.description.Spec.{Spec};
ghost use Rattle.hx_cluster.specs.declared.state.Message.{Message};
ghost use Rattle.hx_cluster.specs.Valid.{IsValid};
ghost use Rattle.hx_cluster.specs.Steps.{opening};
ghost use Rattle.hx_cluster.specs.Events.{IsLegal};
ghost use Rattle.hx_replicas.specs.Participants.{all_idle, accepted_of};
ghost use Rattle.hx_control.specs.Controllers.{Controller, idle_controller};
ghost use Rattle.hx_script.specs.declared.Line.{Line};
ghost use Rattle.hx_worlds.specs.World.{World, Job, State, opening_world};
ghost use Rattle.hx_worlds.specs.Runs.{state_of};
ghost use Rattle.hx_worlds.specs.Settles.{settle};
ghost use Rattle.hx_worlds.specs.Scripts.{do_line, is_next_line};
ghost use Rattle.hx_worlds.specs.Agree.{
  Agree,
  AgreeOpen,
  BoardState,
  IsKept,
  Stationed,
  board_of,
  stationed_from,
};
ghost use Rattle.hx_scripted.specs.OfHistory.{IsOfItsHistory};
ghost use Rattle.hx_agreed.specs.InStep.{IsInStep};
ghost use Rattle.hx_agreed.specs.OfParts.{IsOfParts};

/// A world of its history that is in step keeps what a world keeps: its parts agree with what is
/// open.
pub fn worlds_in_step_are_kept()
    ensures { (spec : Spec) (w : World) → IsValid spec → IsOfItsHistory spec w → IsInStep w
        → IsKept w }
{}

/// The world that a script begins with is in step, and its parts agree.
pub fn openings_agree()
    ensures { (spec : Spec) (limit : ℕ) → IsValid spec → let w = opening_world spec limit in
        IsInStep w × IsKept w
        × Agree spec (board_of w) w.controllers (stationed_from 0 w.participants) }
{}

/// A line that a world can be given next leaves it in step, whatever handlers answer, and also
/// where the history has no room: so its parts agree.
pub fn lines_keep_worlds()
    ensures { (spec : Spec) (line : Line) (x : State) → IsValid spec → IsOfItsHistory spec x.world
        → IsInStep x.world → is_next_line spec x.world.cluster.line line ≡ true
        → let w = (state_of (do_line line x)).world in IsInStep w × IsKept w }
{}

/// So does a settle by itself.
pub fn settles_keep_worlds()
    ensures { (spec : Spec) (x : State) → IsValid spec → IsOfItsHistory spec x.world
        → IsInStep x.world
        → let w = (state_of (settle x)).world in IsInStep w × IsKept w }
{}

/// Where turns and participants are idle, parts that agree with what is open agree.
pub fn idle_parts_agree()
    ensures { (given : Spec) (b : BoardState) (ks : List Controller) (ps : List Stationed)
        (jobs : List Job) (bag : List Message) → AgreeOpen given b ks ps jobs bag
        → All (λ k. k ≡ idle_controller k.id) ks
        → list_all (λ p. all_idle p.plain) ps ≡ true → Agree given b ks ps }
{}

/// They are idle where no job is open and no message is accepted.
pub fn parts_without_work_agree()
    ensures { (given : Spec) (b : BoardState) (ks : List Controller) (ps : List Stationed)
        (bag : List Message) → AgreeOpen given b ks ps [] bag
        → All (λ k. k ≡ idle_controller k.id) ks
        → list_all (λ p. list_all (λ x. is_none (accepted_of x.work)) p.plain.slots) ps ≡ true
        → Agree given b ks ps }
{}

/// A world of parts that agree is in step and of its history, where that is legal.
pub fn agreeing_parts_are_in_step()
    ensures { (spec : Spec) (w : World) → IsValid spec → IsOfParts spec w
        → IsLegal (opening spec) w.history → IsInStep w × IsOfItsHistory spec w }
{}

//! What holds of the histories of scripts, and of the worlds in which they are done. The contract
//! of each function is a law over the definitions alone.
#![tactic(auto)]

ghost use Rattle.std.specs.Prelude.{◌≡◌, ◌++◌, ℕ, true, List, None, Ok};
ghost use Rattle.hx_cluster.specs.declared.description.Spec.{Spec};
ghost use Rattle.hx_cluster.specs.declared.happenings.Event.{Event};
ghost use Rattle.hx_cluster.specs.Valid.{IsValid};
ghost use Rattle.hx_script.specs.declared.Line.{Line};
ghost use Rattle.hx_script.specs.Grammar.{script_of};
ghost use Rattle.hx_pass.specs.Lawful.{IsLawful};
ghost use Rattle.hx_worlds.specs.World.{State};
ghost use Rattle.hx_worlds.specs.Runs.{state_of};
ghost use Rattle.hx_worlds.specs.Settles.{settle};
ghost use Rattle.hx_worlds.specs.Scripts.{do_line, is_next_line, are_next_lines, sim_history};
ghost use Rattle.hx_lawful.specs.Holding.{HoldsOfLawful};
ghost use Rattle.hx_scripted.specs.OfHistory.{IsOfItsHistory};

/// A line that a world can be given next leaves it one of its history, whatever handlers answer,
/// and also where the history has no room. A history that was lawful stays lawful.
pub fn lines_keep_worlds_of_their_histories()
    ensures kept { (spec : Spec) (line : Line) (x : State) → IsValid spec
        → IsOfItsHistory spec x.world → is_next_line spec x.world.cluster.line line ≡ true
        → IsOfItsHistory spec (state_of (do_line line x)).world }
    ensures lawful { (spec : Spec) (line : Line) (x : State) → IsValid spec
        → IsOfItsHistory spec x.world → IsLawful spec x.world.history
        → is_next_line spec x.world.cluster.line line ≡ true
        → IsLawful spec (state_of (do_line line x)).world.history }
{}

/// So does a settle by itself.
pub fn settles_keep_worlds_of_their_histories()
    ensures kept { (spec : Spec) (x : State) → IsValid spec → IsOfItsHistory spec x.world
        → IsOfItsHistory spec (state_of (settle x)).world }
    ensures lawful { (spec : Spec) (x : State) → IsValid spec → IsOfItsHistory spec x.world
        → IsLawful spec x.world.history → IsLawful spec (state_of (settle x)).world.history }
{}

/// The history of a script is lawful, if a world can be given its lines in turn.
pub fn scripts_are_lawful()
    ensures { (spec : Spec) (lines : List Line) → IsValid spec
        → are_next_lines spec None lines ≡ true → IsLawful spec (sim_history spec lines) }
{}

/// So at each place of it the cluster is safe: no state's bound is exceeded, counting both ends of
/// transitions in flight, and no throttle is passed. Each message that was taken has one run, legal
/// and alone. What each controller was shown covers the board, while its epoch and pass stand; and
/// no dispatch was refused a proposal for a pending message, for where its replica stands, for its
/// transition, nor by a bound or a throttle.
pub fn what_holds_of_scripts()
    ensures { (spec : Spec) (lines : List Line) (h more : List Event) → IsValid spec
        → are_next_lines spec None lines ≡ true → sim_history spec lines ≡ h ++ more
        → HoldsOfLawful spec h }
{}

/// The lines of a script that is read can be given in turn, and the description, with the names
/// that they bring, is valid.
pub fn read_scripts_can_be_given()
    ensures { (lines : List (List ℕ)) (spec later : Spec) (script : List Line) → IsValid spec
        → script_of lines spec ≡ Ok (script, later)
        → IsValid later × (are_next_lines later None script ≡ true) }
{}

/// So a script that is read has a lawful history.
pub fn read_scripts_are_lawful()
    ensures { (lines : List (List ℕ)) (spec later : Spec) (script : List Line) → IsValid spec
        → script_of lines spec ≡ Ok (script, later)
        → IsLawful later (sim_history later script) }
{}

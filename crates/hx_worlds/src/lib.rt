//! The plain world in which a script is done. The contract of each function is a law over the definitions alone.
#![tactic(auto)]

ghost use Rattle.std.specs.Prelude.{◌≡◌, List};
ghost use Rattle.hx_cluster.specs.declared.description.Spec.{Spec};
ghost use Rattle.hx_script.specs.declared.Line.{Line};
ghost use Rattle.hx_worlds.specs.World.{State};
ghost use Rattle.hx_worlds.specs.Runs.{state_of};
ghost use Rattle.hx_worlds.specs.Brings.{BringsIts, past_of};
ghost use Rattle.hx_worlds.specs.Scripts.{do_line, sim_run, sim_history};

use hx_cluster::Report;

/// Whether the refusals of what is done are noted, on a script line; inside `work` and the rounds of
/// `settle` nothing is said.
#[derive(Clone, Copy, Debug, PartialEq, Eq)]
pub enum Voice {
    Loud(u32),
    Quiet,
}

/// What a settle came to.
#[derive(Drop)]
pub struct Settled {
    /// How many rounds there were, the last one among them.
    pub passes: u64,
    /// That of the turn that settled. None where these rounds were not enough.
    pub report: Option<Report>,
}

/// A line of a script brings what it adds to the world: its events to the history, and their weight
/// with that of what it says.
pub fn line_brings_what_it_adds()
    ensures { (line : Line) → (x : State) → BringsIts (past_of x) (do_line line x) }
{}

/// The history of a script, whose entries its output is, is that of the world that it leaves.
pub fn script_prints_its_history()
    ensures { (spec : Spec) → (lines : List Line) → (state_of (sim_run spec lines)).world.history ≡ sim_history spec lines }
{}

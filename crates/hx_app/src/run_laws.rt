//! Laws of the runs. The contract of each function is a law over the definitions alone.
ghost use Rattle.std.specs.Prelude.{ℕ, List, IsOk, ◌≤◌};
ghost use Rattle.hx_genwork.specs.Made.{made};
ghost use Rattle.hx_app.specs.Input.{scenario_of};
ghost use Rattle.hx_app.specs.History.{IsSoundRun};

/// What happens in the run of an input is a lawful history from its cluster's opening: it is legal,
/// and each of its dispatches is what a controller works out of what it was shown. So at each place
/// of it the cluster is safe, each message that was taken has one run, and no dispatch was refused a
/// proposal.
pub fn runs_are_sound()
    ensures { (bytes : List ℕ) → IsSoundRun bytes }
{}

/// The input that is made of a seed and a size is read without fault.
pub fn made_inputs_are_read()
    ensures { (seed size : ℕ) → 1 ≤ size → size ≤ 256 → IsOk (scenario_of (made seed size)) }
{}

//! Handlers, which run the transitions of one part, and the factories that make them.
#![tactic(auto)]

ghost use Rattle.std.specs.Prelude.{◌≡◌, ◌≢◌, ℕ, ◌+◌, ◌<◌, ◌≤◌, List, Option, OnOk, OnErr, IfOk};
ghost use Rattle.std.specs.Prelude.{IfErr, IfSome, is_err, true, false};
ghost use Rattle.hx_ids.specs.declared.PartId.{PartId};
ghost use Rattle.hx_ids.specs.declared.StateId.{StateId};
ghost use Rattle.hx_model.specs.Model.{error, dropped};
ghost use Rattle.hx_cluster.specs.declared.description.Failure.{Failure};
ghost use Rattle.hx_lists.specs.Counts.{count_up, CountsOn, Rose};
ghost use Rattle.hx_handler.specs.Makings.{tried_of};

use hx_ids::{PartId, StateId};

mod kept;
mod scripted;

pub use kept::Kept;
pub use scripted::{ScriptedFactory, ScriptedHandler};

/// A run failed.
#[derive(Clone, Copy, Debug, PartialEq, Eq)]
pub struct HandlerFault;

/// Why no handler was made.
#[derive(Clone, Copy, Debug, PartialEq, Eq)]
pub enum MakeFault {
    /// The making failed.
    Faulted,
    OutOfMemory,
}

/// What is left of a handler. The factory of its participant takes it back.
#[derive(Clone, Copy, Debug, PartialEq, Eq)]
pub struct Retired {
    pub part: PartId,
}

/// What runs the transitions of one part. It isn't `Drop`: each handler has to be retired.
pub trait Handler: Send {
    ghost use Rattle.hx_handler.specs.Told.{IsTold};

    /// The part and the initial state that it was made with.
    ghost part: { Self → PartId };

    ghost initial: { Self → StateId };

    /// The state at which it stands.
    ghost at: { Self → StateId };

    /// How many runs have failed. This count never falls, and one at the end of 64 bits is taken as
    /// risen.
    ghost faults: { Self → ℕ };

    /// How many runs there were since it was made. A count at the end of 64 bits stands still.
    ghost runs: { Self → ℕ };

    /// The failures by which its runs fail, where it tells them.
    ghost listed: { Self → Option (List Failure) };

    /// Runs a transition.
    fn run(&mut self, from: StateId, to: StateId) -> Result<(), HandlerFault>
        requires at { at self.old ≡ from }
        requires leaves { from ≢ error }
        requires reaches { to ≢ error }
        ensures part { part self.new ≡ part self.old }
        ensures initial { initial self.new ≡ initial self.old }
        ensures listed { listed self.new ≡ listed self.old }

        ensures runs { runs self.new ≡ count_up (runs self.old) }
        ensures ok { OnOk result (at self.new ≡ to) }
        ensures err { OnErr result (at self.new ≡ error) }
        ensures later { faults self.old ≤ faults self.new }
        ensures cause { OnErr result (Rose (faults self.old) (faults self.new)) }
        ensures told { CountsOn (runs self.old) →
            IsTold (listed self.old) (part self.old) false (runs self.old + 1) (is_err result) };

    /// Puts it at its initial state.
    fn reset(&mut self)
        ensures at { at self.new ≡ initial self.old }
        ensures part { part self.new ≡ part self.old }
        ensures initial { initial self.new ≡ initial self.old }
        ensures faults { faults self.new ≡ faults self.old }
        ensures runs { runs self.new ≡ runs self.old }
        ensures listed { listed self.new ≡ listed self.old };

    /// Ends it.
    fn retire(self) -> Retired
        requires { at self ≢ initial self → at self ≡ dropped }
        ensures { result.part ≡ part self };
}

/// What makes handlers and takes back what is left of them.
pub trait Factory: Drop + Send {
    type H: Handler;

    ghost use Rattle.hx_handler.specs.declared.MakeFault.TheVariants.{Faulted};
    ghost use Rattle.hx_handler.specs.Told.{IsTold, answer_of, tried_after};

    /// How many handlers it has made, and how many of them were retired.
    ghost made: { Self → ℕ };

    ghost retired: { Self → ℕ };

    /// How many makings have failed. This count never falls, and one at the end of 64 bits is taken
    /// as risen.
    ghost faults: { Self → ℕ };

    /// The failures by which its makings and the runs of its handlers fail, where it tells them.
    ghost listed: { Self → Option (List Failure) };

    /// For each part how many makings were answered otherwise than by want of memory, in order of
    /// the first one. A count at the end of 64 bits stands still.
    ghost tried: { Self → List (PartId × ℕ) };

    /// Makes a handler of a part.
    fn make(&mut self, part: PartId, initial: StateId) -> Result<Self::H, MakeFault>
        ensures part { IfOk result (λ h. Self.H.part h ≡ part) }
        ensures initial { IfOk result (λ h. Self.H.initial h ≡ initial) }
        ensures at { IfOk result (λ h. Self.H.at h ≡ initial) }
        ensures runs { IfOk result (λ h. Self.H.runs h ≡ 0) }
        ensures alike { IfOk result (λ h. Self.H.listed h ≡ listed self.old) }

        ensures made { OnOk result (made self.new ≡ made self.old + 1) }
        ensures not_made { OnErr result (made self.new ≡ made self.old) }
        ensures room { OnOk result (CountsOn (made self.old)) }
        ensures tried { tried self.new ≡ tried_after result (tried self.old) part }
        ensures retired { retired self.new ≡ retired self.old }
        ensures listed { listed self.new ≡ listed self.old }

        ensures later { faults self.old ≤ faults self.new }
        ensures cause { IfErr result (λ e. e ≡ Faulted → Rose (faults self.old) (faults self.new)) }
        ensures told { CountsOn (made self.old) → CountsOn (tried_of (tried self.old) part) →
            IfSome (answer_of result)
            (IsTold (listed self.old) part true (tried_of (tried self.old) part + 1)) };

    /// Takes back what is left of a handler.
    fn take_back(&mut self, rest: Retired)
        requires { retired self.old < made self.old }
        ensures retired { retired self.new ≡ retired self.old + 1 }
        ensures made { made self.new ≡ made self.old }
        ensures tried { tried self.new ≡ tried self.old }
        ensures listed { listed self.new ≡ listed self.old }
        ensures later { faults self.old ≤ faults self.new };
}

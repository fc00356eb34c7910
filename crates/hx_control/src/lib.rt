//! Controllers: their turns, step by step, and laws over the definitions.
#![tactic(auto)]

ghost use Rattle.std.specs.Prelude.{◌≡◌, false, List, [], ◌∷◌, ◌++◌};
ghost use Rattle.hx_cluster.specs.declared.description.Spec.{Spec};
ghost use Rattle.hx_cluster.specs.declared.happenings.Event.{Event};
ghost use Rattle.hx_cluster.specs.Steps.{opening};
ghost use Rattle.hx_cluster.specs.Events.{replay};
ghost use Rattle.hx_control.specs.Controllers.{Controller as Seen};
ghost use Rattle.hx_control.specs.Steps.{step_of};
ghost use Rattle.hx_control.specs.OfBoard.{OfBoard, StepKeeps, is_own};

mod controller;
mod faults;
pub mod laws;
mod reads;
mod sends;
mod steps;
mod views;

pub use controller::Controller;
use hx_cluster::Report;
use hx_ids::{ControllerId, Epoch, PassNo};

/// Where a controller's turn is: what its next step does.
#[derive(Clone, Copy, PartialEq, Eq)]
pub enum Stage {
    /// No turn is under way: the next step begins one.
    Idle,
    Live,
    /// That many of the sessions' mails were read.
    Mail(u32),
    /// That many of the sessions' states were read.
    States(u32),
    Ideals,
    Plan,
    Send,
    Post,
}

/// How the dispatch of a turn ended.
#[derive(Drop)]
pub enum PassOutcome {
    /// Proposals were dispatched, and that many became messages.
    Sent(u32),
    /// There was no proposal, and that many messages were shown.
    Waiting { pending: u32 },
    /// There was no proposal and no message, but something changed between the turn's begin and its dispatch.
    Moved { from: u64, to: u64 },
    /// There was no proposal and no message, and nothing changed.
    Settled(Report),
}

/// Why a step was not made.
#[derive(Clone, Copy, PartialEq, Eq)]
pub enum ControlFault {
    NotLeader { led_by: Option<ControllerId> },
    /// Another epoch stands.
    Fenced { now: Epoch },
    /// Another pass of the controller began.
    OldPass { now: PassNo },
    /// The history has no room for the call.
    HistoryFull { weight: u64 },
    /// What the turn was shown is no well-formed view, or has a part that the board lacks.
    OtherBoard,
    OutOfMemory,
}

/// A step of a turn that is of its board leaves one that is, with the board's history as the step
/// made it.
pub fn step_keeps_the_turn_of_the_board()
    ensures { (spec : Spec) → (h : List Event) → (x : Seen) → StepKeeps spec h x (step_of spec (replay (opening spec) h) x) }
{}

/// So does every event that isn't the controller's own.
pub fn others_keep_the_turn_of_the_board()
    ensures { (spec : Spec) → (h : List Event) → (x : Seen) → (e : Event) → is_own x.id e ≡ false → OfBoard spec h x → OfBoard spec (h ++ e ∷ []) x }
{}

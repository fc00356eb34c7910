//! A controller's step: the next call of its turn, or its plan.
ghost use Rattle.std.specs.Prelude.{◌≡◌, true, false};
ghost use Rattle.hx_cluster.specs.Steps.{has_controller};
ghost use Rattle.hx_control.specs.Steps.{step_of};
ghost use Rattle.hx_control.specs.OfBoard.{IsPlanOf, OfBoard};
ghost use Rattle.hx_control.specs.Made.{Tries, Takes, ends_turn};

use crate::controller::Next;
use crate::{ControlFault, Controller, PassOutcome};
use hx_board::Board;
use hx_cluster::Spec;
use hx_hops::Hops;

/// Whether a fault ends a turn: all do that aren't want of memory or of room.
fn ends_turn(fault: ControlFault) -> bool
    ensures { result ≡ ends_turn fault }
{
    !matches!(
        fault,
        ControlFault::HistoryFull { .. } | ControlFault::OutOfMemory
    )
}

impl Controller {
    /// Tries the next step. Where it is refused nothing changes.
    fn attempt(
        &mut self,
        spec: &Spec,
        hops: &[Hops],
        board: &mut Board,
    ) -> Result<Option<PassOutcome>, ControlFault>
        requires controller { has_controller board.old.cluster self.old.id ≡ true }
        requires board { board.old.spec ≡ spec.now }
        requires hops { hops.now ≡ spec.now.models }
        requires planned { IsPlanOf spec.now self.old.turn self.old.plan }
        ensures { Tries (step_of spec.now board.old.cluster self.old) board.old board.new self.old
            self.new result }
    {
        match self.next {
            Next::Begin => self.begin(board),
            Next::Live => self.read_live(board),
            Next::Mail(place) => self.read_mail(place, board),
            Next::States(place) => self.read_states(place, board),
            Next::Ideals => self.read_ideals(board),
            Next::Send => self.send(spec, hops, board),
            Next::Post => self.post(spec, board),
        }
    }

    /// Makes the next step of the turn, with the description of the board, which is also the one
    /// that its plan was made with, and the hops of its models. A fault ends the turn, unless it is
    /// want of memory or of room.
    #[tactic(auto, using(crate::proofs::Keeping::keeps_of_board))]
    pub fn step(
        &mut self,
        spec: &Spec,
        hops: &[Hops],
        board: &mut Board,
    ) -> Result<Option<PassOutcome>, ControlFault>
        requires controller { has_controller board.old.cluster self.old.id ≡ true }
        requires board { board.old.spec ≡ spec.now }
        requires hops { hops.now ≡ spec.now.models }
        requires planned { IsPlanOf spec.now self.old.turn self.old.plan }

        // It does what the definition of its turn says, or is refused.
        ensures takes { Takes (step_of spec.now board.old.cluster self.old) board.old board.new
            self.old self.new result }

        // A turn that is of its board stays so.
        ensures of_board { OfBoard spec.now board.old.history self.old
            → OfBoard spec.now board.new.history self.new }
    {
        board.history();
        match self.attempt(spec, hops, board) {
            Ok(outcome) => Ok(outcome),
            Err(fault) => {
                if ends_turn(fault) {
                    self.restart();
                }
                Err(fault)
            }
        }
    }
}

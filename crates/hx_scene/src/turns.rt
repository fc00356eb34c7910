//! The steps of controllers.

ghost use Rattle.std.specs.Prelude.{◌≡◌, true, slice_set, IfOk, IfNone, IfSome};
ghost use Rattle.hx_cluster.specs.Steps.{has_controller};
ghost use Rattle.hx_control.specs.Controllers.{idle_controller};
ghost use Rattle.hx_scene.specs.Advances.{advance as advances, IsRollFor, IsStepped};
ghost use Rattle.hx_scene.specs.Doing.{Does};

use crate::Scene;
use hx_board::RoomFault;
use hx_control::{ControlFault, PassOutcome, Stage};
use hx_handler::Factory;
use hx_ids::ControllerId;
use hx_print::Roll;
use hx_text::Page;
use std::alloc::AllocError;

impl<F: Factory> Scene<F> {
    /// Gives a controller's turn up. It takes no memory.
    pub fn restart(&mut self, controller: ControllerId)
        requires { has_controller self.old.board.cluster controller ≡ true }
        ensures { self.new ≡ record self.old {
          controllers = slice_set self.old.controllers controller.0 (idle_controller controller);
        } }
    {
        self.controllers[controller.0 as usize].restart();
    }

    /// What the log lines of a controller's next step need.
    fn turn_roll(&self, controller: ControllerId) -> Result<Roll, AllocError>
        requires { has_controller self.now.board.cluster controller ≡ true }
        ensures { IfOk result (λ roll. IsRollFor self.now controller roll) }
    {
        if self.controller(controller).stage() == Stage::Send {
            self.roll()
        } else {
            Ok(self.no_roll())
        }
    }

    /// What the log lines of a controller's next step need, if they are printed.
    fn roll_for(&self, controller: ControllerId) -> Result<Option<Roll>, AllocError>
        requires { has_controller self.now.board.cluster controller ≡ true }
        ensures none { IfOk result (λ found. IfNone found (self.now.muted ≡ true)) }
        ensures some { IfOk result (λ found. IfSome found (IsRollFor self.now controller)) }
    {
        if self.muted {
            return Ok(None);
        }
        Ok(Some(self.turn_roll(controller)?))
    }

    /// Takes the next step of a controller's turn.
    fn take_step(&mut self, controller: ControllerId) -> Result<Option<PassOutcome>, ControlFault>
        requires { has_controller self.old.board.cluster controller ≡ true }
        ensures { IsStepped self.old self.new controller result }
    {
        let turn = &mut self.controllers[controller.0 as usize];
        let result = turn.step(&self.spec, &self.hops, &mut self.board);
        self.board.history();
        result
    }

    /// Makes the next step of a controller's turn. It answers the outcome of a dispatch, or why the
    /// step was refused.
    pub fn advance(
        &mut self,
        controller: ControllerId,
        out: &mut Page,
    ) -> Result<Result<Option<PassOutcome>, ControlFault>, RoomFault>
        requires { has_controller self.old.board.cluster controller ≡ true }
        ensures { Does (λ x. advances controller x) (λ answer. answer)
            self.old out.old self.new out.new result }
    {
        let roll = self.roll_for(controller)?;
        self.advance_with(controller, &roll, out)
    }

    /// Makes the next step of a controller's turn, whose log lines, if they are printed, need this
    /// roll. Without one they aren't.
    fn advance_with(
        &mut self,
        controller: ControllerId,
        roll: &Option<Roll>,
        out: &mut Page,
    ) -> Result<Result<Option<PassOutcome>, ControlFault>, RoomFault>
        requires controller { has_controller self.old.board.cluster controller ≡ true }
        requires none { IfNone roll.now (self.old.muted ≡ true) }
        requires some { IfSome roll.now (IsRollFor self.old controller) }
        ensures { Does (λ x. advances controller x) (λ answer. answer)
            self.old out.old self.new out.new result }
    {
        let before = self.board.history().entries.len();
        match self.take_step(controller) {
            Ok(outcome) => {
                let Some(roll) = roll else {
                    return Ok(Ok(outcome));
                };
                self.print_grown(before, roll, out)?;
                Ok(Ok(outcome))
            }
            Err(fault) => match fault {
                ControlFault::HistoryFull { weight } => Err(RoomFault::HistoryFull { weight }),
                ControlFault::OutOfMemory => Err(RoomFault::OutOfMemory),
                _ => Ok(Err(fault)),
            },
        }
    }
}

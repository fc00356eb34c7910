//! Lines that are taken, and steps of the cluster.

ghost use Rattle.std.specs.Prelude.{◌≡◌, true, false, Some, OnOk, OnErr};
ghost use Rattle.hx_lists.specs.Answers.{RefusedBy};
ghost use Rattle.hx_cluster.specs.Steps.{has_instance, is_in_range};
ghost use Rattle.hx_cluster.specs.Events.{is_later};
ghost use Rattle.hx_board.specs.Board.{next_line_of, happened, HasHistory};
ghost use Rattle.hx_board.specs.Refusals.{step_refusal};
ghost use Rattle.hx_worlds.specs.Runs.{happen};
ghost use Rattle.hx_worlds.specs.Scripts.{do_step, do_die};
ghost use Rattle.hx_scene.specs.Doing.{DoesDeed};
ghost use Rattle.hx_scene.specs.Ending.{HasEnded, end_event};
ghost use Rattle.hx_scene.specs.Rolls.{step_roll};

use crate::jobs::adopt;
use crate::{Deed, Scene};
use hx_board::{Board, BoardFault, RoomFault};
use hx_cluster::{Admin, Did, Event};
use hx_handler::Factory;
use hx_ids::InstanceId;
use hx_print::{Note, Roll};
use hx_text::Page;
use hx_worlds::Voice;

/// Ends an instance's session on a board.
fn end_on(board: &mut Board, instance: InstanceId) -> Result<(), BoardFault>
    requires { has_instance board.old.cluster instance ≡ true }
    ensures refused { RefusedBy BoardFault.OutOfMemory
        (step_refusal board.old (Admin.End instance)) result }
    ensures ok { OnOk result (board.new ≡ happened board.old (end_event instance)) }
    ensures history { OnOk result (HasHistory board.new) }
    ensures err { OnErr result (board.new ≡ board.old) }
{
    board.admin(&Admin::End { instance })?;
    board.history();
    Ok(())
}

impl<F: Factory> Scene<F> {
    /// Takes the script's next line, which has this number.
    pub fn take_line(&mut self, number: u32, out: &mut Page) -> Deed
        requires next { next_line_of self.old.board ≡ Some number }
        requires later { is_later self.old.board.cluster.line number ≡ true }
        ensures { DoesDeed (happen (Event.Line number)) self.old out.old self.new out.new result }
    {
        self.board.next_line()?;
        self.board.history();
        self.print_given(&Event::Line(number), out)
    }

    /// Makes a step, or notes why not.
    pub fn step(&mut self, voice: Voice, step: &Admin, out: &mut Page) -> Deed
        requires { is_in_range self.old.board.cluster step.now ≡ true }
        ensures { DoesDeed (do_step voice step.now) self.old out.old self.new out.new result }
    {
        let roll = self.step_roll(step)?;
        self.make(voice, step, &roll, out)
    }

    /// Makes a step whose log line, if it is printed, needs this roll, or notes why not.
    fn make(&mut self, voice: Voice, step: &Admin, roll: &Roll, out: &mut Page) -> Deed
        requires range { is_in_range self.old.board.cluster step.now ≡ true }
        requires roll { self.old.muted ≡ false → roll.now ≡ step_roll self.old.board.cluster step.now }
        ensures { DoesDeed (do_step voice step.now) self.old out.old self.new out.new result }
    {
        match self.board.admin(step) {
            Ok(did) => {
                self.board.history();
                self.print_made(step, &did, roll, out)
            }
            Err(BoardFault::Step(fault)) => self.note(voice, &Note::Step(fault), out),
            Err(BoardFault::HistoryFull { weight }) => Err(RoomFault::HistoryFull { weight }),
            Err(BoardFault::OutOfMemory) => Err(RoomFault::OutOfMemory),
        }
    }

    /// Ends an instance's session, and its participant with it, or notes why not.
    pub fn die(&mut self, voice: Voice, instance: InstanceId, out: &mut Page) -> Deed
        requires { has_instance self.old.board.cluster instance ≡ true }
        ensures { DoesDeed (do_die voice instance) self.old out.old self.new out.new result }
    {
        let step = Admin::End { instance };
        let roll = self.step_roll(&step)?;
        self.end(voice, instance, &roll, out)
    }

    /// Ends an instance's session, and its participant with it. It prints nothing.
    fn end_session(&mut self, instance: InstanceId) -> Result<(), BoardFault>
        requires { has_instance self.old.board.cluster instance ≡ true }
        ensures refused { RefusedBy BoardFault.OutOfMemory
            (step_refusal self.old.board (Admin.End instance)) result }
        ensures ok { OnOk result (HasEnded self.old self.new instance) }
        ensures err { OnErr result (self.new ≡ self.old) }
    {
        let open = self.open_jobs(instance)?;
        end_on(&mut self.board, instance)?;
        adopt(
            &mut self.jobs,
            &mut self.participants,
            instance,
            None,
            &open,
        );
        Ok(())
    }

    /// Ends an instance's session, where the log line, if it is printed, needs this roll, or notes why
    /// not.
    fn end(&mut self, voice: Voice, instance: InstanceId, roll: &Roll, out: &mut Page) -> Deed
        requires instance { has_instance self.old.board.cluster instance ≡ true }
        requires roll { self.old.muted ≡ false
            → roll.now ≡ step_roll self.old.board.cluster (Admin.End instance) }
        ensures { DoesDeed (do_die voice instance) self.old out.old self.new out.new result }
    {
        match self.end_session(instance) {
            Ok(()) => self.print_made(&Admin::End { instance }, &Did::Done, roll, out),
            Err(fault) => match fault {
                BoardFault::Step(fault) => self.note(voice, &Note::Step(fault), out),
                BoardFault::HistoryFull { weight } => Err(RoomFault::HistoryFull { weight }),
                BoardFault::OutOfMemory => Err(RoomFault::OutOfMemory),
            },
        }
    }
}

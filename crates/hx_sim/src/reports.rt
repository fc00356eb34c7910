//! What is said of a step of a turn: its outcome, or why it was refused.

ghost use Rattle.std.specs.Prelude.{◌≡◌, true};
ghost use Rattle.hx_cluster.specs.Steps.{has_controller};
ghost use Rattle.hx_worlds.specs.Turns.{say_finding, say_entries, say_outcome, tell_outcome, note_fault, step};
ghost use Rattle.hx_scene.specs.Doing.{Does, DoesDeed};

use crate::World;
use crate::passes::Passed;
use hx_cluster::{Entries, Entry, Finding};
use hx_control::{ControlFault, PassOutcome};
use hx_handler::Factory;
use hx_ids::ControllerId;
use hx_print::Note;
use hx_scene::Deed;
use hx_text::Page;
use hx_worlds::Voice;

impl<F: Factory> World<F> {
    fn say_entry(&mut self, entry: &Entry, out: &mut Page) -> Deed
        ensures { DoesDeed (say_finding entry.now.target entry.now.finding)
            self.old out.old self.new out.new result }
    {
        match &entry.finding {
            Finding::Failed => {
                let target = &entry.target;
                self.scene.say_failed(target.instance, target.part, out)
            }
            Finding::Full(full) => {
                let shown = self.scene.board().shown()?;
                self.scene.say_full(full, &shown, out)
            }
            _ => Ok(()),
        }
    }

    fn say_each(&mut self, entries: &[Entry], out: &mut Page) -> Deed
        ensures { DoesDeed (say_entries entries.now) self.old out.old self.new out.new result }
    {
        for entry in entries {
            self.say_entry(entry, out)?;
        }
        Ok(())
    }

    /// Says which replicas failed, and which a bound holds back.
    #[tactic(auto, using(crate::proofs::Said::said_behind))]
    pub(crate) fn say_entries(&mut self, entries: &Entries, out: &mut Page) -> Deed
        ensures { DoesDeed (say_entries entries.now) self.old out.old self.new out.new result }
    {
        // Nothing is said of replicas at their best.
        self.say_each(entries.rest(), out)
    }

    fn say_outcome(
        &mut self,
        controller: ControllerId,
        outcome: &PassOutcome,
        out: &mut Page,
    ) -> Deed
        ensures { DoesDeed (say_outcome controller outcome.now)
            self.old out.old self.new out.new result }
    {
        match outcome {
            PassOutcome::Sent(n) => self.scene.say_sent(controller, *n, out),
            PassOutcome::Waiting { pending } => self.scene.say_waiting(controller, *pending, out),
            PassOutcome::Moved { from, to } => self.scene.say_moved(controller, *from, *to, out),
            PassOutcome::Settled(report) => {
                self.scene.say_settled(controller, out)?;
                self.say_entries(&report.entries, out)
            }
        }
    }

    fn tell_outcome(
        &mut self,
        voice: Voice,
        controller: ControllerId,
        outcome: &Option<PassOutcome>,
        out: &mut Page,
    ) -> Deed
        ensures { DoesDeed (tell_outcome voice controller outcome.now)
            self.old out.old self.new out.new result }
    {
        match (voice, outcome) {
            (Voice::Loud(_), Some(outcome)) => self.say_outcome(controller, outcome, out),
            _ => Ok(()),
        }
    }

    fn note_fault(&mut self, voice: Voice, fault: ControlFault, out: &mut Page) -> Deed
        ensures { DoesDeed (note_fault voice fault) self.old out.old self.new out.new result }
    {
        match fault {
            ControlFault::NotLeader { led_by } => {
                self.scene.note(voice, &Note::NotLeader { led_by }, out)
            }
            ControlFault::Fenced { now } => self.scene.note(voice, &Note::Fenced { now }, out),
            _ => Ok(()),
        }
    }

    /// Makes a step of a turn, and says how it ended.
    pub(crate) fn step(&mut self, voice: Voice, controller: ControllerId, out: &mut Page) -> Passed
        requires { has_controller self.old.board.cluster controller ≡ true }
        ensures { Does (step voice controller) (λ o. o) self.old out.old self.new out.new result }
    {
        self.scene.board();
        match self.scene.advance(controller, out)? {
            Ok(outcome) => {
                self.tell_outcome(voice, controller, &outcome, out)?;
                Ok(outcome)
            }
            Err(fault) => {
                self.note_fault(voice, fault, out)?;
                Ok(None)
            }
        }
    }
}

//! A settle: rounds of the leader's turn and of work, up to the one whose turn settled.

ghost use Rattle.std.specs.Prelude.{◌≡◌, true, ◌+◌, ◌*◌, Option, IfOk, IfSome};
ghost use Rattle.hx_cluster.specs.Steps.{has_controller};
ghost use Rattle.hx_worlds.specs.Settles.{all_parts, most_states, enough_rounds, rounds, settle, say_settled, tell_settle, do_settle};
ghost use Rattle.hx_scene.specs.Doing.{Does, DoesDeed};
ghost use Rattle.hx_sim.specs.Rounds.{round, report_of};

use crate::World;
use hx_board::RoomFault;
use hx_cluster::{Report, Resource};
use hx_control::PassOutcome;
use hx_handler::Factory;
use hx_ids::ControllerId;
use hx_model::Model;
use hx_print::Note;
use hx_scene::Deed;
use hx_text::Page;
use hx_worlds::{Settled, Voice};
use std::alloc::AllocError;

/// What a settle came to.
#[derive(Drop)]
pub enum Settle {
    /// Nobody leads.
    NoLeader,
    /// Where every replica stands is explained: after so many rounds, the last one among them.
    Settled { passes: u64, report: Report },
}

/// How many parts there are.
fn all_parts(resources: &[Resource]) -> Option<u64>
    ensures { IfSome result (λ parts. parts ≡ all_parts resources.now) }
{
    let mut parts: u64 = 0;
    for resource in resources {
        parts = parts.checked_add(u64::from(resource.ideal.parts()))?;
    }
    Some(parts)
}

/// The most states that a model has.
fn most_states(models: &[Model]) -> u64
    ensures { result ≡ most_states models.now }
{
    let mut most = 0;
    for model in models {
        most = most.max(model.states().len() as u64);
    }
    most
}

/// How many rounds are enough for so many live sessions, parts and states.
fn rounds_for(live: u64, parts: u64, states: u64) -> Option<u64>
    ensures { IfSome result (λ rounds. rounds
        ≡ (2 * (live * parts) + 2) * (live * parts * (states + 2) + 2)) }
{
    let replicas = live.checked_mul(parts)?;
    let budget = replicas.checked_mul(2)?.checked_add(2)?;
    let moves = replicas
        .checked_mul(states.checked_add(2)?)?
        .checked_add(2)?;
    budget.checked_mul(moves)
}

/// The report of a turn that settled.
fn report_of(outcome: Option<PassOutcome>) -> Option<Report>
    ensures { result ≡ report_of outcome }
{
    match outcome {
        Some(PassOutcome::Settled(report)) => Some(report),
        _ => None,
    }
}

impl<F: Factory> World<F> {
    /// How many rounds are enough. More than a number of 64 bits are want of memory.
    fn enough_rounds(&self) -> Result<u64, AllocError>
        ensures { IfOk result (λ rounds. rounds ≡ enough_rounds self.now.board.cluster) }
    {
        let board = self.scene.board();
        let shown = board.roster()?;
        let live = shown.as_slice().len() as u64;
        let Some(parts) = all_parts(board.resources()) else {
            return Err(AllocError);
        };
        let states = most_states(self.scene.spec().models.as_slice());
        let Some(rounds) = rounds_for(live, parts, states) else {
            return Err(AllocError);
        };
        Ok(rounds)
    }

    /// Makes a round: the rest of the leader's turn, then work, unless that turn settled.
    fn round(
        &mut self,
        controller: ControllerId,
        out: &mut Page,
    ) -> Result<Option<Report>, RoomFault>
        requires { has_controller self.old.board.cluster controller ≡ true }
        ensures { Does (λ x. round controller x) (λ r. r)
            self.old out.old self.new out.new result }
    {
        match report_of(self.pass(Voice::Quiet, controller, out)?) {
            Some(report) => Ok(Some(report)),
            None => {
                self.work_all(out)?;
                Ok(None)
            }
        }
    }

    /// Makes rounds up to the one that settles, so many at most.
    fn rounds(
        &mut self,
        controller: ControllerId,
        most: u64,
        out: &mut Page,
    ) -> Result<Settled, RoomFault>
        requires { has_controller self.old.board.cluster controller ≡ true }
        ensures { Does (λ x. rounds most controller 0 x) (λ s. s)
            self.old out.old self.new out.new result }
    {
        for passes in 0..most {
            if let Some(report) = self.round(controller, out)? {
                return Ok(Settled {
                    passes: passes + 1,
                    report: Some(report),
                });
            }
        }
        Ok(Settled {
            passes: most,
            report: None,
        })
    }

    /// Settles the cluster, if somebody leads.
    pub(crate) fn settle_led(&mut self, out: &mut Page) -> Result<Option<Settled>, RoomFault>
        ensures { Does (λ x. settle x) (λ s. s)
            self.old out.old self.new out.new result }
    {
        let Some(controller) = self.scene.board().leader() else {
            return Ok(None);
        };
        let most = self.enough_rounds()?;
        let settled = self.rounds(controller, most, out)?;
        Ok(Some(settled))
    }

    fn say_settled(&mut self, controller: ControllerId, settled: &Settled, out: &mut Page) -> Deed
        ensures { DoesDeed (say_settled controller settled.now)
            self.old out.old self.new out.new result }
    {
        self.scene.say_settle(controller, settled.passes, out)?;
        match &settled.report {
            Some(report) => self.say_entries(&report.entries, out),
            None => Ok(()),
        }
    }

    /// Says what came of a settle, or that nobody led.
    fn tell_settle(
        &mut self,
        voice: Voice,
        leader: Option<ControllerId>,
        settled: &Option<Settled>,
        out: &mut Page,
    ) -> Deed
        ensures { DoesDeed (tell_settle voice leader settled.now)
            self.old out.old self.new out.new result }
    {
        let Some(controller) = leader else {
            return self.scene.note(voice, &Note::NoLeader, out);
        };
        match settled {
            Some(settled) => self.say_settled(controller, settled, out),
            None => self.scene.note(voice, &Note::NoLeader, out),
        }
    }

    /// Settles the cluster, and says what came of it.
    pub(crate) fn settle_aloud(&mut self, voice: Voice, out: &mut Page) -> Deed
        ensures { DoesDeed (do_settle voice) self.old out.old self.new out.new result }
    {
        let leader = self.scene.board().leader();
        let settled = self.settle_led(out)?;
        self.tell_settle(voice, leader, &settled, out)
    }
}

//! What controllers do: the steps of their turns, one by one, several of a kind, or all that are
//! left.

ghost use Rattle.std.specs.Prelude.{◌≡◌, true};
ghost use Rattle.hx_lists.specs.Lists.{count};
ghost use Rattle.hx_cluster.specs.Steps.{has_controller};
ghost use Rattle.hx_control.specs.Controllers.{stage as stage_of};
ghost use Rattle.hx_worlds.specs.World.{controller_of};
ghost use Rattle.hx_worlds.specs.Turns.{do_call, do_calls, do_rest, do_pass, do_word, do_words, do_read};
ghost use Rattle.hx_worlds.specs.Turns.{out_of_turn, is_passed_over, pass_over, left_of, begin_if_idle};
ghost use Rattle.hx_scene.specs.Scenes.{world_of};
ghost use Rattle.hx_scene.specs.Doing.{Does, DoesDeed};
ghost use Rattle.hx_sim.specs.Words.{word_for, is_at, is_call_of, is_first_of, step_on, plan_and_send};

use crate::World;
use hx_board::RoomFault;
use hx_control::{PassOutcome, Stage};
use hx_handler::Factory;
use hx_ids::ControllerId;
use hx_print::{Note, Word};
use hx_scene::Deed;
use hx_script::ReadKind;
use hx_text::Page;
use hx_worlds::Voice;

/// What steps of a turn come to: the outcome of the last dispatch among them, if there is one.
pub(crate) type Passed = Result<Option<PassOutcome>, RoomFault>;

/// The word for a step of a turn.
fn word_of(stage: Stage) -> Word
    ensures { result ≡ word_for stage }
{
    match stage {
        Stage::Idle => Word::Begin,
        Stage::Live => Word::Live,
        Stage::Mail(_) => Word::Mail,
        Stage::States(_) => Word::States,
        Stage::Ideals => Word::Ideals,
        Stage::Plan | Stage::Send => Word::Send,
        Stage::Post => Word::Post,
    }
}

/// Whether a step of a turn is a call of a word.
fn is_at(word: Word, stage: Stage) -> bool
    ensures { result ≡ is_at word stage }
{
    match word {
        Word::Begin => false,
        Word::Live => matches!(stage, Stage::Live),
        Word::Mail => matches!(stage, Stage::Mail(_)),
        Word::States => matches!(stage, Stage::States(_)),
        Word::Ideals => matches!(stage, Stage::Ideals),
        Word::Send => matches!(stage, Stage::Plan | Stage::Send),
        Word::Post => matches!(stage, Stage::Post),
    }
}

impl<F: Factory> World<F> {
    fn stage(&self, controller: ControllerId) -> Stage
        requires { has_controller self.now.board.cluster controller ≡ true }
        ensures { result ≡ stage_of (controller_of (world_of self.now) controller) }
    {
        self.scene.controller(controller).stage()
    }

    /// Whether the next call of a turn is one of a word.
    fn is_next(&self, word: Word, controller: ControllerId) -> bool
        requires { has_controller self.now.board.cluster controller ≡ true }
        ensures { result
            ≡ is_first_of (is_call_of word) (controller_of (world_of self.now) controller).turn.left }
    {
        is_at(word, self.stage(controller))
    }

    /// Makes a step of a turn that is under way.
    fn step_on(&mut self, voice: Voice, controller: ControllerId, out: &mut Page) -> Passed
        requires { has_controller self.old.board.cluster controller ≡ true }
        ensures { Does (step_on voice controller) (λ o. o)
            self.old out.old self.new out.new result }
    {
        match self.stage(controller) {
            Stage::Idle => Ok(None),
            _ => self.step(voice, controller, out),
        }
    }

    /// Makes the plan of a turn, and its dispatch.
    fn plan_and_send(&mut self, voice: Voice, controller: ControllerId, out: &mut Page) -> Passed
        requires { has_controller self.old.board.cluster controller ≡ true }
        ensures { Does (plan_and_send voice controller) (λ o. o)
            self.old out.old self.new out.new result }
    {
        self.step(voice, controller, out)?;
        self.step_on(voice, controller, out)
    }

    /// Makes a call of a turn. Before a dispatch the plan is made, where it wasn't made before.
    fn call(&mut self, voice: Voice, controller: ControllerId, out: &mut Page) -> Passed
        requires { has_controller self.old.board.cluster controller ≡ true }
        ensures { Does (do_call voice controller) (λ o. o)
            self.old out.old self.new out.new result }
    {
        match self.stage(controller) {
            Stage::Plan => self.plan_and_send(voice, controller, out),
            _ => self.step(voice, controller, out),
        }
    }

    /// Makes so many calls of a turn, up to one that is refused.
    fn calls(
        &mut self,
        voice: Voice,
        controller: ControllerId,
        count: usize,
        out: &mut Page,
    ) -> Passed
        requires { has_controller self.old.board.cluster controller ≡ true }
        ensures { Does (do_calls voice controller count) (λ o. o)
            self.old out.old self.new out.new result }
    {
        let mut outcome = None;
        for _ in 0..count {
            let later = self.call(voice, controller, out)?;
            outcome = later.or(outcome);
            if let Stage::Idle = self.stage(controller) {
                return Ok(outcome);
            }
        }
        Ok(outcome)
    }

    /// Makes the calls that are left.
    fn rest(&mut self, voice: Voice, controller: ControllerId, out: &mut Page) -> Passed
        requires { has_controller self.old.board.cluster controller ≡ true }
        ensures { Does (do_rest voice controller) (λ o. o)
            self.old out.old self.new out.new result }
    {
        let count = self.scene.controller(controller).calls_left();
        self.calls(voice, controller, count, out)
    }

    /// Begins a turn, unless one is under way.
    fn begin_if_idle(&mut self, voice: Voice, controller: ControllerId, out: &mut Page) -> Passed
        requires { has_controller self.old.board.cluster controller ≡ true }
        ensures { Does (λ x. begin_if_idle voice controller (left_of x controller) x) (λ o. o)
            self.old out.old self.new out.new result }
    {
        match self.stage(controller) {
            Stage::Idle => self.step(voice, controller, out),
            _ => Ok(None),
        }
    }

    /// Makes the rest of a turn, a whole one where it is idle. Which calls come after the live
    /// sessions are read is known only then.
    pub(crate) fn pass(&mut self, voice: Voice, controller: ControllerId, out: &mut Page) -> Passed
        requires { has_controller self.old.board.cluster controller ≡ true }
        ensures { Does (do_pass voice controller) (λ o. o)
            self.old out.old self.new out.new result }
    {
        self.begin_if_idle(voice, controller, out)?;
        let earlier = self.rest(voice, controller, out)?;
        let later = self.rest(voice, controller, out)?;
        Ok(later.or(earlier))
    }

    /// Notes which step the turn is at.
    fn out_of_turn(&mut self, voice: Voice, controller: ControllerId, out: &mut Page) -> Deed
        requires { has_controller self.old.board.cluster controller ≡ true }
        ensures { DoesDeed (out_of_turn voice controller)
            self.old out.old self.new out.new result }
    {
        let word = word_of(self.stage(controller));
        self.scene.note(voice, &Note::OutOfTurn(word), out)
    }

    /// Makes the next call, where it is one of this word.
    pub(crate) fn call_if(
        &mut self,
        word: Word,
        voice: Voice,
        controller: ControllerId,
        out: &mut Page,
    ) -> Deed
        requires { has_controller self.old.board.cluster controller ≡ true }
        ensures { DoesDeed (do_word voice controller (is_call_of word))
            self.old out.old self.new out.new result }
    {
        if self.is_next(word, controller) {
            self.call(voice, controller, out)?;
            Ok(())
        } else {
            self.out_of_turn(voice, controller, out)
        }
    }

    /// Whether no session was shown and the ideals come next.
    fn is_passed_over(&self, controller: ControllerId) -> bool
        requires { has_controller self.now.board.cluster controller ≡ true }
        ensures { result ≡ is_passed_over (controller_of (world_of self.now) controller) }
    {
        let turn = self.scene.controller(controller);
        match turn.stage() {
            Stage::Ideals => turn.shown() == 0,
            _ => false,
        }
    }

    /// Does nothing where no session was shown and the ideals come next, and notes else which step
    /// the turn is at.
    fn pass_over(&mut self, voice: Voice, controller: ControllerId, out: &mut Page) -> Deed
        requires { has_controller self.old.board.cluster controller ≡ true }
        ensures { DoesDeed (pass_over voice controller) self.old out.old self.new out.new result }
    {
        if self.is_passed_over(controller) {
            Ok(())
        } else {
            self.out_of_turn(voice, controller, out)
        }
    }

    /// Makes the calls of a word that are left, where the next one is of that word.
    fn calls_if(
        &mut self,
        word: Word,
        voice: Voice,
        controller: ControllerId,
        left: usize,
        out: &mut Page,
    ) -> Deed
        requires { has_controller self.old.board.cluster controller ≡ true }
        ensures { left ≡ count (is_call_of word) (controller_of (world_of self.old) controller).turn.left
            → DoesDeed (do_words voice controller (is_call_of word) (pass_over voice controller))
            self.old out.old self.new out.new result }
    {
        if self.is_next(word, controller) {
            self.calls(voice, controller, left, out)?;
            Ok(())
        } else {
            self.pass_over(voice, controller, out)
        }
    }

    /// Makes all reads of a kind.
    pub(crate) fn read(
        &mut self,
        voice: Voice,
        controller: ControllerId,
        kind: ReadKind,
        out: &mut Page,
    ) -> Deed
        requires { has_controller self.old.board.cluster controller ≡ true }
        ensures { DoesDeed (do_read voice controller kind) self.old out.old self.new out.new result }
    {
        match kind {
            ReadKind::Live => self.call_if(Word::Live, voice, controller, out),
            ReadKind::Mail => {
                let left = self.scene.controller(controller).mail_left();
                self.calls_if(Word::Mail, voice, controller, left, out)
            }
            ReadKind::States => {
                let left = self.scene.controller(controller).states_left();
                self.calls_if(Word::States, voice, controller, left, out)
            }
            ReadKind::Ideals => self.call_if(Word::Ideals, voice, controller, out),
        }
    }
}

//! What a script line does.

ghost use Rattle.std.specs.Prelude.{◌≡◌, true};
ghost use Rattle.std.specs.Option.{ForSome};
ghost use Rattle.hx_cluster.specs.Steps.{has_instance, has_controller};
ghost use Rattle.hx_cluster.specs.Steps.{is_in_range as is_step_in_range};
ghost use Rattle.hx_script.specs.Asked.{step_asked};
ghost use Rattle.hx_script.specs.Ranges.{is_in_range};
ghost use Rattle.hx_worlds.specs.Jobs.{do_deliver};
ghost use Rattle.hx_worlds.specs.Turns.{do_begin, without_outcome};
ghost use Rattle.hx_worlds.specs.Scripts.{do_what, do_asked};
ghost use Rattle.hx_scene.specs.Doing.{DoesDeed};

use crate::World;
use hx_cluster::Admin;
use hx_handler::Factory;
use hx_ids::{ControllerId, InstanceId, MsgId};
use hx_print::{Note, Word};
use hx_scene::Deed;
use hx_script::What;
use hx_text::Page;
use hx_worlds::Voice;

impl<F: Factory> World<F> {
    /// Does what a line asks for.
    pub(crate) fn what(&mut self, voice: Voice, what: &What, out: &mut Page) -> Deed
        requires { is_in_range self.old.spec what.now ≡ true }
        ensures { DoesDeed (do_what voice what.now) self.old out.old self.new out.new result }
    {
        self.scene.board();
        match what {
            What::Die(i) => self.scene.die(voice, *i, out),
            What::Begin(k) => self.begin(voice, *k, out),
            What::Read(k, kind) => self.read(voice, *k, *kind, out),
            What::Send(k) => self.call_if(Word::Send, voice, *k, out),
            What::Post(k) => self.call_if(Word::Post, voice, *k, out),
            What::Pass(k) => {
                self.pass(voice, *k, out)?;
                Ok(())
            }
            What::Fetch(i) => {
                self.scene.fetch(*i, out)?;
                Ok(())
            }
            What::Deliver(i, id) => self.deliver(voice, *i, *id, out),
            What::Take(i, id) => self.scene.take(voice, *i, *id, out),
            What::Write(i, id) => self.scene.write(voice, *i, *id, out),
            What::Ack(i, id) => self.scene.ack(voice, *i, *id, out),
            What::Work(i) => self.work(*i, out),
            What::Settle => self.settle_aloud(voice, out),
            What::View => self.view(out),
            What::Route { name, part, state } => self.route(voice, *name, *part, *state, out),
            What::Summary => self.summary(out),
            _ => self.asked_step(voice, what, out),
        }
    }

    /// Makes the step that a line asks for, or notes that it names no resource.
    fn asked_step(&mut self, voice: Voice, what: &What, out: &mut Page) -> Deed
        requires { is_in_range self.old.spec what.now ≡ true }
        ensures { DoesDeed (λ x. do_asked voice (step_asked x.world.cluster what.now) x)
            self.old out.old self.new out.new result }
    {
        self.scene.board();
        let asked = self.step_asked(what)?;
        self.step_if_asked(voice, &asked, out)
    }

    /// Makes a step, or notes that a line names no resource.
    fn step_if_asked(&mut self, voice: Voice, asked: &Option<Admin>, out: &mut Page) -> Deed
        requires { ForSome asked.now (λ step. is_step_in_range self.old.board.cluster step ≡ true) }
        ensures { DoesDeed (do_asked voice asked.now) self.old out.old self.new out.new result }
    {
        match asked {
            Some(step) => self.scene.step(voice, step, out),
            None => self.scene.note(voice, &Note::NoResource, out),
        }
    }

    /// Delivers a message of the bag.
    fn deliver(&mut self, voice: Voice, instance: InstanceId, id: MsgId, out: &mut Page) -> Deed
        requires { has_instance self.old.board.cluster instance ≡ true }
        ensures { DoesDeed (do_deliver voice instance id)
            self.old out.old self.new out.new result }
    {
        match self.scene.fetched(id)? {
            Some(message) => self.scene.deliver(voice, instance, &message, out),
            None => self.scene.note(voice, &Note::NoMessage, out),
        }
    }

    /// Begins a controller's turn anew.
    fn begin(&mut self, voice: Voice, controller: ControllerId, out: &mut Page) -> Deed
        requires { has_controller self.old.board.cluster controller ≡ true }
        ensures { DoesDeed (λ x. without_outcome (do_begin voice controller x))
            self.old out.old self.new out.new result }
    {
        self.scene.restart(controller);
        self.step(voice, controller, out)?;
        Ok(())
    }
}

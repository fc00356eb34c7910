//! What an instance does by itself: it fetches, and carries each message to its end.

ghost use Rattle.std.specs.Prelude.{◌≡◌, true, map};
ghost use Rattle.std.specs.List.{All};
ghost use Rattle.hx_cluster.specs.Reads.{fetched};
ghost use Rattle.hx_cluster.specs.Steps.{has_instance};
ghost use Rattle.hx_worlds.specs.Runs.{for_each};
ghost use Rattle.hx_worlds.specs.Jobs.{carry, carry_jobs, deliver, fetch_and_deliver, run_message, run_accepted, do_work};
ghost use Rattle.hx_worlds.specs.Settles.{work_all};
ghost use Rattle.hx_scene.specs.Scenes.{IsBagged};
ghost use Rattle.hx_scene.specs.Doing.{DoesDeed};

use crate::World;
use hx_cluster::Message;
use hx_handler::Factory;
use hx_ids::{InstanceId, MsgId, SessionId};
use hx_scene::Deed;
use hx_text::Page;
use hx_worlds::Voice;

impl<F: Factory> World<F> {
    /// Carries an open job to its end.
    fn carry(&mut self, instance: InstanceId, id: MsgId, out: &mut Page) -> Deed
        requires { has_instance self.old.board.cluster instance ≡ true }
        ensures { DoesDeed (carry instance id) self.old out.old self.new out.new result }
    {
        self.scene.write(Voice::Quiet, instance, id, out)?;
        self.scene.ack(Voice::Quiet, instance, id, out)
    }

    /// Carries all open jobs to their ends, in order.
    fn carry_all(&mut self, instance: InstanceId, out: &mut Page) -> Deed
        requires { has_instance self.old.board.cluster instance ≡ true }
        ensures { DoesDeed (carry_jobs instance) self.old out.old self.new out.new result }
    {
        let open = self.scene.open_jobs(instance)?;
        for id in &open {
            self.carry(instance, *id, out)?;
        }
        Ok(())
    }

    /// Delivers messages.
    fn deliver_all(&mut self, instance: InstanceId, messages: &[Message], out: &mut Page) -> Deed
        requires instance { has_instance self.old.board.cluster instance ≡ true }
        requires bagged { All (IsBagged self.old.bag) messages.now }
        ensures { DoesDeed (λ x. for_each (λ m y. deliver Voice.Quiet instance m y) messages.now x)
            self.old out.old self.new out.new result }
    {
        for message in messages {
            self.scene.deliver(Voice::Quiet, instance, message, out)?;
        }
        Ok(())
    }

    /// Fetches, and delivers what was fetched.
    fn fetch_and_deliver(&mut self, instance: InstanceId, out: &mut Page) -> Deed
        requires { has_instance self.old.board.cluster instance ≡ true }
        ensures { DoesDeed (λ x. fetch_and_deliver instance (fetched x.world.cluster instance) x)
            self.old out.old self.new out.new result }
    {
        let messages = self.scene.fetch(instance, out)?;
        self.deliver_all(instance, &messages, out)
    }

    /// Takes an accepted message and carries it to its end.
    fn run(&mut self, instance: InstanceId, message: &Message, out: &mut Page) -> Deed
        requires { has_instance self.old.board.cluster instance ≡ true }
        ensures { DoesDeed (run_message instance message.now)
            self.old out.old self.new out.new result }
    {
        self.scene.take(Voice::Quiet, instance, message.id, out)?;
        self.carry(instance, message.id, out)
    }

    /// Runs all accepted messages, in order.
    fn run_accepted(&mut self, instance: InstanceId, out: &mut Page) -> Deed
        requires { has_instance self.old.board.cluster instance ≡ true }
        ensures { DoesDeed (run_accepted instance) self.old out.old self.new out.new result }
    {
        let accepted = self.scene.accepted(instance)?;
        for message in &accepted {
            self.run(instance, message, out)?;
        }
        Ok(())
    }

    /// Carries the open jobs of an instance to their ends, fetches, delivers what was fetched, and
    /// carries each accepted message to its end.
    pub(crate) fn work(&mut self, instance: InstanceId, out: &mut Page) -> Deed
        requires { has_instance self.old.board.cluster instance ≡ true }
        ensures { DoesDeed (do_work instance) self.old out.old self.new out.new result }
    {
        self.carry_all(instance, out)?;
        self.fetch_and_deliver(instance, out)?;
        self.run_accepted(instance, out)
    }

    fn work_each(&mut self, shown: &[(SessionId, InstanceId)], out: &mut Page) -> Deed
        requires { All (λ e. has_instance self.old.board.cluster e.1 ≡ true) shown.now }
        ensures { DoesDeed (λ x. for_each (λ i y. do_work i y) (map (λ e. e.1) shown.now) x)
            self.old out.old self.new out.new result }
    {
        for (_, instance) in shown {
            self.work(*instance, out)?;
        }
        Ok(())
    }

    /// Has each live instance work, in order.
    pub(crate) fn work_all(&mut self, out: &mut Page) -> Deed
        ensures { DoesDeed work_all self.old out.old self.new out.new result }
    {
        let shown = self.scene.board().shown()?;
        self.work_each(&shown, out)
    }
}

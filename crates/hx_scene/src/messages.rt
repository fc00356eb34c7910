//! How messages come to participants.

ghost use Rattle.std.specs.Prelude.{◌≡◌, ℕ, List, length, true, IfOk, IfErr};
ghost use Rattle.std.specs.List.{All};
ghost use Rattle.hx_cluster.specs.Reads.{fetched};
ghost use Rattle.hx_cluster.specs.Steps.{has_instance};
ghost use Rattle.hx_worlds.specs.Jobs.{do_fetch, deliver as delivers, note_of};
ghost use Rattle.hx_scene.specs.Doing.{DoesDeed, Fails};
ghost use Rattle.hx_scene.specs.Made.{IsMadeBy};
ghost use Rattle.hx_scene.specs.Scenes.{IsBagged, open_numbers};

use crate::jobs::follow;
use crate::{Deed, Scene};
use hx_board::RoomFault;
use hx_cluster::{Event, Mail, Message};
use hx_handler::Factory;
use hx_ids::{InstanceId, MsgId};
use hx_print::Note;
use hx_replicas::DeliverFault;
use hx_text::Page;
use hx_worlds::Voice;

fn note_of(fault: DeliverFault) -> Note
    ensures { result ≡ note_of fault }
{
    match fault {
        DeliverFault::OtherSession { mine } => Note::OtherSession { mine },
        DeliverFault::Running { id } => Note::Running { id },
        DeliverFault::Repeat { last } => Note::Repeat { last },
        DeliverFault::WrongFrom { has } => Note::WrongFrom { has },
    }
}

impl<F: Factory> Scene<F> {
    /// Fetches an instance's messages, which go into the bag. Where its session is another one, the
    /// participant adopts it.
    pub fn fetch(&mut self, instance: InstanceId, out: &mut Page) -> Result<Vec<Message>, RoomFault>
        requires { has_instance self.old.board.cluster instance ≡ true }
        ensures does { DoesDeed (do_fetch instance) self.old out.old self.new out.new result }
        ensures messages { IfOk result (λ messages.
            messages.items ≡ (fetched self.old.board.cluster instance).messages) }
        ensures bagged { IfOk result (λ messages. All (IsBagged self.new.bag) messages.items) }
    {
        let open = self.open_jobs(instance)?;
        self.fetch_with(instance, &open, out)
    }

    /// Fetches an instance's messages, where its open jobs have these numbers.
    fn fetch_with(
        &mut self,
        instance: InstanceId,
        numbers: &[MsgId],
        out: &mut Page,
    ) -> Result<Vec<Message>, RoomFault>
        requires instance { has_instance self.old.board.cluster instance ≡ true }
        requires numbers { numbers.now ≡ open_numbers self.old instance }
        ensures does { DoesDeed (do_fetch instance) self.old out.old self.new out.new result }
        ensures messages { IfOk result (λ messages.
            messages.items ≡ (fetched self.old.board.cluster instance).messages) }
        ensures bagged { IfOk result (λ messages. All (IsBagged self.new.bag) messages.items) }
    {
        let mail = self.fetch_mail(instance, numbers)?;
        self.print_fetch(instance, &mail, out)?;
        Ok(mail.messages.into_vec())
    }

    /// Fetches an instance's messages, where its open jobs have these numbers. It prints nothing.
    fn fetch_mail(&mut self, instance: InstanceId, numbers: &[MsgId]) -> Result<Mail, RoomFault>
        requires instance { has_instance self.old.board.cluster instance ≡ true }
        requires numbers { numbers.now ≡ open_numbers self.old instance }
        ensures mail { IfOk result (λ mail. mail ≡ fetched self.old.board.cluster instance) }
        ensures made { IfOk result (λ mail. IsMadeBy (λ x. do_fetch instance x)
            (Event.Fetch instance mail.session (length mail.messages)) self.old self.new) }
        ensures bagged { IfOk result (λ mail. All (IsBagged self.new.bag) mail.messages) }
        ensures err { IfErr result (λ fault. (page : List ℕ)
            → Fails (λ x. do_fetch instance x) self.old page fault self.new page) }
    {
        let mail = self.board.fetch(instance)?;
        self.board.history();
        self.bag.reserve(mail.messages.len())?;
        follow(
            &mut self.jobs,
            &mut self.participants,
            instance,
            mail.session,
            numbers,
        );
        self.bag.put_all(mail.messages.as_slice());
        Ok(mail)
    }

    /// Delivers a message of the bag to an instance's participant, which accepts it or says why not.
    pub fn deliver(
        &mut self,
        voice: Voice,
        instance: InstanceId,
        message: &Message,
        out: &mut Page,
    ) -> Deed
        requires instance { has_instance self.old.board.cluster instance ≡ true }
        requires bagged { IsBagged self.old.bag message.now }
        ensures does { DoesDeed (delivers voice instance message.now)
            self.old out.old self.new out.new result }
        ensures bag { self.new.bag ≡ self.old.bag }
    {
        let participant = &mut self.participants[instance.0 as usize];
        participant.reserve(1)?;
        match participant.deliver(message) {
            Ok(()) => self.say_accept(voice, instance, message.id, out),
            Err(fault) => self.note(voice, &note_of(fault), out),
        }
    }
}

//! How a session takes a message, writes its outcome and acknowledges it. Nothing here takes
//! memory.
ghost use Rattle.std.specs.Prelude.{◌≡◌, ◌+◌, ◌^◌, ◌<◌, false, not, filter, Some, IfOk};
ghost use Rattle.std.specs.Prelude.{OnOk, OnErr};
ghost use Rattle.hx_lists.specs.Answers.{RefusedAs};
ghost use Rattle.hx_cluster.specs.Ends.{instance_in, shown_of};
ghost use Rattle.hx_cluster.specs.Messages.{pending_of, has_id, after_take};
ghost use Rattle.hx_cluster.specs.Messages.{after_write};
ghost use Rattle.hx_slots.specs.Tallies.{IsPut};
ghost use Rattle.hx_cluster.specs.Marks.{take_refusal, write_refusal, ack_refusal};
ghost use Rattle.hx_cluster.specs.Events.{next};
ghost use Rattle.hx_cluster.specs.Room.{HasRoom};
ghost use Rattle.hx_safe.proofs.Kept.{IsKept};
ghost use Rattle.hx_records.specs.Reached.{IsReached};

use crate::Records;
use hx_calls::settle_flags;
use hx_cluster::{AckFault, Cluster, Event, Message, Outcome, TakeFault, WriteRefusal};
use hx_counts::Counts;
use hx_ids::{InstanceId, MsgId, PartId, SessionId, StateId};
use hx_slots::{lower, lower_row};

/// Counts no longer the state that a replica leaves as the outcome of a message comes, where it is
/// no end of the message.
fn leave(rest: &Cluster, counts: &mut Counts, has: Option<StateId>, message: &Message)
    ensures { IsPut rest.now message.now has counts.old counts.new }
{
    if let Some(state) = has
        && !message.has_end(state)
    {
        lower_row(rest, counts, message.part, state);
    }
}

impl Records {
    /// The message whose outcome a session may write, or the first cause why it may not. Only live
    /// sessions have messages.
    fn writable(&self, session: SessionId, id: MsgId) -> Result<Message, WriteRefusal>
        requires { IsKept self.now }
        ensures refused { RefusedAs (write_refusal self.now session id) result }
        ensures message { IfOk result (λ m. pending_of self.now session id ≡ Some m) }
        ensures free { IfOk result (λ m. m.written ≡ false) }
    {
        match self.slots.pending(session, id) {
            None if self.is_live(session) => Err(WriteRefusal::NoMessage),
            None => Err(WriteRefusal::SessionEnded),
            Some(message) if !message.taken => Err(WriteRefusal::NotTaken),
            Some(message) if message.written => Err(WriteRefusal::AlreadyWritten),
            Some(message) => Ok(message),
        }
    }

    /// The instance of a session and its message that it may acknowledge, or the first cause why it
    /// may not.
    fn finished(&self, session: SessionId, id: MsgId) -> Result<(InstanceId, Message), AckFault>
        ensures refused { RefusedAs (ack_refusal self.now session id) result }
        ensures instance { IfOk result (λ done.
            instance_in (shown_of self.now.live) session ≡ Some done.0) }
        ensures message { IfOk result (λ done. pending_of self.now session id ≡ Some done.1) }
    {
        let Some(live) = self.sessions.find(session) else {
            return Err(AckFault::SessionEnded);
        };
        let Some(message) = self.slots.pending(session, id) else {
            return Err(AckFault::NoMessage);
        };
        if !message.written {
            return Err(AckFault::NotWritten);
        }
        Ok((live.instance, message))
    }

    /// Removes a pending message of a session of an instance.
    fn remove_message(&mut self, instance: InstanceId, message: &Message)
        requires kept { IsKept self.old }
        requires instance { instance_in (shown_of self.old.live) message.now.session
            ≡ Some instance }
        requires pending { pending_of self.old message.now.session message.now.id
            ≡ Some message.now }
        ensures { self.new
            ≡ record self.old {
              mail = filter (λ m. not (has_id message.now.session message.now.id m)) self.old.mail;
            } }
    {
        let Message {
            id,
            session,
            part,
            ..
        } = *message;
        let has = self.slots.state(session, part);
        lower(&self.rest, &mut self.counts, instance, has, message);
        self.slots.acknowledge(session, id);
    }

    /// Removes a message of a session of an instance that is pending under a number.
    fn remove_pending(
        &mut self,
        session: SessionId,
        id: MsgId,
        instance: InstanceId,
        message: &Message,
    )
        requires kept { IsKept self.old }
        requires instance { instance_in (shown_of self.old.live) session ≡ Some instance }
        requires pending { pending_of self.old session id ≡ Some message.now }
        ensures { self.new
            ≡ record self.old { mail = filter (λ m. not (has_id session id m)) self.old.mail } }
    {
        self.remove_message(instance, message);
    }

    /// Removes a session's pending message, if there is one of this number.
    pub(crate) fn discard(&mut self, session: SessionId, id: MsgId)
        requires { IsKept self.old }
        ensures { self.new
            ≡ record self.old { mail = filter (λ m. not (has_id session id m)) self.old.mail } }
    {
        let Some(live) = self.sessions.find(session) else {
            return;
        };
        let Some(message) = self.slots.pending(session, id) else {
            return;
        };
        self.remove_message(live.instance, &message);
    }

    /// Marks a pending message as taken.
    fn mark_taken(&mut self, message: &Message)
        requires pending { pending_of self.old message.now.session message.now.id
            ≡ Some message.now }
        requires free { message.now.taken ≡ false }
        requires room { self.old.change + 1 < 2 ^ 64 }
        ensures { self.new ≡ after_take self.old message.now.session message.now.id }
    {
        self.slots.take(message);
        self.rest.change += 1;
    }

    /// Brings the outcome of a pending message to its row.
    fn bring(&mut self, message: &Message, outcome: Outcome)
        requires kept { IsKept self.old }
        requires pending { pending_of self.old message.now.session message.now.id
            ≡ Some message.now }
        requires free { message.now.written ≡ false }
        requires room { self.old.change + 1 < 2 ^ 64 }
        ensures { self.new ≡ after_write self.old message.now.session message.now.id outcome }
    {
        let has = self.slots.write(message, message.state_after(outcome));
        leave(&self.rest, &mut self.counts, has, message);
        settle_flags(&mut self.rest.resets, message, outcome);
        self.rest.change += 1;
    }

    /// A session begins a transition. It takes no memory.
    pub fn take(&mut self, session: SessionId, id: MsgId) -> Result<(), TakeFault>
        requires { HasRoom self.old }
        ensures refused { RefusedAs (take_refusal self.old session id) result }
        ensures ok { OnOk result (self.new ≡ next self.old (Event.Take session id)) }
        ensures err { OnErr result (self.new ≡ self.old) }
    {
        if !self.is_live(session) {
            return Err(TakeFault::SessionEnded);
        }
        let Some(message) = self.slots.pending(session, id) else {
            return Err(TakeFault::NoMessage);
        };
        if message.taken {
            return Err(TakeFault::AlreadyTaken);
        }
        self.mark_taken(&message);
        Ok(())
    }

    /// The outcome of a message comes to its row. It takes no memory.
    pub fn write(
        &mut self,
        session: SessionId,
        id: MsgId,
        outcome: Outcome,
    ) -> Result<(), WriteRefusal>
        requires reached { IsReached self.old }
        requires room { HasRoom self.old }
        ensures refused { RefusedAs (write_refusal self.old session id) result }
        ensures ok { OnOk result (self.new ≡ next self.old (Event.Write session id outcome)) }
        ensures err { OnErr result (self.new ≡ self.old) }
    {
        let message = self.writable(session, id)?;
        self.bring(&message, outcome);
        Ok(())
    }

    /// A message that is written is acknowledged, and goes. It takes no memory.
    pub fn ack(&mut self, session: SessionId, id: MsgId) -> Result<(), AckFault>
        requires reached { IsReached self.old }
        requires room { HasRoom self.old }
        ensures refused { RefusedAs (ack_refusal self.old session id) result }
        ensures ok { OnOk result (self.new ≡ next self.old (Event.Ack session id)) }
        ensures err { OnErr result (self.new ≡ self.old) }
    {
        let (instance, message) = self.finished(session, id)?;
        self.remove_pending(session, id, instance, &message);
        self.rest.change += 1;
        Ok(())
    }
}

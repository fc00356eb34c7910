//! How sessions end. Nothing here takes memory.
ghost use Rattle.std.specs.Prelude.{◌≡◌, ℕ, ◌+◌, ◌^◌, ◌<◌, ◌≤◌, ◌==◌, true, not, filter, find};
ghost use Rattle.std.specs.Prelude.{None, Some, MatchOption};
ghost use Rattle.std.specs.List.{list_all};
ghost use Rattle.hx_lists.specs.Lists.{count};
ghost use Rattle.hx_ids.specs.declared.SessionId.{SessionId};
ghost use Rattle.hx_cluster.specs.Ends.{instance_in, shown_of, is_live, is_row};
ghost use Rattle.hx_cluster.specs.Messages.{has_id};
ghost use Rattle.hx_cluster.specs.Steps.{session_of, without, without_all};
ghost use Rattle.hx_cluster.specs.Room.{half};
ghost use Rattle.hx_safe.proofs.Whole.{IsWhole};
ghost use Rattle.hx_slots.proofs.Listed.{IsListed};

use crate::Records;
use hx_cluster::{Message, Row};
use hx_ids::{InstanceId, PartId, SessionId};
use hx_lists::Seq;
use hx_slots::{lower, lower_row};

fn end_resets(resets: &mut Seq<(SessionId, PartId)>, session: SessionId)
    ensures { resets.new ≡ filter (λ f. not (f.0.0 == session.0)) resets.old }
{
    resets.retain(|f| f.0 != session);
}

impl Records {
    /// Takes a session's first message out.
    fn pop_message(&mut self, instance: InstanceId, session: SessionId) -> Option<Message>
        requires listed { IsListed self.old }
        requires instance { instance_in (shown_of self.old.live) session ≡ Some instance }
        ensures first { result ≡ find (λ m. m.session.0 == session.0) self.old.mail }
        ensures rest { MatchOption result (self.new ≡ self.old) (λ m.
            self.new
            ≡ record self.old { mail = filter (λ x. not (has_id session m.id x)) self.old.mail }) }
    {
        let message = self.slots.pop_message(session)?;
        let has = self.slots.state(session, message.part);
        lower(&self.rest, &mut self.counts, instance, has, &message);
        Some(message)
    }

    /// Takes a session's first row out, where it has no messages.
    fn pop_row(&mut self, session: SessionId) -> Option<Row>
        requires listed { IsListed self.old }
        requires mail { find (λ m. m.session.0 == session.0) self.old.mail ≡ None }
        ensures first { result ≡ find (λ r. r.session.0 == session.0) self.old.rows }
        ensures rest { MatchOption result (self.new ≡ self.old) (λ r.
            self.new
            ≡ record self.old { rows = filter (λ x. not (is_row session r.part x)) self.old.rows }) }
    {
        let row = self.slots.pop_row(session)?;
        lower_row(&self.rest, &mut self.counts, row.part, row.state);
        Some(row)
    }

    /// Takes a session's messages out.
    fn end_mail(&mut self, instance: InstanceId, session: SessionId)
        requires listed { IsListed self.old }
        requires instance { instance_in (shown_of self.old.live) session ≡ Some instance }
        ensures { self.new
            ≡ record self.old { mail = filter (λ m. not (m.session.0 == session.0)) self.old.mail } }
    {
        while let Some(_message) = self.pop_message(instance, session) {}
    }

    /// Takes a session's rows out, where it has no messages.
    fn end_rows(&mut self, session: SessionId)
        requires listed { IsListed self.old }
        requires mail { find (λ m. m.session.0 == session.0) self.old.mail ≡ None }
        ensures { self.new
            ≡ record self.old { rows = filter (λ r. not (r.session.0 == session.0)) self.old.rows } }
    {
        while let Some(_row) = self.pop_row(session) {}
    }

    /// Takes a session of an instance out, with its rows, its messages and its flags.
    pub(crate) fn end_session(&mut self, instance: InstanceId, session: SessionId)
        requires whole { IsWhole self.old }
        requires session { session_of self.old instance ≡ Some session }
        requires room { self.old.change + 1 < 2 ^ 64 }
        ensures { self.new ≡ without self.old session }
    {
        self.end_mail(instance, session);
        self.end_rows(session);
        let _ = self.sessions.close(session);
        self.live -= 1;
        self.seats.set(instance.0 as usize, None);
        end_resets(&mut self.rest.resets, session);
        self.rest.change += 1;
    }

    /// Takes a live session out.
    fn end_live(&mut self, session: SessionId)
        requires whole { IsWhole self.old }
        requires live { is_live self.old.live session ≡ true }
        requires room { self.old.change + 1 < 2 ^ 64 }
        ensures { self.new ≡ without self.old session }
    {
        if let Some(live) = self.sessions.find(session) {
            self.end_session(live.instance, session);
        }
    }

    /// Takes sessions out in order.
    pub(crate) fn end_sessions(&mut self, sessions: &[SessionId])
        requires whole { IsWhole self.old }
        requires live { list_all (is_live self.old.live) sessions.now ≡ true }
        requires distinct { (s : SessionId) → count (λ x. x.0 == s.0) sessions.now ≤ 1 }
        requires room { self.old.change < half }
        ensures { self.new ≡ without_all self.old sessions.now }
    {
        for session in sessions {
            self.end_live(*session);
        }
    }
}

//! The rows and the pending messages of sessions, as versioned records with their session as owner,
//! and what they add to kept numbers.
#![tactic(auto)]

ghost use Rattle.std.specs.Prelude.{◌≡◌, ◌&&◌, ◌||◌, ◌==◌, ◌++◌, [], ◌∷◌, not, true, false};
ghost use Rattle.std.specs.Prelude.{None, Some, filter, find, map, nat_lt, option_copied};
ghost use Rattle.std.specs.Prelude.{OnOk, OnErr, MatchOption};
ghost use Rattle.std.specs.List.{list_any, list_all};
ghost use Rattle.hx_cluster.specs.Ends.{state_of, message_of, is_row};
ghost use Rattle.hx_cluster.specs.Messages.{has_id, as_taken, as_written, row_put};

mod owned;
mod row_index;
mod session_rows;
mod slot;
mod tallies;

use hx_cluster::{Message, Row};
use hx_ids::{MsgId, PartId, ResourceId, SessionId, StateId};
use hx_lists::Seq;
use hx_store::Store;
use owned::{pop_owned, push_or_cut};
use row_index::RowIndex;
use slot::{Slot, add_message, last_message, note_sent, put_at, slot_of};
use std::alloc::{AllocError, Global};
use std::marker::Model;
pub use tallies::{key_on, lower, lower_row, raise};

/// Rows and pending messages. Contracts see both as plain lists: rows by session, then part, and
/// messages by number. What may come to a message needs no memory once it was sent.
#[derive(Drop)]
pub struct Slots {
    alloc: Global,
    slots: Store<Slot>,
    /// The rows, ready to be copied. The slots of a session whose rows aren't kept are walked.
    index: RowIndex,
    mail: Store<Message>,
    /// How many changes slots have had.
    changes: u64,
    /// At least as many as that, with one for each outcome that may come.
    paid: u64,
}

impl Model for Slots {
    ghost use Rattle.hx_slots.specs.Kept.{Kept};
    ghost use Rattle.hx_slots.specs.Slots.{rows_of, messages_of, AreSlots};

    ghost Value = { Kept };

    ghost view = { λ a. record { rows = rows_of a.slots; mail = messages_of a.mail } };

    ghost use Rattle.hx_slots.specs.Mirror.{AreMirrored};

    ghost invariant = { λ a. AreSlots a.slots a.mail a.changes a.paid
        × AreMirrored a.slots a.index };
}

/// The most changes that are paid.
const MOST: u64 = 1 << 62;

impl Slots {
    /// No rows and no messages.
    pub fn new(alloc: Global) -> Slots
        ensures rows { result.rows ≡ [] }
        ensures mail { result.mail ≡ [] }
    {
        Slots {
            alloc,
            slots: Store::new(alloc),
            index: RowIndex::new(alloc),
            mail: Store::new(alloc),
            changes: 0,
            paid: 0,
        }
    }

    /// The state of a session's replica, if it has a row. It takes no memory.
    #[inline(always)]
    pub fn state(&self, session: SessionId, part: PartId) -> Option<StateId>
        ensures { result ≡ state_of self.now.rows session part }
    {
        slot_of(&self.slots, session, part)?.state
    }

    /// The pending message of a session's part. It takes no memory.
    pub fn message(&self, session: SessionId, part: PartId) -> Option<&Message>
        ensures { option_copied result ≡ message_of self.now.mail session part }
    {
        self.standing(session, part).1
    }

    /// The state of a session's replica, if it has a row, and its pending message. It takes no
    /// memory.
    #[inline(always)]
    pub fn standing(&self, session: SessionId, part: PartId) -> (Option<StateId>, Option<&Message>)
        ensures state { result.0 ≡ state_of self.now.rows session part }
        ensures message { option_copied result.1 ≡ message_of self.now.mail session part }
    {
        let Some(slot) = slot_of(&self.slots, session, part) else {
            return (None, None);
        };
        let message = last_message(&self.mail, session, part, slot.sent);
        (slot.state, message)
    }

    /// A session's pending message by number. It takes no memory.
    pub fn pending(&self, session: SessionId, id: MsgId) -> Option<Message>
        ensures { result ≡ find (has_id session id) self.now.mail }
    {
        let (_, message) = self.mail.get(id.0)?;
        if message.session == session {
            Some(*message)
        } else {
            None
        }
    }

    /// Adds a session's rows, by part, to some.
    pub fn push_rows_of(&self, session: SessionId, rows: &mut Seq<Row>) -> Result<(), AllocError>
        ensures ok { OnOk result
            (rows.new ≡ rows.old ++ filter (λ r. r.session.0 == session.0) self.now.rows) }
        ensures err { OnErr result (rows.new ≡ rows.old) }
    {
        match self.index.of(session) {
            Some(kept) => kept.push_to(rows),
            None => self.push_slots_of(session, rows),
        }
    }

    // The same, slot by slot.
    fn push_slots_of(&self, session: SessionId, rows: &mut Seq<Row>) -> Result<(), AllocError>
        ensures ok { OnOk result
            (rows.new ≡ rows.old ++ filter (λ r. r.session.0 == session.0) self.now.rows) }
        ensures err { OnErr result (rows.new ≡ rows.old) }
    {
        let before = rows.len();
        for slot in self.slots.owned(session) {
            if let Some(row) = slot.row() {
                push_or_cut(rows, before, row)?;
            }
        }
        Ok(())
    }

    /// Adds a session's pending messages, by number, to some.
    pub fn push_mail_of(
        &self,
        session: SessionId,
        mail: &mut Seq<Message>,
    ) -> Result<(), AllocError>
        ensures ok { OnOk result
            (mail.new ≡ mail.old ++ filter (λ m. m.session.0 == session.0) self.now.mail) }
        ensures err { OnErr result (mail.new ≡ mail.old) }
    {
        let before = mail.len();
        for message in self.mail.owned(session) {
            push_or_cut(mail, before, *message)?;
        }
        Ok(())
    }

    /// Whether a session has a row or a message of a resource. It takes no memory.
    pub fn holds(&self, session: SessionId, resource: ResourceId) -> bool
        ensures { result
            ≡ (list_any (λ r. (r.part.resource.0 == resource.0) && (r.session.0 == session.0))
            self.now.rows
            || list_any (λ m. (m.part.resource.0 == resource.0) && (m.session.0 == session.0))
            self.now.mail) }
    {
        self.holds_row(session, resource) || self.holds_message(session, resource)
    }

    fn holds_row(&self, session: SessionId, resource: ResourceId) -> bool
        ensures { result
            ≡ list_any (λ r. (r.part.resource.0 == resource.0) && (r.session.0 == session.0))
            self.now.rows }
    {
        for slot in self.slots.owned(session) {
            if slot.has_row_of(resource) {
                return true;
            }
        }
        false
    }

    fn holds_message(&self, session: SessionId, resource: ResourceId) -> bool
        ensures { result
            ≡ list_any (λ m. (m.part.resource.0 == resource.0) && (m.session.0 == session.0))
            self.now.mail }
    {
        for message in self.mail.owned(session) {
            if message.part.resource == resource {
                return true;
            }
        }
        false
    }

    /// Sends a message to a replica that has none pending.
    pub fn send(&mut self, message: Message) -> Result<(), AllocError>
        requires new { (message.taken ≡ false) × (message.written ≡ false) }
        requires idle { message_of self.old.mail message.session message.part ≡ None }
        requires last { list_all (λ m. nat_lt m.id.0 message.id.0) self.old.mail ≡ true }
        ensures rows { self.new.rows ≡ self.old.rows }
        ensures ok { OnOk result (self.new.mail ≡ self.old.mail ++ message ∷ []) }
        ensures err { OnErr result (self.new ≡ self.old) }
    {
        let Message {
            id,
            session,
            part,
            ..
        } = message;
        if self.paid > MOST - 2 {
            return Err(AllocError);
        }
        note_sent(&mut self.slots, &mut self.index, session, part, id)?;
        self.changes += 1;
        self.paid += 2;
        add_message(&mut self.mail, message)?;
        Ok(())
    }

    /// Marks a message as taken that wasn't. It takes no memory.
    pub fn take(&mut self, message: &Message)
        requires pending { find (has_id message.now.session message.now.id) self.old.mail
            ≡ Some message.now }
        requires free { message.now.taken ≡ false }
        ensures rows { self.new.rows ≡ self.old.rows }
        ensures mail { self.new.mail
            ≡ map (as_taken message.now.session message.now.id) self.old.mail }
    {
        let taken = Message {
            taken: true,
            ..*message
        };
        self.mail.replace(taken.id.0, taken);
    }

    /// Marks a message as written that wasn't, puts its replica at a state, or nowhere for DROPPED,
    /// and gives the state that it had, if it had a row. It takes no memory.
    pub fn write(&mut self, message: &Message, state: StateId) -> Option<StateId>
        requires pending { find (has_id message.now.session message.now.id) self.old.mail
            ≡ Some message.now }
        requires free { message.now.written ≡ false }
        ensures had { result ≡ state_of self.old.rows message.now.session message.now.part }
        ensures rows { self.new.rows
            ≡ row_put self.old.rows message.now.session message.now.part state }
        ensures mail { self.new.mail
            ≡ map (as_written message.now.session message.now.id) self.old.mail }
    {
        let had = put_at(&mut self.slots, &mut self.index, message, state);
        self.changes += 1;
        let written = Message {
            written: true,
            ..*message
        };
        self.mail.replace(written.id.0, written);
        had
    }

    /// Removes a session's message of a number, if there is one. It takes no memory.
    pub fn acknowledge(&mut self, session: SessionId, id: MsgId)
        ensures rows { self.new.rows ≡ self.old.rows }
        ensures mail { self.new.mail ≡ filter (λ m. not (has_id session id m)) self.old.mail }
    {
        let Some((_, message)) = self.mail.get(id.0) else {
            return;
        };
        if message.session == session {
            self.mail.remove(id.0);
        }
    }

    /// Takes a session's first message out, and gives it. It takes no memory.
    pub fn pop_message(&mut self, session: SessionId) -> Option<Message>
        ensures first { result ≡ find (λ m. m.session.0 == session.0) self.old.mail }
        ensures rows { self.new.rows ≡ self.old.rows }
        ensures mail { MatchOption result (self.new.mail ≡ self.old.mail) (λ m.
            self.new.mail ≡ filter (λ x. not (has_id session m.id x)) self.old.mail) }
    {
        pop_owned(&mut self.mail, session)
    }

    /// Takes a session's first row out, and gives it, where no message of the session is pending.
    /// It takes no memory.
    pub fn pop_row(&mut self, session: SessionId) -> Option<Row>
        requires { find (λ m. m.session.0 == session.0) self.old.mail ≡ None }
        ensures first { result ≡ find (λ r. r.session.0 == session.0) self.old.rows }
        ensures mail { self.new.mail ≡ self.old.mail }
        ensures rows { MatchOption result (self.new.rows ≡ self.old.rows) (λ r.
            self.new.rows ≡ filter (λ x. not (is_row session r.part x)) self.old.rows) }
    {
        self.index.forget(session);
        while let Some(slot) = pop_owned(&mut self.slots, session) {
            if let Some(row) = slot.row() {
                return Some(row);
            }
        }
        None
    }
}

//! Slots, their keys, and changes of single slots and messages.
ghost use Rattle.std.specs.Prelude.{◌≡◌, ◌==◌, ◌&&◌, None, Some, is_some, IsSome, MatchOption};
ghost use Rattle.std.specs.Prelude.{OnOk, OnErr, option_copied, option_map};
ghost use Rattle.std.specs.Map.{keys_of};
ghost use Rattle.std.specs.List.Sorted.{IsStrictlySortedBy};
ghost use Rattle.std.specs.Ordering.{nat_cmp};
ghost use Rattle.hx_store.specs.Records.{record_at, created};
ghost use Rattle.hx_store.specs.Refusals.{CanChange};
ghost use Rattle.hx_slots.specs.Slots.{IsPlaced, slot_key, row_of as row_of_slot};
ghost use Rattle.hx_slots.specs.Slots.{IsSlotOf, sent_at, sent_last, by_sent, put_at as put_at_of};
ghost use Rattle.hx_slots.specs.Mirror.{AreMirrored, AreAllSlots, IsNoted};

use crate::row_index::RowIndex;
use hx_cluster::{Message, Row};
use hx_ids::{MsgId, PartId, ResourceId, SessionId, StateId};
use hx_model::DROPPED;
use hx_store::Store;
use std::alloc::AllocError;

/// What is kept of a session's replica of a part: its state, if there is a row, and the message
/// that was sent to it last, pending or not.
#[derive(Clone, Copy)]
pub(crate) struct Slot {
    pub(crate) session: SessionId,
    pub(crate) part: PartId,
    pub(crate) state: Option<StateId>,
    pub(crate) sent: Option<MsgId>,
}

impl Slot {
    /// The row, if there is one.
    pub(crate) fn row(&self) -> Option<Row>
        ensures { result ≡ row_of_slot self.now }
    {
        Some(Row {
            session: self.session,
            part: self.part,
            state: self.state?,
        })
    }

    /// Whether there is a row, of a resource.
    pub(crate) fn has_row_of(&self, resource: ResourceId) -> bool
        ensures { result ≡ (is_some self.now.state && (self.now.part.resource.0 == resource.0)) }
    {
        self.state.is_some() && self.part.resource == resource
    }
}

/// The key of a session's part, if it has one: sessions below 2^39, resources below 256 and
/// indexes below 1,024. Keys stand as rows do.
fn key_of(session: SessionId, part: PartId) -> Option<u64>
    ensures { MatchOption result (IsPlaced session part → ⊥) (λ key.
        IsPlaced session part × (key ≡ slot_key session part)) }
{
    let PartId { resource, index } = part;
    if session.0 < 1 << 39 && resource.0 < 256 && index < 1024 {
        Some(session.0 * 262_144 + u64::from(resource.0) * 1024 + u64::from(index))
    } else {
        None
    }
}

/// The slot of a session's part, if there is one. It takes no memory.
#[inline(always)]
pub(crate) fn slot_of(slots: &Store<Slot>, session: SessionId, part: PartId) -> Option<&Slot>
    ensures { MatchOption result
        (IsPlaced session part → record_at slots.now (slot_key session part) ≡ None)
        (λ slot. IsSlotOf slots.now session part slot.now) }
{
    let key = key_of(session, part)?;
    let (_, slot) = slots.get(key)?;
    Some(slot)
}

/// Notes a slot of a session that is to be made: where the rows of the session are kept there is
/// room for its row, and where it is the session's first they are kept from now on.
fn note_slot(
    index: &mut RowIndex,
    slots: &Store<Slot>,
    session: SessionId,
) -> Result<(), AllocError>
    requires mirrored { AreMirrored slots.now index.old }
    ensures ok { OnOk result (IsNoted session slots.now index.new) }
    ensures err { OnErr result (AreMirrored slots.now index.new) }
{
    if index.add(session)? || slots.next_owned(session, 0).is_some() {
        return Ok(());
    }
    index.open(session)
}

/// Makes the slot of a key that has none, with room for its row. Where there is memory for the row
/// and none for the slot, the rows of the session are kept no more.
fn make(
    slots: &mut Store<Slot>,
    index: &mut RowIndex,
    key: u64,
    slot: Slot,
) -> Result<(), AllocError>
    requires mirrored { AreMirrored slots.old index.old }
    requires bare { slot.state ≡ None }
    ensures ok { OnOk result (slots.new ≡ created slots.old key (Some slot.session) slot) }
    ensures err { OnErr result (slots.new ≡ slots.old) }
    ensures mirrored { AreMirrored slots.new index.new }
{
    note_slot(index, slots, slot.session)?;
    match slots.create(key, Some(slot.session), slot) {
        Ok(()) => Ok(()),
        Err(_) => {
            index.forget(slot.session);
            Err(AllocError)
        }
    }
}

/// Notes in the slot of a session's part what was sent to it last. A slot that isn't there is
/// made.
pub(crate) fn note_sent(
    slots: &mut Store<Slot>,
    index: &mut RowIndex,
    session: SessionId,
    part: PartId,
    id: MsgId,
) -> Result<(), AllocError>
    requires room { CanChange (record_at slots.old (slot_key session part)) }
    requires slots { AreAllSlots slots.old }
    requires mirrored { AreMirrored slots.old index.old }
    ensures ordered { OnOk result (IsStrictlySortedBy nat_cmp (keys_of slots.old)) }
    ensures placed { OnOk result (IsPlaced session part) }
    ensures ok { OnOk result
        (slots.new ≡ sent_at slots.old (slot_key session part) session part id) }
    ensures err { OnErr result (slots.new ≡ slots.old) }
    ensures mirrored { AreMirrored slots.new index.new }
{
    let Some(key) = key_of(session, part) else {
        return Err(AllocError);
    };
    let mut noted = Slot {
        session,
        part,
        state: None,
        sent: Some(id),
    };
    let Some((_, slot)) = slots.get(key) else {
        return make(slots, index, key, noted);
    };
    noted.state = slot.state;
    slots.replace(key, noted);
    Ok(())
}

/// Puts the replica of the message that its slot was sent last at a state, or nowhere for DROPPED,
/// and gives the state that it had, if any. It takes no memory.
pub(crate) fn put_at(
    slots: &mut Store<Slot>,
    index: &mut RowIndex,
    message: &Message,
    state: StateId,
) -> Option<StateId>
    requires slots { AreAllSlots slots.old }
    requires mirrored { AreMirrored slots.old index.old }
    requires placed { IsPlaced message.now.session message.now.part }
    requires sent { sent_last (record_at slots.old (slot_key message.now.session message.now.part))
        ≡ Some message.now.id }
    requires room { CanChange
        (record_at slots.old (slot_key message.now.session message.now.part)) }
    ensures ordered { IsStrictlySortedBy nat_cmp (keys_of slots.old) }
    ensures had { option_map (λ r. r.value.state)
        (record_at slots.old (slot_key message.now.session message.now.part)) ≡ Some result }
    ensures slots { slots.new
        ≡ put_at_of slots.old (slot_key message.now.session message.now.part)
        message.now.session message.now.part state }
    ensures mirrored { AreMirrored slots.new index.new }
{
    let Message {
        id,
        session,
        part,
        ..
    } = *message;
    let Some(key) = key_of(session, part) else {
        unreachable!()
    };
    let put = Slot {
        session,
        part,
        state: if state == DROPPED { None } else { Some(state) },
        sent: Some(id),
    };
    let Some(before) = slots.replace(key, put) else {
        unreachable!()
    };
    index.put(session, part, before.state.is_some(), put.row());
    before.state
}

/// The message that was sent last to a session's part, if it is still pending. It takes no memory.
/// The keys of all records rise.
#[inline(always)]
pub(crate) fn last_message(
    mail: &Store<Message>,
    session: SessionId,
    part: PartId,
    sent: Option<MsgId>,
) -> Option<&Message>
    ensures message { option_copied result ≡ by_sent mail.now session part sent }
    ensures ordered { IsSome sent → IsStrictlySortedBy nat_cmp (keys_of mail.now) }
{
    let (_, message) = mail.get(sent?.0)?;
    if message.is_of(session, part) {
        Some(message)
    } else {
        None
    }
}

/// Adds a message. One whose number is taken is answered as want of memory.
pub(crate) fn add_message(mail: &mut Store<Message>, message: Message) -> Result<(), AllocError>
    ensures ok { OnOk result
        (mail.new ≡ created mail.old message.id.0 (Some message.session) message) }
    ensures err { OnErr result (mail.new ≡ mail.old) }
{
    match mail.create(message.id.0, Some(message.session), message) {
        Ok(()) => Ok(()),
        Err(_) => Err(AllocError),
    }
}

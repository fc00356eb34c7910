ghost use Rattle.std.specs.Prelude.{◌≡◌, [], IfOk};

use crate::tests::fixtures::expect;
use hx_cluster::{Message, Row};
use hx_ids::{Epoch, MsgId, PartId, ResourceId, SessionId, StateId};
use hx_lists::Seq;
use hx_slots::Slots;
use std::alloc::{AllocError, Global};
use std::process::Abort;
use std::test::Fail;

const SESSION: SessionId = SessionId(7);

const PART: PartId = PartId {
    resource: ResourceId(1),
    index: 3,
};

const STATE: StateId = StateId(2);

const SENT: Message = Message {
    id: MsgId(1),
    session: SESSION,
    part: PART,
    from: StateId(1),
    to: STATE,
    initial: StateId(1),
    epoch: Epoch(1),
    taken: false,
    written: false,
};

/// The row of the message's outcome.
const ROW: Row = Row {
    session: SESSION,
    part: PART,
    state: STATE,
};

// Slots with a message that was sent and written.
fn with_row(alloc: Global) -> Result<Slots, AllocError> {
    let mut slots = Slots::new(alloc);
    slots.send(SENT)?;
    slots.write(&SENT, STATE);
    Ok(slots)
}

/// Sends a message, takes it and acknowledges it.
fn send_and_take(rt: &impl Abort, slots: &mut Slots) -> Result<(), AllocError>
    requires { slots.old.mail ≡ [] }
{
    slots.send(SENT)?;
    slots.take(&SENT);
    let taken = Message {
        taken: true,
        ..SENT
    };
    expect(rt, &slots.message(SESSION, PART), &Some(&taken));
    slots.acknowledge(SESSION, MsgId(1));
    expect(rt, &slots.pending(SESSION, MsgId(1)), &None);
    Ok(())
}

#[test]
fn a_message_is_sent_taken_and_acknowledged(rt: HostRuntime) -> Result<(), Fail> {
    let mut slots = Slots::new(rt.alloc());
    send_and_take(&rt, &mut slots)?;
    Ok(())
}

/// How many rows a session has.
fn rows_of(alloc: Global, slots: &Slots) -> Result<usize, AllocError> {
    let mut rows = Seq::new(alloc);
    slots.push_rows_of(SESSION, &mut rows)?;
    Ok(rows.len())
}

/// How many messages a session has.
fn mail_of(alloc: Global, slots: &Slots) -> Result<usize, AllocError> {
    let mut mail = Seq::new(alloc);
    slots.push_mail_of(SESSION, &mut mail)?;
    Ok(mail.len())
}

fn expect_row(rt: &impl Abort, alloc: Global, slots: &Slots) {
    expect(rt, &slots.state(SESSION, PART), &Some(STATE));
    assert!(rt; slots.holds(SESSION, ResourceId(1)));
    expect(rt, &rows_of(alloc, slots), &Ok(1));
    expect(rt, &mail_of(alloc, slots), &Ok(1));
}

#[test]
fn an_outcome_comes_to_the_row(rt: HostRuntime) -> Result<(), Fail> {
    let slots = with_row(rt.alloc())?;
    expect_row(&rt, rt.alloc(), &slots);
    Ok(())
}

#[test]
fn the_first_message_of_a_session_goes(rt: HostRuntime) -> Result<(), Fail> {
    let mut slots = with_row(rt.alloc())?;
    let written = Message {
        written: true,
        ..SENT
    };
    expect(&rt, &slots.pop_message(SESSION), &Some(written));
    Ok(())
}

// Slots with the row that is left of a message that was written and acknowledged.
fn with_row_alone(alloc: Global) -> Result<Slots, AllocError>
    ensures { IfOk result (λ slots. slots.mail ≡ []) }
{
    let mut slots = Slots::new(alloc);
    slots.send(SENT)?;
    slots.write(&SENT, STATE);
    slots.acknowledge(SESSION, MsgId(1));
    Ok(slots)
}

#[test]
fn the_first_row_of_a_session_goes(rt: HostRuntime) -> Result<(), Fail> {
    let mut slots = with_row_alone(rt.alloc())?;
    assert!(rt; slots.pop_row(SESSION) == Some(ROW));
    expect(&rt, &slots.state(SESSION, PART), &None);
    Ok(())
}

//! A cluster as a board keeps it: its calls are the steps of the plain cluster, which contracts see.
#![tactic(auto)]

ghost use Rattle.std.specs.Prelude.{◌≡◌, ◌↔◌, ℕ, ◌++◌, None, replicate, IfOk, IsTrue, OnOk, OnErr};
ghost use Rattle.hx_cluster.specs.Steps.{opening};
ghost use Rattle.hx_cluster.specs.Reads.{live_shown, mail_shown, states_shown, ideals_shown, fetched};
ghost use Rattle.hx_cluster.specs.Events.{next, begun_of};
ghost use Rattle.hx_cluster.specs.Room.{HasRoom};
ghost use Rattle.hx_records.specs.Places.{seat_shown};
ghost use Rattle.hx_records.specs.Reached.{IsReached};

mod dispatches;
mod ends;
mod marks;
mod readers;
mod refusals;
mod steps;

use hx_calls::{begin, publish, read_ideals_over, reread_ideals};
use hx_cluster::{Begun, Cluster, Event, Ideals, Mail, Message, Row, Seen, Spec};
use hx_counts::Counts;
use hx_ids::{ControllerId, InstanceId, SessionId};
use hx_lists::Seq;
use hx_sessions::Sessions;
use hx_slots::Slots;
use std::alloc::{AllocError, Global};
use std::marker::Model;

/// A cluster. What may come to a message or a session needs no memory once it was sent or joined.
pub struct Records {
    /// Its lists of live sessions, rows and messages are empty.
    rest: Cluster,
    sessions: Sessions,
    /// How many sessions are live.
    live: u32,
    /// The live session of each instance.
    seats: Seq<Option<SessionId>>,
    slots: Slots,
    counts: Counts,
}

impl Model for Records {
    ghost use Rattle.hx_cluster.specs.declared.state.Cluster.{Cluster};
    ghost use Rattle.hx_records.specs.Records.{seen, AreRecords};

    ghost Value = { Cluster };

    ghost view = { seen };

    ghost invariant = { AreRecords };
}

// A derived drop is written out, field by field, wherever one is dropped; this is a call, and so are
// those in it that would be long.
impl Drop for Records {
    fn drop(self) {
        let Records {
            rest: _,
            sessions,
            live: _,
            seats: _,
            slots,
            counts,
        } = self;
        drop(sessions);
        drop(slots);
        drop(counts);
    }
}

fn empty_seats(alloc: Global, instances: usize) -> Result<Seq<Option<SessionId>>, AllocError>
    ensures { IfOk result (λ seats. seats ≡ replicate instances None) }
{
    let mut seats = Seq::new(alloc);
    for _ in 0..instances {
        seats.push(None)?;
    }
    Ok(seats)
}

/// Shows the session at an instance's place, if there is one.
fn show(
    shown: &mut Vec<(SessionId, InstanceId)>,
    instance: InstanceId,
    seat: Option<SessionId>,
) -> Result<(), AllocError>
    ensures { OnOk result (shown.new.items ≡ shown.old.items ++ seat_shown instance seat) }
{
    if let Some(session) = seat {
        shown.push((session, instance))?;
    }
    Ok(())
}

impl Records {
    /// The opening of a description.
    pub fn at_opening(alloc: Global, spec: &Spec) -> Result<Records, AllocError>
        ensures { IfOk result (λ records. records ≡ opening spec.now) }
    {
        let seats = empty_seats(alloc, spec.instances.len() as usize)?;
        Ok(Records {
            rest: Cluster::at_opening(alloc, spec)?,
            sessions: Sessions::new(alloc),
            live: 0,
            seats,
            slots: Slots::new(alloc),
            counts: Counts::new(alloc),
        })
    }

    /// Takes a script's line.
    pub fn take_line(&mut self, line: u32)
        ensures { self.new ≡ next self.old (Event.Line line) }
    {
        self.rest.line = Some(line);
    }

    /// Begins a pass of a controller.
    pub fn begin(&mut self, controller: ControllerId) -> Begun
        requires { HasRoom self.old }
        ensures begun { result ≡ begun_of self.old controller }
        ensures after { self.new ≡ next self.old (Event.Begin controller result) }
    {
        begin(&mut self.rest, controller)
    }

    /// The live sessions with their instances, by instance.
    pub fn read_live(&self) -> Result<Vec<(SessionId, InstanceId)>, AllocError>
        requires { IsReached self.now }
        ensures { IfOk result (λ shown. shown.items ≡ live_shown self.now) }
    {
        let mut shown = Vec::with_capacity(self.seats.allocator(), self.seats.len())?;
        for (place, seat) in self.seats.as_slice().iter().enumerate() {
            show(&mut shown, InstanceId(place as u32), *seat)?;
        }
        Ok(shown)
    }

    /// Adds a session's pending messages, by number, to those that were shown before.
    pub fn read_mail_into(
        &self,
        session: SessionId,
        shown: &mut Seq<Message>,
    ) -> Result<(), AllocError>
        ensures ok { OnOk result (shown.new ≡ shown.old ++ mail_shown self.now session) }
        ensures err { OnErr result (shown.new ≡ shown.old) }
    {
        self.slots.push_mail_of(session, shown)
    }

    /// Adds a session's rows, by part, to those that were shown before.
    pub fn read_states_into(
        &self,
        session: SessionId,
        shown: &mut Seq<Row>,
    ) -> Result<(), AllocError>
        ensures ok { OnOk result (shown.new ≡ shown.old ++ states_shown self.now session) }
        ensures err { OnErr result (shown.new ≡ shown.old) }
    {
        self.slots.push_rows_of(session, shown)
    }

    /// The resources, the drained instances and the reset flags. What `kept` has in the same place
    /// is kept, and takes no memory; the rest is copied.
    pub fn read_ideals_over(&self, kept: Ideals) -> Result<Ideals, AllocError>
        ensures { IfOk result (λ ideals. ideals ≡ ideals_shown self.now) }
    {
        read_ideals_over(&self.rest, kept)
    }

    /// Reads them over `kept`, and tells whether they are as they were in it.
    pub fn reread_ideals(&self, kept: &mut Ideals) -> Result<bool, AllocError>
        ensures same { IfOk result (λ same. IsTrue same ↔ (kept.old ≡ ideals_shown self.now)) }
        ensures shown { OnOk result (kept.new ≡ ideals_shown self.now) }
    {
        reread_ideals(&self.rest, kept)
    }

    /// Posts rows in place of those that stand.
    pub fn publish(&mut self, rows: &[Seen]) -> Result<(), AllocError>
        ensures ok { OnOk result (self.new ≡ record self.old { posted = rows.now }) }
        ensures err { OnErr result (self.new ≡ self.old) }
    {
        publish(&mut self.rest, rows)
    }

    /// An instance's live session, and its pending messages by number.
    pub fn fetch(&self, instance: InstanceId) -> Result<Mail, AllocError>
        ensures { IfOk result (λ mail. mail ≡ fetched self.now instance) }
    {
        let mut messages = Seq::new(self.seats.allocator());
        let session = self.session_of(instance);
        if let Some(live) = session {
            self.read_mail_into(live, &mut messages)?;
        }
        Ok(Mail { session, messages })
    }
}

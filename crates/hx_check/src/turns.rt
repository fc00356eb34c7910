//! A controller's turn, as a log tells it: the calls that are left, and what its reads showed.
ghost use Rattle.std.specs.Prelude.{◌≡◌, ◌<◌, map, length, replicate, slice_set};
ghost use Rattle.std.specs.Prelude.{slice_index_or, IfOk, OnOk, OnErr, ◌&&◌};
ghost use Rattle.hx_pass.specs.Turns;
ghost use Rattle.hx_records.specs.Reached.{IsReached};
ghost use Rattle.hx_check.specs.Judging.{call_told, read_on, sent_on};

use hx_calls::{forget_shown, no_ideals, nothing_shown};
use hx_cluster::{Begun, Ideals, View};
use hx_ids::{ControllerId, Epoch, InstanceId, PassNo, SessionId};
use hx_lists::Seq;
use hx_records::Records;
use std::alloc::{AllocError, Global};
use std::marker::Model;
use std::mem;

/// A read of a turn.
#[derive(Clone, Copy)]
pub(crate) enum Read {
    Live,
    Mail(SessionId),
    States(SessionId),
    Ideals,
}

/// A call of a turn that has begun.
#[derive(Clone, Copy)]
pub(crate) enum Call {
    Read(Read),
    Send,
    Post,
}

/// Whether calls are the same.
fn same_call(a: Call, b: Call) -> bool
    ensures { result ≡ Turns.same_call (call_told a) (call_told b) }
{
    match (a, b) {
        (Call::Read(Read::Mail(s)), Call::Read(Read::Mail(t))) => s == t,
        (Call::Read(Read::States(s)), Call::Read(Read::States(t))) => s == t,
        (Call::Read(Read::Live), Call::Read(Read::Live)) => true,
        (Call::Read(Read::Ideals), Call::Read(Read::Ideals)) => true,
        (Call::Send, Call::Send) => true,
        (Call::Post, Call::Post) => true,
        _ => false,
    }
}

/// The calls that follow once live showed some sessions.
fn calls_after_live(
    alloc: Global,
    live: &[(SessionId, InstanceId)],
) -> Result<Vec<Call>, AllocError>
    ensures { IfOk result (λ calls.
        map call_told calls.items ≡ Turns.calls_after_live live.now) }
{
    let mut calls = Vec::new(alloc);
    for shown in live {
        calls.push(Call::Read(Read::Mail(shown.0)))?;
    }
    for shown in live {
        calls.push(Call::Read(Read::States(shown.0)))?;
    }
    calls.push(Call::Read(Read::Ideals))?;
    calls.push(Call::Send)?;
    calls.push(Call::Post)?;
    Ok(calls)
}

/// The numbers of no turn.
fn not_begun() -> Begun
    ensures { result ≡ Turns.idle_turn.begun }
{
    Begun {
        epoch: Epoch(0),
        pass: PassNo(0),
        change: 0,
    }
}

/// A turn. The calls before `done` were made.
#[derive(Drop)]
pub(crate) struct Turn {
    calls: Vec<Call>,
    done: usize,
    begun: Begun,
    view: View,
    /// The ideals of an earlier turn, over which the next are read.
    spare: Ideals,
}

impl Model for Turn {
    ghost use Rattle.std.specs.Prelude.{◌≤◌, map, drop, vec_len};
    ghost use Rattle.hx_pass.specs.Turns as Spec;
    ghost use Rattle.hx_check.specs.Judging.{call_told};

    ghost Value = { Spec.Turn };

    ghost view = { λ a. record {
      left = map call_told (drop a.done a.calls.items);
      begun = a.begun;
      view = a.view;
    } };

    ghost invariant = { λ a. a.done ≤ vec_len a.calls };
}

impl Turn {
    /// No turn.
    pub fn idle(alloc: Global) -> Turn
        ensures { result ≡ Turns.idle_turn }
    {
        Turn {
            calls: Vec::new(alloc),
            done: 0,
            begun: not_begun(),
            view: nothing_shown(alloc),
            spare: no_ideals(alloc),
        }
    }

    /// What its reads showed.
    pub fn view(&self) -> &View
        ensures { result.now ≡ self.now.view }
    {
        &self.view
    }

    /// Whether a call is the next one.
    fn is_first(&self, call: Call) -> bool
        ensures { result ≡ Turns.is_first (call_told call) self.now.left }
    {
        match self.calls.get(self.done) {
            Some(next) => same_call(*next, call),
            None => false,
        }
    }

    /// Whether a call is the next one, with the pass number of the turn's begin.
    pub fn is_due(&self, call: Call, pass: PassNo) -> bool
        ensures { result ≡ Turns.is_due self.now (call_told call) pass }
    {
        self.is_first(call) && pass == self.begun.pass
    }

    /// Whether an epoch is that of the turn's begin.
    fn is_of_epoch(&self, epoch: Epoch) -> bool
        ensures { result ≡ Turns.is_of_epoch self.now epoch }
    {
        epoch == self.begun.epoch
    }

    /// Whether its send is next, with the numbers of its begin.
    pub fn is_sending(&self, pass: PassNo, epoch: Epoch) -> bool
        ensures { result ≡ (Turns.is_due self.now Turns.Send pass && Turns.is_of_epoch self.now epoch) }
    {
        self.is_due(Call::Send, pass) && self.is_of_epoch(epoch)
    }

    /// Whether its post is next, with the epoch of its begin.
    pub fn is_posting(&self, epoch: Epoch) -> bool
        ensures { result ≡ (Turns.is_first Turns.Post self.now.left && Turns.is_of_epoch self.now epoch) }
    {
        self.is_first(Call::Post) && self.is_of_epoch(epoch)
    }

    /// Begins.
    pub fn begin(&mut self, alloc: Global, begun: Begun) -> Result<(), AllocError>
        ensures ok { OnOk result (self.new ≡ Turns.begun_turn begun) }
        ensures err { OnErr result (self.new ≡ self.old) }
    {
        let mut calls = Vec::new(alloc);
        calls.push(Call::Read(Read::Live))?;
        self.calls = calls;
        self.done = 0;
        self.begun = begun;
        forget_shown(&mut self.view, &mut self.spare);
        Ok(())
    }

    /// Ends, and leaves no turn.
    pub fn end(&mut self, alloc: Global)
        ensures { self.new ≡ Turns.idle_turn }
    {
        self.calls = Vec::new(alloc);
        self.done = 0;
        self.begun = not_begun();
        forget_shown(&mut self.view, &mut self.spare);
    }

    /// Goes on with the next call.
    pub fn go_on(&mut self)
        ensures { self.new ≡ sent_on self.old }
    {
        if self.done < self.calls.len() {
            self.done += 1;
        }
    }

    /// Reads which sessions are live.
    fn read_live(&mut self, alloc: Global, records: &Records) -> Result<(), AllocError>
        requires { IsReached records.now }
        ensures ok { OnOk result (self.new ≡ read_on records.now self.old Read.Live) }
        ensures err { OnErr result (self.new ≡ self.old) }
    {
        let live = records.read_live()?;
        self.calls = calls_after_live(alloc, live.as_slice())?;
        self.done = 0;
        self.view.live = Seq::from_vec(live);
        Ok(())
    }

    /// Reads what is wanted.
    fn read_ideals(&mut self, records: &Records) -> Result<(), AllocError>
        ensures ok { OnOk result (self.new ≡ read_on records.now self.old Read.Ideals) }
        ensures err { OnErr result (self.new ≡ self.old) }
    {
        let alloc = self.view.live.allocator();
        let spare = mem::replace(&mut self.spare, no_ideals(alloc));
        self.view.ideals = records.read_ideals_over(spare)?;
        self.go_on();
        Ok(())
    }

    /// Reads.
    pub fn read(&mut self, alloc: Global, read: Read, records: &Records) -> Result<(), AllocError>
        requires { IsReached records.now }
        ensures ok { OnOk result (self.new ≡ read_on records.now self.old read) }
        ensures err { OnErr result (self.new ≡ self.old) }
    {
        match read {
            Read::Live => self.read_live(alloc, records),
            Read::Mail(session) => {
                records.read_mail_into(session, &mut self.view.mail)?;
                self.go_on();
                Ok(())
            }
            Read::States(session) => {
                records.read_states_into(session, &mut self.view.rows)?;
                self.go_on();
                Ok(())
            }
            Read::Ideals => self.read_ideals(records),
        }
    }
}

/// Idle turns of so many controllers.
pub(crate) fn idle_turns(alloc: Global, controllers: u8) -> Result<Vec<Turn>, AllocError>
    ensures { IfOk result (λ turns. turns.items ≡ replicate controllers Turns.idle_turn) }
{
    let mut turns = Vec::new(alloc);
    for _made in 0..controllers {
        turns.push(Turn::idle(alloc))?;
    }
    Ok(turns)
}

/// Begins a controller's turn.
pub(crate) fn begin_turn(
    alloc: Global,
    turns: &mut Vec<Turn>,
    controller: ControllerId,
    begun: Begun,
) -> Result<(), AllocError>
    requires { controller.0 < length turns.old.items }
    ensures ok { OnOk result (turns.new.items
        ≡ slice_set turns.old.items controller.0 (Turns.begun_turn begun)) }
    ensures err { OnErr result (turns.new.items ≡ turns.old.items) }
{
    turns[controller.0 as usize].begin(alloc, begun)
}

/// A controller's turn reads.
pub(crate) fn read_turn(
    alloc: Global,
    turns: &mut Vec<Turn>,
    controller: ControllerId,
    read: Read,
    records: &Records,
) -> Result<(), AllocError>
    requires there { controller.0 < length turns.old.items }
    requires reached { IsReached records.now }
    ensures ok { OnOk result (turns.new.items
        ≡ slice_set turns.old.items controller.0
        (read_on records.now (slice_index_or turns.old.items controller.0 Turns.idle_turn) read)) }
    ensures err { OnErr result (turns.new.items ≡ turns.old.items) }
{
    turns[controller.0 as usize].read(alloc, read, records)
}

/// A controller's turn goes on behind its send.
pub(crate) fn go_on_turn(turns: &mut Vec<Turn>, controller: ControllerId)
    requires { controller.0 < length turns.old.items }
    ensures { turns.new.items
        ≡ slice_set turns.old.items controller.0
        (sent_on (slice_index_or turns.old.items controller.0 Turns.idle_turn)) }
{
    turns[controller.0 as usize].go_on();
}

/// Ends a controller's turn.
pub(crate) fn end_turn(alloc: Global, turns: &mut Vec<Turn>, controller: ControllerId)
    requires { controller.0 < length turns.old.items }
    ensures { turns.new.items ≡ slice_set turns.old.items controller.0 Turns.idle_turn }
{
    turns[controller.0 as usize].end(alloc);
}

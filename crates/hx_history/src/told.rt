//! Events that a history tells: lent from it, or made again of words.
ghost use Rattle.std.specs.Prelude.{◌≡◌, ◌≤◌, [], length, Some};
ghost use Rattle.hx_cluster.specs.declared.happenings.Admin.TheVariants as steps;
ghost use Rattle.hx_cluster.specs.declared.happenings.Did.TheVariants as dids;
ghost use Rattle.hx_cluster.specs.declared.happenings.Event.TheVariants as events;
ghost use Rattle.hx_history.specs.Columns as Spec;
ghost use Rattle.hx_history.specs.Told.{event_in};
ghost use Rattle.hx_ids.specs.Words as Ids;

use crate::kinds::Kind;
use hx_cluster::{Admin, Begun, Did, Event, Outcome};
use hx_ids::{ControllerId, Epoch, InstanceId, MsgId, PassNo, SessionId};
use hx_lists::Seq;
use std::alloc::Global;

/// An event of a history: lent from it, or made again.
pub enum Told<'a> {
    Kept(&'a Event),
    Made(Event),
}

// A derived drop is written out, event by event, wherever one is dropped; this is a call.
impl Drop for Told<'_> {
    fn drop(self) {
        match self {
            Told::Kept(_) => {}
            Told::Made(_) => {}
        }
    }
}

impl<'a> Told<'a> {
    /// The event.
    #[inline]
    pub fn event(&self) -> &Event
        ensures { result.now ≡ event_in self.now }
    {
        match self {
            Told::Kept(event) => event,
            Told::Made(event) => event,
        }
    }
}

#[inline]
fn controller(word: u32) -> ControllerId
    ensures { result ≡ Spec.controller word }
{
    ControllerId((word % (1 << 8)) as u8)
}

#[inline]
fn pass(word: u32) -> PassNo
    ensures { result ≡ Ids.pass word }
{
    PassNo(u64::from(word))
}

#[inline]
fn session(word: u32) -> SessionId
    ensures { result ≡ Ids.session word }
{
    SessionId(u64::from(word))
}

#[inline]
fn message(word: u32) -> MsgId
    ensures { result ≡ Ids.message word }
{
    MsgId(u64::from(word))
}

#[inline]
fn pass_of(word: u32) -> PassNo
    ensures { result ≡ Spec.pass_of word }
{
    pass(word / (1 << 8))
}

#[inline]
fn session_of(word: u32) -> SessionId
    ensures { result ≡ Spec.session_of word }
{
    session(word / (1 << 20))
}

#[inline]
fn message_of(word: u32) -> MsgId
    ensures { result ≡ Spec.message_of word }
{
    message(word % (1 << 20))
}

#[inline]
fn begun(words: &[u32]) -> Begun
    requires { 3 ≤ length words.now }
    ensures { result ≡ Spec.begun words.now }
{
    Begun {
        epoch: Epoch(u64::from(words[1])),
        pass: pass_of(words[0]),
        change: u64::from(words[2]),
    }
}

#[inline]
fn read_controller(word: u32) -> ControllerId
    ensures { result ≡ Spec.read_controller word }
{
    ControllerId((word % (1 << 4)) as u8)
}

#[inline]
fn read_pass(word: u32) -> PassNo
    ensures { result ≡ Spec.read_pass word }
{
    pass(word / (1 << 16))
}

#[inline]
fn read_session(word: u32) -> SessionId
    ensures { result ≡ Spec.read_session word }
{
    session(word / (1 << 4) % (1 << 12))
}

#[inline]
fn mail(word: u32) -> Event
    ensures { result ≡ events.Mail (Spec.read_controller word) (Spec.read_pass word)
        (Spec.read_session word) }
{
    Event::Mail(read_controller(word), read_pass(word), read_session(word))
}

#[inline]
fn states(word: u32) -> Event
    ensures { result ≡ events.States (Spec.read_controller word) (Spec.read_pass word)
        (Spec.read_session word) }
{
    Event::States(read_controller(word), read_pass(word), read_session(word))
}

#[inline]
fn fetched(word: u32) -> Event
    ensures { result ≡ events.Fetch (Spec.fetch_instance word) (Some (Spec.fetch_session word))
        (Spec.fetch_count word) }
{
    Event::Fetch {
        instance: InstanceId(word % (1 << 10)),
        session: Some(session(word / (1 << 10) % (1 << 12))),
        count: word / (1 << 22),
    }
}

#[inline]
fn long_fetched(word: u32, session: Option<SessionId>) -> Event
    ensures { result ≡ events.Fetch (Spec.instance_of word) session (Spec.count_of word) }
{
    Event::Fetch {
        instance: InstanceId(word % (1 << 16)),
        session,
        count: word / (1 << 16),
    }
}

#[inline]
fn written(word: u32, outcome: Outcome) -> Event
    ensures { result ≡ events.Write (Spec.session_of word) (Spec.message_of word) outcome }
{
    Event::Write(session_of(word), message_of(word), outcome)
}

#[inline]
fn long_written(of: u32, id: u32, outcome: Outcome) -> Event
    ensures { result ≡ events.Write (Ids.session of) (Ids.message id) outcome }
{
    Event::Write(session(of), message(id), outcome)
}

#[inline]
fn ticked(alloc: Global, n: u32) -> Event
    ensures { result ≡ events.Admin (steps.Tick n) (dids.Ended []) }
{
    Event::Admin(Admin::Tick { n: u64::from(n) }, Did::Ended(Seq::new(alloc)))
}

/// What a kind tells of its words, or of the event that was kept as it is.
#[inline]
pub(crate) fn tell<'a>(alloc: Global, kind: Kind, words: &[u32], whole: &'a [Event]) -> Told<'a>
    requires words { Spec.words_of kind ≤ length words.now }
    requires whole { Spec.kept_of kind ≤ length whole.now }
    ensures { Spec.event_of kind words.now whole.now ≡ Some (event_in result) }
{
    Told::Made(match kind {
        Kind::Line => Event::Line(words[0]),
        Kind::Tick => ticked(alloc, words[0]),
        Kind::Begin => Event::Begin(controller(words[0]), begun(words)),
        Kind::Live => Event::Live(controller(words[0]), pass_of(words[0])),
        Kind::Mail => mail(words[0]),
        Kind::States => states(words[0]),
        Kind::Ideals => Event::Ideals(controller(words[0]), pass_of(words[0])),
        Kind::FetchNobody => long_fetched(words[0], None),
        Kind::Fetch => fetched(words[0]),
        Kind::Take => Event::Take(session_of(words[0]), message_of(words[0])),
        Kind::WriteOk => written(words[0], Outcome::Ok),
        Kind::WriteFailed => written(words[0], Outcome::Failed),
        Kind::Ack => Event::Ack(session_of(words[0]), message_of(words[0])),
        Kind::LongMail => Event::Mail(controller(words[0]), pass_of(words[0]), session(words[1])),
        Kind::LongStates => {
            Event::States(controller(words[0]), pass_of(words[0]), session(words[1]))
        }
        Kind::LongFetch => long_fetched(words[0], Some(session(words[1]))),
        Kind::LongTake => Event::Take(session(words[0]), message(words[1])),
        Kind::LongWriteOk => long_written(words[0], words[1], Outcome::Ok),
        Kind::LongWriteFailed => long_written(words[0], words[1], Outcome::Failed),
        Kind::LongAck => Event::Ack(session(words[0]), message(words[1])),
        Kind::Whole => return Told::Kept(&whole[0]),
    })
}

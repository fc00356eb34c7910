//! The few words that tell most events.
ghost use Rattle.std.specs.Prelude.{◌≡◌, ◌∷◌, [], length, take, option_map, IfSome};
ghost use Rattle.hx_cluster.specs.declared.happenings.Event.TheVariants as events;
ghost use Rattle.hx_history.specs.Columns as Spec;
ghost use Rattle.hx_history.specs.Columns.{words_of};
ghost use Rattle.hx_history.specs.Kept.{Tells};

use crate::kinds::Kind;
use hx_cluster::{Admin, Did, Event, Outcome};
use hx_ids::{ControllerId, InstanceId, MsgId, PassNo, SessionId};

/// A kind, and the words that tell an event of it, in front of zeros.
#[derive(Clone, Copy)]
pub(crate) struct Brief {
    pub(crate) kind: Kind,
    pub(crate) words: [u32; 3],
}

impl Brief {
    /// The words that tell an event.
    #[inline(always)]
    pub(crate) fn words(&self) -> &[u32]
        ensures words { result.now ≡ take (words_of self.now.kind) self.now.words }
        ensures many { length result.now ≡ words_of self.now.kind }
    {
        &self.words[..self.kind.words()]
    }
}

/// A number in one word.
#[inline(always)]
fn word(number: u64) -> Option<u32>
    ensures { IfSome result (λ word. word ≡ number) }
{
    if number < 1 << 32 {
        Some(number as u32)
    } else {
        None
    }
}

/// A kind with numbers, where each of them fits a word.
#[inline(always)]
fn in_words(kind: Kind, numbers: [u64; 3]) -> Option<Brief>
    ensures { IfSome result (λ brief. brief ≡ record { kind = kind; words = numbers }) }
{
    let [first, second, third] = numbers;
    let words = [word(first)?, word(second)?, word(third)?];
    Some(Brief { kind, words })
}

/// A kind with one word, where there is one.
#[inline(always)]
fn in_word(kind: Kind, word: Option<u32>) -> Option<Brief>
    ensures { result ≡ option_map (λ word. record { kind = kind; words = word ∷ 0 ∷ 0 ∷ [] }) word }
{
    let words = [word?, 0, 0];
    Some(Brief { kind, words })
}

/// A controller and a pass of it in one word.
#[inline(always)]
fn turn(controller: ControllerId, pass: PassNo) -> Option<u32>
    ensures { IfSome result (λ word.
        (Spec.controller word ≡ controller) × (Spec.pass_of word ≡ pass)) }
{
    if pass.0 < 1 << 24 {
        Some(pass.0 as u32 * (1 << 8) + u32::from(controller.0))
    } else {
        None
    }
}

/// An instance and how many messages it fetched in one word.
#[inline(always)]
fn fetch(instance: InstanceId, count: u32) -> Option<u32>
    ensures { IfSome result (λ word.
        (Spec.instance_of word ≡ instance) × (Spec.count_of word ≡ count)) }
{
    if instance.0 < 1 << 16 && count < 1 << 16 {
        Some(count * (1 << 16) + instance.0)
    } else {
        None
    }
}

/// A controller, a pass of it and the session that it reads of in one word.
#[inline(always)]
fn read(controller: ControllerId, pass: PassNo, session: SessionId) -> Option<u32>
    ensures { IfSome result (λ word.
        (Spec.read_controller word ≡ controller) × (Spec.read_pass word ≡ pass)
        × (Spec.read_session word ≡ session)) }
{
    if controller.0 < 1 << 4 && session.0 < 1 << 12 && pass.0 < 1 << 16 {
        Some((pass.0 as u32 * (1 << 12) + session.0 as u32) * (1 << 4) + u32::from(controller.0))
    } else {
        None
    }
}

/// An instance, its session and how many messages it fetched in one word.
#[inline(always)]
fn fetch_of(instance: InstanceId, session: SessionId, count: u32) -> Option<u32>
    ensures { IfSome result (λ word.
        (Spec.fetch_instance word ≡ instance) × (Spec.fetch_session word ≡ session)
        × (Spec.fetch_count word ≡ count)) }
{
    if instance.0 < 1 << 10 && session.0 < 1 << 12 && count < 1 << 10 {
        Some((count * (1 << 12) + session.0 as u32) * (1 << 10) + instance.0)
    } else {
        None
    }
}

/// A session and a message in one word.
#[inline(always)]
fn job(session: SessionId, id: MsgId) -> Option<u32>
    ensures { IfSome result (λ word.
        (Spec.session_of word ≡ session) × (Spec.message_of word ≡ id)) }
{
    if session.0 < 1 << 12 && id.0 < 1 << 20 {
        Some(session.0 as u32 * (1 << 20) + id.0 as u32)
    } else {
        None
    }
}

/// What tells a fetch in a word alone, where one is enough.
#[inline(always)]
fn fetch_in_word(instance: InstanceId, session: Option<SessionId>, count: u32) -> Option<Brief>
    ensures { IfSome result (λ brief. Tells brief (events.Fetch instance session count)) }
{
    match session {
        Some(session) => in_word(Kind::Fetch, fetch_of(instance, session, count)),
        None => in_word(Kind::FetchNobody, fetch(instance, count)),
    }
}

/// What tells a write in a word alone, where one is enough.
#[inline(always)]
fn write_in_word(session: SessionId, id: MsgId, outcome: Outcome) -> Option<Brief>
    ensures { IfSome result (λ brief. Tells brief (events.Write session id outcome)) }
{
    let word = job(session, id);
    match outcome {
        Outcome::Ok => in_word(Kind::WriteOk, word),
        Outcome::Failed => in_word(Kind::WriteFailed, word),
    }
}

/// What tells a write of long numbers in words alone, where they are enough.
fn long_write_in_words(session: SessionId, id: MsgId, outcome: Outcome) -> Option<Brief>
    ensures { IfSome result (λ brief. Tells brief (events.Write session id outcome)) }
{
    let kind = match outcome {
        Outcome::Ok => Kind::LongWriteOk,
        Outcome::Failed => Kind::LongWriteFailed,
    };
    in_words(kind, [session.0, id.0, 0])
}

/// What tells an event in words alone, mostly in one, where they are enough.
#[inline(always)]
pub(crate) fn brief_of(event: &Event) -> Option<Brief>
    ensures { IfSome result (λ brief. Tells brief event.now) }
{
    match event {
        Event::Line(line) => in_word(Kind::Line, Some(*line)),
        Event::Admin(Admin::Tick { n }, Did::Ended(ended)) if ended.is_empty() => {
            in_words(Kind::Tick, [*n, 0, 0])
        }
        Event::Begin(c, begun) => {
            let word = turn(*c, begun.pass)?;
            in_words(Kind::Begin, [u64::from(word), begun.epoch.0, begun.change])
        }
        Event::Live(c, pass) => in_word(Kind::Live, turn(*c, *pass)),
        Event::Mail(c, pass, session) => in_word(Kind::Mail, read(*c, *pass, *session)),
        Event::States(c, pass, session) => in_word(Kind::States, read(*c, *pass, *session)),
        Event::Ideals(c, pass) => in_word(Kind::Ideals, turn(*c, *pass)),
        Event::Fetch {
            instance,
            session,
            count,
        } => fetch_in_word(*instance, *session, *count),
        Event::Take(session, id) => in_word(Kind::Take, job(*session, *id)),
        Event::Write(session, id, outcome) => write_in_word(*session, *id, *outcome),
        Event::Ack(session, id) => in_word(Kind::Ack, job(*session, *id)),
        Event::Admin(..) | Event::Dispatch { .. } | Event::Post { .. } => None,
    }
}

/// What tells an event of longer numbers in words alone, where they are enough.
pub(crate) fn long_brief_of(event: &Event) -> Option<Brief>
    ensures { IfSome result (λ brief. Tells brief event.now) }
{
    match event {
        Event::Mail(c, pass, session) => {
            in_words(Kind::LongMail, [u64::from(turn(*c, *pass)?), session.0, 0])
        }
        Event::States(c, pass, session) => {
            in_words(
                Kind::LongStates,
                [u64::from(turn(*c, *pass)?), session.0, 0],
            )
        }
        Event::Fetch {
            instance,
            session: Some(session),
            count,
        } => in_words(
            Kind::LongFetch,
            [u64::from(fetch(*instance, *count)?), session.0, 0],
        ),
        Event::Take(session, id) => in_words(Kind::LongTake, [session.0, id.0, 0]),
        Event::Write(session, id, outcome) => long_write_in_words(*session, *id, *outcome),
        Event::Ack(session, id) => in_words(Kind::LongAck, [session.0, id.0, 0]),
        _ => None,
    }
}

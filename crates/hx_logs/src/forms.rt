//! The forms of a log's entries: what the words behind a verb tell.
ghost use Rattle.std.specs.Prelude.{◌≡◌, ℕ, ◌≤◌, [], map, length, IfOk};
ghost use Rattle.hx_cluster.specs.declared.description.Spec.{Spec};
ghost use Rattle.hx_ids.specs.Names.{place_after};
ghost use Rattle.hx_script.specs.declared.log.LogEntry.TheVariants as logs;
ghost use Rattle.hx_script.specs.declared.log.LogVerb.TheVariants as verbs;
ghost use Rattle.hx_script.specs.Grammar.{map_ok, then_ok, one_word, model_word, mode_word};
ghost use Rattle.hx_script.specs.Logs;

use crate::numbers::{
    epoch_word, long_number, message_word, pass_word, resource_number, session_or_dash,
    session_word, short_number,
};
use crate::words::{Reading, name_and_rest, outcome_word, part_named, resource_named};
use hx_cluster::Spec;
use hx_ids::{ControllerId, Epoch, InstanceId, MsgId, PassNo, ResourceId, SessionId};
use hx_lists::Seq;
use hx_script::{
    LogEntry, LogVerb, ScriptKind, controller_alone, controller_word, five_words, instance_alone,
    instance_word, instance_words, mode_word, model_word, pair_words, place_after, three_words,
    two_words,
};
use std::alloc::Global;

/// The number of a script line.
fn line_entry(words: &[&str]) -> Result<LogEntry, ScriptKind>
    ensures { result ≡ then_ok (one_word (map (λ w. w.now) words.now)) (λ w.
        map_ok logs.Line (Logs.short_number w)) }
{
    let [number] = words else {
        return Err(ScriptKind::WordCount);
    };
    Ok(LogEntry::Line(short_number(number)?))
}

/// The ticks of a tick.
pub fn tick_number(words: &[&str]) -> Result<u64, ScriptKind>
    ensures { result ≡ then_ok (one_word (map (λ w. w.now) words.now)) Logs.long_number }
{
    let [ticks] = words else {
        return Err(ScriptKind::WordCount);
    };
    long_number(ticks)
}

/// An instance and a session.
pub fn instance_and_session(
    spec: &Spec,
    words: &[&str],
) -> Result<(InstanceId, SessionId), ScriptKind>
    ensures { result ≡ Logs.instance_and_session spec.now (map (λ w. w.now) words.now) }
{
    let (instance, session) = two_words(words)?;
    Ok((instance_word(spec, instance)?, session_word(session)?))
}

/// A controller and an epoch.
fn controller_and_epoch(spec: &Spec, words: &[&str]) -> Result<(ControllerId, Epoch), ScriptKind>
    ensures { result ≡ Logs.controller_and_epoch spec.now (map (λ w. w.now) words.now) }
{
    let (controller, epoch) = two_words(words)?;
    Ok((controller_word(spec, controller)?, epoch_word(epoch)?))
}

/// A controller and a pass.
fn controller_and_pass(spec: &Spec, words: &[&str]) -> Result<(ControllerId, PassNo), ScriptKind>
    ensures { result ≡ Logs.controller_and_pass spec.now (map (λ w. w.now) words.now) }
{
    let (controller, pass) = two_words(words)?;
    Ok((controller_word(spec, controller)?, pass_word(pass)?))
}

/// A controller, a pass and a session.
fn pass_and_session(
    spec: &Spec,
    words: &[&str],
) -> Result<(ControllerId, PassNo, SessionId), ScriptKind>
    ensures { result ≡ Logs.pass_and_session spec.now (map (λ w. w.now) words.now) }
{
    let (controller, pass, session) = three_words(words)?;
    let controller = controller_word(spec, controller)?;
    let pass = pass_word(pass)?;
    Ok((controller, pass, session_word(session)?))
}

/// A controller, an epoch and a pass.
pub fn epoch_and_pass(
    spec: &Spec,
    words: &[&str],
) -> Result<(ControllerId, Epoch, PassNo), ScriptKind>
    ensures { result ≡ Logs.epoch_and_pass spec.now (map (λ w. w.now) words.now) }
{
    let (controller, epoch, pass) = three_words(words)?;
    let controller = controller_word(spec, controller)?;
    let epoch = epoch_word(epoch)?;
    Ok((controller, epoch, pass_word(pass)?))
}

/// A session and a message.
fn session_and_message(words: &[&str]) -> Result<(SessionId, MsgId), ScriptKind>
    ensures { result ≡ Logs.session_and_message (map (λ w. w.now) words.now) }
{
    let (session, message) = two_words(words)?;
    Ok((session_word(session)?, message_word(message)?))
}

/// A new resource of a name and a number, by the other words of its line.
fn resource_added(
    spec: &Spec,
    name: &str,
    resource: ResourceId,
    model: &str,
    replicas: &str,
    parts: &str,
    mode: &str,
) -> Result<LogEntry, ScriptKind>
    requires { length spec.now.model_names ≤ 256 }
    ensures { result ≡ then_ok (model_word spec.now model.now) (λ model.
        then_ok (Logs.short_number replicas.now) (λ replicas.
        then_ok (Logs.short_number parts.now) (λ parts.
        map_ok
        (logs.Add (place_after spec.now.resource_names name.now) resource model replicas parts)
        (mode_word mode.now)))) }
{
    Ok(LogEntry::Add {
        name: place_after(&spec.resource_names, name),
        resource,
        model: model_word(spec, model)?,
        replicas: short_number(replicas)?,
        parts: short_number(parts)?,
        mode: mode_word(mode)?,
    })
}

/// A new resource.
fn add_entry(spec: &Spec, words: &[&str]) -> Result<LogEntry, ScriptKind>
    requires { length spec.now.model_names ≤ 256 }
    ensures { result ≡ Logs.add_entry spec.now (map (λ w. w.now) words.now) }
{
    let (named, model, replicas, parts, mode) = five_words(words)?;
    let (name, number) = name_and_rest(named)?;
    let resource = resource_number(number)?;
    resource_added(spec, name, resource, model, replicas, parts, mode)
}

/// A resource that is dropped.
fn drop_entry(spec: &Spec, words: &[&str]) -> Result<LogEntry, ScriptKind>
    ensures { result ≡ Logs.drop_entry spec.now (map (λ w. w.now) words.now) }
{
    let [named] = words else {
        return Err(ScriptKind::WordCount);
    };
    let (name, resource) = resource_named(spec, named)?;
    Ok(LogEntry::Drop { name, resource })
}

/// A list of a part.
fn list_entry(alloc: Global, spec: &Spec, words: &[&str]) -> Reading<LogEntry>
    ensures { IfOk result (λ r. r ≡ Logs.list_entry spec.now (map (λ w. w.now) words.now)) }
{
    let [named, rest @ ..] = words else {
        return Ok(Err(ScriptKind::WordCount));
    };
    let part = match part_named(spec, named) {
        Ok(part) => part,
        Err(kind) => return Ok(Err(kind)),
    };
    match instance_words(alloc, spec, rest)? {
        Ok(list) => Ok(Ok(LogEntry::List { part, list })),
        Err(kind) => Ok(Err(kind)),
    }
}

/// A map of a part.
fn map_entry(alloc: Global, spec: &Spec, words: &[&str]) -> Reading<LogEntry>
    requires { length spec.now.states ≤ 256 }
    ensures { IfOk result (λ r. r ≡ Logs.map_entry spec.now (map (λ w. w.now) words.now)) }
{
    let [named, rest @ ..] = words else {
        return Ok(Err(ScriptKind::WordCount));
    };
    let part = match part_named(spec, named) {
        Ok(part) => part,
        Err(kind) => return Ok(Err(kind)),
    };
    match pair_words(alloc, spec, rest)? {
        Ok(map) => Ok(Ok(LogEntry::Map { part, map })),
        Err(kind) => Ok(Err(kind)),
    }
}

/// A reset.
fn reset_entry(spec: &Spec, words: &[&str]) -> Result<LogEntry, ScriptKind>
    ensures { result ≡ Logs.reset_entry spec.now (map (λ w. w.now) words.now) }
{
    let (instance, session, named) = three_words(words)?;
    let instance = instance_word(spec, instance)?;
    let session = session_word(session)?;
    let part = part_named(spec, named)?;
    Ok(LogEntry::Reset {
        instance,
        session,
        part,
    })
}

/// A post, with the number of its rows.
fn post_entry(spec: &Spec, words: &[&str]) -> Result<LogEntry, ScriptKind>
    ensures { result ≡ Logs.post_entry spec.now (map (λ w. w.now) words.now) }
{
    let (controller, epoch, rows) = three_words(words)?;
    let c = controller_word(spec, controller)?;
    let epoch = epoch_word(epoch)?;
    let rows = short_number(rows)?;
    Ok(LogEntry::Post { c, epoch, rows })
}

/// A fetch, with the number of its messages.
fn fetch_entry(spec: &Spec, words: &[&str]) -> Result<LogEntry, ScriptKind>
    ensures { result ≡ Logs.fetch_entry spec.now (map (λ w. w.now) words.now) }
{
    let (instance, session, count) = three_words(words)?;
    let instance = instance_word(spec, instance)?;
    let session = session_or_dash(session)?;
    let count = short_number(count)?;
    Ok(LogEntry::Fetch {
        instance,
        session,
        count,
    })
}

/// A write, with its outcome.
fn write_entry(words: &[&str]) -> Result<LogEntry, ScriptKind>
    ensures { result ≡ Logs.write_entry (map (λ w. w.now) words.now) }
{
    let (session, message, outcome) = three_words(words)?;
    let session = session_word(session)?;
    let message = message_word(message)?;
    Ok(LogEntry::Write(session, message, outcome_word(outcome)?))
}

/// A begin.
fn begin_entry(spec: &Spec, words: &[&str]) -> Result<LogEntry, ScriptKind>
    ensures { result ≡ Logs.told_by spec.now verbs.Begin (map (λ w. w.now) words.now) [] }
{
    let (c, epoch, pass) = epoch_and_pass(spec, words)?;
    Ok(LogEntry::Begin { c, epoch, pass })
}

/// A dispatch of nothing.
fn empty_dispatch(alloc: Global, spec: &Spec, words: &[&str]) -> Result<LogEntry, ScriptKind>
    ensures { result ≡ Logs.told_by spec.now verbs.Send (map (λ w. w.now) words.now) [] }
{
    let (c, epoch, pass) = epoch_and_pass(spec, words)?;
    Ok(LogEntry::Dispatch {
        c,
        epoch,
        pass,
        moves: Seq::new(alloc),
    })
}

/// A tick that ended nobody.
fn quiet_tick(alloc: Global, words: &[&str]) -> Result<LogEntry, ScriptKind>
    ensures { (spec : Spec) →
        result ≡ Logs.told_by spec verbs.Tick (map (λ w. w.now) words.now) [] }
{
    let n = tick_number(words)?;
    Ok(LogEntry::Tick {
        n,
        ended: Seq::new(alloc),
    })
}

/// What the words behind a verb tell, where no indented line belongs to them.
pub fn told_alone(alloc: Global, spec: &Spec, verb: LogVerb, words: &[&str]) -> Reading<LogEntry>
    requires models { length spec.now.model_names ≤ 256 }
    requires states { length spec.now.states ≤ 256 }
    ensures { IfOk result (λ r.
        r ≡ Logs.told_by spec.now verb (map (λ w. w.now) words.now) []) }
{
    match verb {
        LogVerb::Line => Ok(line_entry(words)),
        LogVerb::Join => Ok(instance_and_session(spec, words).map(|t| LogEntry::Join(t.0, t.1))),
        LogVerb::End => Ok(instance_and_session(spec, words).map(|t| LogEntry::End(t.0, t.1))),
        LogVerb::Beat => Ok(instance_and_session(spec, words).map(|t| LogEntry::Beat(t.0, t.1))),
        LogVerb::Tick => Ok(quiet_tick(alloc, words)),
        LogVerb::Drain => Ok(instance_alone(spec, words).map(LogEntry::Drain)),
        LogVerb::Undrain => Ok(instance_alone(spec, words).map(LogEntry::Undrain)),
        LogVerb::Add => Ok(add_entry(spec, words)),
        LogVerb::Drop => Ok(drop_entry(spec, words)),
        LogVerb::List => list_entry(alloc, spec, words),
        LogVerb::Map => map_entry(alloc, spec, words),
        LogVerb::Reset => Ok(reset_entry(spec, words)),
        LogVerb::Lead => Ok(controller_and_epoch(spec, words).map(|t| LogEntry::Lead(t.0, t.1))),
        LogVerb::Stop => Ok(controller_alone(spec, words).map(LogEntry::Stop)),
        LogVerb::Start => Ok(controller_alone(spec, words).map(LogEntry::Start)),
        LogVerb::Begin => Ok(begin_entry(spec, words)),
        LogVerb::Live => Ok(controller_and_pass(spec, words).map(|t| LogEntry::Live(t.0, t.1))),
        LogVerb::Mail => {
            Ok(pass_and_session(spec, words).map(|t| LogEntry::Mail(t.0, t.1, t.2)))
        }
        LogVerb::States => {
            Ok(pass_and_session(spec, words).map(|t| LogEntry::States(t.0, t.1, t.2)))
        }
        LogVerb::Ideals => {
            Ok(controller_and_pass(spec, words).map(|t| LogEntry::Ideals(t.0, t.1)))
        }
        LogVerb::Send => Ok(empty_dispatch(alloc, spec, words)),
        LogVerb::Post => Ok(post_entry(spec, words)),
        LogVerb::Fetch => Ok(fetch_entry(spec, words)),
        LogVerb::Take => Ok(session_and_message(words).map(|t| LogEntry::Take(t.0, t.1))),
        LogVerb::Write => Ok(write_entry(words)),
        LogVerb::Ack => Ok(session_and_message(words).map(|t| LogEntry::Ack(t.0, t.1))),
    }
}

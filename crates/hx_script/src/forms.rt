//! The forms of script lines.
ghost use Rattle.std.specs.Prelude.{◌≡◌, ℕ, ◌≤◌, map, length, IfOk};
ghost use Rattle.hx_script.specs.Grammar;

use crate::faults::ScriptKind;
use crate::verbs::Verb;
use crate::words::{
    controller_word, instance_word, message_word, mode_word, model_word, name_word, number_word,
    pair_word, part_words, read_kind_word, resource_word, small_number_word, state_word,
};
use crate::{Apart, What};
use hx_cluster::Spec;
use hx_ideal::{MOST_PARTS, MOST_REPLICAS};
use hx_ids::{ControllerId, InstanceId, MsgId, StateId};
use hx_lists::Seq;
use std::alloc::{AllocError, Global};

/// Two words, and no more.
#[tactic(auto, using(crate::proofs::Shapes::words_2))]
pub fn two_words<'a>(words: &[&'a str]) -> Result<(&'a str, &'a str), ScriptKind>
    ensures { Grammar.map_ok (λ t. (t.0.now, t.1.now)) result
        ≡ Grammar.two_words (map (λ w. w.now) words.now) }
{
    match words {
        [a, b] => Ok((a, b)),
        _ => Err(ScriptKind::WordCount),
    }
}

/// Three words, and no more.
#[tactic(auto, using(crate::proofs::Shapes::words_3))]
pub fn three_words<'a>(words: &[&'a str]) -> Result<(&'a str, &'a str, &'a str), ScriptKind>
    ensures { Grammar.map_ok (λ t. (t.0.now, t.1.now, t.2.now)) result
        ≡ Grammar.three_words (map (λ w. w.now) words.now) }
{
    match words {
        [a, b, c] => Ok((a, b, c)),
        _ => Err(ScriptKind::WordCount),
    }
}

/// Five words, and no more.
#[tactic(auto, using(crate::proofs::Shapes::words_5))]
pub fn five_words<'a>(
    words: &[&'a str],
) -> Result<(&'a str, &'a str, &'a str, &'a str, &'a str), ScriptKind>
    ensures { Grammar.map_ok (λ t. (t.0.now, t.1.now, t.2.now, t.3.now, t.4.now)) result
        ≡ Grammar.five_words (map (λ w. w.now) words.now) }
{
    match words {
        [a, b, c, d, e] => Ok((a, b, c, d, e)),
        _ => Err(ScriptKind::WordCount),
    }
}

/// An instance.
#[tactic(auto, using(crate::proofs::Shapes::words_1))]
pub fn instance_alone(spec: &Spec, words: &[&str]) -> Result<InstanceId, ScriptKind>
    ensures { result ≡ Grammar.instance_alone spec.now (map (λ w. w.now) words.now) }
{
    let [instance] = words else {
        return Err(ScriptKind::WordCount);
    };
    instance_word(spec, instance)
}

/// A controller.
pub fn controller_alone(spec: &Spec, words: &[&str]) -> Result<ControllerId, ScriptKind>
    ensures { result ≡ Grammar.controller_alone spec.now (map (λ w. w.now) words.now) }
{
    let [controller] = words else {
        return Err(ScriptKind::WordCount);
    };
    controller_word(spec, controller)
}

/// An instance and a message.
fn instance_and_message(spec: &Spec, words: &[&str]) -> Result<(InstanceId, MsgId), ScriptKind>
    ensures { result ≡ Grammar.instance_and_message spec.now (map (λ w. w.now) words.now) }
{
    let (instance, message) = two_words(words)?;
    Ok((instance_word(spec, instance)?, message_word(message)?))
}

fn tick_line(words: &[&str]) -> Result<What, ScriptKind>
    ensures { result ≡ Grammar.tick_line (map (λ w. w.now) words.now) }
{
    let [ticks] = words else {
        return Err(ScriptKind::WordCount);
    };
    Ok(What::Tick(number_word(0, u64::MAX, ticks)?))
}

fn add_line(spec: &Spec, words: &[&str]) -> Result<What, ScriptKind>
    requires { length spec.now.model_names ≤ 256 }
    ensures { result ≡ Grammar.add_line spec.now (map (λ w. w.now) words.now) }
{
    let (name, model, replicas, parts, mode) = five_words(words)?;
    Ok(What::Add {
        name: name_word(spec, name)?,
        model: model_word(spec, model)?,
        replicas: small_number_word(1, MOST_REPLICAS, replicas)?,
        parts: small_number_word(1, MOST_PARTS, parts)?,
        mode: mode_word(mode)?,
    })
}

#[tactic(auto, using(crate::proofs::Shapes::words_1))]
fn drop_line(spec: &Spec, words: &[&str]) -> Result<What, ScriptKind>
    ensures { result ≡ Grammar.drop_line spec.now (map (λ w. w.now) words.now) }
{
    let [name] = words else {
        return Err(ScriptKind::WordCount);
    };
    Ok(What::Drop(resource_word(spec, name)?))
}

fn reset_line(spec: &Spec, words: &[&str]) -> Result<What, ScriptKind>
    ensures { result ≡ Grammar.reset_line spec.now (map (λ w. w.now) words.now) }
{
    let (instance, name, part) = three_words(words)?;
    let instance = instance_word(spec, instance)?;
    let (name, part) = part_words(spec, name, part)?;
    Ok(What::Reset {
        instance,
        name,
        part,
    })
}

fn read_line(spec: &Spec, words: &[&str]) -> Result<What, ScriptKind>
    ensures { result ≡ Grammar.read_line spec.now (map (λ w. w.now) words.now) }
{
    let (controller, kind) = two_words(words)?;
    let controller = controller_word(spec, controller)?;
    Ok(What::Read(controller, read_kind_word(kind)?))
}

fn route_line(spec: &Spec, words: &[&str]) -> Result<What, ScriptKind>
    requires { length spec.now.states ≤ 256 }
    ensures { result ≡ Grammar.route_line spec.now (map (λ w. w.now) words.now) }
{
    let (name, part, state) = three_words(words)?;
    let (name, part) = part_words(spec, name, part)?;
    let state = state_word(spec, state)?;
    Ok(What::Route { name, part, state })
}

fn bare_line(what: What, words: &[&str]) -> Result<What, ScriptKind>
    ensures { result ≡ Grammar.bare_line what (map (λ w. w.now) words.now) }
{
    match words {
        [] => Ok(what),
        _ => Err(ScriptKind::WordCount),
    }
}

/// The instances that words name.
pub fn instance_words(
    alloc: Global,
    spec: &Spec,
    words: &[&str],
) -> Result<Result<Seq<InstanceId>, ScriptKind>, AllocError>
    ensures { IfOk result (λ r.
        r ≡ Grammar.all_words (Grammar.instance_word spec.now) (map (λ w. w.now) words.now)) }
{
    let mut list = Seq::new(alloc);
    for word in words {
        match instance_word(spec, word) {
            Ok(instance) => list.push(instance)?,
            Err(kind) => return Ok(Err(kind)),
        }
    }
    Ok(Ok(list))
}

/// The instances with their states that words name.
pub fn pair_words(
    alloc: Global,
    spec: &Spec,
    words: &[&str],
) -> Result<Result<Seq<(InstanceId, StateId)>, ScriptKind>, AllocError>
    requires { length spec.now.states ≤ 256 }
    ensures { IfOk result (λ r.
        r ≡ Grammar.all_words (Grammar.pair_word spec.now) (map (λ w. w.now) words.now)) }
{
    let mut map = Seq::new(alloc);
    for word in words {
        match pair_word(spec, word) {
            Ok(pair) => map.push(pair)?,
            Err(kind) => return Ok(Err(kind)),
        }
    }
    Ok(Ok(map))
}

fn list_line(
    alloc: Global,
    spec: &Spec,
    words: &[&str],
) -> Result<Result<What, ScriptKind>, AllocError>
    ensures { IfOk result (λ r. r ≡ Grammar.list_line spec.now (map (λ w. w.now) words.now)) }
{
    let [name, part, rest @ ..] = words else {
        return Ok(Err(ScriptKind::WordCount));
    };
    let (name, part) = match part_words(spec, name, part) {
        Ok(found) => found,
        Err(kind) => return Ok(Err(kind)),
    };
    match instance_words(alloc, spec, rest)? {
        Ok(list) => {
            let list = Apart::new(alloc, list)?;
            Ok(Ok(What::List { name, part, list }))
        }
        Err(kind) => Ok(Err(kind)),
    }
}

fn map_line(
    alloc: Global,
    spec: &Spec,
    words: &[&str],
) -> Result<Result<What, ScriptKind>, AllocError>
    requires { length spec.now.states ≤ 256 }
    ensures { IfOk result (λ r. r ≡ Grammar.map_line spec.now (map (λ w. w.now) words.now)) }
{
    let [name, part, rest @ ..] = words else {
        return Ok(Err(ScriptKind::WordCount));
    };
    let (name, part) = match part_words(spec, name, part) {
        Ok(found) => found,
        Err(kind) => return Ok(Err(kind)),
    };
    match pair_words(alloc, spec, rest)? {
        Ok(map) => {
            let map = Apart::new(alloc, map)?;
            Ok(Ok(What::Map { name, part, map }))
        }
        Err(kind) => Ok(Err(kind)),
    }
}

/// What the words behind a verb ask for.
pub fn what_of(
    alloc: Global,
    spec: &Spec,
    verb: Verb,
    words: &[&str],
) -> Result<Result<What, ScriptKind>, AllocError>
    requires models { length spec.now.model_names ≤ 256 }
    requires states { length spec.now.states ≤ 256 }
    ensures { IfOk result (λ r. r ≡ Grammar.what_of spec.now verb (map (λ w. w.now) words.now)) }
{
    match verb {
        Verb::Join => Ok(instance_alone(spec, words).map(What::Join)),
        Verb::Beat => Ok(instance_alone(spec, words).map(What::Beat)),
        Verb::Drain => Ok(instance_alone(spec, words).map(What::Drain)),
        Verb::Undrain => Ok(instance_alone(spec, words).map(What::Undrain)),
        Verb::Tick => Ok(tick_line(words)),
        Verb::Expire => Ok(instance_alone(spec, words).map(What::Expire)),
        Verb::Die => Ok(instance_alone(spec, words).map(What::Die)),
        Verb::Add => Ok(add_line(spec, words)),
        Verb::Drop => Ok(drop_line(spec, words)),
        Verb::List => list_line(alloc, spec, words),
        Verb::Map => map_line(alloc, spec, words),
        Verb::Reset => Ok(reset_line(spec, words)),
        Verb::Lead => Ok(controller_alone(spec, words).map(What::Lead)),
        Verb::Stop => Ok(controller_alone(spec, words).map(What::Stop)),
        Verb::Start => Ok(controller_alone(spec, words).map(What::Start)),
        Verb::Begin => Ok(controller_alone(spec, words).map(What::Begin)),
        Verb::Read => Ok(read_line(spec, words)),
        Verb::Send => Ok(controller_alone(spec, words).map(What::Send)),
        Verb::Post => Ok(controller_alone(spec, words).map(What::Post)),
        Verb::Pass => Ok(controller_alone(spec, words).map(What::Pass)),
        Verb::Fetch => Ok(instance_alone(spec, words).map(What::Fetch)),
        Verb::Deliver => Ok(instance_and_message(spec, words).map(|e| What::Deliver(e.0, e.1))),
        Verb::Take => Ok(instance_and_message(spec, words).map(|e| What::Take(e.0, e.1))),
        Verb::Write => Ok(instance_and_message(spec, words).map(|e| What::Write(e.0, e.1))),
        Verb::Ack => Ok(instance_and_message(spec, words).map(|e| What::Ack(e.0, e.1))),
        Verb::Work => Ok(instance_alone(spec, words).map(What::Work)),
        Verb::Settle => Ok(bare_line(What::Settle, words)),
        Verb::View => Ok(bare_line(What::View, words)),
        Verb::Route => Ok(route_line(spec, words)),
        Verb::Summary => Ok(bare_line(What::Summary, words)),
    }
}

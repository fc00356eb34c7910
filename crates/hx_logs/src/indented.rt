//! Indented lines: the sessions that a tick ended, and what became of a dispatch's proposals.
ghost use Rattle.std.specs.Prelude.{◌≡◌, ℕ, ◌≤◌, List, Result, [], ◌∷◌, map, length, IfOk};
ghost use Rattle.hx_script.specs.declared.faults.ScriptKind.{ScriptKind};
ghost use Rattle.hx_script.specs.Grammar.{all_words};
ghost use Rattle.hx_script.specs.Logs;

use crate::forms::instance_and_session;
use crate::numbers::{message_word, session_word, short_number};
use crate::words::{Reading, cut_words, move_word, part_named, state_or_dash};
use hx_cluster::{Placed, Spec};
use hx_ids::{InstanceId, SessionId};
use hx_lists::Seq;
use hx_script::{LogMove, ScriptKind};
use std::alloc::Global;

/// A session that a tick ended, with its instance.
fn ended_words(spec: &Spec, words: &[&str]) -> Result<(InstanceId, SessionId), ScriptKind>
    ensures { result ≡ Logs.ended_words spec.now (map (λ w. w.now) words.now) }
{
    let [first, rest @ ..] = words else {
        return Err(ScriptKind::WordCount);
    };
    if *first != "end" {
        return Err(ScriptKind::UnknownWord);
    }
    instance_and_session(spec, rest)
}

/// An answer of one word.
fn bare_answer(word: &str) -> Result<Placed, ScriptKind>
    ensures { result ≡ Logs.bare_answer word.now }
{
    match word {
        "ended" => Ok(Placed::Ended),
        "dropped" => Ok(Placed::ResourceDropped),
        "illegal" => Ok(Placed::Illegal),
        _ => Err(ScriptKind::UnknownWord),
    }
}

/// An answer with a message or a state.
fn answer_with(spec: &Spec, word: &str, of: &str) -> Result<Placed, ScriptKind>
    requires { length spec.now.states ≤ 256 }
    ensures { result ≡ Logs.answer_with spec.now word.now of.now }
{
    if word == "sent" {
        Ok(Placed::Sent(message_word(of)?))
    } else if word == "busy" {
        Ok(Placed::Busy {
            id: message_word(of)?,
        })
    } else if word == "from" {
        Ok(Placed::WrongFrom {
            has: state_or_dash(spec, of)?,
        })
    } else {
        Err(ScriptKind::UnknownWord)
    }
}

/// The answer that a bound is reached.
fn bound_answer(word: &str, count: &str, of: &str, bound: &str) -> Result<Placed, ScriptKind>
    ensures { result ≡ Logs.bound_answer word.now count.now of.now bound.now }
{
    if word != "bound" || of != "of" {
        return Err(ScriptKind::UnknownWord);
    }
    Ok(Placed::OverBound {
        count: short_number(count)?,
        bound: short_number(bound)?,
    })
}

/// The answer that a throttle is full.
fn throttle_answer(
    word: &str,
    rule: &str,
    load: &str,
    of: &str,
    limit: &str,
) -> Result<Placed, ScriptKind>
    ensures { result ≡ Logs.throttle_answer word.now rule.now load.now of.now limit.now }
{
    if word != "throttle" || of != "of" {
        return Err(ScriptKind::UnknownWord);
    }
    Ok(Placed::OverThrottle {
        rule: short_number(rule)?,
        load: short_number(load)?,
        limit: short_number(limit)?,
    })
}

/// A proposal with its answer, where that is one.
fn then_move(
    spec: &Spec,
    answer: Result<Placed, ScriptKind>,
    session: &str,
    part: &str,
    states: &str,
) -> Result<LogMove, ScriptKind>
    requires { length spec.now.states ≤ 256 }
    ensures { result
        ≡ Logs.then_move spec.now (session.now ∷ part.now ∷ states.now ∷ []) answer }
{
    let answer = answer?;
    let session = session_word(session)?;
    let part = part_named(spec, part)?;
    let (from, to) = move_word(spec, states)?;
    Ok(LogMove {
        session,
        part,
        from,
        to,
        answer,
    })
}

/// What became of a proposal, by the words of its line.
fn move_words(spec: &Spec, words: &[&str]) -> Result<LogMove, ScriptKind>
    requires { length spec.now.states ≤ 256 }
    ensures { result ≡ Logs.move_words spec.now (map (λ w. w.now) words.now) }
{
    match words {
        [word, session, part, states] => {
            then_move(spec, bare_answer(word), session, part, states)
        }
        [word, of, session, part, states] => {
            let answer = answer_with(spec, word, of);
            then_move(spec, answer, session, part, states)
        }
        [word, count, of, bound, session, part, states] => {
            let answer = bound_answer(word, count, of, bound);
            then_move(spec, answer, session, part, states)
        }
        [word, rule, load, of, limit, session, part, states] => {
            let answer = throttle_answer(word, rule, load, of, limit);
            then_move(spec, answer, session, part, states)
        }
        _ => Err(ScriptKind::WordCount),
    }
}

/// What the words of an indented line tell.
trait LineForm {
    type Told: Drop;

    ghost found: { Self → List (List ℕ) → Result Self.Told ScriptKind };

    fn read(&self, words: &[&str]) -> Result<Self::Told, ScriptKind>
        ensures { result ≡ found self.now (map (λ w. w.now) words.now) };
}

/// A session that a tick ended.
#[derive(Clone, Copy)]
struct EndedForm<'a> {
    spec: &'a Spec,
}

impl LineForm for EndedForm<'_> {
    type Told = (InstanceId, SessionId);

    ghost found = { λ form words. Logs.ended_words form.spec.now words };

    fn read(&self, words: &[&str]) -> Result<(InstanceId, SessionId), ScriptKind> {
        ended_words(self.spec, words)
    }
}

/// What became of a proposal.
#[derive(Clone, Copy)]
struct MoveForm<'a> {
    spec: &'a Spec,
    ghost few: { length spec.now.states ≤ 256 },
}

impl LineForm for MoveForm<'_> {
    type Told = LogMove;

    ghost found = { λ form words. Logs.move_words form.spec.now words };

    fn read(&self, words: &[&str]) -> Result<LogMove, ScriptKind> {
        move_words(self.spec, words)
    }
}

/// What indented lines tell, each cut into its words.
fn read_lines<F: LineForm>(alloc: Global, form: &F, lines: &[&str]) -> Reading<Seq<F::Told>>
    ensures { IfOk result (λ r.
        r ≡ all_words (λ l. F.found form.now (Logs.exact_words l)) (map (λ l. l.now) lines.now)) }
{
    let mut all = Seq::new(alloc);
    let mut words = Vec::new(alloc);
    for line in lines {
        cut_words(line, &mut words)?;
        let told = match form.read(words.as_slice()) {
            Ok(told) => told,
            Err(kind) => return Ok(Err(kind)),
        };
        all.push(told)?;
    }
    Ok(Ok(all))
}

/// The sessions that a tick ended.
pub fn ended_sessions(
    alloc: Global,
    spec: &Spec,
    lines: &[&str],
) -> Reading<Seq<(InstanceId, SessionId)>>
    ensures { IfOk result (λ r.
        r ≡ all_words (λ l. Logs.ended_words spec.now (Logs.exact_words l))
        (map (λ l. l.now) lines.now)) }
{
    read_lines(alloc, &EndedForm { spec }, lines)
}

/// What became of a dispatch's proposals.
pub fn moves(alloc: Global, spec: &Spec, lines: &[&str]) -> Reading<Seq<LogMove>>
    requires { length spec.now.states ≤ 256 }
    ensures { IfOk result (λ r.
        r ≡ all_words (λ l. Logs.move_words spec.now (Logs.exact_words l))
        (map (λ l. l.now) lines.now)) }
{
    read_lines(alloc, &MoveForm { spec }, lines)
}

//! Entries: what a line tells, with the indented lines that belong to it.
ghost use Rattle.std.specs.Prelude.{◌≡◌, ℕ, ◌≤◌, map, length, IfOk};
ghost use Rattle.hx_script.specs.Logs;

use crate::forms::{epoch_and_pass, tick_number, told_alone};
use crate::indented::{ended_sessions, moves};
use crate::verbs::verb_of;
use crate::words::Reading;
use hx_cluster::Spec;
use hx_script::{LogEntry, LogVerb, ScriptKind};
use std::alloc::Global;

/// A tick, with the sessions that it ended.
fn tick_entry(alloc: Global, spec: &Spec, words: &[&str], indented: &[&str]) -> Reading<LogEntry>
    ensures { IfOk result (λ r. r ≡ Logs.tick_entry spec.now
        (map (λ w. w.now) words.now) (map (λ l. l.now) indented.now)) }
{
    let n = match tick_number(words) {
        Ok(n) => n,
        Err(kind) => return Ok(Err(kind)),
    };
    match ended_sessions(alloc, spec, indented)? {
        Ok(ended) => Ok(Ok(LogEntry::Tick { n, ended })),
        Err(kind) => Ok(Err(kind)),
    }
}

/// A dispatch, with what became of its proposals.
fn dispatch_entry(
    alloc: Global,
    spec: &Spec,
    words: &[&str],
    indented: &[&str],
) -> Reading<LogEntry>
    requires { length spec.now.states ≤ 256 }
    ensures { IfOk result (λ r. r ≡ Logs.dispatch_entry spec.now
        (map (λ w. w.now) words.now) (map (λ l. l.now) indented.now)) }
{
    let (c, epoch, pass) = match epoch_and_pass(spec, words) {
        Ok(numbers) => numbers,
        Err(kind) => return Ok(Err(kind)),
    };
    match moves(alloc, spec, indented)? {
        Ok(moves) => Ok(Ok(LogEntry::Dispatch {
            c,
            epoch,
            pass,
            moves,
        })),
        Err(kind) => Ok(Err(kind)),
    }
}

/// What the words behind a verb tell, with the indented lines.
fn told_by(
    alloc: Global,
    spec: &Spec,
    verb: LogVerb,
    words: &[&str],
    indented: &[&str],
) -> Reading<LogEntry>
    requires models { length spec.now.model_names ≤ 256 }
    requires states { length spec.now.states ≤ 256 }
    ensures { IfOk result (λ r. r ≡ Logs.told_by spec.now verb
        (map (λ w. w.now) words.now) (map (λ l. l.now) indented.now)) }
{
    if indented.is_empty() {
        return told_alone(alloc, spec, verb, words);
    }
    match verb {
        LogVerb::Tick => tick_entry(alloc, spec, words, indented),
        LogVerb::Send => dispatch_entry(alloc, spec, words, indented),
        _ => Ok(Err(ScriptKind::UnknownWord)),
    }
}

/// What the words of a line tell, with the indented lines.
pub fn told_words(
    alloc: Global,
    spec: &Spec,
    words: &[&str],
    indented: &[&str],
) -> Reading<LogEntry>
    requires models { length spec.now.model_names ≤ 256 }
    requires states { length spec.now.states ≤ 256 }
    ensures { IfOk result (λ r. r ≡ Logs.told_words spec.now
        (map (λ w. w.now) words.now) (map (λ l. l.now) indented.now)) }
{
    let [first, rest @ ..] = words else {
        return Ok(Err(ScriptKind::WordCount));
    };
    match verb_of(first) {
        Ok(verb) => told_by(alloc, spec, verb, rest, indented),
        Err(kind) => Ok(Err(kind)),
    }
}

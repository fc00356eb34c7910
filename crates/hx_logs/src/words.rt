//! The other words of a log, each by what stands there.
ghost use Rattle.std.specs.Prelude.{◌≡◌, ℕ, ◌==◌, ◌≤◌, ◌<◌, map, length, OnOk, IfOk};
ghost use Rattle.std.specs.List.{before_first, after_first};
ghost use Rattle.hx_script.specs.Grammar;
ghost use Rattle.hx_script.specs.Grammar.{map_ok};
ghost use Rattle.hx_script.specs.Logs;

use crate::numbers::{resource_number, short_number};
use hx_cluster::{Outcome, Spec};
use hx_ids::{ResourceId, StateId};
use hx_script::{LogPart, ScriptKind, state_word};
use hx_text::is_name;
use std::alloc::AllocError;

/// What words tell, or what is wrong with them; and want of memory.
pub type Reading<T> = Result<Result<T, ScriptKind>, AllocError>;

/// Puts the words of a line, cut at each space, into a list in place of what it holds.
pub fn cut_words<'a>(line: &'a str, words: &mut Vec<&'a str>) -> Result<(), AllocError>
    ensures { OnOk result (map (λ w. w.now) words.new.items ≡ Logs.exact_words line.now) }
{
    words.clear();
    for word in line.split(' ') {
        words.push(word)?;
    }
    Ok(())
}

/// What stands before a sign and behind it; without the sign, the word and nothing.
pub fn cut_at(sign: char, word: &str) -> (&str, &str)
    requires { sign < 128 }
    ensures before { result.0.now ≡ before_first (λ b. b == sign) word.now }
    ensures after { result.1.now ≡ after_first (λ b. b == sign) word.now }
{
    match word.split_once(sign) {
        Some(halves) => halves,
        None => (word, &word[word.len()..]),
    }
}

/// A name with what stands behind it and `#`.
pub fn name_and_rest(word: &str) -> Result<(&str, &str), ScriptKind>
    ensures name { map_ok (λ t. t.0.now) result ≡ Logs.name_before word.now }
    ensures rest { IfOk result (λ t. t.1.now ≡ after_first Logs.is_hash word.now) }
{
    let (name, rest) = cut_at('#', word);
    if !is_name(name) {
        return Err(ScriptKind::BadName);
    }
    Ok((name, rest))
}

/// A resource: the place of its name, if it has one, and its number.
pub fn resource_named(spec: &Spec, word: &str) -> Result<(Option<u32>, ResourceId), ScriptKind>
    ensures { result ≡ Logs.resource_named spec.now word.now }
{
    let (name, number) = name_and_rest(word)?;
    let resource = resource_number(number)?;
    Ok((spec.resource_names.find(name), resource))
}

/// The numbers of a part: its resource's and its own.
fn part_numbers(word: &str) -> Result<(ResourceId, u32), ScriptKind>
    ensures { result ≡ Logs.part_numbers word.now }
{
    let (resource, index) = cut_at('/', word);
    Ok((resource_number(resource)?, short_number(index)?))
}

/// A part.
pub fn part_named(spec: &Spec, word: &str) -> Result<LogPart, ScriptKind>
    ensures { result ≡ Logs.part_named spec.now word.now }
{
    let (name, numbers) = name_and_rest(word)?;
    let (resource, index) = part_numbers(numbers)?;
    Ok(LogPart {
        name: spec.resource_names.find(name),
        resource,
        index,
    })
}

/// A transition.
pub fn move_word(spec: &Spec, word: &str) -> Result<(StateId, StateId), ScriptKind>
    requires { length spec.now.states ≤ 256 }
    ensures { result ≡ Logs.move_word spec.now word.now }
{
    let (from, to) = cut_at('>', word);
    Ok((state_word(spec, from)?, state_word(spec, to)?))
}

/// A state, or `-` for none.
pub fn state_or_dash(spec: &Spec, word: &str) -> Result<Option<StateId>, ScriptKind>
    requires { length spec.now.states ≤ 256 }
    ensures { result ≡ Logs.unless_dash (Grammar.state_word spec.now) word.now }
{
    if word == "-" {
        return Ok(None);
    }
    Ok(Some(state_word(spec, word)?))
}

/// How a run ended.
pub fn outcome_word(word: &str) -> Result<Outcome, ScriptKind>
    ensures { result ≡ Logs.outcome_word word.now }
{
    match word {
        "ok" => Ok(Outcome::Ok),
        "failed" => Ok(Outcome::Failed),
        _ => Err(ScriptKind::BadKind),
    }
}

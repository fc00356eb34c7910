//! Scripts, read line by line.
ghost use Rattle.std.specs.Prelude.{◌≡◌, ◌⊎◌, ℕ, ◌-◌, ◌^◌, ◌<◌, ◌≤◌, ◌++◌, map, length};
ghost use Rattle.std.specs.Prelude.{IfOk, OnErr, IfErr, Ok, Err, true};
ghost use Rattle.std.specs.List.{list_all};
ghost use Rattle.hx_text.specs.Lines.{words_of};
ghost use Rattle.hx_script.specs.Grammar;
ghost use Rattle.hx_script.specs.Parsing.{IsReadable, KeepsAllButNames, Leaves};
ghost use Rattle.hx_script.specs.Ranges.{is_line_in_range};

use crate::faults::{ScriptFault, ScriptKind, ScriptRefusal};
use crate::forms::what_of;
use crate::verbs::Verb;
use crate::{Line, What};
use hx_cluster::Spec;
use hx_text::{Lines, split_words};
use std::alloc::{AllocError, Global};

/// Whether the first word of a line makes it a comment.
fn is_comment(word: &str) -> bool
    ensures { result ≡ Grammar.is_comment word.now }
{
    match word.as_bytes() {
        [first, ..] => *first == b'#',
        [] => false,
    }
}

/// Whether a line adds a resource.
fn is_add(what: &Option<What>) -> bool
    ensures { result ≡ Grammar.is_add what.now }
{
    matches!(what, Some(What::Add { .. }))
}

/// What the words of a line ask for.
fn asked_by_words(
    alloc: Global,
    spec: &Spec,
    words: &[&str],
) -> Result<Result<Option<What>, ScriptKind>, AllocError>
    requires models { length spec.now.model_names ≤ 256 }
    requires states { length spec.now.states ≤ 256 }
    ensures { IfOk result (λ r. r ≡ Grammar.asked_by_words spec.now (map (λ w. w.now) words.now)) }
{
    let [first, rest @ ..] = words else {
        return Ok(Ok(None));
    };
    if is_comment(first) {
        return Ok(Ok(None));
    }
    match Verb::of(first) {
        Ok(verb) => match what_of(alloc, spec, verb, rest)? {
            Ok(what) => Ok(Ok(Some(what))),
            Err(kind) => Ok(Err(kind)),
        },
        Err(kind) => Ok(Err(kind)),
    }
}

/// Brings in the name of an added resource, which is the second word of its line.
fn add_name(spec: &mut Spec, words: &[&str]) -> Result<(), AllocError>
    requires { length spec.old.resource_names < 2 ^ 32 - 1 }
    ensures ok { IfOk result (λ _.
        spec.new ≡ Grammar.with_name spec.old (map (λ w. w.now) words.now)) }
    ensures err { OnErr result (spec.new ≡ spec.old) }
{
    if let [_, name, ..] = words {
        spec.resource_names.intern(name)?;
    }
    Ok(())
}

/// What a line asks for. The name that an `add` line brings is added. The list is room for its
/// words.
fn asked_by<'a>(
    alloc: Global,
    spec: &mut Spec,
    line: &'a str,
    words: &mut Vec<&'a str>,
) -> Result<Result<Option<What>, ScriptKind>, AllocError>
    requires models { length spec.old.model_names ≤ 256 }
    requires states { length spec.old.states ≤ 256 }
    requires names { length spec.old.resource_names < 2 ^ 32 - 1 }
    ensures ok { IfOk result (λ r.
        (r ≡ Grammar.asked_by spec.old line.now) ×
        (spec.new ≡ Grammar.spec_after spec.old line.now)) }
    ensures err { OnErr result (spec.new ≡ spec.old) }
{
    split_words(line, words)?;
    let asked = asked_by_words(alloc, spec, words)?;
    if let Ok(what) = &asked
        && is_add(what)
    {
        add_name(spec, words)?;
    }
    Ok(asked)
}

/// Adds what a line asks for, unless it is a comment.
fn add_line(script: &mut Vec<Line>, number: u32, what: Option<What>) -> Result<(), AllocError>
    ensures { IfOk result (λ _.
        script.new.items ≡ script.old.items ++ Grammar.line_asked number what) }
{
    match what {
        Some(what) => {
            script.push(Line { number, what })?;
            Ok(())
        }
        None => Ok(()),
    }
}

/// The lines of a script that ask for something, each with its number. The names that `add` lines
/// bring are added to the resource names; nothing else of the description changes.
///
/// A fault is the first of the script. It leaves the description with the names of the lines before
/// it, and want of memory with those of the first lines, some or all.
pub fn parse(alloc: Global, lines: &Lines, spec: &mut Spec) -> Result<Vec<Line>, ScriptRefusal>
    requires { IsReadable spec.old lines.now }
    ensures ok { IfOk result (λ script.
        Grammar.script_of lines.now spec.old ≡ Ok (script.items, spec.new)) }
    ensures err { IfErr result (λ e. (e ≡ ScriptRefusal.OutOfMemory) ⊎
        ((fault : ScriptFault) × (e ≡ ScriptRefusal.Fault fault) ×
        (Grammar.script_of lines.now spec.old ≡ Err fault))) }
    ensures leaves { IfErr result (λ refusal. Leaves lines.now refusal spec.old spec.new) }
    ensures kept { KeepsAllButNames spec.old spec.new }

    // The lines name what the description has by then, and their numbers are those of the grammar.
    ensures in_range { IfOk result (λ script.
        list_all (is_line_in_range spec.new) script.items ≡ true) }
{
    let mut script = Vec::new(alloc);
    let mut words = Vec::new(alloc);
    for place in 0..lines.len() {
        match asked_by(alloc, spec, lines.get(place), &mut words)? {
            Ok(what) => add_line(&mut script, place + 1, what)?,
            Err(kind) => {
                return Err(ScriptRefusal::Fault(ScriptFault {
                    line: place + 1,
                    kind,
                }));
            }
        }
    }
    Ok(script)
}

//! Logs, read from line to line.
ghost use Rattle.std.specs.Prelude.{◌≡◌, ℕ, ◌+◌, ◌-◌, ◌^◌, ◌<◌, ◌≤◌, map, drop, length};
ghost use Rattle.std.specs.Prelude.{Some, slice_get, IfOk, OnOk, OnErr};
ghost use Rattle.hx_script.specs.declared.log.Sort.TheVariants as sorts;
ghost use Rattle.hx_script.specs.Logs;
ghost use Rattle.hx_script.specs.Parsing.{IsReadable, KeepsAllButNames};
ghost use Rattle.hx_logs.specs.Walk.{indented_before, line_at};

use crate::entries::told_words;
use crate::words::{cut_at, cut_words};
use hx_cluster::Spec;
use hx_script::{LogEntry, LogLine, Sort};
use hx_text::Lines;
use std::alloc::{AllocError, Global};

/// What a line of a log is.
pub fn sort_of(line: &str) -> Sort
    ensures { result ≡ Logs.sort_of line.now }
{
    match line.as_bytes() {
        [] | [b'!' | b'?' | b'=', ..] => Sort::PassedOver,
        [b' ', b' ', ..] => Sort::Indented,
        _ => Sort::Head,
    }
}

/// What stands behind the two spaces of an indented line.
fn behind_spaces(line: &str) -> &str
    requires { Logs.sort_of line.now ≡ sorts.Indented }
    ensures { result.now ≡ drop 2 line.now }
{
    &line[2..]
}

/// Room for the words of a line and the indented lines behind it.
#[derive(Drop)]
pub struct EntryWords<'a> {
    words: Vec<&'a str>,
    indented: Vec<&'a str>,
}

impl<'a> EntryWords<'a> {
    /// Room that grows as it is needed.
    pub fn new(alloc: Global) -> EntryWords<'a> {
        EntryWords {
            words: Vec::new(alloc),
            indented: Vec::new(alloc),
        }
    }
}

/// Puts the indented lines between an entry's own line and the next entry into a list in place of
/// what it holds.
fn gather_indented<'a>(
    lines: &'a Lines,
    head: u32,
    indented: &mut Vec<&'a str>,
) -> Result<(), AllocError>
    requires { head < length lines.now }
    ensures { OnOk result
        (map (λ l. l.now) indented.new.items ≡ indented_before (drop (head + 1) lines.now)) }
{
    indented.clear();
    let end = lines.len();
    for place in head + 1..end {
        let line = lines.get(place);
        match sort_of(line) {
            Sort::PassedOver => {}
            Sort::Indented => indented.push(behind_spaces(line))?,
            Sort::Head => return Ok(()),
        }
    }
    Ok(())
}

/// Brings in the name of an added resource, which is in the second word of its line.
fn add_name(spec: &mut Spec, words: &[&str], entry: &Option<LogEntry>) -> Result<(), AllocError>
    requires { length spec.old.resource_names < 2 ^ 32 - 1 }
    ensures ok { OnOk result
        (spec.new ≡ Logs.with_added spec.old (map (λ w. w.now) words.now) entry.now) }
    ensures err { OnErr result (spec.new ≡ spec.old) }
{
    if let Some(LogEntry::Add { .. }) = entry {
        let named = second_word(words);
        let (name, _) = cut_at('#', named);
        spec.resource_names.intern(name)?;
    }
    Ok(())
}

/// The second of some words, or the empty word.
fn second_word<'a>(words: &[&'a str]) -> &'a str
    ensures { result.now ≡ Logs.second_word (map (λ w. w.now) words.now) }
{
    match words {
        [_, second, ..] => second,
        _ => "",
    }
}

/// What the line at a place and the indented lines behind it tell. The name that an `add` entry
/// brings is added.
pub fn read_entry<'a>(
    alloc: Global,
    lines: &'a Lines,
    place: u32,
    spec: &mut Spec,
    room: &mut EntryWords<'a>,
) -> Result<Option<LogEntry>, AllocError>
    requires place { place < length lines.now }
    requires models { length spec.old.model_names ≤ 256 }
    requires states { length spec.old.states ≤ 256 }
    requires names { length spec.old.resource_names < 2 ^ 32 - 1 }
    ensures ok { IfOk result (λ entry. (entry ≡ Logs.entry_told spec.old (line_at lines.now place)
        (indented_before (drop (place + 1) lines.now))) ×
        (spec.new ≡ Logs.with_added spec.old (Logs.exact_words (line_at lines.now place)) entry)) }
    ensures err { OnErr result (spec.new ≡ spec.old) }
{
    cut_words(lines.get(place), &mut room.words)?;
    gather_indented(lines, place, &mut room.indented)?;
    let words = room.words.as_slice();
    let entry = told_words(alloc, spec, words, room.indented.as_slice())?.ok();
    add_name(spec, words, &entry)?;
    Ok(entry)
}

/// What the lines of a log are read as: one for each line that is neither passed over nor belongs
/// to the entry before it. Such a line that is no line of a log, with the indented lines given to
/// it, has no entry. The names that `add` entries bring are added to the resource names; nothing
/// else of the description changes.
pub fn read_log(alloc: Global, lines: &Lines, spec: &mut Spec) -> Result<Vec<LogLine>, AllocError>
    requires { IsReadable spec.old lines.now }
    ensures ok { IfOk result (λ log.
        (log.items, spec.new) ≡ Logs.log_of spec.old lines.now) }
    ensures kept { KeepsAllButNames spec.old spec.new }
{
    let mut log = Vec::new(alloc);
    let mut room = EntryWords::new(alloc);
    let mut begun = false;
    for place in 0..lines.len() {
        match sort_of(lines.get(place)) {
            Sort::PassedOver => {}
            Sort::Indented => {
                if !begun {
                    log.push(LogLine {
                        line: place + 1,
                        entry: None,
                    })?;
                }
            }
            Sort::Head => {
                begun = true;
                let entry = read_entry(alloc, lines, place, spec, &mut room)?;
                log.push(LogLine {
                    line: place + 1,
                    entry,
                })?;
            }
        }
    }
    Ok(log)
}

//! The verdict on a log.
ghost use Rattle.std.specs.Prelude.{◌≡◌, ◌+◌, ◌-◌, ◌^◌, ◌<◌, ◌≤◌, length, drop, IfOk, OnOk};
ghost use Rattle.hx_cluster.specs.Valid.{IsValid};
ghost use Rattle.hx_script.specs.Logs.{log_of};
ghost use Rattle.hx_script.specs.Parsing.{IsReadable, KeepsAllButNames};
ghost use Rattle.hx_check.specs.Judge.{judged_entry, judged_from, verdict_of};
ghost use Rattle.hx_check.specs.Judging.{IsJudgedAs};
ghost use Rattle.hx_check.specs.Streams.{may_add, names_left, entry_at, named_at};
ghost use Rattle.hx_check.specs.Streams.{IsReadableFrom};

use crate::judge::Judge;
use crate::{Cause, Verdict};
use hx_cluster::Spec;
use hx_logs::{EntryWords, read_entry, sort_of};
use hx_script::Sort;
use hx_text::Lines;
use std::alloc::{AllocError, Global};

/// Whether a line begins as an `add` entry does.
fn may_add(line: &str) -> bool
    ensures { result ≡ may_add line.now }
{
    matches!(line.as_bytes(), [b'a', b'd', b'd', ..])
}

/// Adds the name that a line brings, if it is an `add` entry.
fn add_name<'a>(
    alloc: Global,
    spec: &mut Spec,
    lines: &'a Lines,
    place: u32,
    room: &mut EntryWords<'a>,
) -> Result<(), AllocError>
    requires readable { IsReadableFrom spec.old place lines.now }
    requires there { place < length lines.now }
    ensures ok { OnOk result (names_left spec.old place lines.now
        ≡ names_left spec.new (place + 1) lines.now) }
    ensures left { IsReadableFrom spec.new (place + 1) lines.now }
    ensures kept { KeepsAllButNames spec.old spec.new }
{
    if !may_add(lines.get(place)) {
        return Ok(());
    }
    read_entry(alloc, lines, place, spec, room)?;
    Ok(())
}

/// Adds the names that the `add` entries from a line on bring.
fn add_names(alloc: Global, spec: &mut Spec, lines: &Lines, from: u32) -> Result<(), AllocError>
    requires { IsReadableFrom spec.old from lines.now }
    ensures ok { OnOk result (spec.new ≡ names_left spec.old from lines.now) }
    ensures kept { KeepsAllButNames spec.old spec.new }
{
    let mut room = EntryWords::new(alloc);
    for place in from..lines.len() {
        add_name(alloc, spec, lines, place, &mut room)?;
    }
    Ok(())
}

/// The verdict on the lines of a log that were read, and the first that wasn't.
#[derive(Clone, Copy)]
struct Stop {
    verdict: Verdict,
    next: u32,
}

/// Judges the line of an entry. The name that it brings is added.
fn judge_head<'a>(
    alloc: Global,
    spec: &mut Spec,
    lines: &'a Lines,
    place: u32,
    judge: &mut Judge,
    room: &mut EntryWords<'a>,
) -> Result<Option<Cause>, AllocError>
    requires readable { IsReadableFrom spec.old place lines.now }
    requires there { place < length lines.now }
    requires models { spec.old.models ≡ judge.old.cluster.models }
    ensures cause { IfOk result (λ cause. IsJudgedAs judge.old
        (judged_entry spec.old judge.old (entry_at spec.old place lines.now)) cause judge.new) }
    ensures names { OnOk result (spec.new ≡ named_at spec.old place lines.now) }
    ensures kept { KeepsAllButNames spec.old spec.new }
{
    let Some(entry) = read_entry(alloc, lines, place, spec, room)? else {
        return Ok(Some(Cause::Grammar));
    };
    judge.judge(spec, entry)
}

/// Judges the lines of a log in turn. The names grow as they are read.
fn judge_lines(
    alloc: Global,
    spec: &mut Spec,
    lines: &Lines,
    judge: &mut Judge,
) -> Result<Stop, AllocError>
    requires readable { IsReadable spec.old lines.now }
    requires models { spec.old.models ≡ judge.old.cluster.models }
    ensures verdict { IfOk result (λ stop.
        stop.verdict ≡ judged_from spec.old judge.old 0 (log_of spec.old lines.now).0) }
    ensures names { IfOk result (λ stop.
        (log_of spec.old lines.now).1 ≡ names_left spec.new stop.next lines.now) }
    ensures left { IfOk result (λ stop. IsReadableFrom spec.new stop.next lines.now) }
    ensures kept { KeepsAllButNames spec.old spec.new }
{
    let mut room = EntryWords::new(alloc);
    let mut begun = false;
    let mut entries = 0;
    for place in 0..lines.len() {
        let next = place + 1;
        match sort_of(lines.get(place)) {
            Sort::PassedOver => continue,
            Sort::Indented => {
                if begun {
                    continue;
                }
                let cause = Cause::Grammar;
                let verdict = Verdict::Unlawful { line: next, cause };
                return Ok(Stop { verdict, next });
            }
            Sort::Head => {}
        }
        let found = judge_head(alloc, spec, lines, place, judge, &mut room)?;
        if let Some(cause) = found {
            let verdict = Verdict::Unlawful { line: next, cause };
            return Ok(Stop { verdict, next });
        }
        begun = true;
        entries += 1;
    }
    Ok(Stop {
        verdict: Verdict::Lawful { entries },
        next: lines.len(),
    })
}

/// The verdict on a log. The names that its `add` entries bring are added to the resource names;
/// nothing else of the description changes.
pub fn check(alloc: Global, spec: &mut Spec, lines: &Lines) -> Result<Verdict, AllocError>
    requires valid { IsValid spec.old }
    requires readable { IsReadable spec.old lines.now }
    ensures verdict { IfOk result (λ verdict. verdict ≡ verdict_of spec.old lines.now) }
    ensures names { OnOk result (spec.new ≡ (log_of spec.old lines.now).1) }
    ensures kept { KeepsAllButNames spec.old spec.new }
{
    let known = spec.resource_names.len();
    add_names(alloc, spec, lines, 0)?;
    let mut judge = Judge::new(alloc, spec)?;
    spec.resource_names.truncate(known);
    let stop = judge_lines(alloc, spec, lines, &mut judge)?;
    add_names(alloc, spec, lines, stop.next)?;
    Ok(stop.verdict)
}

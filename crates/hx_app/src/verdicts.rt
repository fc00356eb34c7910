//! Logs that are judged.
ghost use Rattle.std.specs.Prelude.{◌≡◌, ◌≤◌, length, IfOk};
ghost use Rattle.hx_text.specs.Lines.{lines_of};
ghost use Rattle.hx_cluster.specs.Valid.{IsValid};
ghost use Rattle.hx_script.specs.Parsing.{IsReadable};
ghost use Rattle.hx_check.specs.Judge.{verdict_on_text, cause_name};
ghost use Rattle.hx_app.specs.Constants.{most_bytes};
ghost use Rattle.hx_app.specs.Replies.{AnswersAs};
ghost use Rattle.hx_app.specs.Verdicts.{judged_answer, verdict_answer};

use crate::replies::{Reply, refuse_description};
use crate::statuses::{MOST_LINE, Status};
use hx_check::{Cause, Verdict, check};
use hx_cluster::Spec;
use hx_desc::{DescRefusal, read};
use hx_text::{Page, Piece, TextFault, cut, split_lines};
use std::alloc::{AllocError, Global};

/// The name of a cause.
fn cause_name(cause: Cause) -> &'static str
    ensures { result.now ≡ cause_name cause }
{
    match cause {
        Cause::Grammar => "grammar",
        Cause::Step => "step",
        Cause::Order => "order",
        Cause::Plan => "plan",
        Cause::Fetch => "fetch",
    }
}

/// The answer that tells that a log is lawful, and how many entries it has.
fn lawful(alloc: Global, entries: u64) -> Result<Reply, AllocError>
    ensures { IfOk result (AnswersAs (verdict_answer (Verdict.Lawful entries))) }
{
    let mut text = Page::new(alloc);
    text.push_all(&[
        Piece::Text("lawful "),
        Piece::Number(entries),
        Piece::Text("\n"),
    ])?;
    Ok(Reply {
        status: Status::DONE,
        text,
    })
}

/// The answer that names the first line at fault.
fn unlawful(alloc: Global, line: u32, cause: Cause) -> Result<Reply, AllocError>
    ensures { IfOk result (AnswersAs (verdict_answer (Verdict.Unlawful line cause))) }
{
    let mut text = Page::new(alloc);
    text.push_all(&[
        Piece::Text("unlawful "),
        Piece::Number(line as u64),
        Piece::Text(" "),
        Piece::Text(cause_name(cause)),
        Piece::Text("\n"),
    ])?;
    Ok(Reply {
        status: Status::UNLAWFUL,
        text,
    })
}

/// The answer that tells a verdict.
fn told(alloc: Global, verdict: Verdict) -> Result<Reply, AllocError>
    ensures { IfOk result (AnswersAs (verdict_answer verdict)) }
{
    match verdict {
        Verdict::Lawful { entries } => lawful(alloc, entries),
        Verdict::Unlawful { line, cause } => unlawful(alloc, line, cause),
    }
}

/// The verdict on the bytes of a log. A line that isn't text is at fault before all others.
fn verdict_on(alloc: Global, spec: &mut Spec, log: &[u8]) -> Result<Verdict, AllocError>
    requires valid { IsValid spec.old }
    requires short { length log.now ≤ most_bytes }
    requires readable { IsReadable spec.old (lines_of log.now) }
    ensures { IfOk result (λ verdict. verdict ≡ verdict_on_text spec.old log.now) }
{
    match split_lines(alloc, log, MOST_LINE) {
        Ok(lines) => check(alloc, spec, &lines),
        Err(TextFault::NotUtf8 { line }) => Ok(Verdict::Unlawful {
            line,
            cause: Cause::Grammar,
        }),
        Err(TextFault::LineTooLong { line }) => Ok(Verdict::Unlawful {
            line,
            cause: Cause::Grammar,
        }),
        Err(TextFault::OutOfMemory) => Err(AllocError),
    }
}

/// The answer to a description with a log behind it.
pub fn judged(alloc: Global, bytes: &[u8]) -> Result<Reply, AllocError>
    requires { length bytes.now ≤ most_bytes }
    ensures { IfOk result (AnswersAs (judged_answer bytes.now)) }
{
    let mut spec = match read(alloc, bytes) {
        Ok(spec) => spec,
        Err(DescRefusal::Fault(fault)) => return refuse_description(alloc, &fault),
        Err(DescRefusal::OutOfMemory) => return Err(AllocError),
    };
    let Some(input) = cut(bytes) else {
        unreachable!();
    };
    let verdict = verdict_on(alloc, &mut spec, input.script)?;
    told(alloc, verdict)
}

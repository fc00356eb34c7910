//! The run of the program: it reads a description and a script, and writes what comes of them.
ghost use Rattle.std.specs.Prelude.{◌<◌, ◌≤◌, length, map, Err, IfOk, MatchResult};
ghost use Rattle.std.specs.String.{string_bytes};
ghost use Rattle.std.specs.IoError.{error_kind};
ghost use Rattle.hx_words.specs.Tasks.{HasRanges, HoldsOfAsked};
ghost use Rattle.hx_app.specs.Replies.{AnswersAs, words_refused};
ghost use Rattle.hx_app.specs.Constants.{most_bytes};
ghost use Rattle.hx_app.specs.Answers.{generated_answer};
ghost use Rattle.hx_app.specs.Writes.{Writes};
ghost use Rattle.hx_app.specs.Runs.{EndsTold, Runs, RunsInput, RunsWords, HoldsOfTold, answer_in, untold_by};

use crate::answers::{answer, generated};
use crate::replies::Reply;
use crate::statuses::{MOST_BYTES, Status};
use crate::verdicts::judged;
use hx_io::{ReadFault, Sink, Source, read_all, write_all};
use hx_words::{RunMode, Task, Words, WordsFault, read_words, usage, version};
use std::alloc::{AllocError, Global};
use std::io;
use std::io::ErrorKind;
use std::sync::Wait;
use std::thread::Threads;

/// What stands behind the description of an input.
#[derive(Clone, Copy, Debug, PartialEq, Eq)]
pub(crate) enum Behind {
    /// A script, which is run.
    Script,
    /// A log, which is judged.
    Log,
}

/// Writes a text for a status. A sink that fails gives another in its place.
fn write<K: Sink>(status: Status, text: &[u8], out: &mut K) -> Status
    ensures { Writes (record { status = status.0; text = text.now })
        (record { got = K.got out.old; faults = K.faults out.old })
        (record { got = K.got out.new; faults = K.faults out.new })
        result.0 }
{
    match write_all(out, text) {
        Ok(()) => status,
        Err(_) => Status::WRITE_FAULT,
    }
}

/// Does a task on what the source gives.
pub fn run_script<S: Source, K: Sink>(alloc: Global, task: Task, src: &mut S, out: &mut K) -> Status
    requires { HasRanges task }
    ensures { Runs task
        (record { left = S.left src.old; faults = S.faults src.old })
        (record { left = S.left src.new; faults = S.faults src.new })
        (record { got = K.got out.old; faults = K.faults out.old })
        (record { got = K.got out.new; faults = K.faults out.new })
        result.0 }
{
    match task.mode {
        RunMode::Sim => run_input(alloc, Behind::Script, src, out),
        RunMode::Gen => run_generated(alloc, task, out),
        RunMode::Check => run_input(alloc, Behind::Log, src, out),
    }
}

/// The answer to an input.
fn reply_to(alloc: Global, behind: Behind, bytes: &[u8]) -> Result<Reply, AllocError>
    requires { length bytes.now ≤ most_bytes }
    ensures { IfOk result (AnswersAs (answer_in behind bytes.now)) }
{
    match behind {
        Behind::Script => answer(alloc, bytes),
        Behind::Log => judged(alloc, bytes),
    }
}

/// Answers the input that the source gives.
fn run_input<S: Source, K: Sink>(alloc: Global, behind: Behind, src: &mut S, out: &mut K) -> Status
    ensures { RunsInput behind
        (record { left = S.left src.old; faults = S.faults src.old })
        (record { left = S.left src.new; faults = S.faults src.new })
        (record { got = K.got out.old; faults = K.faults out.old })
        (record { got = K.got out.new; faults = K.faults out.new })
        result.0 }
{
    match read_all(alloc, src, MOST_BYTES) {
        Ok(bytes) => answer_input(alloc, behind, &bytes, out),
        Err(ReadFault::Failed) => write(Status::READ_FAULT, b"read fault\n", out),
        Err(ReadFault::TooLong) => write(Status::TOO_LONG, b"input too long\n", out),
        Err(ReadFault::OutOfMemory) => Status::NO_MEMORY,
    }
}

/// Answers an input that was read.
fn answer_input<K: Sink>(alloc: Global, behind: Behind, bytes: &[u8], out: &mut K) -> Status
    requires { length bytes.now ≤ most_bytes }
    ensures { EndsTold (answer_in behind bytes.now)
        (record { got = K.got out.old; faults = K.faults out.old })
        (record { got = K.got out.new; faults = K.faults out.new })
        result.0 }
{
    match reply_to(alloc, behind, bytes) {
        Ok(reply) => write(reply.status, reply.text.as_bytes(), out),
        Err(AllocError) => Status::NO_MEMORY,
    }
}

/// Runs the input that a task generates.
fn run_generated<K: Sink>(alloc: Global, task: Task, out: &mut K) -> Status
    requires { HasRanges task }
    ensures { EndsTold (generated_answer task)
        (record { got = K.got out.old; faults = K.faults out.old })
        (record { got = K.got out.new; faults = K.faults out.new })
        result.0 }
{
    match generated(alloc, task) {
        Ok(made) => write(made.status, made.text.as_bytes(), out),
        Err(AllocError) => Status::NO_MEMORY,
    }
}

/// Runs the program on its words, of which the first is its name.
///
/// So far it uses nothing of the runtime.
pub fn run<R: Threads + Wait + Sync, S: Source, K: Sink>(
    rt: &R,
    alloc: Global,
    words: &[String],
    src: &mut S,
    out: &mut K,
) -> Status
    requires { 0 < length words.now }
    ensures { HoldsOfAsked (map string_bytes words.now) (RunsWords
        (record { left = S.left src.old; faults = S.faults src.old })
        (record { left = S.left src.new; faults = S.faults src.new })
        (record { got = K.got out.old; faults = K.faults out.old })
        (record { got = K.got out.new; faults = K.faults out.new })
        result.0) }
{
    let _ = rt;
    match read_words(alloc, words) {
        Ok(Words::Run(task)) => run_script(alloc, task, src, out),
        Ok(Words::Help) => write(Status::DONE, usage().as_bytes(), out),
        Ok(Words::Version) => write(Status::DONE, version().as_bytes(), out),
        Err(WordsFault::Refused) => refuse_words(out),
        Err(WordsFault::OutOfMemory) => Status::NO_MEMORY,
    }
}

/// Writes that the words are refused.
fn refuse_words<K: Sink>(out: &mut K) -> Status
    ensures { Writes words_refused
        (record { got = K.got out.old; faults = K.faults out.old })
        (record { got = K.got out.new; faults = K.faults out.new })
        result.0 }
{
    write(Status::WORDS_REFUSED, b"words refused\n", out)
}

/// Runs the program on its words, of which there may be none: these are refused.
fn run_told<R: Threads + Wait + Sync, S: Source, K: Sink>(
    rt: &R,
    alloc: Global,
    words: &[String],
    src: &mut S,
    out: &mut K,
) -> Status
    ensures { HoldsOfTold (map string_bytes words.now) (RunsWords
        (record { left = S.left src.old; faults = S.faults src.old })
        (record { left = S.left src.new; faults = S.faults src.new })
        (record { got = K.got out.old; faults = K.faults out.old })
        (record { got = K.got out.new; faults = K.faults out.new })
        result.0) }
{
    if words.is_empty() {
        return refuse_words(out);
    }
    run(rt, alloc, words, src, out)
}

/// Runs the program on its words as the system tells them: an error where one of them isn't text.
///
/// Such words are refused, and so are none at all.
pub fn start<R: Threads + Wait + Sync, S: Source, K: Sink>(
    rt: &R,
    alloc: Global,
    words: io::Result<Vec<String>>,
    src: &mut S,
    out: &mut K,
) -> Status
    ensures { let Holds = RunsWords
        (record { left = S.left src.old; faults = S.faults src.old })
        (record { left = S.left src.new; faults = S.faults src.new })
        (record { got = K.got out.old; faults = K.faults out.old })
        (record { got = K.got out.new; faults = K.faults out.new })
        result.0
        in
        MatchResult words
        (λ words. HoldsOfTold (map string_bytes words.items) Holds)
        (λ error. Holds (Err (untold_by (error_kind error)))) }
{
    match words {
        Ok(words) => run_told(rt, alloc, &words, src, out),
        Err(error) => match error.kind() {
            ErrorKind::OutOfMemory => Status::NO_MEMORY,
            _ => refuse_words(out),
        },
    }
}

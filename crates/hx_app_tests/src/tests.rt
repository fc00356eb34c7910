mod hostile;
mod streams;
mod verdicts;

use hx_app::{RunMode, Status, Task, run_script, start};
use hx_io::{MemSink, MemSource};
use std::alloc::{AllocError, Global};
use std::env::{Env, FillError};
use std::fmt::Debug;
use std::process::Abort;
use std::sync::Wait;
use std::test::Fail;
use std::thread::Threads;
use std::{env, io};

/// What is found is what is wanted. Inline, an `assert_eq!` takes longer to prove.
fn expect<T: PartialEq + Debug>(rt: &impl Abort, found: &T, wanted: &T) {
    assert_eq!(rt; found, wanted);
}

/// How a run ended, and what it wrote.
#[derive(Drop)]
struct Ran {
    status: Status,
    got: Vec<u8>,
}

const TASK: Task = Task {
    mode: RunMode::Sim,
    lanes: 4,
    rounds: 10,
    seed: 1,
    size: 64,
};

/// A run that ended, and what its sink took.
fn ended(alloc: Global, status: Status, sink: MemSink) -> Result<Ran, AllocError> {
    let got = Vec::from_slice(alloc, sink.got())?;
    Ok(Ran { status, got })
}

/// Runs an input through a source whose given calls fail, and a sink that takes so many bytes.
fn run_on(alloc: Global, input: &str, fails: &[u64], most: u64) -> Result<Ran, AllocError> {
    run_bytes(
        alloc,
        Vec::from_slice(alloc, input.as_bytes())?,
        fails,
        most,
    )
}

fn run_bytes(alloc: Global, bytes: Vec<u8>, fails: &[u64], most: u64) -> Result<Ran, AllocError> {
    let fails = Vec::from_slice(alloc, fails)?;
    let mut source = MemSource::new(bytes, fails);
    let mut sink = MemSink::new(alloc, Vec::new(alloc), most);
    let status = run_script(alloc, TASK, &mut source, &mut sink);
    drop(source);
    ended(alloc, status, sink)
}

fn expect_ran(rt: &impl Abort, ran: &Ran, status: Status, output: &str) {
    expect(rt, &ran.status, &status);
    assert!(rt; ran.got.as_slice() == output.as_bytes(), "not {output}");
}

/// A run with plenty of room ends so and writes this.
fn expect_answer(
    rt: &impl Abort,
    alloc: Global,
    input: &str,
    status: Status,
    output: &str,
) -> Result<(), AllocError> {
    let ran = run_on(alloc, input, &[], PLENTY)?;
    expect_ran(rt, &ran, status, output);
    Ok(())
}

const PLENTY: u64 = 1 << 20;

const EMPTY: &str = "builtin demo\n---\n";

const EMPTY_VIEW: &str = "= db#0/0 -\n= db#0/1 -\n";

const ONE_INSTANCE: &str = "builtin demo\n---\njoin n1\nlead c1\npass c1\nwork n1\nview\n";

const ITS_OUTPUT: &str = "line 1
join n1 s1
line 2
lead c1 e1
line 3
begin c1 e1 p1
live c1 p1
mail c1 p1 s1
states c1 p1 s1
ideals c1 p1
send c1 e1 p1
  sent m1 s1 db#0/0 OFFLINE>ONLINE
  sent m2 s1 db#0/1 OFFLINE>ONLINE
? c1 sent 2
post c1 e1 0
line 4
fetch n1 s1 2
take s1 m1
write s1 m1 ok
ack s1 m1
take s1 m2
write s1 m2 ok
ack s1 m2
line 5
= db#0/0 n1:ONLINE
= db#0/1 n1:ONLINE
= db#0/0 n1:ONLINE
= db#0/1 n1:ONLINE
";

/// Sessions that end thirty ticks after their last beat, and two that begin anew.
const TICKS: &str = r#"{"version":1,"controllers":2,"timeout":30,"instances":["n1","n2","n3"],
 "resources":[{"name":"db","model":"MasterSlave","replicas":3,"partitions":1,
 "mode":"SEMI_AUTO","lists":[["n1","n2","n3"]]}]}
---
join n1
join n2
tick 10
beat n2
tick 19
tick 1
tick 10
join n2
join n1
beat n2
tick 30
"#;

const ITS_ENDS: &str = "line 1
join n1 s1
line 2
join n2 s2
line 3
tick 10
line 4
beat n2 s2
line 5
tick 19
line 6
tick 1
  end n1 s1
line 7
tick 10
  end n2 s2
line 8
join n2 s3
line 9
join n1 s4
line 10
beat n2 s3
line 11
tick 30
  end n1 s4
  end n2 s3
= db#0/0 -
";

const UNKNOWN_INSTANCE: &str =
    r#"{"version":1,"controllers":2,"timeout":30,"instances":["n1","n2","n3"],
 "resources":[{"name":"db","model":"MasterSlave","replicas":3,"partitions":1,
 "mode":"SEMI_AUTO","lists":[["n1","n9","n3"]]}]}
---
"#;

const ZERO_BOUND: &str = r#"{"version":1,"controllers":2,"timeout":30,"instances":["n1","n2","n3"],
 "resources":[{"name":"db","model":"MasterSlave","replicas":3,"partitions":1,
 "mode":"SEMI_AUTO","lists":[["n1","n2","n3"]]}],
 "models":[{"name":"Swap","initial":"OFFLINE",
 "states":[{"name":"P","bound":"0"},{"name":"Q","bound":"2"},{"name":"OFFLINE","bound":"-1"}],
 "transitions":["OFFLINE>Q","Q>P","P>Q","Q>OFFLINE","OFFLINE>DROPPED"]}]}
---
"#;

static INPUTS: &[(&str, Status, &str)] = &[
    (EMPTY, Status::DONE, EMPTY_VIEW),
    (ONE_INSTANCE, Status::DONE, ITS_OUTPUT),
    (
        "builtin demo\n---\npass c1\nwork n3\n",
        Status::DONE,
        "line 1\n! 1 not-leader -\nline 2\nfetch n3 - 0\n= db#0/0 -\n= db#0/1 -\n",
    ),
    (TICKS, Status::DONE, ITS_ENDS),
    (
        "builtin demo\n",
        Status::DESCRIPTION_REFUSED,
        "description no-separator $\n",
    ),
    (
        "{\"a\":\"b\n---\n",
        Status::DESCRIPTION_REFUSED,
        "description bad-json $\n",
    ),
    (
        UNKNOWN_INSTANCE,
        Status::DESCRIPTION_REFUSED,
        "description unknown-instance $.resources[0].lists[0][1]\n",
    ),
    (
        ZERO_BOUND,
        Status::DESCRIPTION_REFUSED,
        "description zero-bound $.models[0].states[0].bound\n",
    ),
    (
        "builtin demo\n---\njoin n1\nsettle\njion n1\n",
        Status::SCRIPT_REFUSED,
        "script 3 unknown-word\n",
    ),
    (
        "builtin demo\n---\ntick 1\nwork n9\n",
        Status::SCRIPT_REFUSED,
        "script 2 unknown-instance\n",
    ),
];

#[test]
fn inputs_are_answered(rt: HostRuntime) -> Result<(), Fail> {
    for (input, status, output) in INPUTS {
        expect_answer(&rt, rt.alloc(), *input, *status, *output)?;
    }
    Ok(())
}

/// Of the source these calls fail, and the sink takes so many bytes.
static FAILING: &[(&[u64], u64, Status, &str)] = &[
    (&[2], PLENTY, Status::READ_FAULT, "read fault\n"),
    (&[2], 10, Status::WRITE_FAULT, "read fault"),
    (&[], 10, Status::WRITE_FAULT, "line 1\njoi"),
];

#[test]
fn sources_and_sinks_fail(rt: HostRuntime) -> Result<(), Fail> {
    for (fails, most, status, output) in FAILING {
        let ran = run_on(rt.alloc(), ONE_INSTANCE, *fails, *most)?;
        expect_ran(&rt, &ran, *status, *output);
    }
    Ok(())
}

/// A system that tells these words, which need not be text.
#[derive(Clone, Copy)]
struct Told<'a> {
    words: &'a [&'a [u8]],
}

impl Env for Told<'_> {
    fn arg(&self, i: usize, buf: &mut [u8]) -> Result<usize, FillError> {
        let Some(word) = self.words.get(i) else {
            return Err(FillError::NotPresent);
        };
        if word.len() > buf.len() {
            return Err(FillError::TooLong);
        }
        buf[..word.len()].copy_from_slice(word);
        Ok(word.len())
    }

    fn var(&self, _name: &str, _buf: &mut [u8]) -> Result<usize, FillError> {
        Err(FillError::NotPresent)
    }

    fn var_at(&self, _i: usize, _buf: &mut [u8]) -> Result<usize, FillError> {
        Err(FillError::NotPresent)
    }
}

/// The words as the program reads them.
fn read_words(alloc: Global, words: &[&[u8]]) -> io::Result<Vec<String>> {
    let told = env::args(&(Told { words }, alloc))?;
    Ok(told.collect(alloc)?)
}

/// Runs the program on words that the system tells, and the empty script.
fn run_told<R: Threads + Wait + Sync>(
    rt: &R,
    alloc: Global,
    words: &[&[u8]],
) -> Result<Ran, AllocError> {
    let bytes = Vec::from_slice(alloc, EMPTY.as_bytes())?;
    let words = read_words(alloc, words);
    let mut source = MemSource::new(bytes, Vec::new(alloc));
    let mut sink = MemSink::new(alloc, Vec::new(alloc), PLENTY);
    let status = start(rt, alloc, words, &mut source, &mut sink);
    drop(source);
    ended(alloc, status, sink)
}

const NAME: &[u8] = b"fodderca";

static WORDS: &[(&[&[u8]], Status, &str)] = &[
    (&[NAME], Status::DONE, EMPTY_VIEW),
    (&[NAME, b"--mode=sim"], Status::DONE, EMPTY_VIEW),
    (
        &[NAME, b"--mode=gen", b"--seed=7", b"--size=64"],
        Status::DONE,
        "= summary sent 1472 ok 1472 failed 0 sessions 12 ended 0\n",
    ),
    (&[NAME, b"--version"], Status::DONE, "fodderca 0.1.0\n"),
    (
        &[NAME, b"--mode=fast"],
        Status::WORDS_REFUSED,
        "words refused\n",
    ),
    (
        &[NAME, b"--mode=\xff"],
        Status::WORDS_REFUSED,
        "words refused\n",
    ),
    (&[], Status::WORDS_REFUSED, "words refused\n"),
];

#[test]
fn words_are_answered(rt: HostRuntime) -> Result<(), Fail> {
    for (words, status, output) in WORDS {
        let ran = run_told(&rt, rt.alloc(), *words)?;
        expect_ran(&rt, &ran, *status, *output);
    }
    Ok(())
}

//! Logs that are judged.
use crate::tests::expect;
use hx_app::{Status, judged};
use std::alloc::{AllocError, Global};
use std::test::Fail;

/// The answer to the built-in description with a log behind it.
#[derive(Drop)]
struct Answered {
    status: Status,
    text: Vec<u8>,
}

/// The answer to a log in parts.
fn answer_to(alloc: Global, log: &[&str]) -> Result<Answered, AllocError> {
    let mut input = String::from_str(alloc, "builtin demo\n---\n")?;
    for part in log {
        input.push_str(part)?;
    }
    if input.len() > 10_000 {
        return Err(AllocError);
    }
    let reply = judged(alloc, input.as_bytes())?;
    let text = Vec::from_slice(alloc, reply.text.as_bytes())?;
    Ok(Answered {
        status: reply.status,
        text,
    })
}

const LED: &str = "line 1\njoin n1 s1\nline 2\nlead c1 e1\n";

const BEGUN: &str = "line 3\nbegin c1 e1 p1\nlive c1 p1\n";

const READ: &str = "mail c1 p1 s1\nstates c1 p1 s1\nideals c1 p1\n";

const SENT: &str = "send c1 e1 p1
  sent m1 s1 db#0/0 OFFLINE>ONLINE
  sent m2 s1 db#0/1 OFFLINE>ONLINE
? c1 sent 2
";

const POSTED: &str = "post c1 e1 0\nline 4\n";

const FETCHED: &str = "fetch n1 s1 2\n";

const TAKEN: &str = "take s1 m1\nwrite s1 m1 ok\nack s1 m1\n";

const LED_ANEW: &str = "stop c1\nlead c2 e2\nstop c2\nstart c1\nlead c1 e3\n";

/// Logs in parts, each with its answer: lawful ones, and ones whose first line at fault is named with
/// the cause.
static LOGS: &[(&[&str], Status, &str)] = &[
    (&[], Status::DONE, "lawful 0\n"),
    (
        &["! 1 x\n\nline 1\n? y\njoin n1 s1\n= z\n"],
        Status::DONE,
        "lawful 2\n",
    ),
    (
        &[LED, BEGUN, READ, SENT, POSTED, FETCHED, TAKEN],
        Status::DONE,
        "lawful 17\n",
    ),
    (
        &["  sent m1 s1 db#0/0 OFFLINE>ONLINE\n"],
        Status::UNLAWFUL,
        "unlawful 1 grammar\n",
    ),
    (
        &[LED, "leads c1 e1\n"],
        Status::UNLAWFUL,
        "unlawful 5 grammar\n",
    ),
    (
        &["line 1\njoin n1 s2\n"],
        Status::UNLAWFUL,
        "unlawful 2 step\n",
    ),
    // The answer of a proposal is another.
    (
        &[
            LED,
            BEGUN,
            READ,
            "send c1 e1 p1\n  sent m1 s1 db#0/0 OFFLINE>ONLINE\n  busy m1 s1 db#0/1 OFFLINE>ONLINE\n",
        ],
        Status::UNLAWFUL,
        "unlawful 11 step\n",
    ),
    // States are read before mail.
    (
        &[LED, BEGUN, "states c1 p1 s1\nmail c1 p1 s1\n"],
        Status::UNLAWFUL,
        "unlawful 8 order\n",
    ),
    // What is sent is of the epoch of another begin.
    (
        &[
            LED,
            BEGUN,
            READ,
            LED_ANEW,
            "send c1 e3 p1\n  sent m1 s1 db#0/0 OFFLINE>ONLINE\n  sent m2 s1 db#0/1 OFFLINE>ONLINE\n",
        ],
        Status::UNLAWFUL,
        "unlawful 16 order\n",
    ),
    // A proposal is left out.
    (
        &[
            LED,
            BEGUN,
            READ,
            "send c1 e1 p1\n  sent m1 s1 db#0/0 OFFLINE>ONLINE\n",
        ],
        Status::UNLAWFUL,
        "unlawful 11 plan\n",
    ),
    // No fetch showed what is taken.
    (
        &[LED, BEGUN, READ, SENT, POSTED, TAKEN],
        Status::UNLAWFUL,
        "unlawful 17 fetch\n",
    ),
];

#[test]
fn logs_are_judged(rt: HostRuntime) -> Result<(), Fail> {
    for (log, status, text) in LOGS {
        let answered = answer_to(rt.alloc(), *log)?;
        expect(&rt, &answered.status, status);
        expect(&rt, &answered.text.as_slice(), &text.as_bytes());
    }
    Ok(())
}

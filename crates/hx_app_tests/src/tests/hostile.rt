//! Hostile use: sources and sinks that fail at any call, inputs at the limit, sessions that end in
//! storms, and instances that go on after their sessions have ended.
ghost use Rattle.std.specs.Prelude.{◌≤◌};

use crate::tests::{
    ITS_OUTPUT, ONE_INSTANCE, PLENTY, Ran, expect, expect_answer, expect_ran, run_bytes, run_on,
};
use hx_app::Status;
use std::alloc::{AllocError, Global};
use std::process::Abort;
use std::test::Fail;

const COMMENT: &[u8; 64] = b"###############################################################\n";

/// The input of one instance with comments behind it, so many bytes in all.
fn padded(alloc: Global, length: usize) -> Result<Vec<u8>, AllocError> {
    let mut bytes = Vec::from_slice(alloc, ONE_INSTANCE.as_bytes())?;
    let more = length.saturating_sub(bytes.len());
    for _ in 0..more / 64 {
        bytes.extend_from_slice(COMMENT)?;
    }
    bytes.extend_from_slice(&COMMENT[..more % 64])?;
    Ok(bytes)
}

/// Of a source of so many bytes these calls fail.
fn run_padded(alloc: Global, length: usize, fails: &[u64]) -> Result<Ran, AllocError> {
    run_bytes(alloc, padded(alloc, length)?, fails, PLENTY)
}

/// How many bytes there are, and a call that fails. A source gives up to 16,384 bytes at a call, and
/// a last call finds its end.
static FAILING: &[(usize, u64)] = &[
    (0, 1),
    (0, 2),
    (40_000, 1),
    (40_000, 2),
    (40_000, 3),
    (40_000, 4),
];

static READ: &[(usize, u64)] = &[(0, 3), (40_000, 5)];

#[test]
fn sources_fail_at_each_call(rt: HostRuntime) -> Result<(), Fail> {
    for (length, call) in FAILING {
        let ran = run_padded(rt.alloc(), *length, &[*call])?;
        expect_ran(&rt, &ran, Status::READ_FAULT, "read fault\n");
    }
    for (length, call) in READ {
        let ran = run_padded(rt.alloc(), *length, &[*call])?;
        expect_ran(&rt, &ran, Status::DONE, ITS_OUTPUT);
    }
    Ok(())
}

/// A sink that takes as many bytes as these takes these.
fn expect_taken(rt: &impl Abort, alloc: Global, taken: &[u8]) -> Result<(), AllocError> {
    let ran = run_on(alloc, ONE_INSTANCE, &[], taken.len() as u64)?;
    let status = if taken.len() < ITS_OUTPUT.len() {
        Status::WRITE_FAULT
    } else {
        Status::DONE
    };
    expect(rt, &ran.status, &status);
    expect(rt, &ran.got.as_slice(), &taken);
    Ok(())
}

#[test]
fn sinks_take_each_number_of_bytes(rt: HostRuntime) -> Result<(), Fail> {
    let whole = ITS_OUTPUT.as_bytes();
    for most in 0..=whole.len() {
        expect_taken(&rt, rt.alloc(), &whole[..most])?;
    }
    Ok(())
}

#[test]
fn an_input_at_the_limit_is_read(rt: HostRuntime) -> Result<(), Fail> {
    let ran = run_padded(rt.alloc(), 16_777_216, &[])?;
    expect_ran(&rt, &ran, Status::DONE, ITS_OUTPUT);
    Ok(())
}

#[test]
fn an_input_past_the_limit_is_refused(rt: HostRuntime) -> Result<(), Fail> {
    let ran = run_padded(rt.alloc(), 16_777_217, &[])?;
    expect_ran(&rt, &ran, Status::TOO_LONG, "input too long\n");
    Ok(())
}

/// A tick ends three sessions while a handler runs. Its write comes late, and so does a message.
const STORM: &str = r#"{"version":1,"controllers":2,"timeout":30,"instances":["n1","n2","n3"],
 "resources":[{"name":"db","model":"MasterSlave","replicas":3,"partitions":1,
 "mode":"SEMI_AUTO","lists":[["n1","n2","n3"]]}]}
---
join n1
join n2
join n3
lead c1
pass c1
fetch n1
deliver n1 m1
take n1 m1
beat n1
tick 30
join n1
write n1 m1
deliver n1 m1
work n1
deliver n1 m1
pass c1
work n1
"#;

const ITS_LOG: &str = "line 1
join n1 s1
line 2
join n2 s2
line 3
join n3 s3
line 4
lead c1 e1
line 5
begin c1 e1 p1
live c1 p1
mail c1 p1 s1
mail c1 p1 s2
mail c1 p1 s3
states c1 p1 s1
states c1 p1 s2
states c1 p1 s3
ideals c1 p1
send c1 e1 p1
  sent m1 s1 db#0/0 OFFLINE>SLAVE
  sent m2 s2 db#0/0 OFFLINE>SLAVE
  sent m3 s3 db#0/0 OFFLINE>SLAVE
? c1 sent 3
post c1 e1 0
line 6
fetch n1 s1 1
line 7
? n1 accept m1
line 8
take s1 m1
line 9
beat n1 s1
line 10
tick 30
  end n2 s2
  end n3 s3
  end n1 s1
line 11
join n1 s4
line 12
! 12 session-ended
line 13
! 13 repeat m1
line 14
fetch n1 s4 0
line 15
! 15 other-session s4
line 16
begin c1 e1 p3
live c1 p3
mail c1 p3 s4
states c1 p3 s4
ideals c1 p3
send c1 e1 p3
  sent m4 s4 db#0/0 OFFLINE>SLAVE
? c1 sent 1
post c1 e1 0
line 17
fetch n1 s4 1
take s4 m4
write s4 m4 ok
ack s4 m4
= db#0/0 n1:SLAVE
";

/// Sessions end before an acknowledgement and before a take, and the instance goes on all the same.
const ZOMBIE: &str = r#"{"version":1,"controllers":2,"timeout":30,"instances":["n1","n2","n3"],
 "resources":[{"name":"db","model":"MasterSlave","replicas":3,"partitions":1,
 "mode":"SEMI_AUTO","lists":[["n1","n2","n3"]]}]}
---
join n1
lead c1
pass c1
fetch n1
deliver n1 m1
take n1 m1
write n1 m1
expire n1
join n1
ack n1 m1
ack n1 m1
deliver n1 m1
pass c1
deliver n1 m2
fetch n1
deliver n1 m1
deliver n1 m2
expire n1
take n1 m2
write n1 m2
"#;

const ITS_NOTES: &str = "line 1
join n1 s1
line 2
lead c1 e1
line 3
begin c1 e1 p1
live c1 p1
mail c1 p1 s1
states c1 p1 s1
ideals c1 p1
send c1 e1 p1
  sent m1 s1 db#0/0 OFFLINE>SLAVE
? c1 sent 1
post c1 e1 0
line 4
fetch n1 s1 1
line 5
? n1 accept m1
line 6
take s1 m1
line 7
write s1 m1 ok
line 8
end n1 s1
line 9
join n1 s2
line 10
! 10 session-ended
line 11
! 11 no-job
line 12
! 12 repeat m1
line 13
begin c1 e1 p3
live c1 p3
mail c1 p3 s2
states c1 p3 s2
ideals c1 p3
send c1 e1 p3
  sent m2 s2 db#0/0 OFFLINE>SLAVE
? c1 sent 1
post c1 e1 0
line 14
! 14 no-message
line 15
fetch n1 s2 1
line 16
! 16 other-session s2
line 17
? n1 accept m2
line 18
end n1 s2
line 19
! 19 session-ended
line 20
! 20 no-job
= db#0/0 -
";

/// Describes sixty-four instances.
fn push_instances(alloc: Global, input: &mut String) -> Result<(), AllocError> {
    input.push_str("{\"version\":1,\"instances\":[\"i00\"")?;
    for n in 1..64 {
        input.push_str(&format!(in alloc; ",\"i{n:02}\"")?)?;
    }
    input.push_str("]}\n---\n")
}

fn push_joins(alloc: Global, input: &mut String) -> Result<(), AllocError> {
    for n in 0..64 {
        input.push_str(&format!(in alloc; "join i{n:02}\n")?)?;
    }
    Ok(())
}

/// The even ones beat.
fn push_beats(alloc: Global, input: &mut String) -> Result<(), AllocError> {
    for n in 0u32..32 {
        let instance = 2 * n;
        input.push_str(&format!(in alloc; "beat i{instance:02}\n")?)?;
    }
    Ok(())
}

/// Sixty-four instances join. The even ones beat one tick later, so they end one tick later.
fn crowd(alloc: Global) -> Result<String, AllocError> {
    let mut input = String::new(alloc);
    push_instances(alloc, &mut input)?;
    push_joins(alloc, &mut input)?;
    input.push_str("tick 1\n")?;
    push_beats(alloc, &mut input)?;
    input.push_str("tick 29\ntick 1\n")?;
    Ok(input)
}

fn push_its_joins(alloc: Global, log: &mut String) -> Result<(), AllocError> {
    for n in 0..64 {
        let line = n + 1;
        log.push_str(&format!(in alloc; "line {line}\njoin i{n:02} s{line}\n")?)?;
    }
    Ok(())
}

fn push_its_beats(alloc: Global, log: &mut String) -> Result<(), AllocError> {
    for n in 0u32..32 {
        let (line, instance, session) = (66 + n, 2 * n, 2 * n + 1);
        log.push_str(&format!(in alloc; "line {line}\nbeat i{instance:02} s{session}\n")?)?;
    }
    Ok(())
}

/// Every other session ends, from this instance on.
fn push_its_ends(alloc: Global, log: &mut String, first: u32) -> Result<(), AllocError>
    requires { first ≤ 1 }
{
    for n in 0u32..32 {
        let instance = 2 * n + first;
        let session = instance + 1;
        log.push_str(&format!(in alloc; "  end i{instance:02} s{session}\n")?)?;
    }
    Ok(())
}

/// What is written of the crowd.
fn its_ends(alloc: Global) -> Result<String, AllocError> {
    let mut log = String::new(alloc);
    push_its_joins(alloc, &mut log)?;
    log.push_str("line 65\ntick 1\n")?;
    push_its_beats(alloc, &mut log)?;
    log.push_str("line 98\ntick 29\n")?;
    push_its_ends(alloc, &mut log, 1)?;
    log.push_str("line 99\ntick 1\n")?;
    push_its_ends(alloc, &mut log, 0)?;
    Ok(log)
}

#[test]
fn sessions_end_in_storms(rt: HostRuntime) -> Result<(), Fail> {
    expect_answer(&rt, rt.alloc(), STORM, Status::DONE, ITS_LOG)?;
    expect_answer(&rt, rt.alloc(), ZOMBIE, Status::DONE, ITS_NOTES)?;
    Ok(())
}

#[test]
fn sessions_of_a_crowd_end_in_storms(rt: HostRuntime) -> Result<(), Fail> {
    let crowd = crowd(rt.alloc())?;
    let ends = its_ends(rt.alloc())?;
    expect_answer(&rt, rt.alloc(), crowd.as_str(), Status::DONE, ends.as_str())?;
    Ok(())
}

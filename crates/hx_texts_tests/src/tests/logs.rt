use super::{expect, short_lines, small_spec};
use hx_cluster::Spec;
use hx_logs::read_log;
use hx_script::LogLine;
use std::alloc::{AllocError, Global};
use std::test::Fail;

/// What the lines of a short log are read as.
fn read(alloc: Global, spec: &mut Spec, text: &str) -> Result<Vec<LogLine>, AllocError> {
    match short_lines(alloc, spec, text) {
        Some(lines) => read_log(alloc, &lines, spec),
        None => Err(AllocError),
    }
}

const LOG: &str = "! 1 refused
line 1
join n1 s1

tick 31
  end n1 s1
join n9 s2
add log#2 MasterSlave 1 1 FULL_AUTO
drop log#2
? c1 settled
leads c1 e1
";

/// The lines of LOG that tell something, each with whether it has an entry.
static TOLD: &[(u32, bool)] = &[
    (2, true),
    (3, true),
    (5, true),
    (7, false),
    (8, true),
    (9, true),
    (11, false),
];

/// The lines of a log, each with whether it has an entry.
fn told(alloc: Global, log: &[LogLine]) -> Result<Vec<(u32, bool)>, AllocError> {
    let mut told = Vec::new(alloc);
    for line in log {
        told.push((line.line, line.entry.is_some()))?;
    }
    Ok(told)
}

#[test]
fn lines_are_entries_or_none(rt: HostRuntime) -> Result<(), Fail> {
    let mut spec = small_spec(rt.alloc())?;
    let log = read(rt.alloc(), &mut spec, LOG)?;
    let told = told(rt.alloc(), log.as_slice())?;
    expect(&rt, &told.as_slice(), &TOLD);
    Ok(())
}

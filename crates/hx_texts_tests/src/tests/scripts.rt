use super::{expect, expect_page, short_lines, small_spec};
use hx_cluster::Spec;
use hx_script::{Line, ScriptFault, ScriptKind, ScriptRefusal, parse, print_line};
use hx_text::Page;
use std::alloc::{AllocError, Global};
use std::process::Abort;
use std::test::Fail;

/// The lines of a short script, with the names that they bring.
fn parsed(alloc: Global, spec: &mut Spec, text: &str) -> Result<Vec<Line>, ScriptRefusal> {
    match short_lines(alloc, spec, text) {
        Some(lines) => parse(alloc, &lines, spec),
        None => Err(ScriptRefusal::OutOfMemory),
    }
}

/// The script's lines, printed.
fn printed(alloc: Global, script: &[Line], spec: &Spec) -> Result<Page, AllocError> {
    let mut page = Page::new(alloc);
    for line in script {
        print_line(line, spec, &mut page)?;
    }
    Ok(page)
}

const EACH_LINE: &str = "join n1
beat n2
drain n3
undrain n3
tick 18446744073709551615
expire n1
die n2
add log.2 MasterSlave 64 1024 FULL_AUTO
add log-3 OnlineOffline 1 1 SEMI_AUTO
add log_4 LeaderStandby 3 8 CUSTOMIZED
drop logs
list db 0 n3 n1
list logs 4294967295
map db 1 n1=MASTER n2=ERROR
map log.2 0
reset n1 db 3
lead c1
stop c2
start c2
begin c1
read c1 live
read c1 mail
read c2 states
read c2 ideals
send c1
post c1
pass c2
fetch n1
deliver n1 m4
take n1 m4
write n1 m18446744073709551615
ack n1 m1
work n3
settle
view
route db 1 OFFLINE
summary
";

const SPACED: &str = "# a comment\n   \n  join   n2 \n#join n9\nsummary";

/// A script of so many lines is printed so.
fn expect_printed(
    rt: &impl Abort,
    alloc: Global,
    text: &str,
    lines: usize,
    wanted: &str,
) -> Result<(), Fail> {
    let mut spec = small_spec(alloc)?;
    let script = parsed(alloc, &mut spec, text).ok().ok_or("no script")?;
    expect(rt, &script.len(), &lines);
    let page = printed(alloc, &script, &spec)?;
    expect_page(rt, &page, wanted);
    Ok(())
}

#[test]
fn lines_are_printed_as_they_were_written(rt: HostRuntime) -> Result<(), Fail> {
    expect_printed(&rt, rt.alloc(), EACH_LINE, 37, EACH_LINE)?;
    expect_printed(&rt, rt.alloc(), SPACED, 2, "join n2\nsummary\n")
}

static FAULTS: &[(&str, u32, ScriptKind)] = &[
    ("Join n1", 1, ScriptKind::UnknownWord),
    ("join n1\njoin", 2, ScriptKind::WordCount),
    ("settle now", 1, ScriptKind::WordCount),
    ("#\n\njoin n9\njoin", 3, ScriptKind::UnknownInstance),
    ("join n1\t", 1, ScriptKind::UnknownInstance),
    ("take n9 m0", 1, ScriptKind::UnknownInstance),
    ("lead c0", 1, ScriptKind::UnknownController),
    ("lead c01", 1, ScriptKind::UnknownController),
    ("drop log", 1, ScriptKind::UnknownResource),
    ("add log Swap 0 0 AUTO", 1, ScriptKind::UnknownModel),
    ("map db 0 n1=MASTER=UP", 1, ScriptKind::UnknownState),
    ("add 1og Swap 0 0 AUTO", 1, ScriptKind::BadName),
    ("add log MasterSlave 65 1 AUTO", 1, ScriptKind::BadNumber),
    ("tick 18446744073709551616", 1, ScriptKind::BadNumber),
    ("list db 4294967296 n9", 1, ScriptKind::BadNumber),
    ("ack n1 m0", 1, ScriptKind::BadMessage),
    ("add log MasterSlave 1 1 AUTO", 1, ScriptKind::BadMode),
    ("map db 0 n1", 1, ScriptKind::BadPair),
    ("read c1 all", 1, ScriptKind::BadKind),
];

fn expect_fault(
    rt: &impl Abort,
    alloc: Global,
    text: &str,
    fault: ScriptFault,
) -> Result<(), Fail> {
    let mut spec = small_spec(alloc)?;
    let found = parsed(alloc, &mut spec, text).err();
    expect(rt, &found, &Some(ScriptRefusal::Fault(fault)));
    Ok(())
}

#[test]
fn the_first_fault_is_named(rt: HostRuntime) -> Result<(), Fail> {
    for (text, line, kind) in FAULTS {
        let fault = ScriptFault {
            line: *line,
            kind: *kind,
        };
        expect_fault(&rt, rt.alloc(), *text, fault)?;
    }
    Ok(())
}

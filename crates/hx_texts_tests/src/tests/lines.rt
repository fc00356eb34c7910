use super::expect;
use hx_text::{Lines, TextFault, cut, split_lines};
use std::alloc::Global;
use std::process::Abort;

/// Whether these are the lines.
fn are_lines(lines: &Lines, want: &[&str]) -> bool {
    for (place, line) in want.iter().enumerate() {
        if place >= lines.len() as usize || lines.get(place as u32) != *line {
            return false;
        }
    }
    lines.len() as usize == want.len() && lines.is_empty() == want.is_empty()
}

fn expect_lines(rt: &impl Abort, alloc: Global, bytes: &[u8], wanted: &[&str]) {
    assert!(rt; bytes.len() < 100);
    let Ok(lines) = split_lines(alloc, bytes, 6) else {
        panic!(rt; "no lines in {bytes:?}");
    };
    assert!(rt; are_lines(&lines, wanted), "of {bytes:?}");
}

static LINES: &[(&[u8], &[&str])] = &[
    (b"", &[]),
    (b"\n", &[""]),
    (b"one", &["one"]),
    (b"one\ntwo\n", &["one", "two"]),
    (b"a\r\n\n  b c\r\r\nlast\r", &["a", "", "  b c\r", "last\r"]),
    (b"\xc3\xa9\n", &["é"]),
];

#[test]
fn lines_end_at_line_feeds(rt: HostRuntime) {
    for (bytes, wanted) in LINES {
        expect_lines(&rt, rt.alloc(), *bytes, *wanted);
    }
}

fn expect_fault(rt: &impl Abort, alloc: Global, bytes: &[u8], fault: TextFault) {
    assert!(rt; bytes.len() < 100);
    expect(rt, &split_lines(alloc, bytes, 3).err(), &Some(fault));
}

static FAULTS: &[(&[u8], TextFault)] = &[
    (b"abc\nabcd\n\xff\n", TextFault::LineTooLong { line: 2 }),
    (b"\xff\nabcd", TextFault::NotUtf8 { line: 1 }),
    (b"a\nb\nc\xffabcd", TextFault::NotUtf8 { line: 3 }),
    (b"abc\r\nabc\r", TextFault::LineTooLong { line: 2 }),
];

#[test]
fn the_first_line_with_a_fault_is_named(rt: HostRuntime) {
    for (bytes, fault) in FAULTS {
        expect_fault(&rt, rt.alloc(), *bytes, *fault);
    }
}

/// The description and the script of an input.
fn parts(bytes: &[u8]) -> Option<(&[u8], &[u8])> {
    let input = cut(bytes)?;
    Some((input.description, input.script))
}

static INPUTS: &[(&[u8], Option<(&[u8], &[u8])>)] = &[
    (b"{}\n---\ntick\n---\n", Some((b"{}\n", b"tick\n---\n"))),
    (b"{}\r\n---\r\n\n", Some((b"{}\r\n", b"\n"))),
    (b"---", Some((b"", b""))),
    (b"a\n---\r", None),
    (b"---\r\r\n----\n --\n- --", None),
    (b"", None),
];

#[test]
fn an_input_is_cut_at_its_first_separator(rt: HostRuntime) {
    for (bytes, wanted) in INPUTS {
        expect(&rt, &parts(*bytes), wanted);
    }
}

use super::expect;
use hx_words::{RunMode, Task, Words, WordsFault, read_words, usage, version};
use std::alloc::{AllocError, Global};
use std::process::Abort;
use std::test::Fail;

/// What words behind the program's name ask for.
fn asked(alloc: Global, words: &[&str]) -> Result<Result<Words, WordsFault>, AllocError> {
    let mut owned = Vec::new(alloc);
    owned.push(String::from_str(alloc, "fodderca")?)?;
    for word in words {
        owned.push(String::from_str(alloc, word)?)?;
    }
    Ok(read_words(alloc, owned.as_slice()))
}

const DEFAULTS: Task = Task {
    mode: RunMode::Sim,
    lanes: 4,
    rounds: 10,
    seed: 1,
    size: 64,
};

type Answer = Result<Words, WordsFault>;

/// Each list of words is answered so.
fn expect_answers(
    rt: &impl Abort,
    alloc: Global,
    table: &[(&[&str], Answer)],
) -> Result<(), AllocError> {
    for (words, answer) in table {
        expect(rt, &asked(alloc, *words)?, answer);
    }
    Ok(())
}

static LANES: &[(&[&str], u32)] = &[
    (&[], 4),
    (&["--mode", "sim"], 4),
    (&["--lanes", "16"], 16),
    (&["--lanes=1"], 1),
    (&["--lanes", "04"], 4),
    (&["--lanes", "+7"], 7),
    (&["--lanes", "2", "--"], 2),
];

#[test]
fn lanes_have_a_range_and_a_default(rt: HostRuntime) -> Result<(), Fail> {
    for (words, lanes) in LANES {
        let task = Task {
            lanes: *lanes,
            ..DEFAULTS
        };
        expect_answers(&rt, rt.alloc(), &[(*words, Ok(Words::Run(task)))])?;
    }
    Ok(())
}

/// Words that give each number but the lanes.
const NUMBERS: [&str; 6] = [
    "--rounds",
    "0",
    "--seed",
    "18446744073709551615",
    "--size",
    "256",
];

#[test]
fn other_options_have_ranges_and_defaults(rt: HostRuntime) -> Result<(), Fail> {
    let numbers = Task {
        rounds: 0,
        seed: u64::MAX,
        size: 256,
        ..DEFAULTS
    };
    let generated = Task {
        mode: RunMode::Gen,
        size: 8,
        ..DEFAULTS
    };
    let checked = Task {
        mode: RunMode::Check,
        ..DEFAULTS
    };
    let table: [(&[&str], Answer); 3] = [
        (&NUMBERS, Ok(Words::Run(numbers))),
        (&["--mode", "gen", "--size", "8"], Ok(Words::Run(generated))),
        (&["--mode", "check"], Ok(Words::Run(checked))),
    ];
    expect_answers(&rt, rt.alloc(), &table)?;
    Ok(())
}

static REQUESTS: &[(&[&str], Answer)] = &[
    (&["--help"], Ok(Words::Help)),
    (&["-h"], Ok(Words::Help)),
    (&["--lanes", "3", "--help"], Ok(Words::Help)),
    (&["--version"], Ok(Words::Version)),
    (&["-V"], Ok(Words::Version)),
];

#[test]
fn requests_are_answered(rt: HostRuntime) -> Result<(), Fail> {
    expect_answers(&rt, rt.alloc(), REQUESTS)?;
    Ok(())
}

static REFUSED: &[&[&str]] = &[
    &["--mode", "fast"],
    &["--mode", ""],
    &["--mode", "fast", "--help"],
    &["--lanes", "0"],
    &["--lanes", "17"],
    &["--lanes", ""],
    &["--lanes"],
    &["--lane", "4"],
    &["--lanes=4", "--lanes=4"],
    &["--rounds", "1001"],
    &["--seed", "18446744073709551616"],
    &["--size", "0"],
    &["--size", "257"],
    &["sim"],
    &["--lanes", "x", "--help"],
];

#[test]
fn other_words_are_refused(rt: HostRuntime) -> Result<(), Fail> {
    for words in REFUSED {
        expect_answers(&rt, rt.alloc(), &[(*words, Err(WordsFault::Refused))])?;
    }
    Ok(())
}

#[test]
fn texts_end_with_a_line_feed(rt: HostRuntime) -> Result<(), Fail> {
    expect(&rt, &version(), &"fodderca 0.1.0\n");
    assert!(rt; usage().starts_with("fodderca runs"));
    assert!(rt; usage().ends_with("| fodderca\n"));
    Ok(())
}

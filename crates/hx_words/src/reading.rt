//! What words ask for.
ghost use Rattle.std.specs.Prelude.{◌≡◌, ◌≤◌, map, codes, IfOk};
ghost use Rattle.std.specs.String.{string_bytes};
ghost use Rattle.clap.specs.Matches.{found_of, first_value, one_text};
ghost use Rattle.clap.specs.Walk.{rows_of};
ghost use Rattle.hx_words.specs.CommandLine.{mode_names};
ghost use Rattle.hx_words.specs.Tasks.{number_in, mode_named, mode_in, HasRanges, MeetsRanges, task_of, answer_to, HoldsOfAsked, IsAnswer};

use crate::limits::{LANES, Limits, ROUNDS, SEED, SIZE};
use crate::options::command_line;
use crate::{RunMode, Task, Words, WordsFault};
use clap::ArgMatches;
use clap::builder::ValueParser;
use clap::error::ErrorKind;
use std::alloc::Global;

/// The mode that a text names.
fn mode_named(text: &str) -> Option<RunMode>
    ensures { result ≡ mode_named text.now }
{
    match text {
        "sim" => Some(RunMode::Sim),
        "gen" => Some(RunMode::Gen),
        "check" => Some(RunMode::Check),
        _ => None,
    }
}

/// The mode of the option, or the default.
fn mode_in(matches: &ArgMatches) -> RunMode
    ensures { result ≡ mode_in (first_value (found_of matches.now) (codes "mode")) }
{
    match matches.get_str("mode") {
        Some(text) => mode_named(text).unwrap_or(RunMode::Sim),
        None => RunMode::Sim,
    }
}

/// The number of an option, or its default.
fn number_in(matches: &ArgMatches, name: &str, limits: Limits) -> u64
    requires low { limits.least ≤ limits.default }
    requires high { limits.default ≤ limits.most }
    ensures value { result ≡ number_in limits.least limits.most limits.default (one_text (found_of matches.now) name.now) }
    ensures low { limits.least ≤ result }
    ensures high { result ≤ limits.most }
{
    match matches.get_one::<u64>(name) {
        Some(n) if limits.least <= n && n <= limits.most => n,
        _ => limits.default,
    }
}

/// The task of the options that were read.
fn task_of(matches: &ArgMatches) -> Task
    ensures value { result ≡ task_of (rows_of (found_of matches.now)) }
    ensures ranges { HasRanges result }
{
    let lanes = number_in(matches, "lanes", LANES) as u32;
    let rounds = number_in(matches, "rounds", ROUNDS) as u32;
    let seed = number_in(matches, "seed", SEED);
    let size = number_in(matches, "size", SIZE) as u32;
    Task {
        mode: mode_in(matches),
        lanes,
        rounds,
        seed,
        size,
    }
}

/// What words ask for where the command line stops at an error.
fn answer_to(kind: ErrorKind) -> Result<Words, WordsFault>
    ensures value { result ≡ answer_to kind }
    ensures ranges { IfOk result MeetsRanges }
{
    match kind {
        ErrorKind::DisplayHelp => Ok(Words::Help),
        ErrorKind::DisplayVersion => Ok(Words::Version),
        ErrorKind::OutOfMemory => Err(WordsFault::OutOfMemory),
        _ => Err(WordsFault::Refused),
    }
}

/// What words ask for, of a command with some modes.
fn read_words_with(alloc: Global, modes: &[&str], words: &[String]) -> Result<Words, WordsFault>
    requires { map (λ mode. mode.now) modes.now ≡ mode_names }
    ensures asked { HoldsOfAsked (map string_bytes words.now) (IsAnswer result) }
    ensures ranges { IfOk result MeetsRanges }
{
    let command = command_line(alloc, ValueParser::Names(modes))?;
    match command.try_get_matches_from(words) {
        Ok(matches) => Ok(Words::Run(task_of(&matches))),
        Err(error) => answer_to(error.kind()),
    }
}

/// What the words of a command line ask for. The first is the program's name.
///
/// Help and the version are asked for where a request for them stands before any fault. Words that
/// are refused may tell of want of memory in place of their fault.
pub fn read_words(alloc: Global, words: &[String]) -> Result<Words, WordsFault>
    ensures asked { HoldsOfAsked (map string_bytes words.now) (IsAnswer result) }
    ensures ranges { IfOk result MeetsRanges }
{
    read_words_with(alloc, &["sim", "gen", "check"], words)
}

//! The options of the command line.
ghost use Rattle.std.specs.Prelude.{◌≡◌, IfOk};
ghost use Rattle.clap.specs.Simple.{app_of};
ghost use Rattle.clap.specs.Walk.{rule_of};
ghost use Rattle.clap.specs.declared.builder.value_parser.ValueParser.{ValueParser};
ghost use Rattle.hx_words.specs.CommandLine.{option_rule, command_line};

use crate::limits::{LANES, Limits, ROUNDS, SEED, SIZE};
use clap::builder::ValueParser;
use clap::{Arg, ArgAction, Command};
use std::alloc::{AllocError, Global};

/// An option with a value.
fn value_option<'a>(alloc: Global, name: &'a str, parser: ValueParser<'a>) -> Arg<'a>
    ensures { rule_of result ≡ option_rule name.entry.now parser.entry }
{
    Arg::new(alloc, name)
        .long(name)
        .action(ArgAction::Set)
        .value_parser(parser)
}

/// An option with a number.
fn number_option<'a>(alloc: Global, name: &'a str, limits: Limits) -> Arg<'a>
    ensures { rule_of result
        ≡ option_rule name.entry.now (ValueParser.Unsigned limits.least limits.most) }
{
    let parser = ValueParser::Unsigned(limits.least, limits.most);
    value_option(alloc, name, parser)
}

/// The command with all options. The mode is one that a parser takes.
pub fn command_line<'a>(alloc: Global, modes: ValueParser<'a>) -> Result<Command<'a>, AllocError>
    ensures { IfOk result (λ c. app_of c ≡ command_line modes.entry) }
{
    Command::new(alloc, "fodderca")
        .version("0.1.0")
        .arg(value_option(alloc, "mode", modes))?
        .arg(number_option(alloc, "lanes", LANES))?
        .arg(number_option(alloc, "rounds", ROUNDS))?
        .arg(number_option(alloc, "seed", SEED))?
        .arg(number_option(alloc, "size", SIZE))
}

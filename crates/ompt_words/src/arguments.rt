//! The arguments of the commands, as clap is told of them. It is a table: one function an argument.

ghost use Rattle.std.specs.Prelude.{◌≡◌, false};
ghost use Rattle.clap.specs.Words.{rule_of};
ghost use Rattle.ompt_words.specs.CommandLine.{blocks_rule, columns_rule, flag_rule, history_rule, number_rule, profile_rule, serial_rule, steps_rule, threads_rule};

use clap::builder::ValueParser;
use clap::{Arg, ArgAction, value_parser};
use std::alloc::Global;

/// `--threads N`.
pub(crate) fn threads<'a>(alloc: Global) -> Arg<'a>
    ensures rule { rule_of result ≡ threads_rule }
    ensures local { result.global ≡ false }
{
    number(
        alloc,
        "threads",
        value_parser!(u8).range(1..=16),
        "How many threads there may be, from 1 to 16 [default: 4]",
    )
}

/// `--steps N`.
pub(crate) fn steps<'a>(alloc: Global) -> Arg<'a>
    ensures rule { rule_of result ≡ steps_rule }
    ensures local { result.global ≡ false }
{
    number(
        alloc,
        "steps",
        value_parser!(u32).range(1..=30_000_000),
        "How many steps without an event the run may have, from 1 to 30000000 [default: 1000000]",
    )
}

/// `--serial`.
pub(crate) fn serial<'a>(alloc: Global) -> Arg<'a>
    ensures rule { rule_of result ≡ serial_rule }
    ensures local { result.global ≡ false }
{
    flag(
        alloc,
        "serial",
        "Takes the turns of all threads one after another",
    )
}

/// `--history`.
pub(crate) fn history<'a>(alloc: Global) -> Arg<'a>
    ensures rule { rule_of result ≡ history_rule }
    ensures local { result.global ≡ false }
{
    flag(
        alloc,
        "history",
        "Writes the run's history, which others can check, in place of what it prints",
    )
}

/// `--profile`.
pub(crate) fn profile<'a>(alloc: Global) -> Arg<'a>
    ensures rule { rule_of result ≡ profile_rule }
    ensures local { result.global ≡ false }
{
    flag(
        alloc,
        "profile",
        "Also writes how many calls of each callback there were, behind what it prints",
    )
}

/// `--columns N`.
pub(crate) fn columns<'a>(alloc: Global) -> Arg<'a>
    ensures rule { rule_of result ≡ columns_rule }
    ensures local { result.global ≡ false }
{
    number(
        alloc,
        "columns",
        value_parser!(u8).range(10..=200),
        "How many columns the report has, from 10 to 200 [default: 72]",
    )
}

/// The number of blocks of a generated program.
pub(crate) fn blocks<'a>(alloc: Global) -> Arg<'a>
    ensures rule { rule_of result ≡ blocks_rule }
    ensures local { result.global ≡ false }
{
    Arg::new(alloc, "blocks")
        .value_name("BLOCKS")
        .required(true)
        .value_parser(value_parser!(u16).range(1..=400))
        .help("How many blocks the program has, from 1 to 400")
}

/// An option with a number, whose long name is its id.
fn number<'a>(alloc: Global, id: &'a str, values: ValueParser<'a>, help: &'a str) -> Arg<'a>
    ensures rule { rule_of result ≡ number_rule id.entry.now values.entry }
    ensures local { result.global ≡ false }
{
    Arg::new(alloc, id)
        .long(id)
        .value_name("N")
        .value_parser(values)
        .help(help)
}

/// An option without a number, whose long name is its id.
fn flag<'a>(alloc: Global, id: &'a str, help: &'a str) -> Arg<'a>
    ensures rule { rule_of result ≡ flag_rule id.entry.now }
    ensures local { result.global ≡ false }
{
    Arg::new(alloc, id)
        .long(id)
        .action(ArgAction::SetTrue)
        .help(help)
}

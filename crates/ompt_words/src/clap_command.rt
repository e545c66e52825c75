//! The command line, as clap is told of it. It is a table: each command has its name, what it does, and its help.

ghost use Rattle.std.specs.Prelude.{◌≡◌, IfOk, false};
ghost use Rattle.clap.specs.Simple.{App, Shape, new_shape, with_subcommand};
ghost use Rattle.clap.specs.Walk.{Rule};
ghost use Rattle.clap.specs.Words.{app_of, rule_of, shape_of};
ghost use Rattle.clap.specs.declared.builder.command.Command.TheViews.{out-Command};
ghost use Rattle.ompt_words.specs.CommandLine.{generator, ompt, program, reader, reporters, run_command, runner, runners, timeline, trace_readers, with_option};

use crate::arguments::{blocks, columns, history, profile, serial, steps, threads};
use crate::help;
use clap::{Arg, Command};
use std::alloc::{AllocError, Global};

/// The version that is shown.
const VERSION: &str = "0.1.0";

/// The whole command line.
pub(crate) fn ompt_command<'a>(alloc: Global) -> Result<Command<'a>, AllocError>
    ensures app { IfOk result (λ command. app_of command ≡ ompt) }
    ensures local { IfOk result (λ command. (out-Command command).has_globals ≡ false) }
{
    let line = with_reader(
        alloc,
        trace_readers(alloc),
        "rerun",
        "Reads a history and says whether it is a legal run that ends as it says",
        help::RERUN,
    );
    with_reader(
        alloc,
        line,
        "tasks",
        "Reads a trace that is nested and writes its task tree, its work and its span",
        help::TASKS,
    )
}

/// The program with all commands that run a program, and those that read a trace.
fn trace_readers<'a>(alloc: Global) -> Result<Command<'a>, AllocError>
    ensures app { IfOk result (λ command. app_of command ≡ trace_readers) }
    ensures local { IfOk result (λ command. (out-Command command).has_globals ≡ false) }
{
    let line = with_reader(
        alloc,
        reporters(alloc),
        "show",
        "Reads a trace and writes a line for each event, and one for the end",
        help::SHOW,
    );
    let line = with_reader(
        alloc,
        line,
        "migrate",
        "Reads a trace and writes it in the second version of the format",
        help::MIGRATE,
    );
    with_reader(
        alloc,
        line,
        "check",
        "Reads a trace and says whether it is nested",
        help::CHECK,
    )
}

/// The program with all commands that run a program.
fn reporters<'a>(alloc: Global) -> Result<Command<'a>, AllocError>
    ensures app { IfOk result (λ command. app_of command ≡ reporters) }
    ensures local { IfOk result (λ command. (out-Command command).has_globals ≡ false) }
{
    let line = with_runner(
        alloc,
        runners(alloc),
        "profile",
        "Runs a program and writes how many calls of each callback there were",
        help::PROFILE,
    );
    let line = with_command(line, timeline(alloc));
    with_command(line, generator(alloc))
}

/// The program with the first commands that run a program.
fn runners<'a>(alloc: Global) -> Result<Command<'a>, AllocError>
    ensures app { IfOk result (λ command. app_of command ≡ runners) }
    ensures local { IfOk result (λ command. (out-Command command).has_globals ≡ false) }
{
    let line = with_command(program(alloc), run_command(alloc));
    let line = with_runner(
        alloc,
        line,
        "list",
        "Runs a program and writes a line for each event",
        help::LIST,
    );
    with_runner(
        alloc,
        line,
        "record",
        "Runs a program and writes the trace of the run",
        help::RECORD,
    )
}

/// The command line with one more command that runs a program.
fn with_runner<'a>(
    alloc: Global,
    line: Result<Command<'a>, AllocError>,
    name: &'a str,
    about: &'a str,
    example: &'a str,
) -> Result<Command<'a>, AllocError>
    requires { IfOk line (λ command. (out-Command command).has_globals ≡ false) }
    ensures app { (app : App) → IfOk line.entry (λ command. app_of command ≡ app) →
        IfOk result (λ command. app_of command ≡ with_subcommand app (runner name.entry.now)) }
    ensures local { IfOk result (λ command. (out-Command command).has_globals ≡ false) }
{
    with_command(line, runner(alloc, name, about, example))
}

/// The command line with one more command that reads what a run has left.
fn with_reader<'a>(
    alloc: Global,
    line: Result<Command<'a>, AllocError>,
    name: &'a str,
    about: &'a str,
    example: &'a str,
) -> Result<Command<'a>, AllocError>
    requires { IfOk line (λ command. (out-Command command).has_globals ≡ false) }
    ensures app { (app : App) → IfOk line.entry (λ command. app_of command ≡ app) →
        IfOk result (λ command. app_of command ≡ with_subcommand app (reader name.entry.now)) }
    ensures local { IfOk result (λ command. (out-Command command).has_globals ≡ false) }
{
    with_command(line, Ok(bare(alloc, name, about, example)))
}

/// The command line with one more command, where there was memory for both.
fn with_command<'a>(
    line: Result<Command<'a>, AllocError>,
    command: Result<Command<'a>, AllocError>,
) -> Result<Command<'a>, AllocError>
    requires line { IfOk line (λ command. (out-Command command).has_globals ≡ false) }
    requires command { IfOk command (λ command. (out-Command command).has_globals ≡ false) }
    ensures app { (app : App) (shape : Shape) → IfOk line.entry (λ command. app_of command ≡ app) →
        IfOk command.entry (λ command. shape_of command ≡ shape) →
        IfOk result (λ command. app_of command ≡ with_subcommand app shape) }
    ensures local { IfOk result (λ command. (out-Command command).has_globals ≡ false) }
{
    let line = line?;
    let command = command?;
    line.subcommand(command)
}

/// The program itself, without its commands.
fn program<'a>(alloc: Global) -> Result<Command<'a>, AllocError>
    ensures app { IfOk result (λ command. app_of command ≡ program) }
    ensures local { IfOk result (λ command. (out-Command command).has_globals ≡ false) }
{
    Command::new(alloc, "ompt")
        .about("Runs OpenMP programs and tells tools of what happens")
        .version(VERSION)
        .propagate_version(true)
        .no_binary_name(true)
        .disable_help_subcommand(true)
        .subcommand_required(true)
        .after_help("The program, the trace or the history is read from standard input.")
        .bin_name("ompt")
}

/// A command that runs a program.
fn runner<'a>(
    alloc: Global,
    name: &'a str,
    about: &'a str,
    example: &'a str,
) -> Result<Command<'a>, AllocError>
    ensures shape { IfOk result (λ command. shape_of command ≡ runner name.entry.now) }
    ensures local { IfOk result (λ command. (out-Command command).has_globals ≡ false) }
{
    let command = Ok(bare(alloc, name, about, example));
    let command = with_option(command, threads(alloc));
    let command = with_option(command, steps(alloc));
    with_option(command, serial(alloc))
}

/// The command that runs a program with the tools: it may write the history of its run, or the counts of its events.
fn run_command<'a>(alloc: Global) -> Result<Command<'a>, AllocError>
    ensures shape { IfOk result (λ command. shape_of command ≡ run_command) }
    ensures local { IfOk result (λ command. (out-Command command).has_globals ≡ false) }
{
    let command = runner(
        alloc,
        "run",
        "Runs a program with the tools, and writes what it prints",
        help::RUN,
    );
    let command = with_option(command, history(alloc));
    with_option(command, profile(alloc))
}

/// The command that writes the states of threads: it has its columns, too.
fn timeline<'a>(alloc: Global) -> Result<Command<'a>, AllocError>
    ensures shape { IfOk result (λ command. shape_of command ≡ timeline) }
    ensures local { IfOk result (λ command. (out-Command command).has_globals ≡ false) }
{
    let command = runner(
        alloc,
        "timeline",
        "Runs a program and writes the states of its threads over the run",
        help::TIMELINE,
    );
    with_option(command, columns(alloc))
}

/// The command that generates a program: it reads none.
fn generator<'a>(alloc: Global) -> Result<Command<'a>, AllocError>
    ensures shape { IfOk result (λ command. shape_of command ≡ generator) }
    ensures local { IfOk result (λ command. (out-Command command).has_globals ≡ false) }
{
    let command = Ok(bare(
        alloc,
        "gen",
        "Generates a program, runs it serially, and writes a summary of the run",
        help::GEN,
    ));
    let command = with_option(command, blocks(alloc));
    with_option(command, threads(alloc))
}

/// A command with one more option, where there was memory for the command.
fn with_option<'a>(
    command: Result<Command<'a>, AllocError>,
    option: Arg<'a>,
) -> Result<Command<'a>, AllocError>
    requires command { IfOk command (λ command. (out-Command command).has_globals ≡ false) }
    requires option { option.global ≡ false }
    ensures shape { (shape : Shape) (rule : Rule) → IfOk command.entry (λ command. shape_of command ≡ shape) →
        rule_of option.entry ≡ rule → IfOk result (λ command. shape_of command ≡ with_option shape rule) }
    ensures local { IfOk result (λ command. (out-Command command).has_globals ≡ false) }
{
    let command = command?;
    command.arg(option)
}

/// A command without options. The commands that read what a run has left are such.
fn bare<'a>(alloc: Global, name: &'a str, about: &'a str, example: &'a str) -> Command<'a>
    ensures shape { shape_of result ≡ new_shape name.entry.now }
    ensures local { (out-Command result).has_globals ≡ false }
{
    Command::new(alloc, name).about(about).after_help(example)
}

//! Words, and what they ask for.

ghost use Rattle.std.specs.Prelude.{◌≡◌, ◌≤◌, ℕ, List, true, IfOk, IfSome, IsNone, IsErrAnd, MatchOption, MatchResult, String, codes, string_bytes, map};
ghost use Rattle.std.specs.declared.alloc.Global.{Global};
ghost use Rattle.clap.specs.Words.{found_of, one_text};
ghost use Rattle.ompt_words.specs.Answers.{AreReadAs, AreWrong, AskForText, HasFound, HoldBoth, IsTextOrMemory, IsUsageOrMemory, flag_in, number_in};
ghost use Rattle.ompt_words.specs.Form.{AskInForm, InForm, IsOutput, ReadInForm, default_columns, default_steps, default_threads, own_settings};

use crate::clap_command::ompt_command;
use crate::fault::{WordsFault, fault_of};
use crate::settings::{
    Command, DEFAULT_COLUMNS, DEFAULT_STEPS, DEFAULT_THREADS, ReadCommand, Request, RunOutput,
    Settings,
};
use clap::ArgMatches;
use std::alloc::Global;

/// What the words ask for. They don't contain the program's own name.
pub fn request_of(alloc: Global, words: &[String]) -> Result<Request, WordsFault>
    ensures read { IfOk result (AreReadAs (map string_bytes words.now)) }
    ensures usage { result ≡ Err WordsFault.Usage → AreWrong (map string_bytes words.now) }
    ensures shown { (text : String Global) → result ≡ Err (WordsFault.Shown text) →
        AskForText (map string_bytes words.now) }
    ensures exact { (request : Request) → AreReadAs (map string_bytes words.now) request →
        MatchResult result (λ given. given ≡ request) (λ fault. fault ≡ WordsFault.Memory) }
    ensures form { (form : InForm (map string_bytes words.now)) →
        MatchResult result (λ given. given ≡ Request.Run (own_settings form)) (λ fault. fault ≡ WordsFault.Memory) }
    ensures read_form { (command : ReadCommand) → ReadInForm (map string_bytes words.now) command →
        MatchResult result (λ given. given ≡ Request.Read command) (λ fault. fault ≡ WordsFault.Memory) }
    ensures asked { AskInForm (map string_bytes words.now) → IsErrAnd result IsTextOrMemory }
    ensures clash { HoldBoth (map string_bytes words.now) → IsErrAnd result IsUsageOrMemory }
{
    let matches = match ompt_command(alloc)?.try_get_matches_from(words) {
        Ok(matches) => matches,
        Err(error) => return Err(fault_of(alloc, &error)),
    };
    let Some((name, inner)) = matches.subcommand() else {
        return Err(WordsFault::Usage);
    };
    request_in(name, inner).ok_or(WordsFault::Usage)
}

/// What a command with these matches asks for. It may be `run` with two outputs, which asks for nothing.
fn request_in(name: &str, matches: &ArgMatches<'_>) -> Option<Request>
    ensures { (words : List (List ℕ)) → HasFound words name.now (found_of matches.now) →
        MatchOption result (HoldBoth words) (AreReadAs words) }
{
    Some(match name {
        "show" => Request::Read(ReadCommand::Show),
        "migrate" => Request::Read(ReadCommand::Migrate),
        "check" => Request::Read(ReadCommand::Check),
        "rerun" => Request::Read(ReadCommand::Rerun),
        "tasks" => Request::Read(ReadCommand::Tasks),
        "gen" => Request::Run(generator_settings(matches)),
        "run" => {
            let Some(output) = output_in(matches) else {
                return None;
            };
            Request::Run(settings_in(Command::Run(output), matches))
        }
        "record" => Request::Run(settings_in(Command::Record, matches)),
        "profile" => Request::Run(settings_in(Command::Profile, matches)),
        "timeline" => Request::Run(settings_in(Command::Timeline(columns_in(matches)), matches)),
        _ => Request::Run(settings_in(Command::List, matches)),
    })
}

/// The settings of a command that generates its program, in its matches.
fn generator_settings(matches: &ArgMatches<'_>) -> Settings
    ensures command { result.command ≡
        Command.Generate (number_in 1 400 1 (one_text (found_of matches.now) (codes "blocks"))) }
    ensures threads { result.threads ≡
        number_in 1 16 default_threads (one_text (found_of matches.now) (codes "threads")) }
    ensures steps { result.steps ≡ default_steps }
    ensures serial { result.serial ≡ true }
    ensures some { 1 ≤ result.threads }
    ensures few { result.threads ≤ 16 }
{
    Settings {
        command: Command::Generate(blocks_in(matches)),
        threads: threads_in(matches),
        steps: DEFAULT_STEPS,
        serial: true,
    }
}

/// The settings of a command that runs a program which it reads, in its matches.
fn settings_in(command: Command, matches: &ArgMatches<'_>) -> Settings
    ensures command { result.command ≡ command }
    ensures threads { result.threads ≡
        number_in 1 16 default_threads (one_text (found_of matches.now) (codes "threads")) }
    ensures steps { result.steps ≡ number_in 1 30000000 default_steps
        (one_text (found_of matches.now) (codes "steps")) }
    ensures serial { result.serial ≡ flag_in (one_text (found_of matches.now) (codes "serial")) }
    ensures some { 1 ≤ result.threads }
    ensures few { result.threads ≤ 16 }
    ensures some_steps { 1 ≤ result.steps }
    ensures few_steps { result.steps ≤ 30000000 }
{
    Settings {
        command,
        threads: threads_in(matches),
        steps: steps_in(matches),
        serial: has_flag(matches, "serial"),
    }
}

/// How many threads the matches of a command have.
fn threads_in(matches: &ArgMatches<'_>) -> u8
    ensures value { result ≡ number_in 1 16 default_threads (one_text (found_of matches.now) (codes "threads")) }
    ensures some { 1 ≤ result }
    ensures few { result ≤ 16 }
{
    match matches.get_one::<u8>("threads") {
        Some(threads) if 1 <= threads && threads <= 16 => threads,
        _ => DEFAULT_THREADS,
    }
}

/// How many silent steps the matches of a command have.
fn steps_in(matches: &ArgMatches<'_>) -> u32
    ensures value { result ≡ number_in 1 30000000 default_steps (one_text (found_of matches.now) (codes "steps")) }
    ensures some { 1 ≤ result }
    ensures few { result ≤ 30000000 }
{
    match matches.get_one::<u32>("steps") {
        Some(steps) if 1 <= steps && steps <= 30_000_000 => steps,
        _ => DEFAULT_STEPS,
    }
}

/// How many columns the matches of a command have.
fn columns_in(matches: &ArgMatches<'_>) -> u8
    ensures { result ≡ number_in 10 200 default_columns (one_text (found_of matches.now) (codes "columns")) }
{
    match matches.get_one::<u8>("columns") {
        Some(columns) if 10 <= columns && columns <= 200 => columns,
        _ => DEFAULT_COLUMNS,
    }
}

/// How many blocks the matches of a command have.
fn blocks_in(matches: &ArgMatches<'_>) -> u16
    ensures { result ≡ number_in 1 400 1 (one_text (found_of matches.now) (codes "blocks")) }
{
    match matches.get_one::<u16>("blocks") {
        Some(blocks) if 1 <= blocks && blocks <= 400 => blocks,
        _ => 1,
    }
}

/// What the matches of `run` say that it writes. A run has one output, so both flags together say none.
fn output_in(matches: &ArgMatches<'_>) -> Option<RunOutput>
    ensures output { IfSome result (λ output.
        IsOutput output (flag_in (one_text (found_of matches.now) (codes "history")))
        (flag_in (one_text (found_of matches.now) (codes "profile")))) }
    ensures history { IsNone result → flag_in (one_text (found_of matches.now) (codes "history")) ≡ true }
    ensures profile { IsNone result → flag_in (one_text (found_of matches.now) (codes "profile")) ≡ true }
{
    match (has_flag(matches, "history"), has_flag(matches, "profile")) {
        (false, false) => Some(RunOutput::Printed),
        (true, false) => Some(RunOutput::History),
        (false, true) => Some(RunOutput::Profile),
        (true, true) => None,
    }
}

/// Whether the matches of a command have the flag with this id.
fn has_flag(matches: &ArgMatches<'_>, id: &str) -> bool
    ensures { result ≡ flag_in (one_text (found_of matches.now) id.now) }
{
    matches.get_one::<bool>(id).unwrap_or(false)
}

//! What words ask for.

use ompt_words::{Command, ReadCommand, Request, RunOutput, Settings, WordsFault, request_of};
use std::alloc::{AllocError, Global};

/// What is asked for where only the command and `--serial` are said.
const RUN: Settings = Settings {
    command: Command::Run(RunOutput::Printed),
    threads: 4,
    steps: 1_000_000,
    serial: true,
};

/// Words, and what they ask for.
const REQUESTS: &[(&str, Request)] = &[
    ("run --serial", Request::Run(RUN)),
    (
        "run",
        Request::Run(Settings {
            serial: false,
            ..RUN
        }),
    ),
    (
        "list --steps 1 --threads 16 --serial",
        Request::Run(Settings {
            command: Command::List,
            threads: 16,
            steps: 1,
            ..RUN
        }),
    ),
    (
        "run --serial --threads 1 --steps 30000000",
        Request::Run(Settings {
            threads: 1,
            steps: 30_000_000,
            ..RUN
        }),
    ),
    ("run --threads=04 --serial", Request::Run(RUN)),
    (
        "run --history",
        Request::Run(Settings {
            command: Command::Run(RunOutput::History),
            serial: false,
            ..RUN
        }),
    ),
    (
        "run --history --serial --threads 3",
        Request::Run(Settings {
            command: Command::Run(RunOutput::History),
            threads: 3,
            ..RUN
        }),
    ),
    (
        "run --serial --profile",
        Request::Run(Settings {
            command: Command::Run(RunOutput::Profile),
            ..RUN
        }),
    ),
    (
        "record --threads 2 --serial",
        Request::Run(Settings {
            command: Command::Record,
            threads: 2,
            ..RUN
        }),
    ),
    (
        "profile --threads 2",
        Request::Run(Settings {
            command: Command::Profile,
            threads: 2,
            serial: false,
            ..RUN
        }),
    ),
    (
        "timeline --serial",
        Request::Run(Settings {
            command: Command::Timeline(72),
            ..RUN
        }),
    ),
    (
        "timeline --columns 10 --steps 2 --serial",
        Request::Run(Settings {
            command: Command::Timeline(10),
            steps: 2,
            ..RUN
        }),
    ),
    (
        "timeline --serial --columns=200",
        Request::Run(Settings {
            command: Command::Timeline(200),
            ..RUN
        }),
    ),
    (
        "gen 1",
        Request::Run(Settings {
            command: Command::Generate(1),
            ..RUN
        }),
    ),
    (
        "gen 400 --threads 16",
        Request::Run(Settings {
            command: Command::Generate(400),
            threads: 16,
            ..RUN
        }),
    ),
    (
        "gen --threads 16 +04",
        Request::Run(Settings {
            command: Command::Generate(4),
            threads: 16,
            ..RUN
        }),
    ),
    ("show", Request::Read(ReadCommand::Show)),
    ("migrate", Request::Read(ReadCommand::Migrate)),
    ("check", Request::Read(ReadCommand::Check)),
    ("rerun", Request::Read(ReadCommand::Rerun)),
    ("tasks", Request::Read(ReadCommand::Tasks)),
];

/// Words that are refused.
const WRONG: &[&str] = &[
    "",
    "--serial run",
    "help",
    "runs",
    "run run",
    "run --serial --serial",
    "run --threads 2 --threads 2",
    "run --threads 0",
    "run --threads 17",
    "run --threads two",
    "run --threads",
    "run --steps 0",
    "run --steps 30000001",
    "run --step 2",
    "run --history --history",
    "run --history run.history",
    "run --history --profile",
    "run --profile --threads 2 --history",
    "run --profile --profile",
    "list --profile",
    "gen 5 --profile",
    "list --history",
    "timeline --history",
    "gen 5 --history",
    "record --threads 0",
    "show --serial",
    "show --threads 2",
    "show run.trace",
    "show migrate",
    "migrate --steps 2",
    "check run.trace",
    "check --serial",
    "rerun --serial",
    "rerun --history",
    "rerun run.history",
    "tasks run.trace",
    "tasks --serial",
    "tasks --profile",
    "profile --columns 20",
    "profile 4",
    "timeline --columns 9",
    "timeline --columns 201",
    "timeline --columns 10 --columns 10",
    "timeline 10",
    "list --columns 20",
    "gen",
    "gen 0",
    "gen 401",
    "gen four",
    "gen 4 5",
    "gen 5 --serial",
    "gen 5 --steps 3",
    "gen 5 --columns 10",
    "gen 5 --threads 17",
];

/// Words that ask for a text, and its first line.
const SHOWN: &[(&str, &str)] = &[
    ("--version", "ompt 0.1.0"),
    ("list -V --threads 0", "ompt-list 0.1.0"),
    (
        "--help",
        "Runs OpenMP programs and tells tools of what happens",
    ),
    (
        "run --threads 2 -h",
        "Runs a program with the tools, and writes what it prints",
    ),
    (
        "run --history --help",
        "Runs a program with the tools, and writes what it prints",
    ),
    (
        "record --help",
        "Runs a program and writes the trace of the run",
    ),
    (
        "show --help",
        "Reads a trace and writes a line for each event, and one for the end",
    ),
    (
        "migrate -h",
        "Reads a trace and writes it in the second version of the format",
    ),
    ("migrate --version", "ompt-migrate 0.1.0"),
    (
        "check --help",
        "Reads a trace and says whether it is nested",
    ),
    (
        "rerun --help",
        "Reads a history and says whether it is a legal run that ends as it says",
    ),
    ("rerun -V", "ompt-rerun 0.1.0"),
    (
        "tasks --help",
        "Reads a trace that is nested and writes its task tree, its work and its span",
    ),
    ("tasks -V", "ompt-tasks 0.1.0"),
    (
        "profile --help",
        "Runs a program and writes how many calls of each callback there were",
    ),
    (
        "timeline --columns 10 -h",
        "Runs a program and writes the states of its threads over the run",
    ),
    (
        "gen --help",
        "Generates a program, runs it serially, and writes a summary of the run",
    ),
    ("gen 4 --version", "ompt-gen 0.1.0"),
];

#[test]
fn words_give_requests(rt: HostRuntime) {
    for (words, request) in REQUESTS {
        assert!(rt; give(rt.alloc(), words, request), "{words}");
    }
}

/// Whether the words ask for this.
fn give(alloc: Global, words: &str, request: &Request) -> bool {
    match asked(alloc, words) {
        Ok(given) => given == *request,
        Err(_) => false,
    }
}

#[test]
fn other_words_are_refused(rt: HostRuntime) {
    for words in WRONG {
        assert!(rt; are_refused(rt.alloc(), words), "{words}");
    }
}

/// Whether the words are refused.
fn are_refused(alloc: Global, words: &str) -> bool {
    matches!(asked(alloc, words), Err(WordsFault::Usage))
}

#[test]
fn a_text_is_shown(rt: HostRuntime) {
    for (words, line) in SHOWN {
        assert!(rt; show(rt.alloc(), words, line), "{words}");
    }
}

/// Whether the words ask for a text with this first line.
fn show(alloc: Global, words: &str, line: &str) -> bool {
    match asked(alloc, words) {
        Err(WordsFault::Shown(text)) => has_first_line(&text, line),
        _ => false,
    }
}

/// Whether this is the first line of the text.
fn has_first_line(text: &str, line: &str) -> bool {
    text.lines().next() == Some(line)
}

/// What the words of this text ask for.
fn asked(alloc: Global, text: &str) -> Result<Request, WordsFault> {
    let words = words_of(alloc, text)?;
    request_of(alloc, &words)
}

/// The words of this text.
fn words_of(alloc: Global, text: &str) -> Result<Vec<String>, AllocError> {
    let mut words = Vec::new(alloc);
    for word in text.split_ascii_whitespace() {
        words.push(String::from_str(alloc, word)?)?;
    }
    Ok(words)
}

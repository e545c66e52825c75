//! What `--help` of a command says behind its options: what its statuses and its numbers mean, and an example.
//!
//! The pages `docs/command-line.md`, `docs/traces.md`, `docs/checking.md` and `docs/certificates.md` have the same tables, with more on
//! each line. Who changes a line changes both.

/// What the commands say that run a program which they read, with this example.
macro_rules! help_of_running {
    ($example:literal) => {
        concat!(
            "Statuses, with the line on standard error:\n",
            "   0  the run is whole, and main returned 0\n",
            "   1  main returned another number: returned VALUE\n",
            "   2  the words are wrong: usage\n",
            "   3  the text is no program, or breaks a rule: refused NUMBER at LINE:COLUMN\n",
            "   4  the program did something wrong: trapped NUMBER\n",
            "   5  no thread can go on: deadlock\n",
            "   6  the run met a limit: limit NAME\n",
            "   8  a read failed: read fault\n",
            "   9  a write failed: write fault\n",
            "  10  there was no memory: memory\n",
            "\n",
            "Refusals of a text:\n",
            "   1  a byte that begins no token, or may not stand where it stands\n",
            "   2  a comment without an end\n",
            "   3  digits that are no number\n",
            "   4  a token with which no program goes on\n",
            "   5  a word that should be a directive, and is none\n",
            "   6  a part of C or of OpenMP that is out of the language\n",
            "   7  a token that makes the program too deep\n",
            "   8  a name is used that nothing in scope declares\n",
            "   9  a name is declared twice in a scope\n",
            "  10  something isn't used as what it is\n",
            "  11  a directive or a return stands inside a construct where it may not\n",
            "  12  the loop under a directive can't be shared out\n",
            "  13  there is no function main\n",
            "  14  under default(none) a variable isn't listed\n",
            "  15  the text has more than 65,536 bytes\n",
            "\n",
            "Traps:\n",
            "   1  a result isn't an int\n",
            "   2  something was divided by 0\n",
            "   3  an index isn't one of its array\n",
            "   4  members of a team met different constructs or barriers\n",
            "   5  fewer than one thread was asked for\n",
            "   6  a construct or barrier was met inside a construct in which it may not be\n",
            "   7  a lock was used that isn't initialised\n",
            "   8  a lock was given back by a task that doesn't own it\n",
            "   9  a lock was destroyed that a task owns\n",
            "  10  a lock was initialised that was so already\n",
            "\n",
            "Limits:\n",
            "  steps  more silent steps of the run than --steps says\n",
            "  turns  more turns than 524,287\n",
            "  cells  more cells than 1,048,576\n",
            "  tasks  more tasks than 65,535\n",
            "  stack  more tasks on a thread's stack than 256\n",
            "  depth  more calls open in a task than 64\n",
            "  text   more printed bytes than 1,048,576\n",
            "\n",
            $example
        )
    };
}

/// What the commands say that read a trace, with these lines among the statuses, these behind the refusals, and this example.
macro_rules! help_of_reading {
    ([$($status:literal),*], [$($line:literal),*], $example:literal) => {
        concat!(
            "Statuses, with the line on standard error:\n",
            "   0  the input was read to its end, and what was asked of it was written\n",
            "   2  the words are wrong: usage\n",
            "   7  the input is no trace: trace refused REASON at OFFSET\n",
            $($status,)*
            "   8  a read failed: read fault\n",
            "   9  a write failed: write fault\n",
            "  10  there was no memory: memory\n",
            "\n",
            "Refusals of a trace:\n",
            "   1  the magic isn't OMPT\n",
            "   2  the version is neither 1 nor 2\n",
            "   3  the threads, the origin or the mask can't be\n",
            "   4  an item begins with a number that is neither 0 nor that of a callback of the profile\n",
            "   5  another field has a value that it can't have\n",
            "   6  a sequence number isn't greater than the one before\n",
            "   7  an event's callback isn't in the mask\n",
            "   8  a byte stands behind the end mark\n",
            "   9  the bytes end before the end mark does\n",
            "  10  the count isn't the number of events\n",
            "\n",
            $($line,)*
            $example
        )
    };
}

/// What the commands say that read a trace and write it in another form, with this example.
macro_rules! help_of_copying {
    ($example:literal) => {
        help_of_reading!([], [], $example)
    };
}

/// What the commands say that ask whether a trace is nested, with this example.
macro_rules! help_of_checking {
    ($example:literal) => {
        help_of_reading!(
            ["   7  the trace breaks a rule: breach RULE at SEQUENCE\n"],
            [
                "Rules that a trace may break:\n",
                "   1  the mask is the whole one\n",
                "   2  a thread's events go from its thread_begin to its thread_end\n",
                "   3  a thread begins as what it is\n",
                "   4  a region is new, and begun by the current task\n",
                "   5  implicit tasks are the initial one, or one for each index of a team\n",
                "   6  what begins on a thread ends there, as brackets do\n",
                "   7  a region ends after its team\n",
                "   8  who acquires something has asked for it directly before\n",
                "   9  nothing is held by two\n",
                "  10  a created task is new, and created by the current task\n",
                "  11  a task starts once, after it was created\n",
                "  12  a wait ends after what it waits for\n",
                "  13  where main returned, all is over at the end\n",
                "  14  a chunk is in its loop, and a section in its sections\n",
                "\n"
            ],
            $example
        )
    };
}

/// Of `run`.
pub(crate) const RUN: &str = help_of_running!(
    "Example: ompt run --serial --threads 2 --steps 5000 < program.c"
);

/// Of `list`.
pub(crate) const LIST: &str = help_of_running!(
    "Example: ompt list --serial --threads 2 < program.c"
);

/// Of `record`.
pub(crate) const RECORD: &str = help_of_running!(
    "Example: ompt record --threads 2 < program.c > run.trace"
);

/// Of `profile`.
pub(crate) const PROFILE: &str = help_of_running!("Example: ompt profile --threads 2 < program.c");

/// Of `timeline`.
pub(crate) const TIMELINE: &str = help_of_running!(
    "Example: ompt timeline --threads 2 --columns 100 < program.c"
);

/// Of `show`.
pub(crate) const SHOW: &str = help_of_copying!("Example: ompt show < run.trace");

/// Of `migrate`.
pub(crate) const MIGRATE: &str = help_of_copying!("Example: ompt migrate < old.trace > new.trace");

/// Of `check`.
pub(crate) const CHECK: &str = help_of_checking!("Example: ompt check < run.trace");

/// Of `tasks`.
pub(crate) const TASKS: &str = help_of_checking!("Example: ompt tasks < run.trace");

/// Of `rerun`.
pub(crate) const RERUN: &str = concat!(
    "Statuses, with the line on standard error:\n",
    "   0  the input was read to its end, and what was asked of it was written\n",
    "   2  the words are wrong: usage\n",
    "   3  the text in the file is no program, or breaks a rule: refused NUMBER at LINE:COLUMN\n",
    "   7  the input is no history file: history refused REASON at OFFSET\n",
    "   7  its history is no legal run that ends as it says: illegal at PLACE\n",
    "   8  a read failed: read fault\n",
    "   9  a write failed: write fault\n",
    "  10  there was no memory: memory\n",
    "\n",
    "Refusals of a history file:\n",
    "   1  the magic isn't OMHF\n",
    "   2  the version isn't 1\n",
    "   3  the threads, the mask, the steps or the length can't be\n",
    "   4  a kind is greater than 3, or it isn't 0 behind 2,621,440 entries\n",
    "   5  a thread, a target kind, an identity, the status or the detail can't be\n",
    "   6  a byte stands behind the end\n",
    "   7  the bytes end before the file does\n",
    "   8  the count isn't the number of entries\n",
    "   9  there are more than 39,387,169 bytes\n",
    "\n",
    "ompt run --help says what the numbers of refusals of a text mean.\n",
    "\n",
    "Example: ompt rerun < run.history"
);

/// Of `gen`.
pub(crate) const GEN: &str = concat!(
    "Statuses, with the line on standard error:\n",
    "   0  the run is whole, and main returned 0\n",
    "   1  main returned another number: returned VALUE\n",
    "   2  the words are wrong: usage\n",
    "   4  the program did something wrong: trapped NUMBER\n",
    "   5  no thread can go on: deadlock\n",
    "   6  the run met a limit: limit NAME\n",
    "   9  a write failed: write fault\n",
    "  10  there was no memory: memory\n",
    "\n",
    "ompt run --help says what the numbers of traps and limits mean.\n",
    "\n",
    "Example: ompt gen 40 --threads 2"
);

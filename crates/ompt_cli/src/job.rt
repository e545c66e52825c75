//! What is to run.

ghost use Rattle.std.specs.Prelude.{◌≤◌, length};

use c_check::Program;
use ompt_words::Settings;
use std::alloc::Global;

/// A program, with the text that spells it.
#[derive(Drop)]
pub(crate) struct LoadedProgram {
    /// The program.
    pub program: Program,
    /// Its text, at most 65,536 bytes.
    pub text: Vec<u8>,
}

/// What is to run: a program with its text, and its settings, with 1 to 16 threads and 1 to 30,000,000 silent steps.
#[derive(Drop)]
pub(crate) struct Job {
    /// The program, and its text.
    pub loaded: LoadedProgram,
    /// How it is to run.
    pub settings: Settings,
    /// Where it takes its memory.
    pub alloc: Global,
    ghost some: { 1 ≤ settings.threads },
    ghost few: { settings.threads ≤ 16 },
    ghost steps: { 1 ≤ settings.steps },
    ghost bounded: { settings.steps ≤ 30000000 },
    ghost short: { length loaded.text.items ≤ 65536 },
}

//! What is reported of the commands that write reports.

use crate::fixture::*;
use crate::listening::ACTIVE;
use crate::runs::heard;
use omp_codes::PROFILE_MASK;
use omp_model::Cause;
use ompt_cli::Command;
use run_edges::Memory;
use std::process::Abort;
use std::sync::Wait;
use std::test::Fail;
use std::thread::Threads;

/// Each generated program runs to its end, with the callbacks of the profile. Its report has the settings of the words.
#[test]
fn generated_programs_run(rt: HostRuntime) -> Result<(), Fail> {
    for (number, blocks) in [("1", 1), ("4", 4), ("40", 40)] {
        is_generated(&rt, number, blocks)?;
    }
    Ok(())
}

/// The program with so many blocks runs.
fn is_generated<R: AllocGlobal + Threads + Wait + Sync + Abort>(
    rt: &R,
    number: &str,
    blocks: u16,
) -> Result<(), Memory> {
    let told = tell_text(rt, &["gen", number, "--threads", "3"], b"")?;
    has_settings(rt, &told, blocks);
    Ok(())
}

/// The program with so many blocks ran with the callbacks of the profile, and with the settings of the words.
fn has_settings(rt: &impl Abort, told: &Told, blocks: u16) {
    assert!(rt; told.is_done());
    let ran = ran_in(rt, told);
    assert!(rt; ran.command == Command::Generate(blocks));
    assert!(rt; ran.cause == Cause::Done);
    assert!(rt; ran.mask == PROFILE_MASK);
    assert!(rt; ran.threads == 3);
    assert!(rt; ran.steps == 1_000_000);
}

/// Words of commands that write reports, and the commands.
const REPORTS: [(&[&str], Command); 3] = [
    (&["profile", "--serial", "--threads", "2"], Command::Profile),
    (
        &["timeline", "--columns", "20", "--threads", "2"],
        Command::Timeline(20),
    ),
    (
        &["timeline", "--serial", "--threads", "2"],
        Command::Timeline(72),
    ),
];

/// The guests are neither started nor called where a report is written.
#[test]
fn reports_leave_guests_alone(rt: HostRuntime) -> Result<(), Fail> {
    for (words, command) in REPORTS {
        leaves_a_guest_alone(&rt, words, command)?;
    }
    Ok(())
}

/// The command with these words leaves its guest alone.
fn leaves_a_guest_alone<R: AllocGlobal + Threads + Wait + Sync + Abort>(
    rt: &R,
    words: &[&str],
    command: Command,
) -> Result<(), Memory> {
    let told = tell_guest(rt, words, REGION_OF_TWO, ACTIVE, &[])?;
    has_left_alone(rt, &told, command);
    Ok(())
}

/// The command ran with the callbacks of the profile, and left its guest alone.
fn has_left_alone(rt: &impl Abort, told: &Told, command: Command) {
    assert!(rt; told.is_done());
    let ran = ran_in(rt, told);
    assert!(rt; ran.command == command);
    assert!(rt; ran.mask == PROFILE_MASK);
    heard(rt, ran, &[[0, 0, 0]]);
}

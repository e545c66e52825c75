//! The texts that run.

ghost use Rattle.std.specs.Prelude.{ℕ, ◌≡◌, ◌≢◌, ◌≤◌, IfOk, IfErr, Some, length};
ghost use Rattle.ompt_cli.specs.{Names.Rose, Text.EndsFor, Text.IsLoaded, Text.Spells, Text.text_for};

use crate::end::{End, Refusal};
use crate::job::LoadedProgram;
use c_check::{CheckFault, Program, check};
use c_syntax::{SyntaxFault, read_program};
use c_tokens::{TokenFault, tokens};
use ompt_words::Command;
use run_edges::{ReadAllFault, Source, read_all};
use std::alloc::Global;
use tool_report::generated_text;

/// The length in bytes of the longest text that is read.
const TEXT_LIMIT: u32 = 65_536;

/// The program that the command runs, with its text. For `gen` it is the generated one, and nothing is read. For all others it is the one that
/// the source has left.
pub(crate) fn program_for<S: Source>(
    alloc: Global,
    command: Command,
    source: &mut S,
) -> Result<LoadedProgram, End>
    ensures loaded { IfOk result (IsLoaded (text_for command (S.left source.old))) }
    ensures ended { IfErr result (EndsFor (text_for command (S.left source.old))) }
    ensures read { result ≡ Err End.ReadFault → Rose (S.faults source.old) (S.faults source.new) }
    ensures steady { result ≢ Err End.ReadFault → S.faults source.new ≡ S.faults source.old }
    ensures unread { (blocks : ℕ) → command ≡ Command.Generate blocks → source.new ≡ source.old }
{
    match command {
        Command::Generate(blocks) => match generated_text(alloc, blocks) {
            Ok(made) => load(alloc, made),
            Err(_) => Err(End::Memory),
        },
        _ => read_program_of(alloc, source),
    }
}

/// Reads the text to its end. It spells the program, or the command ends for want of a program that runs.
fn read_program_of<S: Source>(alloc: Global, source: &mut S) -> Result<LoadedProgram, End>
    ensures loaded { IfOk result (IsLoaded (S.left source.old)) }
    ensures ended { IfErr result (EndsFor (S.left source.old)) }
    ensures read { result ≡ Err End.ReadFault → Rose (S.faults source.old) (S.faults source.new) }
    ensures steady { result ≢ Err End.ReadFault → S.faults source.new ≡ S.faults source.old }
{
    match read_all(alloc, source, TEXT_LIMIT) {
        Ok(text) => load(alloc, text),
        Err(ReadAllFault::TooLong) => Err(End::Refused(Refusal::TooLong)),
        Err(ReadAllFault::ReadFault) => Err(End::ReadFault),
        Err(ReadAllFault::Memory) => Err(End::Memory),
    }
}

/// The program that the text spells, with the text.
fn load(alloc: Global, text: Vec<u8>) -> Result<LoadedProgram, End>
    ensures loaded { IfOk result (IsLoaded (Some text.items)) }
    ensures ended { IfErr result (EndsFor (Some text.items)) }
    ensures read { result ≢ Err End.ReadFault }
{
    if text.len() > TEXT_LIMIT as usize {
        return Err(End::Refused(Refusal::TooLong));
    }
    let program = program_of(alloc, &text)?;
    Ok(LoadedProgram { program, text })
}

/// The program that the text spells. The tokens are tried first, then the grammar, and then the rules.
pub(crate) fn program_of(alloc: Global, text: &[u8]) -> Result<Program, End>
    requires { length text.now ≤ 65536 }
    ensures program { IfOk result (Spells text.now) }
    ensures ended { IfErr result (EndsFor (Some text.now)) }
    ensures read { result ≢ Err End.ReadFault }
{
    let tokens = match tokens(alloc, text) {
        Ok(tokens) => tokens,
        Err(fault) => match fault {
            TokenFault::Memory => return Err(End::Memory),
            _ => return Err(End::Refused(Refusal::Tokens(fault))),
        },
    };
    let tree = match read_program(alloc, text, &tokens) {
        Ok(tree) => tree,
        Err(fault) => match fault {
            SyntaxFault::Memory => return Err(End::Memory),
            _ => return Err(End::Refused(Refusal::Syntax(fault))),
        },
    };
    match check(alloc, tree) {
        Ok(program) => Ok(program),
        Err(fault) => match fault {
            CheckFault::Memory => Err(End::Memory),
            _ => Err(End::Refused(Refusal::Rule(fault))),
        },
    }
}

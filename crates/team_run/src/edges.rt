//! The start and the end of the first part.

ghost use Rattle.std.specs.Prelude.{◌≡◌, ◌<◌, length};
ghost use Rattle.team_run.specs.Names.{Record, initialized, AreAlways, mask_of};
ghost use Rattle.team_run.specs.Serving.{ChangesFirst, finished_by};

use tool_api::{Registrar, ToolPart};

/// What came of the start of the first part.
#[derive(Clone, Copy)]
pub struct Start {
    /// What it answered: 0 is inactive.
    pub answer: u32,
    /// The callbacks that it registered: bit n for number n.
    pub registered: u64,
    /// What is heard of the run: what it registered, where it is active.
    pub mask: u64,
}

/// Starts the first part.
pub fn initialize_first<P: ToolPart>(parts: &mut [P]) -> Start
    requires { 0 < length parts.old }
    ensures always { AreAlways result.registered }
    ensures mask { result.mask ≡ mask_of result.answer result.registered }
    ensures mask_always { AreAlways result.mask }
    ensures first { ChangesFirst P.stands_for P.same
        (λ (h : Record). initialized h result.answer result.registered) parts.old parts.new }
{
    let mut registrar = Registrar::new();
    let answer = parts[0].initialize(&mut registrar);
    let registered = registrar.mask();
    Start {
        answer,
        registered,
        mask: heard_mask(answer, registered),
    }
}

/// What is heard of a run whose first part answered this, and registered these.
fn heard_mask(answer: u32, registered: u64) -> u64
    requires { AreAlways registered }
    ensures mask { result ≡ mask_of answer registered }
    ensures always { AreAlways result }
{
    if answer == 0 { 0 } else { registered }
}

/// Finishes the first part, where it is active.
pub fn finalize_first<P: ToolPart>(start: Start, parts: &mut [P])
    requires { 0 < length parts.old }
    ensures { ChangesFirst P.stands_for P.same (finished_by start.answer) parts.old parts.new }
{
    if start.answer == 0 {
        return;
    }
    parts[0].finalize();
}

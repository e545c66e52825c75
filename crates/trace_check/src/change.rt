//! What an event does to the brackets of its thread.

ghost use Rattle.std.specs.Prelude.{◌≡◌};
ghost use Rattle.trace_check.specs.Brackets.{at_endpoint, at_status, change_of, is_match};
ghost use Rattle.trace_check.specs.Before.{is_begin, is_end};

use crate::bracket::Bracket;
use omp_codes::endpoints::{BEGIN, END};
use omp_codes::task_statuses::{COMPLETE, SWITCH};
use ompt_calls::Call;

/// What an event does to the brackets of its thread.
#[derive(Clone, Copy)]
pub enum Change {
    /// It opens this bracket.
    Opens(Bracket),
    /// It is the end of this bracket.
    Closes(Bracket),
    /// It leaves the brackets as they are.
    Stays,
}

/// What an event with this callback does to the brackets of its thread.
pub fn change_of(call: &Call) -> Change
    ensures { result ≡ change_of call.now }
{
    match call {
        Call::ParallelBegin { region, .. } => Change::Opens(Bracket::Parallel(region.identity)),
        Call::ParallelEnd { region, .. } => Change::Closes(Bracket::Parallel(region.identity)),
        Call::TaskSchedule {
            prior,
            status,
            next,
        } => at_status(*status, prior.identity, next.identity),
        Call::ImplicitTask { endpoint, task, .. } => {
            at_endpoint(*endpoint, Bracket::Implicit(task.identity))
        }
        Call::SyncRegionWait {
            kind,
            endpoint,
            task,
            ..
        } => at_endpoint(*endpoint, Bracket::Waiting(task.identity, *kind)),
        Call::Work {
            kind,
            endpoint,
            region,
            task,
            count,
            ..
        } => at_endpoint(
            *endpoint,
            Bracket::Worksharing(region.identity, task.identity, *kind, *count),
        ),
        Call::Masked { endpoint, task, .. } => {
            at_endpoint(*endpoint, Bracket::Masking(task.identity))
        }
        Call::SyncRegion {
            kind,
            endpoint,
            task,
            ..
        } => at_endpoint(*endpoint, Bracket::Syncing(task.identity, *kind)),
        _ => Change::Stays,
    }
}

fn at_endpoint(endpoint: u32, bracket: Bracket) -> Change
    ensures { result ≡ at_endpoint endpoint bracket }
{
    match endpoint {
        BEGIN => Change::Opens(bracket),
        END => Change::Closes(bracket),
        _ => Change::Stays,
    }
}

fn at_status(status: u32, prior: u32, next: u32) -> Change
    ensures { result ≡ at_status status prior next }
{
    match status {
        SWITCH => Change::Opens(Bracket::Explicit(prior, next)),
        COMPLETE => Change::Closes(Bracket::Explicit(next, prior)),
        _ => Change::Stays,
    }
}

/// Whether an open bracket and the end of one match.
pub(crate) fn is_match(begun: Bracket, ended: Bracket) -> bool
    ensures { result ≡ is_match begun ended }
{
    match (begun, ended) {
        (Bracket::Parallel(region), Bracket::Parallel(other)) => region == other,
        (Bracket::Implicit(task), Bracket::Implicit(other)) => task == other,
        (Bracket::Explicit(prior, next), Bracket::Explicit(others, other)) => {
            prior == others && next == other
        }
        (Bracket::Worksharing(_, task, kind, _), Bracket::Worksharing(_, other, like, _)) => {
            task == other && kind == like
        }
        (Bracket::Masking(task), Bracket::Masking(other)) => task == other,
        (Bracket::Syncing(task, kind), Bracket::Syncing(other, like)) => {
            task == other && kind == like
        }
        (Bracket::Waiting(task, kind), Bracket::Waiting(other, like)) => {
            task == other && kind == like
        }
        _ => false,
    }
}

/// Whether the callback is `thread_begin`.
pub(crate) fn is_begin(call: &Call) -> bool
    ensures { result ≡ is_begin call.now }
{
    matches!(call, Call::ThreadBegin { .. })
}

/// Whether it is `thread_end`.
pub(crate) fn is_end(call: &Call) -> bool
    ensures { result ≡ is_end call.now }
{
    matches!(call, Call::ThreadEnd { .. })
}

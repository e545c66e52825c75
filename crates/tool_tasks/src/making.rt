//! What an event makes.

ghost use Rattle.std.specs.Prelude.{◌≡◌};
ghost use Rattle.tool_tasks.specs.Tree.{making_by};

use omp_codes::endpoints::BEGIN;
use omp_codes::task_flags::INITIAL;
use ompt_calls::Call;

/// What an event makes.
#[derive(Clone, Copy)]
pub enum Making {
    /// This region, with its encountering task.
    Region(u32, u32),
    /// This implicit task of this region, with these flags. The initial task is there before.
    Implicit(u32, u32, u32),
    /// This explicit task, with its creator and these flags.
    Explicit(u32, u32, u32),
    /// Nothing.
    Nothing,
}

/// What an event with this callback makes.
pub(crate) fn making_by(call: &Call) -> Making
    ensures { result ≡ making_by call.now }
{
    match call {
        Call::ParallelBegin { task, region, .. } => {
            Making::Region(region.identity, task.identity)
        }
        Call::ImplicitTask {
            endpoint,
            region,
            task,
            flags,
            ..
        } => {
            if *endpoint == BEGIN && *flags != INITIAL {
                Making::Implicit(task.identity, region.identity, *flags)
            } else {
                Making::Nothing
            }
        }
        Call::TaskCreate {
            task,
            fresh,
            flags,
            ..
        } => Making::Explicit(fresh.identity, task.identity, *flags),
        _ => Making::Nothing,
    }
}

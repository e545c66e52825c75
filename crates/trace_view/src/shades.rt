//! The shades in which states are drawn. Each function is a table, a row a state or a shade.

ghost use Rattle.std.specs.Prelude.{◌≡◌};
ghost use Rattle.trace_view.specs.Svg.{colour_of, shade_of, shade_text};

use omp_codes::states::{
    IDLE, OVERHEAD, WAIT_BARRIER_EXPLICIT, WAIT_BARRIER_IMPLICIT_PARALLEL,
    WAIT_BARRIER_IMPLICIT_WORKSHARE, WAIT_CRITICAL, WAIT_LOCK, WAIT_TASKWAIT, WORK_PARALLEL,
    WORK_SERIAL,
};

/// The shade of a state, from 1 to 9.
pub(crate) fn shade_of(state: u16) -> u8
    ensures { result ≡ shade_of state }
{
    match u32::from(state) {
        WORK_SERIAL => 1,
        WORK_PARALLEL => 2,
        WAIT_BARRIER_IMPLICIT_PARALLEL | WAIT_BARRIER_IMPLICIT_WORKSHARE | WAIT_BARRIER_EXPLICIT =>
            3,
        WAIT_TASKWAIT => 4,
        WAIT_LOCK => 5,
        WAIT_CRITICAL => 6,
        IDLE => 7,
        OVERHEAD => 8,
        _ => 9,
    }
}

/// The colour of a shade.
pub(crate) fn colour_of(shade: u8) -> &'static str
    ensures { result.now ≡ colour_of shade }
{
    match shade {
        1 => "#009E73",
        2 => "#0072B2",
        3 => "#E69F00",
        4 => "#F0E442",
        5 => "#D55E00",
        6 => "#CC79A7",
        7 => "#DDDDDD",
        8 => "#56B4E9",
        _ => "#999999",
    }
}

/// What a shade stands for, in words.
pub(crate) fn shade_text(shade: u8) -> &'static str
    ensures { result.now ≡ shade_text shade }
{
    match shade {
        1 => "work, serial",
        2 => "work, parallel",
        3 => "wait at a barrier",
        4 => "wait at a taskwait",
        5 => "wait for a lock",
        6 => "wait for a critical",
        7 => "idle",
        8 => "overhead",
        _ => "other",
    }
}

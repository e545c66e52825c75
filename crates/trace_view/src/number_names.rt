//! Numbers of OMPT that are written by their names. Most functions are a table, a row a number with its name.

ghost use Rattle.std.specs.Prelude.{◌≡◌, Some};
ghost use Rattle.std.specs.Option.{option_copied};
ghost use Rattle.trace_view.specs.Names.{dispatch_kind_text, ending_text, endpoint_text, mutex_kind_text, region_flags_text, state_text, sync_kind_text, task_flags_text, task_status_text, thread_kind_text, work_kind_text};
ghost use Rattle.trace_view.specs.Naming.{name_text, number_text};

use omp_codes::{
    dispatch_kinds, endpoints, mutex_kinds, parallel_flags, states, sync_kinds, task_flags,
    task_statuses, thread_kinds, work_kinds,
};
use std::fmt;
use std::fmt::{Display, Formatter};

/// What a number is a value of.
#[derive(Clone, Copy)]
pub(crate) enum Enumeration {
    /// `ompt_thread_t`.
    ThreadKind,
    /// `ompt_scope_endpoint_t`.
    Endpoint,
    /// `ompt_sync_region_t`.
    SyncKind,
    /// `ompt_mutex_t`.
    MutexKind,
    /// `ompt_work_t`.
    WorkKind,
    /// `ompt_dispatch_t`.
    DispatchKind,
    /// `ompt_task_status_t`.
    TaskStatus,
    /// `ompt_task_flag_t`.
    TaskFlags,
    /// `ompt_parallel_flag_t`.
    RegionFlags,
    /// `ompt_state_t`.
    State,
    /// The status of a run.
    Ending,
}

/// A number by its name, and one without a name as itself.
#[derive(Clone, Copy)]
pub(crate) struct NumberName {
    pub of: Enumeration,
    pub number: u32,
}

impl Display for NumberName {
    ghost output = { λ name. Some (number_text name.of name.number) };

    fn fmt<W: fmt::Write>(&self, f: &mut Formatter<W>) -> fmt::Result {
        match self.word() {
            Some(word) => write!(f, "{word}"),
            None => write!(f, "{}", self.number),
        }
    }
}

impl NumberName {
    /// The name, if there is one.
    fn word(self) -> Option<&'static str>
        ensures { name_text (option_copied result) self.number ≡ number_text self.of self.number }
    {
        match self.of {
            Enumeration::ThreadKind => thread_kind(self.number),
            Enumeration::Endpoint => endpoint(self.number),
            Enumeration::SyncKind => sync_kind(self.number),
            Enumeration::MutexKind => mutex_kind(self.number),
            Enumeration::WorkKind => work_kind(self.number),
            Enumeration::DispatchKind => dispatch_kind(self.number),
            Enumeration::TaskStatus => task_status(self.number),
            Enumeration::TaskFlags => task_flags(self.number),
            Enumeration::RegionFlags => region_flags(self.number),
            Enumeration::State => state(self.number),
            Enumeration::Ending => ending(self.number),
        }
    }
}

/// The name of an `ompt_thread_t`.
fn thread_kind(number: u32) -> Option<&'static str>
    ensures { name_text (option_copied result) number ≡ thread_kind_text number }
{
    match number {
        thread_kinds::INITIAL => Some("ompt_thread_initial"),
        thread_kinds::WORKER => Some("ompt_thread_worker"),
        _ => None,
    }
}

/// The name of an `ompt_scope_endpoint_t`.
fn endpoint(number: u32) -> Option<&'static str>
    ensures { name_text (option_copied result) number ≡ endpoint_text number }
{
    match number {
        endpoints::BEGIN => Some("ompt_scope_begin"),
        endpoints::END => Some("ompt_scope_end"),
        _ => None,
    }
}

/// The name of an `ompt_sync_region_t`.
fn sync_kind(number: u32) -> Option<&'static str>
    ensures { name_text (option_copied result) number ≡ sync_kind_text number }
{
    match number {
        sync_kinds::BARRIER_EXPLICIT => Some("ompt_sync_region_barrier_explicit"),
        sync_kinds::TASKWAIT => Some("ompt_sync_region_taskwait"),
        sync_kinds::BARRIER_IMPLICIT_WORKSHARE => {
            Some("ompt_sync_region_barrier_implicit_workshare")
        }
        sync_kinds::BARRIER_IMPLICIT_PARALLEL => Some("ompt_sync_region_barrier_implicit_parallel"),
        _ => None,
    }
}

/// The name of an `ompt_mutex_t`.
fn mutex_kind(number: u32) -> Option<&'static str>
    ensures { name_text (option_copied result) number ≡ mutex_kind_text number }
{
    match number {
        mutex_kinds::LOCK => Some("ompt_mutex_lock"),
        mutex_kinds::TEST_LOCK => Some("ompt_mutex_test_lock"),
        mutex_kinds::CRITICAL => Some("ompt_mutex_critical"),
        _ => None,
    }
}

/// The name of an `ompt_work_t`.
fn work_kind(number: u32) -> Option<&'static str>
    ensures { name_text (option_copied result) number ≡ work_kind_text number }
{
    match number {
        work_kinds::LOOP => Some("ompt_work_loop"),
        work_kinds::SECTIONS => Some("ompt_work_sections"),
        work_kinds::SINGLE_EXECUTOR => Some("ompt_work_single_executor"),
        work_kinds::SINGLE_OTHER => Some("ompt_work_single_other"),
        _ => None,
    }
}

/// The name of an `ompt_dispatch_t`.
fn dispatch_kind(number: u32) -> Option<&'static str>
    ensures { name_text (option_copied result) number ≡ dispatch_kind_text number }
{
    match number {
        dispatch_kinds::SECTION => Some("ompt_dispatch_section"),
        dispatch_kinds::WS_LOOP_CHUNK => Some("ompt_dispatch_ws_loop_chunk"),
        _ => None,
    }
}

/// The name of an `ompt_task_status_t`.
fn task_status(number: u32) -> Option<&'static str>
    ensures { name_text (option_copied result) number ≡ task_status_text number }
{
    match number {
        task_statuses::COMPLETE => Some("ompt_task_complete"),
        task_statuses::SWITCH => Some("ompt_task_switch"),
        _ => None,
    }
}

/// The names of flags of `ompt_task_flag_t`, with a bar between two.
fn task_flags(number: u32) -> Option<&'static str>
    ensures { name_text (option_copied result) number ≡ task_flags_text number }
{
    match number {
        task_flags::INITIAL => Some("ompt_task_initial"),
        task_flags::IMPLICIT => Some("ompt_task_implicit"),
        task_flags::EXPLICIT => Some("ompt_task_explicit"),
        task_flags::EXPLICIT_UNDEFERRED => Some("ompt_task_explicit|ompt_task_undeferred"),
        _ => None,
    }
}

/// The names of flags of `ompt_parallel_flag_t`, with a bar between two.
fn region_flags(number: u32) -> Option<&'static str>
    ensures { name_text (option_copied result) number ≡ region_flags_text number }
{
    match number {
        parallel_flags::TEAM_OF_PROGRAM => Some("ompt_parallel_invoker_program|ompt_parallel_team"),
        _ => None,
    }
}

/// The name of an `ompt_state_t`.
fn state(number: u32) -> Option<&'static str>
    ensures { name_text (option_copied result) number ≡ state_text number }
{
    match number {
        states::WORK_SERIAL => Some("ompt_state_work_serial"),
        states::WORK_PARALLEL => Some("ompt_state_work_parallel"),
        states::WAIT_BARRIER_IMPLICIT_PARALLEL => Some("ompt_state_wait_barrier_implicit_parallel"),
        states::WAIT_BARRIER_IMPLICIT_WORKSHARE => {
            Some("ompt_state_wait_barrier_implicit_workshare")
        }
        states::WAIT_BARRIER_EXPLICIT => Some("ompt_state_wait_barrier_explicit"),
        states::WAIT_TASKWAIT => Some("ompt_state_wait_taskwait"),
        states::WAIT_LOCK => Some("ompt_state_wait_lock"),
        states::WAIT_CRITICAL => Some("ompt_state_wait_critical"),
        states::IDLE => Some("ompt_state_idle"),
        states::OVERHEAD => Some("ompt_state_overhead"),
        _ => None,
    }
}

/// The name of the status of a run.
fn ending(number: u32) -> Option<&'static str>
    ensures { name_text (option_copied result) number ≡ ending_text number }
{
    match number {
        0 => Some("done"),
        1 => Some("returned"),
        4 => Some("trapped"),
        5 => Some("deadlock"),
        6 => Some("limit"),
        _ => None,
    }
}

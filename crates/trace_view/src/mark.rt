//! A mark of an event in the Trace Event Format, as an object of JSON.

ghost use Rattle.std.specs.Prelude.{◌≡◌, ◌++◌, ℕ, Some, codes};
ghost use Rattle.trace_view.specs.Chrome.{mark_text, slice_name};
ghost use Rattle.trace_view.specs.Marking.{happening_text, label_text, mark_of, maybe_text, mutex_text};

use crate::label::Label;
use crate::named_call::NamedCall;
use crate::number_names::Enumeration::{DispatchKind, SyncKind, WorkKind};
use omp_codes::mutex_kinds::CRITICAL;
use ompt_calls::EventRecord;
use std::fmt;
use std::fmt::{Display, Formatter};
use trace_check::Bracket;

/// What a mark of an event tells.
#[derive(Clone, Copy)]
pub(crate) enum MarkKind {
    /// A slice of the thread begins.
    Begins(Bracket),
    /// It ends.
    Ends(Bracket),
    /// Something comes to pass on the thread.
    Happens(Happening),
    /// This task is created, and an arrow leads from here.
    FlowsFrom(u32),
    /// A thread first goes to this task, and the arrow leads to here.
    FlowsTo(u32),
    /// From here on this mutex is held.
    BeginsHold(MutexName),
    /// It is held until here.
    EndsHold(MutexName),
    /// From here on the thread waits for this mutex.
    BeginsWait(MutexName),
    /// It waits until here.
    EndsWait(MutexName),
    /// The thread gets its name.
    NamesThread,
}

/// What comes to pass on a thread at one position, with its task, wait identifier or kind.
#[derive(Clone, Copy)]
pub(crate) enum Happening {
    /// The thread ends.
    ThreadEnd,
    /// It creates this task.
    TaskCreate(u32),
    /// It makes this lock.
    LockInit(u32),
    /// It destroys this lock.
    LockDestroy(u32),
    /// It tests this lock.
    TestLock(u32),
    /// It begins a chunk or a section, by this `ompt_dispatch_t`.
    Dispatch(u32),
}

/// A critical or a lock.
#[derive(Clone, Copy)]
pub(crate) struct MutexName {
    /// Its `ompt_mutex_t`.
    pub kind: u32,
    /// Its wait identifier.
    pub wait_id: u32,
}

/// A mark of an event: the thread is its track, and the position in the history its time.
#[derive(Clone, Copy)]
struct Mark {
    event: EventRecord,
    kind: MarkKind,
}

impl Display for Mark {
    ghost output = { λ mark. Some (mark_text mark.event (mark_of mark.event.thread mark.kind)) };

    fn fmt<W: fmt::Write>(&self, f: &mut Formatter<W>) -> fmt::Result {
        write!(
            f,
            ",\n{{\"ph\":\"{}\",\"pid\":1,\"tid\":{},\"ts\":{}{},\"name\":\"{}\",\"args\":{{{}\"call\":\"{}\"}}}}",
            phase_of(self.kind),
            self.event.thread,
            self.event.seq,
            fields_of(self.kind, self.event.thread),
            name_of(self.kind),
            Argument(*self),
            NamedCall {
                call: self.event.call
            }
        )
    }
}

/// The letter of the phase of a mark of this kind.
fn phase_of(kind: MarkKind) -> &'static str
    ensures { (thread : ℕ) → result.now ≡ (mark_of thread kind).phase }
{
    match kind {
        MarkKind::Begins(_) => "B",
        MarkKind::Ends(_) => "E",
        MarkKind::Happens(_) => "i",
        MarkKind::FlowsFrom(_) => "s",
        MarkKind::FlowsTo(_) => "f",
        MarkKind::BeginsHold(_) | MarkKind::BeginsWait(_) => "b",
        MarkKind::EndsHold(_) | MarkKind::EndsWait(_) => "e",
        MarkKind::NamesThread => "M",
    }
}

/// The fields that its phase asks for, on this thread.
fn fields_of(kind: MarkKind, thread: u8) -> Label
    ensures { label_text result ≡ (mark_of thread kind).fields }
{
    match kind {
        MarkKind::Begins(_) | MarkKind::Ends(_) | MarkKind::NamesThread => Label::word(""),
        MarkKind::Happens(_) => Label::word(",\"s\":\"t\""),
        MarkKind::FlowsFrom(task) => Label::number(",\"cat\":\"task\",\"id\":", task),
        MarkKind::FlowsTo(task) => Label::number(",\"cat\":\"task\",\"bp\":\"e\",\"id\":", task),
        MarkKind::BeginsHold(mutex) | MarkKind::EndsHold(mutex) => {
            Label::number(",\"cat\":\"mutex\",\"id\":", mutex.wait_id)
        }
        MarkKind::BeginsWait(_) | MarkKind::EndsWait(_) => {
            Label::number(",\"cat\":\"wait\",\"id\":", u32::from(thread))
        }
    }
}

/// Its name.
fn name_of(kind: MarkKind) -> Label
    ensures { (thread : ℕ) → label_text result ≡ (mark_of thread kind).name }
{
    match kind {
        MarkKind::Begins(bracket) | MarkKind::Ends(bracket) => slice_name(bracket),
        MarkKind::Happens(happening) => happening_name(happening),
        MarkKind::FlowsFrom(_) | MarkKind::FlowsTo(_) => Label::word("task"),
        MarkKind::BeginsHold(mutex) | MarkKind::EndsHold(mutex) => hold_name(mutex),
        MarkKind::BeginsWait(mutex) | MarkKind::EndsWait(mutex) => wait_name(mutex),
        MarkKind::NamesThread => Label::word("thread_name"),
    }
}

/// The name of a slice.
fn slice_name(bracket: Bracket) -> Label
    ensures { label_text result ≡ slice_name bracket }
{
    match bracket {
        Bracket::Parallel(region) => Label::number("region ", region),
        Bracket::Implicit(task) => Label::number("implicit task ", task),
        Bracket::Explicit(_, task) => Label::number("task ", task),
        Bracket::Worksharing(_, _, kind, _) => Label::name("", WorkKind, kind),
        Bracket::Masking(_) => Label::word("masked"),
        Bracket::Syncing(_, kind) => Label::name("", SyncKind, kind),
        Bracket::Waiting(_, kind) => Label::name("wait ", SyncKind, kind),
    }
}

/// The name of what comes to pass.
fn happening_name(happening: Happening) -> Label
    ensures { label_text result ≡ happening_text happening }
{
    match happening {
        Happening::ThreadEnd => Label::word("thread_end"),
        Happening::TaskCreate(task) => Label::number("task_create ", task),
        Happening::LockInit(wait_id) => Label::number("lock_init ", wait_id),
        Happening::LockDestroy(wait_id) => Label::number("lock_destroy ", wait_id),
        Happening::TestLock(wait_id) => Label::number("test_lock ", wait_id),
        Happening::Dispatch(kind) => Label::name("", DispatchKind, kind),
    }
}

/// The name of a mutex that is held.
fn hold_name(mutex: MutexName) -> Label
    ensures { label_text result ≡ mutex_text mutex }
{
    if mutex.kind == CRITICAL {
        Label::number("critical ", mutex.wait_id)
    } else {
        Label::number("lock ", mutex.wait_id)
    }
}

/// The name of the wait for a mutex.
fn wait_name(mutex: MutexName) -> Label
    ensures { label_text result ≡ codes "wait for " ++ mutex_text mutex }
{
    if mutex.kind == CRITICAL {
        Label::number("wait for critical ", mutex.wait_id)
    } else {
        Label::number("wait for lock ", mutex.wait_id)
    }
}

/// The first of a mark's arguments, which only the name of a thread has.
#[derive(Clone, Copy)]
struct Argument(Mark);

impl Display for Argument {
    ghost output = { λ of. Some ((mark_of of.0.event.thread of.0.kind).argument) };

    fn fmt<W: fmt::Write>(&self, f: &mut Formatter<W>) -> fmt::Result {
        match self.0.kind {
            MarkKind::NamesThread => write!(f, "\"name\":\"thread {}\",", self.0.event.thread),
            _ => write!(f, ""),
        }
    }
}

/// A mark of an event, or none.
#[derive(Clone, Copy)]
pub(crate) struct MaybeMark {
    pub event: EventRecord,
    pub kind: Option<MarkKind>,
}

impl Display for MaybeMark {
    ghost output = { λ maybe. Some (maybe_text maybe.event maybe.kind) };

    fn fmt<W: fmt::Write>(&self, f: &mut Formatter<W>) -> fmt::Result {
        match self.kind {
            Some(kind) => write!(
                f,
                "{}",
                Mark {
                    event: self.event,
                    kind
                }
            ),
            None => write!(f, ""),
        }
    }
}

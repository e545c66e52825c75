//! What stands next in a task's code, by the numbers of nodes.

use c_model::{Entry, MutexKind, SyncKind, SyncStage, Target, WorkKind};
use c_syntax::ReductionOp;

/// A loop that is shared out, with what each iteration needs. How many names stay in scope behind it counts without those of the file.
#[derive(Clone, Copy)]
pub(crate) struct Loop {
    /// The node of its directive.
    pub construct: u32,
    /// The number of its variable's name.
    pub variable: u32,
    /// The node of its body.
    pub body: Option<u32>,
    /// The value of the first iteration.
    pub start: i64,
    /// By how much the value changes from one iteration to the next.
    pub step: i64,
    /// How many iterations there are.
    pub count: u64,
    /// How many names stay in scope behind the loop.
    pub names: usize,
}

/// What stands next. Each stands for the item of the same name of the definitions; names count without those of the file.
#[derive(Clone, Copy)]
pub(crate) enum Item {
    Start(Option<u32>),
    Declare(u32),
    Leave(usize),
    Test {
        node: u32,
        names: usize,
    },
    Third {
        node: u32,
        names: usize,
    },
    Initialise {
        node: u32,
        entry: Entry,
    },
    Return(i32),
    FallOff,
    Forked(u32),
    Inside(u32),
    MakeCells(u32),
    NextChunk(Loop),
    Iterations {
        shared: Loop,
        at: u64,
        upto: u64,
    },
    NextSection {
        node: u32,
        names: usize,
    },
    Combine {
        operator: ReductionOp,
        name: u32,
        names: usize,
    },
    EndWork {
        node: u32,
        kind: WorkKind,
        count: u64,
        names: usize,
    },
    EndMasked(u32),
    Sync {
        node: u32,
        kind: SyncKind,
        stage: SyncStage,
    },
    Acquire {
        node: u32,
        kind: MutexKind,
        id: u32,
    },
    Release {
        node: u32,
        id: u32,
    },
    TestLock {
        node: u32,
        id: u32,
        to: Target,
    },
    Tested(Target),
}

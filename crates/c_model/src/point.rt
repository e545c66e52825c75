//! The events that a task's code comes to.

/// How a loop's iterations are dealt (OpenMP 5.2, 11.5.3).
#[derive(Clone, Copy)]
pub enum Schedule {
    /// Chunks of this size round robin, or, where it is 0, one block for each member.
    Static(u32),
    /// Chunks of this size to whoever asks.
    Dynamic(u32),
    /// Chunks that become smaller, of at least this size.
    Guided(u32),
}

/// What a team shares out (OpenMP 5.2, chapter 11).
#[derive(Clone, Copy)]
pub enum Work {
    /// A loop: the value of the first iteration, how many there are, and by how much the value changes from one to the next.
    Loop {
        start: i64,
        count: u64,
        step: i64,
        schedule: Schedule,
    },
    /// So many sections.
    Sections(u32),
    /// A statement for one member.
    Single,
}

/// What a member of a team has done of shared work (`ompt_work_t`).
#[derive(Clone, Copy)]
pub enum WorkKind {
    /// Iterations of a loop.
    Loop,
    /// Sections.
    Sections,
    /// A `single` that it executed.
    SingleExecutor,
    /// A `single` that another member executed.
    SingleOther,
}

/// What is waited for (`ompt_sync_region_t`).
#[derive(Clone, Copy)]
pub enum SyncKind {
    /// A `barrier` directive.
    Barrier,
    /// A `taskwait` directive.
    Taskwait,
    /// The barrier at the end of a worksharing construct.
    Worksharing,
    /// The barrier at the end of a parallel region.
    Parallel,
}

/// The four events of a barrier or taskwait, in order.
#[derive(Clone, Copy)]
pub enum SyncStage {
    /// `ompt_callback_sync_region` with `ompt_scope_begin`.
    RegionBegin,
    /// `ompt_callback_sync_region_wait` with `ompt_scope_begin`.
    WaitBegin,
    /// `ompt_callback_sync_region_wait` with `ompt_scope_end`.
    WaitEnd,
    /// `ompt_callback_sync_region` with `ompt_scope_end`.
    RegionEnd,
}

/// What is taken (`ompt_mutex_t`).
#[derive(Clone, Copy)]
pub enum MutexKind {
    /// A lock, by `omp_set_lock`.
    Lock,
    /// A lock, by `omp_test_lock`.
    TestLock,
    /// The right to execute a `critical`.
    Critical,
}

/// Where the value of a call goes.
#[derive(Clone, Copy)]
pub enum Target {
    /// Nobody takes it.
    Nowhere,
    /// Into the cell with this number.
    Cell(u32),
    /// The function that calls returns it.
    Return,
}

/// An event that a task's code has come to. `codeptr` is the place of its directive's `#` or of its routine's name, line × 65536 +
/// column. The numbers are what the expressions of the construct gave.
#[derive(Clone, Copy)]
pub enum Point {
    /// A region is forked (OpenMP 5.2, 19.5.2.3). `requested` is the value of `num_threads`, which
    /// may be below 1, or how many threads a run may have.
    ParallelBegin {
        codeptr: u64,
        requested: i32,
    },
    /// The region is over (19.5.2.4).
    ParallelEnd {
        codeptr: u64,
    },
    /// An explicit task is made (19.5.2.7). `undeferred`: its `if` clause gave 0.
    TaskCreate {
        codeptr: u64,
        undeferred: bool,
    },
    /// A worksharing construct begins (19.5.2.5).
    WorkBegin {
        codeptr: u64,
        work: Work,
    },
    /// The task's part of a worksharing construct has ended. `count` is how many iterations, sections or statements the whole has.
    WorkEnd {
        codeptr: u64,
        kind: WorkKind,
        count: u64,
    },
    /// The statement of a `masked` construct begins (19.5.2.12).
    MaskedBegin {
        codeptr: u64,
    },
    /// It has ended.
    MaskedEnd {
        codeptr: u64,
    },
    /// One of the four events of a barrier or taskwait (19.5.2.13).
    Sync {
        codeptr: u64,
        kind: SyncKind,
        stage: SyncStage,
    },
    /// A lock or a critical is asked for (19.5.2.14). `to` is where an `omp_test_lock` puts its value, nowhere for other kinds.
    MutexAcquire {
        codeptr: u64,
        wait_id: u32,
        kind: MutexKind,
        to: Target,
    },
    /// It is owned now (19.5.2.15).
    MutexAcquired {
        codeptr: u64,
        wait_id: u32,
        kind: MutexKind,
    },
    /// It is given back (19.5.2.15).
    MutexReleased {
        codeptr: u64,
        wait_id: u32,
        kind: MutexKind,
    },
    /// A lock is initialised (19.5.2.14).
    LockInit {
        codeptr: u64,
        wait_id: u32,
    },
    /// A lock is destroyed (19.5.2.15).
    LockDestroy {
        codeptr: u64,
        wait_id: u32,
    },
}

//! The kinds of nodes of a tree: one for each production of the language, with the choices of words that it leaves.

/// What a function returns.
#[derive(Clone, Copy, Debug, PartialEq, Eq)]
pub enum Returns {
    Int,
    Void,
}

/// How the parameters of a function are written.
#[derive(Clone, Copy, Debug, PartialEq, Eq)]
pub enum Parameters {
    /// Nothing between the parentheses.
    Empty,
    /// The word `void`.
    Void,
    /// Names, each behind an `int`.
    Listed,
}

/// The sign of an initial value of a global variable.
#[derive(Clone, Copy, Debug, PartialEq, Eq)]
pub enum Sign {
    Plus,
    Minus,
}

/// A routine that is called with a lock alone: `omp_init_lock` and its kin (OpenMP 5.2, 18.9).
#[derive(Clone, Copy, Debug, PartialEq, Eq)]
pub enum LockCall {
    Init,
    Destroy,
    Set,
    Unset,
}

/// An operator of an assignment.
#[derive(Clone, Copy, Debug, PartialEq, Eq)]
pub enum Setting {
    /// `=`
    Plain,
    /// `+=`
    Add,
    /// `-=`
    Subtract,
    /// `*=`
    Multiply,
    /// `/=`
    Divide,
    /// `%=`
    Remainder,
}

/// `++` or `--`.
#[derive(Clone, Copy, Debug, PartialEq, Eq)]
pub enum Bump {
    Increment,
    Decrement,
}

/// Where a `++` or `--` stands.
#[derive(Clone, Copy, Debug, PartialEq, Eq)]
pub enum Side {
    /// Before its place.
    Before,
    /// Behind its place.
    Behind,
}

/// An operator between two expressions.
#[derive(Clone, Copy, Debug, PartialEq, Eq)]
pub enum BinaryOp {
    Or,
    And,
    Equal,
    NotEqual,
    Less,
    LessEqual,
    Greater,
    GreaterEqual,
    Add,
    Subtract,
    Multiply,
    Divide,
    Remainder,
}

/// An operator before an expression.
#[derive(Clone, Copy, Debug, PartialEq, Eq)]
pub enum UnaryOp {
    Negate,
    Not,
}

/// A routine that gives a number (OpenMP 5.2, 18.2).
#[derive(Clone, Copy, Debug, PartialEq, Eq)]
pub enum Getter {
    ThreadNum,
    NumThreads,
    MaxThreads,
}

/// A directive without a statement.
#[derive(Clone, Copy, Debug, PartialEq, Eq)]
pub enum Standalone {
    Barrier,
    Taskwait,
}

/// A directive with a statement.
#[derive(Clone, Copy, Debug, PartialEq, Eq)]
pub enum Directive {
    Parallel,
    For,
    Sections,
    Single,
    ParallelFor,
    ParallelSections,
    Masked,
    Master,
    Critical,
    Task,
}

/// What stands before a clause.
#[derive(Clone, Copy, Debug, PartialEq, Eq)]
pub enum Lead {
    /// A blank.
    Blank,
    /// A comma.
    Comma,
}

/// The word in a `default` clause.
#[derive(Clone, Copy, Debug, PartialEq, Eq)]
pub enum Default {
    Shared,
    None,
}

/// A clause on names alone.
#[derive(Clone, Copy, Debug, PartialEq, Eq)]
pub enum Data {
    Shared,
    Private,
    Firstprivate,
}

/// The operator of a `reduction` clause.
#[derive(Clone, Copy, Debug, PartialEq, Eq)]
pub enum ReductionOp {
    Add,
    Multiply,
    Max,
    Min,
}

/// The kind of a `schedule` clause.
#[derive(Clone, Copy, Debug, PartialEq, Eq)]
pub enum ScheduleKind {
    Static,
    Dynamic,
    Guided,
}

/// What a node is. Its children are counted from 0; a place that is said to be absent keeps its number.
#[derive(Clone, Copy, Debug)]
pub enum NodeKind {
    /// The whole text: includes, functions, variables and locks in order.
    Program,
    /// An include of a file of the library.
    Include,
    /// A function: its name, its parameters, its block.
    Function(Returns),
    /// A name where it is declared or listed.
    Name,
    /// The parameters of a function: their names.
    Params(Parameters),
    /// Variables of the file: one for each declarator.
    Globals,
    /// A variable of the file.
    GlobalVar,
    /// An array of the file. Its number is the size.
    GlobalArray,
    /// A variable of the file with an initial value. Its number is the value without the sign.
    GlobalSet(Sign),
    /// Locks: their names.
    Locks,
    /// A block: declarations and statements.
    Block,
    /// Variables of a block: one for each declarator.
    Locals,
    /// A variable of a block.
    LocalVar,
    /// An array of a block. Its number is the size.
    LocalArray,
    /// A variable of a block with an initial value: an expression or a call.
    LocalSet,
    /// `;` alone.
    Empty,
    /// `if`: the condition, the statement, and the statement of the `else`, which may be absent.
    If,
    /// `while`: the condition, the statement.
    While,
    /// `for`: the first step, the condition and the last step, each of which may be absent, and the statement.
    For,
    /// The first step of a `for` that declares its variable: the name, the expression.
    Init,
    /// `return`: an expression or a call, if there is one.
    Return,
    /// An assignment of a call: the place, the call.
    SetCall,
    /// A step that is a statement: the step.
    Step,
    /// A call that is a statement: the call.
    Called,
    /// `printf`: its expressions. Its text is that between the quotes.
    Print,
    /// A call of a lock routine: the name of the lock.
    LockCall(LockCall),
    /// An assignment: the place, the expression.
    Assign(Setting),
    /// `++` or `--`: the place.
    Bump(Bump, Side),
    /// A variable: the index, if there is one.
    Place,
    /// A call of a function: the arguments.
    Call,
    /// `omp_test_lock`: the name of the lock.
    TestLock,
    /// An operator between two expressions.
    Binary(BinaryOp),
    /// An operator before an expression.
    Unary(UnaryOp),
    /// A number.
    Number,
    /// An expression in parentheses.
    Paren,
    /// A routine that gives a number.
    Getter(Getter),
    /// A directive without a statement.
    Standalone(Standalone),
    /// A construct: the name of a critical if it has one, the clauses, and the statement; of sections the clauses, and then
    /// the sections, of which the first may be a statement.
    Construct(Directive),
    /// A section: its statement.
    Section,
    /// A clause: what it is.
    Clause(Lead),
    /// `num_threads`: the expression.
    NumThreads,
    /// `default`.
    Default(Default),
    /// `shared`, `private` or `firstprivate`: the names.
    Data(Data),
    /// `reduction`: the names.
    Reduction(ReductionOp),
    /// `schedule`: the chunk size, if there is one.
    Schedule(ScheduleKind),
    /// `nowait`.
    Nowait,
    /// `if`: the expression.
    IfClause,
}

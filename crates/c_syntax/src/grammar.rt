//! The grammar, as what may stand next: sorts, and the steps that read them.

use crate::node::{Directive, Getter, NodeKind};
use crate::term::Term;

/// A class of words whose value a node keeps.
#[derive(Clone, Copy)]
pub enum Class {
    /// A name. In the head of a directive each word is one.
    Name,
    /// A routine that gives a number, which may be a name where it stands.
    Routine(Getter),
    /// A number.
    Number,
    /// A text in quotes.
    Text,
}

/// A step of reading.
#[derive(Clone, Copy)]
pub enum Step {
    /// The next word is this one.
    Expect(Term),
    /// The same, and it begins something that counts for the depth.
    Deepen(Term),
    /// What counted for the depth is over.
    Rise,
    /// The next word is of this class, and the open node keeps its value.
    Take(Class),
    /// This stands in the head of a directive.
    InHead,
    /// Something of this sort follows.
    Read(Sort),
    /// A node begins at the next word.
    Open,
    /// The open node is over, and has this kind.
    Make(NodeKind),
    /// The last two children of the open node become children of a node of this kind.
    Join(NodeKind),
    /// The last child of the open node becomes the child of a node of this kind.
    Wrap(NodeKind),
    /// A child of the open node is absent.
    Skip,
}

/// A sort of text.
#[derive(Clone, Copy)]
pub enum Sort {
    /// The whole text.
    Program,
    /// The rest of the file.
    Globals,
    /// What follows `int` and a name in the file.
    AfterIntName,
    /// A function from its parameters on.
    Body,
    /// What follows the name of a variable of the file, and further variables.
    GlobalRest,
    /// An initial value.
    Initial,
    MoreGlobals,
    Locks,
    MoreLocks,
    Params,
    MoreParams,
    Block,
    /// The rest of a block.
    Items,
    /// What follows a `#pragma omp` in a block.
    ItemDirective,
    Locals,
    /// What follows the name of a variable of a block, and further variables.
    LocalRest,
    MoreLocals,
    /// What a variable is set to, or a function returns: an expression or a call.
    Right,
    /// What follows a name there.
    AfterRightName,
    Statement,
    /// A statement that is no construct.
    PlainStatement,
    ElsePart,
    InitPart,
    CondPart,
    StepPart,
    /// What follows the place of a step.
    StepRest,
    ReturnPart,
    /// What follows a name that begins a statement, and a place.
    AfterStatementName,
    AfterPlace,
    /// What a place is set to by a statement, and what follows a name there.
    AssignRight,
    AfterAssignName,
    /// A name with the index that it may have.
    Place,
    Args,
    MoreArgs,
    /// An expression.
    Expr,
    /// The parts of an expression between operators of each rank, from the loosest to the tightest.
    AndChain,
    EqualChain,
    RelChain,
    SumChain,
    ProdChain,
    Unary,
    /// What goes on with operators of each rank.
    OrTail,
    AndTail,
    EqualTail,
    RelTail,
    SumTail,
    ProdTail,
    IndexPart,
    /// What follows a routine that gives a number.
    AfterGetter(Getter),
    /// A construct, from the first word of its directive on.
    Construct,
    /// What follows the first word of a directive.
    Behind(Directive),
    AfterParallel,
    CriticalName,
    SectionsBody,
    FirstSection,
    /// What follows a `#pragma omp` where a section may stand.
    SectionOrConstruct,
    MoreSections,
    Clauses(Directive),
    Clause(Directive),
    DefaultWord,
    Operator,
    Kind,
    ChunkPart,
    /// The names of a clause.
    Names,
    MoreNames,
}

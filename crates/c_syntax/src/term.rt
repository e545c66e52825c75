//! What a token is to the grammar.

/// What a token is to the grammar. Symbols are named by what they say; names that the grammar has a use for are told apart.
#[derive(Clone, Copy, PartialEq, Eq)]
pub enum Term {
    OpenBrace,
    CloseBrace,
    OpenParen,
    CloseParen,
    OpenBracket,
    CloseBracket,
    Semicolon,
    Comma,
    Colon,
    Ampersand,
    /// `=`, `+=`, `-=`, `*=`, `/=`, `%=`
    Set,
    PlusSet,
    MinusSet,
    TimesSet,
    SlashSet,
    PercentSet,
    /// `++`, `--`
    PlusPlus,
    MinusMinus,
    /// `+`, `-`, `*`, `/`, `%`, `!`
    Plus,
    Minus,
    Star,
    Slash,
    Percent,
    Not,
    /// `<`, `<=`, `>`, `>=`, `==`, `!=`, `&&`, `||`
    Less,
    LessEqual,
    Greater,
    GreaterEqual,
    EqualEqual,
    NotEqual,
    AndAnd,
    OrOr,
    /// A symbol that no program has: `|`, `^`, `~`, `?`, `.`
    OddSymbol,

    /// Words of the language, which are no names outside the head of a directive.
    Int,
    Void,
    If,
    Else,
    While,
    For,
    Return,
    Printf,
    LockType,
    InitLock,
    DestroyLock,
    SetLock,
    UnsetLock,
    TestLock,
    GetThreadNum,
    GetNumThreads,
    GetMaxThreads,
    /// Words of C that are out of the language, and so no names there either. Two of them are words of clauses.
    Default,
    Static,
    OddWord,

    /// Words of directives and clauses, which are names outside the head of a directive.
    Parallel,
    Sections,
    Single,
    Masked,
    Master,
    Critical,
    Task,
    Barrier,
    Taskwait,
    Section,
    NumThreads,
    Shared,
    Private,
    Firstprivate,
    Reduction,
    Schedule,
    Nowait,
    None,
    Max,
    Min,
    Dynamic,
    Guided,
    /// Words of OpenMP's directives and clauses that are out of the language, where these should stand.
    OddDirective,
    OddClause,
    /// `ordered`, which is both.
    Ordered,
    /// A name that begins with `omp_`, and is none of the words above.
    OddName,
    /// Any other name.
    Name,

    Number,
    Text,
    Include,
    Pragma,
    /// A line with `#` that is no include of the library and no directive.
    OddLine,
    PragmaEnd,
    End,
}

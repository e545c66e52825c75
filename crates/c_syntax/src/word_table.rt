//! The words of the language, each with what it is to the grammar. `specs/language/Words.antt` cites these tables.

use crate::term::Term;

/// The symbols.
pub const SYMBOLS: &[(&str, Term)] = &[
    ("{", Term::OpenBrace),
    ("}", Term::CloseBrace),
    ("(", Term::OpenParen),
    (")", Term::CloseParen),
    ("[", Term::OpenBracket),
    ("]", Term::CloseBracket),
    (";", Term::Semicolon),
    (",", Term::Comma),
    (":", Term::Colon),
    ("&", Term::Ampersand),
    ("=", Term::Set),
    ("+=", Term::PlusSet),
    ("-=", Term::MinusSet),
    ("*=", Term::TimesSet),
    ("/=", Term::SlashSet),
    ("%=", Term::PercentSet),
    ("++", Term::PlusPlus),
    ("--", Term::MinusMinus),
    ("+", Term::Plus),
    ("-", Term::Minus),
    ("*", Term::Star),
    ("/", Term::Slash),
    ("%", Term::Percent),
    ("!", Term::Not),
    ("<", Term::Less),
    ("<=", Term::LessEqual),
    (">", Term::Greater),
    (">=", Term::GreaterEqual),
    ("==", Term::EqualEqual),
    ("!=", Term::NotEqual),
    ("&&", Term::AndAnd),
    ("||", Term::OrOr),
];

/// The names of 2 bytes that the grammar has a use for.
pub const NAMES_OF_2: &[(&str, Term)] = &[("if", Term::If), ("do", Term::OddWord)];

/// The names of 3 bytes that the grammar has a use for.
pub const NAMES_OF_3: &[(&str, Term)] = &[
    ("int", Term::Int),
    ("for", Term::For),
    ("max", Term::Max),
    ("min", Term::Min),
];

/// The names of 4 bytes that the grammar has a use for.
pub const NAMES_OF_4: &[(&str, Term)] = &[
    ("void", Term::Void),
    ("else", Term::Else),
    ("char", Term::OddWord),
    ("long", Term::OddWord),
    ("enum", Term::OddWord),
    ("auto", Term::OddWord),
    ("goto", Term::OddWord),
    ("case", Term::OddWord),
    ("task", Term::Task),
    ("none", Term::None),
    ("simd", Term::OddDirective),
    ("scan", Term::OddDirective),
    ("loop", Term::OddDirective),
    ("hint", Term::OddClause),
];

/// The names of 5 bytes that the grammar has a use for.
pub const NAMES_OF_5: &[(&str, Term)] = &[
    ("while", Term::While),
    ("float", Term::OddWord),
    ("short", Term::OddWord),
    ("union", Term::OddWord),
    ("const", Term::OddWord),
    ("break", Term::OddWord),
    ("teams", Term::OddDirective),
    ("flush", Term::OddDirective),
    ("scope", Term::OddDirective),
    ("error", Term::OddDirective),
    ("order", Term::OddClause),
    ("final", Term::OddClause),
];

/// The names of 6 bytes that the grammar has a use for.
pub const NAMES_OF_6: &[(&str, Term)] = &[
    ("return", Term::Return),
    ("printf", Term::Printf),
    ("double", Term::OddWord),
    ("signed", Term::OddWord),
    ("struct", Term::OddWord),
    ("static", Term::Static),
    ("extern", Term::OddWord),
    ("switch", Term::OddWord),
    ("sizeof", Term::OddWord),
    ("inline", Term::OddWord),
    ("single", Term::Single),
    ("masked", Term::Masked),
    ("master", Term::Master),
    ("shared", Term::Shared),
    ("nowait", Term::Nowait),
    ("guided", Term::Guided),
    ("target", Term::OddDirective),
    ("atomic", Term::OddDirective),
    ("cancel", Term::OddDirective),
    ("linear", Term::OddClause),
    ("copyin", Term::OddClause),
    ("filter", Term::OddClause),
    ("untied", Term::OddClause),
    ("depend", Term::OddClause),
    ("detach", Term::OddClause),
];

/// The names of 7 bytes that the grammar has a use for.
pub const NAMES_OF_7: &[(&str, Term)] = &[
    ("typedef", Term::OddWord),
    ("default", Term::Default),
    ("barrier", Term::Barrier),
    ("section", Term::Section),
    ("private", Term::Private),
    ("dynamic", Term::Dynamic),
    ("ordered", Term::Ordered),
    ("declare", Term::OddDirective),
    ("runtime", Term::OddClause),
];

/// The names of 8 bytes that the grammar has a use for.
pub const NAMES_OF_8: &[(&str, Term)] = &[
    ("unsigned", Term::OddWord),
    ("volatile", Term::OddWord),
    ("register", Term::OddWord),
    ("continue", Term::OddWord),
    ("parallel", Term::Parallel),
    ("sections", Term::Sections),
    ("critical", Term::Critical),
    ("taskwait", Term::Taskwait),
    ("schedule", Term::Schedule),
    ("taskloop", Term::OddDirective),
    ("collapse", Term::OddClause),
    ("allocate", Term::OddClause),
    ("priority", Term::OddClause),
    ("affinity", Term::OddClause),
];

/// The names of 9 bytes that the grammar has a use for.
pub const NAMES_OF_9: &[(&str, Term)] = &[
    ("reduction", Term::Reduction),
    ("taskgroup", Term::OddDirective),
    ("taskyield", Term::OddDirective),
    ("proc_bind", Term::OddClause),
    ("mergeable", Term::OddClause),
];

/// The names of 10 bytes that the grammar has a use for.
pub const NAMES_OF_10: &[(&str, Term)] = &[
    ("omp_lock_t", Term::LockType),
    ("distribute", Term::OddDirective),
];

/// The names of 11 bytes that the grammar has a use for.
pub const NAMES_OF_11: &[(&str, Term)] = &[
    ("num_threads", Term::NumThreads),
    ("lastprivate", Term::OddClause),
    ("copyprivate", Term::OddClause),
];

/// The names of 12 bytes that the grammar has a use for.
pub const NAMES_OF_12: &[(&str, Term)] = &[
    ("omp_set_lock", Term::SetLock),
    ("firstprivate", Term::Firstprivate),
    ("cancellation", Term::OddDirective),
    ("in_reduction", Term::OddClause),
];

/// The names of 13 bytes that the grammar has a use for.
pub const NAMES_OF_13: &[(&str, Term)] = &[
    ("omp_init_lock", Term::InitLock),
    ("omp_test_lock", Term::TestLock),
    ("threadprivate", Term::OddDirective),
];

/// The names of 14 bytes that the grammar has a use for.
pub const NAMES_OF_14: &[(&str, Term)] = &[("omp_unset_lock", Term::UnsetLock)];

/// The names of 16 bytes that the grammar has a use for.
pub const NAMES_OF_16: &[(&str, Term)] = &[("omp_destroy_lock", Term::DestroyLock)];

/// The names of 18 bytes that the grammar has a use for.
pub const NAMES_OF_18: &[(&str, Term)] = &[("omp_get_thread_num", Term::GetThreadNum)];

/// The names of 19 bytes that the grammar has a use for.
pub const NAMES_OF_19: &[(&str, Term)] = &[
    ("omp_get_num_threads", Term::GetNumThreads),
    ("omp_get_max_threads", Term::GetMaxThreads),
];

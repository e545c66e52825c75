//! What a program does with names, scopes and constructs.

use c_syntax::{Default, Directive, Returns};
use c_tokens::Spot;

/// What a name is declared as.
#[derive(Clone, Copy)]
pub enum Thing {
    /// A variable.
    Int,
    /// An array of so many elements.
    Array(u32),
    /// A lock.
    Lock,
    /// A function that returns this and has so many parameters.
    Function(Returns, u32),
}

/// A data clause: the sharing that it gives to the names that it lists.
#[derive(Clone, Copy)]
pub enum DataClause {
    Shared,
    Private,
    First,
    Reduced,
}

/// Whether the value of a call is used.
#[derive(Clone, Copy)]
pub enum Value {
    Used,
    Dropped,
}

/// How a name is used.
#[derive(Clone, Copy)]
pub enum Usage {
    /// As a variable without an index.
    Plain,
    /// As a variable with an index.
    Indexed,
    /// In a lock call.
    Locked,
    /// In a data clause.
    Listed(DataClause),
    /// As a function that is called with so many arguments.
    Called(u32, Value),
}

/// A clause that may stand once in a directive.
#[derive(Clone, Copy)]
pub enum Single {
    NumThreads,
    Default(Default),
    /// `schedule`, with its chunk size, which is 1 where there is none.
    Schedule(u32),
    Nowait,
    If,
}

/// Whether something follows a `return`.
#[derive(Clone, Copy)]
pub enum Returned {
    Nothing,
    Something,
}

/// Whether the arguments of a `printf` are as its text says.
#[derive(Clone, Copy)]
pub enum Printed {
    Right,
    Wrong,
}

/// One thing that a program does, in the order of its text.
#[derive(Clone, Copy)]
pub enum Act {
    /// A scope begins.
    Open,
    /// The innermost scope ends.
    Close,
    /// A function is declared and begins: its parameters and its block are one scope.
    Begin {
        name: u32,
        spot: Spot,
        returns: Returns,
        parameters: u32,
    },
    /// The function ends.
    End,
    /// A name is declared.
    Declare {
        name: u32,
        spot: Spot,
        thing: Thing,
    },
    /// A name is used.
    Use {
        name: u32,
        spot: Spot,
        usage: Usage,
    },
    /// The variable with this name is assigned.
    Assign {
        name: u32,
    },
    /// A `printf`.
    Print {
        spot: Spot,
        printed: Printed,
    },
    /// A `return`.
    Return {
        spot: Spot,
        returned: Returned,
    },
    /// A `barrier`.
    Barrier {
        spot: Spot,
    },
    /// A construct begins, with the number of a critical's name, or 0. What its clauses compute stands before it.
    Enter {
        spot: Spot,
        directive: Directive,
        critical: u32,
    },
    /// The innermost construct has this clause.
    Clause(Single),
    /// A data clause of the innermost construct lists this name.
    List {
        name: u32,
        spot: Spot,
        clause: DataClause,
    },
    /// The statement of the innermost construct isn't a loop of the form that a `for` directive has.
    OddLoop,
    /// The body of the innermost construct's loop begins, whose variable has this name.
    Loop {
        name: u32,
    },
    /// The innermost construct ends.
    Leave,
    /// The text ends.
    Finish {
        spot: Spot,
    },
}

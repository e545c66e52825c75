//! What stands around a node.

/// What stands around a node, as far as its acts depend on it.
#[derive(Clone, Copy)]
pub enum Role {
    /// Nothing of that kind. The value of a call is dropped.
    Plain,
    /// Its value is used.
    Used,
    /// It is the place that is assigned.
    Target,
    /// It is the statement of a `for` directive, whose loop has a variable with this name.
    Looped(u32),
}

/// What the names of a list are there for.
#[derive(Clone, Copy)]
pub enum Naming {
    /// They are declared as parameters.
    Parameters,
    /// They are declared as locks.
    Locks,
    /// They are locks in a lock call.
    Locked,
    /// They are used by a data clause.
    Mentioned(crate::acts::act::DataClause),
    /// They are listed by a data clause.
    Listed(crate::acts::act::DataClause),
}

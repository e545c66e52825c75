//! The numbers of criticals.

use crate::place::write_spot;
use crate::row_fault::RowFault;
use c_check::Program;
use c_syntax::{Directive, NodeKind};
use std::alloc::Global;

/// The number of each critical, an inner one before the one around it, and how many numbers there are.
pub(crate) fn criticals(alloc: Global, program: &Program) -> Result<String, RowFault> {
    let tree = program.tree();
    let mut told = String::new(alloc);
    for node in 0..=tree.root() {
        if let NodeKind::Construct(Directive::Critical) = tree.kind(node) {
            let number = program.critical_number(node);
            write_spot(&mut told, tree.spot(node))?;
            write!(told, "={number} ")?;
        }
    }
    let count = program.critical_count();
    write!(told, "count={count}")?;
    Ok(told)
}

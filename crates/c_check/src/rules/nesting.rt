//! Which constructs may stand in which (OpenMP 5.2, 17.1).

ghost use Rattle.std.specs.Prelude.{◌≡◌};
ghost use Rattle.c_check.specs.Rules.{binds_badly, critical_badly, is_plain_parallel, is_within, keeps_masked_out, masked_badly, nests_badly};
ghost use Rattle.c_check.specs.Here.{is_critical};
ghost use Rattle.c_check.specs.Shares.{is_parallel, is_task};

use crate::constructs::around::Around;
use c_syntax::Directive;

/// Whether any construct is around.
pub fn is_within(around: Around<'_>) -> bool
    ensures { result ≡ is_within around.entry }
{
    around.split().is_some()
}

/// Whether a construct with this directive, and the number of a critical's name, may not stand there.
pub fn nests_badly(around: Around<'_>, directive: Directive, critical: u32) -> bool
    ensures { result ≡ nests_badly directive critical around.entry }
{
    match directive {
        Directive::For | Directive::Sections | Directive::Single => binds_badly(around),
        Directive::Masked | Directive::Master => masked_badly(around),
        Directive::Critical => critical_badly(around, critical),
        _ => false,
    }
}

/// Whether a worksharing region or a barrier may not stand there: the construct around it is no `parallel`.
pub fn binds_badly(around: Around<'_>) -> bool
    ensures { result ≡ binds_badly around.entry }
{
    match around.split() {
        Some((first, _)) => !is_plain_parallel(first.head().directive),
        None => false,
    }
}

/// Whether a masked region may not stand there.
#[tactic(auto, unfolding(crate::specs::Rules::masked_badly))]
fn masked_badly(mut around: Around<'_>) -> bool
    ensures { result ≡ masked_badly around.entry }
{
    while let Some((first, outer)) = around.split() {
        let directive = first.head().directive;
        if keeps_masked_out(directive) {
            return true;
        }
        if is_parallel(directive) {
            return false;
        }
        around = outer;
    }
    false
}

/// Whether a critical with this name may not stand there: it would wait for one around it.
#[tactic(auto, unfolding(crate::specs::Rules::critical_badly))]
fn critical_badly(mut around: Around<'_>, name: u32) -> bool
    ensures { result ≡ critical_badly name around.entry }
{
    while let Some((first, outer)) = around.split() {
        let head = first.head();
        if is_parallel(head.directive) || is_task(head.directive) {
            return false;
        }
        if is_critical(head.directive) && head.critical == name {
            return true;
        }
        around = outer;
    }
    false
}

/// Whether a directive makes a team.
pub fn is_parallel(directive: Directive) -> bool
    ensures { result ≡ is_parallel directive }
{
    matches!(
        directive,
        Directive::Parallel | Directive::ParallelFor | Directive::ParallelSections
    )
}

/// Whether a directive makes a task.
pub fn is_task(directive: Directive) -> bool
    ensures { result ≡ is_task directive }
{
    directive == Directive::Task
}

fn is_plain_parallel(directive: Directive) -> bool
    ensures { result ≡ is_plain_parallel directive }
{
    directive == Directive::Parallel
}

/// Whether a directive makes a critical.
pub fn is_critical(directive: Directive) -> bool
    ensures { result ≡ is_critical directive }
{
    directive == Directive::Critical
}

/// Whether a masked region may not stand in a construct with this directive.
fn keeps_masked_out(directive: Directive) -> bool
    ensures { result ≡ keeps_masked_out directive }
{
    matches!(
        directive,
        Directive::For
            | Directive::Sections
            | Directive::Single
            | Directive::Task
            | Directive::ParallelFor
            | Directive::ParallelSections
    )
}

//! What follows from the definitions alone: each law is the contract of a function with an empty body.

ghost use Rattle.std.specs.Prelude.{◌≡◌, ◌≤◌, ℕ, List, ◌++◌, length};
ghost use Rattle.trace_format.specs.declared.refusal.Refusal.{Refusal};
ghost use Rattle.trace_format.specs.declared.trace.TheConstants.{VERSION};
ghost use Rattle.trace_format.specs.declared.trace.Trace.{Trace};
ghost use Rattle.trace_format.specs.Migrating.{migrated_trace};
ghost use Rattle.trace_format.specs.Refusing.{IsRefused, IsTruncated};
ghost use Rattle.trace_format.specs.Validity.{IsTrace, Writes};

/// A trace is written in one way, no other trace is written so, and no trace's bytes begin with another's.
pub fn one_spelling()
    ensures { (t u : Trace) (a b x y : List ℕ) → Writes t a → Writes u b → a ++ x ≡ b ++ y → (t ≡ u) × (a ≡ b) }
{}

/// Bytes that aren't refused have at most the length of the longest trace: a header, an event with 60 bytes for each sequence number, and an end
/// mark.
pub fn longest()
    ensures { (bytes : List ℕ) → ((refusal : Refusal) → IsRefused bytes refusal → ⊥) → length bytes ≤ 157286426 }
{}

/// Bytes are refused in one way at most.
pub fn one_refusal()
    ensures { (bytes : List ℕ) (r s : Refusal) → IsRefused bytes r → IsRefused bytes s → r ≡ s }
{}

/// Bytes that are a trace are refused nowhere, and don't end too early.
pub fn never_refused()
    ensures { (trace : Trace) (bytes : List ℕ) (refusal : Refusal) → Writes trace bytes →
        (IsRefused bytes refusal → ⊥) × (IsTruncated bytes refusal → ⊥) }
{}

/// What was migrated is a trace of the second version, and migrating it again changes nothing.
pub fn migrated_once()
    ensures { (trace : Trace) → IsTrace trace → IsTrace (migrated_trace trace) ×
        ((migrated_trace trace).header.version ≡ VERSION)
        × (migrated_trace (migrated_trace trace) ≡ migrated_trace trace) }
{}

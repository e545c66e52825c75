//! What follows from the definitions alone: each law is the contract of a function with an empty body.

ghost use Rattle.std.specs.Prelude.{◌≡◌, ◌≤◌, ℕ, List, ◌++◌, length, Some};
ghost use Rattle.omp_model.specs.declared.cause.Cause.{Cause};
ghost use Rattle.omp_model.specs.declared.history.Entry.{Entry};
ghost use Rattle.omp_model.specs.Cause.{cause_of};
ghost use Rattle.omp_model.specs.Legal.{Legal};
ghost use Rattle.omp_model.specs.State.{Run};
ghost use Rattle.tool_api.specs.Registering.{AreAlways};
ghost use Rattle.run_trace.specs.TraceOf.{FitsCause};
ghost use Rattle.history_file.specs.declared.file.HistoryFile.{HistoryFile};
ghost use Rattle.history_file.specs.declared.file.TheConstants.{HISTORY_LIMIT, STEP_LIMIT, TEXT_LIMIT, THREAD_LIMIT};
ghost use Rattle.history_file.specs.declared.reason.HistoryReason.{HistoryReason};
ghost use Rattle.history_file.specs.Certificates.{IsCertificate, file_of};
ghost use Rattle.history_file.specs.Fitting.{FitsFile};
ghost use Rattle.history_file.specs.Refusing.{IsHistoryRefused};
ghost use Rattle.history_file.specs.Validity.{IsHistoryFile, WritesHistory};

/// A file is written in one way, no other file is written so, and no file's bytes begin with another's.
pub fn one_spelling()
    ensures { (f g : HistoryFile) (a b x y : List ℕ) → WritesHistory f a → WritesHistory g b → a ++ x ≡ b ++ y →
        (f ≡ g) × (a ≡ b) }
{}

/// Bytes are refused in one way at most.
pub fn one_refusal()
    ensures { (bytes : List ℕ) (r s : HistoryReason) (m n : ℕ) → IsHistoryRefused bytes r m →
        IsHistoryRefused bytes s n →
        (r ≡ s) × (m ≡ n) }
{}

/// Bytes that are a file are not refused.
pub fn never_refused()
    ensures { (file : HistoryFile) (bytes : List ℕ) (reason : HistoryReason) (offset : ℕ) → WritesHistory file bytes →
        IsHistoryRefused bytes reason offset → ⊥ }
{}

/// No file is longer than the longest: a header, a text of 65,536 bytes, 2,621,440 stores and an end.
pub fn longest()
    ensures { (file : HistoryFile) (bytes : List ℕ) → WritesHistory file bytes → length bytes ≤ HISTORY_LIMIT }
{}

/// A legal history of 1 to 16 threads, with callbacks that are called always, that ends in a cause, makes a file, which is a certificate of the run. What is
/// supposed is that the numbers of the entries and of the cause fit their fields, as those of a run do by their types.
pub fn runs_have_files()
    ensures { (run : Run) (text : List ℕ) (history : List Entry) (cause : Cause) → 1 ≤ run.threads →
        run.threads ≤ THREAD_LIMIT →
        1 ≤ run.steps → run.steps ≤ STEP_LIMIT → AreAlways run.mask → length text ≤ TEXT_LIMIT → Legal run history →
        cause_of run history ≡ Some cause → FitsFile (file_of text run cause history) → FitsCause cause →
        IsHistoryFile (file_of text run cause history) × IsCertificate run (file_of text run cause history) }
{}

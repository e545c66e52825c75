//! What the definitions of texts come to, as functions with empty bodies.

ghost use Rattle.std.specs.Prelude.{ℕ, ◌≡◌, ◌⊎◌, List};
ghost use Rattle.ompt_cli.specs.{Text.IsProgram, Text.IsRefused, declared.end.Refusal.Refusal};

/// Each text is a program that runs or is refused, not both, and is refused for one reason.
pub fn each_text_is_judged()
    ensures either { (text : List ℕ) → IsProgram text ⊎ ((why : Refusal) × IsRefused why text) }
    ensures not_both { (text : List ℕ) (why : Refusal) → IsProgram text → IsRefused why text → ⊥ }
    ensures one_reason { (text : List ℕ) (first second : Refusal) → IsRefused first text → IsRefused second text →
        first ≡ second }
{}

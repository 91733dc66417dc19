//! Proves that no claim of the laws of scripts holds for everything. Each function here does nothing, and
//! its contract is the claim.
ghost use Rattle.std.specs.Prelude.{ℕ, ◌+◌, true, false, [], ◌∷◌, Some};
ghost use Rattle.std.specs.Io.KnownBytes.{Appends};
ghost use Rattle.cc_machine.specs.State.{State};
ghost use Rattle.cc_script.specs.Failures.{BeginsScriptOutput};
ghost use Rattle.cc_laws.specs.ScriptParts.{EndsLine, OutputInParts};

/// Of no script: a byte, an error, and another state.
fn outputs_of_no_script()
    ensures bytes { (old new : State) → ¬ OutputInParts old [] [] [] (10 ∷ []) false new }
    ensures error { (old new : State) → ¬ OutputInParts old [] [] [] [] true new }
    ensures state { (old : State) → ¬ OutputInParts old [] [] [] [] false (record old { limit = old.limit + 1 }) }
    ensures begins { (old : State) → ¬ BeginsScriptOutput old [] [] (Appends (Some []) (Some (10 ∷ []))) }
{}

/// A byte after the last line feed.
fn trailing_bytes()
    ensures { ¬ EndsLine (10 ∷ 120 ∷ []) }
{}

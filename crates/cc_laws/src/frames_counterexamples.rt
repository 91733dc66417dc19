//! Proves that no claim of the laws of outputs, and none of their premises, holds for everything. Each
//! function here does nothing, and its contract is the claim.
ghost use Rattle.std.specs.Prelude.{ℕ, false, List, [], ◌∷◌, Option, Some};
ghost use Rattle.cc_io.specs.Frames.{lines};
ghost use Rattle.cc_io.specs.Correct.{StopsInAnswer};
ghost use Rattle.cc_io.specs.Laws.{BeginsOutput, InParts, IsOne, IsSome};
ghost use Rattle.cc_laws.specs.Witnesses.{IsCounted};
ghost use Rattle.cc_laws.specs.Counterexamples.{IsAnything, IsSilent};

/// An empty reply, and an entry that may get two replies.
fn replies_that_are_none_or_two()
    ensures none { ¬ IsSome IsSilent }
    ensures two { ¬ IsOne IsAnything }
{}

/// A byte that no part of an empty input has, and a sink that fails in a reply to no entry.
fn outputs_of_other_texts()
    ensures parts { ¬ InParts IsCounted IsCounted lines 0 [] [] (33 ∷ []) false 0 }
    ensures begins { ¬ BeginsOutput IsCounted IsCounted lines 0 [] [] (Some []) (Some (33 ∷ [])) }
    ensures stops { (taken taken_now : Option (List ℕ)) (new : ℕ)
        → ¬ StopsInAnswer IsCounted 0 [] [] taken taken_now new }
{}

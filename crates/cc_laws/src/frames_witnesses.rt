//! Proves that the premises of the laws of outputs are met: by replies of one byte, for which the entries
//! are counted. Each function here does nothing, and its contract is the claim.
ghost use Rattle.std.specs.Prelude.{◌≡◌, false, [], ◌∷◌, ◌++◌, Some};
ghost use Rattle.cc_io.specs.Frames.{lines};
ghost use Rattle.cc_io.specs.Answers.{Output, entries_of};
ghost use Rattle.cc_io.specs.Correct.{StopsOnPage};
ghost use Rattle.cc_io.specs.Laws.{IsOne, IsSome};
ghost use Rattle.cc_laws.specs.Witnesses.{IsCounted};

/// A text of two lines, of which the first ends with an entry.
fn a_text_in_parts()
    ensures ends { lines.left [] (97 ∷ 10 ∷ []) ≡ [] }
    ensures output { Output IsCounted IsCounted lines 0 ((97 ∷ 10 ∷ []) ++ 98 ∷ 10 ∷ []) (33 ∷ 33 ∷ []) false 2 }
{}

/// A sink that takes the reply to the first of two lines, and fails before the second.
fn a_sink_that_fails_on_a_page()
    ensures some { IsSome IsCounted }
    ensures one { IsOne IsCounted }
    ensures stops { StopsOnPage IsCounted 1 1 0 [] (entries_of lines (97 ∷ 10 ∷ 98 ∷ 10 ∷ [])) (Some [])
        (Some (33 ∷ [])) 2 }
{}

//! Proves that the margin around bounds ends where the law says, and that a span meets the premises
//! of the law. Each function here does nothing, and its contract is the claim.
ghost use Rattle.std.specs.Prelude.{ℕ, ◌<◌, ◌≤◌};
ghost use Rattle.cc_word.specs.declared.fields.Fields.{Fields};
ghost use Rattle.cc_bounds.specs.Span.{IsSpan, span_from};
ghost use Rattle.cc_bounds.specs.Granule.{IsExponent, IsSound};
ghost use Rattle.cc_bounds.specs.Decoding.{ExactlyOne, stored_exponent};
ghost use Rattle.cc_bounds.specs.Window.{Represents};
ghost use Rattle.cc_laws.specs.Margin.{IsNear};

/// The longest span of exponent 0 whose top is as many sections above its base as can be: the base is
/// in section 0, and the top in section 4. So the last section of the margin is section 6.
#[tactic(auto, using(crate::proofs::MarginCounterexampleLemmas::span_has_margin))]
fn a_span_with_margin()
    ensures is_span { IsSpan (span_from 2040 8184) }
    ensures sound { IsSound (span_from 2040 8184) }
    ensures exponent { IsExponent (span_from 2040 8184) 0 }
    ensures last { IsNear (span_from 2040 8184) 0 14335 }
{}

#[tactic(auto, using(crate::proofs::MarginCounterexampleLemmas::margin_ends))]
fn the_margin_ends_there()
    ensures above { ¬ IsNear (span_from 2040 8184) 0 14336 }
    ensures not_above { ¬ Represents (span_from 2040 8184) 14336 }
    ensures below { ¬ IsNear (span_from 4096 4) 0 2047 }
    ensures not_below { ¬ Represents (span_from 4096 4) 2047 }
{}

/// Properties that no number has, and that two have.
fn properties_that_not_exactly_one_has()
    ensures none { ¬ ExactlyOne (λ (number : ℕ). number < 0) }
    ensures two { ¬ ExactlyOne (λ (number : ℕ). number < 2) }
{}

/// A word whose exponent is so large that every address is representable.
fn a_word_of_a_large_exponent()
    ensures { (fields : Fields) × (50 ≤ stored_exponent fields) }
{}

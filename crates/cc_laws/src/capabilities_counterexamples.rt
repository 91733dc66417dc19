//! Proves that the law of rules on words is not vacuous: a rule returns a word, and not every
//! canonical word is a subset of another; and that the root is sealed and unsealed again, and rebuilt.
//! Each function here does nothing, and its contract is the claim.
ghost use Rattle.std.specs.Prelude.{◌≡◌, ◌*◌, ◌^◌, Ok};
ghost use Rattle.cc_cap.specs.Capability.{IsCapability, IsUnsealed, root_capability, sealed_with, with_permissions};
ghost use Rattle.cc_cap.specs.Derivation.{MasksPermissions, Rebuilds, Seals, Unseals};
ghost use Rattle.cc_cap.specs.WordRules.{OnWord, IsCanonicalSubset, AreLikeCalls, IsLikeCalls, IsMonotonicOn};
ghost use Rattle.cc_cap.specs.WordRules.{IsMonotonicUnder};

/// Proves that removing all permissions of the root's word returns null, and that the root's word
/// is not a subset of null.
#[tactic(auto, using(crate::proofs::RuleCounterexampleLemmas::null_made, crate::proofs::RuleCounterexampleLemmas::root_outside))]
fn null_and_the_word_of_the_root()
    ensures made { OnWord (λ cap. MasksPermissions cap 0) (0xffff * 2 ^ 112) (Ok 0) }
    ensures outside { ¬ IsCanonicalSubset (0xffff * 2 ^ 112) 0 }
{}

/// A rule that makes the root of everything, and one that may make or refuse everything.
fn rules_that_are_not_laws()
    ensures monotonic { ¬ IsMonotonicOn (λ cap made. made ≡ Ok root_capability) 0 }
    ensures under { ¬ IsMonotonicUnder (λ cap by made. made ≡ Ok root_capability) 0 0 }
    ensures call { ¬ IsLikeCalls (λ cap made. Unit {0}) 0 }
    ensures calls { ¬ AreLikeCalls (λ cap by made. Unit {0}) 0 0 }
{}

/// The root, sealed with type 0 and unsealed again, by itself and by an authority without GLOBAL.
fn the_root_sealed_and_unsealed_again()
    ensures seals { Seals root_capability root_capability (Ok (sealed_with root_capability 0)) }
    ensures unseals { Unseals (sealed_with root_capability 0) root_capability (Ok root_capability) }
    ensures loses_global { Unseals (sealed_with root_capability 0) (with_permissions root_capability 0xfffe)
        (Ok (with_permissions root_capability 0xfffe)) }
{}

/// The root, which is unsealed, rebuilt from its word by itself.
fn the_root_rebuilt()
    ensures capability { IsCapability root_capability }
    ensures unsealed { IsUnsealed root_capability }
    ensures rebuilds { Rebuilds root_capability (0xffff * 2 ^ 112) (Ok root_capability) }
{}

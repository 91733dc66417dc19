//! Laws of all capabilities, and of their words.
ghost use Rattle.std.specs.Prelude.{ℕ, Bool, ◌≡◌, Ok};
ghost use Rattle.cc_word.specs.Permissions.{HasAll, global_permission};
ghost use Rattle.cc_cap.specs.Capability.{Capability, IsCapability, IsUnsealed, GrantsNoMore, unsealed_permissions};
ghost use Rattle.cc_cap.specs.Capability.{with_permissions};
ghost use Rattle.cc_cap.specs.Canonical.{IsCanonical};
ghost use Rattle.cc_cap.specs.Reach.{IsReachable};
ghost use Rattle.cc_cap.specs.Derivation.{SetsAddress, Increments, SetsBounds, SetsExactBounds, MasksPermissions};
ghost use Rattle.cc_cap.specs.Derivation.{SetsFlag, Seals, Unseals, Rebuilds};
ghost use Rattle.cc_cap.specs.WordRules.{IsLikeCalls, AreLikeCalls, IsCanonicalSubset, IsMonotonicOn, IsMonotonicUnder};

/// Proves that each capability grants no more than itself, and that granting no more is transitive.
///
/// If `one` grants no more than `two`, and `two` no more than `three`, then `one` grants no more
/// than `three`. So a capability that is derived in any number of steps grants no more than the one
/// that the derivation began with.
pub fn granting_no_more_is_an_order()
    ensures itself { (cap : Capability) → GrantsNoMore cap cap }
    ensures chain { (one two three : Capability) → GrantsNoMore one two → GrantsNoMore two three
        → GrantsNoMore one three }
{}

/// Proves that every unsealed capability that grants no more than an unsealed one is reached from
/// it.
///
/// So five calls of the functions of `Cap` create it, and none is refused.
pub fn all_that_grants_no_more_is_reached()
    ensures { (from to : Capability) → IsCapability from → IsCapability to → IsUnsealed from → IsUnsealed to
        → GrantsNoMore to from → IsReachable from to }
{}

/// Proves that a rule on words returns the result of the function of `Cap` for the capability that
/// has the word, in words.
///
/// `InWords made result` holds if `result` is the word of the capability that was made, or the same
/// refusal.
pub fn rules_on_words_are_those_of_capabilities()
    ensures set_address { (address word : ℕ) → IsLikeCalls (λ cap. SetsAddress cap address) word }
    ensures increment { (amount word : ℕ) → IsLikeCalls (λ cap. Increments cap amount) word }
    ensures set_bounds { (len word : ℕ) → IsLikeCalls (λ cap. SetsBounds cap len) word }
    ensures set_bounds_exact { (len word : ℕ) → IsLikeCalls (λ cap. SetsExactBounds cap len) word }
    ensures and_perms { (mask word : ℕ) → IsLikeCalls (λ cap. MasksPermissions cap mask) word }
    ensures set_flag { (flag : Bool) (word : ℕ) → IsLikeCalls (λ cap. SetsFlag cap flag) word }
    ensures seal { (word authority : ℕ) → AreLikeCalls Seals word authority }
    ensures unseal { (word authority : ℕ) → AreLikeCalls Unseals word authority }
    ensures rebuild { (word authority : ℕ) → IsLikeCalls (λ by. Rebuilds by word) authority }
{}

/// Proves that the word that a rule on words returns is canonical, and a subset of the word that it
/// is made of.
///
/// For `rebuild`, that is the word of the authority. A canonical word is a subset of itself, and
/// subsets of canonical words form chains. So the result of any number of rules is a subset of the
/// word that they began with.
pub fn rules_on_words_are_monotonic()
    ensures set_address { (address word : ℕ) → IsMonotonicOn (λ cap. SetsAddress cap address) word }
    ensures increment { (amount word : ℕ) → IsMonotonicOn (λ cap. Increments cap amount) word }
    ensures set_bounds { (len word : ℕ) → IsMonotonicOn (λ cap. SetsBounds cap len) word }
    ensures set_bounds_exact { (len word : ℕ) → IsMonotonicOn (λ cap. SetsExactBounds cap len) word }
    ensures and_perms { (mask word : ℕ) → IsMonotonicOn (λ cap. MasksPermissions cap mask) word }
    ensures set_flag { (flag : Bool) (word : ℕ) → IsMonotonicOn (λ cap. SetsFlag cap flag) word }
    ensures seal { (word authority : ℕ) → IsMonotonicUnder Seals word authority }
    ensures unseal { (word authority : ℕ) → IsMonotonicUnder Unseals word authority }
    ensures rebuild { (word authority : ℕ) → IsMonotonicOn (λ by. Rebuilds by word) authority }
    ensures itself { (word : ℕ) → IsCanonical word → IsCanonicalSubset word word }
    ensures chain { (one two three : ℕ) → IsCanonical three → IsCanonicalSubset one two → IsCanonicalSubset two three
        → IsCanonicalSubset one three }
{}

/// Proves that a capability that is sealed and unsealed again is as before, except for GLOBAL. It keeps
/// GLOBAL if the authority that unseals it has GLOBAL, and loses it otherwise.
pub fn sealed_and_unsealed_again()
    ensures permissions { (cap by authority sealed again : Capability) → Seals cap by (Ok sealed)
        → Unseals sealed authority (Ok again)
        → again ≡ with_permissions cap (unsealed_permissions cap.permissions authority.permissions) }
    ensures global { (cap by authority sealed again : Capability) → Seals cap by (Ok sealed)
        → Unseals sealed authority (Ok again)
        → HasAll authority.permissions global_permission → again ≡ cap }
{}

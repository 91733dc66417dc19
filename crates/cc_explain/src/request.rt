//! What setting the bounds of a request grants.
ghost use Rattle.std.specs.Prelude.{◌≡◌, ◌<◌, ◌≤◌, ◌^◌, Ok};
ghost use Rattle.cc_bounds.specs.Granule.{IsGranted, IsGranule, granule_count};
ghost use Rattle.cc_bounds.specs.Span.{IsSpan, IsWithin, length_of};
ghost use Rattle.cc_bounds.specs.declared.span.Span.{Span as SpanSpec};
ghost use Rattle.cc_cap.specs.Canonical.{IsWordOf};
ghost use Rattle.cc_explain.specs.Request.{IsGrant, granted_capability};

use cc_bounds::{Set, Span, set_bounds};
use cc_cap::Cap;
use cc_word::Refusal;

/// What setting the bounds of a request grants.
#[derive(Clone, Copy)]
pub(crate) struct Grant {
    /// The granule of the request, in bytes: 1, or a power of two from 8 to 2^55.
    pub(crate) granule: u64,
    /// The span that the request is granted.
    pub(crate) granted: Span,
    /// The word of the root capability with these bounds, at the request's base.
    pub(crate) word: u128,
}

/// What setting the bounds of a request grants.
pub(crate) fn grant_of(request: &Span) -> Grant
    requires { IsSpan request.now }
    ensures grant { IsGrant request.now result }
    ensures is_span { IsSpan result.granted }
    ensures covers { IsWithin request.now result.granted }
{
    let set = set_bounds(request.base, length_of(request));
    let granted = set.granted();
    Grant {
        granule: granule_of(request, &set),
        granted,
        word: word_of(request, &granted),
    }
}

/// How many bytes a request has.
pub(crate) fn length_of(request: &Span) -> u128
    requires { IsSpan request.now }
    ensures value { result ≡ length_of request.now }
    ensures fits { result ≤ 2 ^ 64 }
{
    request.top - u128::from(request.base)
}

/// How many granules of this size a request touches, where they begin at multiples of it.
pub(crate) fn granule_count(request: &Span, granule: u64) -> u128
    requires is_span { IsSpan request.now }
    requires some { 0 < granule }
    ensures { result ≡ granule_count request.now granule }
{
    let granule = u128::from(granule);
    request.top.div_ceil(granule) - u128::from(request.base) / granule
}

/// Returns the granule of a request, in bytes; `set` is the encoding that setting its bounds made.
fn granule_of(request: &Span, set: &Set) -> u64
    requires is_span { IsSpan request.now }
    requires granted { IsGranted request.now set.now.granted }
    ensures { IsGranule request.now result }
{
    if length_of(request) < 4096 {
        1
    } else {
        8 << set.e()
    }
}

/// Returns the word of the root capability with the bounds of a request, at the request's base.
fn word_of(request: &Span, granted: &Span) -> u128
    requires is_span { IsSpan request.now }
    requires granted { IsGranted request.now granted.now }
    ensures { IsWordOf (granted_capability request.now granted.now) result }
{
    match derived(request) {
        Ok(cap) => cap.word(),
        Err(_) => unreachable!(),
    }
}

/// Returns the root capability with the bounds of a request, at the request's base. It is never
/// refused.
fn derived(request: &Span) -> Result<Cap, Refusal>
    requires { IsSpan request.now }
    ensures { (granted : SpanSpec) × IsGranted request.now granted
        × (result ≡ Ok (granted_capability request.now granted)) }
{
    Cap::root()
        .set_address(request.base)?
        .set_bounds(length_of(request))
}

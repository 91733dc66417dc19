//! The policy that a string names.
ghost use Rattle.std.specs.Prelude.{◌≡◌, ◌≤◌, ◌+◌, ◌++◌, length, Ok};
ghost use Rattle.cc_heap.specs.declared.policy.Policy.{Policy as PolicySpec};
ghost use Rattle.cc_replay.specs.PolicyText.{IsPolicyText, in_range, numbered_in, of_percent, percent_in, policy_in};
ghost use Rattle.cc_replay.specs.PolicyText.{policy_text, share_text};

use cc_heap::{Policy, Share};
use cc_io::Page;
use cc_values::read_address;
use cc_word::Refusal;

/// Parses a policy: `none`, `never`, `trace`, `bytes:N`, `frees:N`, or `PERCENT%`, which may have
/// `:held`, `:live` or `:high` after it. A percentage without one of these is of the held bytes.
///
/// Numbers are decimal digits, or `0x` and hexadecimal digits.
///
/// Errors, in order: `Syntax` if the string is not a policy; `OutOfRange` if N is above 2^64 - 1, or
/// PERCENT above 2^32 - 1.
#[tactic(auto, using(crate::proofs::PolicyLemmas::texts_are_read, crate::proofs::PolicyLemmas::read_texts))]
pub fn read_policy(text: &[u8]) -> Result<Policy, Refusal>
    ensures value { result ≡ policy_in text.now }
    // Each string that names a policy is read as that policy, or is out of range.
    ensures texts { (policy : PolicySpec) → IsPolicyText policy text.now → result ≡ in_range policy }
    // No other string is read.
    ensures names { (policy : PolicySpec) → result ≡ Ok policy → IsPolicyText policy text.now }
{
    if text == b"none".as_slice() {
        Ok(Policy::Immediate)
    } else if text == b"never".as_slice() {
        Ok(Policy::Never)
    } else if text == b"trace".as_slice() {
        Ok(Policy::Trace)
    } else {
        read_numbered(text)
    }
}

/// Parses a policy that has a number.
fn read_numbered(text: &[u8]) -> Result<Policy, Refusal>
    ensures { result ≡ numbered_in text.now }
{
    if let Some(number) = text.strip_prefix(b"bytes:".as_slice()) {
        return read_address(number).map(Policy::Bytes);
    }
    if let Some(number) = text.strip_prefix(b"frees:".as_slice()) {
        return read_address(number).map(Policy::Frees);
    }
    read_share(text)
}

/// Parses a percentage, and the name of its bytes.
fn read_share(text: &[u8]) -> Result<Policy, Refusal>
    ensures { result ≡ percent_in text.now }
{
    if let Some(number) = text.strip_suffix(b"%".as_slice()) {
        return read_percent(number, Share::Held);
    }
    if let Some(number) = text.strip_suffix(b"%:held".as_slice()) {
        return read_percent(number, Share::Held);
    }
    if let Some(number) = text.strip_suffix(b"%:live".as_slice()) {
        return read_percent(number, Share::Live);
    }
    if let Some(number) = text.strip_suffix(b"%:high".as_slice()) {
        return read_percent(number, Share::High);
    }
    Err(Refusal::Syntax)
}

/// Parses the number of a percentage.
fn read_percent(number: &[u8], of: Share) -> Result<Policy, Refusal>
    ensures { result ≡ of_percent of number.now }
{
    match read_address(number) {
        Ok(percent) if percent <= u64::from(u32::MAX) => Ok(Policy::Percent {
            percent: percent as u32,
            of,
        }),
        Ok(_) => Err(Refusal::OutOfRange),
        Err(refusal) => Err(refusal),
    }
}

/// Appends the string that [`read_policy`] reads as a policy: numbers are decimal, and `:held` is omitted.
///
/// Requires: 46 bytes of the page are free.
pub fn push_policy<const N: usize>(page: &mut Page<N>, policy: Policy)
    requires { length page.old + 46 ≤ N }
    ensures value { page.new ≡ page.old ++ policy_text policy }
    ensures fits { length page.new ≤ length page.old + 46 }
    ensures names { IsPolicyText policy (policy_text policy) }
{
    match policy {
        Policy::Immediate => page.push(b"none"),
        Policy::Never => page.push(b"never"),
        Policy::Trace => page.push(b"trace"),
        Policy::Bytes(bytes) => {
            page.push(b"bytes:");
            page.push_decimal(u128::from(bytes));
        }
        Policy::Frees(frees) => {
            page.push(b"frees:");
            page.push_decimal(u128::from(frees));
        }
        Policy::Percent { percent, of } => {
            page.push_index(percent);
            page.push(share_text(of));
        }
    }
}

/// Returns the end of a percentage of these bytes.
fn share_text(of: Share) -> &'static [u8]
    ensures value { result.now ≡ share_text of }
    ensures fits { length result.now ≤ 6 }
{
    match of {
        Share::Held => b"%",
        Share::Live => b"%:live",
        Share::High => b"%:high",
    }
}

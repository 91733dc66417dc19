//! A block of gaps, in the order of their addresses.
ghost use Rattle.std.specs.Prelude.{◌≡◌, ◌↔◌, ◌+◌, ◌-◌, ◌<◌, ◌≤◌, ◌^◌, ◌∷◌, ◌++◌, ℕ, [], length, insert, remove};
ghost use Rattle.std.specs.Prelude.{slice_set, All, Some, None, IfNone, IfSome, IsTrue, Option, option_map};
ghost use Rattle.std.specs.List.{slice_index_or};
ghost use Rattle.cc_bounds.specs.declared.span.Span.{Span as SpanSpec};
ghost use Rattle.cc_placer.specs.PlacerState.{IsSomeBytes};
ghost use Rattle.cc_machine.specs.Fit.{AreShort, IsFit, LackFit};
ghost use Rattle.cc_machine.specs.Gaps.{AreGaps, IsFirstFit};
ghost use Rattle.cc_machine.specs.GapRow.{IsAtMost};

use crate::aligned::padding;
use crate::searching::step_if_below;
use arrayvec::ArrayVec;
use cc_bounds::Span;
use std::marker::Model;

/// The maximum number of gaps in a block.
pub(crate) const MOST_GAPS: usize = 64;

/// The number of gaps in each half of a full block.
pub(crate) const HALF: usize = 32;

/// A gap of one or more bytes, in 16 bytes: the address of its first byte, and the number of its
/// bytes less one, so that 2^64 bytes fit. Of a gap that is too short a search reads only that number.
#[derive(Clone, Copy, Default)]
struct Gap {
    base: u64,
    less: u64,
}

impl Model for Gap {
    ghost use Rattle.std.specs.Prelude.{◌+◌, ◌-◌, ◌≤◌, ◌<◌, ◌^◌};
    ghost use Rattle.cc_bounds.specs.declared.span.Span.{Span};

    ghost Value = { Span };

    ghost view = { λ gap. record { base = gap.base; top = gap.base + gap.less + 1 } };

    ghost invariant = { λ gap. gap.base + gap.less < 2 ^ 64 };

    ghost inverse = { λ span. record { base = span.base; less = span.top - 1 - span.base } };
}

impl Gap {
    fn new(span: Span) -> Gap
        requires { IsSomeBytes span }
        ensures { result ≡ span }
    {
        Gap {
            base: span.base,
            less: (span.top - 1) as u64 - span.base,
        }
    }

    #[inline(always)]
    fn span(self) -> Span
        ensures value { result ≡ self }
        ensures some { IsSomeBytes result }
    {
        Span {
            base: self.base,
            top: u128::from(self.last()) + 1,
        }
    }

    /// Returns the address of the first byte.
    #[inline(always)]
    fn base(self) -> u64
        ensures { result ≡ self.base }
    {
        self.base
    }

    /// Returns the address of the last byte.
    #[inline(always)]
    fn last(self) -> u64
        ensures value { result + 1 ≡ self.top }
    {
        self.base + self.less
    }

    /// Returns the number of bytes except one.
    #[inline(always)]
    fn less(self) -> u64
        ensures value { self.base + result + 1 ≡ self.top }
    {
        self.less
    }

    /// Returns the lowest start at a multiple of `align` of one byte more than `less`.
    #[inline(always)]
    fn fit(self, less: u64, align: u64) -> Option<u64>
        requires { 0 < align }
        ensures { IsFit self.base self.top (less + 1) align result }
    {
        let room = self.less();
        if room < less {
            return None;
        }
        let pad = padding(self.base, align);
        if pad > room - less {
            return None;
        }
        Some(self.base + pad)
    }
}

/// At most `MOST_GAPS` gaps in the order of their addresses, stored in the block itself.
#[derive(Drop)]
pub(crate) struct GapBlock {
    gaps: ArrayVec<Gap, MOST_GAPS>,
}

impl Model for GapBlock {
    ghost use Rattle.std.specs.Prelude.{◌≤◌, List, length};
    ghost use Rattle.cc_bounds.specs.declared.span.Span.{Span};

    ghost Value = { List Span };

    ghost view = { λ block. block.gaps.items };

    ghost invariant = { λ block. length block.gaps.items ≤ 64 };
}

impl GapBlock {
    /// Returns a block of one gap.
    pub(crate) fn with_gap(gap: Span) -> GapBlock
        requires { IsSomeBytes gap }
        ensures { result ≡ gap ∷ [] }
    {
        let mut gaps = ArrayVec::new();
        gaps.push(Gap::new(gap));
        GapBlock { gaps }
    }

    #[inline(always)]
    pub(crate) fn len(&self) -> usize
        ensures value { result ≡ length self.now }
        ensures few { result ≤ 64 }
    {
        self.gaps.len()
    }

    #[inline(always)]
    pub(crate) fn at(&self, at: usize) -> Span
        requires { at < length self.now }
        ensures value { result ≡ slice_index_or self.now at result }
        ensures some { IsSomeBytes result }
    {
        self.gaps[at].span()
    }

    pub(crate) fn set(&mut self, at: usize, gap: Span)
        requires within { at < length self.old }
        requires some { IsSomeBytes gap }
        ensures { self.new ≡ slice_set self.old at gap }
    {
        self.gaps[at] = Gap::new(gap);
    }

    /// Inserts a gap, given that one more fits.
    pub(crate) fn insert(&mut self, at: usize, gap: Span)
        requires within { at ≤ length self.old }
        requires fewer { length self.old < 64 }
        requires some { IsSomeBytes gap }
        ensures { self.new ≡ insert self.old at gap }
    {
        self.gaps.insert(at, Gap::new(gap));
    }

    pub(crate) fn remove(&mut self, at: usize)
        requires { at < length self.old }
        ensures { self.new ≡ remove self.old at }
    {
        self.gaps.remove(at);
    }

    /// Moves the upper half of a full block to the returned block.
    pub(crate) fn split(&mut self) -> GapBlock
        requires { length self.old ≡ 64 }
        ensures both { self.old ≡ self.new ++ result }
        ensures lower_half { length self.new ≡ 32 }
        ensures upper_half { length result ≡ 32 }
    {
        let mut gaps = ArrayVec::new();
        gaps.try_extend_from_slice(&self.gaps[HALF..]).unwrap();
        self.gaps.truncate(HALF);
        GapBlock { gaps }
    }

    /// Appends the gaps of the block that follows this one.
    pub(crate) fn take_in(&mut self, upper: &GapBlock)
        requires { length self.old + length upper.now ≤ 64 }
        ensures { self.new ≡ self.old ++ upper.now }
    {
        self.gaps.try_extend_from_slice(&upper.gaps).unwrap();
    }

    /// Returns the position of the first gap that ends above an address.
    ///
    /// Requires: the last gap does.
    #[inline(always)]
    pub(crate) fn position(&self, address: u64) -> usize
        requires gaps { AreGaps self.now }
        requires some { 0 < length self.now }
        requires last { (d : SpanSpec) → address < (slice_index_or self.now (length self.now - 1) d).top }
        ensures within { result < length self.now }
        ensures below { (d : SpanSpec) → 0 < result → (slice_index_or self.now (result - 1) d).top ≤ address }
        ensures above { (d : SpanSpec) → address < (slice_index_or self.now result d).top }
    {
        let mut low = 0;
        let mut size = self.gaps.len();
        while size > 1 {
            let half = size / 2;
            low += step_if_below(self.gaps[low + half].base(), address, half);
            size -= half;
        }
        low + step_if_below(self.gaps[low].last(), address, 1)
    }

    /// Returns an upper bound on the number of bytes, except one, of each gap.
    pub(crate) fn widest(&self) -> u64
        ensures { All (IsAtMost result) self.now }
    {
        widest(&self.gaps)
    }

    /// Returns the lowest start at a multiple of `align` of one byte more than `less` in a gap, and
    /// a hint for the position of the gap.
    #[inline(always)]
    pub(crate) fn fit(&self, less: u64, align: u64) -> Option<(u64, usize)>
        requires gaps { AreGaps self.now }
        requires aligned { 0 < align }
        ensures { IsFirstFit self.now (less + 1) align (option_map (λ found. found.0) result) }
    {
        fit_among(&self.gaps, less, align)
    }
}

/// Returns an upper bound on the number of bytes, except one, of each gap.
#[inline(never)]
fn widest(gaps: &[Gap]) -> u64
    ensures { All (IsAtMost result) gaps.now }
{
    let mut most = 0;
    let mut start = 0;
    'fours: while gaps.len() - start >= 4 {
        most = widest_of_four(gaps, start).max(most);
        start += 4;
    }
    for at in start..gaps.len() {
        most = gaps[at].less().max(most);
    }
    most
}

/// Returns an upper bound on the number of bytes, except one, of each of four gaps from a position on.
///
/// A loop over single gaps would be compiled to vectors of two gaps, which take more instructions.
#[inline(always)]
fn widest_of_four(gaps: &[Gap], from: usize) -> u64
    requires { from + 4 ≤ length gaps.now }
    ensures { (k : ℕ) (d : SpanSpec) → from ≤ k → k < from + 4 → IsAtMost result (slice_index_or gaps.now k d) }
{
    let low = gaps[from].less().max(gaps[from + 1].less());
    let high = gaps[from + 2].less().max(gaps[from + 3].less());
    low.max(high)
}

/// Returns the lowest start at a multiple of `align` of one byte more than `less` in a gap, and a hint
/// for the position of the gap.
///
/// It skips four short gaps in a step.
#[inline(always)]
fn fit_among(gaps: &[Gap], less: u64, align: u64) -> Option<(u64, usize)>
    requires gaps { AreGaps gaps.now }
    requires aligned { 0 < align }
    ensures { IsFirstFit gaps.now (less + 1) align (option_map (λ found. found.0) result) }
{
    let mut start = 0;
    'fours: while gaps.len() - start >= 4 {
        if !are_short(gaps, start, less) {
            if let Some(found) = fit_from(gaps, start, 4, less, align) {
                return Some(found);
            }
        }
        start += 4;
    }
    fit_from(gaps, start, gaps.len() - start, less, align)
}

/// Returns the lowest start at a multiple of `align` of one byte more than `less` in one of `count`
/// gaps from a position on, and a hint for the position of the gap, given that no gap before them has
/// one.
///
/// If the count is a constant, the compiler unrolls the loop.
#[inline(always)]
fn fit_from(gaps: &[Gap], from: usize, count: usize, less: u64, align: u64) -> Option<(u64, usize)>
    requires gaps { AreGaps gaps.now }
    requires aligned { 0 < align }
    requires within { from + count ≤ length gaps.now }
    requires none { LackFit gaps.now from (less + 1) align }
    ensures some { IfSome result (λ found. IsFirstFit gaps.now (less + 1) align (Some found.0)) }
    ensures none { IfNone result (LackFit gaps.now (from + count) (less + 1) align) }
{
    for step in 0..count {
        let at = from + step;
        if let Some(start) = gaps[at].fit(less, align) {
            return Some((start, at));
        }
    }
    None
}

/// Returns whether each of four gaps from a position on is shorter than one byte more than `less`.
#[inline(always)]
fn are_short(gaps: &[Gap], from: usize, less: u64) -> bool
    requires { from + 4 ≤ length gaps.now }
    ensures { IsTrue result → AreShort gaps.now from (from + 4) less }
{
    gaps[from].less() < less
        && gaps[from + 1].less() < less
        && gaps[from + 2].less() < less
        && gaps[from + 3].less() < less
}

//! A row of gaps: the free spans of a pool, in the order of their addresses.
ghost use Rattle.std.specs.Prelude.{◌≡◌, ◌+◌, ◌-◌, ◌*◌, ◌/◌, ◌<◌, ◌≤◌, ◌^◌, ℕ, List, [], ◌∷◌, length, max, take};
ghost use Rattle.std.specs.Prelude.{insert, remove, slice_set, slice_get, All, IfOk, IfSome, IfNone, IsTrue, Some};
ghost use Rattle.std.specs.Prelude.{None, option_map};
ghost use Rattle.std.specs.List.{slice_index_or};
ghost use Rattle.cc_bounds.specs.declared.span.Span.{Span as SpanSpec};
ghost use Rattle.cc_placer.specs.PlacerState.{IsSomeBytes};
ghost use Rattle.cc_placer.specs.declared.hint.Hint.{Hint as HintSpec};
ghost use Rattle.cc_machine.specs.Gaps.{AreGaps, IsFirstFit};
ghost use Rattle.cc_machine.specs.GapRowState.{IsPlaceAt, IsPlaceIn, gaps_in, gaps_of, index_at, index_of};
ghost use Rattle.cc_machine.specs.GapRow.{AreHeaded, HaveNoFit, IsAtMost, IsHead, IsLocated, IsSplit};

use crate::gap_block::{GapBlock, HALF, MOST_GAPS};
use crate::gap_blocks::GapBlocks;
use crate::gap_heads::{GROUP, Head, Heads};
use cc_bounds::Span;
use cc_placer::Hint;
use std::alloc::{AllocError, Global};
use std::marker::Model;

/// One block is reserved for each 24 gaps, and two more, which is enough.
const GAPS_A_BLOCK: u32 = 24;

/// Two neighbors with at most this number of gaps together may be joined if no further block fits.
const JOINED_GAPS: usize = 48;

/// A gap is near a bound if it is shorter by at most this part of the bound.
// otherwise each object that is cut from a large gap would have the bound computed again
const NEAR: u64 = 1024;

/// A place in a row: a block, and a position in it. The end of a row is the position 0 of the block after
/// the last.
///
/// A search returns one as a [`Hint`], which may be wrong by the time it is used. The functions below
/// require that a `Place` is one of the row.
pub(crate) type Place = Hint;

/// Gaps in the order of their addresses, in blocks of up to 64.
///
/// Each block has a head: the last byte of its last gap, and an upper bound on the length of each.
/// A search for an address takes a binary search over the heads and one in a block. A search for
/// free space walks over the bounds of groups of 16 heads, over the heads of a group in which it may
/// be, and over the gaps of such a block. All memory is reserved when the row is created.
#[derive(Drop)]
pub(crate) struct GapRow {
    /// The maximum number of gaps, for the contract alone.
    room: u32,
    blocks: GapBlocks,
    heads: Heads,
}

impl Model for GapRow {
    ghost use Rattle.cc_machine.specs.GapRowState.{GapRowState};
    ghost use Rattle.cc_machine.specs.GapRow.{IsGapRow};

    ghost Value = { GapRowState };

    ghost view = { λ row. record { blocks = row.blocks.blocks; room = row.room } };

    ghost invariant = { λ row. IsGapRow row.blocks.blocks row.heads.heads row.room row.blocks.room row.heads.room };
}

impl GapRow {
    /// Creates a row without gaps.
    ///
    /// Allocates all the memory that `most` gaps need.
    ///
    /// Errors: `AllocError` if an allocation fails.
    pub(crate) fn with_room(alloc: Global, most: u32) -> Result<GapRow, AllocError>
        requires some { 1 ≤ most }
        requires few { most ≤ 2 ^ 24 + 1 }
        ensures { IfOk result (λ row. (gaps_in row ≡ []) × (row.room ≡ most)) }
    {
        let room = (most / GAPS_A_BLOCK + 2) as usize;
        Ok(GapRow {
            room: most,
            blocks: GapBlocks::with_room(alloc, room)?,
            heads: Heads::with_room(alloc, room)?,
        })
    }

    /// Returns the place of the first gap that ends above an address, and the gap, or the end if
    /// there is none.
    #[inline(always)]
    pub(crate) fn locate(&self, address: u64) -> (Place, Option<Span>)
        ensures place { IsPlaceIn self.now result.0 }
        ensures gap { result.1 ≡ slice_get (gaps_in self.now) (index_of self.now result.0) }
        ensures within { index_of self.now result.0 ≤ length (gaps_in self.now) }
        ensures below { (k : ℕ) (d : SpanSpec) → k < index_of self.now result.0
            → (slice_index_or (gaps_in self.now) k d).top ≤ address }
        ensures above { (d : SpanSpec) → index_of self.now result.0 < length (gaps_in self.now)
            → address < (slice_index_or (gaps_in self.now) (index_of self.now result.0) d).top }
    {
        locate_in(&self.blocks, &self.heads, address)
    }

    /// Returns the gap at a place, or `None` at the end.
    #[inline(always)]
    pub(crate) fn gap(&self, place: Place) -> Option<Span>
        requires { IsPlaceIn self.now place }
        ensures { result ≡ slice_get (gaps_in self.now) (index_of self.now place) }
    {
        if place.block == self.blocks.len() {
            return None;
        }
        Some(self.blocks.at(place.block).at(place.at))
    }

    /// Returns whether a hint is the place of a gap.
    #[inline(always)]
    pub(crate) fn has(&self, place: Hint) -> bool
        ensures { IsTrue result → IsPlaceIn self.now place }
    {
        place.block < self.blocks.len() && place.at < self.blocks.at(place.block).len()
    }

    /// Returns the gap before a place, with its own place, or `None` if there is none.
    #[inline(always)]
    pub(crate) fn gap_before(&self, place: Place) -> Option<(Place, Span)>
        requires { IsPlaceIn self.now place }
        ensures some { IfSome result (λ found. IsPlaceIn self.now found.0
            × (index_of self.now found.0 + 1 ≡ index_of self.now place)
            × (slice_get (gaps_in self.now) (index_of self.now found.0) ≡ Some found.1)) }
        ensures none { IfNone result (index_of self.now place ≡ 0) }
    {
        gap_before_in(&self.blocks, &self.heads, place)
    }

    /// Replaces the gap at a place. Each place keeps its gap.
    #[inline(always)]
    pub(crate) fn set(&mut self, place: Place, gap: Span)
        requires place { IsPlaceIn self.old place }
        requires within { index_of self.old place < length (gaps_in self.old) }
        requires order { AreGaps (slice_set (gaps_in self.old) (index_of self.old place) gap) }
        ensures gaps { gaps_in self.new ≡ slice_set (gaps_in self.old) (index_of self.old place) gap }
        ensures room { self.new.room ≡ self.old.room }
        ensures places { (other : HintSpec) → IsPlaceIn self.old other
            → IsPlaceIn self.new other × (index_of self.new other ≡ index_of self.old other) }
    {
        set_in(
            &mut self.blocks,
            &mut self.heads,
            place.block,
            place.at,
            gap,
        );
    }

    /// Inserts a gap before the one at a place. No place stays valid.
    #[inline(always)]
    pub(crate) fn insert(&mut self, place: Place, gap: Span)
        requires place { IsPlaceIn self.old place }
        requires order { AreGaps (insert (gaps_in self.old) (index_of self.old place) gap) }
        requires room { length (gaps_in self.old) < self.old.room }
        ensures gaps { gaps_in self.new ≡ insert (gaps_in self.old) (index_of self.old place) gap }
        ensures room { self.new.room ≡ self.old.room }
    {
        if self.has_room_at(place) {
            insert_in(
                &mut self.blocks,
                &mut self.heads,
                place.block,
                place.at,
                gap,
            );
        } else {
            self.insert_apart(place, gap);
        }
    }

    /// Returns whether a place is in a block that is not full.
    #[inline(always)]
    fn has_room_at(&self, place: Place) -> bool
        ensures within { IsTrue result → place.block < length self.now.blocks }
        ensures fewer { IsTrue result → length (slice_index_or self.now.blocks place.block []) < 64 }
    {
        place.block < self.blocks.len() && self.blocks.at(place.block).len() < MOST_GAPS
    }

    /// Inserts a gap before the one at a place, as [`insert`](GapRow::insert) does, at the end or in a
    /// block that may be full.
    ///
    /// If no further block fits, two neighbors are joined first. It is not inlined, so that the usual
    /// insertion saves fewer registers.
    #[inline(never)]
    fn insert_apart(&mut self, place: Place, gap: Span)
        requires place { IsPlaceIn self.old place }
        requires order { AreGaps (insert (gaps_in self.old) (index_of self.old place) gap) }
        requires room { length (gaps_in self.old) < self.old.room }
        ensures gaps { gaps_in self.new ≡ insert (gaps_in self.old) (index_of self.old place) gap }
        ensures room { self.new.room ≡ self.old.room }
    {
        if !self.blocks.is_full() {
            insert_with_room(
                &mut self.blocks,
                &mut self.heads,
                place.block,
                place.at,
                gap,
            );
            return;
        }
        join_two(&mut self.blocks, &mut self.heads);
        let (place, _) = locate_in(&self.blocks, &self.heads, gap.base);
        insert_with_room(
            &mut self.blocks,
            &mut self.heads,
            place.block,
            place.at,
            gap,
        );
    }

    /// Removes the gap at a place. Each lower place keeps its gap.
    #[inline(always)]
    pub(crate) fn remove(&mut self, place: Place)
        requires place { IsPlaceIn self.old place }
        requires within { index_of self.old place < length (gaps_in self.old) }
        ensures gaps { gaps_in self.new ≡ remove (gaps_in self.old) (index_of self.old place) }
        ensures room { self.new.room ≡ self.old.room }
        ensures places { (other : HintSpec) → IsPlaceIn self.old other
            → index_of self.old other < index_of self.old place
            → IsPlaceIn self.new other × (index_of self.new other ≡ index_of self.old other) }
    {
        if self.blocks.at(place.block).len() == 1 {
            remove_block(&mut self.blocks, &mut self.heads, place.block);
        } else {
            remove_in(&mut self.blocks, &mut self.heads, place.block, place.at);
        }
    }

    /// Returns the lowest start at a multiple of `align` of `len` bytes in a gap, and a hint for the
    /// place of the gap. `None` if there is none.
    #[inline(always)]
    pub(crate) fn first_fit(&self, len: u128, align: u64) -> Option<(u64, Hint)>
        requires some { 0 < len }
        requires aligned { 0 < align }
        ensures { IsFirstFit (gaps_in self.now) len align (option_map (λ found. found.0) result) }
    {
        let blocks = &self.blocks;
        let Ok(less) = u64::try_from(len - 1) else {
            return None;
        };
        fit_in(blocks, &self.heads, less, align)
    }
}

// Most functions below have the blocks and the heads of a row as parameters, and not the row: their
// contracts speak of the heads, which the value of a row does not have.

/// Returns the place of the first gap that ends above an address, and the gap, or the end if there is
/// none.
#[inline(always)]
fn locate_in(blocks: &GapBlocks, heads: &Heads, address: u64) -> (Place, Option<Span>)
    requires gaps { AreGaps (gaps_of blocks.now.blocks) }
    requires headed { AreHeaded blocks.now.blocks heads.now.heads }
    ensures place { IsPlaceAt blocks.now.blocks result.0.block result.0.at }
    ensures gap { result.1 ≡ slice_get (gaps_of blocks.now.blocks)
        (index_at blocks.now.blocks result.0.block result.0.at) }
    ensures located { IsLocated (gaps_of blocks.now.blocks) address
        (index_at blocks.now.blocks result.0.block result.0.at) }
{
    let block = heads.position(address);
    if block == heads.len() {
        return (Place { block, at: 0 }, None);
    }
    let gaps = blocks.at(block);
    let at = gaps.position(address);
    (Place { block, at }, Some(gaps.at(at)))
}

/// Returns the gap before a place, with its own place, or `None` if there is none.
#[inline(always)]
fn gap_before_in(blocks: &GapBlocks, heads: &Heads, place: Place) -> Option<(Place, Span)>
    requires headed { AreHeaded blocks.now.blocks heads.now.heads }
    requires place { IsPlaceAt blocks.now.blocks place.block place.at }
    ensures some { IfSome result (λ found. IsPlaceAt blocks.now.blocks found.0.block found.0.at
        × (index_at blocks.now.blocks found.0.block found.0.at + 1 ≡ index_at blocks.now.blocks place.block place.at)
        × (slice_get (gaps_of blocks.now.blocks) (index_at blocks.now.blocks found.0.block found.0.at) ≡ Some
        found.1)) }
    ensures none { IfNone result (index_at blocks.now.blocks place.block place.at ≡ 0) }
{
    if place.at > 0 {
        let block = place.block;
        let at = place.at - 1;
        let gap = blocks.at(block).at(at);
        return Some((Place { block, at }, gap));
    }
    if place.block == 0 {
        return None;
    }
    let block = place.block - 1;
    let gaps = blocks.at(block);
    let at = gaps.len() - 1;
    Some((Place { block, at }, gaps.at(at)))
}

/// Returns the lowest start at a multiple of `align` of one byte more than `less` in a gap, and a hint
/// for the place of the gap.
#[inline(always)]
fn fit_in(blocks: &GapBlocks, heads: &Heads, less: u64, align: u64) -> Option<(u64, Hint)>
    requires gaps { AreGaps (gaps_of blocks.now.blocks) }
    requires headed { AreHeaded blocks.now.blocks heads.now.heads }
    requires few { length blocks.now.blocks ≤ 2 ^ 20 }
    requires aligned { 0 < align }
    ensures { IsFirstFit (gaps_of blocks.now.blocks) (less + 1) align (option_map (λ found. found.0) result) }
{
    if heads.bound() < less {
        return None;
    }
    for group in 0..heads.len().div_ceil(GROUP) {
        if heads.group_bound(group) >= less {
            if let Some(found) = fit_in_group(blocks, heads, group, less, align) {
                return Some(found);
            }
        }
    }
    None
}

/// Returns the lowest start at a multiple of `align` of one byte more than `less` in a gap of a
/// group of blocks, and a hint for the place of the gap, given that there is none in the groups before
/// it.
#[inline(always)]
fn fit_in_group(
    blocks: &GapBlocks,
    heads: &Heads,
    group: usize,
    less: u64,
    align: u64,
) -> Option<(u64, Hint)>
    requires gaps { AreGaps (gaps_of blocks.now.blocks) }
    requires headed { AreHeaded blocks.now.blocks heads.now.heads }
    requires aligned { 0 < align }
    requires within { 16 * group < length heads.now.heads }
    requires few { length heads.now.heads ≤ 2 ^ 20 }
    requires none { HaveNoFit blocks.now.blocks (16 * group) (less + 1) align }
    ensures some { IfSome result (λ found. IsFirstFit (gaps_of blocks.now.blocks) (less + 1) align (Some found.0)) }
    ensures none { IfNone result (HaveNoFit blocks.now.blocks (16 * group + 16) (less + 1) align) }
{
    for at in GROUP * group..heads.len().min(GROUP * group + GROUP) {
        if heads.at(at).bound >= less {
            if let Some((start, gap)) = blocks.at(at).fit(less, align) {
                return Some((start, Hint { block: at, at: gap }));
            }
        }
    }
    None
}

/// Replaces the gap at a position in a block.
#[inline(always)]
fn set_in(blocks: &mut GapBlocks, heads: &mut Heads, block: usize, at: usize, gap: Span)
    requires headed { AreHeaded blocks.old.blocks heads.old.heads }
    requires within { block < length blocks.old.blocks }
    requires inside { at < length (slice_index_or blocks.old.blocks block []) }
    requires some { IsSomeBytes gap }
    ensures blocks { blocks.new.blocks
        ≡ slice_set blocks.old.blocks block (slice_set (slice_index_or blocks.old.blocks block []) at gap) }
    ensures headed { AreHeaded blocks.new.blocks heads.new.heads }
    ensures room { blocks.new.room ≡ blocks.old.room }
    ensures heads_room { heads.new.room ≡ heads.old.room }
{
    let changed = blocks.at_mut(block);
    let before = changed.at(at);
    changed.set(at, gap);
    let head = head_after(changed, heads.at(block), less(before), less(gap));
    heads.set(block, head);
}

/// Removes a block, with its head. It is not inlined, so that the usual removal of a gap saves fewer
/// registers.
#[inline(never)]
fn remove_block(blocks: &mut GapBlocks, heads: &mut Heads, block: usize)
    requires headed { AreHeaded blocks.old.blocks heads.old.heads }
    requires within { block < length blocks.old.blocks }
    ensures blocks { blocks.new.blocks ≡ remove blocks.old.blocks block }
    ensures headed { AreHeaded blocks.new.blocks heads.new.heads }
    ensures room { blocks.new.room ≡ blocks.old.room }
    ensures heads_room { heads.new.room ≡ heads.old.room }
{
    blocks.remove(block);
    heads.remove(block);
}

/// Removes the gap at a position in a block that has others.
#[inline(always)]
fn remove_in(blocks: &mut GapBlocks, heads: &mut Heads, block: usize, at: usize)
    requires headed { AreHeaded blocks.old.blocks heads.old.heads }
    requires within { block < length blocks.old.blocks }
    requires inside { at < length (slice_index_or blocks.old.blocks block []) }
    requires others { 1 < length (slice_index_or blocks.old.blocks block []) }
    ensures blocks { blocks.new.blocks
        ≡ slice_set blocks.old.blocks block (remove (slice_index_or blocks.old.blocks block []) at) }
    ensures headed { AreHeaded blocks.new.blocks heads.new.heads }
    ensures room { blocks.new.room ≡ blocks.old.room }
    ensures heads_room { heads.new.room ≡ heads.old.room }
{
    let changed = blocks.at_mut(block);
    let before = changed.at(at);
    changed.remove(at);
    let head = head_after(changed, heads.at(block), less(before), 0);
    heads.set(block, head);
}

/// Inserts a gap at a position in a block that is not full.
#[inline(always)]
fn insert_in(blocks: &mut GapBlocks, heads: &mut Heads, block: usize, at: usize, gap: Span)
    requires headed { AreHeaded blocks.old.blocks heads.old.heads }
    requires within { block < length blocks.old.blocks }
    requires inside { at ≤ length (slice_index_or blocks.old.blocks block []) }
    requires fewer { length (slice_index_or blocks.old.blocks block []) < 64 }
    requires some { IsSomeBytes gap }
    ensures blocks { blocks.new.blocks
        ≡ slice_set blocks.old.blocks block (insert (slice_index_or blocks.old.blocks block []) at gap) }
    ensures headed { AreHeaded blocks.new.blocks heads.new.heads }
    ensures room { blocks.new.room ≡ blocks.old.room }
    ensures heads_room { heads.new.room ≡ heads.old.room }
{
    let changed = blocks.at_mut(block);
    changed.insert(at, gap);
    let head = head_after(changed, heads.at(block), 0, less(gap));
    heads.set(block, head);
}

/// Returns the head of a block after a change: a gap of `added` bytes more than one was added, one of
/// `gone` bytes more than one removed.
#[inline(always)]
fn head_after(block: &GapBlock, head: Head, gone: u64, added: u64) -> Head
    requires some { 0 < length block.now }
    requires bound { All (IsAtMost (max head.bound added)) block.now }
    ensures { IsHead block.now result }
{
    Head {
        last: last_byte(block),
        bound: bound_after(block, head.bound, gone, added),
    }
}

/// Returns a bound of a block after a change, as in [`head_after`].
///
/// It is recomputed only if a gap near the bound is gone, and the one that was added is not near it.
/// So objects that are made one after the other in a large gap do not recompute it each time.
#[inline(always)]
fn bound_after(block: &GapBlock, bound: u64, gone: u64, added: u64) -> u64
    requires { All (IsAtMost (max bound added)) block.now }
    ensures { All (IsAtMost result) block.now }
{
    let near = bound - bound / NEAR;
    if added < near && near <= gone {
        block.widest()
    } else {
        bound.max(added)
    }
}

/// Returns the address of the last byte of a block.
fn last_byte(block: &GapBlock) -> u64
    requires { 0 < length block.now }
    ensures last { (d : SpanSpec) → result + 1 ≡ (slice_index_or block.now (length block.now - 1) d).top }
    ensures few { length block.now ≤ 64 }
{
    (block.at(block.len() - 1).top - 1) as u64
}

/// Returns the number of bytes of a gap, except one.
#[inline(always)]
fn less(gap: Span) -> u64
    requires { IsSomeBytes gap }
    ensures { gap.base + result + 1 ≡ gap.top }
{
    (gap.top - 1) as u64 - gap.base
}

/// Inserts a gap before the one at a place, given that one more block fits.
#[inline(always)]
fn insert_with_room(blocks: &mut GapBlocks, heads: &mut Heads, block: usize, at: usize, gap: Span)
    requires headed { AreHeaded blocks.old.blocks heads.old.heads }
    requires place { IsPlaceAt blocks.old.blocks block at }
    requires room { length blocks.old.blocks < blocks.old.room }
    requires few { blocks.old.room ≤ 2 ^ 20 }
    requires heads_room { heads.old.room ≡ blocks.old.room }
    requires some { IsSomeBytes gap }
    ensures gaps { gaps_of blocks.new.blocks ≡ insert (gaps_of blocks.old.blocks)
        (index_at blocks.old.blocks block at) gap }
    ensures headed { AreHeaded blocks.new.blocks heads.new.heads }
    ensures fits { length blocks.new.blocks ≤ blocks.new.room }
    ensures room { blocks.new.room ≡ blocks.old.room }
    ensures heads_room { heads.new.room ≡ heads.old.room }
{
    if block < blocks.len() {
        insert_at(blocks, heads, block, at, gap);
    } else if block > 0 {
        let last = blocks.at(block - 1).len();
        insert_at(blocks, heads, block - 1, last, gap);
    } else {
        let first = GapBlock::with_gap(gap);
        heads.insert(0, head_of(&first));
        blocks.insert(0, first);
    }
}

/// Inserts a gap at a position in a block, or after its last, given that one more block fits.
fn insert_at(blocks: &mut GapBlocks, heads: &mut Heads, block: usize, at: usize, gap: Span)
    requires headed { AreHeaded blocks.old.blocks heads.old.heads }
    requires within { block < length blocks.old.blocks }
    requires inside { at ≤ length (slice_index_or blocks.old.blocks block []) }
    requires room { length blocks.old.blocks < blocks.old.room }
    requires few { blocks.old.room ≤ 2 ^ 20 }
    requires heads_room { heads.old.room ≡ blocks.old.room }
    requires some { IsSomeBytes gap }
    ensures gaps { gaps_of blocks.new.blocks ≡ insert (gaps_of blocks.old.blocks)
        (index_at blocks.old.blocks block at) gap }
    ensures headed { AreHeaded blocks.new.blocks heads.new.heads }
    ensures fits { length blocks.new.blocks ≤ blocks.new.room }
    ensures room { blocks.new.room ≡ blocks.old.room }
    ensures heads_room { heads.new.room ≡ heads.old.room }
{
    if blocks.at(block).len() < MOST_GAPS {
        insert_in(blocks, heads, block, at, gap);
        return;
    }
    split(blocks, heads, block);
    if at <= HALF {
        insert_in(blocks, heads, block, at, gap);
    } else {
        insert_in(blocks, heads, block + 1, at - HALF, gap);
    }
}

/// Moves the upper half of a full block to a new block after it, given that one more block fits.
fn split(blocks: &mut GapBlocks, heads: &mut Heads, block: usize)
    requires headed { AreHeaded blocks.old.blocks heads.old.heads }
    requires within { block < length blocks.old.blocks }
    requires full { length (slice_index_or blocks.old.blocks block []) ≡ 64 }
    requires room { length blocks.old.blocks < blocks.old.room }
    requires few { blocks.old.room ≤ 2 ^ 20 }
    requires heads_room { heads.old.room ≡ blocks.old.room }
    ensures split { IsSplit blocks.old.blocks block blocks.new.blocks }
    ensures headed { AreHeaded blocks.new.blocks heads.new.heads }
    ensures len { length blocks.new.blocks ≡ length blocks.old.blocks + 1 }
    ensures room { blocks.new.room ≡ blocks.old.room }
    ensures heads_room { heads.new.room ≡ heads.old.room }
{
    let lower = blocks.at_mut(block);
    let upper = lower.split();
    heads.set(block, head_of(lower));
    heads.insert(block + 1, head_of(&upper));
    blocks.insert(block + 1, upper);
}

/// Joins the first two neighbors that have at most `JOINED_GAPS` gaps together.
///
/// Requires: so few gaps for the number of blocks that there are such neighbors.
fn join_two(blocks: &mut GapBlocks, heads: &mut Heads)
    requires headed { AreHeaded blocks.old.blocks heads.old.heads }
    requires few { length blocks.old.blocks ≤ 2 ^ 20 }
    requires many { length (gaps_of blocks.old.blocks) < 49 * (length blocks.old.blocks / 2) }
    ensures gaps { gaps_of blocks.new.blocks ≡ gaps_of blocks.old.blocks }
    ensures headed { AreHeaded blocks.new.blocks heads.new.heads }
    ensures len { length blocks.new.blocks + 1 ≡ length blocks.old.blocks }
    ensures room { blocks.new.room ≡ blocks.old.room }
    ensures heads_room { heads.new.room ≡ heads.old.room }
{
    let Some(at) = small_pair(blocks) else {
        unreachable!()
    };
    let upper = blocks.remove(at + 1);
    heads.remove(at + 1);
    let block = blocks.at_mut(at);
    block.take_in(&upper);
    heads.set(at, head_of(block));
}

/// Returns the position of the lower of the first two neighbors that have at most `JOINED_GAPS` gaps
/// together.
fn small_pair(blocks: &GapBlocks) -> Option<usize>
    ensures some { IfSome result (λ at. at + 1 < length blocks.now.blocks) }
    ensures few { IfSome result (λ at. length (slice_index_or blocks.now.blocks at [])
        + length (slice_index_or blocks.now.blocks (at + 1) []) ≤ 48) }
    ensures none { IfNone result ((k : ℕ) → k + 1 < length blocks.now.blocks
        → 49 ≤ length (slice_index_or blocks.now.blocks k []) + length (slice_index_or blocks.now.blocks (k + 1) [])) }
{
    for upper in 1..blocks.len() {
        if blocks.at(upper - 1).len() + blocks.at(upper).len() <= JOINED_GAPS {
            return Some(upper - 1);
        }
    }
    None
}

/// Returns the head of a block.
fn head_of(block: &GapBlock) -> Head
    requires { 0 < length block.now }
    ensures { IsHead block.now result }
{
    Head {
        last: last_byte(block),
        bound: block.widest(),
    }
}

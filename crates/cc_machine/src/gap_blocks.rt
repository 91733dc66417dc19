//! A row of blocks of gaps.
ghost use Rattle.std.specs.Prelude.{◌≡◌, ◌+◌, ◌<◌, ◌≤◌, ◌↔◌, [], length, insert, remove, IfOk, IsTrue};
ghost use Rattle.std.specs.List.{slice_index_or};
ghost use Rattle.std.specs.Borrow.{sem};

use crate::gap_block::GapBlock;
use slab::Slab;
use std::alloc::{AllocError, Global};
use std::marker::Model;

/// Blocks in a row, in the order of their addresses. Memory for the maximum number of blocks is
/// reserved when the row is created.
///
/// A block does not move in memory when others come before it: only keys move. Memory that has had
/// no block yet is not touched.
#[derive(Drop)]
pub(crate) struct GapBlocks {
    /// The blocks, each under a key, in no order.
    blocks: Slab<GapBlock>,
    /// The keys, in the order of the blocks.
    keys: Vec<usize>,
    /// The maximum number of blocks.
    room: usize,
}

impl Model for GapBlocks {
    ghost use Rattle.std.specs.Prelude.{vec_capacity};
    ghost use Rattle.cc_machine.specs.GapBlocksState.{GapBlocksState};
    ghost use Rattle.cc_machine.specs.GapBlocks.{IsKeyed, blocks_under};

    ghost Value = { GapBlocksState };

    ghost view = { λ r. record { blocks = blocks_under r.blocks r.keys.items; room = r.room } };

    ghost invariant = { λ r. IsKeyed r.blocks r.keys.items r.room (vec_capacity r.keys) };
}

impl GapBlocks {
    ghost use Rattle.cc_machine.specs.GapLends.{LendsGaps};

    /// Creates a row without blocks, with memory for `room` blocks.
    pub(crate) fn with_room(alloc: Global, room: usize) -> Result<GapBlocks, AllocError>
        ensures { IfOk result (λ row. row ≡ record { blocks = []; room = room }) }
    {
        Ok(GapBlocks {
            blocks: Slab::with_capacity(alloc, room)?,
            keys: Vec::with_capacity(alloc, room)?,
            room,
        })
    }

    #[inline(always)]
    pub(crate) fn len(&self) -> usize
        ensures value { result ≡ length self.now.blocks }
        ensures fits { result ≤ self.now.room }
    {
        self.keys.len()
    }

    /// Returns whether no further block fits.
    pub(crate) fn is_full(&self) -> bool
        ensures { IsTrue result ↔ (length self.now.blocks ≡ self.now.room) }
    {
        self.keys.len() == self.room
    }

    #[inline(always)]
    pub(crate) fn at(&self, at: usize) -> &GapBlock
        requires { at < length self.now.blocks }
        ensures { result.now ≡ slice_index_or self.now.blocks at result.now }
    {
        &self.blocks[self.keys[at]]
    }

    /// Returns the block at a position, for a change.
    #[inline(always)]
    pub(crate) fn at_mut(&mut self, at: usize) -> &mut GapBlock
        requires { at < length self.old.blocks }
        ensures* writes_back { sem 𝓛 (LendsGaps self.entry at result) }
        ensures value { result.now ≡ slice_index_or self.old.blocks at result.now }
    {
        &mut self.blocks[self.keys[at]]
    }

    /// Inserts a block at a position, given that one more fits.
    pub(crate) fn insert(&mut self, at: usize, block: GapBlock)
        requires within { at ≤ length self.old.blocks }
        requires room { length self.old.blocks < self.old.room }
        ensures row { self.new ≡ record { blocks = insert self.old.blocks at block; room = self.old.room } }
        ensures len { length self.new.blocks ≡ length self.old.blocks + 1 }
    {
        let key = self.blocks.insert_reserved(block);
        self.keys.insert(at, key).unwrap();
    }

    /// Removes the block at a position, and returns it.
    pub(crate) fn remove(&mut self, at: usize) -> GapBlock
        requires { at < length self.old.blocks }
        ensures value { result ≡ slice_index_or self.old.blocks at result }
        ensures row { self.new ≡ record { blocks = remove self.old.blocks at; room = self.old.room } }
        ensures len { length self.new.blocks + 1 ≡ length self.old.blocks }
    {
        let key = self.keys.remove(at);
        self.blocks.remove(key)
    }
}

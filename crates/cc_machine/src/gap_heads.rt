//! The heads of blocks of gaps: what a search reads before it opens a block.
ghost use Rattle.std.specs.Prelude.{◌≡◌, ℕ, ◌+◌, ◌*◌, ◌/◌, ◌-◌, ◌<◌, ◌≤◌, [], length, insert, remove, slice_set};
ghost use Rattle.std.specs.Prelude.{max, IfOk};
ghost use Rattle.std.specs.List.{slice_index_or};
ghost use Rattle.cc_machine.specs.declared.gap_heads.Head.{Head as HeadSpec};
ghost use Rattle.cc_machine.specs.GapHeads.{AreAtMost, AreBounded, AreBoundedBut};

use crate::searching::step_if_below;
use std::alloc::{AllocError, Global};
use std::marker::Model;

/// The number of heads in each group except the last.
pub(crate) const GROUP: usize = 16;

/// The head of a block of gaps.
#[derive(Clone, Copy)]
pub(crate) struct Head {
    /// The address of the last byte of the last gap.
    pub(crate) last: u64,
    /// An upper bound on the number of bytes, except one, of each gap.
    pub(crate) bound: u64,
}

/// The heads of a row of blocks, in the order of the blocks, with a bound for each group of 16, and
/// one for all. Memory for the maximum number of heads is reserved when the row is created.
#[derive(Drop)]
pub(crate) struct Heads {
    heads: Vec<Head>,
    /// For each group, an upper bound on the bounds of its heads.
    groups: Vec<u64>,
    /// An upper bound on the bounds of all heads.
    bound: u64,
    /// The maximum number of heads, for the contract alone.
    room: usize,
}

impl Model for Heads {
    ghost use Rattle.std.specs.Prelude.{vec_capacity};
    ghost use Rattle.cc_machine.specs.GapHeadsState.{GapHeadsState};
    ghost use Rattle.cc_machine.specs.GapHeads.{AreHeads};

    ghost Value = { GapHeadsState };

    ghost view = { λ h. record { heads = h.heads.items; room = h.room } };

    ghost invariant = { λ h. AreHeads h.heads.items h.groups.items h.bound h.room (vec_capacity h.heads) };
}

impl Heads {
    /// Creates a row without heads, with memory for `room` heads.
    pub(crate) fn with_room(alloc: Global, room: usize) -> Result<Heads, AllocError>
        ensures { IfOk result (λ row. row ≡ record { heads = []; room = room }) }
    {
        Ok(Heads {
            heads: Vec::with_capacity(alloc, room)?,
            groups: vec![in alloc; 0; room.div_ceil(GROUP)]?,
            bound: 0,
            room,
        })
    }

    #[inline(always)]
    pub(crate) fn len(&self) -> usize
        ensures value { result ≡ length self.now.heads }
        ensures fits { result ≤ self.now.room }
    {
        self.heads.len()
    }

    #[inline(always)]
    pub(crate) fn at(&self, at: usize) -> Head
        requires { at < length self.now.heads }
        ensures { result ≡ slice_index_or self.now.heads at result }
    {
        self.heads[at]
    }

    /// Returns an upper bound on the bounds of all heads.
    #[inline(always)]
    pub(crate) fn bound(&self) -> u64
        ensures { AreAtMost result self.now.heads }
    {
        self.bound
    }

    /// Returns an upper bound on the bounds of the heads of a group.
    #[inline(always)]
    pub(crate) fn group_bound(&self, group: usize) -> u64
        requires { 16 * group < length self.now.heads }
        ensures { (at : ℕ) (d : HeadSpec) → at < length self.now.heads → at / 16 ≡ group
            → (slice_index_or self.now.heads at d).bound ≤ result }
    {
        self.groups[group]
    }

    /// Replaces a head.
    #[inline(always)]
    pub(crate) fn set(&mut self, at: usize, head: Head)
        requires { at < length self.old.heads }
        ensures { self.new ≡ record { heads = slice_set self.old.heads at head; room = self.old.room } }
    {
        let before = self.heads[at].bound;
        self.heads[at] = head;
        if head.bound != before {
            renew(&self.heads, &mut self.groups, at, before);
            self.bound = bound_of_all_after(
                &self.heads,
                &self.groups,
                self.bound,
                before,
                head.bound,
            );
        }
    }

    /// Inserts a head, given that one more fits.
    pub(crate) fn insert(&mut self, at: usize, head: Head)
        requires within { at ≤ length self.old.heads }
        requires room { length self.old.heads < self.old.room }
        ensures { self.new ≡ record { heads = insert self.old.heads at head; room = self.old.room } }
    {
        self.heads.insert(at, head).unwrap();
        renew_from(&self.heads, &mut self.groups, at);
        self.bound = self.bound.max(head.bound);
    }

    /// Removes a head.
    pub(crate) fn remove(&mut self, at: usize)
        requires { at < length self.old.heads }
        ensures { self.new ≡ record { heads = remove self.old.heads at; room = self.old.room } }
    {
        let before = self.heads[at].bound;
        self.heads.remove(at);
        renew_from(&self.heads, &mut self.groups, at);
        self.bound = bound_of_all_after(&self.heads, &self.groups, self.bound, before, 0);
    }

    /// Returns the position of the first head whose last byte is at or above an address, or the
    /// number of heads if there is none.
    ///
    /// Requires: the heads are in the order of their last bytes.
    pub(crate) fn position(&self, address: u64) -> usize
        requires order { (i j : ℕ) (d : HeadSpec) → i ≤ j → j < length self.now.heads
            → (slice_index_or self.now.heads i d).last ≤ (slice_index_or self.now.heads j d).last }
        ensures within { result ≤ length self.now.heads }
        ensures below { (d : HeadSpec) → 0 < result → (slice_index_or self.now.heads (result - 1) d).last < address }
        ensures above { (d : HeadSpec) → result < length self.now.heads
            → address ≤ (slice_index_or self.now.heads result d).last }
    {
        let mut low = 0;
        let mut size = self.heads.len();
        if size == 0 {
            return 0;
        }
        while size > 1 {
            let half = size / 2;
            low += step_if_below(self.heads[low + half - 1].last, address, half);
            size -= half;
        }
        low + step_if_below(self.heads[low].last, address, 1)
    }
}

/// Renews the bound of the group of the head at a position, which had another bound before. It is
/// recomputed only if the largest bound of the group is gone.
#[inline(always)]
fn renew(heads: &[Head], groups: &mut [u64], at: usize, before: u64)
    requires within { at < length heads.now }
    requires grouped { length heads.now ≤ 16 * length groups.old }
    requires bounded { AreBoundedBut at (at + 1) heads.now groups.old }
    ensures bounded { AreBounded heads.now groups.new }
    ensures len { length groups.new ≡ length groups.old }
{
    let group = at / GROUP;
    let bound = heads[at].bound;
    if bound >= groups[group] {
        groups[group] = bound;
    } else if before == groups[group] {
        groups[group] = greatest(heads, group);
    }
}

/// Returns an upper bound on the bounds of all heads after a change: a head of the bound `added` was
/// added, one of the bound `gone` removed. It is recomputed only if the largest is gone.
#[inline(always)]
fn bound_of_all_after(heads: &[Head], groups: &[u64], bound: u64, gone: u64, added: u64) -> u64
    requires grouped { length heads.now ≤ 16 * length groups.now }
    requires bounded { AreBounded heads.now groups.now }
    requires most { AreAtMost (max bound added) heads.now }
    ensures { AreAtMost result heads.now }
{
    if added < bound && gone == bound {
        greatest_of_all(heads, groups)
    } else {
        bound.max(added)
    }
}

/// Returns an upper bound on the bounds of all heads, from those of the groups.
#[inline(never)]
fn greatest_of_all(heads: &[Head], groups: &[u64]) -> u64
    requires grouped { length heads.now ≤ 16 * length groups.now }
    requires bounded { AreBounded heads.now groups.now }
    ensures { AreAtMost result heads.now }
{
    let mut most = 0;
    for group in 0..heads.len().div_ceil(GROUP) {
        most = groups[group].max(most);
    }
    most
}

/// Recomputes the bounds of all groups, starting with the group of the head at this position.
fn renew_from(heads: &[Head], groups: &mut [u64], at: usize)
    requires grouped { length heads.now ≤ 16 * length groups.old }
    requires bounded { AreBoundedBut at (length heads.now) heads.now groups.old }
    ensures bounded { AreBounded heads.now groups.new }
    ensures len { length groups.new ≡ length groups.old }
{
    for group in at / GROUP..heads.len().div_ceil(GROUP) {
        groups[group] = greatest(heads, group);
    }
}

/// Returns an upper bound on the bounds of the heads of a group.
#[inline(never)]
fn greatest(heads: &[Head], group: usize) -> u64
    requires { 16 * group < length heads.now }
    ensures { (at : ℕ) (d : HeadSpec) → 16 * group ≤ at → at < 16 * group + 16 → at < length heads.now
        → (slice_index_or heads.now at d).bound ≤ result }
{
    let mut most = 0;
    for at in GROUP * group..heads.len().min(GROUP * group + GROUP) {
        most = heads[at].bound.max(most);
    }
    most
}

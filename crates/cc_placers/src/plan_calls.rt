//! Calls of a planner as data, and runs of them.
ghost use Rattle.std.specs.Prelude.{◌≡◌, All, length};
ghost use Rattle.cc_plan.specs.Plan.{HaveDisjointBounds, HaveExactBounds};
ghost use Rattle.cc_placers.specs.PlanCalls.{AreReplies, IsReply, IsWithinLimit};

use cc_cap::Cap;
use cc_placer::Placer;
use cc_plan::{ObjectId, Planner};
use cc_word::Refusal;

/// A call of a planner.
#[derive(Clone, Copy, PartialEq, Eq)]
pub enum PlanCall {
    /// Makes an object of this size in bytes, at most 2^64.
    Alloc(u128),
    /// Frees the object with this number.
    Free(ObjectId),
    /// Sweeps the freed objects.
    Sweep,
}

/// The reply of a planner to a call.
#[derive(Clone, Copy, PartialEq, Eq)]
pub enum PlanReply {
    /// The object that was made, and its capability.
    Placed(ObjectId, Cap),
    /// The object was freed.
    Freed,
    /// The number of objects that were swept.
    Swept(u32),
    /// The refusal of the call, which changed nothing.
    Refused(Refusal),
}

/// Makes the calls in order, and writes the reply to each to the same position of `replies`.
///
/// Requires: `replies` is as long as `calls`; no size is above 2^64.
pub fn plan_run<P: Placer>(planner: &mut Planner<P>, calls: &[PlanCall], replies: &mut [PlanReply])
    requires lengths { length calls.now ≡ length replies.old }
    requires sizes { All IsWithinLimit calls.now }
    ensures replies { AreReplies planner.old calls.now replies.new planner.new }
    ensures exact_objects { HaveExactBounds planner.new }
    ensures disjoint_objects { HaveDisjointBounds planner.new.objects }
{
    tell_objects(planner);
    for i in 0..calls.len() {
        replies[i] = reply_to(planner, calls[i]);
    }
}

/// Proves the claims that hold for every planner: its objects are exact and disjoint.
fn tell_objects<P: Placer>(planner: &Planner<P>)
    ensures exact_objects { HaveExactBounds planner.now }
    ensures disjoint_objects { HaveDisjointBounds planner.now.objects }
{
    let _ = planner.held_bytes();
}

/// Makes one call, and returns its reply. A refusal is a reply too.
fn reply_to<P: Placer>(planner: &mut Planner<P>, call: PlanCall) -> PlanReply
    requires { IsWithinLimit call }
    ensures reply { IsReply planner.old call result planner.new }
    ensures exact_objects { HaveExactBounds planner.new }
    ensures disjoint_objects { HaveDisjointBounds planner.new.objects }
{
    match call {
        PlanCall::Alloc(size) => match planner.alloc(size) {
            Ok((object, cap)) => PlanReply::Placed(object, cap),
            Err(refusal) => PlanReply::Refused(refusal),
        },
        PlanCall::Free(object) => match planner.free(object) {
            Ok(()) => PlanReply::Freed,
            Err(refusal) => PlanReply::Refused(refusal),
        },
        PlanCall::Sweep => PlanReply::Swept(planner.sweep()),
    }
}

//! The state of the object that a slot belongs to, from the planner.
ghost use Rattle.std.specs.Prelude.{◌≡◌};
ghost use Rattle.cc_machine.specs.Owners.{is_freed_at, is_swept_at};

use cc_plan::{ObjectId, ObjectState, Placer, Planner};

/// Returns whether the object with this number was swept. False for 0, the owner of slots without
/// an object.
pub(crate) fn is_swept<P: Placer>(planner: &Planner<P>, owner: u32) -> bool
    ensures { result ≡ is_swept_at planner.now.objects owner }
{
    match planner.object(ObjectId(owner)) {
        Some(object) => matches!(object.state(), ObjectState::Swept),
        None => false,
    }
}

/// Returns whether the object with this number was freed, and not swept yet. False for 0, the owner
/// of slots without an object.
pub(crate) fn is_freed<P: Placer>(planner: &Planner<P>, owner: u32) -> bool
    ensures { result ≡ is_freed_at planner.now.objects owner }
{
    match planner.object(ObjectId(owner)) {
        Some(object) => matches!(object.state(), ObjectState::Freed),
        None => false,
    }
}

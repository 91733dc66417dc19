//! The objects of a heap under their ids.
ghost use Rattle.std.specs.Prelude.{◌≡◌, ◌∷◌, false, nat_eq, IsNone, IsSome, OnErr, OnOk, Some};
ghost use Rattle.std.specs.List.{IsDistinct};
ghost use Rattle.std.specs.List.Sorted.{IsPermutation};
ghost use Rattle.std.specs.Map.{keys_of, lookup};
ghost use Rattle.cc_heap.specs.declared.object.Object.{Object as ObjectSpec};

use crate::object::Object;
use std::alloc::AllocError;
use std::collections::HashMap;

/// Puts an object under `to` in place of the one under `from`, which can be the same id.
///
/// On `Err` nothing changes.
pub(crate) fn put_for(
    objects: &mut HashMap<u64, Object>,
    from: u64,
    to: u64,
    object: Object,
) -> Result<(), AllocError>
    requires live { IsSome (lookup (nat_eq from) objects.old.entries) }
    requires fresh { nat_eq from to ≡ false → IsNone (lookup (nat_eq to) objects.old.entries) }
    ensures swaps { OnOk result ((before : ObjectSpec) → lookup (nat_eq from) objects.old.entries ≡ Some before
        → IsPermutation ((to, object) ∷ objects.old.entries) ((from, before) ∷ objects.new.entries)) }
    ensures unique { OnOk result (IsDistinct nat_eq (keys_of objects.new.entries)) }
    ensures refused { OnErr result (objects.new.entries ≡ objects.old.entries) }
{
    objects.insert(to, object)?;
    if from == to {
        return Ok(());
    }
    objects.remove(&from);
    Ok(())
}

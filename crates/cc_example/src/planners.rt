//! Placers and planners are created at the second attempt if an allocation failed at the first. In
//! an ordinary run none fails; `tests/opening` lets each allocation of these tests fail in turn.
use cc_cap::Cap;
use cc_machine::GapPlacer;
use cc_placers::{ScanPlacer, SortedPlacer};
use cc_plan::{ObjectId, Placer, Planner};
use std::alloc::{AllocError, Global};
use std::process::Abort;

/// Returns the capability for a pool of `len` bytes from this base.
fn pool(base: u64, len: u128) -> Option<Cap> {
    if len > 1 << 64 {
        return None;
    }
    Cap::root()
        .set_address(base)
        .ok()?
        .set_bounds_exact(len)
        .ok()
}

/// An object is made, freed and swept.
fn works<P: Placer>(planner: &mut Planner<P>) -> bool {
    planner.alloc(16).is_ok() && planner.free(ObjectId(1)).is_ok() && planner.sweep() == 1
}

/// A placer is created, at the latest at the second attempt, and holds nothing.
fn placer_opens<P: Placer>(alloc: Global, limit: u32) -> bool {
    let limit = limit.clamp(1, 4096);
    let placer = match P::with_limit(alloc, limit) {
        Ok(placer) => Ok(placer),
        Err(AllocError) => P::with_limit(alloc, limit),
    };
    match placer {
        Ok(placer) => placer.count() == 0,
        Err(AllocError) => false,
    }
}

/// Creates a planner, at the latest at the second attempt.
fn open_planner<P: Placer>(alloc: Global, limit: u32) -> Option<Planner<P>> {
    let limit = limit.clamp(1, 4096);
    match Planner::with_limit(alloc, limit) {
        Ok(planner) => Some(planner),
        Err(AllocError) => Planner::with_limit(alloc, limit).ok(),
    }
}

/// A planner is created, at the latest at the second attempt, and works.
fn planner_opens<P: Placer>(alloc: Global, limit: u32) -> bool {
    let (Some(mut planner), Some(pool)) = (open_planner::<P>(alloc, limit), pool(0x1000, 0x100))
    else {
        return false;
    };
    planner.give_pool(pool).is_ok() && works(&mut planner)
}

fn check_opening<P: Placer>(rt: &impl Abort, alloc: Global) {
    for limit in [1, 2, 4096u32] {
        assert!(rt; placer_opens::<P>(alloc, limit), "{limit}");
        assert!(rt; planner_opens::<P>(alloc, limit), "{limit}");
    }
}

#[test]
fn scanning_placer_opens_again(rt: HostRuntime) {
    check_opening::<ScanPlacer>(&rt, rt.alloc());
}

#[test]
fn sorted_placer_opens_again(rt: HostRuntime) {
    check_opening::<SortedPlacer>(&rt, rt.alloc());
}

#[test]
fn gap_placer_opens_again(rt: HostRuntime) {
    check_opening::<GapPlacer>(&rt, rt.alloc());
}

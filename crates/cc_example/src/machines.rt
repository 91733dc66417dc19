//! A machine is created at the second attempt if an allocation failed at the first. In an ordinary
//! run none fails; `tests/opening` lets each allocation of this test fail in turn.
use cc_machine::{Machine, Op, Reply};
use cc_word::Refusal;
use std::alloc::{AllocError, Global};

/// The machine makes slots up to its limit, and no more.
fn makes_slots(machine: &mut Machine, limit: u32) -> bool {
    for _ in 1..limit {
        if !matches!(machine.step(&Op::Flag(0, true)), Reply::Made { .. }) {
            return false;
        }
    }
    machine.slots() == limit && machine.step(&Op::Flag(0, true)) == Reply::Refused(Refusal::Full)
}

/// A machine is created, at the latest at the second attempt, and makes slots up to its limit.
fn opens_again(alloc: Global, limit: u32) -> bool {
    let limit = limit.clamp(1, 4096);
    let machine = match Machine::with_limit(alloc, limit) {
        Ok(machine) => Ok(machine),
        Err(AllocError) => Machine::with_limit(alloc, limit),
    };
    match machine {
        Ok(mut machine) => makes_slots(&mut machine, limit),
        Err(AllocError) => false,
    }
}

#[test]
fn machine_opens_again(rt: HostRuntime) {
    for limit in [1, 2, 4096u32] {
        assert!(rt; opens_again(rt.alloc(), limit));
    }
}

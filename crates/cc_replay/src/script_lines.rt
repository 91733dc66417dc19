//! The lines of operations.
ghost use Rattle.std.specs.Prelude.{◌≡◌, ◌≤◌, ◌+◌, ◌++◌, length, replicate};
ghost use Rattle.cc_values.specs.declared.op.Op.TheVariants.{Sweep};
ghost use Rattle.cc_replay.specs.Operations.{operation_lines};
ghost use Rattle.cc_replay.specs.Deeds.{alloc_operations, numbered_free, numbered_operations};

use crate::deeds::{Deeds, MadeEntry};
use cc_heap::Policy;
use cc_io::Page;

/// Appends the lines of deeds that free the objects of these numbers.
#[tactic(auto, using(crate::proofs::LineLemmas::deeds_pushed))]
pub(crate) fn push_deeds<const N: usize>(
    page: &mut Page<N>,
    policy: Policy,
    cleared: Option<u32>,
    freed: Option<u32>,
    deeds: Deeds,
)
    requires room { length page.old + 128 ≤ N }
    requires few { deeds.sweeps ≤ 2 }
    ensures { page.new ≡ page.old ++ operation_lines (numbered_operations policy cleared freed deeds) }
{
    push_free(page, policy, cleared);
    push_sweeps(page, deeds.sweeps);
    push_alloc(page, deeds.made);
    push_free(page, policy, freed);
    push_sweeps(page, u64::from(deeds.is_swept));
}

/// Appends the lines of a free of the object of a number, if there is one.
fn push_free<const N: usize>(page: &mut Page<N>, policy: Policy, number: Option<u32>)
    requires { length page.old + 22 ≤ N }
    ensures value { page.new ≡ page.old ++ operation_lines (numbered_free policy number) }
    ensures fits { length page.new ≤ length page.old + 22 }
{
    let Some(number) = number else {
        return;
    };
    page.push(b"free ");
    page.push_index(number);
    page.push(b"\n");
    if let Policy::Immediate = policy {
        page.push(b"sweep\n");
    }
}

/// Appends the lines of sweeps.
fn push_sweeps<const N: usize>(page: &mut Page<N>, count: u64)
    requires room { length page.old + 12 ≤ N }
    requires few { count ≤ 2 }
    ensures value { page.new ≡ page.old ++ operation_lines (replicate count Sweep) }
    ensures fits { length page.new ≤ length page.old + 12 }
{
    match count {
        0 => {}
        1 => page.push(b"sweep\n"),
        _ => page.push(b"sweep\nsweep\n"),
    }
}

/// Appends the line by which an object is made, if there is one.
fn push_alloc<const N: usize>(page: &mut Page<N>, entry: Option<MadeEntry>)
    requires { length page.old + 47 ≤ N }
    ensures value { page.new ≡ page.old ++ operation_lines (alloc_operations entry) }
    ensures fits { length page.new ≤ length page.old + 47 }
{
    let Some(entry) = entry else {
        return;
    };
    page.push(b"alloc ");
    page.push_decimal(u128::from(entry.size));
    page.push(b"\n");
}

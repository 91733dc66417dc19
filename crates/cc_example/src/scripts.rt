//! Scripts that allocate nothing: `tests/opening` makes every allocation fail that these tests make
//! once the machine is created.
use cc_machine::Machine;
use cc_script::{ScriptFault, SliceSink, SliceSource, Summary, run_script};
use std::alloc::{AllocError, Global};

const ERRORS: Result<Summary, ScriptFault> = Ok(Summary { any_error: true });

const SCRIPT: &[u8] = b"\
addr 0 0x10000
exact 1 0x10000
pool 2
alloc 100
alloc 5000
free 2
sweep
alloc 65537
bounds 3 16
free 1
sweep
show 4
show 0";

/// The replies to its lines, and last the one to its trailing bytes.
const OUTPUT: &[u8] = b"\
slot 1 ffff0000000000000000000000010000 0x0 0x10000000000000000
slot 2 ffff0000000190000000000000010000 0x10000 0x20000
pool 2 0x10000 0x20000
object 1 slot 3 ffff0000041880040000000000010000 0x10000 0x10064 held 100
object 2 slot 4 ffff000000fd806c0000000000010068 0x10068 0x113f0 held 5100
freed 2 revoked 0 held 5100
swept 1 revoked 1 held 100
error 20 noroom
slot 5 ffff0000040580040000000000010000 0x10000 0x10010
freed 1 revoked 0 held 100
swept 1 revoked 2 held 0
error 6 revoked
error 2 unfinished
";

/// A script and its output.
type Row<'a> = (&'a [u8], &'a [u8]);

const PLAN: Row = (SCRIPT, OUTPUT);

const POOL_OF_EVERYTHING: Row = (
    b"alloc 1\npool 0\npool 0\nalloc 0x10000000000000000\nalloc 1\n",
    b"\
error 17 nopool
pool 0 0x0 0x10000000000000000
error 18 poolset
object 1 slot 1 ffff0000000000000000000000000000 0x0 0x10000000000000000 held 18446744073709551616
error 20 noroom
",
);

/// Returns whether the script has its output, in small chunks.
fn writes(machine: &mut Machine, row: &Row) -> bool {
    let (script, output) = *row;
    let mut room = [0u8; 1024];
    let mut source = SliceSource::new(script, 7, None);
    let mut sink = SliceSink::new(&mut room, 5, None);
    let end = run_script(machine, &mut source, &mut sink);
    let taken = sink.taken();
    end == ERRORS && room.get(..taken) == Some(output)
}

/// Returns whether the script has its output on a new machine.
fn writes_anew(alloc: Global, row: &Row) -> bool {
    match Machine::with_limit(alloc, 64) {
        Ok(mut machine) => writes(&mut machine, row),
        Err(AllocError) => false,
    }
}

#[test]
fn no_memory_after_opening(rt: HostRuntime) {
    assert!(rt; writes_anew(rt.alloc(), &PLAN));
}

/// On a machine whose pool is the whole address space.
#[test]
fn no_memory_after_opening_for_a_whole_pool(rt: HostRuntime) {
    assert!(rt; writes_anew(rt.alloc(), &POOL_OF_EVERYTHING));
}

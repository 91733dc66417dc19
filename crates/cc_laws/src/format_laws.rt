//! A law of the lines of a format. The contract of the function is the law, and its body is empty.
ghost use Rattle.std.specs.Prelude.{◌≡◌, ◌<◌, ◌≤◌, ◌^◌, ℕ, List, Ok, length};
ghost use Rattle.cc_replay.specs.Mtrace.{IsCaller, allocation_line, free_line, mtrace_in};
ghost use Rattle.cc_replay.specs.declared.report.LineReport.TheVariants.{Allocation, Free};

/// Proves that a line of at most 128 bytes, as `mtrace` writes it for an object that is made or
/// freed, reports that object.
///
/// The caller has no `]`. The numbers are below 2^64, in hexadecimal with `0x`, and the pointer is
/// not 0.
pub fn mtrace_lines_are_read_back()
    ensures allocation { (caller : List ℕ) (pointer size : ℕ) → IsCaller caller
        → length (allocation_line caller pointer size) ≤ 128 → 0 < pointer → pointer < 2 ^ 64 → size < 2 ^ 64
        → mtrace_in (allocation_line caller pointer size) ≡ Ok (Allocation pointer size) }
    ensures free { (caller : List ℕ) (pointer : ℕ) → IsCaller caller → length (free_line caller pointer) ≤ 128
        → 0 < pointer → pointer < 2 ^ 64 → mtrace_in (free_line caller pointer) ≡ Ok (Free pointer) }
{}

//! Proves that the premises of the laws of numbers, of words and of lines of a format are met, by the
//! largest numbers of 64 and of 128 bits and by a line of `mtrace`, and not by every number; and the units
//! of a chart's labels. Each function here does nothing, and its contract is the claim.
ghost use Rattle.std.specs.Prelude.{◌≡◌, ◌<◌, ◌≤◌, ◌-◌, ◌^◌, [], ◌∷◌, codes, length};
ghost use Rattle.cc_bounds.specs.declared.align.Align.TheVariants.{One};
ghost use Rattle.cc_values.specs.declared.op.Op.TheVariants.{Addr};
ghost use Rattle.cc_machine.specs.Run.{IsInAddressSpace};
ghost use Rattle.cc_heap.specs.Alignment.{HasAlignment};
ghost use Rattle.cc_heap.specs.declared.event.Event.TheVariants.{Allocate, Free};
ghost use Rattle.cc_replay.specs.Changes.{AsksForUnit};
ghost use Rattle.cc_heap.specs.ChartDrawing.{byte_unit, event_letter, event_unit};
ghost use Rattle.cc_replay.specs.Trace.{HasNumbersInRange};
ghost use Rattle.cc_replay.specs.Mtrace.{IsCaller, allocation_line, free_line};

fn numbers_in_range()
    ensures decimal { 2 ^ 64 - 1 < 10 ^ 64 }
    ensures hexadecimal { 2 ^ 64 - 1 < 16 ^ 64 }
    ensures word { 2 ^ 128 - 1 < 2 ^ 128 }
    ensures padded { 2 ^ 128 - 1 < 16 ^ 32 }
    ensures plain { 2 ^ 64 - 1 < 2 ^ 64 }
{}

/// An event of a trace, as its line in the own format gives it.
fn an_event_of_a_trace()
    ensures numbers { HasNumbersInRange (Allocate 1 16 1) }
    ensures alignment { HasAlignment (Allocate 1 16 1) }
{}

/// An address of 65 bits, an id of 65 bits, and an alignment above the unit of the size.
fn numbers_out_of_range()
    ensures address { ¬ IsInAddressSpace (Addr 0 (2 ^ 64)) }
    ensures id { ¬ HasNumbersInRange (Free (2 ^ 64)) }
    ensures alignment { ¬ AsksForUnit One (Allocate 1 16 2) }
{}

/// Lines of a caller, and a caller with a `]`.
fn lines_of_a_caller()
    ensures caller { IsCaller (codes "a:[0x1") }
    ensures allocation { length (allocation_line (codes "a:[0x1") 0x10000 16) ≤ 128 }
    ensures free { length (free_line (codes "a:[0x1") 0x10000) ≤ 128 }
    ensures not_caller { ¬ IsCaller (93 ∷ []) }
{}

/// The units of the largest labels of a chart: no test has a trace that reaches a billion events.
fn units_of_labels()
    ensures events { event_letter (10 ^ 9) ≡ codes "G</text>\n" }
    ensures event_unit { event_unit (10 ^ 9) ≡ 10 ^ 9 }
    ensures fewer_events { event_letter (10 ^ 9 - 1) ≡ codes "M</text>\n" }
    ensures fewer_unit { event_unit (10 ^ 9 - 1) ≡ 10 ^ 6 }
    ensures bytes { byte_unit 6 ≡ codes " EiB</text>\n" }
    ensures fewer_bytes { byte_unit 5 ≡ codes " PiB</text>\n" }
{}

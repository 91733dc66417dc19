//! Proves that the premises of the laws of a trace's script are met, by a worked trace, and by a pool
//! for its script. Each function here does nothing, and its contract is the claim.
ghost use Rattle.std.specs.Prelude.{◌≡◌, ℕ, Bool, false, List, [], ◌∷◌};
ghost use Rattle.std.specs.List.{AllByRecursion};
ghost use Rattle.cc_bounds.specs.declared.align.Align.TheVariants.{One};
ghost use Rattle.cc_io.specs.Answers.{Output};
ghost use Rattle.cc_io.specs.Frames.{lines};
ghost use Rattle.cc_values.specs.declared.op.Op.TheVariants as op;
ghost use Rattle.cc_values.specs.declared.reply.Reply.{Reply};
ghost use Rattle.cc_machine.specs.State.{State, initial_state};
ghost use Rattle.cc_machine.specs.Run.{Run};
ghost use Rattle.cc_syntax.specs.Planning.{plan_opening};
ghost use Rattle.cc_heap.specs.declared.event.Event.TheVariants.{Allocate, Free, Sweep};
ghost use Rattle.cc_heap.specs.declared.policy.Policy.TheVariants.{Trace};
ghost use Rattle.cc_heap.specs.Heap.{Heap, empty_heap};
ghost use Rattle.cc_heap.specs.Lost.{empty_run};
ghost use Rattle.cc_heap.specs.Run.{Runs};
ghost use Rattle.cc_replay.specs.Replay.{ReplayState, TakesLine, TakesRest, begun};
ghost use Rattle.cc_replay.specs.declared.reading.Progress.TheVariants.{Running};
ghost use Rattle.cc_replay.specs.Changes.{AsksForUnit, CanBePlanned, Change, Changes, objects_made};
ghost use Rattle.cc_replay.specs.Operations.{no_numbers, operations_of};
ghost use Rattle.cc_replay.specs.Script.{ScriptState, ScriptsLine, ScriptsRest, script_begun};
ghost use Rattle.cc_laws.specs.Translation.{IsAccepted, IsReadAs};
ghost use Rattle.cc_laws.specs.WorkedTrace.{worked_settings, worked_reading, worked_trace, worked_trace_script};

/// A trace whose object is made, freed and swept, and its script.
fn a_trace_that_has_a_script()
    ensures { (new : ScriptState)
        × Output ScriptsLine ScriptsRest lines (script_begun worked_settings worked_reading) worked_trace
        worked_trace_script false new
        × (new.progress ≡ Running) }
{}

/// A machine with enough slots for each script, and the pool of the trace.
fn a_machine_that_has_the_pool()
    ensures { (opening : List Reply) × (opened : State)
        × Run (initial_state 65536) (plan_opening 0x10000 65536 One) opening opened
        × AllByRecursion IsAccepted opening }
{}

/// The events of this trace, and their changes, which have the operations of the script.
fn a_heap_that_takes_the_events()
    ensures events { (heap : Heap) × Runs (empty_heap worked_settings) (Allocate 1 16 1 ∷ Free 1 ∷ Sweep ∷ []) heap
        × (heap.totals.made ≡ 1) }
    ensures asks { AllByRecursion (AsksForUnit One) (Allocate 1 16 1 ∷ Free 1 ∷ Sweep ∷ []) }
    ensures changes { (changes : List Change) × (heap : Heap) × Changes (empty_heap worked_settings) changes heap
        × AllByRecursion (CanBePlanned One) (objects_made changes)
        × (operations_of Trace no_numbers changes ≡ op.Alloc 16 ∷ op.Free 1 ∷ op.Sweep ∷ []) }
{}

/// A machine with this pool that runs the operations as which the script is read, and a replay of the
/// trace.
fn a_machine_that_runs_the_script()
    ensures reads { IsReadAs worked_trace_script (op.Alloc 16 ∷ op.Free 1 ∷ op.Sweep ∷ []) }
    ensures runs { (limit : ℕ) (opening : List Reply) (opened : State)
        → Run (initial_state limit) (plan_opening 0x10000 65536 One) opening opened
        → (replies : List Reply) × (state : State) × Run opened (op.Alloc 16 ∷ op.Free 1 ∷ op.Sweep ∷ []) replies
        state }
    ensures replay { (output : List ℕ) × (any_error : Bool) × (new : ReplayState)
        × Output TakesLine TakesRest lines (begun (empty_run worked_settings) worked_reading) worked_trace output
        any_error new
        × (new.progress ≡ Running) }
{}

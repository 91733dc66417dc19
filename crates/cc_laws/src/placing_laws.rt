//! Laws of heaps and machines: both place alike.
ghost use Rattle.std.specs.Prelude.{◌≡◌, ◌≢◌, ℕ, Bool, ◌+◌, ◌≤◌, List, None, length};
ghost use Rattle.std.specs.List.{AllByRecursion};
ghost use Rattle.cc_bounds.specs.Span.{span_from};
ghost use Rattle.cc_io.specs.Answers.{Output};
ghost use Rattle.cc_io.specs.Frames.{lines};
ghost use Rattle.cc_io.specs.Lines.{lines_of};
ghost use Rattle.cc_values.specs.declared.op.Op.{Op};
ghost use Rattle.cc_values.specs.declared.reply.Reply.{Reply};
ghost use Rattle.cc_syntax.specs.Planning.{plan_opening};
ghost use Rattle.cc_machine.specs.State.{State, initial_state};
ghost use Rattle.cc_machine.specs.Objects.{held_bytes_of};
ghost use Rattle.cc_machine.specs.Run.{Run};
ghost use Rattle.cc_heap.specs.declared.event.Event.{Event};
ghost use Rattle.cc_heap.specs.declared.reallocation.Reallocation.TheVariants.{Move};
ghost use Rattle.cc_heap.specs.declared.settings.Settings.{Settings};
ghost use Rattle.cc_heap.specs.Heap.{Heap, empty_heap};
ghost use Rattle.cc_heap.specs.Lost.{empty_run};
ghost use Rattle.cc_heap.specs.Memory.{usage_of};
ghost use Rattle.cc_heap.specs.Run.{Runs};
ghost use Rattle.cc_replay.specs.Replay.{ReplayState, TakesLine, TakesRest, begun, events_in};
ghost use Rattle.cc_replay.specs.declared.reading.Progress.TheVariants.{Running, OutOfMemory};
ghost use Rattle.cc_replay.specs.declared.reading.Reading.{Reading};
ghost use Rattle.cc_replay.specs.Changes.{AsksForUnit, CanBePlanned, Change, Changes, objects_made};
ghost use Rattle.cc_replay.specs.Operations.{no_numbers, operations_of};
ghost use Rattle.cc_replay.specs.Script.{ScriptState, ScriptsLine, ScriptsRest, script_begun};
ghost use Rattle.cc_laws.specs.Translation.{IsAccepted, IsFollowed, IsReadAs, IsTranslated, PlacesAlike};

/// Proves that a machine that takes the changes of a heap as operations places each object at the bytes
/// at which the heap placed it, and holds the same spans in the end.
///
/// The machine has the pool of the heap, made by [`plan_opening`](cc_syntax::plan_opening), with
/// the heap's alignment. The machine has to have a slot for each object that is made, next to the
/// three of its pool. No object may be requested with a larger alignment than the unit of its size.
/// Each object has a byte or more, and no setup operation is refused.
pub fn machines_place_like_heaps()
    ensures { (limit base size : ℕ) (settings : Settings) (changes : List Change) (heap : Heap)
        (opening replies : List Reply) (opened state : State)
        → settings.pool ≡ span_from base size
        → Run (initial_state limit) (plan_opening base size settings.align) opening opened
        → AllByRecursion IsAccepted opening
        → Changes (empty_heap settings) changes heap
        → AllByRecursion (CanBePlanned settings.align) (objects_made changes)
        → length (objects_made changes) + 3 ≤ limit
        → Run opened (operations_of settings.policy no_numbers changes) replies state
        → PlacesAlike changes heap replies state }
{}

/// Proves that a machine that takes the changes of a trace's events as operations places each object at
/// the bytes at which the heap placed it, and holds the same spans in the end.
///
/// It holds for every run of events from a heap that held nothing, whatever its policy, and whatever ids
/// are unknown or live. An object that has no place is not made by the heap, and has no operation.
/// Reallocations move objects, since no operation of a machine changes the size of an object in its
/// place. No event may request a larger alignment than the unit of its size, and the objects that are
/// made must have slots. [`machines_place_like_heaps`] says it of the changes alone, and by
/// [`every_run_has_an_outcome`](crate::machine_laws::every_run_has_an_outcome) the machine has such a run. No
/// setup operation is refused. The machine has at most 65,536 slots, and at least three more than objects
/// are made.
pub fn traces_are_placed_alike()
    ensures { (limit base size : ℕ) (settings : Settings) (events : List Event) (heap : Heap)
        (opening : List Reply) (opened : State)
        → settings.pool ≡ span_from base size
        → Run (initial_state limit) (plan_opening base size settings.align) opening opened
        → AllByRecursion IsAccepted opening
        → settings.realloc ≡ Move
        → AllByRecursion (AsksForUnit settings.align) events → Runs (empty_heap settings) events heap
        → limit ≤ 65536 → heap.totals.made + 3 ≤ limit
        → IsTranslated settings events heap opened }
{}

/// Proves that a machine that reads the output of a trace's script places each object at the bytes at
/// which the heap placed it, and holds the same spans in the end.
///
/// `Output` is the relation between a trace and its output that
/// [`script_trace`](cc_replay::script_trace) states by `Pumps`. The output is the script of the
/// trace's own events, as [`outputs_are_scripts`](crate::scripting_laws::outputs_are_scripts) says. Its
/// lines are read by [`parse_line`](cc_syntax::parse_line) as the operations of the changes of
/// these events, and the machine has a run of these. The machine has the pool of the heap, made by
/// [`plan_opening`](cc_syntax::plan_opening), with the heap's alignment. A script makes at most
/// 65,533 objects, so that 65,536 slots are enough. It holds for every trace. No setup operation is
/// refused. If the script ends before its trace does, the heap has taken the events before.
pub fn scripts_are_placed_alike()
    ensures { (limit base size : ℕ) (settings : Settings) (reading : Reading) (new : ScriptState) (text output : List ℕ)
        (any_error : Bool) (opening : List Reply) (opened : State)
        → Output ScriptsLine ScriptsRest lines (script_begun settings reading) text output any_error new
        → new.progress ≢ OutOfMemory
        → settings.pool ≡ span_from base size
        → Run (initial_state limit) (plan_opening base size settings.align) opening opened
        → AllByRecursion IsAccepted opening
        → 65536 ≤ limit
        → IsFollowed settings (events_in reading.format None (lines_of text)) new.progress output new.heap opened }
{}

/// Proves that, at the end of a trace's script, a machine holds as many bytes as the heap of the trace's
/// replay: its live and its quarantined ones, including padding.
///
/// Both outputs are for all lines of one trace: lines are still taken at the end. The machine has
/// run the operations as which the script is read, in the pool of the heap. It has 65,536 slots or
/// more, and refuses no setup operation.
pub fn scripts_hold_the_bytes_of_replays()
    ensures { (limit base size : ℕ) (settings : Settings) (reading : Reading) (text script series : List ℕ)
        (any_error is_error : Bool)
        (scripted : ScriptState) (replayed : ReplayState) (opening replies : List Reply) (opened state : State)
        (ops : List Op)
        → Output ScriptsLine ScriptsRest lines (script_begun settings reading) text script any_error scripted
        → scripted.progress ≡ Running
        → Output TakesLine TakesRest lines (begun (empty_run settings) reading) text series is_error replayed
        → replayed.progress ≡ Running
        → settings.pool ≡ span_from base size
        → Run (initial_state limit) (plan_opening base size settings.align) opening opened
        → AllByRecursion IsAccepted opening
        → 65536 ≤ limit → IsReadAs script ops → Run opened ops replies state
        → held_bytes_of state ≡ (usage_of replayed.run.heap.memory).live +
        (usage_of replayed.run.heap.memory).quarantine }
{}

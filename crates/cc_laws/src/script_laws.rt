//! Laws of every line and of every script. The contract of each function is a law, and its body is
//! empty.
ghost use Rattle.std.specs.Prelude.{◌≡◌, ◌⊎◌, ◌↔◌, ◌++◌, [], ◌∷◌, ℕ, Bool, List, Option, Result};
ghost use Rattle.std.specs.Io.KnownBytes.{Appends};
ghost use Rattle.std.specs.List.{AllByRecursion};
ghost use Rattle.cc_word.specs.declared.refusal.Refusal.{Refusal};
ghost use Rattle.cc_values.specs.declared.op.Op.{Op};
ghost use Rattle.cc_values.specs.declared.reply.Reply.{Reply};
ghost use Rattle.cc_machine.specs.declared.object.Object.{Object};
ghost use Rattle.cc_machine.specs.State.{State};
ghost use Rattle.cc_machine.specs.Objects.{IsHeldObject};
ghost use Rattle.cc_machine.specs.ObjectConfinement.{AreOfObject, IsConfinedToObject};
ghost use Rattle.cc_machine.specs.Run.{Run, IsReached, IsInAddressSpace};
ghost use Rattle.cc_values.specs.Values.{OneJoin};
ghost use Rattle.cc_script.specs.Output.{commands_of, TakesAll, ScriptOutput, operations_among, operation_replies};
ghost use Rattle.cc_script.specs.Laws.{TakesAllWithin};
ghost use Rattle.cc_laws.specs.ScriptParts.{EndsLine, OutputInParts};
ghost use Rattle.cc_script.specs.Failures.{StopsInReplies, StopsAfterLines, BeginsScriptOutput};

/// Proves that the tokens of a line, with one space between each two, are the line, and that no
/// other tokens are.
pub fn one_join()
    ensures { (line : List ℕ) → OneJoin line }
{}

/// Proves that a machine that takes the commands of a script runs the operations among them, with
/// their replies.
///
/// So a claim that holds for every run of a machine holds for every script. From a state that a run
/// leads to, the commands lead to such a state.
pub fn commands_run()
    ensures run { (old new : State) (commands : List (Result Op Refusal)) (replies : List Reply)
        → TakesAll old commands replies new
        → Run old (operations_among commands) (operation_replies commands replies) new }
    ensures reached { (old new : State) (commands : List (Result Op Refusal)) (replies : List Reply)
        → IsReached old → TakesAll old commands replies new → IsReached new }
{}

/// Proves that a script whose commands use only slots of one held object, and slots that they made,
/// is confined to that object.
///
/// The law [`confinement_to_an_object`](crate::machine_laws::confinement_to_an_object) says the same of a run.
pub fn scripts_are_confined_to_an_object()
    ensures { (given : ℕ → Bool) (old new : State) (commands : List (Result Op Refusal)) (replies : List Reply)
        (number : ℕ) (object : Object)
        → IsReached old → IsHeldObject old number object → AreOfObject given old object
        → TakesAllWithin given old old commands replies new → IsConfinedToObject old new number object }
{}

/// Proves that a script has at most one output.
///
/// Two runs of it from one state have the same output bytes, and lead to the same state. Both have
/// an error among their replies, or neither has.
pub fn one_output()
    ensures { (old new other : State) (opening : List Op) (text output other_output : List ℕ)
        (any_error other_error : Bool)
        → ScriptOutput old opening text output any_error new
        → ScriptOutput old opening text other_output other_error other
        → (output ≡ other_output) × (any_error ≡ other_error) × (new ≡ other) }
{}

/// Proves that every script has an output from every state that a run leads to. This holds for all
/// bytes, and for all setup operations that set no address above 2^64 - 1. By [`one_output`] there
/// is no other.
pub fn every_script_has_an_output()
    ensures { (old : State) (opening : List Op) (text : List ℕ) → IsReached old
        → AllByRecursion IsInAddressSpace opening
        → (output : List ℕ) × (any_error : Bool) × (new : State) × ScriptOutput old opening text output any_error new }
{}

/// Proves that the output of a script in two parts is the output of the first part, followed by the
/// output of the second from the state that the first leads to.
///
/// The first part has to be empty or end in a line feed. So a run can be stopped at the end of any
/// line and continued later, and a script can be extended at its end.
pub fn output_in_parts()
    ensures parts { (old new : State) (opening : List Op) (text more output : List ℕ) (any_error : Bool) → EndsLine text
        → (ScriptOutput old opening (text ++ more) output any_error new
        ↔ OutputInParts old opening text more output any_error new) }
    ensures line_feed { (text : List ℕ) → EndsLine (text ++ 10 ∷ []) }
{}

/// Proves that, if a sink failed, the bytes that it took are a prefix of the script's output.
pub fn stopped_output_begins()
    ensures { (room : ℕ) (old new : State) (opening : List Op) (text : List ℕ) (taken taken_now : Option (List ℕ))
        → StopsInReplies room old (commands_of opening text) (Appends taken taken_now) new ⊎ StopsAfterLines old
        opening text (Appends taken taken_now) new
        → BeginsScriptOutput old opening text (Appends taken taken_now) }
{}

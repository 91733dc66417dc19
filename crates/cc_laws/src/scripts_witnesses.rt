//! Proves that the premises of the laws of scripts are met. Each function here does nothing, and its
//! contract is the claim. The script of README, with its output, is in [`worked`](crate::worked_laws).
ghost use Rattle.std.specs.Prelude.{◌≡◌, ℕ, true, [], ◌∷◌, ◌++◌, Some, Ok, Err};
ghost use Rattle.std.specs.Io.KnownBytes.{Appends};
ghost use Rattle.std.specs.List.{AllByRecursion};
ghost use Rattle.cc_word.specs.declared.refusal.Refusal.TheVariants.{Syntax};
ghost use Rattle.cc_bounds.specs.Span.{span_from};
ghost use Rattle.cc_bounds.specs.declared.align.Align.TheVariants.{One};
ghost use Rattle.cc_values.specs.declared.op.Op.TheVariants.{Flag, Show};
ghost use Rattle.cc_values.specs.declared.reply.Reply.TheVariants.{Made, Refused};
ghost use Rattle.cc_syntax.specs.Planning.{plan_opening};
ghost use Rattle.cc_machine.specs.State.{State, initial_state};
ghost use Rattle.cc_machine.specs.Run.{IsInAddressSpace, IsReached};
ghost use Rattle.cc_script.specs.Output.{commands_of};
ghost use Rattle.cc_script.specs.Failures.{StopsAfterLines, StopsInReplies};
ghost use Rattle.cc_script.specs.Laws.{TakesAllWithin};
ghost use Rattle.cc_laws.specs.Witnesses.{is_of_object, with_derived_slot, with_first_object};

/// The state and the setup operations from which the script of README has its output.
fn a_state_with_setup_operations()
    ensures reached { (limit : ℕ) → IsReached (initial_state limit) }
    ensures setup { AllByRecursion IsInAddressSpace (plan_opening 0x10000 65536 One) }
{}

/// A script of a client that is given an object's slot alone: a slot is derived from it, and a line is
/// refused.
fn a_script_within_an_object()
    ensures { (word : ℕ) × TakesAllWithin is_of_object with_first_object with_first_object
        (Ok (Flag 1 true) ∷ Err Syntax ∷ [])
        (Made 2 word (span_from 0 16) ∷ Refused Syntax ∷ []) with_derived_slot }
{}

/// A sink that takes one byte: of the reply to a command, and of the refusal of trailing bytes.
fn a_sink_that_takes_one_byte()
    ensures in_replies { StopsInReplies 193 (initial_state 8) (commands_of (Show 9 ∷ []) [])
        (Appends (Some []) (Some (101 ∷ []))) (initial_state 8) }
    ensures after_lines { (old : State) → StopsAfterLines old [] (120 ∷ []) (Appends (Some []) (Some (101 ∷ []))) old }
{}

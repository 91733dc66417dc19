//! The main theorem of `run` and `plan`. The contract is the law, and the body is empty.
ghost use Rattle.std.specs.Prelude.{◌≡◌, ◌≢◌, ℕ, List, [], Option, Some, Result, true};
ghost use Rattle.cc_io.specs.declared.summary.Summary.{Summary};
ghost use Rattle.cc_word.specs.declared.refusal.Refusal.{Refusal};
ghost use Rattle.cc_values.specs.declared.op.Op.{Op};
ghost use Rattle.cc_machine.specs.State.{State, initial_state};
ghost use Rattle.cc_script.specs.Laws.{KeepsLaws};
ghost use Rattle.cc_script.specs.Main.{IsBetween};
ghost use Rattle.cc_script.specs.Output.{commands_of};
ghost use Rattle.cli.specs.declared.fault.Fault.TheVariants as fault;
ghost use Rattle.cli.specs.declared.outcome.Ending.{Ending};
ghost use Rattle.cli.specs.declared.outcome.Ending.TheVariants.{Answered, Stopped};
ghost use Rattle.cli_program.specs.Ending.{AnswersScript, Failures, NoneFailed, RunsToEnd};
ghost use Rattle.cli_program.specs.Execution.{Script};

/// Proves that a script runs to its end, and all of its output is written, if no device fails.
pub fn unfailing_scripts_run_to_their_end()
    ensures { (script : Script) (bytes taken : List ℕ) (left taken_now : Option (List ℕ)) (failures : Failures)
        (ending : Ending)
        → AnswersScript script bytes taken left taken_now failures ending → NoneFailed failures
        → RunsToEnd script bytes taken taken_now ending }
{}

/// Proves that the laws of every run hold in each state between two commands of a script: authority
/// to seal, confinement, and the way to each capability, besides what the main theorem says.
pub fn scripts_keep_the_laws()
    ensures { (limit : ℕ) (commands : List (Result Op Refusal)) (state : State)
        → IsBetween (initial_state limit) commands state → KeepsLaws (initial_state limit) state }
{}

/// Proves that the program's promise refuses a program that ends well on a script with a command but
/// writes nothing, and one that makes up a failed read.
pub fn false_programs_are_refused()
    ensures silent { (script : Script) (bytes taken : List ℕ) (left : Option (List ℕ)) (failures : Failures)
        (summary : Summary)
        → commands_of script.opening bytes ≢ [] → AnswersScript script bytes taken left (Some taken) failures
        (Answered summary) → ⊥ }
    ensures made_up { (script : Script) (bytes taken : List ℕ) (left taken_now : Option (List ℕ)) (failures : Failures)
        → AnswersScript script bytes taken left taken_now failures (Stopped fault.Read) → failures.read_failed ≡ true }
{}

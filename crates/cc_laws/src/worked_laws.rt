//! A law of one whole script: that of README.
ghost use Rattle.std.specs.Prelude.{◌≡◌, ℕ, Bool, true, List};
ghost use Rattle.cc_bounds.specs.declared.align.Align.TheVariants.{One};
ghost use Rattle.cc_machine.specs.State.{State, initial_state};
ghost use Rattle.cc_syntax.specs.Planning.{plan_opening};
ghost use Rattle.cc_script.specs.Output.{ScriptOutput};
ghost use Rattle.cc_laws.specs.WorkedScript.{readme_output, readme_script};

/// Proves that the script of README has the output that README prints, and no other: its eight lines,
/// byte for byte, of which the last is an error.
///
/// So the definitions that the theorems cite give these bytes by themselves, with no program: how lines
/// are read, the steps of a machine, the words, the placement, the sweep and the text of replies.
pub fn readme_has_its_output()
    ensures output { (new : State)
        × ScriptOutput (initial_state 4096) (plan_opening 0x10000 65536 One) readme_script readme_output true new }
    ensures only { (output : List ℕ) (any_error : Bool) (new : State)
        → ScriptOutput (initial_state 4096) (plan_opening 0x10000 65536 One) readme_script output any_error new
        → (output ≡ readme_output) × (any_error ≡ true) }
{}

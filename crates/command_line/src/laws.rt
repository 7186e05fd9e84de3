//! Laws of words.
ghost use Rattle.std.specs.Prelude.{◌≡◌, ℕ, List};
ghost use Rattle.command_line.specs.Words.{Form, IsForm, Task, Options, run, in_range, IsWithin, AreWithin, self_test};

/// Words have one form at most.
pub fn one_form()
    ensures { (words : List (List ℕ)) (f g : Form) → IsForm words f → IsForm words g → f ≡ g }
{}

/// The numbers of a form are in their ranges: those of its options, and the size of a workload.
pub fn numbers_are_within()
    ensures options { (words : List (List ℕ)) (task : Task) (options : Options) → IsForm words (run task options) → AreWithin options }
    ensures workload { (words : List (List ℕ)) (number size : ℕ) (options : Options) → IsForm words (run (self_test number size) options) → IsWithin (in_range 1 1000) size }
{}

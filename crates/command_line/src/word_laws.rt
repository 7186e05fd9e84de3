//! Laws of what is wrong with words.
ghost use Rattle.std.specs.Prelude.{◌≡◌, ℕ, List};
ghost use Rattle.command_line.specs.Words.{Form, IsForm};
ghost use Rattle.command_line.specs.Faults.{IsFault};
ghost use Rattle.command_line.specs.declared.faults.WordFault.{WordFault};

/// Nothing is wrong with words of a form.
pub fn no_fault_of_a_form()
    ensures { (words : List (List ℕ)) (fault : WordFault) (form : Form) → IsFault words fault → IsForm words form → ⊥ }
{}

//! Laws of all that is read: settings, statements and irregular forms.

ghost use Rattle.std.specs.Prelude.{◌≡◌, ℕ, List, Bool, true, false, Option, Some, None, Result};
ghost use Rattle.grammar_settings.specs.Forms.{Name};
ghost use Rattle.grammar_files.specs.Faults.{FoundFault};
ghost use Rattle.grammar_files.specs.Reads.{ReadTree, ReadsTo};

/// Where the files are told and the shelf doesn't fail, a top name and settings have one outcome.
pub fn one_read()
    ensures { (files : Name → Option (List ℕ)) (top : Name) (settings : Option Name) (r q : Result ReadTree FoundFault)
        → ReadsTo (Some files) (λ _. false) top settings r → ReadsTo (Some files) (λ _. false) top settings q → r ≡ q }
{
    crate::laws::one_walk();
}

/// Where the files are told, and the shelf fails at each name that has none, each top name and settings have an outcome.
pub fn each_read()
    ensures { (files : Name → Option (List ℕ)) (fails : Name → Bool) (top : Name) (settings : Option Name)
        → ((name : Name) → files name ≡ None → fails name ≡ true)
        → (r : Result ReadTree FoundFault) × ReadsTo (Some files) fails top settings r }
{
    crate::laws::each_walk();
}

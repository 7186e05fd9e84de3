//! Laws of the walk over a grammar's files.

ghost use Rattle.std.specs.Prelude.{◌≡◌, ℕ, List, Bool, true, false, Option, Some, None, Result, Ok, Err};
ghost use Rattle.grammar_files.specs.declared.fault.Why.{Why};
ghost use Rattle.grammar_files.specs.Faults.{FoundFault};
ghost use Rattle.grammar_settings.specs.Forms.{Name};
ghost use Rattle.grammar_files.specs.Walks.{Files, WalkedTree, WalksTo};

/// Where the files are told and the shelf doesn't fail, a top name and settings have one outcome.
pub fn one_walk()
    ensures { (files : Name → Option (List ℕ)) (top : Name) (settings : Option Name) (r q : Result WalkedTree FoundFault)
        → WalksTo (Some files) (λ _. false) top settings r → WalksTo (Some files) (λ _. false) top settings q → r ≡ q }
{
    tdl_lexer::one_reading();
    tdl_reader::one_reading();
}

/// Where the files are told, and the shelf fails at each name that has none, each top name and settings have an outcome.
pub fn each_walk()
    ensures { (files : Name → Option (List ℕ)) (fails : Name → Bool) (top : Name) (settings : Option Name)
        → ((name : Name) → files name ≡ None → fails name ≡ true)
        → (r : Result WalkedTree FoundFault) × WalksTo (Some files) fails top settings r }
{
    tdl_lexer::each_has_a_reading();
    tdl_reader::each_has_a_reading();
}

/// What the files say doesn't hang on where the shelf fails, unless it is a fault of the shelf; and that stands at a name at
/// which the shelf fails.
pub fn walk_without_faults()
    ensures walked { (files : Files) (fails other : Name → Bool) (top : Name) (settings : Option Name) (tree : WalkedTree)
        → WalksTo files fails top settings (Ok tree) → WalksTo files other top settings (Ok tree) }
    ensures fault { (files : Files) (fails other : Name → Bool) (top : Name) (settings : Option Name) (f : FoundFault)
        → (f.why ≡ Why.Shelf → ⊥) → WalksTo files fails top settings (Err f) → WalksTo files other top settings (Err f) }
    ensures shelf { (files : Files) (fails : Name → Bool) (top : Name) (settings : Option Name) (f : FoundFault)
        → WalksTo files fails top settings (Err f) → f.why ≡ Why.Shelf → fails f.file ≡ true }
{}

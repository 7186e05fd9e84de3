//! Laws of the grammars of files: told files have one grammar or one first fault, and never both.

ghost use Rattle.std.specs.Prelude.{◌≡◌, ℕ, List, Bool, true, Option, Some, Ok, Err};
ghost use Rattle.lkb_io.specs.Outside.{HasRisen};
ghost use Rattle.grammar_files.specs.declared.fault.Why.{Why};
ghost use Rattle.grammar_files.specs.Faults.{FoundFault};
ghost use Rattle.grammar_load.specs.Loaded.{GrammarTree};
ghost use Rattle.grammar_load.specs.Loads.{Loads};
ghost use Rattle.grammar_load.specs.Outcomes.{IsSameGrammar};
ghost use Rattle.endings.specs.Meanings.{FileFault, Files, Shelves, has_failed};
ghost use Rattle.command_files.specs.Grammars.{never, HasGrammar, IsFirstFault, IsOfShelf};

use grammar_load::expanding_laws::walk_without_faults;
use grammar_load::laws::one_load;

/// What files load to doesn't hang on where the shelf fails, unless it is a fault of the shelf; and that stands at a name at
/// which the shelf fails.
pub fn load_without_faults()
    ensures loaded { (files : Files) (fails other : List ℕ → Bool) (name : List ℕ) (settings : Option (List ℕ)) (g : GrammarTree)
        → Loads files fails name settings (Ok g) → Loads files other name settings (Ok g) }
    ensures fault { (files : Files) (fails other : List ℕ → Bool) (name : List ℕ) (settings : Option (List ℕ)) (f : FoundFault)
        → (f.why ≡ Why.Shelf → ⊥) → Loads files fails name settings (Err f) → Loads files other name settings (Err f) }
    ensures shelf { (files : Files) (fails : List ℕ → Bool) (name : List ℕ) (settings : Option (List ℕ)) (f : FoundFault)
        → Loads files fails name settings (Err f) → f.why ≡ Why.Shelf → fails f.file ≡ true }
{
    walk_without_faults();
}

/// What a command shows of its grammar, whatever it does with it: told files have one grammar, up to how nodes are numbered, or
/// one first fault, and never both; and where the shelf counts no fault, the fault that comes is the first.
pub fn grammar_laws()
    ensures one_grammar { (files : List ℕ → Option (List ℕ)) (name : List ℕ) (settings : Option (List ℕ)) (g h : GrammarTree)
        → HasGrammar (Some files) name settings g → HasGrammar (Some files) name settings h → IsSameGrammar g h }
    ensures one_fault { (files : List ℕ → Option (List ℕ)) (name : List ℕ) (settings : Option (List ℕ)) (verbose : Bool) (f g : FileFault)
        → IsFirstFault name settings verbose (Some files) never f → IsFirstFault name settings verbose (Some files) never g → f.text ≡ g.text }
    ensures not_both { (files : List ℕ → Option (List ℕ)) (name : List ℕ) (settings : Option (List ℕ)) (verbose : Bool) (g : GrammarTree) (f : FileFault)
        → HasGrammar (Some files) name settings g → IsFirstFault name settings verbose (Some files) never f → ⊥ }
    ensures calm { (h : Shelves) (name : List ℕ) (settings : Option (List ℕ)) (verbose : Bool) (fault : FileFault)
        → IsFirstFault name settings verbose h.files (has_failed h) fault → IsOfShelf h fault → (HasRisen h.faults_old h.faults_new → ⊥)
        → IsFirstFault name settings verbose h.files never fault }
{
    one_load();
    load_without_faults();
}

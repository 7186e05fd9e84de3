//! Laws of what the files of a grammar load to.

ghost use Rattle.std.specs.Prelude.{◌≡◌, ℕ, List, Bool, true, false, Option, Some, None, Result, Ok};
ghost use Rattle.grammar_settings.specs.Forms.{Name};
ghost use Rattle.grammar_files.specs.Faults.{FoundFault};
ghost use Rattle.grammar_files.specs.Reads.{ReadTree, ReadsTo};
ghost use Rattle.grammar_load.specs.Loaded.{GrammarTree};
ghost use Rattle.grammar_load.specs.Loads.{Loads};
ghost use Rattle.grammar_load.specs.Outcomes.{IsSameOutcome, HasExpansion};

use fs_model::closure_laws;
use grammar_files::reading_laws::{each_read, one_read};
use grammar_types::laws::one_settling;

/// Where the files are told and the shelf doesn't fail, a top name and settings load to one grammar, or have one first fault,
/// and never both.
pub fn one_load()
    ensures { (files : Name → Option (List ℕ)) (top : Name) (settings : Option Name) (r q : Result GrammarTree FoundFault)
        → Loads (Some files) (λ _. false) top settings r → Loads (Some files) (λ _. false) top settings q → IsSameOutcome r q }
{
    one_read();
    one_settling();
    closure_laws();
}

/// Where the files are told, and the shelf fails at each name that has none, each top name and settings load to a grammar or
/// have a first fault, if what they say has a book or a first fault of types or expansion.
pub fn each_load()
    ensures { (files : Name → Option (List ℕ)) (fails : Name → Bool) (top : Name) (settings : Option Name)
        → ((name : Name) → files name ≡ None → fails name ≡ true)
        → ((read : ReadTree) → ReadsTo (Some files) fails top settings (Ok read) → HasExpansion read.walked)
        → (r : Result GrammarTree FoundFault) × Loads (Some files) fails top settings r }
{
    each_read();
}

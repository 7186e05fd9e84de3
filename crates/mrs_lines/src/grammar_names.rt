//! Names of grammars (DELPH-IN TDL): what a grammar that loads names is named as extraction of MRSs and the texts of trees ask for.

ghost use Rattle.std.specs.Prelude.{Bool, Option, Ok};
ghost use Rattle.grammar_settings.specs.Forms.{Name};
ghost use Rattle.grammar_files.specs.Walks.{Files};
ghost use Rattle.grammar_load.specs.Loaded.{GrammarTree};
ghost use Rattle.grammar_load.specs.Loads.{Loads};
ghost use Rattle.mrs_lines.specs.Fitting.{IsWellNamed};

/// A law: what files load to is named as extraction of MRSs and the texts of trees ask for. The names of its types, features and
/// instances are written as names of TDL, in name characters and ASCII lower case, none of which ends a name of an MRS or in the text
/// of a tree; no two features have one name, nor two instances of one status, since such statements are a fault; and sorts are
/// letters. It does nothing.
pub fn loaded_names()
    ensures { (files : Files) (fails : Name → Bool) (top : Name) (settings : Option Name) (g : GrammarTree) → Loads files fails top settings (Ok g) → IsWellNamed g }
{}

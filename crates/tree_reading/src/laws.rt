//! What follows from the definitions.
ghost use Rattle.std.specs.Prelude.{◌≡◌, ℕ, List};
ghost use Rattle.derivation.specs.Trees.{Derivation};
ghost use Rattle.tree_reading.specs.Grammars.{TreeGrammar, IsNamedWell, IsNamedApart};
ghost use Rattle.tree_reading.specs.Texts.{IsTreeOf, IsFirstFault, Writes};

/// A line has one tree at most, no tree where it has a fault, and one first fault at most.
pub fn tree_laws()
    ensures one { (g : TreeGrammar) (line : List ℕ) (a b : Derivation) → IsNamedWell g → IsNamedApart g → IsTreeOf g line a → IsTreeOf g line b → a ≡ b }
    ensures apart { (g : TreeGrammar) (line : List ℕ) (tree : Derivation) (at : ℕ) → Writes g line tree → IsFirstFault g line at → ⊥ }
    ensures one_fault { (g : TreeGrammar) (line : List ℕ) (at other : ℕ) → IsFirstFault g line at → IsFirstFault g line other → at ≡ other }
{}
